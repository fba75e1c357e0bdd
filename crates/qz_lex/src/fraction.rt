//! Values of angles: fractions, plain or of pi.
ghost use Rattle.std.specs.Prelude.{◌<◌, ◌≤◌, ◌^◌};

/// A fraction: a sign, the numerator without it, and the denominator; a plain number or a multiple of pi.
#[derive(Clone, Copy)]
pub(crate) struct Fraction {
    /// It is below 0, or 0.
    pub(crate) is_negative: bool,
    /// The numerator without its sign.
    pub(crate) size: u64,
    /// The denominator.
    pub(crate) denominator: u64,
    /// It is a multiple of pi.
    pub(crate) is_angle: bool,
    ghost divides: { 0 < denominator },
    ghost small: { denominator ≤ 10 ^ 18 },
}
