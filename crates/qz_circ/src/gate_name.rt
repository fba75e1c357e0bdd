//! The gates that programs name.

/// A gate that a program may name. What it stands for, up to a global phase, is said by the gates that it is read as.
#[derive(Clone, Copy, PartialEq, Eq)]
pub enum GateName {
    /// `h`
    H,
    /// `x`
    X,
    /// `y`
    Y,
    /// `z`
    Z,
    /// `s`
    S,
    /// `sdg`, the inverse of `s`
    Sdg,
    /// `t`
    T,
    /// `tdg`, the inverse of `t`
    Tdg,
    /// `id`, which is read as no gate
    Id,
    /// `rz`, `u1` or `p`, which take an angle
    Rotation,
    /// `cx`
    Cx,
    /// `cz`
    Cz,
    /// `swap`
    Swap,
    /// `ccx`
    Ccx,
}
