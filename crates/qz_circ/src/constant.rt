//! The constants of rules, which count sixteenths of π.
ghost use Rattle.std.specs.Prelude.{◌≡◌, ◌<◌, true};
ghost use Rattle.qz_circ.specs.Bounds.{is_grain};
ghost use Rattle.qz_circ.specs.Circuit.{constant_of, multiple_of};
ghost use Rattle.qz_circ.specs.Exponent.{constant_turn};

/// The angle of `Const(t)`, t·π/16, as a number of π/256, below the 512 of a full circle.
pub fn constant_turn(t: u8) -> u16
    ensures value { result ≡ constant_turn t }
    ensures proper { result < 512 }
{
    16 * u16::from(t) % 512
}

/// This multiple of π/grain, from 0 to 63, in sixteenths of π. The grain is 4, 8 or 16.
pub fn constant_of(multiple: u8, grain: u64) -> u8
    requires { is_grain grain ≡ true }
    ensures { multiple < 64 → result ≡ constant_of grain multiple }
{
    if grain == 4 {
        return multiple.saturating_mul(4);
    }
    if grain == 8 {
        return multiple.saturating_mul(2);
    }
    multiple
}

/// Which multiple of π/grain t sixteenths of π are; the one below them, where they are between two. The grain is 4, 8 or 16.
pub fn multiple_of(t: u8, grain: u64) -> u64
    requires { is_grain grain ≡ true }
    ensures { result ≡ multiple_of grain t }
{
    u64::from(t) * grain / 16
}
