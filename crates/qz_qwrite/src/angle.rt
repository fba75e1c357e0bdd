//! The texts of angles.
ghost use Rattle.std.specs.Prelude.{◌≡◌, ◌<◌, ◌++◌, OnOk};
ghost use Rattle.std.specs.Fmt.{decimal};
ghost use Rattle.qz_circ.specs.ProgramText.{lowest_terms, multiple_text, divisor_text, positive_angle_text, angle_text};

use itoa::Buffer;
use std::alloc::AllocError;

// Appends a number.
pub(crate) fn push_number(out: &mut Vec<u8>, n: u16) -> Result<(), AllocError>
    ensures { OnOk result (out.new.items ≡ out.old.items ++ decimal n) }
{
    let mut buffer = Buffer::new();
    out.extend_from_slice(buffer.format(n).as_bytes())
}

// The numerator and the denominator of m/256 in lowest terms.
fn lowest_terms(m: u16) -> (u16, u16)
    ensures { result ≡ lowest_terms 8 m }
{
    let mut numerator = m;
    let mut power = 8;
    while power > 0 && numerator % 2 == 0 {
        numerator /= 2;
        power -= 1;
    }
    (numerator, 2_u16.pow(power))
}

#[tactic(auto, unfolding(qz_circ::specs::ProgramText::multiple_text))]
fn push_multiple(out: &mut Vec<u8>, numerator: u16) -> Result<(), AllocError>
    ensures { OnOk result (out.new.items ≡ out.old.items ++ multiple_text numerator) }
{
    if numerator == 1 {
        return out.extend_from_slice(b"pi");
    }
    push_number(out, numerator)?;
    out.extend_from_slice(b"*pi")
}

#[tactic(auto, unfolding(qz_circ::specs::ProgramText::divisor_text))]
fn push_divisor(out: &mut Vec<u8>, denominator: u16) -> Result<(), AllocError>
    ensures { OnOk result (out.new.items ≡ out.old.items ++ divisor_text denominator) }
{
    if denominator == 1 {
        return Ok(());
    }
    out.push(b'/')?;
    push_number(out, denominator)
}

#[tactic(auto, unfolding(qz_circ::specs::ProgramText::positive_angle_text))]
fn push_part(out: &mut Vec<u8>, m: u16) -> Result<(), AllocError>
    ensures { OnOk result (out.new.items ≡ out.old.items ++ positive_angle_text m) }
{
    let (numerator, denominator) = lowest_terms(m);
    push_multiple(out, numerator)?;
    push_divisor(out, denominator)
}

// Appends the angle with this number.
#[tactic(auto, unfolding(qz_circ::specs::ProgramText::angle_text))]
pub(crate) fn push_angle(out: &mut Vec<u8>, k: u16) -> Result<(), AllocError>
    requires { k < 512 }
    ensures { OnOk result (out.new.items ≡ out.old.items ++ angle_text k) }
{
    if k > 256 {
        out.push(b'-')?;
        return push_part(out, 512 - k);
    }
    push_part(out, k)
}
