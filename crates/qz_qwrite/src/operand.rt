//! The texts of operands.
ghost use Rattle.std.specs.Prelude.{◌≡◌, ◌<◌, ◌++◌, length, map, OnOk};
ghost use Rattle.std.specs.List.{AllByRecursion, join_with_byte};
ghost use Rattle.qz_circ.specs.ProgramText.{indexed_text, operand_text};
ghost use Rattle.qz_circ.specs.ValidPrograms.{IsOperand};

use crate::angle::push_number;
use qz_circ::{Arg, Register};
use std::alloc::AllocError;

// Appends a name and a number in brackets.
#[tactic(auto, unfolding(qz_circ::specs::ProgramText::indexed_text))]
pub(crate) fn push_indexed(out: &mut Vec<u8>, name: &[u8], n: u16) -> Result<(), AllocError>
    ensures { OnOk result (out.new.items ≡ out.old.items ++ indexed_text name.now n) }
{
    out.extend_from_slice(name)?;
    out.push(b'[')?;
    push_number(out, n)?;
    out.push(b']')?;
    Ok(())
}

// Appends an operand.
#[tactic(auto, unfolding(qz_circ::specs::ProgramText::operand_text))]
pub(crate) fn push_operand(
    out: &mut Vec<u8>,
    registers: &[Register],
    a: Arg,
) -> Result<(), AllocError>
    requires { a.register < length registers.now }
    ensures { OnOk result (out.new.items ≡ out.old.items ++ operand_text registers.now a) }
{
    let name = registers[a.register as usize].name();
    match a.index {
        None => out.extend_from_slice(name),
        Some(place) => push_indexed(out, name, place),
    }
}

// Appends operands with commas between them.
pub(crate) fn push_operands(
    out: &mut Vec<u8>,
    registers: &[Register],
    args: &[Arg],
) -> Result<(), AllocError>
    requires { AllByRecursion (IsOperand registers.now) args.now }
    ensures { OnOk result (out.new.items ≡ out.old.items ++ join_with_byte 44 (map (operand_text registers.now) args.now)) }
{
    let [first, rest @ ..] = args else {
        return Ok(());
    };
    push_operand(out, registers, *first)?;
    for a in rest {
        out.push(b',')?;
        push_operand(out, registers, *a)?;
    }
    Ok(())
}
