//! Registers: their declarations, and operands among them.
ghost use Rattle.std.specs.Prelude.{◌≡◌, ◌<◌, ◌≤◌, length, IfOk, MatchOption, nat_lt, not, ◌+◌};
ghost use Rattle.std.specs.List.{position, list_any, AllByRecursion};
ghost use Rattle.std.specs.Str.{bytes_eq};
ghost use Rattle.qz_circ.specs.Lexemes.{lexeme};
ghost use Rattle.qz_circ.specs.FirstFault.{Gives, GivesUnless};
ghost use Rattle.qz_circ.specs.Forms.{number_of};
ghost use Rattle.qz_circ.specs.Grammar as spec;
ghost use Rattle.qz_circ.specs.ProgramLimits.{most_registers};
ghost use Rattle.qz_circ.specs.Registers.{total_size};
ghost use Rattle.qz_circ.specs.ValidPrograms as valid;
ghost use Rattle.qz_circ.specs.ValidPrograms.{IsOperand, IsPlaceBelow, registers_of};
ghost use Rattle.qz_qread.specs.Views as view;

use crate::form::{Declaration, Operand};
use crate::lexeme::text_of;
use qz_circ::{
    Arg, Kind, MOST_BITS, MOST_QUBITS, MOST_REGISTERS, Program, QasmFault, Register, Token, Which,
    total_size,
};
use std::alloc::Global;

// The number that a token means, 0 where it isn't a whole one.
fn value_of(t: Token) -> u64
    ensures { result ≡ number_of t.kind }
{
    match t.kind {
        Kind::Whole(n) => n,
        _ => 0,
    }
}

// The number of the first register with a name.
fn number_of_name(registers: &[Register], name: &[u8]) -> Option<usize>
    ensures value { result ≡ position (λ r. bytes_eq r.name name.now) registers.now }
    ensures within { MatchOption result (Unit {0}) (λ k. k < length registers.now) }
{
    registers.iter().position(|r| r.name() == name)
}

// The number of the register with a name.
#[tactic(auto, unfolding(qz_circ::specs::Grammar::register_named))]
fn register_named(bytes: &[u8], registers: &[Register], name: Token) -> Result<usize, QasmFault>
    ensures value { result ≡ spec.register_named registers.now (lexeme bytes.now name) }
    ensures within { IfOk result (λ k. k < length registers.now) }
{
    match number_of_name(registers, text_of(bytes, name)) {
        Some(k) => Ok(k),
        None => Err(QasmFault::UnknownName {
            place: u64::from(name.start),
        }),
    }
}

// A place below the size of its register, where there is one.
fn index_below(bytes: &[u8], size: u16, index: Option<Token>) -> Result<Option<u16>, QasmFault>
    ensures value { result ≡ spec.index_below size (view.index bytes.now index) }
    ensures within { IfOk result (IsPlaceBelow size) }
{
    let Some(number) = index else {
        return Ok(None);
    };
    let place = value_of(number);
    if place < u64::from(size) {
        Ok(Some(place as u16))
    } else {
        Err(QasmFault::Index {
            place: u64::from(number.start),
        })
    }
}

// How many places the register with this number has, 0 where there is none.
pub(crate) fn size_at(registers: &[Register], k: usize) -> u16
    ensures { result ≡ valid.size_at registers.now k }
{
    match registers.get(k) {
        Some(r) => r.size(),
        None => 0,
    }
}

/// An operand among these registers.
#[tactic(auto, unfolding(qz_circ::specs::Grammar::arg_of))]
pub(crate) fn arg(bytes: &[u8], registers: &[Register], o: Operand) -> Result<Arg, QasmFault>
    requires { length registers.now ≤ most_registers }
    ensures value { result ≡ spec.arg_of registers.now (view.operand bytes.now o) }
    ensures within { IfOk result (IsOperand registers.now) }
{
    let register = register_named(bytes, registers, o.name)?;
    let index = index_below(bytes, size_at(registers, register), o.index)?;
    Ok(Arg {
        register: register as u8,
        index,
    })
}

/// Operands among these registers, from left to right.
pub(crate) fn args(
    alloc: Global,
    bytes: &[u8],
    registers: &[Register],
    operands: &[Operand],
) -> Result<Vec<Arg>, QasmFault>
    requires { length registers.now ≤ most_registers }
    ensures value { GivesUnless QasmFault.Memory (λ v. v.items) result (spec.args_of registers.now (view.operands bytes.now operands.now)) }
    ensures within { IfOk result (λ v. AllByRecursion (IsOperand registers.now) v.items) }
{
    let mut args = Vec::new(alloc);
    for o in operands {
        match arg(bytes, registers, *o) {
            Ok(found) => {
                if args.push(found).is_err() {
                    return Err(QasmFault::Memory);
                }
            }
            Err(fault) => return Err(fault),
        }
    }
    Ok(args)
}

// One of the registers has the name.
fn has_name(registers: &[Register], name: &[u8]) -> bool
    ensures { result ≡ list_any (λ r. bytes_eq r.name name.now) registers.now }
{
    registers.iter().any(|r| r.name() == name)
}

// A register of either kind has the name.
fn has_register(p: &Program, name: &[u8]) -> bool
    ensures { result ≡ spec.has_register p.now name.now }
{
    has_name(p.qregs(), name) || has_name(p.cregs(), name)
}

// There may be another register.
fn has_room(p: &Program) -> bool
    ensures { result ≡ nat_lt (length (registers_of p.now)) most_registers }
{
    let left = MOST_REGISTERS.saturating_sub(p.qregs().len());
    p.cregs().len() < left
}

// The size of a register that may be declared: its name is new, and there may be another register.
#[tactic(auto, unfolding(qz_circ::specs::Grammar::declared))]
fn declared(bytes: &[u8], p: &Program, d: Declaration) -> Result<u64, QasmFault>
    ensures value { Gives (λ size. record { name = (lexeme bytes.now d.name).text; size = size }) result (spec.declared p.now (view.declaration bytes.now d)) }
    ensures few { IfOk result (λ _. length (registers_of p.now) < most_registers) }
{
    if has_register(p, text_of(bytes, d.name)) {
        return Err(QasmFault::Twice {
            place: u64::from(d.name.start),
        });
    }
    if has_room(p) {
        Ok(value_of(d.size))
    } else {
        Err(QasmFault::Limit {
            which: Which::ProgramRegisters,
            place: u64::from(d.name.start),
        })
    }
}

// A register of this size more keeps the total within a limit.
fn fits(registers: &[Register], size: u64, limit: u64) -> bool
    requires { length registers.now < most_registers }
    ensures { result ≡ not (nat_lt limit (total_size registers.now + size)) }
{
    let total = u64::from(total_size(registers));
    total <= limit && size <= limit - total
}

/// Adds a register of qubits, while all together are within their limit.
#[tactic(auto, unfolding(qz_circ::specs::Grammar::with_qreg))]
pub(crate) fn declare_qubits(bytes: &[u8], p: &mut Program, d: Declaration) -> Result<(), QasmFault>
    ensures { GivesUnless QasmFault.Memory (λ _. p.new) result (spec.with_qreg p.old (view.declaration bytes.now d)) }
{
    let size = declared(bytes, p, d)?;
    if !fits(p.qregs(), size, MOST_QUBITS as u64) {
        return Err(QasmFault::Limit {
            which: Which::ProgramQubits,
            place: u64::from(d.size.start),
        });
    }
    if p.add_qreg(text_of(bytes, d.name), size as u16).is_err() {
        return Err(QasmFault::Memory);
    }
    Ok(())
}

/// Adds a register of classical bits, while all together are within their limit.
#[tactic(auto, unfolding(qz_circ::specs::Grammar::with_creg))]
pub(crate) fn declare_bits(bytes: &[u8], p: &mut Program, d: Declaration) -> Result<(), QasmFault>
    ensures { GivesUnless QasmFault.Memory (λ _. p.new) result (spec.with_creg p.old (view.declaration bytes.now d)) }
{
    let size = declared(bytes, p, d)?;
    if !fits(p.cregs(), size, MOST_BITS as u64) {
        return Err(QasmFault::Limit {
            which: Which::ProgramBits,
            place: u64::from(d.size.start),
        });
    }
    if p.add_creg(text_of(bytes, d.name), size as u16).is_err() {
        return Err(QasmFault::Memory);
    }
    Ok(())
}
