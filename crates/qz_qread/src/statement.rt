//! Statements: what each of them adds to a program.
ghost use Rattle.std.specs.Prelude.{◌≡◌, ◌≤◌, length};
ghost use Rattle.std.specs.List.{list_any};
ghost use Rattle.std.specs.Str.{bytes_eq};
ghost use Rattle.std.specs.Option.{ok_or, option_eq};
ghost use Rattle.std.specs.Bool.{nat_eq};
ghost use Rattle.qz_circ.specs.FirstFault.{Gives, GivesUnless};
ghost use Rattle.qz_circ.specs.Grammar as spec;
ghost use Rattle.qz_circ.specs.Lexemes.{lexeme, lexemes};
ghost use Rattle.qz_circ.specs.GateNames as names;
ghost use Rattle.qz_circ.specs.ProgramLimits.{most_registers};
ghost use Rattle.qz_circ.specs.Programs.{ProgramParts};
ghost use Rattle.qz_qread.specs.Stated as stated;
ghost use Rattle.qz_qread.specs.Views as views;
ghost use Rattle.qz_circ.specs.ValidPrograms.{Valid};

use crate::form::{
    GateForm, barrier_form, declaration_form, gate_form, measure_form, misfit, token,
};
use crate::gate::{add_gates, angle_number, checked_gates, whole_size};
use crate::gate_name::gate_named;
use crate::lexeme::{Sort, begins_lower, is_of, text_of};
use crate::register::{arg, args, declare_bits, declare_qubits};
use qz_circ::{Arg, GateName, Program, QasmFault, Register, Token};
use std::alloc::Global;

// Checks an inclusion, which changes no program.
#[tactic(auto, unfolding(qz_circ::specs::Grammar::with_inclusion))]
fn check_inclusion(bytes: &[u8], ts: &[Token]) -> Result<(), QasmFault>
    ensures { (p : ProgramParts) → Gives (λ _. p) result (spec.with_inclusion (length bytes.now) p (lexemes bytes.now ts.now)) }
{
    let (file, rest) = token(bytes, Sort::Text, ts)?;
    if text_of(bytes, file) != b"\"qelib1.inc\"".as_slice() {
        return Err(QasmFault::Unsupported {
            place: u64::from(file.start),
        });
    }
    token(bytes, Sort::Semicolon, rest)?;
    Ok(())
}

// Adds the register of a declaration of qubits.
fn add_qubits(bytes: &[u8], p: &mut Program, ts: &[Token]) -> Result<(), QasmFault>
    ensures { GivesUnless QasmFault.Memory (λ _. p.new) result (stated.with_qubits (length bytes.now) p.old (lexemes bytes.now ts.now)) }
{
    let declaration = declaration_form(bytes, ts)?;
    declare_qubits(bytes, p, declaration)
}

// Adds the register of a declaration of classical bits.
fn add_bits(bytes: &[u8], p: &mut Program, ts: &[Token]) -> Result<(), QasmFault>
    ensures { GivesUnless QasmFault.Memory (λ _. p.new) result (stated.with_bits (length bytes.now) p.old (lexemes bytes.now ts.now)) }
{
    let declaration = declaration_form(bytes, ts)?;
    declare_bits(bytes, p, declaration)
}

// Adds a barrier.
#[tactic(auto, unfolding(qz_circ::specs::Grammar::with_barrier))]
fn add_barrier(alloc: Global, bytes: &[u8], p: &mut Program, ts: &[Token]) -> Result<(), QasmFault>
    requires { length p.old.qregs ≤ most_registers }
    ensures { GivesUnless QasmFault.Memory (λ _. p.new) result (spec.with_barrier (length bytes.now) p.old (lexemes bytes.now ts.now)) }
{
    let operands = barrier_form(alloc, bytes, ts)?;
    let found = args(alloc, bytes, p.qregs(), &operands)?;
    if p.add_barrier(&found).is_err() {
        return Err(QasmFault::Memory);
    }
    Ok(())
}

// Both operands are whole registers of one size, or both are single.
fn are_alike(qregs: &[Register], from: Arg, cregs: &[Register], to: Arg) -> bool
    ensures { result ≡ option_eq nat_eq (spec.whole_size qregs.now from) (spec.whole_size cregs.now to) }
{
    whole_size(qregs, from) == whole_size(cregs, to)
}

// Adds a measurement.
#[tactic(auto, unfolding(qz_circ::specs::Grammar::with_measurement))]
fn add_measurement(bytes: &[u8], p: &mut Program, ts: &[Token]) -> Result<(), QasmFault>
    requires qregs { length p.old.qregs ≤ most_registers }
    requires cregs { length p.old.cregs ≤ most_registers }
    ensures { GivesUnless QasmFault.Memory (λ _. p.new) result (spec.with_measurement (length bytes.now) p.old (lexemes bytes.now ts.now)) }
{
    let form = measure_form(bytes, ts)?;
    let from = arg(bytes, p.qregs(), form.from)?;
    let to = arg(bytes, p.cregs(), form.to)?;
    if !are_alike(p.qregs(), from, p.cregs(), to) {
        return Err(QasmFault::Sizes {
            place: u64::from(form.to.name.start),
        });
    }
    if p.add_measure(from, to).is_err() {
        return Err(QasmFault::Memory);
    }
    Ok(())
}

// The gate that a word names.
fn known_gate(bytes: &[u8], word: Token) -> Result<GateName, QasmFault>
    ensures { result ≡ ok_or (names.gate_named (lexeme bytes.now word).text) (QasmFault.UnknownGate word.start) }
{
    match gate_named(text_of(bytes, word)) {
        Some(gate) => Ok(gate),
        None => Err(QasmFault::UnknownGate {
            place: u64::from(word.start),
        }),
    }
}

// The form of a gate, which comes before all barriers and measurements.
fn ordered_gate_form<'a>(
    alloc: Global,
    bytes: &[u8],
    p: &Program,
    gate: GateName,
    word: Token,
    ts: &'a [Token],
) -> Result<GateForm<'a>, QasmFault>
    ensures { GivesUnless QasmFault.Memory (views.gate_form bytes.now) result (spec.ordered_gate_form p.now gate (length bytes.now) (lexeme bytes.now word) (lexemes bytes.now ts.now)) }
{
    if !p.tail().is_empty() {
        return Err(QasmFault::Unsupported {
            place: u64::from(word.start),
        });
    }
    gate_form(alloc, bytes, gate, ts)
}

// Adds what a gate is read as.
#[tactic(auto, unfolding(qz_circ::specs::Grammar::with_gate))]
fn add_gate(
    alloc: Global,
    bytes: &[u8],
    p: &mut Program,
    word: Token,
    ts: &[Token],
) -> Result<(), QasmFault>
    requires { Valid p.old }
    ensures { GivesUnless QasmFault.Memory (λ _. p.new) result (spec.with_gate (length bytes.now) p.old (lexeme bytes.now word) (lexemes bytes.now ts.now)) }
{
    let name = known_gate(bytes, word)?;
    let form = ordered_gate_form(alloc, bytes, p, name, word, ts)?;
    let k = angle_number(name, form.angle)?;
    let found = args(alloc, bytes, p.qregs(), &form.operands)?;
    let gates = checked_gates(alloc, p.qregs(), name, k, &form.operands, &found)?;
    add_gates(p, word, &gates)
}

// The words of OpenQASM 2.0 that are not read.
#[tactic(auto, unfolding(qz_circ::specs::Grammar::unsupported_words))]
fn is_unsupported(word: &[u8]) -> bool
    ensures { result ≡ list_any (bytes_eq word.now) spec.unsupported_words }
{
    word == b"if".as_slice()
        || word == b"reset".as_slice()
        || word == b"opaque".as_slice()
        || word == b"gate".as_slice()
        || word == b"U".as_slice()
        || word == b"CX".as_slice()
}

// Adds what a word and the tokens after it state.
#[tactic(auto, unfolding(qz_circ::specs::Grammar::with_words))]
fn add_words(
    alloc: Global,
    bytes: &[u8],
    p: &mut Program,
    word: Token,
    ts: &[Token],
) -> Result<(), QasmFault>
    requires { Valid p.old }
    ensures { GivesUnless QasmFault.Memory (λ _. p.new) result (spec.with_words (length bytes.now) p.old (lexeme bytes.now word) (lexemes bytes.now ts.now)) }
{
    let text = text_of(bytes, word);
    if text == b"include".as_slice() {
        return check_inclusion(bytes, ts);
    }
    if text == b"qreg".as_slice() {
        return add_qubits(bytes, p, ts);
    }
    if text == b"creg".as_slice() {
        return add_bits(bytes, p, ts);
    }
    if text == b"barrier".as_slice() {
        return add_barrier(alloc, bytes, p, ts);
    }
    if text == b"measure".as_slice() {
        return add_measurement(bytes, p, ts);
    }
    if is_unsupported(text) {
        return Err(QasmFault::Unsupported {
            place: u64::from(word.start),
        });
    }
    if begins_lower(text) {
        return add_gate(alloc, bytes, p, word, ts);
    }
    Err(misfit(word))
}

/// Adds what a statement states.
#[tactic(auto, unfolding(qz_circ::specs::Grammar::with_statement))]
pub(crate) fn add_statement(
    alloc: Global,
    bytes: &[u8],
    p: &mut Program,
    ts: &[Token],
) -> Result<(), QasmFault>
    requires { Valid p.old }
    ensures { GivesUnless QasmFault.Memory (λ _. p.new) result (spec.with_statement (length bytes.now) p.old (lexemes bytes.now ts.now)) }
{
    match ts {
        [] => Ok(()),
        [first, rest @ ..] => {
            if is_of(Sort::Word, first.kind) {
                add_words(alloc, bytes, p, *first, rest)
            } else {
                Err(misfit(*first))
            }
        }
    }
}
