//! Gates of programs: their angles, and the qubits that they are applied to.
ghost use Rattle.std.specs.Prelude.{◌≡◌, ◌<◌, ◌≤◌, ℕ, List, not, ◌==◌, ◌+◌, nat_lt, length, false, map, slice_index, true, IfOk};
ghost use Rattle.std.specs.List.{list_any, AllByRecursion};
ghost use Rattle.std.specs.Option.{option_map_or};
ghost use Rattle.qz_circ.specs.Circuit.{below};
ghost use Rattle.qz_circ.specs.FirstFault.{GivesUnless};
ghost use Rattle.qz_circ.specs.GateNames.{takes_angle};
ghost use Rattle.qz_circ.specs.Grammar as spec;
ghost use Rattle.qz_circ.specs.Lexemes.{lexeme, lexemes};
ghost use Rattle.qz_circ.specs.ProgramLimits.{most_registers, most_qubits, most_gates};
ghost use Rattle.qz_circ.specs.Registers.{total_size};
ghost use Rattle.qz_circ.specs.ValidPrograms.{IsOperand};
ghost use Rattle.qz_qread.specs.Views as view;

use crate::form::Operand;
use crate::gate_name::{push_gates, takes_angle};
use crate::register::size_at;
use qz_circ::{
    Arg, GateName, Inst, MOST_GATES, Program, QasmFault, Register, Token, Which, total_size,
};
use qz_lex::angle;
use std::alloc::{AllocError, Global};

// The size of an operand that is a whole register.
pub(crate) fn whole_size(registers: &[Register], a: Arg) -> Option<u16>
    ensures { result ≡ spec.whole_size registers.now a }
{
    match a.index {
        None => Some(size_at(registers, a.register as usize)),
        Some(_) => None,
    }
}

// How often a gate is applied: once for each place of its first whole register, and once where it has none.
#[tactic(auto, unfolding(qz_circ::specs::Grammar::repetitions))]
fn repetitions(registers: &[Register], args: &[Arg]) -> u16
    ensures { result ≡ spec.repetitions registers.now args.now }
{
    for a in args {
        if let Some(n) = whole_size(registers, *a) {
            return n;
        }
    }
    1
}

// The operand is a whole register of another size.
fn has_other_size(registers: &[Register], size: u16, a: Arg) -> bool
    ensures { result ≡ option_map_or (λ n. not (n == size)) (spec.whole_size registers.now a) false }
{
    match whole_size(registers, a) {
        Some(n) => n != size,
        None => false,
    }
}

// The number of the first operand that is a whole register with another size than the first of these.
#[tactic(auto, unfolding(qz_circ::specs::Grammar::other_size))]
fn other_size(registers: &[Register], args: &[Arg]) -> Option<usize>
    ensures { result ≡ spec.other_size registers.now args.now }
{
    let size = repetitions(registers, args);
    args.iter()
        .position(|a| has_other_size(registers, size, *a))
}

// The qubit of an operand at repetition i.
#[tactic(auto, unfolding(qz_circ::specs::Grammar::qubit_at))]
fn qubit_at(registers: &[Register], i: u16, a: Arg) -> u64
    requires { length registers.now ≤ most_registers }
    ensures { result ≡ spec.qubit_at registers.now i a }
{
    let (before, _) = registers.split_at(registers.len().min(a.register as usize));
    u64::from(total_size(before)) + u64::from(a.index.unwrap_or(i))
}

// One of these operands has the qubit at repetition i.
fn has_qubit(registers: &[Register], args: &[Arg], i: u16, qubit: u64) -> bool
    requires { length registers.now ≤ most_registers }
    ensures { result ≡ list_any (λ a. spec.qubit_at registers.now i a == qubit) args.now }
{
    args.iter().any(|a| qubit_at(registers, i, *a) == qubit)
}

// The operand with number j has at repetition i the qubit of one of those before it.
fn is_repeated(registers: &[Register], args: &[Arg], i: u16, j: usize) -> bool
    requires few { length registers.now ≤ most_registers }
    requires within { j < length args.now }
    ensures { result ≡ spec.is_repeated (spec.qubits_at registers.now args.now i) j }
{
    let (before, _) = args.split_at(j);
    has_qubit(registers, before, i, qubit_at(registers, i, args[j]))
}

// The same at some repetition of so many.
fn is_ever_repeated(registers: &[Register], args: &[Arg], times: u16, j: usize) -> bool
    requires few { length registers.now ≤ most_registers }
    requires within { j < length args.now }
    ensures { result ≡ list_any (λ i. spec.is_repeated (spec.qubits_at registers.now args.now i) j) (below times) }
{
    (0..times).any(|i| is_repeated(registers, args, i, j))
}

// The number of the first operand that has at some repetition the qubit of one before it.
#[tactic(auto, unfolding(qz_circ::specs::Grammar::same_qubit))]
fn same_qubit(registers: &[Register], args: &[Arg]) -> Option<usize>
    requires { length registers.now ≤ most_registers }
    ensures { result ≡ spec.same_qubit registers.now args.now }
{
    let times = repetitions(registers, args);
    (0..args.len()).position(|j| is_ever_repeated(registers, args, times, j))
}

// The qubit of the operand with number j at repetition i, 0 where there is no such operand.
fn qubit_of(registers: &[Register], args: &[Arg], i: u16, j: usize) -> u8
    requires few { length registers.now ≤ most_registers }
    requires below { slice_index (spec.qubits_at registers.now args.now i) j < most_qubits }
    ensures { result ≡ slice_index (spec.qubits_at registers.now args.now i) j }
{
    match args.get(j) {
        Some(a) => qubit_at(registers, i, *a) as u8,
        None => 0,
    }
}

// The gates at all repetitions.
#[tactic(auto, unfolding(qz_circ::specs::Grammar::applied))]
fn applied(
    alloc: Global,
    registers: &[Register],
    gate: GateName,
    k: u16,
    args: &[Arg],
) -> Result<Vec<Inst>, AllocError>
    requires few { length registers.now ≤ most_registers }
    requires below { (i j : ℕ) → i < spec.repetitions registers.now args.now → slice_index (spec.qubits_at registers.now args.now i) j < most_qubits }
    ensures { IfOk result (λ gates. gates.items ≡ spec.applied registers.now gate k args.now) }
{
    let mut gates = Vec::new(alloc);
    for i in 0..repetitions(registers, args) {
        let a = qubit_of(registers, args, i, 0);
        let b = qubit_of(registers, args, i, 1);
        let c = qubit_of(registers, args, i, 2);
        push_gates(&mut gates, gate, k, a, b, c)?;
    }
    Ok(gates)
}

// Where the name of the operand with number j begins, 0 where there is no such operand.
fn place_at(operands: &[Operand], j: usize) -> u64
    ensures { result ≡ slice_index (map (λ o. o.name.start) operands.now) j }
{
    match operands.get(j) {
        Some(o) => u64::from(o.name.start),
        None => 0,
    }
}

/// The gates, where whole registers have one size and no operand has the qubit of one before it.
#[tactic(auto, unfolding(qz_circ::specs::Grammar::checked_gates))]
pub(crate) fn checked_gates(
    alloc: Global,
    registers: &[Register],
    gate: GateName,
    k: u16,
    operands: &[Operand],
    args: &[Arg],
) -> Result<Vec<Inst>, QasmFault>
    requires few { length registers.now ≤ most_registers }
    requires few_qubits { total_size registers.now ≤ most_qubits }
    requires operands { AllByRecursion (IsOperand registers.now) args.now }
    ensures { (bytes : List ℕ) → GivesUnless QasmFault.Memory (λ gates. gates.items) result (spec.checked_gates registers.now gate k (view.operands bytes operands.now) args.now) }
{
    if let Some(j) = other_size(registers, args) {
        return Err(QasmFault::Sizes {
            place: place_at(operands, j),
        });
    }
    if let Some(j) = same_qubit(registers, args) {
        return Err(QasmFault::SameQubit {
            place: place_at(operands, j),
        });
    }
    match applied(alloc, registers, gate, k, args) {
        Ok(gates) => Ok(gates),
        Err(_) => Err(QasmFault::Memory),
    }
}

/// The number of a gate's angle, which is 0 where it takes none.
#[tactic(auto, unfolding(qz_circ::specs::Grammar::angle_number))]
pub(crate) fn angle_number(gate: GateName, tokens: &[Token]) -> Result<u16, QasmFault>
    requires { takes_angle gate ≡ true → 0 < length tokens.now }
    ensures value { (bytes : List ℕ) → result ≡ spec.angle_number gate (lexemes bytes tokens.now) }
    ensures below { IfOk result (λ k. k < 512) }
{
    if !takes_angle(gate) {
        return Ok(0);
    }
    match angle(tokens) {
        Ok(k) => Ok(k),
        Err(fault) => Err(QasmFault::Angle(fault)),
    }
}

// So many gates more are within the limit.
fn has_room(p: &Program, count: usize) -> bool
    ensures { result ≡ not (nat_lt most_gates (length p.now.gates + count)) }
{
    let present = p.gates().len();
    present <= MOST_GATES && count <= MOST_GATES - present
}

/// Adds gates, while all together are within their limit.
#[tactic(auto, unfolding(qz_circ::specs::Grammar::with_gates))]
pub(crate) fn add_gates(p: &mut Program, word: Token, gates: &[Inst]) -> Result<(), QasmFault>
    ensures { (bytes : List ℕ) → GivesUnless QasmFault.Memory (λ _. p.new) result (spec.with_gates p.old (lexeme bytes word) gates.now) }
{
    if !has_room(p, gates.len()) {
        return Err(QasmFault::Limit {
            which: Which::ProgramGates,
            place: u64::from(word.start),
        });
    }
    for g in gates {
        if p.add_gate(*g).is_err() {
            return Err(QasmFault::Memory);
        }
    }
    Ok(())
}
