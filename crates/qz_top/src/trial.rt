//! The command that makes a circuit from a number, and says how short the search makes it.
ghost use Rattle.std.specs.Prelude.{◌≡◌, ℕ, ◌+◌, ◌*◌, ◌<◌, ◌≤◌, ◌++◌, length, IfOk, OnOk};
ghost use Rattle.std.specs.Fmt.{decimal};
ghost use Rattle.std.specs.List.{AllByRecursion};
ghost use Rattle.qz_circ.specs.Bounds.{IsLawful};
ghost use Rattle.qz_circ.specs.Classes.{IsClassList, HasEquivalentMembers};
ghost use Rattle.qz_circ.specs.Joined.{circuits_of_ranks};
ghost use Rattle.qz_circ.specs.Lines.{line};
ghost use Rattle.qz_circ.specs.ProgramCircuits.{IsProgramGate};
ghost use Rattle.qz_io.specs.Transfers.{Input};
ghost use Rattle.qz_top.specs.Answer.{Storage, IsCalm, sink_shown, IsCarriedOut};
ghost use Rattle.qz_random.specs.RandomWords.{generator_after};
ghost use Rattle.qz_top.specs.Status.{WritesNothing};
ghost use Rattle.qz_top.specs.Words.{IsTrialSize};
ghost use Rattle.qz_top.specs.Trial.{controlled, gate_of_kind, trial_gate, trial_circuit, trial_limits, trial_plan, AreTrialClasses, IsTrialFound, summary, IsTrialText, Tries};
ghost use Rattle.qz_circ.specs.ProgramLimits.{most_qubits, most_gates};

use crate::status::Status;
use crate::writing::write_text;
use itoa::Buffer;
use qz_circ::{Bounds, Classes, Inst, Memory};
use qz_io::Sink;
use qz_random::{generator, next_word};
use qz_repgen::generate_one;
use qz_rulefile::{Rules, print, read};
use qz_search::{Plan, search};
use rand_pcg::Pcg64;
use std::alloc::{AllocError, Global};

// NOT of another one of some qubits where this one is 1, counted round from the next; NOT where there is only one.
fn controlled(qubits: u64, a: u64, past: u64) -> Inst
    requires some { 1 ≤ qubits }
    requires few { qubits ≤ 64 }
    requires below { a < qubits }
    ensures { result ≡ controlled qubits a past }
{
    if qubits == 1 {
        return Inst::X(a as u8);
    }
    let b = (a + 1 + past % (qubits - 1)) % qubits;
    Inst::Cx(a as u8, b as u8)
}

// The gate of a kind from 0 to 3 on this qubit.
fn gate_of_kind(qubits: u64, kind: u64, a: u64, choice: u64) -> Inst
    requires some { 1 ≤ qubits }
    requires few { qubits ≤ 64 }
    requires below { a < qubits }
    ensures { result ≡ gate_of_kind qubits kind a choice }
{
    match kind {
        0 => Inst::H(a as u8),
        1 => Inst::X(a as u8),
        2 => controlled(qubits, a, choice),
        _ => Inst::Rz(a as u8, 64 * (1 + (choice % 7) as u16)),
    }
}

// The next gate of a trial, which takes three words.
#[tactic(auto, unfolding(crate::specs::Trial::trial_gate))]
fn next_gate(words: &mut Pcg64, qubits: u64) -> Inst
    requires some { 1 ≤ qubits }
    requires few { qubits ≤ 64 }
    ensures gate { (seed k : ℕ) → words.old ≡ generator_after seed (3 * k) → result ≡ trial_gate seed qubits k }
    ensures moved { (seed k : ℕ) → words.old ≡ generator_after seed (3 * k) → words.new ≡ generator_after seed (3 * (k + 1)) }
{
    let kind = next_word(words) % 4;
    let a = next_word(words) % qubits;
    let choice = next_word(words);
    gate_of_kind(qubits, kind, a, choice)
}

// The circuit of a trial.
fn trial_circuit(alloc: Global, seed: u64, qubits: u64, gates: u64) -> Result<Vec<Inst>, Memory>
    requires { IsTrialSize qubits gates }
    ensures circuit { IfOk result (λ circuit. circuit.items ≡ trial_circuit seed qubits gates) }
    ensures gates { IfOk result (λ circuit. AllByRecursion (IsProgramGate qubits) circuit.items) }
{
    let mut words = generator(seed);
    let mut circuit = Vec::new(alloc);
    for _k in 0..gates {
        let gate = next_gate(&mut words, qubits);
        if circuit.push(gate).is_err() {
            return Err(Memory);
        }
    }
    Ok(circuit)
}

// The bounds of the rules of a trial.
fn bounds() -> Bounds
    ensures { result ≡ trial_limits }
{
    Bounds::new(2, 2, 1).unwrap()
}

// The plan of the search of a trial.
fn plan() -> Plan
    ensures { result ≡ trial_plan }
{
    Plan::new(4, 2, 20, 0).unwrap()
}

// A class list as rules: what its rule file says. As it is written so it is read, so only memory can be wanting.
fn as_rules(alloc: Global, classes: &Classes) -> Result<Rules, Memory>
    requires lawful { IsLawful classes.now.bounds }
    requires class_list { IsClassList classes.now.bounds classes.now.lists }
    requires equivalent { HasEquivalentMembers classes.now.bounds classes.now.lists }
    ensures { IfOk result (λ rules. rules.classes ≡ circuits_of_ranks classes.now.bounds classes.now.lists) }
{
    let text = print(alloc, classes)?;
    match read(alloc, &text) {
        Ok(rules) => Ok(rules),
        Err(_) => Err(Memory),
    }
}

// The rules of a trial.
fn rules(alloc: Global) -> Result<Rules, Memory>
    ensures { IfOk result (λ rules. AreTrialClasses rules.classes) }
{
    let (classes, _) = generate_one(alloc, bounds(), 0)?;
    as_rules(alloc, &classes)
}

// The circuit that the search of a trial finds from this one.
fn found(alloc: Global, circuit: &[Inst]) -> Result<Vec<Inst>, Memory>
    requires few { length circuit.now ≤ most_gates }
    requires gates { AllByRecursion (IsProgramGate most_qubits) circuit.now }
    ensures { IfOk result (λ after. IsTrialFound circuit.now after.items) }
{
    let rules = rules(alloc)?;
    search(alloc, &rules, circuit, plan())
}

// Appends a word and a number.
fn push_numbered(out: &mut Vec<u8>, word: &[u8], n: u64) -> Result<(), AllocError>
    ensures { OnOk result (out.new.items ≡ out.old.items ++ word.now ++ decimal n) }
{
    let mut buffer = Buffer::new();
    out.extend_from_slice(word)?;
    out.extend_from_slice(buffer.format(n).as_bytes())
}

// Appends the end of a line: a word and a number.
fn push_line(out: &mut Vec<u8>, word: &[u8], n: u64) -> Result<(), AllocError>
    ensures { OnOk result (out.new.items ≡ out.old.items ++ line (word.now ++ decimal n)) }
{
    push_numbered(out, word, n)?;
    out.extend_from_slice(b"\n")
}

// The summary of a circuit and one that was found from it.
#[tactic(auto, unfolding(crate::specs::Trial::summary))]
fn summary(
    alloc: Global,
    seed: u64,
    qubits: u64,
    gates: u64,
    before: &[Inst],
    after: &[Inst],
) -> Result<Vec<u8>, AllocError>
    ensures { IfOk result (λ text. text.items ≡ summary seed qubits gates before.now after.now) }
{
    let mut text = Vec::new(alloc);
    push_numbered(&mut text, b"trial ", seed)?;
    push_numbered(&mut text, b" ", qubits)?;
    push_line(&mut text, b" ", gates)?;
    push_line(&mut text, b"before ", before.len() as u64)?;
    push_line(&mut text, b"after ", after.len() as u64)?;
    Ok(text)
}

// The text of a trial.
fn trial_text(alloc: Global, seed: u64, qubits: u64, gates: u64) -> Result<Vec<u8>, Memory>
    requires { IsTrialSize qubits gates }
    ensures { IfOk result (λ text. IsTrialText seed qubits gates text.items) }
{
    let before = trial_circuit(alloc, seed, qubits, gates)?;
    let after = found(alloc, &before)?;
    match summary(alloc, seed, qubits, gates, &before, &after) {
        Ok(text) => Ok(text),
        Err(_) => Err(Memory),
    }
}

// Makes a circuit of so many gates on so many qubits from a seed, searches from it, and writes how many gates there are before
// and after.
pub(crate) fn trial<O: Sink>(
    alloc: Global,
    seed: u64,
    qubits: u64,
    gates: u64,
    out: &mut O,
) -> Status
    requires { IsTrialSize qubits gates }
    // Whatever the input and the shelf are, as long as they have no fault.
    ensures carried_out { (input : Input) (shelf : Storage) → input.faults_after ≡ input.faults_before → IsCalm shelf → IsCarriedOut (λ given. Tries seed qubits gates) result
        (record { input = input; shelf = shelf; out = sink_shown O.Sink out.old out.new }) }
    ensures begun { WritesNothing result → ⊥ }
    ensures faults { O.faults out.old ≤ O.faults out.new }
    ensures wants { O.wants out.old ≤ O.wants out.new }
{
    let Ok(text) = trial_text(alloc, seed, qubits, gates) else {
        return Status::Memory;
    };
    write_text(&text, out)
}
