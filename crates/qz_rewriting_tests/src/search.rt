//! The search by rounds over the children by rules.
ghost use Rattle.std.specs.Prelude.{◌≤◌, length};
ghost use Rattle.std.specs.List.{AllByRecursion};
ghost use Rattle.qz_circ.specs.ProgramCircuits.{IsProgramGate};

use qz_circ::Inst;
use qz_rulefile::{Rules, read};
use qz_samples::two_gates;
use qz_search::{Plan, search};
use std::alloc::Global;
use std::test::Fail;

// The class list for 2 gates on one qubit, as rules.
fn one_qubit_rules(alloc: Global) -> Option<Rules> {
    read(alloc, two_gates().as_bytes()).ok()
}

// No rules.
fn no_rules(alloc: Global) -> Option<Rules> {
    read(alloc, b"quartz-rules 1\nbounds 2 1 0\nclasses 0\nend\n").ok()
}

// Whether a search by a plan of these numbers finds these gates.
fn finds(
    alloc: Global,
    rules: &Rules,
    numbers: [u64; 4],
    c: &[Inst],
    expected: &[Inst],
) -> Option<bool>
    requires few { length c.now ≤ 20000 }
    requires gates { AllByRecursion (IsProgramGate 64) c.now }
{
    let plan = Plan::new(numbers[0], numbers[1], numbers[2], numbers[3]).ok()?;
    let found = search(alloc, rules, c, plan).ok()?;
    Some(found.as_slice() == expected)
}

// Whether the search finds these gates from X, a rotation by a quarter of pi and X.
fn finds_from_three(
    alloc: Global,
    rules: &Rules,
    numbers: [u64; 4],
    expected: &[Inst],
) -> Option<bool> {
    finds(
        alloc,
        rules,
        numbers,
        &[Inst::X(0), Inst::Rz(0, 64), Inst::X(0)],
        expected,
    )
}

// With 0, 1, 2 and 16 rounds.
fn by_rounds(alloc: Global, rules: &Rules) -> Option<bool> {
    let unchanged = [Inst::X(0), Inst::Rz(0, 64), Inst::X(0)];
    let moved = [Inst::X(0), Inst::X(0), Inst::Rz(0, 448)];
    let none = finds_from_three(alloc, rules, [0, 8, 100, 0], &unchanged)?;
    let one = finds_from_three(alloc, rules, [1, 8, 100, 0], &moved)?;
    let two = finds_from_three(alloc, rules, [2, 8, 100, 0], &[Inst::Rz(0, 448)])?;
    let many = finds_from_three(alloc, rules, [16, 8, 100, 0], &[Inst::Rz(0, 448)])?;
    Some(none && one && two && many)
}

// With the greatest slack, with a queue of one circuit, and with more circuits in a round than the queue holds.
fn by_other_plans(alloc: Global, rules: &Rules) -> Option<bool> {
    let slack = finds_from_three(alloc, rules, [8, 8, 100, 4], &[Inst::Rz(0, 448)])?;
    let single = finds_from_three(alloc, rules, [16, 1, 1, 1], &[Inst::Rz(0, 448)])?;
    let over = finds_from_three(alloc, rules, [16, 64, 3, 1], &[Inst::Rz(0, 448)])?;
    Some(slack && single && over)
}

// Without gates, without rules, and on the last of 64 qubits beside a gate on two.
fn at_the_limits(alloc: Global, rules: &Rules) -> Option<bool> {
    let empty = finds(alloc, rules, [4, 8, 100, 1], &[], &[])?;
    let unchanged = [Inst::X(0), Inst::Rz(0, 64), Inst::X(0)];
    let none = finds_from_three(alloc, &no_rules(alloc)?, [4, 8, 100, 1], &unchanged)?;
    Some(empty && none && on_the_last_qubit(alloc, rules)?)
}

fn on_the_last_qubit(alloc: Global, rules: &Rules) -> Option<bool> {
    finds(
        alloc,
        rules,
        [16, 8, 100, 1],
        &[
            Inst::X(63),
            Inst::Rz(63, 64),
            Inst::X(63),
            Inst::H(0),
            Inst::Cx(0, 63),
            Inst::H(0),
        ],
        &[Inst::Rz(63, 448), Inst::H(0), Inst::Cx(0, 63), Inst::H(0)],
    )
}

fn all_rows(alloc: Global) -> Option<bool> {
    let rules = one_qubit_rules(alloc)?;
    Some(
        by_rounds(alloc, &rules)?
            && by_other_plans(alloc, &rules)?
            && at_the_limits(alloc, &rules)?,
    )
}

#[test]
fn searches_find_cheaper_circuits(rt: HostRuntime) {
    assert!(rt; all_rows(rt.alloc()) == Some(true));
}
