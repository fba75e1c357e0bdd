//! Candidates and class lists.

use qz_circ::{Bounds, Classes, Memory};
use qz_repgen::laws::first_ranks_are_of_one_length;
use qz_repgen::{candidates, generate_one};
use std::alloc::Global;
use std::process::Abort;
use std::test::Fail;

// The candidates of no circuit.
fn from_none(alloc: Global, b: Bounds) -> Result<Vec<u64>, Memory> {
    first_ranks_are_of_one_length();
    candidates(alloc, &[], b)
}

// The candidates of the empty circuit, where a longer one is within the bounds.
fn from_empty(alloc: Global, b: Bounds) -> Result<Vec<u64>, Memory> {
    first_ranks_are_of_one_length();
    if b.n() == 0 {
        return Ok(Vec::new(alloc));
    }
    candidates(alloc, &[0], b)
}

fn classes_of(alloc: Global, b: Bounds) -> Result<Classes, Memory> {
    let (classes, _) = generate_one(alloc, b, 0)?;
    Ok(classes)
}

// The counts of the report: circuits that are extended, kept circuits, classes, members and fingerprints.
fn counts_of(alloc: Global, b: Bounds, seed: u64) -> Result<[u64; 5], Memory> {
    let (_, report) = generate_one(alloc, b, seed)?;
    Ok([
        report.extended,
        report.kept,
        report.classes,
        report.members,
        report.prints,
    ])
}

// How many classes there are, and how many members they have together.
fn sizes(classes: &Classes) -> [usize; 2] {
    let mut members = 0usize;
    for i in 0..classes.len() {
        members = members.saturating_add(classes.class(i).len());
    }
    [classes.len() as usize, members]
}

// On one qubit with no parameter there are nine gates.
#[test]
fn candidates_of_no_gate_are_all_gates(rt: HostRuntime) -> Result<(), Fail> {
    let b = Bounds::new(2, 1, 0)?;
    let found = from_empty(rt.alloc(), b)?;
    assert!(rt;
        found.as_slice() == [1, 2, 3, 4, 5, 6, 7, 8, 9].as_slice(),
        "one gate"
    );
    let none = from_none(rt.alloc(), b)?;
    assert!(rt; none.is_empty(), "no circuit");
    Ok(())
}

// The numbers of classes, and of their members, as an outside program counted them by numeric matrices.
#[test]
fn class_lists_have_their_sizes(rt: HostRuntime) -> Result<(), Fail> {
    for (n, q, wanted) in [(2, 1, [17, 77]), (3, 1, [31, 105]), (3, 2, [331, 773])] {
        let classes = classes_of(rt.alloc(), Bounds::new(n, q, 0)?)?;
        assert!(rt; sizes(&classes) == wanted);
    }
    Ok(())
}

// Numbers that were worked out by hand and by an outside program. None of these circuits that are inequivalent share a fingerprint.
#[test]
fn reports_count_circuits_and_fingerprints(rt: HostRuntime) -> Result<(), Fail> {
    let rows = [
        ([2, 1, 0], 0, [90, 91, 17, 77, 31]),
        ([2, 1, 0], 1, [90, 91, 17, 77, 31]),
        ([2, 1, 1], 0, [132, 133, 33, 111, 55]),
        ([2, 2, 0], 0, [420, 421, 130, 349, 202]),
    ];
    for ([n, q, m], seed, counts) in rows {
        let found = counts_of(rt.alloc(), Bounds::new(n, q, m)?, seed)?;
        assert!(rt; found == counts);
    }
    let finer = counts_of(rt.alloc(), Bounds::with_grain(2, 1, 0, 8)?, 0)?;
    assert!(rt; finer == [306, 307, 33, 277, 63]);
    Ok(())
}
