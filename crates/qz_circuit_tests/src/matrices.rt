//! Matrices of small circuits.
ghost use Rattle.std.specs.Prelude.{◌≤◌, length};
ghost use Rattle.qz_circ.specs.Circuit.{IsOn};

use qz_circ::{Expr, Memory, Op};
use qz_matrix::Matrix;
use qz_ring::Exponent;
use std::alloc::Global;
use std::process::Abort;
use std::test::Fail;

const H: Op = Op::H(0);

const CX: Op = Op::Cx(0, 1);

const ROTATION: Op = Op::Rz(0, Expr::Plus(1));

// The first functions hide the clauses of what is tested: a test that knows less is proved sooner.
fn matrix_of(alloc: Global, c: &[Op], q: u64) -> Result<Matrix, Memory>
    requires qubits { (1 ≤ q) × (q ≤ 3) }
    requires gates { IsOn q 3 c.now }
    requires short { length c.now ≤ 100 }
{
    Matrix::of(alloc, c, q)
}

fn halves(matrix: &Matrix) -> u64 {
    matrix.halves()
}

// The first term of the entry in a row of a column, if there is such an entry and it is not 0.
fn term(matrix: &Matrix, i: u64, j: u64) -> Option<(Exponent, i128)> {
    let states = 1 << matrix.q();
    if i < states && j < states {
        matrix.entry(i, j).leading()
    } else {
        None
    }
}

// The coefficient of the entry's first term, or 0, where it has no parameters and no turn.
fn number(rt: &impl Abort, matrix: &Matrix, i: u64, j: u64) -> i128 {
    let Some((exponent, coefficient)) = term(matrix, i, j) else {
        return 0;
    };
    assert!(rt; exponent.turn == 0);
    assert!(rt; exponent.powers == [0; 3]);
    coefficient
}

// Applies H to the first qubit of a matrix of few gates.
fn apply_h(rt: &impl Abort, matrix: &mut Matrix) -> Result<(), Memory> {
    let _qubits = matrix.q();
    assert!(rt; matrix.gates() < 100);
    matrix.apply(H)
}

// The entries of a matrix on one qubit, row by row.
fn assert_entries(rt: &impl Abort, matrix: &Matrix, entries: [i128; 4]) {
    assert!(rt; number(rt, matrix, 0, 0) == entries[0], "row 0, column 0");
    assert!(rt; number(rt, matrix, 0, 1) == entries[1], "row 0, column 1");
    assert!(rt; number(rt, matrix, 1, 0) == entries[2], "row 1, column 0");
    assert!(rt; number(rt, matrix, 1, 1) == entries[3], "row 1, column 1");
}

// H has the entries 1, 1, 1 and -1 over √2, and H twice is 2 over 2.
#[test]
fn h_and_then_h(rt: HostRuntime) -> Result<(), Fail> {
    let mut matrix = matrix_of(rt.alloc(), &[H], 1)?;
    assert_entries(&rt, &matrix, [1, 1, 1, -1]);
    assert!(rt; halves(&matrix) == 1, "one half");
    apply_h(&rt, &mut matrix)?;
    assert_entries(&rt, &matrix, [2, 0, 0, 2]);
    assert!(rt; halves(&matrix) == 2, "two halves");
    Ok(())
}

// Each column has a 1 in the row that is named for it, and a 0 in all others.
fn assert_moves(rt: &impl Abort, matrix: &Matrix, rows: &[u64]) {
    for j in 0..rows.len() {
        for i in 0..rows.len() {
            let wanted = if i as u64 == rows[j] { 1 } else { 0 };
            assert!(rt; number(rt, matrix, i as u64, j as u64) == wanted);
        }
    }
}

// Control 0 and target 1 exchange the states 1 and 3 of two qubits; control 2 and target 0 exchange the states 4 and 5 of
// three qubits, and 6 and 7.
#[test]
fn cx_exchanges_states(rt: HostRuntime) -> Result<(), Fail> {
    let two = matrix_of(rt.alloc(), &[CX], 2)?;
    assert_moves(&rt, &two, &[0, 3, 2, 1]);
    let three = matrix_of(rt.alloc(), &[Op::Cx(2, 0)], 3)?;
    assert_moves(&rt, &three, &[0, 1, 2, 3, 5, 4, 7, 6]);
    Ok(())
}

// A rotation by the second parameter multiplies where the qubit is 1.
#[test]
fn a_rotation_has_its_parameter(rt: HostRuntime) -> Result<(), Fail> {
    let matrix = matrix_of(rt.alloc(), &[ROTATION], 1)?;
    assert!(rt;
        number(&rt, &matrix, 0, 0) == 1,
        "no turn where the qubit is 0"
    );
    assert!(rt; term(&matrix, 0, 1).is_none());
    assert!(rt; term(&matrix, 1, 0).is_none());
    let Some((exponent, coefficient)) = term(&matrix, 1, 1) else {
        assert!(rt; false, "the entry is not 0");
        return Ok(());
    };
    assert!(rt; exponent.turn == 0 && exponent.powers == [0, 1, 0]);
    assert!(rt; coefficient == 1);
    Ok(())
}
