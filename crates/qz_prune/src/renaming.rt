//! Circuits by new names of their qubits and parameters.
ghost use Rattle.std.specs.Prelude.{◌≡◌, IfOk, slice_index};
ghost use Rattle.qz_circ.specs.Circuit.{Circuit, Limits};
ghost use Rattle.qz_circ.specs.Relabellings.{renamed_angle, renamed_gate, renamed};
ghost use Rattle.qz_prune.specs.Seen.{IsRankOf, AreRanksOf};

use crate::relabelling::Relabelling;
use qz_circ::{Bounds, Expr, Memory, Op, rank};
use std::alloc::Global;

// The new name of a number.
fn name(names: [u8; 3], k: u8) -> u8
    ensures { result ≡ slice_index names k }
{
    names.get(k as usize).copied().unwrap_or(0)
}

fn renamed_angle(params: [u8; 3], angle: Expr) -> Expr
    ensures { result ≡ renamed_angle params angle }
{
    match angle {
        Expr::Const(t) => Expr::Const(t),
        Expr::Plus(i) => Expr::Plus(name(params, i)),
        Expr::Minus(i) => Expr::Minus(name(params, i)),
        Expr::Sum(i, j) => {
            let first = name(params, i);
            let second = name(params, j);
            if first < second {
                Expr::Sum(first, second)
            } else {
                Expr::Sum(second, first)
            }
        }
    }
}

fn renamed_gate(r: Relabelling, gate: Op) -> Op
    ensures { result ≡ renamed_gate r.qubits r.params gate }
{
    match gate {
        Op::H(t) => Op::H(name(r.qubits, t)),
        Op::X(t) => Op::X(name(r.qubits, t)),
        Op::Cx(c, t) => Op::Cx(name(r.qubits, c), name(r.qubits, t)),
        Op::Rz(t, angle) => Op::Rz(name(r.qubits, t), renamed_angle(r.params, angle)),
    }
}

fn renamed(alloc: Global, r: Relabelling, c: &[Op]) -> Result<Vec<Op>, Memory>
    ensures { IfOk result (λ gates. gates.items ≡ renamed r.qubits r.params c.now) }
{
    let Ok(mut gates) = Vec::with_capacity(alloc, c.len()) else {
        return Err(Memory);
    };
    for gate in c {
        if gates.push(renamed_gate(r, *gate)).is_err() {
            return Err(Memory);
        }
    }
    Ok(gates)
}

// The rank of the renamed circuit, or nothing where it isn't within the bounds.
fn renamed_rank(alloc: Global, r: Relabelling, b: Bounds, c: &[Op]) -> Result<Option<u64>, Memory>
    ensures { IfOk result (IsRankOf b (renamed r.qubits r.params c.now)) }
{
    let gates = renamed(alloc, r, c)?;
    let found = rank(&gates, b);
    Ok(found)
}

// Both ranks, the lesser one first, or nothing where one of them is nothing.
fn both(x: Option<u64>, y: Option<u64>) -> Option<(u64, u64)>
    ensures { (b : Limits) (c d : Circuit) → IsRankOf b c x → IsRankOf b d y → AreRanksOf b c d result }
{
    let Some(first) = x else {
        return None;
    };
    let Some(second) = y else {
        return None;
    };
    if first < second {
        Some((first, second))
    } else {
        Some((second, first))
    }
}

/// The ranks of two renamed circuits, the lesser one first, or nothing where one isn't within the bounds.
pub(crate) fn renamed_ranks(
    alloc: Global,
    r: Relabelling,
    b: Bounds,
    left: &[Op],
    right: &[Op],
) -> Result<Option<(u64, u64)>, Memory>
    ensures { IfOk result (AreRanksOf b (renamed r.qubits r.params left.now) (renamed r.qubits r.params right.now)) }
{
    let first = renamed_rank(alloc, r, b, left)?;
    let second = renamed_rank(alloc, r, b, right)?;
    let both = both(first, second);
    Ok(both)
}
