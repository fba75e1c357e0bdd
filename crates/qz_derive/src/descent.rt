//! The way of a circuit down to the representative that is equivalent to it.
ghost use Rattle.std.specs.Prelude.{◌≡◌, ℕ, ◌+◌, ◌<◌, ◌≤◌, ◌++◌, length, take, drop, IfOk, MatchOption, nat_eq};
ghost use Rattle.indexmap.specs.IndexMap.{get};
ghost use Rattle.qz_circ.specs.Circuit.{Within};
ghost use Rattle.qz_circ.specs.Classes.{IsRepresentative};
ghost use Rattle.qz_circ.specs.Order.{all_circuits, circuit_at};
ghost use Rattle.qz_circ.specs.Chains.{IsLowered};
ghost use Rattle.qz_derive.specs.Indexes.{FindsRepresentatives};
ghost use Rattle.qz_derive.specs.Descents.{IsLastPart, IsPart, IsDescent};

use crate::index::representative;
use indexmap::IndexMap;
use qz_circ::{Bounds, Memory, Op, rank, unrank};
use std::alloc::Global;

// The gates from start to before stop, and the rank of the representative that is put in their place.
#[derive(Clone, Copy)]
struct Part {
    start: usize,
    stop: usize,
    put: u64,
}

// The fewest last gates that are no representative, by the place where they begin, and the rank of their representative. Nothing
// where all the gates are one.
fn last_part(firsts: &IndexMap<u64, u64>, b: Bounds, c: &[Op]) -> Option<(usize, u64)>
    requires index { FindsRepresentatives b (get nat_eq firsts.now) }
    requires within { Within b c.now }
    requires fronts { (k : ℕ) → k < length c.now → IsRepresentative b (take k c.now) }
    ensures { MatchOption result (IsRepresentative b c.now) (λ p. IsLastPart b c.now p.0 p.1) }
{
    let len = c.len();
    for behind in 0..len {
        let start = len - 1 - behind;
        if let Some(put) = representative(firsts, b, c.split_at(start).1) {
            return Some((start, put));
        }
    }
    None
}

// The first part of a circuit that is no representative, or nothing where the circuit is one.
fn first_part(firsts: &IndexMap<u64, u64>, b: Bounds, c: &[Op]) -> Option<Part>
    requires index { FindsRepresentatives b (get nat_eq firsts.now) }
    requires within { Within b c.now }
    ensures { MatchOption result (IsRepresentative b c.now) (λ p. IsPart b c.now p.start p.stop p.put) }
{
    for before in 0..c.len() {
        let stop = before + 1;
        if let Some((start, put)) = last_part(firsts, b, c.split_at(stop).0) {
            return Some(Part { start, stop, put });
        }
    }
    None
}

// The circuit with other gates in place of a part.
fn replaced(
    alloc: Global,
    c: &[Op],
    start: usize,
    stop: usize,
    put: &[Op],
) -> Result<Vec<Op>, Memory>
    requires start { start ≤ length c.now }
    requires stop { stop ≤ length c.now }
    ensures { IfOk result (λ d. d.items ≡ take start c.now ++ put.now ++ drop stop c.now) }
{
    let Ok(mut gates) = Vec::from_slice(alloc, c.split_at(start).0) else {
        return Err(Memory);
    };
    if gates.extend_from_slice(put).is_err() {
        return Err(Memory);
    }
    if gates.extend_from_slice(c.split_at(stop).1).is_err() {
        return Err(Memory);
    }
    Ok(gates)
}

// The rank of the circuit that the one with rank r is lowered to, or nothing where that is a representative.
fn lower(
    alloc: Global,
    firsts: &IndexMap<u64, u64>,
    b: Bounds,
    r: u64,
) -> Result<Option<u64>, Memory>
    requires index { FindsRepresentatives b (get nat_eq firsts.now) }
    requires listed { r < length (all_circuits b) }
    ensures { IfOk result (λ next. MatchOption next (IsRepresentative b (circuit_at b r)) (λ d. (d < r) × IsLowered b (circuit_at b r) (circuit_at b d))) }
{
    let c = unrank(alloc, r, b)?;
    let Some(part) = first_part(firsts, b, &c) else {
        return Ok(None);
    };
    let put = unrank(alloc, part.put, b)?;
    let lowered = replaced(alloc, &c, part.start, part.stop, &put)?;
    Ok(rank(&lowered, b))
}

/// The ranks of a circuit and of those that it is lowered to, and the last of them, which is of a representative.
#[derive(Drop)]
pub(crate) struct Descent {
    pub(crate) ranks: Vec<u64>,
    pub(crate) lowest: u64,
}

/// The way down from the circuit with rank r.
pub(crate) fn descend(
    alloc: Global,
    firsts: &IndexMap<u64, u64>,
    b: Bounds,
    r: u64,
) -> Result<Descent, Memory>
    requires index { FindsRepresentatives b (get nat_eq firsts.now) }
    requires listed { r < length (all_circuits b) }
    ensures { IfOk result (λ d. IsDescent b r d.ranks.items d.lowest) }
{
    let mut ranks = Vec::new(alloc);
    let mut lowest = r;
    if ranks.push(r).is_err() {
        return Err(Memory);
    }
    'lowering: loop {
        match lower(alloc, firsts, b, lowest) {
            Err(fault) => return Err(fault),
            Ok(None) => return Ok(Descent { ranks, lowest }),
            Ok(Some(next)) => lowest = next,
        }
        if ranks.push(lowest).is_err() {
            return Err(Memory);
        }
    }
}
