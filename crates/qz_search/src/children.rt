//! Offering a queue what a circuit becomes by one step with rules.
ghost use Rattle.std.specs.Prelude.{◌≡◌, ◌≤◌, [], ◌∷◌, List, length, Contains, IsTrue, OnOk, IfSome};
ghost use Rattle.std.specs.List.{AllByRecursion, filter};
ghost use Rattle.qz_circ.specs.Circuit.{IsOn};
ghost use Rattle.qz_circ.specs.Places.{places};
ghost use Rattle.qz_circ.specs.ProgramCircuits.{ProgramCircuit, IsProgramGate, cost};
ghost use Rattle.qz_circ.specs.Queue.{IsQueue};
ghost use Rattle.qz_circ.specs.Replacement.{replaced, children_by};
ghost use Rattle.qz_match.specs.Neighbours.{AreNeighboursOf};
ghost use Rattle.qz_queue.specs.Bars.{IsBar};
ghost use Rattle.qz_search.specs.Costs.{rule_cost};
ghost use Rattle.qz_search.specs.Offers.{is_new, offered_to, IsBarred};
ghost use Rattle.qz_search.specs.Tables.{children_of, children_by_table, IsSide};
ghost use Rattle.qz_circ.specs.ProgramLimits.{most_qubits};

use crate::circuits::Circuits;
use crate::costs::rule_cost;
use crate::filter::Filter;
use crate::offer::offer_child;
use crate::prepared::Prepared;
use crate::table::Side;
use qz_circ::{Inst, Memory, Op, cost};
use qz_match::{Neighbours, Place, places_of};
use qz_queue::{Bar, Queue};
use qz_rewrite::replace;
use qz_subst::{instance_cost, instance_len};
use std::alloc::Global;

// Whether no circuit of this cost would change the queue.
fn is_lost(queue: &Queue, most: u64, n: u64) -> bool
    requires { IsQueue queue.now }
    ensures { IsTrue result → (seen : List ProgramCircuit) (c : ProgramCircuit) → cost queue.now.weights c ≡ n → queue.now ≡ offered_to queue.now (filter (is_new queue.now.weights seen most) (c ∷ [])) }
{
    n > most || queue.is_closed_to_cost(u128::from(n))
}

// A rule: instances of its left side, which all cost as much, give way to those of its right side.
#[derive(Clone, Copy)]
struct Rule<'a> {
    left: &'a [Op],
    right: &'a [Op],
    cost: u64,
}

// A circuit with its links and its cost.
#[derive(Clone, Copy)]
struct Linked<'a> {
    gates: &'a [Inst],
    neighbours: &'a Neighbours,
    cost: u64,
}

// How many gates a circuit has after one step by a rule.
fn new_length(c: &[Inst], rule: &Rule, place: &Place) -> u64
    requires short { length c.now ≤ 20004 }
    requires few { length rule.now.right.now ≤ 6 }
    requires place { Contains (places rule.now.left.now rule.now.right.now c.now) place.now }
    ensures { result ≡ length (replaced c.now rule.now.right.now place.now) }
{
    (c.len() + instance_len(rule.right, &place.binding()) - rule.left.len()) as u64
}

// What a circuit costs after one step by a rule.
fn new_cost(c: &Linked, rule: &Rule, place: &Place, queue: &Queue) -> u64
    requires short { length c.now.gates.now ≤ 20004 }
    requires few { length rule.now.right.now ≤ 6 }
    requires place { Contains (places rule.now.left.now rule.now.right.now c.now.gates.now) place.now }
    requires lawful { IsQueue queue.now }
    requires cost { c.now.cost ≡ cost queue.now.weights c.now.gates.now }
    requires left { rule.now.cost ≡ rule_cost queue.now.weights rule.now.left.now }
    ensures { result ≡ cost queue.now.weights (replaced c.now.gates.now rule.now.right.now place.now) }
{
    c.cost + instance_cost(rule.right, &place.binding(), queue.weights()) - rule.cost
}

// Whether the bar tells that the circuit of this cost after a step at a place would not change the queue.
fn is_barred(bar: Option<Bar>, n: u64, c: &[Inst], rule: &Rule, place: &Place) -> bool
    requires short { length c.now ≤ 20004 }
    requires few { length rule.now.right.now ≤ 6 }
    requires place { Contains (places rule.now.left.now rule.now.right.now c.now) place.now }
    ensures { IsTrue result → IsBarred bar n (length (replaced c.now rule.now.right.now place.now)) place.now }
{
    let Some(bar) = bar else {
        return false;
    };
    match place.positions() {
        [first, ..] => {
            bar.cost <= u128::from(n)
                && bar.front <= *first
                && bar.long <= new_length(c, rule, place)
        }
        [] => false,
    }
}

// Offers what a circuit becomes by a rule at one place. It is made only where it may change the queue.
fn offer_at(
    alloc: Global,
    test: &Filter,
    c: &Linked,
    rule: &Rule,
    place: &Place,
    queue: &mut Queue,
    bar: &mut Option<Bar>,
) -> Result<(), Memory>
    requires lawful { IsQueue queue.old }
    requires bar { IfSome bar.old (IsBar queue.old c.now.gates.now) }
    requires gates { AllByRecursion (IsProgramGate most_qubits) c.now.gates.now }
    requires short { length c.now.gates.now ≤ 20004 }
    requires left { IsOn 3 3 rule.now.left.now }
    requires right { IsOn 3 3 rule.now.right.now }
    requires few { length rule.now.right.now ≤ 6 }
    requires place { Contains (places rule.now.left.now rule.now.right.now c.now.gates.now) place.now }
    requires cost { c.now.cost ≡ cost queue.old.weights c.now.gates.now }
    requires rule { rule.now.cost ≡ rule_cost queue.old.weights rule.now.left.now }
    ensures offered { OnOk result (queue.new ≡ offered_to queue.old (filter (is_new queue.old.weights test.now.seen test.now.most) (replaced c.now.gates.now rule.now.right.now place.now ∷ []))) }
    ensures bar { OnOk result (IfSome bar.new (IsBar queue.new c.now.gates.now)) }
{
    let n = new_cost(c, rule, place, queue);
    if is_lost(queue, test.most, n) {
        return Ok(());
    }
    if is_barred(*bar, n, c.gates, rule, place) {
        return Ok(());
    }
    let child = replace(alloc, c.gates, rule.left, rule.right, place)?;
    if !offer_child(test, child, n, queue) {
        return Ok(());
    }
    *bar = queue.bar(c.gates);
    Ok(())
}

// The same at each of the places.
fn offer_right(
    alloc: Global,
    test: &Filter,
    c: &Linked,
    rule: &Rule,
    found: &[Place],
    queue: &mut Queue,
    bar: &mut Option<Bar>,
) -> Result<(), Memory>
    requires lawful { IsQueue queue.old }
    requires bar { IfSome bar.old (IsBar queue.old c.now.gates.now) }
    requires gates { AllByRecursion (IsProgramGate most_qubits) c.now.gates.now }
    requires short { length c.now.gates.now ≤ 20004 }
    requires left { IsOn 3 3 rule.now.left.now }
    requires right { IsOn 3 3 rule.now.right.now }
    requires few { length rule.now.right.now ≤ 6 }
    requires found { found.now ≡ places rule.now.left.now rule.now.right.now c.now.gates.now }
    requires cost { c.now.cost ≡ cost queue.old.weights c.now.gates.now }
    requires rule { rule.now.cost ≡ rule_cost queue.old.weights rule.now.left.now }
    ensures offered { OnOk result (queue.new ≡ offered_to queue.old (filter (is_new queue.old.weights test.now.seen test.now.most) (children_by rule.now.left.now rule.now.right.now c.now.gates.now))) }
    ensures bar { OnOk result (IfSome bar.new (IsBar queue.new c.now.gates.now)) }
{
    for place in found {
        offer_at(alloc, test, c, rule, place, queue, bar)?;
    }
    Ok(())
}

// Offers what a circuit becomes by one left side, with each of its right sides.
fn offer_side(
    alloc: Global,
    test: &Filter,
    c: &Linked,
    circuits: &Circuits,
    side: &Side,
    queue: &mut Queue,
    bar: &mut Option<Bar>,
) -> Result<(), Memory>
    requires lawful { IsQueue queue.old }
    requires bar { IfSome bar.old (IsBar queue.old c.now.gates.now) }
    requires gates { AllByRecursion (IsProgramGate most_qubits) c.now.gates.now }
    requires short { length c.now.gates.now ≤ 20004 }
    requires links { AreNeighboursOf c.now.gates.now c.now.neighbours.now }
    requires side { IsSide circuits.now side.now }
    requires cost { c.now.cost ≡ cost queue.old.weights c.now.gates.now }
    ensures offered { OnOk result (queue.new ≡ offered_to queue.old (filter (is_new queue.old.weights test.now.seen test.now.most) (children_of circuits.now side.now c.now.gates.now))) }
    ensures bar { OnOk result (IfSome bar.new (IsBar queue.new c.now.gates.now)) }
{
    let left = side.left.as_slice();
    let found = places_of(alloc, left, &side.walk, c.gates, c.neighbours)?;
    let cost = rule_cost(left, queue.weights());
    let rights = side.rights.as_slice();
    for k in rights {
        let right = circuits.at(*k);
        let rule = Rule { left, right, cost };
        offer_right(alloc, test, c, &rule, &found, queue, bar)?;
    }
    Ok(())
}

// Offers to the queue what a circuit becomes by one step with the rules, where it is new. The links are made to be those of
// this circuit.
pub(crate) fn offer_children(
    alloc: Global,
    rules: &Prepared,
    neighbours: &mut Neighbours,
    test: &Filter,
    c: &[Inst],
    queue: &mut Queue,
) -> Result<(), Memory>
    requires lawful { IsQueue queue.old }
    requires gates { AllByRecursion (IsProgramGate most_qubits) c.now }
    requires short { length c.now ≤ 20004 }
    ensures { OnOk result (queue.new ≡ offered_to queue.old (filter (is_new queue.old.weights test.now.seen test.now.most) (children_by_table rules.now c.now))) }
{
    neighbours.renew(c)?;
    let circuits = rules.circuits();
    let sides = rules.sides();
    let program = Linked {
        gates: c,
        neighbours,
        cost: cost(c, queue.weights()),
    };
    let mut bar = queue.bar(c);
    for side in sides {
        offer_side(alloc, test, &program, circuits, side, queue, &mut bar)?;
    }
    Ok(())
}
