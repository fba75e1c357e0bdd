//! For each gate of a program the nearest gates before and behind it on its qubits.
ghost use Rattle.std.specs.Prelude.{◌≡◌, ℕ, ◌+◌, ◌<◌, ◌≤◌, ◌^◌, [], length, Option, Some, None, IfOk, OnOk, if◌then◌else◌};
ghost use Rattle.std.specs.List.{AllByRecursion, slice_get, list_any};
ghost use Rattle.qz_circ.specs.ProgramCircuits.{IsProgramGate};
ghost use Rattle.qz_circ.specs.Gathering.{qubits_of, is_on};
ghost use Rattle.qz_circ.specs.Instances.{slot};
ghost use Rattle.qz_match.specs.Kinds.{is_lacked};
ghost use Rattle.qz_match.specs.Neighbours.{AreLinksOf, AreNeighboursOf, FindsPrevious, FindsNext, beside};
ghost use Rattle.qz_circ.specs.ProgramLimits.{most_qubits};

use crate::kinds::Kinds;
use qz_circ::{Inst, Memory, Op};
use std::alloc::Global;
use std::marker::Model;

/// The positions of the gates next to a gate, by the number of the operand that they share with it, a control being the first.
#[derive(Clone, Copy, Debug, PartialEq, Eq)]
pub struct Link {
    /// The nearest gates before it.
    pub previous: [Option<u16>; 2],
    /// The nearest gates behind it.
    pub next: [Option<u16>; 2],
}

/// The links of all gates of a program, and the kinds of its gates. They are made once for a program and serve all rules.
#[derive(Drop)]
pub struct Neighbours {
    links: Vec<Link>,
    kinds: Kinds,
}

impl Model for Neighbours {
    ghost use Rattle.qz_match.specs.Neighbours.{LinksAndKinds};

    ghost Value = { LinksAndKinds };

    ghost view = { λ n. record { links = n.links.items; kinds = n.kinds } };
}

impl Neighbours {
    /// The links and kinds of a program of at most 20,004 gates on 64 qubits.
    pub fn of(alloc: Global, c: &[Inst]) -> Result<Neighbours, Memory>
        requires lawful { AllByRecursion (IsProgramGate most_qubits) c.now }
        requires short { length c.now ≤ 20004 }
        ensures { IfOk result (λ n. AreNeighboursOf c.now n) }
    {
        let mut neighbours = Neighbours {
            links: Vec::new(alloc),
            kinds: Kinds::none(),
        };
        neighbours.renew(c)?;
        Ok(neighbours)
    }

    /// The links and kinds of another program, in the memory of these. After an error they are of no program.
    pub fn renew(&mut self, c: &[Inst]) -> Result<(), Memory>
        requires lawful { AllByRecursion (IsProgramGate most_qubits) c.now }
        requires short { length c.now ≤ 20004 }
        ensures { OnOk result (AreNeighboursOf c.now self.new) }
    {
        self.links.clear();
        add_previous(&mut self.links, c)?;
        set_next(self.links.as_mut_slice(), c);
        self.kinds = Kinds::of(c);
        Ok(())
    }

    // Where the link of the gate at p on one of its operands leads.
    pub(crate) fn beside(&self, p: usize, operand: usize, forward: bool) -> Option<usize>
        requires { operand < 2 }
        ensures { result ≡ beside self.now.links p operand forward }
    {
        if p >= self.links.len() {
            return None;
        }
        let link = self.links[p];
        if forward {
            wide(link.next[operand])
        } else {
            wide(link.previous[operand])
        }
    }

    // Some gate of a left side is of none of the kinds.
    pub(crate) fn lack_some(&self, left: &[Op]) -> bool
        ensures { result ≡ list_any (is_lacked self.now.kinds) left.now }
    {
        self.kinds.lack_some(left)
    }
}

// The same position as an index.
fn wide(position: Option<u16>) -> Option<usize>
    ensures { result ≡ position }
{
    match position {
        Some(p) => Some(usize::from(p)),
        None => None,
    }
}

// No position for any qubit.
fn unknown() -> [Option<u16>; 64]
    ensures size { length result ≡ 64 }
    ensures none { (w : ℕ) → slot result w ≡ None }
{
    [None; 64]
}

// What stands for the qubits of a gate, by its operands.
fn look_up(slots: &[Option<u16>; 64], g: Inst) -> [Option<u16>; 2]
    requires { IsProgramGate most_qubits g }
    ensures { (o w : ℕ) → slice_get (qubits_of g) o ≡ Some w → slot result o ≡ slot slots.now w }
{
    match g {
        Inst::H(t) | Inst::X(t) | Inst::Rz(t, _) => [slots[t as usize], None],
        Inst::Cx(c, t) => [slots[c as usize], slots[t as usize]],
    }
}

// The position of a gate comes to stand for its qubits.
fn enter(slots: &mut [Option<u16>; 64], g: Inst, i: u16)
    requires { IsProgramGate most_qubits g }
    ensures { (w : ℕ) → slot slots.new w ≡ (if is_on w g then Some i else slot slots.old w) }
{
    match g {
        Inst::H(t) | Inst::X(t) | Inst::Rz(t, _) => {
            slots[t as usize] = Some(i);
        }
        Inst::Cx(c, t) => {
            slots[c as usize] = Some(i);
            slots[t as usize] = Some(i);
        }
    }
}

// The links of all gates to those before them.
fn add_previous(links: &mut Vec<Link>, c: &[Inst]) -> Result<(), Memory>
    requires none { links.old.items ≡ [] }
    requires lawful { AllByRecursion (IsProgramGate most_qubits) c.now }
    requires short { length c.now ≤ 20004 }
    ensures size { OnOk result (length links.new.items ≡ length c.now) }
    ensures previous { OnOk result (FindsPrevious c.now (length c.now) links.new.items) }
{
    let mut last = unknown();
    for (i, g) in c.iter().enumerate() {
        let link = Link {
            previous: look_up(&last, *g),
            next: [None; 2],
        };
        if links.push(link).is_err() {
            return Err(Memory);
        }
        enter(&mut last, *g, i as u16);
    }
    Ok(())
}

// A link to the gates behind.
fn set_link(link: &mut Link, next: [Option<u16>; 2])
    ensures { link.new ≡ record link.old { next = next } }
{
    link.next = next;
}

// The links of all gates to those behind them.
fn set_next(links: &mut [Link], c: &[Inst])
    requires size { length links.old ≡ length c.now }
    requires previous { FindsPrevious c.now (length c.now) links.old }
    requires lawful { AllByRecursion (IsProgramGate most_qubits) c.now }
    requires short { length c.now ≤ 20004 }
    ensures { AreLinksOf c.now links.new }
{
    let mut first = unknown();
    let mut i = c.len();
    while i > 0 {
        i -= 1;
        let g = c[i];
        set_link(&mut links[i], look_up(&first, g));
        enter(&mut first, g, i as u16);
    }
}
