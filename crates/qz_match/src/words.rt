//! The words of a left side: how a walk over it goes on from gate to gate. Left sides that begin alike have the same first words.
ghost use Rattle.std.specs.Prelude.{◌≡◌, ℕ, ◌<◌, ◌≤◌, [], ◌∷◌, length, take, slice_index_or, if◌then◌else◌, true, IsTrue};
ghost use Rattle.qz_circ.specs.declared.circuit.Inst.{Inst};
ghost use Rattle.qz_circ.specs.Places.{is_listed};
ghost use Rattle.qz_match.specs.declared.words.Way.TheVariants.{Before, Behind};
ghost use Rattle.qz_match.specs.Starts.{may_have, is_alike};
ghost use Rattle.qz_match.specs.Walks.{IsWalk, reached};
ghost use Rattle.qz_match.specs.Words.{AreWordsOf, IsFirstWord, IsWordOf, order_of};

use crate::walk::{Step, Walk};
use qz_circ::{Expr, Op};
use std::cmp::Ordering;
use std::marker::Model;

/// Where a word leads.
#[derive(Clone, Copy, Debug, PartialEq, Eq, PartialOrd, Ord)]
pub enum Way {
    /// To the first gate.
    Here,
    /// To the nearest gate before another one.
    Before,
    /// To the nearest gate behind another one.
    Behind,
}

/// A word: it leads to a gate, from one that was reached before.
#[derive(Clone, Copy, PartialEq, Eq, PartialOrd, Ord)]
pub struct Word {
    /// Where it leads.
    pub way: Way,
    /// The number of the gate that it starts at, in the order in which they are reached, from 0 on.
    pub from: u8,
    /// It goes along the qubit of that gate's second operand.
    pub second: bool,
    /// A gate like that to which it leads, on other qubits and maybe with another parameter.
    pub gate: Op,
}

/// The words of a left side, of which there are at most 6: one for each gate, in the order of its walk.
#[derive(Drop)]
pub struct Words {
    list: [Word; 6],
    count: usize,
}

impl Model for Words {
    ghost use Rattle.std.specs.Prelude.{List, take, ◌≤◌};
    ghost use Rattle.qz_match.specs.declared.words.Word.{Word};

    ghost Value = { List Word };

    ghost view = { λ w. take w.count w.list };

    ghost invariant = { λ w. w.count ≤ 6 };
}

// An angle like this one, with another parameter if it has one.
fn angle_like(e: Expr) -> Expr
    ensures { (k : ℕ) → may_have result k ≡ may_have e k }
{
    match e {
        Expr::Const(_) => e,
        Expr::Plus(_) | Expr::Minus(_) | Expr::Sum(_, _) => Expr::Plus(0),
    }
}

// A gate like this one, on other qubits.
fn gate_like(f: Op) -> Op
    ensures { (g : Inst) → is_alike result g ≡ is_alike f g }
{
    match f {
        Op::H(_) => Op::H(0),
        Op::X(_) => Op::X(0),
        Op::Cx(_, _) => Op::Cx(0, 0),
        Op::Rz(_, e) => Op::Rz(0, angle_like(e)),
    }
}

// How many gates are reached before the one at this position is: its number.
fn number_of(steps: &[Step], k: usize, gate: usize) -> u8
    requires few { length steps.now ≤ 5 }
    requires within { k ≤ length steps.now }
    requires reached { is_listed (reached (0 ∷ []) (take k steps.now)) gate ≡ true }
    ensures gate { slice_index_or (order_of steps.now) result 0 ≡ gate }
    ensures early { result ≤ k }
{
    let mut i = k;
    while i > 0 {
        if steps[i - 1].to == gate {
            return i as u8;
        }
        i -= 1;
    }
    0
}

// Where a step leads.
fn way_of(step: Step) -> Way
    ensures { result ≡ (if step.forward then Behind else Before) }
{
    if step.forward {
        Way::Behind
    } else {
        Way::Before
    }
}

// The word of the first gate.
fn first_word(left: &[Op]) -> Word
    requires { 0 < length left.now }
    ensures { IsFirstWord left.now result }
{
    Word {
        way: Way::Here,
        from: 0,
        second: false,
        gate: gate_like(left[0]),
    }
}

// The word of the step with number k.
fn word_of(left: &[Op], steps: &[Step], k: usize) -> Word
    requires short { length left.now ≤ 6 }
    requires walk { IsWalk left.now steps.now }
    requires few { length steps.now ≤ 5 }
    requires within { k < length steps.now }
    ensures { IsWordOf left.now steps.now k result }
{
    let step = steps[k];
    Word {
        way: way_of(step),
        from: number_of(steps, k, step.from),
        second: step.operand == 1,
        gate: gate_like(left[step.to]),
    }
}

// The words are the same.
fn are_same(v: Word, w: Word) -> bool
    ensures { IsTrue result → v ≡ w }
{
    v.from == w.from && v.second == w.second && v.way == w.way && v.gate == w.gate
}

impl Words {
    /// The words of a left side, along a walk over it.
    pub fn of(left: &[Op], walk: &Walk) -> Words
        requires short { length left.now ≤ 6 }
        requires some { 0 < length left.now }
        requires walk { IsWalk left.now walk.now }
        ensures { AreWordsOf left.now walk.now result }
    {
        let mut list = [first_word(left); 6];
        let steps = walk.steps();
        for k in 0..steps.len() {
            list[k + 1] = word_of(left, steps, k);
        }
        Words {
            list,
            count: steps.len() + 1,
        }
    }

    // The same words.
    pub(crate) fn copy(&self) -> Words
        ensures { result ≡ self.now }
    {
        Words {
            list: self.list,
            count: self.count,
        }
    }

    // In order.
    #[inline(always)]
    pub(crate) fn list(&self) -> &[Word]
        ensures same { result.now ≡ self.now }
        ensures few { length result.now ≤ 6 }
    {
        &self.list[..self.count]
    }

    /// The order of words, by which those that begin alike stand together.
    pub fn compare(&self, other: &Words) -> Ordering {
        self.list().cmp(other.list())
    }

    // How many words at the front of both are the same.
    pub(crate) fn shared(&self, other: &Words) -> usize
        ensures { take result self.now ≡ take result other.now }
    {
        let ours = self.list();
        let others = other.list();
        let mut k = 0;
        while k < ours.len() {
            if k >= others.len() {
                return k;
            }
            if are_same(ours[k], others[k]) {
                k += 1;
                continue;
            }
            return k;
        }
        k
    }
}
