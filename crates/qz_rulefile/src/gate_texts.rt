//! The texts of gates, and reading members by them.
ghost use Rattle.std.specs.Prelude.{◌≡◌, ◌<◌, ◌≤◌, ◌-◌, ◌++◌, ◌∷◌, [], IfOk, length, map, take, slice_get, Some, true, OnOk};
ghost use Rattle.qz_circ.specs.Bounds.{gate_count, is_grain, IsLawful};
ghost use Rattle.qz_circ.specs.Circuit.{gates_of};
ghost use Rattle.qz_circ.specs.FirstFault.{Gives};
ghost use Rattle.qz_circ.specs.Order.{all_circuits};
ghost use Rattle.qz_circ.specs.RuleText.{gate_text};
ghost use Rattle.qz_rulefile.specs.Reading as reading;
ghost use Rattle.qz_circ.specs.Vectors.{lists_of};

use crate::parts::{one_of, word};
use crate::rule_text::push_gate;
use qz_circ::{Bounds, Expr, Memory, Op, constant_of, op_number, op_of};
use std::alloc::{AllocError, Global};

/// The texts of the gates within bounds.
#[derive(Drop)]
pub(crate) struct GateTexts {
    bounds: Bounds,
    // what a member begins with: the line of the empty circuit, or a gate where gates are allowed
    first: Vec<Vec<u8>>,
    // what follows a gate: the end of the line, or a semicolon and a gate
    next: Vec<Vec<u8>>,
    ghost first_are: { lists_of first.items ≡ reading.first_texts bounds },
    ghost next_are: { lists_of next.items ≡ reading.next_texts bounds },
    ghost first_apart: { reading.are_apart (lists_of first.items) ≡ true },
    ghost lawful: { IsLawful bounds },
    ghost next_apart: { reading.are_apart (lists_of next.items) ≡ true },
}

// The text of a gate behind some letters.
fn text_behind(alloc: Global, letters: &[u8], g: Op, grain: u64) -> Result<Vec<u8>, AllocError>
    requires { is_grain grain ≡ true }
    ensures { IfOk result (λ text. text.items ≡ letters.now ++ gate_text grain g) }
{
    let mut text = Vec::new(alloc);
    text.extend_from_slice(letters)?;
    push_gate(&mut text, g, grain)?;
    Ok(text)
}

// The gate with a number below their count.
fn gate(k: u64, b: Bounds) -> Op
    requires { k < gate_count b }
    ensures { slice_get (gates_of b) k ≡ Some result }
{
    op_of(k, b).unwrap()
}

// Appends a text.
fn push_text(texts: &mut Vec<Vec<u8>>, text: Vec<u8>) -> Result<(), AllocError>
    ensures { OnOk result (lists_of texts.new.items ≡ lists_of texts.old.items ++ text.items ∷ []) }
{
    match texts.push(text) {
        Ok(()) => Ok(()),
        Err(_) => Err(AllocError),
    }
}

// A text, and then those of the first gates behind some letters.
fn table(
    alloc: Global,
    b: Bounds,
    text: &[u8],
    letters: &[u8],
    count: u64,
) -> Result<Vec<Vec<u8>>, AllocError>
    requires { count ≤ gate_count b }
    ensures { IfOk result (λ texts. lists_of texts.items ≡ text.now ∷ map (λ g. letters.now ++ gate_text b.grain g) (take count (gates_of b))) }
{
    let mut texts = Vec::new(alloc);
    let first = Vec::from_slice(alloc, text)?;
    push_text(&mut texts, first)?;
    for k in 0..count {
        let Ok(text) = text_behind(alloc, letters, gate(k, b), b.grain()) else {
            return Err(AllocError);
        };
        push_text(&mut texts, text)?;
    }
    Ok(texts)
}

// What a member begins with.
fn first_table(alloc: Global, b: Bounds) -> Result<Vec<Vec<u8>>, AllocError>
    ensures lawful { IsLawful b }
    ensures are { IfOk result (λ texts. lists_of texts.items ≡ reading.first_texts b) }
    ensures apart { IfOk result (λ texts. reading.are_apart (lists_of texts.items) ≡ true) }
{
    if b.n() == 0 {
        let texts = table(alloc, b, b"-\n", b"", 0)?;
        return Ok(texts);
    }
    let texts = table(alloc, b, b"-\n", b"", b.gates())?;
    Ok(texts)
}

// What follows a gate.
fn next_table(alloc: Global, b: Bounds) -> Result<Vec<Vec<u8>>, AllocError>
    ensures are { IfOk result (λ texts. lists_of texts.items ≡ reading.next_texts b) }
    ensures apart { IfOk result (λ texts. reading.are_apart (lists_of texts.items) ≡ true) }
{
    let texts = table(alloc, b, b"\n", b";", b.gates())?;
    Ok(texts)
}

// The number that a digit stands for; of another byte, any number.
fn digit(b: u8) -> u8 {
    b.wrapping_sub(b'0')
}

// The number that two digits stand for; of other bytes, any number.
fn two_digits(tens: u8, ones: u8) -> u8 {
    digit(tens).wrapping_mul(10).wrapping_add(digit(ones))
}

// The gate that the bytes seem to begin with, by a few of them. The grain is 4, 8 or 16.
fn seeming_gate(bytes: &[u8], grain: u64) -> Option<Op>
    requires { is_grain grain ≡ true }
{
    match bytes {
        [b'h', _, t, ..] => Some(Op::H(digit(*t))),
        [b'x', _, t, ..] => Some(Op::X(digit(*t))),
        [b'c', _, _, c, _, t, ..] => Some(Op::Cx(digit(*c), digit(*t))),
        [b'r', _, _, b'-', _, i, _, _, t, ..] => Some(Op::Rz(digit(*t), Expr::Minus(digit(*i)))),
        [b'r', _, _, b'p', i, b'+', _, j, _, _, t, ..] => {
            Some(Op::Rz(digit(*t), Expr::Sum(digit(*i), digit(*j))))
        }
        [b'r', _, _, b'p', i, _, _, t, ..] => Some(Op::Rz(digit(*t), Expr::Plus(digit(*i)))),
        [b'r', _, _, k, b')', _, t, ..] => Some(Op::Rz(
            digit(*t),
            Expr::Const(constant_of(digit(*k), grain)),
        )),
        [b'r', _, _, k, l, _, _, t, ..] => Some(Op::Rz(
            digit(*t),
            Expr::Const(constant_of(two_digits(*k, *l), grain)),
        )),
        _ => None,
    }
}

// The place that the gate at the front of the bytes has behind the first text of a table. It is a guess, that spares most looks.
fn guess(b: Bounds, bytes: &[u8]) -> usize {
    let Some(op) = seeming_gate(bytes, b.grain()) else {
        return 0;
    };
    match op_number(op, b) {
        Some(k) if k < 132 => k as usize + 1,
        _ => 0,
    }
}

impl GateTexts {
    pub(crate) fn new(alloc: Global, b: Bounds) -> Result<GateTexts, Memory>
        ensures { IfOk result (λ texts. texts.bounds ≡ b) }
    {
        let Ok(first) = first_table(alloc, b) else {
            return Err(Memory);
        };
        let Ok(next) = next_table(alloc, b) else {
            return Err(Memory);
        };
        Ok(GateTexts {
            bounds: b,
            first,
            next,
        })
    }

    // What a member begins with, by its place among the texts.
    fn first<'a>(&self, bytes: &'a [u8]) -> Result<(usize, &'a [u8]), usize>
        ensures exact { Gives (λ x. (x.0, x.1.now)) result (reading.one_of_at (reading.first_texts self.now.bounds) bytes.now) }
        ensures gate { IfOk result (λ x. 0 < x.0 → (0 < self.now.bounds.n) × (x.0 ≤ gate_count self.now.bounds)) }
    {
        let (j, rest) = one_of(&self.first, guess(self.bounds, bytes), bytes)?;
        Ok((j, rest))
    }

    // What follows a gate, by its place among the texts.
    fn next<'a>(&self, bytes: &'a [u8]) -> Result<(usize, &'a [u8]), usize>
        ensures exact { Gives (λ x. (x.0, x.1.now)) result (reading.one_of_at (reading.next_texts self.now.bounds) bytes.now) }
        ensures gate { IfOk result (λ x. x.0 ≤ gate_count self.now.bounds) }
    {
        let place = match bytes {
            [b';', behind @ ..] => guess(self.bounds, behind),
            _ => 0,
        };
        let (j, rest) = one_of(&self.next, place, bytes)?;
        Ok((j, rest))
    }

    // The rest of a member behind its first gate, which has the rank start: the rank of the whole.
    fn more<'a>(&self, start: u64, bytes: &'a [u8]) -> Result<(u64, &'a [u8]), usize>
        requires allowed { 0 < self.now.bounds.n }
        requires some { 0 < start }
        requires gate { start ≤ gate_count self.now.bounds }
        ensures { Gives (λ x. (x.0, x.1.now)) result (reading.more_at self.now.bounds (self.now.bounds.n - 1) start bytes.now) }
    {
        let gates = self.bounds.gates();
        let mut r = start;
        let mut rest = bytes;
        let mut left = self.bounds.n() - 1;
        while left > 0 {
            let (j, behind) = match self.next(rest) {
                Ok(next) => next,
                Err(n) => return Err(n),
            };
            if j == 0 {
                return Ok((r, behind));
            }
            r = r * gates + j as u64;
            rest = behind;
            left -= 1;
        }
        match word(b"\n", rest) {
            Ok(behind) => Ok((r, behind)),
            Err(n) => Err(n),
        }
    }

    // The line of a member, as the rank of its circuit.
    #[tactic(auto, unfolding(crate::specs::Reading::member_at))]
    fn member_line<'a>(&self, bytes: &'a [u8]) -> Result<(u64, &'a [u8]), usize>
        ensures { Gives (λ x. (x.0, x.1.now)) result (reading.member_at self.now.bounds bytes.now) }
    {
        let (j, rest) = self.first(bytes)?;
        if j == 0 {
            return Ok((0, rest));
        }
        let whole = self.more(j as u64, rest)?;
        Ok(whole)
    }
    /// The line of a member, as the rank of its circuit, and the bytes after it.
    pub(crate) fn member<'a>(&self, bytes: &'a [u8]) -> Result<(u64, &'a [u8]), usize>
        ensures exact { Gives (λ x. (x.0, x.1.now)) result (reading.member_at self.now.bounds bytes.now) }
        ensures listed { IfOk result (λ x. x.0 < length (all_circuits self.now.bounds)) }
    {
        let (r, rest) = self.member_line(bytes)?;
        Ok((r, rest))
    }
}
