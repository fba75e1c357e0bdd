//! A table of left sides, by which all of them are sought at once from one first position. Those that begin alike stand side by side,
//! and what leads nowhere for one of them is skipped for all.
ghost use Rattle.std.specs.Prelude.{◌≡◌, ℕ, ◌<◌, ◌≤◌, ◌++◌, ◌∷◌, [], suc, true, false, length, take, slice_index_or, Some, None, OnOk, MatchOption};
ghost use Rattle.qz_match.specs.Words.{operand_of, start_at, way_to, step_to, word_at, Leads};
ghost use Rattle.qz_match.specs.Rows.{IsSkip, IsRowBehind, AreRows, IsCursor, NoneLeads, IsNext, IsAsked, words_at, words_of};

use crate::neighbours::Neighbours;
use crate::start::are_alike;
use crate::words::{Way, Word, Words};
use qz_circ::{Inst, Memory};
use std::alloc::Global;
use std::marker::Model;

// The words of a left side; how many of them are those of the row before, too; and how many rows there are up to the nearest one
// before that hasn't the first word, the first two, and so on.
#[derive(Drop)]
pub(crate) struct Row {
    pub(crate) words: Words,
    pub(crate) shared: usize,
    pub(crate) skips: [usize; 6],
}

/// The words of left sides, in the order in which they were put in. They are asked from the last to the first.
#[derive(Drop)]
pub struct Rows {
    list: Vec<Row>,
}

/// How far the rows of a table are asked from one first position.
#[derive(Clone, Copy, Debug)]
pub struct Cursor {
    // The first position.
    pub(crate) first: usize,
    // How many rows are left.
    pub(crate) left: usize,
    // How many words of the last one of these lead to the first positions found.
    pub(crate) kept: usize,
    // The positions to which the words of a row lead.
    pub(crate) found: [usize; 6],
}

impl Model for Rows {
    ghost use Rattle.std.specs.Prelude.{List, map};
    ghost use Rattle.qz_match.specs.declared.words.Word.{Word};
    ghost use Rattle.qz_match.specs.Rows.{AreRows, words_of};

    ghost Value = { List (List Word) };

    ghost view = { λ r. words_of r.list.items };

    ghost invariant = { λ r. AreRows r.list.items };
}

// Where a word starts: the position with its number among k that are found.
fn start_at(found: &[usize; 6], k: usize, from: u8) -> Option<usize>
    requires { k ≤ 6 }
    ensures { result ≡ start_at found.now k from }
{
    let number = usize::from(from);
    if number < k {
        Some(found[number])
    } else {
        None
    }
}

// The operand whose qubit a word goes along.
fn operand_of(word: &Word) -> usize
    ensures value { result ≡ operand_of word.now }
    ensures bound { result < 2 }
{
    if word.second { 1 } else { 0 }
}

// The position to which the way of a word leads.
#[inline(always)]
fn way_to(
    neighbours: &Neighbours,
    p: usize,
    found: &[usize; 6],
    k: usize,
    word: &Word,
) -> Option<usize>
    requires { k ≤ 6 }
    ensures { result ≡ way_to neighbours.now.links p found.now k word.now }
{
    let operand = operand_of(word);
    match word.way {
        Way::Here => Some(p),
        Way::Before => neighbours.beside(start_at(found, k, word.from)?, operand, false),
        Way::Behind => neighbours.beside(start_at(found, k, word.from)?, operand, true),
    }
}

// The position to which a word leads, where there is a gate like its own.
#[inline(always)]
fn step_to(
    c: &[Inst],
    neighbours: &Neighbours,
    p: usize,
    found: &[usize; 6],
    k: usize,
    word: &Word,
) -> Option<usize>
    requires { k ≤ 6 }
    ensures { result ≡ step_to c.now neighbours.now.links p found.now k word.now }
{
    let next = way_to(neighbours, p, found, k, word)?;
    if next < c.len() && are_alike(word.gate, c[next]) {
        Some(next)
    } else {
        None
    }
}

// How many words lead somewhere, of which the first ones are known to. The positions to which they lead are put behind theirs.
fn advance(
    c: &[Inst],
    neighbours: &Neighbours,
    p: usize,
    words: &[Word],
    kept: usize,
    found: &mut [usize; 6],
) -> usize
    requires few { length words.now ≤ 6 }
    requires within { kept ≤ length words.now }
    requires known { Leads c.now neighbours.now.links p words.now kept found.old }
    ensures within { result ≤ length words.now }
    ensures leads { Leads c.now neighbours.now.links p words.now result found.new }
    ensures stops { result < length words.now → step_to c.now neighbours.now.links p found.new result (word_at words.now result) ≡ None }
{
    let mut k = kept;
    while k < words.len() {
        let Some(next) = step_to(c, neighbours, p, found, k, &words[k]) else {
            return k;
        };
        found[k] = next;
        k += 1;
    }
    k
}

// Up to which row those stand that share so many words with the new one, which has this number and comes behind the last one.
fn skips_behind(last: &[usize; 6], shared: usize, n: usize) -> [usize; 6]
    ensures { (r : ℕ) → r < 6 → IsSkip last.now shared n r (slice_index_or result r 0) }
{
    let mut skips = [n; 6];
    for r in 0..6 {
        if r < shared {
            skips[r] = last[r];
        }
    }
    skips
}

// The row of these words behind some others.
fn row_behind(rows: &[Row], words: &Words) -> Row
    ensures { IsRowBehind rows.now words.now result }
{
    let n = rows.len();
    match rows.last() {
        Some(last) => {
            let shared = words.shared(&last.words);
            Row {
                words: words.copy(),
                shared,
                skips: skips_behind(&last.skips, shared, n),
            }
        }
        None => Row {
            words: words.copy(),
            shared: 0,
            skips: [0; 6],
        },
    }
}

// The lesser of two numbers.
fn least(k: usize, n: usize) -> usize
    ensures first { result ≤ k }
    ensures second { result ≤ n }
{
    if k < n { k } else { n }
}

// So many rows are left, and so many words of the row behind them lead somewhere.
fn leave(rows: &[Row], cursor: &mut Cursor, left: usize, reached: usize)
    requires lawful { AreRows rows.now }
    requires within { left < length rows.now }
    ensures first { cursor.new.first ≡ cursor.old.first }
    ensures found { cursor.new.found ≡ cursor.old.found }
    ensures left { cursor.new.left ≡ left }
    ensures few { cursor.new.kept ≤ reached }
    ensures shared { (j : ℕ) → suc j ≡ left → take cursor.new.kept (words_at (words_of rows.now) left) ≡ take cursor.new.kept (words_at (words_of rows.now) j) }
{
    cursor.left = left;
    cursor.kept = least(rows[left].shared, reached);
}

// Asks the last row that is left.
fn ask(rows: &[Row], c: &[Inst], neighbours: &Neighbours, cursor: &mut Cursor, at: usize) -> bool
    requires lawful { AreRows rows.now }
    requires at { suc at ≡ cursor.old.left }
    requires cursor { IsCursor c.now neighbours.now.links (words_of rows.now) cursor.old }
    ensures fewer { cursor.new.left < cursor.old.left }
    ensures next { result ≡ true → IsNext c.now neighbours.now.links (words_of rows.now) cursor.old cursor.new at }
    ensures asked { result ≡ false → IsAsked c.now neighbours.now.links (words_of rows.now) cursor.old cursor.new }
{
    let row = &rows[at];
    let words = row.words.list();
    let reached = advance(
        c,
        neighbours,
        cursor.first,
        words,
        cursor.kept,
        &mut cursor.found,
    );
    if reached < words.len() {
        leave(rows, cursor, row.skips[reached], reached);
        return false;
    }
    leave(rows, cursor, at, reached);
    true
}

// The number of the last row that is left whose words all lead somewhere, if any.
fn next_of(rows: &[Row], c: &[Inst], neighbours: &Neighbours, cursor: &mut Cursor) -> Option<usize>
    requires lawful { AreRows rows.now }
    requires cursor { IsCursor c.now neighbours.now.links (words_of rows.now) cursor.old }
    ensures { MatchOption result (NoneLeads c.now neighbours.now.links (words_of rows.now) cursor.old) (λ k. IsNext c.now neighbours.now.links (words_of rows.now) cursor.old cursor.new k) }
{
    while cursor.left > 0 {
        let at = cursor.left - 1;
        if ask(rows, c, neighbours, cursor, at) {
            return Some(at);
        }
    }
    None
}

impl Rows {
    /// No rows.
    pub fn new(alloc: Global) -> Rows
        ensures { result ≡ [] }
    {
        Rows {
            list: Vec::new(alloc),
        }
    }

    /// Puts the words of a left side behind the others.
    pub fn push(&mut self, words: &Words) -> Result<(), Memory>
        ensures { OnOk result (self.new ≡ self.old ++ words.now ∷ []) }
    {
        let row = row_behind(&self.list, words);
        if self.list.push(row).is_err() {
            return Err(Memory);
        }
        Ok(())
    }

    /// All rows are left to be asked from this first position.
    pub fn begin(&self, c: &[Inst], neighbours: &Neighbours, p: usize) -> Cursor
        ensures cursor { IsCursor c.now neighbours.now.links self.now result }
        ensures first { result.first ≡ p }
        ensures left { result.left ≡ length self.now }
    {
        Cursor {
            first: p,
            left: self.list.len(),
            kept: 0,
            found: [p; 6],
        }
    }

    /// The number of the last row that is left whose words all lead somewhere, if any. Those before it are left.
    pub fn next(&self, c: &[Inst], neighbours: &Neighbours, cursor: &mut Cursor) -> Option<usize>
        requires { IsCursor c.now neighbours.now.links self.now cursor.old }
        ensures { MatchOption result (NoneLeads c.now neighbours.now.links self.now cursor.old) (λ k. IsNext c.now neighbours.now.links self.now cursor.old cursor.new k) }
    {
        next_of(&self.list, c, neighbours, cursor)
    }
}
