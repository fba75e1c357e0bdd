//! The sum or the difference of two sorted lists of terms, in one pass over both.

ghost use Rattle.std.specs.Prelude.{◌≡◌, ◌+◌, ◌^◌, ◌<◌, ◌≤◌, ◌⊎◌, [], ◌++◌, map, length, drop, IfOk, unsigned_abs};
ghost use Rattle.smallvec.specs.SmallVec.{HasRoomFor};
ghost use Rattle.qz_ring.specs.Terms.{signed_term, weight_of, IsCanonical};
ghost use Rattle.qz_ring.specs.Merging.{IsMerging, IsMerged, sum_of_two};

use crate::Memory;
use crate::exponent::compare;
use crate::term::{Term, with_sign};
use smallvec::SmallVec;
use std::alloc::Global;
use std::cmp::Ordering;

// What a merge has made when one of the lists is used up: the terms so far, and how far it came in each list.
struct Heads {
    merged: SmallVec<Term, 1>,
    left: usize,
    right: usize,
}

// The sum of the two lists, or, where the right one is negated, their difference.
pub(crate) fn merge(
    alloc: Global,
    left: &[Term],
    right: &[Term],
    negated: bool,
) -> Result<SmallVec<Term, 1>, Memory>
    requires left_canonical { IsCanonical left.now }
    requires right_canonical { IsCanonical right.now }
    requires weight { weight_of left.now + weight_of right.now ≤ 2 ^ 120 }
    ensures { IfOk result (λ v. IsMerged negated left.now right.now v.items) }
{
    let heads = merge_heads(alloc, left, right, negated)?;
    let Heads {
        mut merged,
        left: i,
        right: j,
    } = heads;
    if merged.extend_from_slice(&left[i..]).is_err() {
        return Err(Memory);
    }
    append_signed(&right[j..], negated, &mut merged);
    Ok(merged)
}

// No terms, with room for all those of both lists.
fn with_room(alloc: Global, left: &[Term], right: &[Term]) -> Result<SmallVec<Term, 1>, Memory>
    ensures empty { IfOk result (λ v. v.items ≡ []) }
    ensures room { IfOk result (λ v. length left.now + length right.now ≤ v.capacity) }
{
    let Some(room) = left.len().checked_add(right.len()) else {
        return Err(Memory);
    };
    match SmallVec::with_capacity(alloc, room) {
        Ok(empty) => Ok(empty),
        Err(_) => Err(Memory),
    }
}

// Merges until one of the lists is used up, with room for all terms of both.
fn merge_heads(alloc: Global, left: &[Term], right: &[Term], negated: bool) -> Result<Heads, Memory>
    requires left_canonical { IsCanonical left.now }
    requires right_canonical { IsCanonical right.now }
    requires weight { weight_of left.now + weight_of right.now ≤ 2 ^ 120 }
    ensures merging { IfOk result (λ h. IsMerging negated left.now right.now h.merged.items (drop h.left left.now) (drop h.right right.now)) }
    ensures left_within { IfOk result (λ h. h.left ≤ length left.now) }
    ensures right_within { IfOk result (λ h. h.right ≤ length right.now) }
    ensures used_up { IfOk result (λ h. (h.left ≡ length left.now) ⊎ (h.right ≡ length right.now)) }
    ensures room { IfOk result (λ h. length left.now + length right.now ≤ h.merged.capacity) }
{
    let mut merged = with_room(alloc, left, right)?;
    let mut i = 0;
    let mut j = 0;
    while i < left.len() && j < right.len() {
        let a = left[i];
        let b = right[j];
        match compare(a.exponent, b.exponent) {
            Ordering::Less => {
                merged.push_reserved(a);
                i += 1;
            }
            Ordering::Greater => {
                merged.push_reserved(with_sign(b, negated));
                j += 1;
            }
            Ordering::Equal => {
                push_both(a, with_sign(b, negated), &mut merged);
                i += 1;
                j += 1;
            }
        }
    }
    Ok(Heads {
        merged,
        left: i,
        right: j,
    })
}

// Appends the terms, each with the other sign if they are negated.
fn append_signed(rest: &[Term], negated: bool, out: &mut SmallVec<Term, 1>)
    requires weight { weight_of rest.now ≤ 2 ^ 120 }
    requires room { HasRoomFor out.old (length rest.now) }
    ensures { out.new.items ≡ out.old.items ++ map (signed_term negated) rest.now }
{
    for term in rest {
        out.push_reserved(with_sign(*term, negated));
    }
}

// Appends the sum of two terms with one exponent, if it is not 0.
fn push_both(a: Term, b: Term, out: &mut SmallVec<Term, 1>)
    requires left_weight { unsigned_abs a.coefficient ≤ 2 ^ 120 }
    requires right_weight { unsigned_abs b.coefficient ≤ 2 ^ 120 }
    requires room { HasRoomFor out.old 1 }
    ensures items { out.new.items ≡ out.old.items ++ sum_of_two a b }
    ensures capacity { out.new.capacity ≡ out.old.capacity }
{
    let coefficient = a.coefficient + b.coefficient;
    if coefficient != 0 {
        out.push_reserved(Term {
            exponent: a.exponent,
            coefficient,
        });
    }
}
