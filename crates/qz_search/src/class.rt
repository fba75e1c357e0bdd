//! The classes of rules, each with its members as circuits.
ghost use Rattle.std.specs.Prelude.{◌≡◌, ◌<◌, ◌≤◌, length, IsTrue, IfOk, OnOk};
ghost use Rattle.qz_circ.specs.RuleFiles.{numbered_class};
ghost use Rattle.qz_circ.specs.Replacement.{children_in};
ghost use Rattle.qz_circ.specs.Vectors.{lists_of};
ghost use Rattle.qz_search.specs.Classes.{AreRuleSides, count_of, IsKept};
ghost use Rattle.qz_search.specs.Tables.{AreAlike};

use crate::circuits::are_same;
use qz_circ::{Memory, Op, prec};
use qz_rulefile::Rules;
use std::alloc::Global;

// The members of a class as circuits.
pub(crate) fn members_of(alloc: Global, rules: &Rules, c: u64) -> Result<Vec<Vec<Op>>, Memory>
    requires { c < length rules.now.classes }
    ensures { IfOk result (λ members. lists_of members.items ≡ numbered_class rules.now.classes c) }
{
    let mut members = Vec::new(alloc);
    for k in 0..rules.class_len(c) {
        if members.push(rules.member(c, k)?).is_err() {
            return Err(Memory);
        }
    }
    Ok(members)
}

// The last two circuits are both this one.
fn ends_twice(kept: &[Vec<Op>], c: &[Op]) -> bool
    ensures { IsTrue result → 2 ≤ count_of c.now (lists_of kept.now) }
{
    let n = kept.len();
    if n < 2 {
        return false;
    }
    if !are_same(&kept[n - 1], c) {
        return false;
    }
    are_same(&kept[n - 2], c)
}

// Puts a circuit behind others, unless they end with it twice.
fn keep(kept: &mut Vec<Vec<Op>>, c: Vec<Op>) -> Result<(), Memory>
    ensures { OnOk result (IsKept (lists_of kept.old.items) (lists_of kept.new.items) c.items) }
{
    if ends_twice(kept, &c) {
        return Ok(());
    }
    kept.push(c).map_err(|_| Memory)
}

// The members in order, each at most twice. A circuit that stands in a class again makes a rule with itself, which has children
// where it brings gates together; that it stands there once more gives nothing else.
pub(crate) fn thinned(alloc: Global, members: Vec<Vec<Op>>) -> Result<Vec<Vec<Op>>, Memory>
    requires fit { AreRuleSides (lists_of members.items) }
    ensures fit { IfOk result (λ kept. AreRuleSides (lists_of kept.items)) }
    ensures alike { IfOk result (λ kept. AreAlike (children_in (lists_of kept.items)) (children_in (lists_of members.items))) }
{
    let mut sorted = members;
    sorted.sort_unstable_by(|a, c| prec(a, c));
    let mut kept = Vec::new(alloc);
    for c in sorted {
        keep(&mut kept, c)?;
    }
    Ok(kept)
}
