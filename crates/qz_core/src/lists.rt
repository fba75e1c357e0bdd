//! Lists of ranks in vectors that have room for all that they ever hold.
ghost use Rattle.std.specs.Prelude.{◌≡◌, ℕ, ◌<◌, ◌==◌, true, [], List, length, replicate, slice_index_or, slice_set, vec_len, IsTrue, IfOk, ◌↔◌};
ghost use Rattle.std.specs.List.{remove, list_all, position};
ghost use Rattle.qz_circ.specs.Vectors.{lists_of};
ghost use Rattle.qz_core.specs.HeldRound.{HaveRoom};
ghost use Rattle.qz_core.specs.RoundMachine.{with_entry, home_among, IsRoundOf};

use qz_circ::Memory;
use std::alloc::Global;

// So many empty lists, each with room for so many ranks.
pub(crate) fn empty_lists(alloc: Global, count: usize, room: usize) -> Result<Vec<Vec<u64>>, Memory>
    ensures lists { IfOk result (λ lists. lists_of lists.items ≡ replicate count []) }
    ensures room { IfOk result (λ lists. HaveRoom room lists.items) }
{
    let Ok(mut lists) = Vec::with_capacity(alloc, count) else {
        return Err(Memory);
    };
    for _ in 0..count {
        let Ok(list) = Vec::with_capacity(alloc, room) else {
            return Err(Memory);
        };
        lists.push_reserved(list);
    }
    Ok(lists)
}

// Puts a rank at the end of the list with this number.
pub(crate) fn append_to(lists: &mut Vec<Vec<u64>>, i: usize, r: u64)
    requires within { i < vec_len lists.old }
    requires room { (n : ℕ) × HaveRoom n lists.old.items × (length (slice_index_or (lists_of lists.old.items) i []) < n) }
    ensures lists { lists_of lists.new.items ≡ with_entry (lists_of lists.old.items) i r }
    ensures kept { (n : ℕ) → HaveRoom n lists.old.items → HaveRoom n lists.new.items }
{
    lists[i].push_reserved(r);
}

// Takes the rank at a place out of the list with this number.
pub(crate) fn remove_from(lists: &mut Vec<Vec<u64>>, i: usize, place: usize)
    requires within { i < vec_len lists.old }
    requires place { place < length (slice_index_or (lists_of lists.old.items) i []) }
    ensures lists { lists_of lists.new.items ≡ slice_set (lists_of lists.old.items) i (remove (slice_index_or (lists_of lists.old.items) i []) place) }
    ensures kept { (n : ℕ) → HaveRoom n lists.old.items → HaveRoom n lists.new.items }
{
    lists[i].remove(place);
}

// The first place of a rank in a list, if it is there.
pub(crate) fn place_of(list: &[u64], r: u64) -> Option<usize>
    ensures { result ≡ position (λ x. x == r) list.now }
{
    list.iter().position(|x| *x == r)
}

// Whether there is no rank in any list.
pub(crate) fn are_empty(lists: &[Vec<u64>]) -> bool
    ensures { result ≡ list_all (λ list. vec_len list == 0) lists.now }
{
    lists.iter().all(|list| list.is_empty())
}

// The home of a rank of the list, and 0 for any other rank.
pub(crate) fn home_in(list: &[u64], homes: &[u8], r: u64) -> usize
    requires { IsRoundOf list.now homes.now }
    ensures value { result ≡ home_among list.now homes.now r }
    ensures below { result < 16 }
{
    match list.binary_search(&r) {
        Ok(place) => homes[place] as usize,
        Err(_) => 0,
    }
}
