//! One round of two workers, with an answer of each kind.
ghost use Rattle.std.specs.Prelude.{◌≡◌, ◌<◌, length, IfOk};
ghost use Rattle.qz_core.specs.RoundMachine.{IsRoundOf};

use crate::{NotPending, Round};
use qz_circ::Memory;
use std::alloc::Global;
use std::test::Fail;

// Three ranks, the last of which has another home than the others.
fn round_of_two(alloc: Global) -> Result<Round, Memory>
    ensures { IfOk result (λ round. length round.pending ≡ 2) }
{
    Round::new(alloc, 2, &[5, 6, 7], &[0, 0, 1])
}

// The calls, of which the test knows that the workers stay.
fn claim(round: &mut Round, worker: u64) -> Option<u64>
    requires { worker < length round.old.pending }
    ensures { length round.new.pending ≡ length round.old.pending }
{
    round.claim(worker)
}

fn put(round: &mut Round, worker: u64, r: u64) -> Result<(), NotPending>
    requires { worker < length round.old.pending }
    ensures { length round.new.pending ≡ length round.old.pending }
{
    round.put(worker, r)
}

// Whether the list of a shard has these ranks.
fn is_shard(round: &Round, s: u64, ranks: &[u64]) -> bool
    requires { s < 16 }
{
    if round.shard_len(s) != ranks.len() as u64 {
        return false;
    }
    for (i, r) in ranks.iter().enumerate() {
        if round.shard_entry(s, i as u64) != *r {
            return false;
        }
    }
    true
}

#[test]
fn three_ranks_of_two_workers(rt: HostRuntime) -> Result<(), Fail> {
    let mut round = round_of_two(rt.alloc())?;
    assert_eq!(rt; claim(&mut round, 0), Some(5));
    assert_eq!(rt; claim(&mut round, 1), Some(6));
    assert_eq!(rt; put(&mut round, 0, 6), Err(NotPending));
    assert_eq!(rt; put(&mut round, 1, 6), Ok(()));
    assert_eq!(rt; put(&mut round, 0, 5), Ok(()));
    assert_eq!(rt; claim(&mut round, 0), Some(7));
    assert!(rt; !round.finished());
    assert_eq!(rt; claim(&mut round, 1), None);
    assert_eq!(rt; put(&mut round, 0, 7), Ok(()));
    assert!(rt; round.finished());
    assert!(rt; is_shard(&round, 0, &[6, 5]));
    assert!(rt; is_shard(&round, 1, &[7]));
    Ok(())
}
