//! Laws of the round machine over every interleaving of the workers' events, each the contract of a function with an empty body.
ghost use Rattle.std.specs.Prelude.{◌≡◌, ◌≢◌, ◌⊎◌, ◌<◌, ℕ, List, [], length, take, slice_index, slice_index_or};
ghost use Rattle.std.specs.List.Sorted.{IsStrictlyIncreasing};
ghost use Rattle.qz_core.specs.RoundMachine.{RoundState, RoundEvent, opened, home_of, after_events, claims_give, AreOfWorkers, IsRoundOf, IsRound, IsClaimed, IsPendingOnce, IsPutOnce, IsNowhere, IsFinished, HoldsAlways};

/// The claims give the ranks of the list in its order, from the first on. So of ranks that rise none is given twice.
pub fn claims_give_the_list_in_order()
    ensures order { (n : ℕ) (list homes : List ℕ) (events : List RoundEvent) → claims_give events (opened n list homes) ≡ take (after_events events (opened n list homes)).next list }
    ensures once { (n : ℕ) (list homes : List ℕ) (events : List RoundEvent) → IsStrictlyIncreasing list → IsStrictlyIncreasing (claims_give events (opened n list homes)) }
{}

/// No event changes the list or its homes.
#[tactic(auto, using(crate::proofs::Interleavings::input_stays))]
pub fn the_list_and_its_homes_stay()
    ensures list { (events : List RoundEvent) (m : RoundState) → (after_events events m).list ≡ m.list }
    ensures homes { (events : List RoundEvent) (m : RoundState) → (after_events events m).homes ≡ m.homes }
{}

/// After any events of the workers a round is still one.
#[tactic(auto, using(crate::proofs::Rounds::opened_is_round))]
pub fn events_keep_the_round()
    ensures opened { (n : ℕ) (list homes : List ℕ) → IsRoundOf list homes → IsRound n (opened n list homes) }
    ensures kept { (n : ℕ) (events : List RoundEvent) (m : RoundState) → AreOfWorkers n events → IsRound n m → IsRound n (after_events events m) }
{}

/// Each claimed rank is pending for exactly one worker, or stands in its home's list exactly once. Each other rank is nowhere.
pub fn claimed_ranks_are_pending_or_put_once()
    ensures claimed { HoldsAlways (λ m. (r : ℕ) → IsClaimed m r → IsPendingOnce m r ⊎ IsPutOnce m r) }
    ensures unclaimed { HoldsAlways (λ m. (r : ℕ) → (IsClaimed m r → ⊥) → IsNowhere m r) }
{}

/// What is pending is a claimed rank, and what stands in the list of a shard is a claimed rank whose home is that shard.
pub fn nothing_else_is_there()
    ensures pending { HoldsAlways (λ m. (worker i : ℕ) → i < length (slice_index_or m.pending worker []) → IsClaimed m (slice_index (slice_index_or m.pending worker []) i)) }
    ensures put { HoldsAlways (λ m. (s i : ℕ) → i < length (slice_index_or m.shards s []) → IsClaimed m (slice_index (slice_index_or m.shards s []) i)) }
    ensures home { HoldsAlways (λ m. (s i : ℕ) → i < length (slice_index_or m.shards s []) → home_of m (slice_index (slice_index_or m.shards s []) i) ≡ s) }
{}

/// Where all ranks are claimed and none is pending, each rank of the list is put exactly once, into the list of its home.
pub fn a_finished_round_has_put_each_rank_once()
    ensures { HoldsAlways (λ m. IsFinished m → (k : ℕ) → k < length m.list → IsPutOnce m (slice_index m.list k)) }
{}
