//! Laws of the store: its table is the round machine. Each is the contract of a function with an empty body. They hold of any values with
//! journals, and so of the shards of a store.
ghost use Rattle.std.specs.Prelude.{◌≡◌, ◌<◌, true, ℕ, List, Option, Some, map, length, slice_get};
ghost use Rattle.std.specs.List.Sorted.{IsStrictlyIncreasing};
ghost use Rattle.atomic_table.specs.Table.{State};
ghost use Rattle.qz_core.specs.RoundMachine.{RoundState, opened, home_among, home_of, is_pending, claimed, put, AreOfWorkers};
ghost use Rattle.qz_seats.specs.declared.view.Terms.{Terms};
ghost use Rattle.qz_seats.specs.declared.view.View.{View};
ghost use Rattle.qz_seats.specs.SeatRule.{names_of, terms_of, IsRuled};
ghost use Rattle.qz_store.specs.Showing.{IsOfStore, Shows, IsSameRound};
ghost use Rattle.qz_store.specs.Steps.{SeatStep, IsChange, IsNoEvent, IsPending};
ghost use Rattle.qz_store.specs.Steps.SeatStep.{Draw, Won, Lost, SettleOne, SettleSame, Split, Join};
ghost use Rattle.qz_store.specs.Schedules.{events_of, AreForStore, opened_table, IsInterleaving};

use qz_seats::Journal;

/// A draw is a claim, by whichever worker of the round. Past the end it is the claim that changes nothing.
pub fn a_draw_is_a_claim<V: Journal>()
    ensures { (k worker : ℕ) → IsChange V.journal V.names V.mark (Draw k) (λ m. worker < length m.pending) (λ m. claimed m worker) }
{}

/// Winning a value changes nothing of the round.
pub fn a_win_is_no_event<V: Journal>()
    ensures { (k i : ℕ) → IsNoEvent V.journal V.names V.mark (Won k i) }
{}

/// Finding a value out changes nothing of the round.
pub fn a_loss_is_no_event<V: Journal>()
    ensures { (k i : ℕ) → IsNoEvent V.journal V.names V.mark (Lost k i) }
{}

/// Giving a value back with an entry more, where its number is the entry's home, is a put by whichever worker has the entry
/// pending; and some worker has.
pub fn a_settle_with_one_entry_is_a_put<V: Journal>()
    ensures is_put { (k i r worker : ℕ) → IsChange V.journal V.names V.mark (SettleOne k i r) (λ m. (i ≡ home_of m r) × (is_pending m worker r ≡ true)) (λ m. put m worker r) }
    ensures pending { (k i r : ℕ) → IsPending V.journal V.names V.mark k i r }
{}

/// Giving a value back as it was changes nothing of the round.
pub fn a_settle_with_none_is_no_event<V: Journal>()
    ensures { (k i : ℕ) → IsNoEvent V.journal V.names V.mark (SettleSame k i) }
{}

/// A split changes nothing of the round.
pub fn a_split_is_no_event<V: Journal>()
    ensures { (k : ℕ) → IsNoEvent V.journal V.names V.mark (Split k) }
{}

/// A join changes nothing of the round.
pub fn a_join_is_no_event<V: Journal>()
    ensures { (k other : ℕ) → IsNoEvent V.journal V.names V.mark (Join k other) }
{}

/// A table shows one round, but for who has which pending rank and in which order.
pub fn a_table_shows_one_round<V: Journal>()
    ensures { (t : Terms) (s : State (Option V) View) (m n : RoundState) → IsRuled V.journal V.names V.mark t s → Shows V.journal t s m → Shows V.journal t s n → IsSameRound m n }
{}

/// The table of a store that was opened keeps the rule, and shows the opened round, of any number of workers.
#[tactic(auto, using(crate::proofs::Traces::opened_lawful, crate::proofs::Traces::opened_ruled))]
pub fn the_opened_table_shows_the_opened_round<V: Journal>()
    ensures lawful { (limit seats : ℕ) (values : List V) → AreForStore V.journal V.names V.mark limit seats values → IsOfStore (terms_of V.journal V.names V.mark limit seats values) }
    ensures ruled { (limit seats : ℕ) (values : List V) → AreForStore V.journal V.names V.mark limit seats values → IsRuled V.journal V.names V.mark (terms_of V.journal V.names V.mark limit seats values) (opened_table V.journal V.names V.mark limit seats values) }
    ensures shown { (limit seats : ℕ) (values : List V) → AreForStore V.journal V.names V.mark limit seats values → (n : ℕ) (homes : List ℕ) → Shows V.journal (terms_of V.journal V.names V.mark limit seats values) (opened_table V.journal V.names V.mark limit seats values) (opened n (names_of V.names values) homes) }
{}

/// Where the homes of the ranks are given by a function, the home of a rank is what the function says, as the shard of a circuit.
pub fn a_rank_has_the_home_that_is_given()
    ensures { (list : List ℕ) (home : ℕ → ℕ) (d r : ℕ) → IsStrictlyIncreasing list → ((x : ℕ) → home x < 16) → slice_get list d ≡ Some r → home_among list (map home list) r ≡ home r }
{}

/// Each schedule is an interleaving of the round machine: any steps from the opening on lead to a table that keeps the rule and shows
/// the round after the events of these steps. So the laws on all interleavings speak of the store.
#[tactic(auto, using(crate::proofs::Traces::of_one_worker))]
pub fn each_schedule_is_an_interleaving<V: Journal>()
    ensures shown { (limit seats : ℕ) (values : List V) (homes : List ℕ) (steps : List SeatStep) (u : State (Option V) View) → IsInterleaving V.journal V.names V.mark limit seats values homes steps u }
    ensures workers { (steps : List SeatStep) → AreOfWorkers 1 (events_of steps) }
{}
