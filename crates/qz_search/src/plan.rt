//! The plan of a search.
ghost use Rattle.std.specs.Prelude.{◌≡◌, ◌↔◌, false, IsOk, IfOk, Some};
ghost use Rattle.std.specs.List.{list_any};
ghost use Rattle.qz_circ.specs.ProgramCircuits.{ones};
ghost use Rattle.qz_circ.specs.Search.{IsPlan};
ghost use Rattle.qz_search.specs.PlanFaults.{is_no_weight, plan_refusal};

use std::marker::Model;

// The most circuits that a round takes.
const MOST_TAKEN: u64 = 64;

// The most circuits that the queue holds.
const MOST_HELD: u64 = 500;

// The most circuits that all rounds together take.
const MOST_TAKEN_IN_ALL: u64 = 4096;

// The most that a child may cost more than the best circuit.
const MOST_SLACK: u64 = 4;

// The most that a gate may weigh.
const MOST_WEIGHT: u64 = 100;

/// Which of the numbers of a plan is refused.
#[derive(Clone, Copy, Debug, PartialEq, Eq)]
pub enum PlanFault {
    /// A round takes no circuit or more than 64.
    Batch,
    /// The queue holds no circuit or more than 500.
    Cap,
    /// All rounds together take more than 4,096 circuits.
    Rounds,
    /// A child may cost over 4 more than the best circuit.
    Slack,
    /// A gate weighs 0 or more than 100.
    Weight,
}

/// How many rounds a search has, how many circuits each takes, how many the queue holds at most, how much more than the best
/// circuit a child may cost, and what gates weigh.
#[derive(Clone, Copy, Debug, PartialEq, Eq)]
pub struct Plan {
    rounds: u64,
    batch: u64,
    cap: u64,
    slack: u64,
    weights: [u8; 4],
}

impl Model for Plan {
    ghost use Rattle.qz_circ.specs.Search.{PlanNumbers, IsPlan};

    ghost Value = { PlanNumbers };

    ghost view = { λ p. record { rounds = p.rounds; batch = p.batch; cap = p.cap; slack = p.slack; weights = p.weights } };

    ghost invariant = { λ p. IsPlan (record { rounds = p.rounds; batch = p.batch; cap = p.cap; slack = p.slack; weights = p.weights }) };

    ghost inverse = { λ p. record { rounds = p.rounds; batch = p.batch; cap = p.cap; slack = p.slack; weights = p.weights } };
}

// Whether a number is no weight of a gate.
#[tactic(auto, using(std::proofs::lemmas::Bool::Decides::nat_tests))]
fn is_no_weight(w: u64) -> bool
    ensures { result ≡ is_no_weight w }
{
    w < 1 || w > MOST_WEIGHT
}

// Whether one of these numbers is none.
fn has_no_weight(weights: [u64; 4]) -> bool
    ensures { result ≡ list_any is_no_weight weights }
{
    weights.iter().any(|w| is_no_weight(*w))
}

// The first of these numbers that is refused, if any.
#[tactic(auto, using(std::proofs::lemmas::Bool::Decides::nat_tests), unfolding(crate::specs::PlanFaults::plan_refusal))]
fn refused(rounds: u64, batch: u64, cap: u64, slack: u64, weights: [u64; 4]) -> Option<PlanFault>
    ensures { result ≡ plan_refusal (record { rounds = rounds; batch = batch; cap = cap; slack = slack; weights = weights }) }
{
    if batch < 1 || batch > MOST_TAKEN {
        return Some(PlanFault::Batch);
    }
    if cap < 1 || cap > MOST_HELD {
        return Some(PlanFault::Cap);
    }
    if rounds.saturating_mul(batch) > MOST_TAKEN_IN_ALL {
        return Some(PlanFault::Rounds);
    }
    if slack > MOST_SLACK {
        return Some(PlanFault::Slack);
    }
    if has_no_weight(weights) {
        return Some(PlanFault::Weight);
    }
    None
}

// Weights as bytes, which hold each of them.
fn as_bytes(weights: [u64; 4]) -> [u8; 4]
    requires { list_any is_no_weight weights ≡ false }
    ensures { result ≡ weights }
{
    [
        weights[0] as u8,
        weights[1] as u8,
        weights[2] as u8,
        weights[3] as u8,
    ]
}

impl Plan {
    /// The plan with these numbers and these weights of H, X, CX and rotations, or the first of them that is refused.
    pub fn weighted(
        rounds: u64,
        batch: u64,
        cap: u64,
        slack: u64,
        weights: [u64; 4],
    ) -> Result<Plan, PlanFault>
        ensures accepted { IfOk result (λ p. p ≡ record { rounds = rounds; batch = batch; cap = cap; slack = slack; weights = weights }) }
        ensures lawful { IsOk result ↔ IsPlan (record { rounds = rounds; batch = batch; cap = cap; slack = slack; weights = weights }) }
        ensures refused { (fault : PlanFault) → (result ≡ Err fault) ↔ (plan_refusal (record { rounds = rounds; batch = batch; cap = cap; slack = slack; weights = weights }) ≡ Some fault) }
    {
        match refused(rounds, batch, cap, slack, weights) {
            Some(fault) => Err(fault),
            None => Ok(Plan {
                rounds,
                batch,
                cap,
                slack,
                weights: as_bytes(weights),
            }),
        }
    }

    /// The same where each gate weighs 1.
    pub fn new(rounds: u64, batch: u64, cap: u64, slack: u64) -> Result<Plan, PlanFault>
        ensures accepted { IfOk result (λ p. p ≡ record { rounds = rounds; batch = batch; cap = cap; slack = slack; weights = ones }) }
        ensures lawful { IsOk result ↔ IsPlan (record { rounds = rounds; batch = batch; cap = cap; slack = slack; weights = ones }) }
        ensures refused { (fault : PlanFault) → (result ≡ Err fault) ↔ (plan_refusal (record { rounds = rounds; batch = batch; cap = cap; slack = slack; weights = ones }) ≡ Some fault) }
    {
        Plan::weighted(rounds, batch, cap, slack, [1, 1, 1, 1])
    }

    /// How many rounds there are.
    pub fn rounds(&self) -> u64
        ensures value { result ≡ self.now.rounds }
        ensures lawful { IsPlan self.now }
    {
        self.rounds
    }

    /// How many circuits a round takes, from 1 to 64.
    pub fn batch(&self) -> u64
        ensures value { result ≡ self.now.batch }
        ensures lawful { IsPlan self.now }
    {
        self.batch
    }

    /// How many circuits the queue holds at most, from 1 to 500.
    pub fn cap(&self) -> u64
        ensures value { result ≡ self.now.cap }
        ensures lawful { IsPlan self.now }
    {
        self.cap
    }

    /// How much more than the best circuit a child may cost, at most 4.
    pub fn slack(&self) -> u64
        ensures value { result ≡ self.now.slack }
        ensures lawful { IsPlan self.now }
    {
        self.slack
    }
    /// The weights of H, X, CX and rotations, each from 1 to 100.
    pub fn weights(&self) -> [u8; 4]
        ensures value { result ≡ self.now.weights }
        ensures lawful { IsPlan self.now }
    {
        self.weights
    }
}
