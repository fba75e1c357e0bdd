//! A shard: a journal of circuits and their classes.
ghost use Rattle.std.specs.Prelude.{◌≡◌, ◌+◌, ◌<◌, ◌≤◌, ◌++◌, ◌∷◌, [], ℕ, List, length, slice_index, slice_index_or, Contains, IfOk, OnOk, OnErr};
ghost use Rattle.qz_circ.specs.Order.{all_circuits};
ghost use Rattle.qz_shard.specs.Journals.{AreClassesOf};
ghost use Rattle.qz_shard.specs.Shards.{ShardParts, IsShard, IsAtHome, print_at, classes_with, different_prints};

use crate::class::{Arrival, Class};
use crate::growth::put;
use crate::search::find_class;
use indexmap::IndexMap;
use qz_circ::{Bounds, Memory, Steps, unrank};
use qz_finger::Probe;
use std::alloc::Global;
use std::marker::Model;
use std::sync::ledger::Ledger;

/// The ranks of circuits in the order in which they came, and their classes of equivalent circuits. All circuits are
/// within the same bounds, and their fingerprints have the same remainder by 16, the shard's number. The ranks of a class rise, and the
/// classes stand in the order in which the earliest circuit of each came; so the number of a class never changes. Of the probe it keeps
/// the seed alone, from which it is made again where a fingerprint isn't at hand: so a shard is small, and moves at little cost.
#[derive(Drop)]
pub struct Shard {
    alloc: Global,
    number: u64,
    bounds: Bounds,
    seed: u64,
    journal: Vec<u64>,
    classes: Vec<Class>,
    newest: IndexMap<u64, usize>,
}

impl Model for Shard {
    ghost use Rattle.qz_shard.specs.Shards.{ShardParts};

    ghost Value = { ShardParts };

    ghost use Rattle.qz_shard.specs.Held.{IsHeld};

    ghost view = { λ s. record { number = s.number; bounds = s.bounds; probe = record { seed = s.seed; q = s.bounds.q }; journal = s.journal.items } };

    ghost invariant = { λ s. IsHeld (record { number = s.number; bounds = s.bounds; probe = record { seed = s.seed; q = s.bounds.q }; journal = s.journal.items }) s.classes.items s.newest };
}

impl Shard {
    /// A shard with an empty journal: its number is below 16, and the probe is for the bounds' qubits. It takes no memory.
    pub fn new(alloc: Global, number: u64, b: Bounds, probe: Probe) -> Shard
        requires number { number < 16 }
        requires qubits { probe.q ≡ b.q }
        ensures { result ≡ record { number = number; bounds = b; probe = probe; journal = [] } }
    {
        Shard {
            alloc,
            number,
            bounds: b,
            seed: probe.seed(),
            journal: Vec::new(alloc),
            classes: Vec::new(alloc),
            newest: IndexMap::new(alloc),
        }
    }

    /// Adds a rank to the end of the journal, and answers its place there, counted from 0. It is the rank of a circuit within the
    /// bounds, is not there, and the circuit's fingerprint has the shard's number as its remainder by 16. The steps count
    /// comparisons, which are at most as many as there are classes with its fingerprint. After an error nothing has changed but the steps.
    pub fn add<L: Ledger>(&mut self, r: u64, steps: &mut Steps<L>) -> Result<u64, Memory>
        requires listed { r < length (all_circuits self.old.bounds) }
        requires new { Contains self.old.journal r → ⊥ }
        requires home { IsAtHome self.old r }
        ensures place { IfOk result (λ place. place ≡ length self.old.journal) }
        ensures appended { OnOk result (self.new ≡ record self.old { journal = self.old.journal ++ r ∷ [] }) }
        ensures err { OnErr result (self.new ≡ self.old) }
        ensures kept { steps.old ≤ steps.new }
        ensures counted { (classes : List (List ℕ)) → AreClassesOf self.old.bounds self.old.journal classes → steps.new ≤ steps.old + classes_with self.old (print_at self.old.bounds self.old.probe.seed r) classes }
    {
        let circuit = unrank(self.alloc, r, self.bounds)?;
        let probe = Probe::new(self.seed, self.bounds.q());
        let print = probe.finger(&circuit);
        let place = self.add_with_print(r, print, steps)?;
        Ok(place)
    }

    /// The same where the circuit's fingerprint is at hand.
    pub fn add_with_print<L: Ledger>(
        &mut self,
        r: u64,
        print: u64,
        steps: &mut Steps<L>,
    ) -> Result<u64, Memory>
        requires listed { r < length (all_circuits self.old.bounds) }
        requires new { Contains self.old.journal r → ⊥ }
        requires home { IsAtHome self.old r }
        requires print { print ≡ print_at self.old.bounds self.old.probe.seed r }
        ensures place { IfOk result (λ place. place ≡ length self.old.journal) }
        ensures appended { OnOk result (self.new ≡ record self.old { journal = self.old.journal ++ r ∷ [] }) }
        ensures err { OnErr result (self.new ≡ self.old) }
        ensures kept { steps.old ≤ steps.new }
        ensures counted { (classes : List (List ℕ)) → AreClassesOf self.old.bounds self.old.journal classes → steps.new ≤ steps.old + classes_with self.old print classes }
        ensures few { steps.new ≤ steps.old + length self.old.journal }
    {
        let new = Arrival { rank: r, print };
        let found = find_class(
            self.alloc,
            self.bounds,
            &self.classes,
            &self.newest,
            new,
            steps,
        )?;
        let place = self.journal.len() as u64;
        put(
            self.alloc,
            &mut self.journal,
            &mut self.classes,
            &mut self.newest,
            new,
            found,
        )?;
        Ok(place)
    }

    /// How many circuits were added.
    pub fn len(&self) -> u64
        ensures value { result ≡ length self.now.journal }
        ensures shard { IsShard self.now }
    {
        self.journal.len() as u64
    }

    /// The rank that was added as number i, counted from 0.
    pub fn entry(&self, i: u64) -> u64
        requires { i < length self.now.journal }
        ensures { result ≡ slice_index self.now.journal i }
    {
        self.journal[i as usize]
    }

    /// How many classes there are.
    pub fn classes(&self) -> u64
        ensures number { (classes : List (List ℕ)) → AreClassesOf self.now.bounds self.now.journal classes → result ≡ length classes }
        ensures exist { (classes : List (List ℕ)) × AreClassesOf self.now.bounds self.now.journal classes }
    {
        self.classes.len() as u64
    }

    /// The ranks of class number i, counted from 0.
    pub fn class(&self, i: u64) -> &[u64]
        requires { (classes : List (List ℕ)) → AreClassesOf self.now.bounds self.now.journal classes → i < length classes }
        ensures { (classes : List (List ℕ)) → AreClassesOf self.now.bounds self.now.journal classes → result.now ≡ slice_index_or classes i [] }
    {
        self.classes[i as usize].members.as_slice()
    }

    /// How many different fingerprints the circuits have.
    pub fn prints(&self) -> u64
        ensures { result ≡ different_prints self.now }
    {
        self.newest.len() as u64
    }
}
