//! Fingerprints of circuits that differ in their last gate.
ghost use Rattle.std.specs.Prelude.{◌≡◌, ◌<◌, [], ◌∷◌, ◌++◌, length, IfOk, OnOk};
ghost use Rattle.qz_circ.specs.Circuit.{ActsBelow, HasBelow};
ghost use Rattle.qz_circ.specs.Classes.{without_last};
ghost use Rattle.qz_circ.specs.Order.{all_circuits, circuit_at};
ghost use Rattle.qz_finger.specs.Stands.{StandsFor};
ghost use Rattle.qz_repgen.specs.Shards.{HoldsValues, HoldsFront};
ghost use Rattle.qz_shard.specs.Shards.{print_at};

use qz_circ::{Bounds, Memory, Op, drop_last_rank, op_of, unrank};
use qz_finger::{Probe, Values};
use std::alloc::Global;
use std::marker::Model;

// The last gate of the circuit with rank r.
fn last_gate(b: Bounds, r: u64) -> Op
    requires some { 0 < r }
    requires listed { r < length (all_circuits b) }
    ensures gate { ActsBelow b.q result }
    ensures parameters { HasBelow 3 result }
    ensures circuit { circuit_at b r ≡ without_last (circuit_at b r) ++ result ∷ [] }
{
    let number = (r - 1) % b.gates();
    op_of(number, b).unwrap()
}

// A circuit, by its rank, and its values.
#[derive(Drop)]
struct CircuitValues {
    rank: u64,
    values: Values,
}

impl CircuitValues {
    // The empty circuit.
    fn new(b: Bounds, probe: &Probe) -> CircuitValues
        requires qubits { probe.now.q ≡ b.q }
        ensures { HoldsValues b probe.now result }
    {
        CircuitValues {
            rank: 0,
            values: probe.values(&[]),
        }
    }

    // Goes to the circuit with this rank. Nothing is made anew where it is the same.
    fn go_to(&mut self, alloc: Global, b: Bounds, probe: &Probe, rank: u64) -> Result<(), Memory>
        requires listed { rank < length (all_circuits b) }
        requires qubits { probe.now.q ≡ b.q }
        requires values { HoldsValues b probe.now self.old }
        ensures rank { OnOk result (self.new.rank ≡ rank) }
        ensures values { HoldsValues b probe.now self.new }
    {
        if self.rank == rank {
            return Ok(());
        }
        let circuit = unrank(alloc, rank, b)?;
        *self = CircuitValues {
            rank,
            values: probe.values(&circuit),
        };
        Ok(())
    }

    // The values of the circuit with rank r. Where it has a last gate, goes to the circuit without that.
    fn longer(&mut self, alloc: Global, b: Bounds, probe: &Probe, r: u64) -> Result<Values, Memory>
        requires listed { r < length (all_circuits b) }
        requires qubits { probe.now.q ≡ b.q }
        requires values { HoldsValues b probe.now self.old }
        ensures stands { IfOk result (StandsFor probe.now (circuit_at b r)) }
        ensures values { HoldsValues b probe.now self.new }
    {
        if r == 0 {
            return Ok(probe.values(&[]));
        }
        self.go_to(alloc, b, probe, drop_last_rank(r, b))?;
        Ok(probe.with_gate(&self.values, last_gate(b, r)))
    }
}

// A circuit, and a shorter one. The next circuit mostly is that shorter one with another gate.
#[derive(Drop)]
struct Front {
    circuit: CircuitValues,
    shorter: CircuitValues,
}

impl Front {
    // The empty circuit.
    fn new(b: Bounds, probe: &Probe) -> Front
        requires qubits { probe.now.q ≡ b.q }
        ensures { HoldsFront b probe.now result }
    {
        Front {
            circuit: CircuitValues::new(b, probe),
            shorter: CircuitValues::new(b, probe),
        }
    }

    // Goes to the circuit with this rank. Nothing is made anew where it is the same.
    fn go_to(&mut self, alloc: Global, b: Bounds, probe: &Probe, rank: u64) -> Result<(), Memory>
        requires listed { rank < length (all_circuits b) }
        requires qubits { probe.now.q ≡ b.q }
        requires front { HoldsFront b probe.now self.old }
        ensures rank { OnOk result (self.new.circuit.rank ≡ rank) }
        ensures front { HoldsFront b probe.now self.new }
    {
        if self.circuit.rank != rank {
            let values = self.shorter.longer(alloc, b, probe, rank)?;
            self.circuit = CircuitValues { rank, values };
        }
        Ok(())
    }

    // The fingerprint of the circuit with rank r, which is this one with one gate more.
    fn print_with(&self, b: Bounds, probe: &Probe, r: u64) -> u64
        requires some { 0 < r }
        requires listed { r < length (all_circuits b) }
        requires qubits { probe.now.q ≡ b.q }
        requires front { HoldsFront b probe.now self.now }
        requires last { circuit_at b self.now.circuit.rank ≡ without_last (circuit_at b r) }
        ensures { result ≡ print_at b probe.now.seed r }
    {
        probe.finger_with(&self.circuit.values, last_gate(b, r))
    }
}

/// Makes the fingerprints of circuits from their ranks. What circuits that differ in their last gate have in common is made once
/// where they come one after another, as the ranks of a list that rises do. Contracts see the bounds and the probe.
#[derive(Drop)]
pub struct Fingerprints {
    alloc: Global,
    bounds: Bounds,
    probe: Probe,
    front: Front,
}

impl Model for Fingerprints {
    ghost use Rattle.qz_repgen.specs.Shards.{FingerprintsParts, MakesFingerprints};

    ghost Value = { FingerprintsParts };

    ghost view = { λ f. record { bounds = f.bounds; probe = f.probe } };

    ghost invariant = { λ f. MakesFingerprints f.bounds f.probe f.front };
}

impl Fingerprints {
    /// For circuits within these bounds, by this probe, which is for the bounds' qubits.
    pub fn new(alloc: Global, b: Bounds, probe: Probe) -> Fingerprints
        requires { probe.q ≡ b.q }
        ensures { result ≡ record { bounds = b; probe = probe } }
    {
        Fingerprints {
            alloc,
            bounds: b,
            probe,
            front: Front::new(b, &probe),
        }
    }

    /// The fingerprint of the circuit with rank r, which is within the bounds.
    pub fn of(&mut self, r: u64) -> Result<u64, Memory>
        requires { r < length (all_circuits self.old.bounds) }
        ensures print { IfOk result (λ print. print ≡ print_at self.old.bounds self.old.probe.seed r) }
        ensures same { self.new ≡ self.old }
    {
        if r == 0 {
            return Ok(self.probe.finger(&[]));
        }
        let front = drop_last_rank(r, self.bounds);
        self.front
            .go_to(self.alloc, self.bounds, &self.probe, front)?;
        Ok(self.front.print_with(self.bounds, &self.probe, r))
    }
}
