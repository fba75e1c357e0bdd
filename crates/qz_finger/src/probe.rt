//! Probes, which make fingerprints.
ghost use Rattle.std.specs.Prelude.{◌≡◌, ◌≤◌, [], ◌∷◌, ◌++◌};
ghost use Rattle.qz_circ.specs.Circuit.{Circuit, ActsBelow, HasBelow, IsOn};
ghost use Rattle.qz_finger.specs.Fingerprint.{ProbeParts, fingerprint};
ghost use Rattle.qz_finger.specs.Stands.{StandsFor};

use crate::actions::{after, step_of};
use crate::modulo::multiply;
use crate::tables::{Tables, powers, raised_to};
use crate::trace::{trace, trace_after};
use crate::values::{Values, halved};
use crate::words::{parameters, weights};
use qz_circ::{Op, entries_on};
use qz_random::generator;
use std::marker::Model;

// A 32nd root of unity modulo p, 2^6, which stands for e^(iπ/16).
const ROOT_OF_UNITY: u64 = 64;

// Its inverse modulo p.
const INVERSE_ROOT_OF_UNITY: u64 = 18158513693329981441;

// The base whose powers stand for the parameters.
const PARAMETER_BASE: u64 = 7;

// Its inverse modulo p.
const INVERSE_PARAMETER_BASE: u64 = 2635249152773512046;

/// The random weights of a seed, for circuits on 1 to 3 qubits. It takes no memory.
#[derive(Clone, Copy)]
pub struct Probe {
    seed: u64,
    q: u64,
    values: Tables,
    inverses: Tables,
}

impl Model for Probe {
    ghost use Rattle.std.proofs.Common.{sym};
    ghost use Rattle.qz_finger.specs.Fingerprint.{ProbeParts};
    ghost use Rattle.qz_finger.specs.Tables.{value_tables, inverse_tables, HasTables};

    ghost Value = { ProbeParts };

    ghost view = { λ p. record { seed = p.seed; q = p.q } };

    ghost invariant = { λ p. HasTables p.seed p.q p.values p.inverses };

    ghost inverse = { λ d. record { seed = d.seed; q = d.q; values = value_tables d.seed d.q; inverses = inverse_tables d.seed d.q } };

    ghost inverse_ok = { λ p h. (λ i. record { seed = p.seed; q = p.q; values = sym h.values i; inverses = sym h.inverses i }) };
}

impl Probe {
    /// The probe of a seed, for circuits on q qubits, with q from 1 to 3.
    pub fn new(seed: u64, q: u64) -> Probe
        requires { (1 ≤ q) × (q ≤ 3) }
        ensures { result ≡ record { seed = seed; q = q } }
    {
        let size = entries_on(q);
        let mut rng = generator(seed);
        let value_weights = weights(&mut rng, size);
        let inverse_weights = weights(&mut rng, size);
        let exponents = parameters(&mut rng);
        let up = raised_to(PARAMETER_BASE, &exponents);
        let down = raised_to(INVERSE_PARAMETER_BASE, &exponents);
        Probe {
            seed,
            q,
            values: Tables {
                weights: value_weights,
                constants: powers(ROOT_OF_UNITY),
                up,
                down,
            },
            inverses: Tables {
                weights: inverse_weights,
                constants: powers(INVERSE_ROOT_OF_UNITY),
                up: down,
                down: up,
            },
        }
    }

    /// The seed.
    pub fn seed(&self) -> u64
        ensures { result ≡ self.now.seed }
    {
        self.seed
    }

    /// The number of qubits.
    pub fn q(&self) -> u64
        ensures value { result ≡ self.now.q }
        ensures within { (1 ≤ self.now.q) × (self.now.q ≤ 3) }
    {
        self.q
    }

    // The values of the empty circuit.
    fn empty(&self) -> Values
        ensures { StandsFor self.now [] result }
    {
        Values {
            values: self.values.weights,
            inverses: self.inverses.weights,
            scale: 1,
        }
    }

    /// The values of a circuit that is one with known values and this gate at its end. The gate is as `finger` asks.
    pub fn with_gate(&self, values: &Values, op: Op) -> Values
        requires gate { ActsBelow self.now.q op }
        requires parameters { HasBelow 3 op }
        ensures { (c : Circuit) → StandsFor self.now c values.now → StandsFor self.now (c ++ op ∷ []) result }
    {
        let size = entries_on(self.q);
        let step = step_of(&self.values, op);
        let inverse_step = step_of(&self.inverses, op);
        Values {
            values: after(step, size, &values.values),
            inverses: after(inverse_step, size, &values.inverses),
            scale: halved(values.scale, op),
        }
    }

    // Applies one more gate, after the others, to values of this probe.
    fn apply(&self, values: &mut Values, op: Op)
        requires gate { ActsBelow self.now.q op }
        requires parameters { HasBelow 3 op }
        ensures { (c : Circuit) → StandsFor self.now c values.old → StandsFor self.now (c ++ op ∷ []) values.new }
    {
        *values = self.with_gate(values, op);
    }

    /// The values of a circuit. Its gates are as `finger` asks.
    pub fn values(&self, c: &[Op]) -> Values
        requires { IsOn self.now.q 3 c.now }
        ensures { StandsFor self.now c.now result }
    {
        let mut values = self.empty();
        for op in c {
            self.apply(&mut values, *op);
        }
        values
    }

    // The fingerprint of the circuit that the values stand for.
    fn finger_of(&self, values: &Values) -> u64
        ensures { (c : Circuit) → StandsFor self.now c values.now → result ≡ fingerprint self.now.seed self.now.q c }
    {
        let first = trace(self.q, &values.values);
        let second = trace(self.q, &values.inverses);
        multiply(multiply(first, second), values.scale)
    }

    /// The fingerprint of a circuit on the probe's qubits: a number below p. The gates are on qubits below q, the two of a CX
    /// different, and have no parameters but 0, 1 and 2, the two of a sum different.
    pub fn finger(&self, c: &[Op]) -> u64
        requires { IsOn self.now.q 3 c.now }
        ensures { result ≡ fingerprint self.now.seed self.now.q c.now }
    {
        self.finger_of(&self.values(c))
    }

    /// The fingerprint of a circuit that is one with known values and this gate at its end, without the values of that circuit.
    /// The gate is as `finger` asks.
    pub fn finger_with(&self, values: &Values, op: Op) -> u64
        requires gate { ActsBelow self.now.q op }
        requires parameters { HasBelow 3 op }
        ensures { (c : Circuit) → StandsFor self.now c values.now → result ≡ fingerprint self.now.seed self.now.q (c ++ op ∷ []) }
    {
        let step = step_of(&self.values, op);
        let inverse_step = step_of(&self.inverses, op);
        let first = trace_after(step, self.q, &values.values);
        let second = trace_after(inverse_step, self.q, &values.inverses);
        multiply(multiply(first, second), halved(values.scale, op))
    }
}
