//! Matrices of circuits.
ghost use Rattle.std.specs.Prelude.{◌≡◌, ◌+◌, ◌^◌, ◌<◌, ◌≤◌, [], ◌∷◌, ◌++◌, length, if◌then◌else◌, IfOk, OnOk, OnErr};
ghost use Rattle.qz_circ.specs.Circuit.{Circuit, ActsBelow, HasBelow, IsOn};
ghost use Rattle.qz_circ.specs.Paths.{is_h};
ghost use Rattle.qz_ring.specs.Terms.{weight_of, largest_reach};
ghost use Rattle.qz_matrix.specs.Entries.{entry_at, StandsFor};

use crate::gates::step;
use crate::identity::identity;
use crate::states::place;
use qz_circ::{Memory, Op};
use qz_ring::Elem;
use std::alloc::Global;
use std::marker::Model;

/// The matrix of a circuit on 1 to 3 qubits, of at most 100 gates.
///
/// Its entries are sums of monomials. The halves are the circuit's H gates: each owes a factor 1/√2, which the entries leave
/// out. So the matrix is that of the circuit times √2, as often as there are halves.
#[derive(Drop)]
pub struct Matrix {
    q: u64,
    gates: u64,
    halves: u64,
    entries: Vec<Elem>,
}

impl Model for Matrix {
    ghost use Rattle.qz_matrix.specs.Entries.{Entries, IsMatrix};

    ghost Value = { Entries };

    ghost view = { λ m. record { q = m.q; gates = m.gates; halves = m.halves; sums = m.entries.items } };

    ghost invariant = { λ m. IsMatrix (record { q = m.q; gates = m.gates; halves = m.halves; sums = m.entries.items }) };
}

// How many halves a gate adds: 1 for H.
fn halves_of(op: Op) -> u64
    ensures { result ≡ (if is_h op then 1 else 0) }
{
    match op {
        Op::H(_) => 1,
        _ => 0,
    }
}

impl Matrix {
    /// The matrix of no gate.
    fn identity(alloc: Global, q: u64) -> Result<Matrix, Memory>
        requires { (1 ≤ q) × (q ≤ 3) }
        ensures qubits { IfOk result (λ m. m.q ≡ q) }
        ensures stands { IfOk result (λ m. StandsFor m []) }
    {
        let entries = identity(alloc, q)?;
        Ok(Matrix {
            q,
            gates: 0,
            halves: 0,
            entries,
        })
    }

    /// The matrix of a circuit on q qubits, with q from 1 to 3. The circuit has at most 100 gates. They are on qubits below q,
    /// the two of a CX different, and have no parameters but 0, 1 and 2, the two of a sum different.
    pub fn of(alloc: Global, c: &[Op], q: u64) -> Result<Matrix, Memory>
        requires qubits { (1 ≤ q) × (q ≤ 3) }
        requires gates { IsOn q 3 c.now }
        requires short { length c.now ≤ 100 }
        ensures qubits { IfOk result (λ m. m.q ≡ q) }
        ensures stands { IfOk result (λ m. StandsFor m c.now) }
    {
        let mut matrix = Matrix::identity(alloc, q)?;
        for op in c {
            matrix.apply(*op)?;
        }
        Ok(matrix)
    }

    /// Applies one more gate, after the others, of which there are fewer than 100. The gate is on qubits below the matrix's
    /// number of them, the two of a CX different, and has no parameters but 0, 1 and 2, the two of a sum different. After want
    /// of memory the matrix is as it was.
    pub fn apply(&mut self, op: Op) -> Result<(), Memory>
        requires gate { ActsBelow self.old.q op }
        requires parameters { HasBelow 3 op }
        requires few { self.old.gates < 100 }
        ensures applied { (c : Circuit) → StandsFor self.old c → OnOk result (StandsFor self.new (c ++ op ∷ [])) }
        ensures qubits { OnOk result (self.new.q ≡ self.old.q) }
        ensures gates { OnOk result (self.new.gates ≡ self.old.gates + 1) }
        ensures halves { OnOk result (self.new.halves ≡ self.old.halves + (if is_h op then 1 else 0)) }
        ensures err { OnErr result (self.new ≡ self.old) }
    {
        step(self.q, &mut self.entries, op)?;
        self.gates += 1;
        self.halves += halves_of(op);
        Ok(())
    }

    /// The entry in a row of a column, both counted from 0.
    pub fn entry(&self, i: u64, j: u64) -> &Elem
        requires row { i < 2 ^ self.now.q }
        requires column { j < 2 ^ self.now.q }
        ensures entry { result.now ≡ entry_at self.now i j }
        ensures weight { weight_of result.now ≤ 2 ^ self.now.gates }
        ensures reach { largest_reach result.now ≤ self.now.gates }
    {
        &self.entries[place(self.q, i, j)]
    }

    /// The number of qubits.
    pub fn q(&self) -> u64
        ensures value { result ≡ self.now.q }
        ensures within { (1 ≤ self.now.q) × (self.now.q ≤ 3) }
    {
        self.q
    }

    /// The number of gates.
    pub fn gates(&self) -> u64
        ensures value { result ≡ self.now.gates }
        ensures few { self.now.gates ≤ 100 }
    {
        self.gates
    }

    /// The number of H gates, each of which owes the matrix a factor 1/√2.
    pub fn halves(&self) -> u64
        ensures value { result ≡ self.now.halves }
        ensures within { self.now.halves ≤ self.now.gates }
        ensures few { self.now.gates ≤ 100 }
    {
        self.halves
    }
}
