//! The gates of a program on both sides of those that are brought together.
ghost use Rattle.std.specs.Prelude.{◌≡◌, ℕ, ◌+◌, ◌<◌, ◌≤◌, ◌==◌, ◌||◌, List, [], ◌∷◌, ◌++◌, length, drop, Bool, OnOk, IfOk};
ghost use Rattle.std.specs.List.{AllByRecursion};
ghost use Rattle.qz_circ.specs.declared.circuit.Inst.{Inst};
ghost use Rattle.qz_circ.specs.Gathering.{is_on, marked};
ghost use Rattle.qz_circ.specs.Paths.{has_bit};
ghost use Rattle.qz_circ.specs.ProgramCircuits.{IsProgramGate};
ghost use Rattle.qz_rewrite.specs.Sides.{qubits_in, is_touched, before_by, after_by};

use qz_circ::Inst;
use std::alloc::{AllocError, Global};

// The qubit is set in these bits.
fn has_qubit(bits: u64, t: u8) -> bool
    requires { t < 64 }
    ensures { result ≡ has_bit t bits }
{
    (bits >> t) % 2 == 1
}

// The bits with this qubit set.
fn with_qubit(bits: u64, t: u8) -> u64
    requires { t < 64 }
    ensures { (w : ℕ) → has_bit w result ≡ (has_bit w bits || t == w) }
{
    bits | 1 << t
}

// One of the gate's qubits is set.
fn is_touched(bits: u64, g: Inst) -> bool
    requires { IsProgramGate 64 g }
    ensures { result ≡ is_touched (qubits_in bits) g }
{
    match g {
        Inst::H(t) => has_qubit(bits, t),
        Inst::X(t) => has_qubit(bits, t),
        Inst::Cx(c, t) => has_qubit(bits, c) || has_qubit(bits, t),
        Inst::Rz(t, _) => has_qubit(bits, t),
    }
}

// The bits with all the gate's qubits set.
fn touched_by(bits: u64, g: Inst) -> u64
    requires { IsProgramGate 64 g }
    ensures { (w : ℕ) → has_bit w result ≡ (has_bit w bits || is_on w g) }
{
    match g {
        Inst::H(t) => with_qubit(bits, t),
        Inst::X(t) => with_qubit(bits, t),
        Inst::Cx(c, t) => with_qubit(with_qubit(bits, c), t),
        Inst::Rz(t, _) => with_qubit(bits, t),
    }
}

// The gates on both sides, and the bits of the qubits that the selected gates and those after them have.
#[derive(Drop)]
pub struct Sides {
    pub before: Vec<Inst>,
    pub after: Vec<Inst>,
    pub touched: u64,
}

impl Sides {
    // With these gates before, no qubit touched, and room for as many gates before and after as the numbers say.
    pub fn start(
        alloc: Global,
        front: &[Inst],
        room_before: usize,
        room_after: usize,
    ) -> Result<Sides, AllocError>
        ensures before { IfOk result (λ sides. sides.before.items ≡ front.now) }
        ensures after { IfOk result (λ sides. sides.after.items ≡ []) }
        ensures touched { IfOk result (λ sides. sides.touched ≡ 0) }
    {
        let mut before = Vec::with_capacity(alloc, room_before)?;
        before.extend_from_slice(front)?;
        let after = Vec::with_capacity(alloc, room_after)?;
        Ok(Sides {
            before,
            after,
            touched: 0,
        })
    }

    // The gates before, these, those after, and the rest.
    pub fn join(self, new: &[Inst], rest: &[Inst]) -> Result<Vec<Inst>, AllocError>
        ensures { IfOk result (λ out. out.items ≡ self.before.items ++ new.now ++ self.after.items ++ rest.now) }
    {
        let mut out = self.before;
        out.extend_from_slice(new)?;
        out.extend_from_slice(&self.after)?;
        out.extend_from_slice(rest)?;
        Ok(out)
    }

    // Takes the next gate in.
    fn add(&mut self, g: Inst, selected: bool) -> Result<(), AllocError>
        requires { IsProgramGate 64 g }
        ensures before { OnOk result ((rest : List (Bool × Inst)) → self.new.before.items ++ before_by (qubits_in self.new.touched) rest ≡ self.old.before.items ++ before_by (qubits_in self.old.touched) ((selected, g) ∷ rest)) }
        ensures after { OnOk result ((rest : List (Bool × Inst)) → self.new.after.items ++ after_by (qubits_in self.new.touched) rest ≡ self.old.after.items ++ after_by (qubits_in self.old.touched) ((selected, g) ∷ rest)) }
    {
        if selected {
            self.touched = touched_by(self.touched, g);
            return Ok(());
        }
        if is_touched(self.touched, g) {
            self.touched = touched_by(self.touched, g);
            self.after.push(g)?;
            return Ok(());
        }
        self.before.push(g)?;
        Ok(())
    }

    // Takes in the gates from this position up to the last of the rising positions. The answer is where it ended.
    pub fn sort(&mut self, c: &[Inst], positions: &[u64], first: usize) -> Result<usize, AllocError>
        requires gates { AllByRecursion (IsProgramGate 64) c.now }
        requires within { first ≤ length c.now }
        ensures within { IfOk result (λ end. end ≤ length c.now) }
        ensures end { IfOk result (λ end. end ≡ first + length (marked first positions.now (drop first c.now))) }
        ensures before { OnOk result (self.new.before.items ≡ self.old.before.items ++ before_by (qubits_in self.old.touched) (marked first positions.now (drop first c.now))) }
        ensures after { OnOk result (self.new.after.items ≡ self.old.after.items ++ after_by (qubits_in self.old.touched) (marked first positions.now (drop first c.now))) }
    {
        let mut next = 0;
        for i in first..c.len() {
            if next == positions.len() {
                return Ok(i);
            }
            let selected = positions[next] == i as u64;
            self.add(c[i], selected)?;
            next += usize::from(selected);
        }
        Ok(c.len())
    }
}
