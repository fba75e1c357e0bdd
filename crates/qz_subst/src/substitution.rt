//! What becomes of a circuit of a rule when qubits and values stand for its qubits and parameters.
ghost use Rattle.std.specs.Prelude.{◌≡◌, ◌≤◌, ◌==◌, [], ◌∷◌, ◌++◌, if◌then◌else◌, length, IfOk, OnOk};
ghost use Rattle.qz_circ.specs.declared.circuit.Inst.TheVariants.{Rz};
ghost use Rattle.qz_circ.specs.Exponent.{angle_value};
ghost use Rattle.qz_circ.specs.ProgramCircuits.{cost};
ghost use Rattle.qz_circ.specs.Instances.{qubit_of, param_of, instance_gate, bound_instance, IsBoundBelow, QubitsBound, IsBoundCircuit};

use qz_circ::{Binding, Expr, Inst, Memory, Op, constant_turn};
use std::alloc::{AllocError, Global};

// How many numbers of 256ths of pi a full circle has.
const CIRCLE: u16 = 512;

// The qubit that stands for a rule's.
fn qubit(bind: &Binding, t: u8) -> u8
    requires { IsBoundBelow 256 bind.now t }
    ensures { result ≡ qubit_of bind.now t }
{
    match bind.qubits[t as usize] {
        Some(w) => w,
        None => 0,
    }
}

// The value of a parameter; where it has none, 0.
fn value(bind: &Binding, i: u8) -> u16
    ensures { result ≡ param_of bind.now i }
{
    match bind.params.get(i as usize) {
        Some(Some(v)) => *v,
        _ => 0,
    }
}

// The value of an angle.
fn angle_value(bind: &Binding, e: Expr) -> u16
    ensures { result ≡ angle_value (param_of bind.now) e }
{
    match e {
        Expr::Const(t) => constant_turn(t),
        Expr::Plus(i) => value(bind, i) % CIRCLE,
        Expr::Minus(i) => (CIRCLE - value(bind, i) % CIRCLE) % CIRCLE,
        Expr::Sum(i, j) => (value(bind, i) % CIRCLE + value(bind, j) % CIRCLE) % CIRCLE,
    }
}

// Appends a rotation; one by 0 is none.
fn push_rotation(out: &mut Vec<Inst>, t: u8, k: u16) -> Result<(), AllocError>
    ensures { OnOk result (out.new.items ≡ out.old.items ++ (if k == 0 then [] else Rz t k ∷ [])) }
{
    if k == 0 {
        return Ok(());
    }
    out.push(Inst::Rz(t, k))?;
    Ok(())
}

// Appends what a gate becomes.
fn push_gate(out: &mut Vec<Inst>, bind: &Binding, g: Op) -> Result<(), AllocError>
    requires { QubitsBound 256 bind.now g }
    ensures { OnOk result (out.new.items ≡ out.old.items ++ instance_gate (qubit_of bind.now) (param_of bind.now) g) }
{
    match g {
        Op::H(t) => out.push(Inst::H(qubit(bind, t)))?,
        Op::X(t) => out.push(Inst::X(qubit(bind, t)))?,
        Op::Cx(c, t) => out.push(Inst::Cx(qubit(bind, c), qubit(bind, t)))?,
        Op::Rz(t, e) => push_rotation(out, qubit(bind, t), angle_value(bind, e))?,
    }
    Ok(())
}

// The instance, with room for all its gates from the start.
#[tactic(auto, unfolding(qz_circ::specs::Instances::instance_of))]
fn instance_of(alloc: Global, c: &[Op], bind: &Binding) -> Result<Vec<Inst>, AllocError>
    requires { IsBoundCircuit 256 bind.now c.now }
    ensures { IfOk result (λ out. out.items ≡ bound_instance bind.now c.now) }
{
    let mut out = Vec::with_capacity(alloc, c.len())?;
    for g in c {
        push_gate(&mut out, bind, *g)?;
    }
    Ok(out)
}

/// The instance of a circuit under a binding: each gate in order on the qubits that stand for its own, with the value of its
/// angle; a rotation by 0 is left out. All qubits and parameters of the circuit must be bound.
pub fn instance(alloc: Global, c: &[Op], bind: &Binding) -> Result<Vec<Inst>, Memory>
    requires { IsBoundCircuit 256 bind.now c.now }
    ensures { IfOk result (λ out. out.items ≡ bound_instance bind.now c.now) }
{
    instance_of(alloc, c, bind).map_err(|_| Memory)
}

// How many gates a gate becomes.
fn gate_len(bind: &Binding, g: Op) -> usize
    ensures { result ≡ length (instance_gate (qubit_of bind.now) (param_of bind.now) g) }
{
    match g {
        Op::H(_) | Op::X(_) | Op::Cx(_, _) => 1,
        Op::Rz(_, e) => if angle_value(bind, e) == 0 { 0 } else { 1 },
    }
}

/// How many gates the instance of a circuit under a binding has, which is known without making it.
#[tactic(auto, unfolding(qz_circ::specs::Instances::instance_of))]
pub fn instance_len(c: &[Op], bind: &Binding) -> usize
    ensures { result ≡ length (bound_instance bind.now c.now) }
{
    let mut n = 0;
    for f in c {
        n += gate_len(bind, *f);
    }
    n
}

// What the gates cost that a gate becomes.
#[tactic(auto, unfolding(qz_circ::specs::ProgramCircuits::cost))]
fn gate_cost(bind: &Binding, g: Op, weights: [u8; 4]) -> u8
    ensures { result ≡ cost weights (instance_gate (qubit_of bind.now) (param_of bind.now) g) }
{
    match g {
        Op::H(_) => weights[0],
        Op::X(_) => weights[1],
        Op::Cx(_, _) => weights[2],
        Op::Rz(_, e) => if angle_value(bind, e) == 0 {
            0
        } else {
            weights[3]
        },
    }
}

/// What the instance of a circuit under a binding costs by these weights, of H, X, CX and rotations, which is known without making
/// it.
#[tactic(auto, unfolding(qz_circ::specs::Instances::instance_of))]
pub fn instance_cost(c: &[Op], bind: &Binding, weights: [u8; 4]) -> u64
    requires { length c.now ≤ 1000 }
    ensures { result ≡ cost weights (bound_instance bind.now c.now) }
{
    let mut n = 0;
    for f in c {
        n += u64::from(gate_cost(bind, *f, weights));
    }
    n
}
