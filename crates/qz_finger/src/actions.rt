//! What gates make of weighed values of rows, modulo p.
ghost use Rattle.std.specs.Prelude.{◌≡◌, ℕ, ◌+◌, ◌%◌, ◌<◌, ◌≤◌, true, if◌then◌else◌, slice_index};
ghost use Rattle.qz_circ.specs.Circuit.{ActsBelow, HasBelow};
ghost use Rattle.qz_circ.specs.Exponent.{angle_exponent};
ghost use Rattle.qz_circ.specs.Paths.{flipped_state as flip_of};
ghost use Rattle.qz_finger.specs.declared.actions.Action.TheVariants.{Mix};
ghost use Rattle.qz_finger.specs.Modulo.{modulus};
ghost use Rattle.qz_finger.specs.Actions.{acted as acted_on, AreBelow, IsAfter, step_for, value_after as after_step};
ghost use Rattle.qz_finger.specs.Fingerprint.{Bases, value};
ghost use Rattle.qz_finger.specs.Tables.{tables_of};

use crate::fill::filled;
use crate::modulo::{add, multiply_where, subtract};
use crate::tables::{Tables, value_of_angle};
use qz_circ::{Op, flipped_state, has_bit};

// What a gate does with the values of two places that differ in its target.
#[derive(Clone, Copy)]
enum Action {
    /// Adds both, or subtracts where the target is 1: H.
    Mix,
    /// Takes the other one: X.
    Flip,
    /// Takes the other one where the control is 1: CX.
    FlipWhere,
    /// Multiplies by this number where the target is 1: a rotation.
    Turn(u64),
}

/// A gate on the lower qubits of places. Without a control the target stands for it.
#[derive(Clone, Copy)]
pub(crate) struct Step {
    action: Action,
    control: u8,
    target: u8,
}

// The sum, or the difference where the target is 1.
fn mixed(target: bool, here: u64, across: u64) -> u64
    requires here { here < modulus }
    requires across { across < modulus }
    ensures { result ≡ acted_on Mix true target here across % modulus }
{
    if target {
        subtract(here, across)
    } else {
        add(here, across)
    }
}

// The first number where the control is 1, and else the second.
fn chosen(control: bool, across: u64, here: u64) -> u64
    ensures { result ≡ (if control then across else here) }
{
    if control { across } else { here }
}

// What a step makes of the value in a place.
pub(crate) fn value_after(step: Step, values: &[u64; 64], k: usize) -> u64
    requires control { step.control < 3 }
    requires target { step.target < 3 }
    requires place { k < 64 }
    requires across { flip_of step.target k < 64 }
    requires below { AreBelow values.now }
    ensures value { result ≡ after_step step (slice_index values.now) k }
    ensures below { result < modulus }
{
    let target = step.target;
    let across = values[flipped_state(target, k)];
    match step.action {
        Action::Mix => mixed(has_bit(target, k), values[k], across),
        Action::Flip => across,
        Action::FlipWhere => chosen(has_bit(step.control, k), across, values[k]),
        Action::Turn(u) => multiply_where(has_bit(target, k), values[k], u),
    }
}

// The values after a step, in the places below a size.
pub(crate) fn after(step: Step, size: usize, values: &[u64; 64]) -> [u64; 64]
    requires control { step.control < 3 }
    requires target { step.target < 3 }
    requires size { size ≤ 64 }
    requires closed { (k : ℕ) → k < size → flip_of step.target k < size }
    requires below { AreBelow values.now }
    ensures after { IsAfter step size values.now result }
    ensures below { AreBelow result }
{
    filled(size, |k| value_after(step, values, k))
}

// The step of a gate.
pub(crate) fn step_of(tables: &Tables, op: Op) -> Step
    requires parameters { HasBelow 3 op }
    ensures step { (b : Bases) → tables.now ≡ tables_of tables.now.weights b → result ≡ step_for (λ e. value b (angle_exponent e) % modulus) op }
    ensures control { (q : ℕ) → ActsBelow q op → result.control < q }
    ensures target { (q : ℕ) → ActsBelow q op → result.target < q }
{
    match op {
        Op::H(t) => Step {
            action: Action::Mix,
            control: t,
            target: t,
        },
        Op::X(t) => Step {
            action: Action::Flip,
            control: t,
            target: t,
        },
        Op::Cx(c, t) => Step {
            action: Action::FlipWhere,
            control: c,
            target: t,
        },
        Op::Rz(t, angle) => Step {
            action: Action::Turn(value_of_angle(tables, angle)),
            control: t,
            target: t,
        },
    }
}
