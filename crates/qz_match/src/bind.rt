//! Binding: what the qubits and the parameters of a rule stand for, gate by gate.
ghost use Rattle.std.specs.Prelude.{◌≡◌, ℕ, ◌+◌, ◌-◌, ◌%◌, ◌<◌, ◌≤◌, Bool, true, false, [], ◌∷◌, length, map, Option, Some, None, take, slice_set, slice_index};
ghost use Rattle.qz_circ.specs.Circuit.{ActsBelow, HasBelow, AngleHasBelow, IsOn};
ghost use Rattle.qz_circ.specs.Instances.{slot};
ghost use Rattle.qz_circ.specs.Places.{stands_in, bind_where, bind_qubit, bind_qubits, value_of_angle, filled, filled_sum, solved, is_value, bind_angle, binding_with, bind_gate, bind_gates, nothing_bound};
ghost use Rattle.qz_match.specs.Neighbours.{gate_at};

use qz_circ::{Binding, Expr, Inst, Op, constant_turn};

// The qubit stands for some other one already.
fn stands(slots: [Option<u8>; 3], w: u8) -> bool
    ensures { result ≡ stands_in w slots }
{
    slots[0] == Some(w) || slots[1] == Some(w) || slots[2] == Some(w)
}

// The slots with one set.
fn with_qubit(slots: [Option<u8>; 3], s: u8, w: u8) -> [Option<u8>; 3]
    requires { s < 3 }
    ensures { result ≡ slice_set slots s (Some w) }
{
    let mut changed = slots;
    changed[s as usize] = Some(w);
    changed
}

// A qubit of the rule comes to stand for one of the program, or does already.
fn qubit_bound(slots: [Option<u8>; 3], s: u8, w: u8) -> Option<[Option<u8>; 3]>
    requires { s < 3 }
    ensures { result ≡ bind_qubit slots s w }
{
    match slots[s as usize] {
        Some(v) => if v == w { Some(slots) } else { None },
        None => if stands(slots, w) {
            None
        } else {
            Some(with_qubit(slots, s, w))
        },
    }
}

// The same for a control and its target.
fn qubits_bound(slots: [Option<u8>; 3], c: u8, t: u8, v: u8, w: u8) -> Option<[Option<u8>; 3]>
    requires control { c < 3 }
    requires target { t < 3 }
    ensures { result ≡ bind_qubits slots (c ∷ t ∷ []) (v ∷ w ∷ []) }
{
    let next = qubit_bound(slots, c, v)?;
    qubit_bound(next, t, w)
}

// The sum of two angles.
fn sum(v: u16, w: u16) -> u16
    ensures { result ≡ (v + w) % 512 }
{
    ((u32::from(v) + u32::from(w)) % 512) as u16
}

// What is left of a full circle.
fn opposite(v: u16) -> u16
    ensures { result ≡ (512 - v) % 512 }
{
    512u16.saturating_sub(v) % 512
}

// An angle less another one.
fn difference(k: u16, w: u16) -> u16
    ensures { result ≡ (k + (512 - w)) % 512 }
{
    ((u32::from(k) + u32::from(512u16.saturating_sub(w))) % 512) as u16
}

// The value of an angle.
fn value_of(slots: [Option<u16>; 3], e: Expr) -> Option<u16>
    requires { AngleHasBelow 3 e }
    ensures { result ≡ value_of_angle slots e }
{
    match e {
        Expr::Const(t) => Some(constant_turn(t)),
        Expr::Plus(i) => slots[i as usize],
        Expr::Minus(i) => Some(opposite(slots[i as usize]?)),
        Expr::Sum(i, j) => Some(sum(slots[i as usize]?, slots[j as usize]?)),
    }
}

// The slots with a value for a parameter.
fn with_value(slots: [Option<u16>; 3], i: u8, v: u16) -> [Option<u16>; 3]
    requires { i < 3 }
    ensures { result ≡ slice_set slots i (Some v) }
{
    let mut changed = slots;
    changed[i as usize] = Some(v);
    changed
}

// A value for a parameter that has none.
fn fill(slots: [Option<u16>; 3], i: u8, v: u16) -> [Option<u16>; 3]
    requires { i < 3 }
    ensures { result ≡ filled slots i v (slot slots i) }
{
    match slots[i as usize] {
        Some(_) => slots,
        None => with_value(slots, i, v),
    }
}

// A value for the one of two parameters that alone has none.
fn fill_sum(slots: [Option<u16>; 3], i: u8, j: u8, k: u16) -> [Option<u16>; 3]
    requires first { i < 3 }
    requires second { j < 3 }
    ensures { result ≡ filled_sum slots i j k (slot slots i) (slot slots j) }
{
    match (slots[i as usize], slots[j as usize]) {
        (None, Some(w)) => with_value(slots, i, difference(k, w)),
        (Some(v), None) => with_value(slots, j, difference(k, v)),
        _ => slots,
    }
}

// A value for the parameter of an angle that alone has none.
fn solve(slots: [Option<u16>; 3], e: Expr, k: u16) -> [Option<u16>; 3]
    requires { AngleHasBelow 3 e }
    ensures { result ≡ solved slots e k }
{
    match e {
        Expr::Const(_) => slots,
        Expr::Plus(i) => fill(slots, i, k),
        Expr::Minus(i) => fill(slots, i, opposite(k)),
        Expr::Sum(i, j) => fill_sum(slots, i, j, k),
    }
}

// The angle comes to have the value k, or has it already.
fn angle_bound(slots: [Option<u16>; 3], e: Expr, k: u16) -> Option<[Option<u16>; 3]>
    requires { AngleHasBelow 3 e }
    ensures { result ≡ bind_angle slots e k }
{
    let next = solve(slots, e, k);
    match value_of(next, e) {
        Some(v) => if v == k { Some(next) } else { None },
        None => None,
    }
}

// A qubit beside these parameters.
fn one_bound(bind: Binding, params: [Option<u16>; 3], s: u8, w: u8) -> Option<Binding>
    requires { s < 3 }
    ensures { result ≡ binding_with params (bind_qubit bind.qubits s w) }
{
    let qubits = qubit_bound(bind.qubits, s, w)?;
    Some(Binding { qubits, params })
}

// A rotation.
fn rotation_bound(bind: Binding, t: u8, e: Expr, w: u8, k: u16) -> Option<Binding>
    requires qubit { t < 3 }
    requires angle { AngleHasBelow 3 e }
    ensures { result ≡ bind_gate bind (Op.Rz t e) (Inst.Rz w k) }
{
    let params = angle_bound(bind.params, e, k)?;
    one_bound(bind, params, t, w)
}

// A control and its target.
fn pair_bound(bind: Binding, c: u8, t: u8, v: u8, w: u8) -> Option<Binding>
    requires control { c < 3 }
    requires target { t < 3 }
    ensures { result ≡ bind_gate bind (Op.Cx c t) (Inst.Cx v w) }
{
    let params = bind.params;
    let qubits = qubits_bound(bind.qubits, c, t, v, w)?;
    Some(Binding { qubits, params })
}

// A gate of the rule comes to stand for one of the program, or does already.
fn gate_bound(bind: Binding, f: Op, g: Inst) -> Option<Binding>
    requires acts { ActsBelow 3 f }
    requires has { HasBelow 3 f }
    ensures { result ≡ bind_gate bind f g }
{
    match (f, g) {
        (Op::H(t), Inst::H(w)) => one_bound(bind, bind.params, t, w),
        (Op::X(t), Inst::X(w)) => one_bound(bind, bind.params, t, w),
        (Op::Cx(c, t), Inst::Cx(v, w)) => pair_bound(bind, c, t, v, w),
        (Op::Rz(t, e), Inst::Rz(w, k)) => rotation_bound(bind, t, e, w, k),
        _ => None,
    }
}

// What the gates of a left side bind at these positions.
pub(crate) fn bound_at(left: &[Op], c: &[Inst], found: &[usize; 6]) -> Option<Binding>
    requires short { length left.now ≤ 6 }
    requires on { IsOn 3 3 left.now }
    requires within { (i : ℕ) → i < length left.now → slice_index found.now i < length c.now }
    ensures { result ≡ bind_gates nothing_bound left.now (map (gate_at c.now) (take (length left.now) found.now)) }
{
    let mut bind = Binding {
        qubits: [None; 3],
        params: [None; 3],
    };
    for (i, f) in left.iter().enumerate() {
        bind = gate_bound(bind, *f, c[found[i]])?;
    }
    Some(bind)
}
