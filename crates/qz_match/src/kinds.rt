//! Which kinds of gates a program has. A left side with a gate of another kind has no places in it.
ghost use Rattle.std.specs.Prelude.{◌≡◌, ◌<◌, ◌/◌, ◌==◌, ℕ, true, false, if◌then◌else◌, slice_index_or};
ghost use Rattle.std.specs.List.{AllByRecursion, list_any};
ghost use Rattle.qz_circ.specs.ProgramCircuits.{IsProgramGate};
ghost use Rattle.qz_match.specs.Kinds.{is_shown, is_lacked, AreShown, ShowsMore};
ghost use Rattle.qz_circ.specs.ProgramLimits.{most_qubits};

use qz_circ::{Expr, Inst, Op, constant_turn};

/// The kinds of a program's gates; of its rotations also about which angles they have.
#[derive(Clone, Copy, Debug, PartialEq, Eq)]
pub struct Kinds {
    /// It has an H.
    pub h: bool,
    /// It has an X.
    pub x: bool,
    /// It has a CX.
    pub cx: bool,
    /// It has a rotation.
    pub rz: bool,
    /// It has a rotation whose angle is in this eighth of a full circle, the first one being from 0 on.
    pub eighths: [bool; 8],
}

// The eighths with that of an angle.
fn with_angle(eighths: [bool; 8], k: u16) -> [bool; 8]
    requires { k < 512 }
    ensures { (i : ℕ) → slice_index_or result i false ≡ (if i == k / 64 then true else slice_index_or eighths i false) }
{
    let mut more = eighths;
    more[(k / 64) as usize] = true;
    more
}

// The kinds with a rotation.
fn with_rotation(kinds: Kinds, t: u8, k: u16) -> Kinds
    requires { k < 512 }
    ensures { ShowsMore kinds result (Inst.Rz t k) }
{
    Kinds {
        h: kinds.h,
        x: kinds.x,
        cx: kinds.cx,
        rz: true,
        eighths: with_angle(kinds.eighths, k),
    }
}

// The kinds with that of a gate.
fn with_gate(kinds: Kinds, g: Inst) -> Kinds
    requires { IsProgramGate most_qubits g }
    ensures { ShowsMore kinds result g }
{
    match g {
        Inst::H(_) => Kinds { h: true, ..kinds },
        Inst::X(_) => Kinds { x: true, ..kinds },
        Inst::Cx(_, _) => Kinds { cx: true, ..kinds },
        Inst::Rz(t, k) => with_rotation(kinds, t, k),
    }
}

impl Kinds {
    // No kind.
    pub(crate) fn none() -> Kinds {
        Kinds {
            h: false,
            x: false,
            cx: false,
            rz: false,
            eighths: [false; 8],
        }
    }

    // The kinds of a program's gates.
    pub(crate) fn of(c: &[Inst]) -> Kinds
        requires { AllByRecursion (IsProgramGate most_qubits) c.now }
        ensures { AreShown c.now result }
    {
        let mut kinds = Kinds::none();
        for g in c {
            kinds = with_gate(kinds, *g);
        }
        kinds
    }

    // No gate of these kinds can be that of a rule.
    fn lack(&self, f: Op) -> bool
        ensures { result ≡ is_lacked self.now f }
    {
        match f {
            Op::H(_) => !self.h,
            Op::X(_) => !self.x,
            Op::Cx(_, _) => !self.cx,
            Op::Rz(_, Expr::Const(t)) => !self.eighths[(constant_turn(t) / 64) as usize],
            Op::Rz(_, Expr::Plus(_) | Expr::Minus(_) | Expr::Sum(_, _)) => !self.rz,
        }
    }

    // So it is for some gate of a left side.
    pub(crate) fn lack_some(&self, left: &[Op]) -> bool
        ensures { result ≡ list_any (is_lacked self.now) left.now }
    {
        left.iter().any(|f| self.lack(*f))
    }
}
