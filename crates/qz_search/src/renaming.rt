//! Renamings of qubits, so that rules that differ in the names of their qubits alone become one.
ghost use Rattle.std.specs.Prelude.{◌≡◌, ◌<◌, IfOk};
ghost use Rattle.qz_rewrite.specs.Renaming.{exchanged, renamed_gate};
ghost use Rattle.qz_search.specs.Renamings.{exchanged_where, gate_by, circuit_by};

use qz_circ::{Memory, Op};
use std::alloc::Global;

// Whether the first two qubits are exchanged, then the last two, and then the first two again. Each order of three comes of
// this.
#[derive(Clone, Copy)]
pub(crate) struct Renaming {
    first: bool,
    last: bool,
    again: bool,
}

// Qubit s becomes the next one, and that becomes s.
fn exchanged(s: u8, t: u8) -> u8
    requires { s < 2 }
    ensures { result ≡ exchanged s t }
{
    if t == s {
        s + 1
    } else if t == s + 1 {
        s
    } else {
        t
    }
}

// The gate with the two exchanged.
fn renamed_gate(s: u8, g: Op) -> Op
    requires { s < 2 }
    ensures { result ≡ renamed_gate s g }
{
    match g {
        Op::H(t) => Op::H(exchanged(s, t)),
        Op::X(t) => Op::X(exchanged(s, t)),
        Op::Cx(c, t) => Op::Cx(exchanged(s, c), exchanged(s, t)),
        Op::Rz(t, e) => Op::Rz(exchanged(s, t), e),
    }
}

// The gate with the two exchanged, where that is said.
fn exchanged_where(said: bool, s: u8, g: Op) -> Op
    requires { s < 2 }
    ensures { result ≡ exchanged_where said s g }
{
    if said { renamed_gate(s, g) } else { g }
}

// The qubits of a gate, a control before its target.
fn operands(g: Op) -> (u8, u8) {
    match g {
        Op::H(t) | Op::X(t) | Op::Rz(t, _) => (t, t),
        Op::Cx(c, t) => (c, t),
    }
}

impl Renaming {
    // That which gives the qubits the names 0, 1 and 2 in the order in which a circuit has them.
    pub(crate) fn of(c: &[Op]) -> Renaming {
        let mut names = Renaming {
            first: false,
            last: false,
            again: false,
        };
        names.first = names.is_before(c, 0);
        names.last = names.is_before(c, 1);
        names.again = names.is_before(c, 0);
        names
    }

    // The gate with its qubits renamed.
    fn gate(self, g: Op) -> Op
        ensures { result ≡ gate_by self g }
    {
        let first = exchanged_where(self.first, 0, g);
        let last = exchanged_where(self.last, 1, first);
        exchanged_where(self.again, 0, last)
    }

    // Renamed, the circuit has the qubit after s on a gate before any that s is on.
    fn is_before(self, c: &[Op], s: u8) -> bool
        requires { s < 2 }
    {
        for g in c {
            let (first, second) = operands(self.gate(*g));
            if first == s {
                return false;
            }
            if first == s + 1 {
                return true;
            }
            if second == s {
                return false;
            }
            if second == s + 1 {
                return true;
            }
        }
        false
    }

    // The circuit with its qubits renamed.
    pub(crate) fn circuit(self, alloc: Global, c: &[Op]) -> Result<Vec<Op>, Memory>
        ensures { IfOk result (λ out. out.items ≡ circuit_by self c.now) }
    {
        let Ok(room) = Vec::with_capacity(alloc, c.len()) else {
            return Err(Memory);
        };
        let mut out = room;
        for g in c {
            if out.push(self.gate(*g)).is_err() {
                return Err(Memory);
            }
        }
        Ok(out)
    }
}
