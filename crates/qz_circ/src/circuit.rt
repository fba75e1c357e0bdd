//! Gates of rewrite rules and of programs. A circuit is a list of gates, applied from left to right.

/// The angle of a rotation in a rule.
#[derive(Clone, Copy, PartialEq, Eq, PartialOrd, Ord)]
pub enum Expr {
    /// This number of sixteenths of π, which is π/16 at 1. Within bounds it is 4, 8, 12, 16, 20, 24 or 28, a multiple of π/4.
    Const(u8),
    /// The parameter with this number, from 0 on.
    Plus(u8),
    /// The negative of the parameter with this number.
    Minus(u8),
    /// The sum of two parameters, the smaller number first.
    Sum(u8, u8),
}

/// A gate of a rule, of Nam's gate set, on qubits that are numbered from 0.
#[derive(Clone, Copy, PartialEq, Eq, PartialOrd, Ord)]
pub enum Op {
    /// The Hadamard gate.
    H(u8),
    /// The NOT gate.
    X(u8),
    /// NOT of the second qubit where the first is 1.
    Cx(u8, u8),
    /// Multiplies by e^(iθ) where the qubit is 1, with θ the angle.
    Rz(u8, Expr),
}

/// A gate of a program, of Nam's gate set, on qubits that are numbered from 0.
#[derive(Clone, Copy, PartialEq, Eq, PartialOrd, Ord)]
pub enum Inst {
    /// The Hadamard gate.
    H(u8),
    /// The NOT gate.
    X(u8),
    /// NOT of the second qubit where the first is 1.
    Cx(u8, u8),
    /// Multiplies by e^(iθ) where the qubit is 1, with θ = k·π/256 for this number k, from 1 to 511.
    Rz(u8, u16),
}
