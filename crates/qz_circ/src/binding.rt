//! What the qubits and the parameters of a rule stand for in a program.

/// For each qubit of a rule the qubit of a program that stands for it, and for each parameter its value, a number of 256ths of
/// pi below 512; or none as yet. The qubits of a program that stand for some are different.
#[derive(Clone, Copy, PartialEq, Eq)]
pub struct Binding {
    /// By the numbers of the rule's qubits.
    pub qubits: [Option<u8>; 3],
    /// By the numbers of the rule's parameters.
    pub params: [Option<u16>; 3],
}
