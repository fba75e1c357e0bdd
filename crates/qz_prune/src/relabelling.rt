//! New names of qubits and parameters.

/// The new names of qubits and of parameters, each a permutation of 0, 1 and 2.
#[derive(Clone, Copy)]
pub(crate) struct Relabelling {
    pub(crate) qubits: [u8; 3],
    pub(crate) params: [u8; 3],
}
