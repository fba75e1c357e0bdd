//! Why calls on the outside give up.

/// Why a call on the outside gave up.
#[derive(Clone, Copy, Debug, PartialEq, Eq)]
pub enum IoFault {
    /// The system reported an error, or an object in memory was told to fail.
    Failed,
    /// Memory ran out.
    Memory,
}
