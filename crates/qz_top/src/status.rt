//! How a command ends.
ghost use Rattle.std.specs.Prelude.{◌≡◌};

use qz_circ::{QasmFault, Which};

/// How a command ends.
#[derive(Clone, Copy, Debug, PartialEq, Eq)]
pub enum Status {
    /// It is done, and the whole text is written.
    Ok,
    /// Memory ran out.
    Memory,
    /// The words are in no written form.
    Usage,
    /// A number, the file that the words name, the input or a program passes this limit.
    Limit(Which),
    /// The input is no program: its first fault, which is neither a limit nor want of memory.
    Qasm(QasmFault),
    /// The rule file is none: the longest front of it with which some rule file begins ends at this place.
    RuleSyntax { place: u64 },
    /// In the rule file this member, the first such one, isn't equivalent to the first member of its class. Both are counted
    /// from 1.
    Unsound { class: u64, member: u64 },
    /// There is no file with the name that the words give.
    NoFile,
    /// Reading the input failed.
    ReadFault,
    /// Writing failed.
    WriteFault,
    /// Opening or reading the file that the words name failed.
    ShelfFault,
    /// The programs that are to be compared have different numbers of qubits: the input's and that of the file.
    Shapes { input: u64, file: u64 },
    /// The file that is compared with the input is no program: its first fault, which is neither a limit nor want of memory.
    FileQasm(QasmFault),
}

impl Status {
    ghost use Rattle.qz_top.specs.Status.{status_number};

    /// The number that the program ends with.
    pub fn number(self) -> u8
        ensures { result ≡ status_number self }
    {
        match self {
            Status::Ok => 0,
            Status::Memory => 1,
            Status::Usage => 2,
            Status::Limit(_) => 3,
            Status::Qasm(_) => 4,
            Status::RuleSyntax { .. } => 5,
            Status::Unsound { .. } => 6,
            Status::NoFile => 7,
            Status::ReadFault => 8,
            Status::WriteFault => 9,
            Status::ShelfFault => 10,
            Status::Shapes { .. } => 16,
            Status::FileQasm(_) => 17,
        }
    }
}
