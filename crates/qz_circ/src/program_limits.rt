//! The limits of programs, and of the words and numbers in their texts. They are this project's own.

/// The most registers of a program, those of qubits and of bits together.
pub const MOST_REGISTERS: usize = 64;

/// The most qubits of a program, those of all registers together.
pub const MOST_QUBITS: usize = 64;

/// The most classical bits of a program, those of all registers together.
pub const MOST_BITS: usize = 4096;

/// The most gates of a program.
pub const MOST_GATES: usize = 20_000;

/// The most bytes of a word.
pub const LONGEST_WORD: usize = 64;

/// The most digits of a whole number.
pub const MOST_DIGITS: usize = 18;
