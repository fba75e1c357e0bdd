//! What calls answer where they give no value.

/// Memory ran out.
#[derive(Clone, Copy, Debug, PartialEq, Eq)]
pub struct Memory;

/// Which of the numbers of some bounds is refused.
#[derive(Clone, Copy, Debug, PartialEq, Eq)]
pub enum LimitFault {
    /// The number of qubits isn't 1, 2 or 3.
    Qubits,
    /// The number of gates is over 6.
    Gates,
    /// The number of parameters is over 3.
    Params,
    /// The grain isn't 4, 8 or 16; in a rule file of version 2 it isn't 8 or 16.
    Grain,
    /// There are over 8,000,000 circuits of the greatest length.
    Circuits,
}

/// Which limit a command passes.
#[derive(Clone, Copy, Debug, PartialEq, Eq)]
pub enum Which {
    /// Bounds have 1, 2 or 3 qubits.
    BoundsQubits,
    /// Bounds have at most 6 gates.
    BoundsGates,
    /// Bounds have at most 3 parameters.
    BoundsParams,
    /// Bounds have the grain 4, 8 or 16, and in a rule file of version 2 the grain 8 or 16.
    BoundsGrain,
    /// Bounds have at most 8,000,000 circuits of the greatest length.
    BoundsCircuits,
    /// There are 1 to 16 workers.
    Workers,
    /// A search takes 1 to 64 circuits a round.
    PlanBatch,
    /// A search keeps 1 to 500 circuits.
    PlanCap,
    /// A search takes at most 4,096 circuits in all its rounds.
    PlanRounds,
    /// A search goes at most 4 over the cost of the best circuit.
    PlanSlack,
    /// A gate weighs 1 to 100.
    CostWeight,
    /// A program has at most 4,194,304 bytes.
    InputBytes,
    /// A rule file has at most 134,217,728 bytes.
    RuleBytes,
    /// A program has at most 64 registers.
    ProgramRegisters,
    /// A program has at most 64 qubits.
    ProgramQubits,
    /// A program has at most 4,096 classical bits.
    ProgramBits,
    /// A program has at most 20,000 gates.
    ProgramGates,
    /// A trial has 1 to 64 qubits.
    TrialQubits,
    /// A trial has at most 20,000 gates.
    TrialGates,
    /// The file of a program that is compared with the input has at most 4,194,304 bytes.
    FileBytes,
    /// Programs that are compared have at most 6 qubits.
    CheckQubits,
    /// Two programs that are compared have at most 120 H together.
    CheckHalves,
    /// Two programs that are compared have at most 4,000 gates together.
    CheckGates,
}

/// Why a text can't be cut into tokens: the leftmost fault. A place is that of a byte, counted from 0.
#[derive(Clone, Copy, Debug, PartialEq, Eq)]
pub enum LexFault {
    /// No token begins here: the byte begins none, as an `=` that isn't `==`, or it is a quote without its end on the line.
    BadByte { place: u64 },
    /// The word that begins here has over 64 bytes.
    LongName { place: u64 },
    /// The whole number that begins here has over 18 digits.
    BigNumber { place: u64 },
    /// Memory ran out.
    Memory,
}

/// Why tokens are no angle. A place is that of a byte of the text that the tokens were cut from.
#[derive(Clone, Copy, Debug, PartialEq, Eq)]
pub enum AngleFault {
    /// The token here doesn't fit, or the tokens end here too early.
    Form { place: u64 },
    /// The parenthesis or the sign here is the thirty-third that is open or pending.
    Deep { place: u64 },
    /// The values of the operator here don't go together: a sum of a plain number and a multiple of pi, a product of two
    /// multiples of pi, or a plain number divided by one. Or the angle that begins here is a plain number other than 0.
    Kind { place: u64 },
    /// The operator here divides by 0.
    ZeroDivisor { place: u64 },
    /// What the operator here gives has in lowest terms a numerator, without its sign, or a denominator over 10^18.
    Range { place: u64 },
    /// The angle that begins here is no whole multiple of pi/256.
    NotMultiple { place: u64 },
}

/// Why a text is no program: the first fault. A place is that of a byte, counted from 0.
#[derive(Clone, Copy, Debug, PartialEq, Eq)]
pub enum QasmFault {
    /// The text can't be cut into tokens. Want of memory is none of these.
    Lex(LexFault),
    /// The token here doesn't fit, or the text ends here too early.
    Syntax { place: u64 },
    /// The word, version or text here is none of those that are read, or the gate here comes after a barrier or a measurement.
    Unsupported { place: u64 },
    /// No gate has the name here.
    UnknownGate { place: u64 },
    /// No register of the right kind has the name here.
    UnknownName { place: u64 },
    /// An earlier register has the name here.
    Twice { place: u64 },
    /// The number here is at least the size of its register.
    Index { place: u64 },
    /// The operand here has at some repetition the qubit of an operand before it.
    SameQubit { place: u64 },
    /// The operand here is a register whose size doesn't go with that of an operand before it.
    Sizes { place: u64 },
    /// The tokens of a gate's parameter are no angle.
    Angle(AngleFault),
    /// The declaration or the gate here passes a limit.
    Limit { which: Which, place: u64 },
    /// Memory ran out.
    Memory,
}

/// Why a text is no rule file: the first fault. A place is that of a byte, counted from 0.
#[derive(Clone, Copy, Debug, PartialEq, Eq)]
pub enum RuleFault {
    /// The longest front of the text with which some rule file begins ends here. Before the first two lines are whole these
    /// may have any numbers of one to nine digits; after them the file has their bounds.
    Syntax { place: u64 },
    /// The bounds in the second line are refused.
    Limit(LimitFault),
    /// This member, the first such one, isn't equivalent to the first member of its class. Both are counted from 1.
    Unsound { class: u64, member: u64 },
    /// Memory ran out.
    Memory,
}
