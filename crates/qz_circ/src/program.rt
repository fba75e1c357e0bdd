//! Programs: their registers, their gates, and the barriers and measurements after these.
ghost use Rattle.std.specs.Prelude.{◌≡◌, ◌≤◌, [], ◌∷◌, ◌++◌, length, IfOk, OnOk, OnErr};
ghost use Rattle.qz_circ.specs.ProgramLimits.{most_registers};
ghost use Rattle.qz_circ.specs.Registers.{total_size};

use crate::circuit::Inst;
use crate::fault::Memory;
use std::alloc::Global;
use std::marker::Model;

/// A register of qubits or of classical bits.
#[derive(Drop)]
pub struct Register {
    name: Vec<u8>,
    size: u16,
}

impl Model for Register {
    ghost use Rattle.qz_circ.specs.Registers.{RegisterParts};

    ghost Value = { RegisterParts };

    ghost view = { λ r. record { name = r.name.items; size = r.size } };
}

impl Register {
    /// The bytes of its name.
    pub fn name(&self) -> &[u8]
        ensures { result.now ≡ self.now.name }
    {
        &self.name
    }

    /// How many qubits or bits it has.
    pub fn size(&self) -> u16
        ensures { result ≡ self.now.size }
    {
        self.size
    }
}

/// How many qubits or bits registers have together, of which there are at most 64.
pub fn total_size(registers: &[Register]) -> u32
    requires { length registers.now ≤ most_registers }
    ensures { result ≡ total_size registers.now }
{
    registers.iter().map(|r| u32::from(r.size())).sum()
}

/// An operand of a barrier or a measurement: a whole register, or one place of it.
#[derive(Clone, Copy, PartialEq, Eq)]
pub struct Arg {
    /// The number of the register among those of its kind, from 0 on.
    pub register: u8,
    /// The place, from 0 on; none for the whole register.
    pub index: Option<u16>,
}

/// The operands of a barrier.
#[derive(Drop)]
pub struct Args {
    items: Vec<Arg>,
}

impl Model for Args {
    ghost use Rattle.std.specs.Prelude.{List};
    ghost use Rattle.qz_circ.specs.declared.program.Arg.{Arg};

    ghost Value = { List Arg };

    ghost view = { λ a. a.items.items };
}

impl Args {
    /// The operands from left to right.
    pub fn items(&self) -> &[Arg]
        ensures { result.now ≡ self.now }
    {
        &self.items
    }
}

/// A statement after the gates of a program.
#[derive(Drop)]
pub enum Tail {
    /// A barrier with these operands, of qubits.
    Barrier(Args),
    /// A measurement of the first operand, of qubits, into the second, of bits.
    Measure(Arg, Arg),
}

/// A program: registers of qubits and of bits, gates, and the barriers and measurements after them.
#[derive(Drop)]
pub struct Program {
    alloc: Global,
    qregs: Vec<Register>,
    cregs: Vec<Register>,
    gates: Vec<Inst>,
    tail: Vec<Tail>,
}

impl Model for Program {
    ghost use Rattle.qz_circ.specs.Programs.{ProgramParts};

    ghost Value = { ProgramParts };

    ghost view = { λ p. record { qregs = p.qregs.items; cregs = p.cregs.items; gates = p.gates.items; tail = p.tail.items } };
}

// A register of this name and size.
fn new_register(alloc: Global, name: &[u8], size: u16) -> Result<Register, Memory>
    ensures { IfOk result (λ r. r ≡ record { name = name.now; size = size }) }
{
    match Vec::from_slice(alloc, name) {
        Ok(name) => Ok(Register { name, size }),
        Err(_) => Err(Memory),
    }
}

impl Program {
    /// No registers, gates or statements yet. It takes no memory.
    pub fn empty(alloc: Global) -> Program
        ensures { result ≡ record { qregs = []; cregs = []; gates = []; tail = [] } }
    {
        Program {
            alloc,
            qregs: Vec::new(alloc),
            cregs: Vec::new(alloc),
            gates: Vec::new(alloc),
            tail: Vec::new(alloc),
        }
    }

    /// Appends a register of qubits, whose name and size aren't checked. After an error nothing has changed.
    pub fn add_qreg(&mut self, name: &[u8], size: u16) -> Result<(), Memory>
        ensures ok { OnOk result (self.new ≡ record self.old { qregs = self.old.qregs ++ (record { name = name.now; size = size }) ∷ [] }) }
        ensures err { OnErr result (self.new ≡ self.old) }
    {
        let register = new_register(self.alloc, name, size)?;
        self.qregs.push(register).map_err(|_| Memory)
    }

    /// Appends a register of classical bits, whose name and size aren't checked. After an error nothing has changed.
    pub fn add_creg(&mut self, name: &[u8], size: u16) -> Result<(), Memory>
        ensures ok { OnOk result (self.new ≡ record self.old { cregs = self.old.cregs ++ (record { name = name.now; size = size }) ∷ [] }) }
        ensures err { OnErr result (self.new ≡ self.old) }
    {
        let register = new_register(self.alloc, name, size)?;
        self.cregs.push(register).map_err(|_| Memory)
    }

    /// Appends a gate. After an error nothing has changed.
    pub fn add_gate(&mut self, g: Inst) -> Result<(), Memory>
        ensures ok { OnOk result (self.new ≡ record self.old { gates = self.old.gates ++ g ∷ [] }) }
        ensures err { OnErr result (self.new ≡ self.old) }
    {
        self.gates.push(g).map_err(|_| Memory)
    }

    /// Appends a barrier with these operands. After an error nothing has changed.
    pub fn add_barrier(&mut self, args: &[Arg]) -> Result<(), Memory>
        ensures ok { OnOk result (self.new ≡ record self.old { tail = self.old.tail ++ Tail.Barrier args.now ∷ [] }) }
        ensures err { OnErr result (self.new ≡ self.old) }
    {
        let Ok(items) = Vec::from_slice(self.alloc, args) else {
            return Err(Memory);
        };
        self.tail
            .push(Tail::Barrier(Args { items }))
            .map_err(|_| Memory)
    }

    /// Appends a measurement of qubits into bits. After an error nothing has changed.
    pub fn add_measure(&mut self, from: Arg, to: Arg) -> Result<(), Memory>
        ensures ok { OnOk result (self.new ≡ record self.old { tail = self.old.tail ++ Tail.Measure from to ∷ [] }) }
        ensures err { OnErr result (self.new ≡ self.old) }
    {
        self.tail.push(Tail::Measure(from, to)).map_err(|_| Memory)
    }

    /// The same program with these gates in place of its own.
    pub fn with_gates(self, gates: Vec<Inst>) -> Program
        ensures { result ≡ record self { gates = gates.items } }
    {
        let mut changed = self;
        changed.gates = gates;
        changed
    }

    /// The registers of qubits in order.
    pub fn qregs(&self) -> &[Register]
        ensures { result.now ≡ self.now.qregs }
    {
        &self.qregs
    }

    /// The registers of classical bits in order.
    pub fn cregs(&self) -> &[Register]
        ensures { result.now ≡ self.now.cregs }
    {
        &self.cregs
    }

    /// The gates from left to right.
    pub fn gates(&self) -> &[Inst]
        ensures { result.now ≡ self.now.gates }
    {
        &self.gates
    }

    /// The barriers and measurements in order.
    pub fn tail(&self) -> &[Tail]
        ensures { result.now ≡ self.now.tail }
    {
        &self.tail
    }
}
