//! The texts of all qubits of a program, each made once.
ghost use Rattle.std.specs.Prelude.{◌≡◌, ◌<◌, [], ◌∷◌, ◌++◌, map, length, IfOk, OnOk};
ghost use Rattle.qz_circ.specs.Circuit.{below};
ghost use Rattle.qz_circ.specs.ProgramText.{indexed_text, qubit_texts, text_at};

use crate::operand::push_indexed;
use qz_circ::Register;
use std::alloc::{AllocError, Global};
use std::marker::Model;

/// The text of each qubit, in the order of the numbers.
#[derive(Drop)]
pub(crate) struct QubitTexts {
    alloc: Global,
    texts: Vec<Vec<u8>>,
}

impl Model for QubitTexts {
    ghost use Rattle.std.specs.Prelude.{ℕ, List};
    ghost use Rattle.qz_circ.specs.Vectors.{lists_of};

    ghost Value = { List (List ℕ) };

    ghost view = { λ q. lists_of q.texts.items };
}

impl QubitTexts {
    /// The text of this qubit.
    pub(crate) fn at(&self, t: u8) -> &[u8]
        requires { t < length self.now }
        ensures { result.now ≡ text_at self.now t }
    {
        self.texts[t as usize].as_slice()
    }

    // Appends the text of one qubit.
    fn add(&mut self, name: &[u8], place: u16) -> Result<(), AllocError>
        ensures { OnOk result (self.new ≡ self.old ++ indexed_text name.now place ∷ []) }
    {
        let mut text = Vec::new(self.alloc);
        push_indexed(&mut text, name, place)?;
        self.texts.push(text)?;
        Ok(())
    }

    // Appends the texts of the qubits of a register.
    fn add_register(&mut self, r: &Register) -> Result<(), AllocError>
        ensures { OnOk result (self.new ≡ self.old ++ map (indexed_text r.now.name) (below r.now.size)) }
    {
        for place in 0..r.size() {
            self.add(r.name(), place)?;
        }
        Ok(())
    }
}

/// The texts of the qubits of these registers.
#[tactic(auto, unfolding(qz_circ::specs::ProgramText::qubit_texts))]
pub(crate) fn qubit_texts(alloc: Global, registers: &[Register]) -> Result<QubitTexts, AllocError>
    ensures { IfOk result (λ texts. texts ≡ qubit_texts registers.now) }
{
    let mut texts = QubitTexts {
        alloc,
        texts: Vec::new(alloc),
    };
    for r in registers {
        texts.add_register(r)?;
    }
    Ok(texts)
}
