//! Rules as a search uses them: a table of what differs in its children.
ghost use Rattle.std.specs.Prelude.{◌≡◌, ◌≤◌, ℕ, IfOk, OnOk};
ghost use Rattle.std.specs.List.{AllByRecursion};
ghost use Rattle.qz_circ.specs.Replacement.{children};
ghost use Rattle.qz_rewrite.specs.SoundClasses.{AreSoundClasses};
ghost use Rattle.qz_search.specs.Tables.{AreAlike, IsSide, children_by_table};

use crate::circuits::Circuits;
use crate::class::{members_of, thinned};
use crate::rows::Rows;
use crate::table::{Side, table_of};
use qz_circ::Memory;
use qz_rulefile::Rules;
use std::alloc::Global;
use std::marker::Model;

// Left sides with the numbers of their right sides, and the circuits that these numbers stand for.
#[derive(Drop)]
pub(crate) struct Prepared {
    circuits: Circuits,
    sides: Vec<Side>,
}

impl Model for Prepared {
    ghost use Rattle.std.specs.List.{AllByRecursion};
    ghost use Rattle.qz_search.specs.Tables.{TableParts, IsSide};

    ghost Value = { TableParts };

    ghost view = { λ p. record { circuits = p.circuits; sides = p.sides.items } };

    ghost invariant = { λ p. AllByRecursion (IsSide p.circuits) p.sides.items };
}

impl Prepared {
    // All rules of these.
    pub(crate) fn of(alloc: Global, rules: &Rules) -> Result<Prepared, Memory>
        ensures alike { IfOk result (λ p. AreAlike (children_by_table p) (children rules.now.classes)) }
        ensures sound { OnOk result ((n : ℕ) × (n ≤ 3) × AreSoundClasses n rules.now.classes) }
    {
        let bounds = rules.bounds();
        let mut rows = Rows::new(alloc);
        for c in 0..rules.len() {
            let members = thinned(alloc, members_of(alloc, rules, c)?)?;
            rows.add_class(alloc, &members)?;
        }
        Ok(Prepared {
            circuits: rows.circuits,
            sides: table_of(alloc, rows.sides)?,
        })
    }

    // The circuits by their numbers.
    pub(crate) fn circuits(&self) -> &Circuits
        ensures { result.now ≡ self.now.circuits }
    {
        &self.circuits
    }

    // The left sides with their right sides.
    pub(crate) fn sides(&self) -> &[Side]
        ensures each { AllByRecursion (IsSide self.now.circuits) result.now }
        ensures same { result.now ≡ self.now.sides }
    {
        &self.sides
    }
}
