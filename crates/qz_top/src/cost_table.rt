//! Tables of what gates weigh, as words of a command.
ghost use Rattle.std.specs.Prelude.{◌≡◌, ◌==◌, ◌<◌, [], ◌∷◌, length, IfSome};
ghost use Rattle.std.specs.List.{slice_split, before_first, after_first};
ghost use Rattle.std.specs.Option.{option_map_or};
ghost use Rattle.qz_top.specs.CostTables.{kind_named, no_weights, with_weight, with_item, table_of, weights_of};

use crate::words::new_number;

// A kind of gates.
#[derive(Clone, Copy)]
pub(crate) enum GateKind {
    H,
    X,
    Cx,
    Rz,
}

// The weights that are given, by kinds of gates.
#[derive(Clone, Copy)]
pub(crate) struct CostTable {
    pub(crate) h: Option<u64>,
    pub(crate) x: Option<u64>,
    pub(crate) cx: Option<u64>,
    pub(crate) rz: Option<u64>,
}

// What stands before the first such character, and what stands after it, if there is one.
fn cut(text: &str, at: char) -> (&str, Option<&str>)
    requires { at < 128 }
    ensures before { result.0.now ≡ before_first (λ b. b == at) text.now }
    ensures after { option_map_or (λ rest. rest.now) result.1 [] ≡ after_first (λ b. b == at) text.now }
    ensures shorter { IfSome result.1 (λ rest. length rest.now < length text.now) }
    ensures split { slice_split (λ b. b == at) text.now ≡ result.0.now ∷ option_map_or (λ rest. slice_split (λ b. b == at) rest.now) result.1 [] }
{
    match text.split_once(at) {
        Some((before, after)) => (before, Some(after)),
        None => (text, None),
    }
}

// The kind of gates that a word names.
#[tactic(auto, unfolding(crate::specs::CostTables::kind_named))]
fn kind_named(word: &str) -> Option<GateKind>
    ensures { result ≡ kind_named word.now }
{
    match word {
        "h" => Some(GateKind::H),
        "x" => Some(GateKind::X),
        "cx" => Some(GateKind::Cx),
        "rz" => Some(GateKind::Rz),
        _ => None,
    }
}

impl CostTable {
    // No kind has a weight.
    fn none() -> CostTable
        ensures { result ≡ no_weights }
    {
        CostTable {
            h: None,
            x: None,
            cx: None,
            rz: None,
        }
    }

    // The weight of a kind that has none yet is the number that this word is.
    fn with_weight(self, kind: GateKind, word: &str) -> Option<CostTable>
        ensures { result ≡ with_weight self kind word.now }
    {
        match kind {
            GateKind::H => Some(CostTable {
                h: Some(new_number(self.h, word)?),
                ..self
            }),
            GateKind::X => Some(CostTable {
                x: Some(new_number(self.x, word)?),
                ..self
            }),
            GateKind::Cx => Some(CostTable {
                cx: Some(new_number(self.cx, word)?),
                ..self
            }),
            GateKind::Rz => Some(CostTable {
                rz: Some(new_number(self.rz, word)?),
                ..self
            }),
        }
    }

    // An item more.
    fn with_item(self, item: &str) -> Option<CostTable>
        ensures { result ≡ with_item self item.now }
    {
        let (name, weight) = cut(item, '=');
        let kind = kind_named(name)?;
        self.with_weight(kind, weight.unwrap_or(""))
    }
}

// The table that a word is, if it is one.
pub(crate) fn cost_table(word: &str) -> Option<CostTable>
    ensures { result ≡ table_of word.now }
{
    let mut table = CostTable::none();
    let mut rest = Some(word);
    while let Some(text) = rest {
        let (item, after) = cut(text, ',');
        table = table.with_item(item)?;
        rest = after;
    }
    Some(table)
}

// The weights of H, X, CX and rotations by a table, or where there is none.
pub(crate) fn weights_of(table: Option<CostTable>) -> [u64; 4]
    ensures { result ≡ weights_of table }
{
    match table {
        None => [1, 1, 1, 1],
        Some(table) => [
            table.h.unwrap_or(1),
            table.x.unwrap_or(1),
            table.cx.unwrap_or(1),
            table.rz.unwrap_or(1),
        ],
    }
}
