//! Laws of candidates, class lists and reports, each the contract of a function with an empty body.
ghost use Rattle.std.specs.Prelude.{◌≡◌, ◌<◌, ℕ, List, [], ◌∷◌};
ghost use Rattle.std.specs.List.{AllZip};
ghost use Rattle.qz_circ.specs.Bounds.{IsLawful};
ghost use Rattle.qz_circ.specs.Circuit.{Limits};
ghost use Rattle.qz_circ.specs.Classes.{IsClassList};
ghost use Rattle.qz_circ.specs.declared.report.Report.{Report};
ghost use Rattle.qz_repgen.specs.Candidate.{AreOfOneLength};
ghost use Rattle.qz_repgen.specs.Journals.{HoldKept, AreTogether};
ghost use Rattle.qz_repgen.specs.Reports.{IsReport};
ghost use Rattle.qz_shard.specs.Journals.{AreClassesOf};

/// No rank, and the rank of the empty circuit where a longer one is within the limits, are of circuits of one length.
pub fn first_ranks_are_of_one_length()
    ensures none { (b : Limits) → AreOfOneLength b [] }
    ensures empty { (b : Limits) → 0 < b.n → AreOfOneLength b (0 ∷ []) }
{}

/// In whatever order the kept circuits came into 16 journals, each once and into the journal of its fingerprint's remainder by 16:
/// the classes of several members of all journals, in the order of their first members, are the class list.
pub fn the_order_of_arrival_shows_nowhere()
    ensures { (b : Limits) (seed : ℕ) (journals : List (List ℕ)) (all : List (List (List ℕ))) (classes : List (List ℕ)) → IsLawful b → HoldKept b seed journals → AllZip (AreClassesOf b) journals all → AreTogether all classes → IsClassList b classes }
{}

/// Bounds and a seed have at most one report.
pub fn reports_are_unique()
    ensures { (b : Limits) (seed : ℕ) (r s : Report) → IsReport b seed r → IsReport b seed s → r ≡ s }
{}
