//! Laws of rule files, over all values: each function has an empty body, and its contract is the law.
ghost use Rattle.std.specs.Prelude.{◌≡◌, ℕ, List, Result, Ok};
ghost use Rattle.qz_circ.specs.declared.fault.RuleFault.{RuleFault};
ghost use Rattle.qz_circ.specs.Circuit.{Circuit, Limits};
ghost use Rattle.qz_circ.specs.Bounds.{IsLawful};
ghost use Rattle.qz_circ.specs.RuleFiles.{RuleClasses, AreClasses, AreSound, Reads};
ghost use Rattle.qz_circ.specs.Joined.{circuits_of_ranks};
ghost use Rattle.qz_circ.specs.RuleText.{file_text, rule_text};

/// The text of classes of equivalent circuits within lawful limits is read as these.
pub fn written_rules_are_read()
    ensures circuits { (b : Limits) (classes : List (List Circuit)) → IsLawful b → AreClasses b classes → AreSound b.q classes → Reads (file_text b classes) (Ok (record { bounds = b; classes = classes })) }
    ensures ranks { (b : Limits) (classes : List (List ℕ)) → IsLawful b → AreClasses b (circuits_of_ranks b classes) → AreSound b.q (circuits_of_ranks b classes) → Reads (rule_text b classes) (Ok (record { bounds = b; classes = circuits_of_ranks b classes })) }
{}

/// A file says one thing: rules, or a fault. So the text of rules has no other reading.
pub fn readings_are_unique()
    ensures { (file : List ℕ) (a b : Result RuleClasses RuleFault) → Reads file a → Reads file b → a ≡ b }
{}
