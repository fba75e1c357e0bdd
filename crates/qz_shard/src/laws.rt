//! Laws of the classes of journals, each the contract of a function with an empty body.
ghost use Rattle.std.specs.Prelude.{◌≡◌, ◌⊎◌, ◌<◌, ◌≤◌, ℕ, List, [], ◌∷◌, ◌++◌, length, slice_index_or, Contains};
ghost use Rattle.qz_circ.specs.Circuit.{Limits};
ghost use Rattle.qz_shard.specs.Journals.{AreEquivalentRanks, AreClassesOf, JoinsOne};

/// A journal has at most one list of classes.
pub fn classes_of_a_journal_are_unique()
    ensures { (b : Limits) (journal : List ℕ) (k l : List (List ℕ)) → AreClassesOf b journal k → AreClassesOf b journal l → k ≡ l }
{}

/// The classes of a journal are a partition of its entries by equivalence: each entry is in a class, each member is an entry, members
/// of one class are equivalent, and equivalent members are in one class.
pub fn classes_are_a_partition()
    ensures covered { (b : Limits) (journal : List ℕ) (classes : List (List ℕ)) → AreClassesOf b journal classes → (r : ℕ) → Contains journal r → (k : ℕ) × (k < length classes) × Contains (slice_index_or classes k []) r }
    ensures entries { (b : Limits) (journal : List ℕ) (classes : List (List ℕ)) → AreClassesOf b journal classes → (k r : ℕ) → k < length classes → Contains (slice_index_or classes k []) r → Contains journal r }
    ensures equivalent { (b : Limits) (journal : List ℕ) (classes : List (List ℕ)) → AreClassesOf b journal classes → (k r s : ℕ) → k < length classes → Contains (slice_index_or classes k []) r → Contains (slice_index_or classes k []) s → AreEquivalentRanks b r s }
    ensures apart { (b : Limits) (journal : List ℕ) (classes : List (List ℕ)) → AreClassesOf b journal classes → (k l r s : ℕ) → k < length classes → l < length classes → Contains (slice_index_or classes k []) r → Contains (slice_index_or classes l []) s → AreEquivalentRanks b r s → k ≡ l }
{}

/// A journal has no more classes than entries.
pub fn classes_are_no_more_than_entries()
    ensures { (b : Limits) (journal : List ℕ) (classes : List (List ℕ)) → AreClassesOf b journal classes → length classes ≤ length journal }
{}

/// The number of a class never changes: whatever comes after a journal, the members of a class stay in the class with its number.
pub fn the_number_of_a_class_never_changes()
    ensures { (b : Limits) (journal more : List ℕ) (classes later : List (List ℕ)) → AreClassesOf b journal classes → AreClassesOf b (journal ++ more) later → (k r : ℕ) → k < length classes → Contains (slice_index_or classes k []) r → Contains (slice_index_or later k []) r }
{}

/// With one more entry at the end of a journal one of its classes has it as one more member, or there is a class of it alone after the
/// others.
pub fn classes_grow_entry_by_entry()
    ensures { (b : Limits) (journal : List ℕ) (r : ℕ) (classes later : List (List ℕ)) → AreClassesOf b journal classes → AreClassesOf b (journal ++ r ∷ []) later → JoinsOne r classes later ⊎ (later ≡ classes ++ (r ∷ []) ∷ []) }
{}
