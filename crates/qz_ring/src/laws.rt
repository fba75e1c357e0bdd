//! Laws of the definitions, each the contract of a function with an empty body.

ghost use Rattle.std.specs.Prelude.{◌≡◌, ◌+◌, ◌≤◌, neg_ℤ};
ghost use Rattle.qz_ring.specs.Exponent.{Exponent as Monomial, IsExponent, with_turns, reach_of};
ghost use Rattle.qz_ring.specs.Terms.{Terms, count, largest_reach, reach_times, IsCanonical};
ghost use Rattle.qz_ring.specs.Counts.{SameCounts, IsSum, IsTimesRoot2};

/// Two lists in the one form with the same counts are the same list.
pub fn counts_determine_terms()
    ensures { (a b : Terms) → IsCanonical a → IsCanonical b → SameCounts a b → a ≡ b }
{}

/// Half a circle further, every count has the other sign.
pub fn half_turn_changes_sign()
    ensures { (a : Terms) (e : Monomial) → IsExponent e → count a (with_turns e 256) ≡ neg_ℤ (count a e) }
{}

/// The powers of products are at most as large as the largest power and the monomial's together.
pub fn products_reach_at_most_sum()
    ensures { (a : Terms) (by : Monomial) → reach_times a by ≤ largest_reach a + reach_of by }
{}

/// Two multiplications by the square root of 2 double every count.
pub fn root2_twice_doubles()
    ensures { (a b c : Terms) → IsTimesRoot2 a b → IsTimesRoot2 b c → IsSum a a c }
{}
