//! Laws of tokens, over all texts: each function has an empty body, and its contract is the law.
ghost use Rattle.std.specs.Prelude.{◌≢◌, ℕ, ◌<◌, Err, List, length};
ghost use Rattle.qz_circ.specs.declared.fault.LexFault.TheVariants.{Memory};
ghost use Rattle.qz_circ.specs.Tokens.{front, tokens_of};
ghost use Rattle.qz_circ.specs.TokenTexts.{IsRight, IsCut};

/// What is taken at the front of a text is the longest token or gap that fits, and the token is within its limit. A name or
/// a number past its limit is one that nothing longer fits, either; and where nothing fits, that is the fault.
#[tactic(auto, using(crate::proofs::FrontLemmas::front_right))]
pub fn the_longest_that_fits_is_taken()
    ensures { (place : ℕ) (z : List ℕ) → 0 < length z → IsRight place z (front place z) }
{}

/// Tokens stand in order, each with its text, and nothing but gaps stands between them, from the first byte to the end; or
/// up to the leftmost fault, which stands before the end.
#[tactic(auto, using(crate::proofs::CutLemmas::tokens_in_order))]
pub fn tokens_stand_in_order()
    ensures { (z : List ℕ) → IsCut z (tokens_of z) }
{}

/// No text has want of memory as its fault.
#[tactic(auto, using(crate::proofs::CutLemmas::no_text_lacks_memory))]
pub fn no_text_lacks_memory()
    ensures { (z : List ℕ) → tokens_of z ≢ Err Memory }
{}
