//! The sorts and the bytes of tokens, and the statements that tokens are cut into.
ghost use Rattle.std.specs.Prelude.{◌≡◌, ◌<◌, ◌≤◌, ℕ, List, ◌∷◌, length, take, drop};
ghost use Rattle.std.specs.List.{list_any};
ghost use Rattle.std.specs.Str.{bytes_eq};
ghost use Rattle.qz_circ.specs.Lexemes.{lexeme, lexemes, statements_of};
ghost use Rattle.qz_circ.specs.Forms as forms;
ghost use Rattle.qz_circ.specs.ValidPrograms.{reserved_words};
ghost use Rattle.qz_qread.specs.Expected as expects;

use qz_circ::{Kind, Token};

/// Sorts of tokens. Each has one kind, but numbers are whole or real.
#[derive(Clone, Copy)]
pub(crate) enum Sort {
    Word,
    Whole,
    Number,
    Text,
    Comma,
    LeftParen,
    RightParen,
    LeftBracket,
    RightBracket,
    Arrow,
    Semicolon,
}

/// The kind is of the sort.
pub(crate) fn is_of(sort: Sort, kind: Kind) -> bool
    ensures { result ≡ expects.is_of sort kind }
{
    match (sort, kind) {
        (Sort::Word, Kind::Word) => true,
        (Sort::Whole, Kind::Whole(_)) => true,
        (Sort::Number, Kind::Whole(_) | Kind::Real) => true,
        (Sort::Text, Kind::Text) => true,
        (Sort::Comma, Kind::Comma) => true,
        (Sort::LeftParen, Kind::LeftParen) => true,
        (Sort::RightParen, Kind::RightParen) => true,
        (Sort::LeftBracket, Kind::LeftBracket) => true,
        (Sort::RightBracket, Kind::RightBracket) => true,
        (Sort::Arrow, Kind::Arrow) => true,
        (Sort::Semicolon, Kind::Semicolon) => true,
        _ => false,
    }
}

/// The bytes of a token of a text; of another token, those of them that the text has.
#[tactic(auto, using(std::proofs::lemmas::List::take_min, std::proofs::lemmas::List::drop_min))]
pub(crate) fn text_of(bytes: &[u8], t: Token) -> &[u8]
    ensures { result.now ≡ (lexeme bytes.now t).text }
{
    let start = (t.start as usize).min(bytes.len());
    let (_, behind) = bytes.split_at(start);
    let len = (t.end.saturating_sub(t.start) as usize).min(behind.len());
    let (text, _) = behind.split_at(len);
    text
}

/// The first letter is a lower-case one.
pub(crate) fn begins_lower(word: &[u8]) -> bool
    ensures { result ≡ forms.begins_lower word.now }
{
    match word {
        [] => false,
        [first, ..] => first.is_ascii_lowercase(),
    }
}

/// The word is spelled like a name, but names no register.
#[tactic(auto, unfolding(qz_circ::specs::ValidPrograms::reserved_words))]
pub(crate) fn is_reserved(word: &[u8]) -> bool
    ensures { result ≡ list_any (bytes_eq word.now) reserved_words }
{
    word == b"pi".as_slice()
        || word == b"include".as_slice()
        || word == b"qreg".as_slice()
        || word == b"creg".as_slice()
        || word == b"gate".as_slice()
        || word == b"opaque".as_slice()
        || word == b"if".as_slice()
        || word == b"reset".as_slice()
        || word == b"barrier".as_slice()
        || word == b"measure".as_slice()
}

/// How many tokens the first statement has: those up to the first semicolon, or all of them.
pub(crate) fn statement_len(ts: &[Token]) -> usize
    ensures within { result ≤ length ts.now }
    ensures some { 0 < length ts.now → 0 < result }
    // The others are cut as if they stood alone.
    ensures first { (bytes : List ℕ) → 0 < length ts.now → statements_of (lexemes bytes ts.now) ≡ lexemes bytes (take result ts.now) ∷ statements_of (lexemes bytes (drop result ts.now)) }
{
    for (n, t) in ts.iter().enumerate() {
        if is_of(Sort::Semicolon, t.kind) {
            return n + 1;
        }
    }
    ts.len()
}
