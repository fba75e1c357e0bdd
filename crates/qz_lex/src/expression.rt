//! Reads the tokens of an angle.
ghost use Rattle.std.specs.Prelude.{◌≡◌, ◌<◌, length, ◌∷◌, IfOk, MatchOption, true, false};
ghost use Rattle.qz_circ.specs.Angle as spec;
ghost use Rattle.qz_circ.specs.Angle.{angle_of};
ghost use Rattle.qz_lex.specs.Values.{view, meaning_of};
ghost use Rattle.qz_circ.specs.FirstFault.{Gives};
ghost use Rattle.qz_lex.specs.Levels.{joins_at, operand_at, joined_at, continues_at, turns_at_end};

use crate::fraction::Fraction;
use crate::value::{difference, negated, pi, product, quotient, sum, turns, whole};
use qz_circ::{AngleFault, Kind, Token};

// A value, or the first fault in computing it.
type Meaning = Result<Fraction, AngleFault>;

// Which operators join operands.
#[derive(Clone, Copy)]
enum Level {
    Sum,
    Product,
}

// The most open parentheses and pending signs.
const MOST_NESTED: u32 = 32;

fn joins(level: Level, kind: Kind) -> bool
    ensures { result ≡ joins_at level kind }
{
    match (level, kind) {
        (Level::Sum, Kind::Plus | Kind::Minus) => true,
        (Level::Product, Kind::Star | Kind::Slash) => true,
        _ => false,
    }
}

fn is_opening(kind: Kind) -> bool
    ensures { result ≡ spec.is_opening kind }
{
    match kind {
        Kind::Minus | Kind::LeftParen => true,
        _ => false,
    }
}

fn is_closing(kind: Kind) -> bool
    ensures { result ≡ spec.is_closing kind }
{
    match kind {
        Kind::RightParen => true,
        _ => false,
    }
}

fn operate(kind: Kind, place: u64, a: Fraction, b: Fraction) -> Meaning
    ensures { meaning_of result ≡ spec.operate kind place (view a) (view b) }
{
    match kind {
        Kind::Plus => sum(place, a, b),
        Kind::Minus => difference(place, a, b),
        Kind::Star => product(place, a, b),
        _ => quotient(place, a, b),
    }
}

#[tactic(auto, unfolding(qz_circ::specs::Angle::combined))]
fn combined(operator: Token, left: Meaning, right: Meaning) -> Meaning
    ensures { meaning_of result ≡ spec.combined operator (meaning_of left) (meaning_of right) }
{
    match (left, right) {
        (Ok(a), Ok(b)) => operate(operator.kind, u64::from(operator.start), a, b),
        (Ok(_), Err(fault)) => Err(fault),
        (Err(fault), _) => Err(fault),
    }
}

#[tactic(auto, unfolding(qz_circ::specs::Angle::negated))]
fn signed(sign: Token, operand: Meaning) -> Meaning
    ensures { meaning_of result ≡ spec.negated sign (meaning_of operand) }
{
    match operand {
        Ok(a) => negated(u64::from(sign.start), a),
        Err(fault) => Err(fault),
    }
}

// A whole number or pi, by the first token.
fn primary(end: u64, first: Token, rest: &[Token]) -> Result<(Meaning, &[Token]), AngleFault>
    ensures { Gives (λ x. (meaning_of x.0, x.1.now)) result (spec.primary end first.kind first rest.now) }
{
    match first.kind {
        Kind::Whole(n) => Ok((Ok(whole(n)), rest)),
        Kind::Pi => Ok((Ok(pi()), rest)),
        _ => Err(AngleFault::Form {
            place: u64::from(first.start),
        }),
    }
}

// A primary, where no parenthesis and no sign may come any more.
#[tactic(auto, unfolding(qz_circ::specs::Angle::unary))]
fn innermost(end: u64, first: Token, rest: &[Token]) -> Result<(Meaning, &[Token]), AngleFault>
    ensures { Gives (λ x. (meaning_of x.0, x.1.now)) result (spec.unary 0 end (first ∷ rest.now)) }
{
    if is_opening(first.kind) {
        return Err(AngleFault::Deep {
            place: u64::from(first.start),
        });
    }
    primary(end, first, rest)
}

// What stood in parentheses, where the closing one follows.
#[tactic(auto, unfolding(qz_circ::specs::Angle::closed))]
fn closed(end: u64, inner: Meaning, tokens: &[Token]) -> Result<(Meaning, &[Token]), AngleFault>
    ensures { Gives (λ x. (meaning_of x.0, x.1.now)) result (spec.closed end (meaning_of inner) tokens.now) }
{
    match tokens {
        [] => Err(AngleFault::Form { place: end }),
        [first, rest @ ..] => {
            if is_closing(first.kind) {
                Ok((inner, rest))
            } else {
                Err(AngleFault::Form {
                    place: u64::from(first.start),
                })
            }
        }
    }
}

// A unary operand with at most so many open parentheses and pending signs more.
#[cycle(angle)]
#[tactic(auto, unfolding(qz_circ::specs::Angle::unary))]
fn unary(depth: u32, end: u64, tokens: &[Token]) -> Result<(Meaning, &[Token]), AngleFault>
    ensures { Gives (λ x. (meaning_of x.0, x.1.now)) result (spec.unary depth end tokens.now) }
{
    let Some((first, rest)) = tokens.split_first() else {
        return Err(AngleFault::Form { place: end });
    };
    if depth > 0 {
        nested(depth - 1, end, *first, rest)
    } else {
        innermost(end, *first, rest)
    }
}

// What the first token begins, one level deeper.
#[cycle(angle)]
fn nested(
    depth: u32,
    end: u64,
    first: Token,
    rest: &[Token],
) -> Result<(Meaning, &[Token]), AngleFault>
    ensures { Gives (λ x. (meaning_of x.0, x.1.now)) result (spec.nested end (spec.unary depth end) first.kind first rest.now) }
{
    match first.kind {
        Kind::Minus => {
            match unary(depth, end, rest) {
                Ok((operand, rest)) => Ok((signed(first, operand), rest)),
                Err(fault) => Err(fault),
            }
        }
        Kind::LeftParen => {
            match with_operators(Level::Sum, depth, end, rest) {
                Ok((inner, rest)) => closed(end, inner, rest),
                Err(fault) => Err(fault),
            }
        }
        _ => primary(end, first, rest),
    }
}

// What operators of this level join.
#[cycle(angle)]
fn operand(
    level: Level,
    depth: u32,
    end: u64,
    tokens: &[Token],
) -> Result<(Meaning, &[Token]), AngleFault>
    ensures { Gives (λ x. (meaning_of x.0, x.1.now)) result (operand_at level (spec.unary depth end) tokens.now) }
{
    match level {
        Level::Sum => with_operators(Level::Product, depth, end, tokens),
        Level::Product => unary(depth, end, tokens),
    }
}

// One operand or more, with operators of this level between them.
#[cycle(angle)]
#[tactic(auto, unfolding(qz_circ::specs::Angle::with_operators))]
fn with_operators(
    level: Level,
    depth: u32,
    end: u64,
    tokens: &[Token],
) -> Result<(Meaning, &[Token]), AngleFault>
    ensures { Gives (λ x. (meaning_of x.0, x.1.now)) result (joined_at level (spec.unary depth end) tokens.now) }
{
    let (mut meaning, mut rest) = operand(level, depth, end, tokens)?;
    for _ in 0..rest.len() {
        let Some((operator, after)) = next_operator(level, rest) else {
            break;
        };
        match operand(level, depth, end, after) {
            Ok((right, behind)) => {
                meaning = combined(operator, meaning, right);
                rest = behind;
            }
            Err(fault) => return Err(fault),
        }
    }
    Ok((meaning, rest))
}

// The operator of this level that comes first, and the tokens after it.
fn next_operator(level: Level, tokens: &[Token]) -> Option<(Token, &[Token])>
    ensures { MatchOption result (continues_at level tokens.now ≡ false) (λ p. (tokens.now ≡ p.0 ∷ p.1.now) × (joins_at level p.0.kind ≡ true)) }
{
    let (first, rest) = tokens.split_first()?;
    if joins(level, first.kind) {
        Some((*first, rest))
    } else {
        None
    }
}

// Where the last token ends.
fn end_of(t: &[Token]) -> u64
    ensures { result ≡ spec.end_of t.now }
{
    match t.split_last() {
        Some((last, _)) => u64::from(last.end),
        None => 0,
    }
}

// Where the first token begins.
fn start_of(t: &[Token]) -> u64
    ensures { result ≡ spec.start_of t.now }
{
    match t {
        [first, ..] => u64::from(first.start),
        [] => 0,
    }
}

// The number of 256ths of pi that a meaning is, where no token is left.
#[tactic(auto, unfolding(qz_circ::specs::Angle::all_read))]
fn finished(place: u64, end: u64, meaning: Meaning, rest: &[Token]) -> Result<u16, AngleFault>
    ensures value { result ≡ turns_at_end place end (meaning_of meaning) rest.now }
    ensures below { IfOk result (λ k. k < 512) }
{
    if let [first, ..] = rest {
        return Err(AngleFault::Form {
            place: u64::from(first.start),
        });
    }
    match meaning {
        Ok(value) => turns(place, value),
        Err(fault) => Err(fault),
    }
}

/// The number of 256ths of pi, below 512, that tokens mean.
#[tactic(auto, unfolding(qz_circ::specs::Angle::angle_of, qz_circ::specs::Angle::most_nested))]
pub fn angle(t: &[Token]) -> Result<u16, AngleFault>
    requires { 0 < length t.now }
    ensures value { result ≡ angle_of t.now }
    ensures below { IfOk result (λ k. k < 512) }
{
    let end = end_of(t);
    match with_operators(Level::Sum, MOST_NESTED, end, t) {
        Ok((meaning, rest)) => finished(start_of(t), end, meaning, rest),
        Err(fault) => Err(fault),
    }
}
