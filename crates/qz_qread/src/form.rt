//! Reads the forms of statements: which tokens follow one another.
ghost use Rattle.std.specs.Prelude.{◌≡◌, ◌+◌, ◌-◌, ◌<◌, ◌≤◌, ◌&&◌, ◌==◌, not, if◌then◌else◌, ℕ, List, [], ◌∷◌, ◌++◌, length, count_by, Err, OnOk};
ghost use Rattle.qz_circ.specs.FirstFault.{Gives, GivesUnless};
ghost use Rattle.qz_circ.specs.Lexemes.{lexeme, lexemes};
ghost use Rattle.qz_circ.specs.Forms as spec;
ghost use Rattle.qz_qread.specs.Expected as expects;
ghost use Rattle.qz_qread.specs.FormParts as parts;
ghost use Rattle.qz_qread.specs.Views as views;

use crate::gate_name::{more_operands, takes_angle};
use crate::lexeme::{Sort, begins_lower, is_of, is_reserved, text_of};
use qz_circ::{GateName, Kind, QasmFault, Token};
use std::alloc::Global;

/// The name of a register, and perhaps a number in brackets.
#[derive(Clone, Copy)]
pub(crate) struct Operand {
    pub(crate) name: Token,
    pub(crate) index: Option<Token>,
}

/// The name of a register and its size.
#[derive(Clone, Copy)]
pub(crate) struct Declaration {
    pub(crate) name: Token,
    pub(crate) size: Token,
}

/// What is measured, and into what.
#[derive(Clone, Copy)]
pub(crate) struct Measurement {
    pub(crate) from: Operand,
    pub(crate) to: Operand,
}

/// The tokens of a gate's angle, none where it takes none, and its operands.
#[derive(Drop)]
pub(crate) struct GateForm<'a> {
    pub(crate) angle: &'a [Token],
    pub(crate) operands: Vec<Operand>,
}

// What may come next: a token of some sort, the word OPENQASM, a name that a register may have, or a size.
#[derive(Clone, Copy)]
enum Expected {
    Of(Sort),
    Openqasm,
    FreeName,
    Size,
}

/// What is read from the first tokens, and the tokens after them; or the first fault.
pub(crate) type Read<'a, T> = Result<(T, &'a [Token]), QasmFault>;

// ---- single tokens

#[tactic(auto, unfolding(qz_circ::specs::Forms::is_free_name))]
fn is_free_name(bytes: &[u8], t: Token) -> bool
    ensures { result ≡ spec.is_free_name (lexeme bytes.now t) }
{
    let text = text_of(bytes, t);
    is_of(Sort::Word, t.kind) && begins_lower(text) && !is_reserved(text)
}

fn is_size(kind: Kind) -> bool
    ensures { result ≡ (spec.is_whole kind && not (spec.number_of kind == 0)) }
{
    match kind {
        Kind::Whole(n) => n != 0,
        _ => false,
    }
}

fn fits(bytes: &[u8], expected: Expected, t: Token) -> bool
    ensures { result ≡ expects.accepts expected (lexeme bytes.now t) }
{
    match expected {
        Expected::Of(sort) => is_of(sort, t.kind),
        Expected::Openqasm => {
            is_of(Sort::Word, t.kind) && text_of(bytes, t) == b"OPENQASM".as_slice()
        }
        Expected::FreeName => is_free_name(bytes, t),
        Expected::Size => is_size(t.kind),
    }
}

/// The fault of a token that doesn't fit.
pub(crate) fn misfit(t: Token) -> QasmFault
    ensures { result ≡ QasmFault.Syntax t.start }
{
    QasmFault::Syntax {
        place: u64::from(t.start),
    }
}

// A token that is expected.
#[tactic(auto, unfolding(qz_circ::specs::Forms::one))]
fn one<'a>(bytes: &[u8], expected: Expected, ts: &'a [Token]) -> Read<'a, Token>
    ensures { Gives (λ x. (lexeme bytes.now x.0, lexemes bytes.now x.1.now)) result (spec.one (expects.accepts expected) (length bytes.now) (lexemes bytes.now ts.now)) }
{
    match ts {
        [] => Err(QasmFault::Syntax {
            place: bytes.len() as u64,
        }),
        [first, rest @ ..] => {
            if fits(bytes, expected, *first) {
                Ok((*first, rest))
            } else {
                Err(misfit(*first))
            }
        }
    }
}

/// A token of some sort.
pub(crate) fn token<'a>(bytes: &[u8], sort: Sort, ts: &'a [Token]) -> Read<'a, Token>
    ensures { Gives (λ x. (lexeme bytes.now x.0, lexemes bytes.now x.1.now)) result (spec.token (expects.is_of sort) (length bytes.now) (lexemes bytes.now ts.now)) }
{
    one(bytes, Expected::Of(sort), ts)
}

// A token of the sort comes first.
fn begins(sort: Sort, ts: &[Token]) -> bool
    ensures { (bytes : List ℕ) → result ≡ spec.begins (expects.is_of sort) (lexemes bytes ts.now) }
{
    match ts {
        [] => false,
        [first, ..] => is_of(sort, first.kind),
    }
}

// ---- header and declarations

/// The number of the version, between the word OPENQASM and the semicolon.
#[tactic(auto, unfolding(qz_circ::specs::Forms::header_form))]
pub(crate) fn header_form(bytes: &[u8], ts: &[Token]) -> Result<Token, QasmFault>
    ensures { Gives (lexeme bytes.now) result (spec.header_form (length bytes.now) (lexemes bytes.now ts.now)) }
{
    let (_, rest) = one(bytes, Expected::Openqasm, ts)?;
    let (version, rest) = token(bytes, Sort::Number, rest)?;
    token(bytes, Sort::Semicolon, rest)?;
    Ok(version)
}

/// A name, a size in brackets and a semicolon.
#[tactic(auto, unfolding(qz_circ::specs::Forms::declaration_form))]
pub(crate) fn declaration_form(bytes: &[u8], ts: &[Token]) -> Result<Declaration, QasmFault>
    ensures { Gives (views.declaration bytes.now) result (spec.declaration_form (length bytes.now) (lexemes bytes.now ts.now)) }
{
    let (name, rest) = one(bytes, Expected::FreeName, ts)?;
    let (_, rest) = token(bytes, Sort::LeftBracket, rest)?;
    let (size, rest) = one(bytes, Expected::Size, rest)?;
    let (_, rest) = token(bytes, Sort::RightBracket, rest)?;
    token(bytes, Sort::Semicolon, rest)?;
    Ok(Declaration { name, size })
}

// ---- operands

// A number in brackets, where a bracket comes first.
#[tactic(auto, unfolding(qz_circ::specs::Forms::index_form))]
fn index_form<'a>(bytes: &[u8], ts: &'a [Token]) -> Read<'a, Option<Token>>
    ensures { Gives (λ x. (views.index bytes.now x.0, lexemes bytes.now x.1.now)) result (spec.index_form (length bytes.now) (lexemes bytes.now ts.now)) }
{
    if !begins(Sort::LeftBracket, ts) {
        return Ok((None, ts));
    }
    let (_, rest) = token(bytes, Sort::LeftBracket, ts)?;
    let (number, rest) = token(bytes, Sort::Whole, rest)?;
    let (_, rest) = token(bytes, Sort::RightBracket, rest)?;
    Ok((Some(number), rest))
}

// A word, and perhaps a number in brackets.
#[tactic(auto, unfolding(qz_circ::specs::Forms::operand_form))]
fn operand_form<'a>(bytes: &[u8], ts: &'a [Token]) -> Read<'a, Operand>
    ensures { Gives (λ x. (views.operand bytes.now x.0, lexemes bytes.now x.1.now)) result (spec.operand_form (length bytes.now) (lexemes bytes.now ts.now)) }
{
    let (name, rest) = token(bytes, Sort::Word, ts)?;
    let (index, rest) = index_form(bytes, rest)?;
    Ok((Operand { name, index }, rest))
}

// An operand after a comma.
fn next_operand<'a>(bytes: &[u8], ts: &'a [Token]) -> Read<'a, Operand>
    ensures { Gives (λ x. (views.operand bytes.now x.0, lexemes bytes.now x.1.now)) result (parts.next_operand (length bytes.now) (lexemes bytes.now ts.now)) }
{
    let (_, rest) = token(bytes, Sort::Comma, ts)?;
    operand_form(bytes, rest)
}

fn push(operands: &mut Vec<Operand>, operand: Operand) -> Result<(), QasmFault>
    ensures ok { OnOk result (operands.new.items ≡ operands.old.items ++ operand ∷ []) }
    ensures memory { (e : QasmFault) → result ≡ Err e → e ≡ QasmFault.Memory }
{
    if operands.push(operand).is_err() {
        return Err(QasmFault::Memory);
    }
    Ok(())
}

// An operand and so many more, with commas between them, and a semicolon.
#[tactic(auto, unfolding(qz_circ::specs::Forms::operands_form))]
fn operands_form(
    alloc: Global,
    bytes: &[u8],
    more: usize,
    ts: &[Token],
) -> Result<Vec<Operand>, QasmFault>
    ensures { GivesUnless QasmFault.Memory (λ v. views.operands bytes.now v.items) result (spec.operands_form more (length bytes.now) (lexemes bytes.now ts.now)) }
{
    let (first, mut rest) = operand_form(bytes, ts)?;
    let mut operands = Vec::new(alloc);
    push(&mut operands, first)?;
    for _ in 0..more {
        match next_operand(bytes, rest) {
            Ok((operand, behind)) => {
                push(&mut operands, operand)?;
                rest = behind;
            }
            Err(fault) => return Err(fault),
        }
    }
    match token(bytes, Sort::Semicolon, rest) {
        Ok(_) => Ok(operands),
        Err(fault) => Err(fault),
    }
}

// ---- barriers and measurements

// How many commas there are.
fn commas(ts: &[Token]) -> usize
    ensures { result ≡ count_by (λ t. spec.is_comma t.kind) ts.now }
{
    ts.iter().filter(|t| is_of(Sort::Comma, t.kind)).count()
}

/// Operands with commas between them, and a semicolon.
#[tactic(auto, using(crate::proofs::MoreOperands::commas_of))]
pub(crate) fn barrier_form(
    alloc: Global,
    bytes: &[u8],
    ts: &[Token],
) -> Result<Vec<Operand>, QasmFault>
    ensures { GivesUnless QasmFault.Memory (λ v. views.operands bytes.now v.items) result (spec.barrier_form (length bytes.now) (lexemes bytes.now ts.now)) }
{
    operands_form(alloc, bytes, commas(ts), ts)
}

/// An operand, an arrow, an operand and a semicolon.
#[tactic(auto, unfolding(qz_circ::specs::Forms::measure_form))]
pub(crate) fn measure_form(bytes: &[u8], ts: &[Token]) -> Result<Measurement, QasmFault>
    ensures { Gives (views.measurement bytes.now) result (spec.measure_form (length bytes.now) (lexemes bytes.now ts.now)) }
{
    let (from, rest) = operand_form(bytes, ts)?;
    let (_, rest) = token(bytes, Sort::Arrow, rest)?;
    let (to, rest) = operand_form(bytes, rest)?;
    token(bytes, Sort::Semicolon, rest)?;
    Ok(Measurement { from, to })
}

// ---- angles

// Perhaps two parentheses with nothing between them; and the tokens after them.
#[tactic(auto, unfolding(qz_circ::specs::Forms::no_angle_form))]
fn no_angle_form<'a>(bytes: &[u8], ts: &'a [Token]) -> Read<'a, &'a [Token]>
    ensures { Gives (λ x. (lexemes bytes.now x.0.now, lexemes bytes.now x.1.now)) result (spec.no_angle_form (length bytes.now) (lexemes bytes.now ts.now)) }
{
    let (none, _) = ts.split_at(0);
    if !begins(Sort::LeftParen, ts) {
        return Ok((none, ts));
    }
    let (_, rest) = token(bytes, Sort::LeftParen, ts)?;
    let (_, rest) = token(bytes, Sort::RightParen, rest)?;
    Ok((none, rest))
}

// The token closes the parenthesis, where so many more are open.
fn closes(more_open: usize, kind: Kind) -> bool
    ensures { result ≡ (spec.is_right_paren kind && more_open == 0) }
{
    is_of(Sort::RightParen, kind) && more_open == 0
}

// How many more are open behind a token that doesn't close it.
fn open_behind(more_open: usize, kind: Kind) -> usize
    requires { more_open < usize.MAX }
    ensures value { result ≡ (if spec.is_left_paren kind then more_open + 1 else if not (spec.is_right_paren kind) then more_open else more_open - 1) }
    ensures few { result ≤ more_open + 1 }
{
    match kind {
        Kind::LeftParen => more_open + 1,
        Kind::RightParen => more_open.saturating_sub(1),
        _ => more_open,
    }
}

// The tokens before the parenthesis that closes. It is read, too.
fn enclosed<'a>(bytes: &[u8], ts: &'a [Token]) -> Read<'a, &'a [Token]>
    ensures { Gives (λ x. (lexemes bytes.now x.0.now, lexemes bytes.now x.1.now)) result (spec.enclosed 0 (length bytes.now) (lexemes bytes.now ts.now)) }
{
    let mut more_open = 0;
    for (n, t) in ts.iter().enumerate() {
        if is_of(Sort::Semicolon, t.kind) {
            return Err(misfit(*t));
        }
        if closes(more_open, t.kind) {
            let (inside, _) = ts.split_at(n);
            let (_, rest) = ts.split_at(n + 1);
            return Ok((inside, rest));
        }
        more_open = open_behind(more_open, t.kind);
    }
    Err(QasmFault::Syntax {
        place: bytes.len() as u64,
    })
}

// The tokens of an angle, at least one, in parentheses.
#[tactic(auto, unfolding(qz_circ::specs::Forms::angle_form))]
fn angle_form<'a>(bytes: &[u8], ts: &'a [Token]) -> Read<'a, &'a [Token]>
    ensures { Gives (λ x. (lexemes bytes.now x.0.now, lexemes bytes.now x.1.now)) result (spec.angle_form (length bytes.now) (lexemes bytes.now ts.now)) }
{
    let (_, rest) = token(bytes, Sort::LeftParen, ts)?;
    match rest {
        [first, ..] if is_of(Sort::RightParen, first.kind) => Err(misfit(*first)),
        _ => enclosed(bytes, rest),
    }
}

// ---- gates

// The angle of a gate, where it takes one.
fn gate_angle<'a>(bytes: &[u8], gate: GateName, ts: &'a [Token]) -> Read<'a, &'a [Token]>
    ensures { Gives (λ x. (lexemes bytes.now x.0.now, lexemes bytes.now x.1.now)) result (parts.gate_angle gate (length bytes.now) (lexemes bytes.now ts.now)) }
{
    if takes_angle(gate) {
        angle_form(bytes, ts)
    } else {
        no_angle_form(bytes, ts)
    }
}

/// The angle of a gate that takes one, the operands of the gate and a semicolon.
#[tactic(auto, unfolding(qz_circ::specs::Forms::gate_form))]
pub(crate) fn gate_form<'a>(
    alloc: Global,
    bytes: &[u8],
    gate: GateName,
    ts: &'a [Token],
) -> Result<GateForm<'a>, QasmFault>
    ensures { GivesUnless QasmFault.Memory (views.gate_form bytes.now) result (spec.gate_form gate (length bytes.now) (lexemes bytes.now ts.now)) }
{
    let (angle, rest) = gate_angle(bytes, gate, ts)?;
    let operands = operands_form(alloc, bytes, more_operands(gate), rest)?;
    Ok(GateForm { angle, operands })
}
