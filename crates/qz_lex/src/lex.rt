//! Cuts a text into tokens.
ghost use Rattle.std.specs.Prelude.{◌≡◌, ◌≢◌, ◌⊎◌, Err, ◌+◌, ◌++◌, [], ◌<◌, ◌≤◌, ◌^◌, length, take, slice_index, IfOk, OnOk, true};
ghost use Rattle.std.specs.Char.{is_ascii_alphabetic};
ghost use Rattle.std.specs.List.{prefix_len, All};
ghost use Rattle.std.specs.Str.Parse.{digits_value};
ghost use Rattle.qz_circ.specs.ProgramLimits.{most_digits};
ghost use Rattle.qz_circ.specs.Tokens as spec;
ghost use Rattle.qz_circ.specs.Tokens.{tokens_of, with_token};
ghost use Rattle.qz_circ.specs.FirstFault.{GivesUnless};
ghost use Rattle.qz_lex.specs.Classes.{is_of, IsPart, IsTokenOf};

use qz_circ::{Kind, LONGEST_WORD, LexFault, MOST_DIGITS, Token};
use std::alloc::Global;

// Which bytes go on with what stands before them.
#[derive(Clone, Copy)]
enum Class {
    Blank,
    Line,
    Word,
    Quotes,
    Digit,
}

// A kind of token, or none for a gap, and a length in bytes.
type Front = (Option<Kind>, usize);

fn is_in(class: Class, b: u8) -> bool
    ensures { result ≡ is_of class b }
{
    match class {
        Class::Blank => b == b' ' || b == b'\t' || b == b'\r' || b == b'\n',
        Class::Line => !(b == b'\n'),
        Class::Word => b.is_ascii_alphanumeric() || b == b'_',
        Class::Quotes => !(b == b'"' || b == b'\n'),
        Class::Digit => b.is_ascii_digit(),
    }
}

// The byte at a place, or 0 behind the end.
fn byte(z: &[u8], at: usize) -> u8
    ensures value { result ≡ slice_index z.now at }
    ensures within { result ≢ 0 → at < length z.now }
{
    if at < z.len() { z[at] } else { 0 }
}

// How many bytes of the class the text begins with.
fn run(class: Class, z: &[u8]) -> usize
    ensures value { result ≡ prefix_len (is_of class) z.now }
    ensures within { result ≤ length z.now }
    ensures some { is_of class (slice_index z.now 0) ≡ true → 0 < length z.now → 0 < result }
{
    let mut n = 0;
    while n < z.len() && is_in(class, z[n]) {
        n += 1;
    }
    n
}

// The word at the front.
#[tactic(auto, unfolding(qz_circ::specs::Tokens::word))]
fn word(place: u64, z: &[u8]) -> Result<Front, LexFault>
    requires { is_ascii_alphabetic (slice_index z.now 0) ≡ true }
    ensures value { result ≡ spec.word place z.now }
    ensures part { IsPart result z.now }
{
    let n = run(Class::Word, z);
    if n > LONGEST_WORD {
        return Err(LexFault::LongName { place });
    }
    let (text, _) = z.split_at(n);
    if text == b"pi".as_slice() {
        Ok((Some(Kind::Pi), n))
    } else {
        Ok((Some(Kind::Word), n))
    }
}

// How long the digits at the front are, with one point.
#[tactic(auto, unfolding(qz_circ::specs::Tokens::decimal_length))]
fn decimal_length(z: &[u8]) -> usize
    ensures value { result ≡ spec.decimal_length z.now }
    ensures within { result ≤ length z.now }
{
    let whole = run(Class::Digit, z);
    if byte(z, whole) != b'.' {
        return whole;
    }
    let (_, decimals) = z.split_at(whole + 1);
    let after = run(Class::Digit, decimals);
    if whole + after > 0 {
        whole + 1 + after
    } else {
        whole
    }
}

// How long the exponent at the front is.
#[tactic(auto, unfolding(qz_circ::specs::Tokens::exponent_length))]
fn exponent_length(z: &[u8]) -> usize
    ensures value { result ≡ spec.exponent_length z.now }
    ensures within { result ≤ length z.now }
{
    if byte(z, 0) != b'e' && byte(z, 0) != b'E' {
        return 0;
    }
    let next = byte(z, 1);
    let sign = if next == b'+' || next == b'-' { 1 } else { 0 };
    let (_, digits) = z.split_at(1 + sign);
    let count = run(Class::Digit, digits);
    if count > 0 { 1 + sign + count } else { 0 }
}

// The value of so many digits at the front.
fn value_of(z: &[u8], count: usize) -> u64
    requires few { count ≤ most_digits }
    requires digits { count ≤ spec.digits z.now }
    ensures { result ≡ digits_value 10 (take count z.now) }
{
    let mut value = 0;
    for i in 0..count {
        value = value * 10 + u64::from(z[i] - b'0');
    }
    value
}

// The number at the front.
#[tactic(auto, unfolding(qz_circ::specs::Tokens::number))]
fn number(place: u64, z: &[u8]) -> Result<Front, LexFault>
    requires { 0 < spec.decimal_length z.now }
    ensures value { result ≡ spec.number place z.now }
    ensures part { IsPart result z.now }
{
    let whole = run(Class::Digit, z);
    let decimal = decimal_length(z);
    let (_, behind) = z.split_at(decimal);
    let n = decimal + exponent_length(behind);
    if whole < n {
        return Ok((Some(Kind::Real), n));
    }
    if whole > MOST_DIGITS {
        return Err(LexFault::BigNumber { place });
    }
    Ok((Some(Kind::Whole(value_of(z, whole))), whole))
}

// The text at the front, from a quote on.
#[tactic(auto, unfolding(qz_circ::specs::Tokens::quoted))]
fn quoted(place: u64, z: &[u8]) -> Result<Front, LexFault>
    requires { 0 < length z.now }
    ensures value { result ≡ spec.quoted place z.now }
    ensures part { IsPart result z.now }
{
    let (_, inside) = z.split_at(1);
    let n = 1 + run(Class::Quotes, inside);
    if byte(z, n) == b'"' {
        Ok((Some(Kind::Text), n + 1))
    } else {
        Err(LexFault::BadByte { place })
    }
}

// The sign of one byte.
#[tactic(auto, unfolding(qz_circ::specs::Tokens::one_byte_sign))]
fn one_byte_sign(b: u8) -> Option<Kind>
    ensures { result ≡ spec.one_byte_sign b }
{
    match b {
        b';' => Some(Kind::Semicolon),
        b',' => Some(Kind::Comma),
        b'(' => Some(Kind::LeftParen),
        b')' => Some(Kind::RightParen),
        b'[' => Some(Kind::LeftBracket),
        b']' => Some(Kind::RightBracket),
        b'{' => Some(Kind::LeftBrace),
        b'}' => Some(Kind::RightBrace),
        b'+' => Some(Kind::Plus),
        b'-' => Some(Kind::Minus),
        b'*' => Some(Kind::Star),
        b'/' => Some(Kind::Slash),
        b'^' => Some(Kind::Caret),
        _ => None,
    }
}

// The sign at the front.
#[tactic(auto, unfolding(qz_circ::specs::Tokens::sign))]
fn sign(place: u64, z: &[u8]) -> Result<Front, LexFault>
    requires { 0 < length z.now }
    ensures value { result ≡ spec.sign place z.now }
    ensures part { IsPart result z.now }
{
    let b = byte(z, 0);
    let next = byte(z, 1);
    if b == b'-' && next == b'>' {
        return Ok((Some(Kind::Arrow), 2));
    }
    if b == b'=' && next == b'=' {
        return Ok((Some(Kind::Equal), 2));
    }
    match one_byte_sign(b) {
        Some(kind) => Ok((Some(kind), 1)),
        None => Err(LexFault::BadByte { place }),
    }
}

// The gap or the token at the front.
#[tactic(auto, unfolding(qz_circ::specs::Tokens::front))]
fn front(place: u64, z: &[u8]) -> Result<Front, LexFault>
    requires { 0 < length z.now }
    ensures value { result ≡ spec.front place z.now }
    ensures part { IsPart result z.now }
{
    let b = byte(z, 0);
    if is_in(Class::Blank, b) {
        return Ok((None, run(Class::Blank, z)));
    }
    if b == b'/' && byte(z, 1) == b'/' {
        return Ok((None, run(Class::Line, z)));
    }
    if b.is_ascii_alphabetic() {
        return word(place, z);
    }
    if decimal_length(z) > 0 {
        return number(place, z);
    }
    if b == b'"' {
        return quoted(place, z);
    }
    sign(place, z)
}

// Adds the token at a place, where it is no gap.
fn add(tokens: &mut Vec<Token>, place: usize, first: Front) -> Result<(), LexFault>
    requires { place + first.1 < 2 ^ 32 }
    ensures ok { OnOk result (tokens.new.items ≡ tokens.old.items ++ with_token place first []) }
    ensures memory { (e : LexFault) → result ≡ Err e → e ≡ LexFault.Memory }
{
    if let Some(kind) = first.0 {
        let token = Token {
            kind,
            start: place as u32,
            end: (place + first.1) as u32,
        };
        if tokens.push(token).is_err() {
            return Err(LexFault::Memory);
        }
    }
    Ok(())
}

// The tokens of a text, or its leftmost fault, one gap or token after the other.
fn cut(alloc: Global, bytes: &[u8]) -> Result<Vec<Token>, LexFault>
    requires { length bytes.now < 2 ^ 32 }
    ensures exact { GivesUnless LexFault.Memory (λ v. v.items) result (tokens_of bytes.now) }
    ensures within { IfOk result (λ v. All (IsTokenOf (length bytes.now)) v.items) }
{
    let mut tokens = Vec::new(alloc);
    let mut place = 0;
    while place < bytes.len() {
        let (_, rest) = bytes.split_at(place);
        match front(place as u64, rest) {
            Ok(first) => {
                add(&mut tokens, place, first)?;
                place += first.1;
            }
            Err(fault) => return Err(fault),
        }
    }
    Ok(tokens)
}

/// The tokens of a text, or its leftmost fault.
#[tactic(auto, using(crate::proofs::LexLemmas::fault_given))]
pub fn tokens(alloc: Global, bytes: &[u8]) -> Result<Vec<Token>, LexFault>
    requires { length bytes.now < 2 ^ 32 }
    // What is answered is the definition's tokens or its fault, unless memory ran out.
    ensures exact { GivesUnless LexFault.Memory (λ v. v.items) result (tokens_of bytes.now) }
    // Where the definition has a fault, it is answered, unless memory ran out.
    ensures faults { (e : LexFault) → tokens_of bytes.now ≡ Err e → (result ≡ Err e) ⊎ (result ≡ Err LexFault.Memory) }
    // Each token has at least one byte, and all of them in the text.
    ensures within { IfOk result (λ v. All (IsTokenOf (length bytes.now)) v.items) }
{
    cut(alloc, bytes)
}
