//! What texts are cut into.
use qz_lex::{Kind, LexFault, Token, tokens};
use std::alloc::Global;

// The tokens of a short text. It hides their clauses.
fn cut(alloc: Global, text: &[u8]) -> Result<Vec<Token>, LexFault> {
    if text.len() < 1000 {
        tokens(alloc, text)
    } else {
        Err(LexFault::Memory)
    }
}

// Whether a text has just these tokens.
fn has_tokens(alloc: Global, text: &[u8], wanted: &[(Kind, u32, u32)]) -> bool {
    let Ok(found) = cut(alloc, text) else {
        return false;
    };
    for (token, (kind, start, end)) in found.iter().zip(wanted) {
        if token.kind != *kind || token.start != *start || token.end != *end {
            return false;
        }
    }
    found.len() == wanted.len()
}

// Whether this is the leftmost fault of a text.
fn has_fault(alloc: Global, text: &[u8], wanted: LexFault) -> bool {
    match cut(alloc, text) {
        Ok(_) => false,
        Err(found) => found == wanted,
    }
}

#[test]
fn texts_are_cut_into_tokens(rt: HostRuntime) {
    let signs: &[(Kind, u32, u32)] = &[
        (Kind::Semicolon, 0, 1),
        (Kind::Comma, 1, 2),
        (Kind::LeftParen, 2, 3),
        (Kind::RightParen, 3, 4),
        (Kind::LeftBracket, 4, 5),
        (Kind::RightBracket, 5, 6),
        (Kind::LeftBrace, 6, 7),
        (Kind::RightBrace, 7, 8),
        (Kind::Plus, 8, 9),
        (Kind::Minus, 9, 10),
        (Kind::Star, 10, 11),
        (Kind::Slash, 11, 12),
        (Kind::Caret, 12, 13),
        (Kind::Arrow, 13, 15),
        (Kind::Equal, 15, 17),
    ];
    let numbers: &[(Kind, u32, u32)] = &[
        (Kind::Whole(1), 0, 1),
        (Kind::Real, 2, 4),
        (Kind::Real, 5, 7),
        (Kind::Real, 8, 11),
        (Kind::Whole(2), 12, 13),
        (Kind::Word, 13, 14),
        (Kind::Real, 15, 18),
        (Kind::Real, 19, 23),
        (Kind::Real, 24, 29),
        (Kind::Real, 30, 32),
        (Kind::Real, 32, 34),
        (Kind::Whole(7), 35, 38),
    ];
    let words: &[(Kind, u32, u32)] = &[
        (Kind::Pi, 0, 2),
        (Kind::Word, 3, 6),
        (Kind::Word, 7, 9),
        (Kind::Word, 10, 13),
    ];
    let header: &[(Kind, u32, u32)] = &[
        (Kind::Word, 0, 8),
        (Kind::Real, 9, 12),
        (Kind::Semicolon, 12, 13),
    ];
    let texts: &[(Kind, u32, u32)] = &[(Kind::Text, 0, 2), (Kind::Text, 3, 9)];
    let around: &[(Kind, u32, u32)] = &[(Kind::Word, 0, 1), (Kind::Word, 6, 7)];
    let slash: &[(Kind, u32, u32)] = &[(Kind::Word, 0, 1), (Kind::Slash, 1, 2), (Kind::Word, 2, 3)];
    let real: &[(Kind, u32, u32)] = &[(Kind::Real, 0, 20)];
    let nothing: &[(Kind, u32, u32)] = &[];
    let wanted = [
        (b";,()[]{}+-*/^->==".as_slice(), signs),
        (
            b"1 1. .5 1.5 2e 1e5 1E-3 .5e+2 1..2 007".as_slice(),
            numbers,
        ),
        (b"pi pix Pi p_1".as_slice(), words),
        (b"OPENQASM 2.0;".as_slice(), header),
        (b"\"\" \"a//b\"".as_slice(), texts),
        (b"a//\"\xC3\nc".as_slice(), around),
        (b"a/b".as_slice(), slash),
        (b"9999999999999999999.".as_slice(), real),
        (b"".as_slice(), nothing),
        (b" \t\r\n// to the end".as_slice(), nothing),
    ];
    for (text, tokens) in &wanted {
        assert!(rt; has_tokens(rt.alloc(), text, tokens));
    }
}

#[test]
fn texts_have_their_leftmost_fault(rt: HostRuntime) {
    let wanted = [
        (b"a = b".as_slice(), LexFault::BadByte { place: 2 }),
        (b"\"a".as_slice(), LexFault::BadByte { place: 0 }),
        (b"x \"a\n\"".as_slice(), LexFault::BadByte { place: 2 }),
        (b"1 .".as_slice(), LexFault::BadByte { place: 2 }),
        (b"_a #".as_slice(), LexFault::BadByte { place: 0 }),
        (b"h q;\n\xC3".as_slice(), LexFault::BadByte { place: 5 }),
        (
            b"h 9999999999999999999 #".as_slice(),
            LexFault::BigNumber { place: 2 },
        ),
    ];
    for (text, fault) in &wanted {
        assert!(rt; has_fault(rt.alloc(), text, *fault));
    }
}

// Names and numbers at their limit and one byte past it.
#[test]
fn long_names_and_big_numbers_are_faults(rt: HostRuntime) {
    let name = [b'a'; 65];
    let digits = [b'9'; 19];
    let most = Kind::Whole(999_999_999_999_999_999);
    assert!(rt; has_tokens(rt.alloc(), &name[..64], &[(Kind::Word, 0, 64)]));
    assert!(rt; has_fault(rt.alloc(), &name, LexFault::LongName { place: 0 }));
    assert!(rt; has_tokens(rt.alloc(), &digits[..18], &[(most, 0, 18)]));
    assert!(rt; has_fault(rt.alloc(), &digits, LexFault::BigNumber { place: 0 }));
}
