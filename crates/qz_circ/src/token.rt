//! Tokens, into which the text of a program is cut.

/// What a token is.
#[derive(Clone, Copy, PartialEq, Eq)]
pub enum Kind {
    /// A letter, then letters, digits and `_`; at most 64 bytes, and not `pi`.
    Word,
    /// The word `pi`.
    Pi,
    /// One to eighteen digits, with their value.
    Whole(u64),
    /// A number with a `.`, an exponent or both.
    Real,
    /// A text between quotes, on one line; it may be empty.
    Text,
    /// `;`
    Semicolon,
    /// `,`
    Comma,
    /// `(`
    LeftParen,
    /// `)`
    RightParen,
    /// `[`
    LeftBracket,
    /// `]`
    RightBracket,
    /// `{`
    LeftBrace,
    /// `}`
    RightBrace,
    /// `+`
    Plus,
    /// `-`
    Minus,
    /// `*`
    Star,
    /// `/`
    Slash,
    /// `^`
    Caret,
    /// `->`
    Arrow,
    /// `==`
    Equal,
}

/// A token of a text: its bytes are those from `start` to before `end`, counted from 0.
#[derive(Clone, Copy, PartialEq, Eq)]
pub struct Token {
    /// What it is.
    pub kind: Kind,
    /// The place of its first byte.
    pub start: u32,
    /// The place behind its last byte.
    pub end: u32,
}
