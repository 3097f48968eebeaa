//! What a line of assembly is made of.

/// A token by its place in its line, in bytes from 0 on.
#[derive(Clone, Copy, Debug, PartialEq, Eq)]
pub struct Token {
    /// What it is.
    pub kind: TokenKind,
    /// Its first byte.
    pub start: u32,
    /// The place behind its last byte.
    pub end: u32,
}

/// What a token is, as its first byte tells.
#[derive(Clone, Copy, Debug, PartialEq, Eq)]
pub enum TokenKind {
    /// A run of letters, digits, `_` and `.` that doesn't begin with a digit.
    Word,
    /// A run of letters, digits, `_` and `.` that begins with a digit. It may be spelt as no number.
    Number,
    /// `,`
    Comma,
    /// `:`
    Colon,
    /// `(`
    Open,
    /// `)`
    Close,
    /// `+`
    Plus,
    /// `-`
    Minus,
    /// `%`
    Percent,
}
