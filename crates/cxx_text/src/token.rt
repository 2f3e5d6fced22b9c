//! The types of tokens.

use foundation::Sequence;

/// The kind of a token; `End` stands once, after all others.
#[derive(Clone, Copy, Debug, PartialEq, Eq)]
pub enum Kind {
    Word,
    Number,
    Sign,
    End,
}

/// A token.
///
/// `start` and `end` are places in bytes from the start of the text, and `end` is the first place after it.
/// `line` counts from 1. `value` is the value of a number, and 0 for every other kind.
#[derive(Clone, Copy, Debug, PartialEq, Eq)]
pub struct Token {
    pub kind: Kind,
    pub start: u32,
    pub end: u32,
    pub line: u32,
    pub value: u64,
}

/// A list of tokens.
pub type Tokens = Sequence<Token>;

/// The tokens of a text, and the first place in bytes where no token stands, if there is one.
///
/// Where there is none the last token is the one `End`, of no bytes, at the end of the text.
#[derive(Debug, Drop)]
pub struct TokenList {
    pub tokens: Tokens,
    pub bad: Option<u32>,
}
