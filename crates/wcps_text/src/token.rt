//! Tokens, which borrow the text that they were read from.

ghost use Rattle.std.specs.Prelude.{◌≤◌};
ghost use Rattle.wcps_text.specs.Number.{max_number};

use arr_core::Keyword;

/// A mark of one or two characters.
#[derive(Clone, Copy, PartialEq, Eq)]
pub enum Symbol {
    LeftParen,
    RightParen,
    LeftBracket,
    RightBracket,
    LeftBrace,
    RightBrace,
    Comma,
    Semicolon,
    Colon,
    Dot,
    Less,
    LessEqual,
    Greater,
    GreaterEqual,
    Equal,
    NotEqual,
    Plus,
    Minus,
    Star,
    Slash,
}

/// A number as a query writes it, without a sign: at most 9223372036854775807.
#[derive(Clone, Copy, Debug, PartialEq, Eq)]
pub struct Literal {
    pub value: u64,
    ghost small: { value ≤ max_number },
}

/// What a token is.
#[derive(Clone, Copy, PartialEq, Eq)]
pub enum Kind {
    Number(Literal),
    /// A name without `$` that is no keyword.
    Name,
    /// A name with `$`.
    Variable,
    /// A text between double quotes, which are part of the token.
    Text,
    Keyword(Keyword),
    Symbol(Symbol),
}

/// One token: what it is, its bytes, and at which byte of the text it starts.
#[derive(Clone, Copy)]
pub struct Token<'a> {
    pub kind: Kind,
    pub text: &'a str,
    pub start: usize,
}
