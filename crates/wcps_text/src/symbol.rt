//! Symbols, of one or two bytes.

ghost use Rattle.std.specs.Prelude.{◌≡◌};
ghost use Rattle.wcps_text.specs.Lexing.{single, double, symbol_text};

use crate::token::Symbol;

/// The symbol that the byte alone is.
pub fn single(byte: u8) -> Option<Symbol>
    ensures { result ≡ single byte }
{
    match byte {
        b'(' => Some(Symbol::LeftParen),
        b')' => Some(Symbol::RightParen),
        b'[' => Some(Symbol::LeftBracket),
        b']' => Some(Symbol::RightBracket),
        b'{' => Some(Symbol::LeftBrace),
        b'}' => Some(Symbol::RightBrace),
        b',' => Some(Symbol::Comma),
        b';' => Some(Symbol::Semicolon),
        b':' => Some(Symbol::Colon),
        b'.' => Some(Symbol::Dot),
        b'<' => Some(Symbol::Less),
        b'>' => Some(Symbol::Greater),
        b'=' => Some(Symbol::Equal),
        b'+' => Some(Symbol::Plus),
        b'-' => Some(Symbol::Minus),
        b'*' => Some(Symbol::Star),
        b'/' => Some(Symbol::Slash),
        _ => None,
    }
}

/// The symbol that the byte is together with `=` behind it.
pub fn double(byte: u8) -> Option<Symbol>
    ensures { result ≡ double byte }
{
    match byte {
        b'<' => Some(Symbol::LessEqual),
        b'>' => Some(Symbol::GreaterEqual),
        b'!' => Some(Symbol::NotEqual),
        _ => None,
    }
}

impl Symbol {
    /// The bytes of the symbol.
    pub fn text(self) -> &'static str
        ensures { result.now ≡ symbol_text self }
    {
        match self {
            Symbol::LeftParen => "(",
            Symbol::RightParen => ")",
            Symbol::LeftBracket => "[",
            Symbol::RightBracket => "]",
            Symbol::LeftBrace => "{",
            Symbol::RightBrace => "}",
            Symbol::Comma => ",",
            Symbol::Semicolon => ";",
            Symbol::Colon => ":",
            Symbol::Dot => ".",
            Symbol::Less => "<",
            Symbol::LessEqual => "<=",
            Symbol::Greater => ">",
            Symbol::GreaterEqual => ">=",
            Symbol::Equal => "=",
            Symbol::NotEqual => "!=",
            Symbol::Plus => "+",
            Symbol::Minus => "-",
            Symbol::Star => "*",
            Symbol::Slash => "/",
        }
    }
}
