//! How deep a query may be before its syntax is looked at: so many brackets open at once, and so many of the words
//! `condense` and `coverage`. So reading, which goes down at brackets and at these words, stays on the stack.

ghost use Rattle.std.specs.Prelude.{◌<◌, ◌↔◌, ◌⊎◌, IsTrue};
ghost use Rattle.wcps_text.specs.Token.{toks};
ghost use Rattle.wcps_text.specs.Limits.{max_depth, max_forms, deepest, forms};
ghost use Rattle.wcps_parse.specs.Marks.{Opens, Closes, BeginsForm};

use arr_core::Keyword;
use wcps_text::{Kind, Symbol, Token};

/// The most brackets that may be open at once: `max_depth`.
const MAX_DEPTH: u16 = 512;

/// The most words `condense` and `coverage`: `max_forms`.
const MAX_FORMS: u16 = 256;

/// Whether more brackets are open at once, or more forms stand among the tokens, than a query may have.
pub fn is_too_deep(tokens: &[Token]) -> bool
    ensures { IsTrue result ↔ ((max_depth < deepest 0 (toks tokens.now)) ⊎ (max_forms < forms (toks tokens.now))) }
{
    has_deep_brackets(tokens) || has_many_forms(tokens)
}

fn has_deep_brackets(tokens: &[Token]) -> bool
    ensures { IsTrue result ↔ (max_depth < deepest 0 (toks tokens.now)) }
{
    let mut depth: u16 = 0;
    for token in tokens {
        if is_opening(token.kind) {
            if depth == MAX_DEPTH {
                return true;
            }
            depth += 1;
        } else if is_closing(token.kind) {
            depth = depth.saturating_sub(1);
        }
    }
    false
}

fn has_many_forms(tokens: &[Token]) -> bool
    ensures { IsTrue result ↔ (max_forms < forms (toks tokens.now)) }
{
    let mut count: u16 = 0;
    for token in tokens {
        if is_form(token.kind) {
            if count == MAX_FORMS {
                return true;
            }
            count += 1;
        }
    }
    false
}

fn is_opening(kind: Kind) -> bool
    ensures { IsTrue result ↔ Opens kind }
{
    matches!(
        kind,
        Kind::Symbol(Symbol::LeftParen | Symbol::LeftBracket | Symbol::LeftBrace)
    )
}

fn is_closing(kind: Kind) -> bool
    ensures { IsTrue result ↔ Closes kind }
{
    matches!(
        kind,
        Kind::Symbol(Symbol::RightParen | Symbol::RightBracket | Symbol::RightBrace)
    )
}

fn is_form(kind: Kind) -> bool
    ensures { IsTrue result ↔ BeginsForm kind }
{
    matches!(kind, Kind::Keyword(Keyword::Condense | Keyword::Coverage))
}
