//! Tokens of a text.

ghost use Rattle.std.specs.Prelude.{◌≡◌, ◌≢◌, ◌+◌, ◌-◌, ◌<◌, ◌≤◌, length, map, drop, IfOk, IfErr, MatchResult};
ghost use Rattle.wcps_text.specs.Fronts.{IsTokenAt};
ghost use Rattle.wcps_text.specs.Lexing.{piece, is_space, Lexed, Refused};
ghost use Rattle.wcps_text.specs.Runs.{Stops};
ghost use Rattle.wcps_text.specs.declared.error.LexError.TheVariants.{NoMemory};

use crate::error::LexError;
use crate::piece::front;
use crate::runs::{Class, run};
use crate::token::Token;
use std::alloc::Global;

/// The tokens of the text in order, each with its bytes and the place where they begin.
///
/// Spaces, tabs, carriage returns and line feeds may stand between tokens; each token is the longest that fits. The
/// first thing in the text that is no token is refused: `NumberTooLarge` for a number above 9223372036854775807, else
/// `BadToken`.
pub fn lex<'a>(alloc: Global, text: &'a str) -> Result<Vec<Token<'a>>, LexError>
    ensures tokens { IfOk result (λ ts. Lexed 0 text.now (map piece ts.items)) }
    ensures refused { IfErr result (λ e. e ≢ NoMemory → Refused text.now e) }
{
    let mut tokens = Vec::new(alloc);
    let mut at = run(Class::Space, text.as_bytes());
    while at < text.len() {
        let token = token_at(text, at)?;
        let end = at + token.text.len();
        at = end + run(Class::Space, &text.as_bytes()[end..]);
        tokens.push(token)?;
    }
    Ok(tokens)
}

/// The token that begins at that place.
fn token_at<'a>(text: &'a str, start: usize) -> Result<Token<'a>, LexError>
    requires inside { start < length text.now }
    requires begun { Stops is_space (drop start text.now) }
    ensures exact { MatchResult result (IsTokenAt text.now start) (Refused (drop start text.now)) }
    ensures place { IfOk result (λ t. t.start ≡ start) }
    ensures within { IfOk result (λ t. start + length t.text.now ≤ length text.now) }
    ensures some { IfOk result (λ t. 0 < length t.text.now) }
{
    let (count, kind) = front(&text.as_bytes()[start..])?;
    let end = start + count;
    Ok(Token {
        kind,
        text: &text[start..end],
        start,
    })
}
