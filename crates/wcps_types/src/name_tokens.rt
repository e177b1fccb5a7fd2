//! The names of coverages, fields and axes among the tokens of a query.

ghost use Rattle.std.specs.Prelude.{◌↔◌, ℕ, List, Ok};
ghost use Rattle.arr_core.specs.Names.{IsName};
ghost use Rattle.wcps_text.specs.Lexing.{Reads};
ghost use Rattle.wcps_text.specs.Token as token;

/// What may be the name of a coverage, a field or an axis is just what a text has as one token that is a name without
/// `$`.
pub fn names_are_tokens()
    ensures { (w : List ℕ) → IsName w ↔ Reads w (Ok (token.name w)) }
{}
