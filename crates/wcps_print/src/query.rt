//! Whole queries as text.

ghost use Rattle.std.specs.Prelude.{◌≡◌, ◌++◌, true, string_bytes, IfOk, OnOk};
ghost use Rattle.wcps_text.specs.Tree.{bindings_of, item_view, query_view, view};
ghost use Rattle.wcps_print.specs.Printed.{IsTextOf, IsTextWithin, Inherits};
ghost use Rattle.wcps_print.specs.Printing.{bindings_tokens, encoded_tokens, item_tokens, names_tokens, query_tokens, text_of, Adds};

use crate::expression::{put_condition, put_expr};
use crate::words::{put_name, put_separator, put_symbol, put_word};
use arr_core::Keyword;
use std::alloc::{AllocError, Global};
use wcps_text::{Binding, Expr, Item, Query, QueryName, Symbol};

/// The query as text, every operand in parentheses.
///
/// If the tokens of some text spell the query, as they do of any query that was parsed, then the printed text has
/// tokens, and they spell the same query; and where that text is within the limits of a query, so is the printed one,
/// which a parser then takes. It calls itself as deep as the query is high. The only error is want of memory.
pub fn print(alloc: Global, query: &Query) -> Result<String, AllocError>
    ensures spelled { IfOk result (λ printed. Inherits IsTextOf (query_view query.now) (string_bytes printed)) }
    ensures within { IfOk result (λ printed. Inherits IsTextWithin (query_view query.now) (string_bytes printed)) }
{
    let mut out = String::new(alloc);
    put_query(&mut out, query)?;
    Ok(out)
}

fn put_query(out: &mut String, query: &Query) -> Result<(), AllocError>
    ensures { OnOk result (string_bytes out.new ≡ string_bytes out.old ++ text_of (query_tokens (query_view query.now))) }
{
    put_word(out, Keyword::For)?;
    put_bindings(out, &query.bindings)?;
    put_condition(out, &query.condition)?;
    put_word(out, Keyword::Return)?;
    put_item(out, &query.item)
}

fn put_item(out: &mut String, item: &Item) -> Result<(), AllocError>
    ensures { OnOk result (Adds out.old out.new (item_tokens (item_view item.now))) }
{
    match item {
        Item::Plain(value) => put_expr(out, value),
        Item::Encode(value) => put_encoded(out, value),
    }
}

fn put_encoded(out: &mut String, value: &Expr) -> Result<(), AllocError>
    ensures { OnOk result (Adds out.old out.new (encoded_tokens (view value.now))) }
{
    put_word(out, Keyword::Encode)?;
    put_symbol(out, Symbol::LeftParen)?;
    put_expr(out, value)?;
    put_symbol(out, Symbol::Comma)?;
    put_word(out, Keyword::Csv)?;
    put_symbol(out, Symbol::RightParen)
}

fn put_bindings(out: &mut String, bindings: &[Binding]) -> Result<(), AllocError>
    ensures { OnOk result (Adds out.old out.new (bindings_tokens true (bindings_of bindings.now))) }
{
    let mut is_first = true;
    for binding in bindings {
        put_separator(out, is_first, Symbol::Comma)?;
        is_first = false;
        put_name(out, &binding.variable)?;
        put_word(out, Keyword::In)?;
        put_symbol(out, Symbol::LeftParen)?;
        put_names(out, &binding.coverages)?;
        put_symbol(out, Symbol::RightParen)?;
    }
    Ok(())
}

fn put_names(out: &mut String, names: &[QueryName]) -> Result<(), AllocError>
    ensures { OnOk result (Adds out.old out.new (names_tokens true names.now)) }
{
    let mut is_first = true;
    for name in names {
        put_separator(out, is_first, Symbol::Comma)?;
        is_first = false;
        put_name(out, name)?;
    }
    Ok(())
}
