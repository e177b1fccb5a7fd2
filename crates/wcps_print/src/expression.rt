//! Expressions as text, every operand in parentheses.

ghost use Rattle.std.specs.Prelude.{[], ◌∷◌, true, OnOk};
ghost use Rattle.wcps_text.specs.Tree.{view, view_interval, view_place, iters_of, parts_of, subs_of, condition_of};
ghost use Rattle.wcps_text.specs.Tree as tree;
ghost use Rattle.wcps_print.specs.Printing.{condenser, condition_tokens, expr_tokens, head_tokens, in_brackets, in_parens, interval_tokens, items_tokens, iters_tokens, place_tokens, subs_tokens, Adds};

use crate::words::{
    put_any_name, put_binary, put_condense, put_int, put_name, put_number, put_reduce,
    put_separator, put_symbol, put_truth, put_unary_op, put_word,
};
use arr_core::Keyword;
use std::alloc::AllocError;
use wcps_text::{
    Aggregate, BinaryOperator, Expr, Interval, Iter, ListItem, Part, Place, QueryName, Sub, Symbol,
    UnaryOperator,
};

/// An expression.
#[cycle(printing)]
pub fn put_expr(out: &mut String, expr: &Expr) -> Result<(), AllocError>
    ensures { OnOk result (Adds out.old out.new (expr_tokens (view expr.now))) }
{
    match expr {
        Expr::Number(literal) => put_number(out, literal.value),
        Expr::Truth(truth) => put_truth(out, *truth),
        Expr::Variable(name) => put_name(out, name),
        Expr::Unary(op, operand) => put_unary(out, *op, operand),
        Expr::Binary(op, left, right) => put_operation(out, *op, left, right),
        Expr::Reduce(op, value) => {
            put_reduce(out, *op)?;
            put_grouped(out, value)
        }
        Expr::Record(parts) => put_record(out, parts),
        Expr::ValueList { iterators, items } => put_value_list(out, iterators, items),
        Expr::Field(value, name) => put_field(out, value, name),
        Expr::Brackets(value, subs) => {
            put_grouped(out, value)?;
            put_subs(out, subs)
        }
        Expr::Coverage { iterators, body } => {
            put_head(out, iterators)?;
            put_word(out, Keyword::Values)?;
            put_grouped(out, body)
        }
        Expr::Condense {
            op,
            iterators,
            condition,
            body,
        } => put_condenser(out, *op, iterators, condition, body),
    }
}

/// An expression in parentheses.
#[cycle(printing)]
pub fn put_grouped(out: &mut String, expr: &Expr) -> Result<(), AllocError>
    ensures { OnOk result (Adds out.old out.new (in_parens (expr_tokens (view expr.now)))) }
{
    put_symbol(out, Symbol::LeftParen)?;
    put_expr(out, expr)?;
    put_symbol(out, Symbol::RightParen)
}

/// `where` and a condition in parentheses, if there is one.
#[cycle(printing)]
pub fn put_condition(out: &mut String, condition: &Option<Box<Expr>>) -> Result<(), AllocError>
    ensures { OnOk result (Adds out.old out.new (condition_tokens (condition_of condition.now))) }
{
    match condition {
        Some(test) => {
            put_word(out, Keyword::Where)?;
            put_grouped(out, test)
        }
        None => Ok(()),
    }
}

#[cycle(printing)]
fn put_unary(out: &mut String, op: UnaryOperator, operand: &Expr) -> Result<(), AllocError>
    ensures { OnOk result (Adds out.old out.new (expr_tokens (tree.unary op (view operand.now)))) }
{
    put_unary_op(out, op)?;
    put_grouped(out, operand)
}

/// An operator between its operands, or `bit` and its operands.
#[cycle(printing)]
fn put_operation(
    out: &mut String,
    op: BinaryOperator,
    left: &Expr,
    right: &Expr,
) -> Result<(), AllocError>
    ensures { OnOk result (Adds out.old out.new (expr_tokens (tree.binary op (view left.now) (view right.now)))) }
{
    if op == BinaryOperator::Bit {
        put_word(out, Keyword::Bit)?;
        put_symbol(out, Symbol::LeftParen)?;
        put_expr(out, left)?;
        put_symbol(out, Symbol::Comma)?;
        put_expr(out, right)?;
        return put_symbol(out, Symbol::RightParen);
    }
    put_grouped(out, left)?;
    put_binary(out, op)?;
    put_grouped(out, right)
}

/// A field of a value.
#[cycle(printing)]
fn put_field(out: &mut String, value: &Expr, name: &QueryName) -> Result<(), AllocError>
    ensures { OnOk result (Adds out.old out.new (expr_tokens (tree.field (view value.now) name.now))) }
{
    put_grouped(out, value)?;
    put_symbol(out, Symbol::Dot)?;
    put_name(out, name)
}

/// A condenser, with its condition where it has one.
#[cycle(printing)]
fn put_condenser(
    out: &mut String,
    op: Aggregate,
    iterators: &[Iter],
    condition: &Option<Box<Expr>>,
    body: &Expr,
) -> Result<(), AllocError>
    ensures { OnOk result (Adds out.old out.new (expr_tokens (condenser op iterators.now condition.now body.now))) }
{
    put_word(out, Keyword::Condense)?;
    put_condense(out, op)?;
    put_word(out, Keyword::Over)?;
    put_iters(out, iterators)?;
    put_condition(out, condition)?;
    put_word(out, Keyword::Using)?;
    put_grouped(out, body)
}

#[cycle(printing)]
fn put_record(out: &mut String, parts: &[Part]) -> Result<(), AllocError>
    ensures { OnOk result (Adds out.old out.new (expr_tokens (tree.parts (parts_of parts.now)))) }
{
    put_symbol(out, Symbol::LeftBrace)?;
    let mut is_first = true;
    for part in parts {
        put_separator(out, is_first, Symbol::Semicolon)?;
        is_first = false;
        put_name(out, &part.name)?;
        put_symbol(out, Symbol::Colon)?;
        put_expr(out, &part.value)?;
    }
    put_symbol(out, Symbol::RightBrace)
}

#[cycle(printing)]
fn put_subs(out: &mut String, subs: &[Sub]) -> Result<(), AllocError>
    ensures { OnOk result (Adds out.old out.new (in_brackets (subs_tokens true (subs_of subs.now)))) }
{
    put_symbol(out, Symbol::LeftBracket)?;
    let mut is_first = true;
    for sub in subs {
        put_separator(out, is_first, Symbol::Comma)?;
        is_first = false;
        put_name(out, &sub.axis)?;
        put_symbol(out, Symbol::LeftParen)?;
        put_place(out, &sub.place)?;
        put_symbol(out, Symbol::RightParen)?;
    }
    put_symbol(out, Symbol::RightBracket)
}

#[cycle(printing)]
fn put_place(out: &mut String, place: &Place) -> Result<(), AllocError>
    ensures { OnOk result (Adds out.old out.new (place_tokens (view_place place.now))) }
{
    match place {
        Place::Trim(interval) => put_interval(out, interval),
        Place::At(position) => put_expr(out, position),
    }
}

#[cycle(printing)]
fn put_interval(out: &mut String, interval: &Interval) -> Result<(), AllocError>
    ensures { OnOk result (Adds out.old out.new (interval_tokens (view_interval interval.now))) }
{
    match interval {
        Interval::Bounds(low, high) => {
            put_int(out, *low)?;
            put_symbol(out, Symbol::Colon)?;
            put_int(out, *high)
        }
        Interval::Domain(value, axis) => {
            put_word(out, Keyword::ImageCrsDomain)?;
            put_symbol(out, Symbol::LeftParen)?;
            put_expr(out, value)?;
            put_symbol(out, Symbol::Comma)?;
            put_name(out, axis)?;
            put_symbol(out, Symbol::RightParen)
        }
    }
}

#[cycle(printing)]
fn put_iters(out: &mut String, iterators: &[Iter]) -> Result<(), AllocError>
    ensures { OnOk result (Adds out.old out.new (iters_tokens true (iters_of iterators.now))) }
{
    let mut is_first = true;
    for iterator in iterators {
        put_separator(out, is_first, Symbol::Comma)?;
        is_first = false;
        put_name(out, &iterator.variable)?;
        put_name(out, &iterator.axis)?;
        put_symbol(out, Symbol::LeftParen)?;
        put_interval(out, &iterator.interval)?;
        put_symbol(out, Symbol::RightParen)?;
    }
    Ok(())
}

/// The words before what a coverage holds. Its name has no effect: any one serves.
#[cycle(printing)]
fn put_head(out: &mut String, iterators: &[Iter]) -> Result<(), AllocError>
    ensures { OnOk result (Adds out.old out.new (λ rest. head_tokens (iters_tokens true (iters_of iterators.now) rest))) }
{
    put_word(out, Keyword::Coverage)?;
    put_any_name(out)?;
    put_word(out, Keyword::Over)?;
    put_iters(out, iterators)
}

#[cycle(printing)]
fn put_value_list(
    out: &mut String,
    iterators: &[Iter],
    items: &[ListItem],
) -> Result<(), AllocError>
    ensures { OnOk result (Adds out.old out.new (expr_tokens (tree.value_list (iters_of iterators.now) items.now))) }
{
    put_head(out, iterators)?;
    put_word(out, Keyword::Value)?;
    put_word(out, Keyword::List)?;
    put_symbol(out, Symbol::Less)?;
    put_items(out, items)?;
    put_symbol(out, Symbol::Greater)
}

fn put_items(out: &mut String, items: &[ListItem]) -> Result<(), AllocError>
    ensures { OnOk result (Adds out.old out.new (items_tokens true items.now)) }
{
    let mut is_first = true;
    for item in items {
        put_separator(out, is_first, Symbol::Semicolon)?;
        is_first = false;
        put_item(out, *item)?;
    }
    Ok(())
}

fn put_item(out: &mut String, item: ListItem) -> Result<(), AllocError>
    ensures { OnOk result (Adds out.old out.new (items_tokens true (item ∷ []))) }
{
    match item {
        ListItem::Int(int) => put_int(out, int),
        ListItem::Truth(truth) => put_truth(out, truth),
    }
}
