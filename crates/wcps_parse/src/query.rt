//! Whole queries.

ghost use Rattle.std.specs.Prelude.{◌≡◌, ℕ, ◌<◌, ◌≤◌, length, IfOk, IfErr, List};
ghost use Rattle.wcps_text.specs.declared.error.LexError.{LexError};
ghost use Rattle.wcps_text.specs.Token.{Tok, toks};
ghost use Rattle.wcps_text.specs.Lexing.{Piece, Lexed, Refused};
ghost use Rattle.wcps_text.specs.Tree.{QueryTree, binding_view, bindings_of, query_view};
ghost use Rattle.wcps_text.specs.Limits.{max_height, query_height};
ghost use Rattle.wcps_text.specs.Grammar.{IsSpelled};
ghost use Rattle.wcps_parse.specs.Reading.{level, names, binding_at, bindings, encoded, item, query};
ghost use Rattle.wcps_parse.specs.Fit.{Gives, ReadsAll};
ghost use Rattle.wcps_parse.specs.Kinds.{FitItem, FitQuery};
ghost use Rattle.wcps_parse.specs.Outcome.{IsWithinLimits, IsTooDeep};
ghost use Rattle.wcps_parse.specs.declared.error.ParseError.TheVariants.{BadSyntax, TooDeep};

use crate::error::ParseError;
use crate::expression::{MAX_RANK, condition, level};
use crate::front::{format_at, name_at, sign_at, variable_at, word_at};
use crate::grown;
use crate::grown::Grown;
use crate::limits::is_too_deep;
use arr_core::Keyword;
use std::alloc::Global;
use wcps_text::{Binding, Item, Query, QueryName, Symbol, Token};

/// The query that the tokens spell, all of them.
///
/// More brackets open at once, or more words `condense` and `coverage`, than there may be are `TooDeep`; then tokens
/// that spell no query are `BadSyntax`; then a query with an expression that is too high is `TooDeep`.
pub fn parse(alloc: Global, tokens: &[Token]) -> Result<Query, ParseError>
    ensures within { IfOk result (λ q. IsWithinLimits (toks tokens.now)) }
    ensures spelled { IfOk result (λ q. IsSpelled (toks tokens.now) (query_view q)) }
    ensures only { IfOk result (λ q. (p : QueryTree) → IsSpelled (toks tokens.now) p → p ≡ query_view q) }
    ensures low { IfOk result (λ q. query_height (query_view q) ≤ max_height) }
    ensures syntax { IfErr result (λ e. e ≡ BadSyntax → IsWithinLimits (toks tokens.now)) }
    ensures no_query { IfErr result (λ e. e ≡ BadSyntax → (p : QueryTree) → IsSpelled (toks tokens.now) p → ⊥) }
    ensures deep { IfErr result (λ e. e ≡ TooDeep → IsTooDeep (toks tokens.now)) }
{
    if is_too_deep(tokens) {
        return Err(ParseError::TooDeep);
    }
    match query(alloc, tokens)? {
        Grown::Fits(query, _) => Ok(query),
        Grown::High => Err(ParseError::TooDeep),
    }
}

fn query(alloc: Global, tokens: &[Token]) -> Result<Grown<Query>, ParseError>
    ensures { ReadsAll FitQuery result (λ n m. query n m (level n) (toks tokens.now)) }
{
    let Some(rest) = word_at(Keyword::For, tokens) else {
        return Err(ParseError::BadSyntax);
    };
    let (bindings, rest) = bindings(alloc, rest)?;
    let (condition, rest) = condition(alloc, rest)?;
    let Some(rest) = word_at(Keyword::Return, rest) else {
        return Err(ParseError::BadSyntax);
    };
    let item = item(alloc, rest)?;
    Ok(grown::query(bindings, condition, item))
}

/// What a query returns, to the end.
fn item(alloc: Global, tokens: &[Token]) -> Result<Grown<Item>, ParseError>
    ensures { ReadsAll FitItem result (λ n m. item (level n) (toks tokens.now)) }
{
    if let Some(rest) = word_at(Keyword::Encode, tokens) {
        return encoded(alloc, rest);
    }
    let (value, rest) = level(alloc, MAX_RANK, tokens)?;
    if !rest.is_empty() {
        return Err(ParseError::BadSyntax);
    }
    Ok(grown::plain(value))
}

/// What follows the word `encode`, to the end.
fn encoded(alloc: Global, tokens: &[Token]) -> Result<Grown<Item>, ParseError>
    ensures { ReadsAll FitItem result (λ n m. encoded (level n) (toks tokens.now)) }
{
    let Some(rest) = sign_at(Symbol::LeftParen, tokens) else {
        return Err(ParseError::BadSyntax);
    };
    let (value, rest) = level(alloc, MAX_RANK, rest)?;
    let Some(rest) = sign_at(Symbol::Comma, rest) else {
        return Err(ParseError::BadSyntax);
    };
    let Some(rest) = format_at(rest) else {
        return Err(ParseError::BadSyntax);
    };
    let Some(rest) = sign_at(Symbol::RightParen, rest) else {
        return Err(ParseError::BadSyntax);
    };
    if !rest.is_empty() {
        return Err(ParseError::BadSyntax);
    }
    Ok(grown::encode(value))
}

/// Bindings with commas between them.
fn bindings<'t, 'a>(
    alloc: Global,
    tokens: &'t [Token<'a>],
) -> Result<(Vec<Binding>, &'t [Token<'a>]), ParseError>
    ensures exact { Gives (λ x. (bindings_of x.0.items, toks x.1.now)) result (λ n m. bindings n m (toks tokens.now)) }
    ensures shorter { IfOk result (λ x. length x.1.now < length tokens.now) }
{
    let (first, mut rest) = binding_at(alloc, tokens)?;
    let mut list = Vec::new(alloc);
    list.push(first)?;
    while let Some(next) = sign_at(Symbol::Comma, rest) {
        let (one, after) = binding_at(alloc, next)?;
        list.push(one)?;
        rest = after;
    }
    Ok((list, rest))
}

fn binding_at<'t, 'a>(
    alloc: Global,
    tokens: &'t [Token<'a>],
) -> Result<(Binding, &'t [Token<'a>]), ParseError>
    ensures exact { Gives (λ x. (binding_view x.0, toks x.1.now)) result (λ n m. binding_at m (toks tokens.now)) }
    ensures shorter { IfOk result (λ x. length x.1.now < length tokens.now) }
{
    let Some((variable, rest)) = variable_at(tokens) else {
        return Err(ParseError::BadSyntax);
    };
    let Some(rest) = word_at(Keyword::In, rest) else {
        return Err(ParseError::BadSyntax);
    };
    let Some(rest) = sign_at(Symbol::LeftParen, rest) else {
        return Err(ParseError::BadSyntax);
    };
    let (coverages, rest) = names(alloc, rest)?;
    let Some(rest) = sign_at(Symbol::RightParen, rest) else {
        return Err(ParseError::BadSyntax);
    };
    let variable = QueryName::new(alloc, variable)?;
    let whole = Binding {
        variable,
        coverages,
    };
    Ok((whole, rest))
}

/// Names with commas between them.
fn names<'t, 'a>(
    alloc: Global,
    tokens: &'t [Token<'a>],
) -> Result<(Vec<QueryName>, &'t [Token<'a>]), ParseError>
    ensures exact { Gives (λ x. (x.0.items, toks x.1.now)) result (λ n m. names m (toks tokens.now)) }
    ensures shorter { IfOk result (λ x. length x.1.now < length tokens.now) }
{
    let Some((first, mut rest)) = name_at(tokens) else {
        return Err(ParseError::BadSyntax);
    };
    let mut list = Vec::new(alloc);
    list.push(QueryName::new(alloc, first)?)?;
    while let Some(next) = sign_at(Symbol::Comma, rest) {
        let Some((one, after)) = name_at(next) else {
            return Err(ParseError::BadSyntax);
        };
        list.push(QueryName::new(alloc, one)?)?;
        rest = after;
    }
    Ok((list, rest))
}

/// No tokens spell two queries.
pub fn one_query()
    ensures { (ts : List Tok) (p q : QueryTree) → IsSpelled ts p → IsSpelled ts q → p ≡ q }
{}

/// A text has one list of tokens, or one first refusal, and not both.
pub fn one_reading()
    ensures tokens { (text : List ℕ) (ps qs : List Piece) → Lexed 0 text ps → Lexed 0 text qs → ps ≡ qs }
    ensures refusal { (text : List ℕ) (e f : LexError) → Refused text e → Refused text f → e ≡ f }
    ensures apart { (text : List ℕ) (ps : List Piece) (e : LexError) → Lexed 0 text ps → Refused text e → ⊥ }
{}
