//! Texts, their tokens, their trees and their types.

use crate::answers::{check_refusal, say_made};
use anyhow::Result;
use arr_core::{Refusal, Signature};
use std::alloc::{AllocError, Global};
use test_rows::{Answer, cut_at};
use wcps_parse::parse;
use wcps_print::print;
use wcps_text::{Query, Token, lex};
use wcps_types::{TypedQuery, check, work};

/// The query of a text, or its refusal.
fn read(alloc: Global, text: &str) -> Result<Query, Refusal> {
    match lex(alloc, text) {
        Ok(tokens) => parse(alloc, &tokens).map_err(|error| error.refusal()),
        Err(error) => Err(error.refusal()),
    }
}

/// The typed query of a text, or its refusal.
pub fn typed(alloc: Global, signatures: &[Signature], text: &str) -> Result<TypedQuery, Refusal> {
    let query = read(alloc, text)?;
    check(alloc, signatures, query).map_err(|error| check_refusal(&error))
}

/// The place and the bytes of a token, as `0:a`.
fn say_token(answer: &mut Answer, token: &Token<'_>) {
    if !answer.as_str().is_empty() {
        answer.say(" ");
    }
    answer.count(token.start as u64);
    answer.say(":");
    answer.say(token.text);
}

fn say_each(answer: &mut Answer, tokens: &[Token<'_>]) {
    for token in tokens {
        say_token(answer, token);
    }
}

/// The place and the bytes of each token, as `0:a 1:<=`.
pub fn say_tokens(alloc: Global, answer: &mut Answer, text: &str) {
    match lex(alloc, text) {
        Ok(tokens) => say_each(answer, &tokens),
        Err(error) => answer.refusal(error.refusal().number()),
    }
}

/// Whether a text is a query.
pub fn say_parsed(alloc: Global, answer: &mut Answer, text: &str) {
    match read(alloc, text) {
        Ok(_) => answer.say("ok"),
        Err(refusal) => answer.refusal(refusal.number()),
    }
}

/// A query that returns an expression.
fn returning(alloc: Global, expression: &str) -> Result<String, AllocError> {
    let text = format!(in alloc; "for c in (lai) return {expression}")?;
    Ok(text)
}

/// The tree of what a query returns, or its refusal.
fn say_item(alloc: Global, answer: &mut Answer, text: &str) {
    match read(alloc, text) {
        Ok(query) => say_made(answer, format!(in alloc; "{:?}", query.item)),
        Err(refusal) => answer.refusal(refusal.number()),
    }
}

/// The tree of what `for c in (lai) return` such an expression returns.
pub fn say_tree(alloc: Global, answer: &mut Answer, expression: &str) -> Result<()> {
    say_item(alloc, answer, returning(alloc, expression)?.as_str());
    Ok(())
}

/// The tree of a query, or its refusal.
fn say_query(alloc: Global, answer: &mut Answer, text: &str) {
    match read(alloc, text) {
        Ok(query) => say_made(answer, format!(in alloc; "{query:?}")),
        Err(refusal) => answer.refusal(refusal.number()),
    }
}

/// Whether two queries have one tree; both trees where they differ.
fn compare(alloc: Global, answer: &mut Answer, one: &str, other: &str) {
    let mut first = Answer::new(alloc);
    say_query(alloc, &mut first, one);
    let mut second = Answer::new(alloc);
    say_query(alloc, &mut second, other);
    if first.as_str() == second.as_str() {
        return answer.yes(true);
    }
    answer.say(first.as_str());
    answer.say(" and ");
    answer.say(second.as_str());
}

/// Whether two expressions with `|` between them have one tree.
pub fn say_alike(alloc: Global, answer: &mut Answer, expressions: &str) -> Result<()> {
    let (one, other) = cut_at(expressions, '|');
    let one = returning(alloc, one)?;
    let other = returning(alloc, other)?;
    compare(alloc, answer, one.as_str(), other.as_str());
    Ok(())
}

/// The text that a query is printed as, or its refusal.
fn printed(alloc: Global, text: &str) -> Result<String, Refusal> {
    let query = read(alloc, text)?;
    print(alloc, &query).map_err(|_| Refusal::NoMemory)
}

/// Whether the text that a query is printed as is read as the same query.
pub fn say_printed(alloc: Global, answer: &mut Answer, text: &str) {
    match printed(alloc, text) {
        Ok(printed) => compare(alloc, answer, text, printed.as_str()),
        Err(refusal) => answer.refusal(refusal.number()),
    }
}

/// The work of a query, or its refusal.
pub fn say_work(alloc: Global, answer: &mut Answer, signatures: &[Signature], text: &str) {
    match typed(alloc, signatures, text) {
        Ok(query) => answer.count(work(&query)),
        Err(refusal) => answer.refusal(refusal.number()),
    }
}
