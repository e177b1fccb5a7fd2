//! Reads a query, to time how queries are read.
//!
//! Its words are how often, `syntax` or `typed`, and the query. The line says what was found.

mod coverages;

use anyhow::{Result, bail};
use arr_core::Signature;
use coverages::coverages;
use std::alloc::Global;
use wcps_parse::{ParseError, parse};
use wcps_text::lex;
use wcps_types::{CheckError, TypedQuery, check};

/// How far a query is read.
#[derive(Clone, Copy)]
enum Reading {
    Syntax,
    Types,
}

fn reading_of(word: &str) -> Result<Reading> {
    Ok(match word {
        "syntax" => Reading::Syntax,
        "typed" => Reading::Types,
        _ => bail!("no reading {word}"),
    })
}

/// What the types of a query were found to be.
fn found(typed: Result<TypedQuery, CheckError>) -> &'static str {
    match typed {
        Ok(_typed) => "a typed query",
        Err(CheckError::Refused(_)) => "refused by its types",
        Err(CheckError::NoMemory) => "no memory",
    }
}

/// What one reading found.
fn read_once(
    alloc: Global,
    text: &str,
    signatures: &[Signature],
    reading: Reading,
) -> &'static str {
    match lex(alloc, text) {
        Err(_) => "no tokens",
        Ok(tokens) => match parse(alloc, &tokens) {
            Err(ParseError::TooDeep) => "too deep",
            Err(_) => "no query",
            Ok(query) => match reading {
                Reading::Syntax => "a query",
                Reading::Types => found(check(alloc, signatures, query)),
            },
        },
    }
}

/// What the words ask for.
pub fn run(alloc: Global, words: &[String]) -> Result<String> {
    let [rounds, how, text @ ..] = words else {
        bail!("words: query ROUNDS syntax|typed QUERY");
    };
    let rounds = rounds.parse::<u32>()?;
    let how = reading_of(how.as_str())?;
    let text = text.join(alloc, " ")?;
    let signatures = coverages(alloc)?;
    let mut found = "nothing";
    for _ in 0..rounds {
        found = read_once(alloc, text.as_str(), &signatures, how);
    }
    Ok(String::from_str(alloc, found)?)
}
