//! The names of outcomes, operations and condensers.

use anyhow::{Result, bail};
use std::alloc::{AllocError, Global};
use wcps_mean::{Outcome, PointFault};
use wcps_text::{Aggregate, BinaryOperator, UnaryOperator};

/// A number, or a fault by its name.
pub fn outcome(word: &str) -> Result<Outcome> {
    Ok(Outcome::Fault(match word {
        "Overflow" => PointFault::Overflow,
        "DivideByZero" => PointFault::DivideByZero,
        "OutOfDomain" => PointFault::OutOfDomain,
        "EmptyCondense" => PointFault::EmptyCondense,
        "BadBit" => PointFault::BadBit,
        _ => return Ok(Outcome::Value(word.parse::<i64>()?)),
    }))
}

/// An outcome as `outcome` reads it.
pub fn shown(alloc: Global, outcome: Outcome) -> Result<String, AllocError> {
    let name = match outcome {
        Outcome::Value(number) => return format!(in alloc; "{number}"),
        Outcome::Fault(PointFault::Overflow) => "Overflow",
        Outcome::Fault(PointFault::DivideByZero) => "DivideByZero",
        Outcome::Fault(PointFault::OutOfDomain) => "OutOfDomain",
        Outcome::Fault(PointFault::EmptyCondense) => "EmptyCondense",
        Outcome::Fault(PointFault::BadBit) => "BadBit",
    };
    String::from_str(alloc, name)
}

pub fn binary(word: &str) -> Result<BinaryOperator> {
    Ok(match word {
        "*" => BinaryOperator::Multiply,
        "/" => BinaryOperator::Divide,
        "+" => BinaryOperator::Add,
        "-" => BinaryOperator::Subtract,
        "<" => BinaryOperator::Less,
        "<=" => BinaryOperator::LessEqual,
        ">" => BinaryOperator::Greater,
        ">=" => BinaryOperator::GreaterEqual,
        "=" => BinaryOperator::Equal,
        "!=" => BinaryOperator::NotEqual,
        "and" => BinaryOperator::And,
        "or" => BinaryOperator::Or,
        "xor" => BinaryOperator::Xor,
        "bit" => BinaryOperator::Bit,
        _ => bail!("no operation {word}"),
    })
}

pub fn unary(word: &str) -> Result<UnaryOperator> {
    Ok(match word {
        "-" => UnaryOperator::Negate,
        "+" => UnaryOperator::Plus,
        "not" => UnaryOperator::Not,
        "abs" => UnaryOperator::Absolute,
        _ => bail!("no operation {word}"),
    })
}

pub fn aggregate(word: &str) -> Result<Aggregate> {
    Ok(match word {
        "sum" => Aggregate::Sum,
        "product" => Aggregate::Product,
        "greatest" => Aggregate::Greatest,
        "least" => Aggregate::Least,
        "every" => Aggregate::Every,
        "any" => Aggregate::Any,
        "count" => Aggregate::Count,
        "average" => Aggregate::Average,
        _ => bail!("no condenser {word}"),
    })
}

/// The word of a condenser.
pub fn condenser(op: Aggregate) -> &'static str {
    match op {
        Aggregate::Sum => "sum",
        Aggregate::Product => "product",
        Aggregate::Greatest => "greatest",
        Aggregate::Least => "least",
        Aggregate::Every => "every",
        Aggregate::Any => "any",
        Aggregate::Count => "count",
        Aggregate::Average => "average",
    }
}
