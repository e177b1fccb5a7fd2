//! What the words of a run stand for.

use crate::kernel::cells::Data;
use anyhow::{Result, bail};
use wcps_text::{Aggregate, BinaryOperator, UnaryOperator};

pub fn data(word: &str) -> Result<Data> {
    Ok(match word {
        "constant" => Data::Constant,
        "noise" => Data::Noise,
        "wide" => Data::Wide,
        "faults" => Data::Faults,
        _ => bail!("no data {word}"),
    })
}

pub fn operation(word: &str) -> Result<BinaryOperator> {
    Ok(match word {
        "*" => BinaryOperator::Multiply,
        "/" => BinaryOperator::Divide,
        "+" => BinaryOperator::Add,
        "-" => BinaryOperator::Subtract,
        "<" => BinaryOperator::Less,
        "<=" => BinaryOperator::LessEqual,
        ">" => BinaryOperator::Greater,
        ">=" => BinaryOperator::GreaterEqual,
        "=" => BinaryOperator::Equal,
        "!=" => BinaryOperator::NotEqual,
        "and" => BinaryOperator::And,
        "or" => BinaryOperator::Or,
        "xor" => BinaryOperator::Xor,
        "bit" => BinaryOperator::Bit,
        _ => bail!("no operation {word}"),
    })
}

pub fn operation_on_one(word: &str) -> Result<UnaryOperator> {
    Ok(match word {
        "negate" => UnaryOperator::Negate,
        "plus" => UnaryOperator::Plus,
        "not" => UnaryOperator::Not,
        "abs" => UnaryOperator::Absolute,
        _ => bail!("no operation {word}"),
    })
}

pub fn aggregate(word: &str) -> Result<Aggregate> {
    Ok(match word {
        "sum" => Aggregate::Sum,
        "product" => Aggregate::Product,
        "greatest" => Aggregate::Greatest,
        "least" => Aggregate::Least,
        "every" => Aggregate::Every,
        "any" => Aggregate::Any,
        "count" => Aggregate::Count,
        "average" => Aggregate::Average,
        _ => bail!("no condenser {word}"),
    })
}
