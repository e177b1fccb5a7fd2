//! Single tokens, a space behind each: so the text is cut into just these tokens again.

ghost use Rattle.std.specs.Prelude.{◌≡◌, ◌++◌, ◌∷◌, ◌<◌, [], codes, string_bytes, OnOk};
ghost use Rattle.wcps_text.specs.Grammar.{binary_token, truth_word};
ghost use Rattle.wcps_text.specs.Token as tokens;
ghost use Rattle.wcps_text.specs.Token.{sign, word};
ghost use Rattle.wcps_print.specs.Printing.{int_tokens, name_token, separator, unary_token, reduce_token, condense_token, Adds};

use arr_core::Keyword;
use itoa::Buffer;
use std::alloc::AllocError;
use wcps_text::{Aggregate, BinaryOperator, QueryName, Symbol, UnaryOperator};

fn put(out: &mut String, text: &str) -> Result<(), AllocError>
    ensures { OnOk result (string_bytes out.new ≡ string_bytes out.old ++ text.now ++ 32 ∷ []) }
{
    out.push_str(text)?;
    out.push(' ')
}

/// A symbol.
pub fn put_symbol(out: &mut String, symbol: Symbol) -> Result<(), AllocError>
    ensures { OnOk result (Adds out.old out.new (λ rest. sign symbol ∷ rest)) }
{
    put(out, symbol.text())
}

/// A symbol before each thing of a list but the first.
pub fn put_separator(out: &mut String, is_first: bool, symbol: Symbol) -> Result<(), AllocError>
    ensures { OnOk result (Adds out.old out.new (separator is_first symbol)) }
{
    if is_first {
        return Ok(());
    }
    put_symbol(out, symbol)
}

/// A word of the language.
pub fn put_word(out: &mut String, word: Keyword) -> Result<(), AllocError>
    ensures { OnOk result (Adds out.old out.new (λ rest. tokens.word word ∷ rest)) }
{
    put(out, word.text())
}

/// A name, with its `$` where it has one.
pub fn put_name(out: &mut String, name: &QueryName) -> Result<(), AllocError>
    ensures { OnOk result (Adds out.old out.new (λ rest. name_token name.now ∷ rest)) }
{
    put(out, name.as_str())
}

/// A name of a coverage whose name has no effect: any one serves.
pub fn put_any_name(out: &mut String) -> Result<(), AllocError>
    ensures { OnOk result (Adds out.old out.new (λ rest. tokens.name (codes "c") ∷ rest)) }
{
    put(out, "c")
}

/// A number without a sign.
pub fn put_number(out: &mut String, number: u64) -> Result<(), AllocError>
    ensures { OnOk result (Adds out.old out.new (λ rest. tokens.number number ∷ rest)) }
{
    let mut buffer = Buffer::new();
    put(out, buffer.format(number))
}

/// A number with a sign where it is negative.
pub fn put_int(out: &mut String, int: i64) -> Result<(), AllocError>
    ensures { OnOk result (Adds out.old out.new (int_tokens int)) }
{
    if int < 0 {
        put_symbol(out, Symbol::Minus)?;
        return put_number(out, int.unsigned_abs());
    }
    put_number(out, int.unsigned_abs())
}

/// `true` or `false`.
pub fn put_truth(out: &mut String, truth: bool) -> Result<(), AllocError>
    ensures { OnOk result (Adds out.old out.new (λ rest. word (truth_word truth) ∷ rest)) }
{
    if truth {
        put_word(out, Keyword::True)
    } else {
        put_word(out, Keyword::False)
    }
}

/// An operator before its operand.
pub fn put_unary_op(out: &mut String, op: UnaryOperator) -> Result<(), AllocError>
    ensures { OnOk result (Adds out.old out.new (λ rest. unary_token op ∷ rest)) }
{
    match op {
        UnaryOperator::Negate => put_symbol(out, Symbol::Minus),
        UnaryOperator::Plus => put_symbol(out, Symbol::Plus),
        UnaryOperator::Not => put_word(out, Keyword::Not),
        UnaryOperator::Absolute => put_word(out, Keyword::Abs),
    }
}

/// The token of an operator on two operands.
pub fn put_binary(out: &mut String, op: BinaryOperator) -> Result<(), AllocError>
    ensures { OnOk result (Adds out.old out.new (λ rest. binary_token op ∷ rest)) }
{
    match op {
        BinaryOperator::Multiply => put_symbol(out, Symbol::Star),
        BinaryOperator::Divide => put_symbol(out, Symbol::Slash),
        BinaryOperator::Add => put_symbol(out, Symbol::Plus),
        BinaryOperator::Subtract => put_symbol(out, Symbol::Minus),
        BinaryOperator::Less => put_symbol(out, Symbol::Less),
        BinaryOperator::LessEqual => put_symbol(out, Symbol::LessEqual),
        BinaryOperator::Greater => put_symbol(out, Symbol::Greater),
        BinaryOperator::GreaterEqual => put_symbol(out, Symbol::GreaterEqual),
        BinaryOperator::Equal => put_symbol(out, Symbol::Equal),
        BinaryOperator::NotEqual => put_symbol(out, Symbol::NotEqual),
        BinaryOperator::And => put_word(out, Keyword::And),
        BinaryOperator::Or => put_word(out, Keyword::Or),
        BinaryOperator::Xor => put_word(out, Keyword::Xor),
        BinaryOperator::Bit => put_word(out, Keyword::Bit),
    }
}

/// A reduction's word. No query is spelled with a product of all values: its sign stands there.
pub fn put_reduce(out: &mut String, op: Aggregate) -> Result<(), AllocError>
    ensures { OnOk result (Adds out.old out.new (λ rest. reduce_token op ∷ rest)) }
{
    match op {
        Aggregate::Sum => put_word(out, Keyword::Add),
        Aggregate::Product => put_symbol(out, Symbol::Star),
        Aggregate::Greatest => put_word(out, Keyword::Max),
        Aggregate::Least => put_word(out, Keyword::Min),
        Aggregate::Every => put_word(out, Keyword::All),
        Aggregate::Any => put_word(out, Keyword::Some),
        Aggregate::Count => put_word(out, Keyword::Count),
        Aggregate::Average => put_word(out, Keyword::Avg),
    }
}

/// What a condenser joins its values by. No query is spelled with a count or an average there: their words stand there.
pub fn put_condense(out: &mut String, op: Aggregate) -> Result<(), AllocError>
    ensures { OnOk result (Adds out.old out.new (λ rest. condense_token op ∷ rest)) }
{
    match op {
        Aggregate::Sum => put_symbol(out, Symbol::Plus),
        Aggregate::Product => put_symbol(out, Symbol::Star),
        Aggregate::Greatest => put_word(out, Keyword::Max),
        Aggregate::Least => put_word(out, Keyword::Min),
        Aggregate::Every => put_word(out, Keyword::And),
        Aggregate::Any => put_word(out, Keyword::Or),
        Aggregate::Count => put_word(out, Keyword::Count),
        Aggregate::Average => put_word(out, Keyword::Avg),
    }
}
