//! What stands at the front of the tokens. Each function gives what it found and the tokens behind it.

ghost use Rattle.std.specs.Prelude.{◌≡◌, ◌<◌, length, IfSome, option_map, List, ℕ};
ghost use Rattle.wcps_text.specs.Grammar.{rank_of};
ghost use Rattle.wcps_text.specs.Token.{tok_at, toks};
ghost use Rattle.wcps_text.specs.Tree.{view_interval};
ghost use Rattle.wcps_text.specs.Limits.{interval_height};
ghost use Rattle.wcps_parse.specs.Front.{sign_at, word_at, name_at, variable_at, literal_at, int_at, bounds_at, item_at, prefix_at, operator, binary_at, condenser_at, postfix_at, begin_of, start_at, is_csv, format_at};

use arr_core::Keyword;
use wcps_text::{
    Aggregate, BinaryOperator, Interval, Kind, ListItem, Literal, Symbol, Token, UnaryOperator,
};

/// How an expression without an operator before it begins.
pub enum Start<'a> {
    Number(Literal),
    Truth(bool),
    Variable(&'a str),
    Paren,
    Brace,
    Abs,
    Bit,
    Reduce(Aggregate),
    Coverage,
    Condense,
}

/// How an expression goes on behind one that is whole.
#[derive(Clone, Copy)]
pub enum Postfix {
    Field,
    Brackets,
}

/// The symbol.
#[tactic(auto, unfolding(crate::specs::Front::sign_at))]
pub fn sign_at<'t, 'a>(symbol: Symbol, tokens: &'t [Token<'a>]) -> Option<&'t [Token<'a>]>
    ensures value { sign_at symbol (toks tokens.now) ≡ option_map (λ rest. toks rest.now) result }
    ensures shorter { IfSome result (λ rest. length rest.now < length tokens.now) }
{
    let (first, rest) = tokens.split_first()?;
    match first.kind {
        Kind::Symbol(found) if found == symbol => Some(rest),
        _ => None,
    }
}

/// The word.
#[tactic(auto, unfolding(crate::specs::Front::word_at))]
pub fn word_at<'t, 'a>(word: Keyword, tokens: &'t [Token<'a>]) -> Option<&'t [Token<'a>]>
    ensures value { word_at word (toks tokens.now) ≡ option_map (λ rest. toks rest.now) result }
    ensures shorter { IfSome result (λ rest. length rest.now < length tokens.now) }
{
    let (first, rest) = tokens.split_first()?;
    match first.kind {
        Kind::Keyword(found) if found == word => Some(rest),
        _ => None,
    }
}

/// A name without `$`.
#[tactic(auto, unfolding(crate::specs::Front::name_at))]
pub fn name_at<'t, 'a>(tokens: &'t [Token<'a>]) -> Option<(&'a str, &'t [Token<'a>])>
    ensures value { name_at (toks tokens.now) ≡ option_map (λ x. (x.0.now, toks x.1.now)) result }
    ensures shorter { IfSome result (λ x. length x.1.now < length tokens.now) }
{
    let (first, rest) = tokens.split_first()?;
    match first.kind {
        Kind::Name => Some((first.text, rest)),
        _ => None,
    }
}

/// A name with or without `$`.
#[tactic(auto, unfolding(crate::specs::Front::variable_at))]
pub fn variable_at<'t, 'a>(tokens: &'t [Token<'a>]) -> Option<(&'a str, &'t [Token<'a>])>
    ensures value { variable_at (toks tokens.now) ≡ option_map (λ x. (x.0.now, toks x.1.now)) result }
    ensures shorter { IfSome result (λ x. length x.1.now < length tokens.now) }
{
    let (first, rest) = tokens.split_first()?;
    match first.kind {
        Kind::Name | Kind::Variable => Some((first.text, rest)),
        _ => None,
    }
}

#[tactic(auto, unfolding(crate::specs::Front::literal_at))]
fn literal_at<'t, 'a>(tokens: &'t [Token<'a>]) -> Option<(Literal, &'t [Token<'a>])>
    ensures value { literal_at (toks tokens.now) ≡ option_map (λ x. (x.0.value, toks x.1.now)) result }
    ensures shorter { IfSome result (λ x. length x.1.now < length tokens.now) }
{
    let (first, rest) = tokens.split_first()?;
    match first.kind {
        Kind::Number(literal) => Some((literal, rest)),
        _ => None,
    }
}

/// A number with its sign.
#[tactic(auto, unfolding(crate::specs::Front::int_at, crate::specs::Front::literal_at))]
pub fn int_at<'t, 'a>(tokens: &'t [Token<'a>]) -> Option<(i64, &'t [Token<'a>])>
    ensures value { int_at (toks tokens.now) ≡ option_map (λ x. (x.0, toks x.1.now)) result }
    ensures shorter { IfSome result (λ x. length x.1.now < length tokens.now) }
{
    let (first, rest) = tokens.split_first()?;
    match first.kind {
        Kind::Number(literal) => Some((literal.value as i64, rest)),
        Kind::Symbol(Symbol::Plus) => {
            let (literal, rest) = literal_at(rest)?;
            Some((literal.value as i64, rest))
        }
        Kind::Symbol(Symbol::Minus) => {
            let (literal, rest) = literal_at(rest)?;
            Some((0 - literal.value as i64, rest))
        }
        _ => None,
    }
}

/// Two numbers with a colon between them.
#[tactic(auto, unfolding(crate::specs::Front::bounds_at))]
pub fn bounds_at<'t, 'a>(tokens: &'t [Token<'a>]) -> Option<(Interval, &'t [Token<'a>])>
    ensures value { bounds_at (toks tokens.now) ≡ option_map (λ x. (view_interval x.0, toks x.1.now)) result }
    ensures flat { IfSome result (λ x. interval_height (view_interval x.0) ≡ 0) }
    ensures shorter { IfSome result (λ x. length x.1.now < length tokens.now) }
{
    let (low, rest) = int_at(tokens)?;
    let rest = sign_at(Symbol::Colon, rest)?;
    let (high, rest) = int_at(rest)?;
    Some((Interval::Bounds(low, high), rest))
}

/// One value of a value list.
#[tactic(auto, unfolding(crate::specs::Front::item_at, crate::specs::Front::truth_at, crate::specs::Front::int_at))]
pub fn item_at<'t, 'a>(tokens: &'t [Token<'a>]) -> Option<(ListItem, &'t [Token<'a>])>
    ensures value { item_at (toks tokens.now) ≡ option_map (λ x. (x.0, toks x.1.now)) result }
    ensures shorter { IfSome result (λ x. length x.1.now < length tokens.now) }
{
    if let Some((int, rest)) = int_at(tokens) {
        return Some((ListItem::Int(int), rest));
    }
    let (first, rest) = tokens.split_first()?;
    match first.kind {
        Kind::Keyword(Keyword::True) => Some((ListItem::Truth(true), rest)),
        Kind::Keyword(Keyword::False) => Some((ListItem::Truth(false), rest)),
        _ => None,
    }
}

/// An operator that stands before its operand.
#[tactic(auto, unfolding(crate::specs::Front::prefix_at))]
pub fn prefix_at<'t, 'a>(tokens: &'t [Token<'a>]) -> Option<(UnaryOperator, &'t [Token<'a>])>
    ensures value { prefix_at (toks tokens.now) ≡ option_map (λ x. (x.0, toks x.1.now)) result }
    ensures shorter { IfSome result (λ x. length x.1.now < length tokens.now) }
{
    let (first, rest) = tokens.split_first()?;
    match first.kind {
        Kind::Symbol(Symbol::Minus) => Some((UnaryOperator::Negate, rest)),
        Kind::Symbol(Symbol::Plus) => Some((UnaryOperator::Plus, rest)),
        Kind::Keyword(Keyword::Not) => Some((UnaryOperator::Not, rest)),
        _ => None,
    }
}

/// How loosely an operator binds: `* /`, then `+ -`, then comparisons, then `and`, then `or xor`; 0 if it is no
/// operator between operands.
pub fn rank_of(op: BinaryOperator) -> u8
    ensures { result ≡ rank_of op }
{
    match op {
        BinaryOperator::Multiply | BinaryOperator::Divide => 1,
        BinaryOperator::Add | BinaryOperator::Subtract => 2,
        BinaryOperator::Less
        | BinaryOperator::LessEqual
        | BinaryOperator::Greater
        | BinaryOperator::GreaterEqual
        | BinaryOperator::Equal
        | BinaryOperator::NotEqual => 3,
        BinaryOperator::And => 4,
        BinaryOperator::Or | BinaryOperator::Xor => 5,
        BinaryOperator::Bit => 0,
    }
}

fn operator_of(kind: Kind) -> Option<BinaryOperator>
    ensures value { (text : List ℕ) → operator (tok_at kind text) ≡ result }
    ensures ranked { IfSome result (λ op. 0 < rank_of op) }
{
    match kind {
        Kind::Symbol(Symbol::Star) => Some(BinaryOperator::Multiply),
        Kind::Symbol(Symbol::Slash) => Some(BinaryOperator::Divide),
        Kind::Symbol(Symbol::Plus) => Some(BinaryOperator::Add),
        Kind::Symbol(Symbol::Minus) => Some(BinaryOperator::Subtract),
        Kind::Symbol(Symbol::Less) => Some(BinaryOperator::Less),
        Kind::Symbol(Symbol::LessEqual) => Some(BinaryOperator::LessEqual),
        Kind::Symbol(Symbol::Greater) => Some(BinaryOperator::Greater),
        Kind::Symbol(Symbol::GreaterEqual) => Some(BinaryOperator::GreaterEqual),
        Kind::Symbol(Symbol::Equal) => Some(BinaryOperator::Equal),
        Kind::Symbol(Symbol::NotEqual) => Some(BinaryOperator::NotEqual),
        Kind::Keyword(Keyword::And) => Some(BinaryOperator::And),
        Kind::Keyword(Keyword::Or) => Some(BinaryOperator::Or),
        Kind::Keyword(Keyword::Xor) => Some(BinaryOperator::Xor),
        _ => None,
    }
}

/// An operator that binds at most as loosely as the rank says.
#[tactic(auto, unfolding(crate::specs::Front::binary_at))]
pub fn binary_at<'t, 'a>(
    rank: u8,
    tokens: &'t [Token<'a>],
) -> Option<(BinaryOperator, &'t [Token<'a>])>
    ensures value { binary_at rank (toks tokens.now) ≡ option_map (λ x. (x.0, toks x.1.now)) result }
    ensures ranked { IfSome result (λ x. 0 < rank_of x.0) }
    ensures shorter { IfSome result (λ x. length x.1.now < length tokens.now) }
{
    let (first, rest) = tokens.split_first()?;
    let op = operator_of(first.kind)?;
    if rank_of(op) <= rank {
        Some((op, rest))
    } else {
        None
    }
}

/// What a condenser joins its values by.
#[tactic(auto, unfolding(crate::specs::Front::condenser_at))]
pub fn condenser_at<'t, 'a>(tokens: &'t [Token<'a>]) -> Option<(Aggregate, &'t [Token<'a>])>
    ensures value { condenser_at (toks tokens.now) ≡ option_map (λ x. (x.0, toks x.1.now)) result }
    ensures shorter { IfSome result (λ x. length x.1.now < length tokens.now) }
{
    let (first, rest) = tokens.split_first()?;
    match first.kind {
        Kind::Symbol(Symbol::Plus) => Some((Aggregate::Sum, rest)),
        Kind::Symbol(Symbol::Star) => Some((Aggregate::Product, rest)),
        Kind::Keyword(Keyword::Max) => Some((Aggregate::Greatest, rest)),
        Kind::Keyword(Keyword::Min) => Some((Aggregate::Least, rest)),
        Kind::Keyword(Keyword::And) => Some((Aggregate::Every, rest)),
        Kind::Keyword(Keyword::Or) => Some((Aggregate::Any, rest)),
        _ => None,
    }
}

/// The name of a field, or the opening of a bracket, behind an expression.
#[tactic(auto, unfolding(crate::specs::Front::postfix_at))]
pub fn postfix_at<'t, 'a>(tokens: &'t [Token<'a>]) -> Option<(Postfix, &'t [Token<'a>])>
    ensures value { postfix_at (toks tokens.now) ≡ option_map (λ x. (x.0, toks x.1.now)) result }
    ensures shorter { IfSome result (λ x. length x.1.now < length tokens.now) }
{
    let (first, rest) = tokens.split_first()?;
    match first.kind {
        Kind::Symbol(Symbol::Dot) => Some((Postfix::Field, rest)),
        Kind::Symbol(Symbol::LeftBracket) => Some((Postfix::Brackets, rest)),
        _ => None,
    }
}

/// How an expression begins that has no operator before it.
#[tactic(auto, unfolding(crate::specs::Front::start_at))]
pub fn start_at<'t, 'a>(tokens: &'t [Token<'a>]) -> Option<(Start<'a>, &'t [Token<'a>])>
    ensures value { start_at (toks tokens.now) ≡ option_map (λ x. (begin_of x.0, toks x.1.now)) result }
    ensures shorter { IfSome result (λ x. length x.1.now < length tokens.now) }
{
    let (first, rest) = tokens.split_first()?;
    match first.kind {
        Kind::Number(literal) => Some((Start::Number(literal), rest)),
        Kind::Name | Kind::Variable => Some((Start::Variable(first.text), rest)),
        Kind::Symbol(Symbol::LeftParen) => Some((Start::Paren, rest)),
        Kind::Symbol(Symbol::LeftBrace) => Some((Start::Brace, rest)),
        Kind::Keyword(Keyword::True) => Some((Start::Truth(true), rest)),
        Kind::Keyword(Keyword::False) => Some((Start::Truth(false), rest)),
        Kind::Keyword(Keyword::Abs) => Some((Start::Abs, rest)),
        Kind::Keyword(Keyword::Bit) => Some((Start::Bit, rest)),
        Kind::Keyword(Keyword::Count) => Some((Start::Reduce(Aggregate::Count), rest)),
        Kind::Keyword(Keyword::Some) => Some((Start::Reduce(Aggregate::Any), rest)),
        Kind::Keyword(Keyword::All) => Some((Start::Reduce(Aggregate::Every), rest)),
        Kind::Keyword(Keyword::Add) => Some((Start::Reduce(Aggregate::Sum), rest)),
        Kind::Keyword(Keyword::Avg) => Some((Start::Reduce(Aggregate::Average), rest)),
        Kind::Keyword(Keyword::Min) => Some((Start::Reduce(Aggregate::Least), rest)),
        Kind::Keyword(Keyword::Max) => Some((Start::Reduce(Aggregate::Greatest), rest)),
        Kind::Keyword(Keyword::Coverage) => Some((Start::Coverage, rest)),
        Kind::Keyword(Keyword::Condense) => Some((Start::Condense, rest)),
        _ => None,
    }
}

/// The one format, `csv`.
#[tactic(auto, unfolding(crate::specs::Front::format_at))]
pub fn format_at<'t, 'a>(tokens: &'t [Token<'a>]) -> Option<&'t [Token<'a>]>
    ensures value { format_at (toks tokens.now) ≡ option_map (λ rest. toks rest.now) result }
    ensures shorter { IfSome result (λ rest. length rest.now < length tokens.now) }
{
    let (first, rest) = tokens.split_first()?;
    match first.kind {
        Kind::Keyword(Keyword::Csv) => Some(rest),
        Kind::Text if is_csv(first.text) => Some(rest),
        _ => None,
    }
}

fn is_csv(text: &str) -> bool
    ensures { result ≡ is_csv text.now }
{
    text.eq_ignore_ascii_case("\"csv\"") || text.eq_ignore_ascii_case("\"text/csv\"")
}
