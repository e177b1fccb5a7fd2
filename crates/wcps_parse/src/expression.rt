//! Expressions, by recursive descent. Each function gives what it read and the tokens behind it.

ghost use Rattle.std.specs.Prelude.{◌<◌, ◌≤◌, length, IfOk};
ghost use Rattle.wcps_text.specs.Token.{toks};
ghost use Rattle.wcps_parse.specs.Reading.{level, operand, post, postfix, prim, in_parens, enclosed, bit, fields, parts, part_at, subs, sub_at, place, interval, domain, iters, iter_at, coverage, items, listed, condition, condense, begun};
ghost use Rattle.wcps_parse.specs.Front.{with_abs, with_reduce};
ghost use Rattle.wcps_parse.specs.Fit.{Gives, Reads};
ghost use Rattle.wcps_parse.specs.Kinds.{FitTree, FitPart, FitParts, FitSub, FitSubs, FitPlace, FitInterval, FitIter, FitIters, FitCondition, Makes};
ghost use Rattle.wcps_parse.specs.Prefixes.{IsBehind};

use crate::error::ParseError;
use crate::front::{
    Postfix, Start, binary_at, bounds_at, condenser_at, item_at, name_at, postfix_at, prefix_at,
    rank_of, sign_at, start_at, variable_at, word_at,
};
use crate::grown;
use crate::grown::Grown;
use arr_core::Keyword;
use std::alloc::{AllocError, Global};
use wcps_text::{
    Aggregate, BinaryOperator, Expr, Interval, Iter, ListItem, Part, Place, QueryName, Sub, Symbol,
    Token, UnaryOperator,
};

/// The rank of the loosest operators.
pub const MAX_RANK: u8 = 5;

/// An expression with no operator looser than the rank.
///
/// Of the operators behind an operand, each takes as its right operand what binds tighter than itself: so operators
/// of one rank group to the left.
#[cycle(expression)]
pub fn level<'t, 'a>(
    alloc: Global,
    rank: u8,
    tokens: &'t [Token<'a>],
) -> Result<(Grown<Box<Expr>>, &'t [Token<'a>]), ParseError>
    ensures exact { Reads FitTree result (λ n m. level n rank (toks tokens.now)) }
    ensures shorter { IfOk result (λ x. length x.1.now < length tokens.now) }
{
    let (mut left, mut rest) = operand(alloc, tokens)?;
    while let Some((op, after)) = binary_at(rank, rest) {
        let (right, after) = level(alloc, rank_of(op) - 1, after)?;
        left = grown::binary(alloc, op, left, right)?;
        rest = after;
    }
    Ok((left, rest))
}

/// The operators before an operand.
fn prefixes<'t, 'a>(
    alloc: Global,
    tokens: &'t [Token<'a>],
) -> Result<(Vec<UnaryOperator>, &'t [Token<'a>]), AllocError>
    ensures exact { IfOk result (λ x. IsBehind x.0.items (toks x.1.now) (toks tokens.now)) }
    ensures shorter { IfOk result (λ x. length x.1.now ≤ length tokens.now) }
{
    let mut ops = Vec::new(alloc);
    while let Some((op, _)) = prefix_at(&tokens[ops.len()..]) {
        ops.push(op)?;
    }
    let rest = &tokens[ops.len()..];
    Ok((ops, rest))
}

/// An operand with the operators before it.
#[cycle(expression)]
fn operand<'t, 'a>(
    alloc: Global,
    tokens: &'t [Token<'a>],
) -> Result<(Grown<Box<Expr>>, &'t [Token<'a>]), ParseError>
    ensures exact { Reads FitTree result (λ n m. operand m (level n) (toks tokens.now)) }
    ensures shorter { IfOk result (λ x. length x.1.now < length tokens.now) }
{
    let (ops, rest) = prefixes(alloc, tokens)?;
    let (inner, rest) = post(alloc, rest)?;
    Ok((grown::prefixed(alloc, ops, inner)?, rest))
}

/// An expression without an operator before it, with the fields and brackets behind it.
#[cycle(expression)]
fn post<'t, 'a>(
    alloc: Global,
    tokens: &'t [Token<'a>],
) -> Result<(Grown<Box<Expr>>, &'t [Token<'a>]), ParseError>
    ensures exact { Reads FitTree result (λ n m. post m (level n) (toks tokens.now)) }
    ensures shorter { IfOk result (λ x. length x.1.now < length tokens.now) }
{
    let (mut whole, mut rest) = prim(alloc, tokens)?;
    while let Some((kind, after)) = postfix_at(rest) {
        let (next, after) = postfix(alloc, kind, whole, after)?;
        whole = next;
        rest = after;
    }
    Ok((whole, rest))
}

/// What follows a dot or an opening bracket.
#[cycle(expression)]
fn postfix<'t, 'a>(
    alloc: Global,
    kind: Postfix,
    whole: Grown<Box<Expr>>,
    tokens: &'t [Token<'a>],
) -> Result<(Grown<Box<Expr>>, &'t [Token<'a>]), ParseError>
    ensures exact { Makes (λ e n m. postfix m (level n) kind e (toks tokens.now)) (FitTree whole) (Reads FitTree) result }
    ensures shorter { IfOk result (λ x. length x.1.now < length tokens.now) }
{
    match kind {
        Postfix::Field => {
            let Some((name, rest)) = name_at(tokens) else {
                return Err(ParseError::BadSyntax);
            };
            Ok((grown::field(alloc, whole, name)?, rest))
        }
        Postfix::Brackets => {
            let (list, rest) = subs(alloc, tokens)?;
            let Some(rest) = sign_at(Symbol::RightBracket, rest) else {
                return Err(ParseError::BadSyntax);
            };
            Ok((grown::brackets(alloc, whole, list)?, rest))
        }
    }
}

/// An expression without an operator before it.
#[cycle(expression)]
fn prim<'t, 'a>(
    alloc: Global,
    tokens: &'t [Token<'a>],
) -> Result<(Grown<Box<Expr>>, &'t [Token<'a>]), ParseError>
    ensures exact { Reads FitTree result (λ n m. prim m (level n) (toks tokens.now)) }
    ensures shorter { IfOk result (λ x. length x.1.now < length tokens.now) }
{
    let Some((start, rest)) = start_at(tokens) else {
        return Err(ParseError::BadSyntax);
    };
    match start {
        Start::Number(literal) => Ok((grown::leaf(alloc, Expr::Number(literal))?, rest)),
        Start::Truth(truth) => Ok((grown::leaf(alloc, Expr::Truth(truth))?, rest)),
        Start::Variable(name) => {
            let name = QueryName::new(alloc, name)?;
            Ok((grown::leaf(alloc, Expr::Variable(name))?, rest))
        }
        Start::Paren => enclosed(alloc, rest),
        Start::Brace => record(alloc, rest),
        Start::Abs => absolute(alloc, rest),
        Start::Bit => bit(alloc, rest),
        Start::Reduce(op) => reduced(alloc, op, rest),
        Start::Coverage => coverage(alloc, rest),
        Start::Condense => condense(alloc, rest),
    }
}

/// What follows the word `abs`.
#[cycle(expression)]
fn absolute<'t, 'a>(
    alloc: Global,
    tokens: &'t [Token<'a>],
) -> Result<(Grown<Box<Expr>>, &'t [Token<'a>]), ParseError>
    ensures exact { Reads FitTree result (λ n m. begun m (level n) with_abs (toks tokens.now)) }
    ensures shorter { IfOk result (λ x. length x.1.now < length tokens.now) }
{
    let (value, rest) = in_parens(alloc, tokens)?;
    Ok((grown::unary(alloc, UnaryOperator::Absolute, value)?, rest))
}

/// What follows the word of a reduction.
#[cycle(expression)]
fn reduced<'t, 'a>(
    alloc: Global,
    op: Aggregate,
    tokens: &'t [Token<'a>],
) -> Result<(Grown<Box<Expr>>, &'t [Token<'a>]), ParseError>
    ensures exact { Reads FitTree result (λ n m. begun m (level n) (with_reduce op) (toks tokens.now)) }
    ensures shorter { IfOk result (λ x. length x.1.now < length tokens.now) }
{
    let (value, rest) = in_parens(alloc, tokens)?;
    Ok((grown::reduce(alloc, op, value)?, rest))
}

/// An expression in parentheses.
#[cycle(expression)]
fn in_parens<'t, 'a>(
    alloc: Global,
    tokens: &'t [Token<'a>],
) -> Result<(Grown<Box<Expr>>, &'t [Token<'a>]), ParseError>
    ensures exact { Reads FitTree result (λ n m. in_parens (level n) (toks tokens.now)) }
    ensures shorter { IfOk result (λ x. length x.1.now < length tokens.now) }
{
    let Some(rest) = sign_at(Symbol::LeftParen, tokens) else {
        return Err(ParseError::BadSyntax);
    };
    enclosed(alloc, rest)
}

/// An expression and the parenthesis behind it.
#[cycle(expression)]
fn enclosed<'t, 'a>(
    alloc: Global,
    tokens: &'t [Token<'a>],
) -> Result<(Grown<Box<Expr>>, &'t [Token<'a>]), ParseError>
    ensures exact { Reads FitTree result (λ n m. enclosed (level n) (toks tokens.now)) }
    ensures shorter { IfOk result (λ x. length x.1.now < length tokens.now) }
{
    let (value, rest) = level(alloc, MAX_RANK, tokens)?;
    let Some(rest) = sign_at(Symbol::RightParen, rest) else {
        return Err(ParseError::BadSyntax);
    };
    Ok((value, rest))
}

/// What follows the word `bit`.
#[cycle(expression)]
fn bit<'t, 'a>(
    alloc: Global,
    tokens: &'t [Token<'a>],
) -> Result<(Grown<Box<Expr>>, &'t [Token<'a>]), ParseError>
    ensures exact { Reads FitTree result (λ n m. bit (level n) (toks tokens.now)) }
    ensures shorter { IfOk result (λ x. length x.1.now < length tokens.now) }
{
    let Some(rest) = sign_at(Symbol::LeftParen, tokens) else {
        return Err(ParseError::BadSyntax);
    };
    let (value, rest) = level(alloc, MAX_RANK, rest)?;
    let Some(rest) = sign_at(Symbol::Comma, rest) else {
        return Err(ParseError::BadSyntax);
    };
    let (place, rest) = enclosed(alloc, rest)?;
    let whole = grown::binary(alloc, BinaryOperator::Bit, value, place)?;
    Ok((whole, rest))
}

/// What follows an opening brace.
#[cycle(expression)]
fn record<'t, 'a>(
    alloc: Global,
    tokens: &'t [Token<'a>],
) -> Result<(Grown<Box<Expr>>, &'t [Token<'a>]), ParseError>
    ensures exact { Reads FitTree result (λ n m. fields m (level n) (toks tokens.now)) }
    ensures shorter { IfOk result (λ x. length x.1.now < length tokens.now) }
{
    let (list, rest) = parts(alloc, tokens)?;
    let Some(rest) = sign_at(Symbol::RightBrace, rest) else {
        return Err(ParseError::BadSyntax);
    };
    Ok((grown::record(alloc, list)?, rest))
}

/// Parts of `{..}` with semicolons between them.
#[cycle(expression)]
fn parts<'t, 'a>(
    alloc: Global,
    tokens: &'t [Token<'a>],
) -> Result<(Grown<Vec<Part>>, &'t [Token<'a>]), ParseError>
    ensures exact { Reads FitParts result (λ n m. parts m (level n) (toks tokens.now)) }
    ensures shorter { IfOk result (λ x. length x.1.now < length tokens.now) }
{
    let (first, mut rest) = part_at(alloc, tokens)?;
    let mut list = grown::push_part(Grown::Fits(Vec::new(alloc), 0), first)?;
    while let Some(next) = sign_at(Symbol::Semicolon, rest) {
        let (one, after) = part_at(alloc, next)?;
        list = grown::push_part(list, one)?;
        rest = after;
    }
    Ok((list, rest))
}

#[cycle(expression)]
fn part_at<'t, 'a>(
    alloc: Global,
    tokens: &'t [Token<'a>],
) -> Result<(Grown<Part>, &'t [Token<'a>]), ParseError>
    ensures exact { Reads FitPart result (λ n m. part_at (level n) (toks tokens.now)) }
    ensures shorter { IfOk result (λ x. length x.1.now < length tokens.now) }
{
    let Some((name, rest)) = name_at(tokens) else {
        return Err(ParseError::BadSyntax);
    };
    let Some(rest) = sign_at(Symbol::Colon, rest) else {
        return Err(ParseError::BadSyntax);
    };
    let (value, rest) = level(alloc, MAX_RANK, rest)?;
    Ok((grown::part(alloc, name, value)?, rest))
}

/// Parts of a bracket with commas between them.
#[cycle(expression)]
fn subs<'t, 'a>(
    alloc: Global,
    tokens: &'t [Token<'a>],
) -> Result<(Grown<Vec<Sub>>, &'t [Token<'a>]), ParseError>
    ensures exact { Reads FitSubs result (λ n m. subs m (level n) (toks tokens.now)) }
    ensures shorter { IfOk result (λ x. length x.1.now < length tokens.now) }
{
    let (first, mut rest) = sub_at(alloc, tokens)?;
    let mut list = grown::push_sub(Grown::Fits(Vec::new(alloc), 0), first)?;
    while let Some(next) = sign_at(Symbol::Comma, rest) {
        let (one, after) = sub_at(alloc, next)?;
        list = grown::push_sub(list, one)?;
        rest = after;
    }
    Ok((list, rest))
}

#[cycle(expression)]
fn sub_at<'t, 'a>(
    alloc: Global,
    tokens: &'t [Token<'a>],
) -> Result<(Grown<Sub>, &'t [Token<'a>]), ParseError>
    ensures exact { Reads FitSub result (λ n m. sub_at (level n) (toks tokens.now)) }
    ensures shorter { IfOk result (λ x. length x.1.now < length tokens.now) }
{
    let Some((axis, rest)) = name_at(tokens) else {
        return Err(ParseError::BadSyntax);
    };
    let Some(rest) = sign_at(Symbol::LeftParen, rest) else {
        return Err(ParseError::BadSyntax);
    };
    let (place, rest) = place(alloc, rest)?;
    let Some(rest) = sign_at(Symbol::RightParen, rest) else {
        return Err(ParseError::BadSyntax);
    };
    Ok((grown::sub(alloc, axis, place)?, rest))
}

/// An interval of an axis, or a position on it.
#[cycle(expression)]
fn place<'t, 'a>(
    alloc: Global,
    tokens: &'t [Token<'a>],
) -> Result<(Grown<Place>, &'t [Token<'a>]), ParseError>
    ensures exact { Reads FitPlace result (λ n m. place (level n) (toks tokens.now)) }
    ensures shorter { IfOk result (λ x. length x.1.now < length tokens.now) }
{
    if let Some((bounds, rest)) = bounds_at(tokens) {
        return Ok((Grown::Fits(Place::Trim(bounds), 0), rest));
    }
    if let Some(rest) = word_at(Keyword::ImageCrsDomain, tokens) {
        let (interval, rest) = domain(alloc, rest)?;
        return Ok((grown::trim(interval), rest));
    }
    let (position, rest) = level(alloc, MAX_RANK, tokens)?;
    Ok((grown::at(position), rest))
}

#[cycle(expression)]
fn interval<'t, 'a>(
    alloc: Global,
    tokens: &'t [Token<'a>],
) -> Result<(Grown<Interval>, &'t [Token<'a>]), ParseError>
    ensures exact { Reads FitInterval result (λ n m. interval (level n) (toks tokens.now)) }
    ensures shorter { IfOk result (λ x. length x.1.now < length tokens.now) }
{
    if let Some((bounds, rest)) = bounds_at(tokens) {
        return Ok((Grown::Fits(bounds, 0), rest));
    }
    let Some(rest) = word_at(Keyword::ImageCrsDomain, tokens) else {
        return Err(ParseError::BadSyntax);
    };
    domain(alloc, rest)
}

/// What follows the word `imageCrsDomain`.
#[cycle(expression)]
fn domain<'t, 'a>(
    alloc: Global,
    tokens: &'t [Token<'a>],
) -> Result<(Grown<Interval>, &'t [Token<'a>]), ParseError>
    ensures exact { Reads FitInterval result (λ n m. domain (level n) (toks tokens.now)) }
    ensures shorter { IfOk result (λ x. length x.1.now < length tokens.now) }
{
    let Some(rest) = sign_at(Symbol::LeftParen, tokens) else {
        return Err(ParseError::BadSyntax);
    };
    let (value, rest) = level(alloc, MAX_RANK, rest)?;
    let Some(rest) = sign_at(Symbol::Comma, rest) else {
        return Err(ParseError::BadSyntax);
    };
    let Some((axis, rest)) = name_at(rest) else {
        return Err(ParseError::BadSyntax);
    };
    let Some(rest) = sign_at(Symbol::RightParen, rest) else {
        return Err(ParseError::BadSyntax);
    };
    Ok((grown::domain(alloc, value, axis)?, rest))
}

/// Iterators with commas between them.
#[cycle(expression)]
fn iters<'t, 'a>(
    alloc: Global,
    tokens: &'t [Token<'a>],
) -> Result<(Grown<Vec<Iter>>, &'t [Token<'a>]), ParseError>
    ensures exact { Reads FitIters result (λ n m. iters m (level n) (toks tokens.now)) }
    ensures shorter { IfOk result (λ x. length x.1.now < length tokens.now) }
{
    let (first, mut rest) = iter_at(alloc, tokens)?;
    let mut list = grown::push_iter(Grown::Fits(Vec::new(alloc), 0), first)?;
    while let Some(next) = sign_at(Symbol::Comma, rest) {
        let (one, after) = iter_at(alloc, next)?;
        list = grown::push_iter(list, one)?;
        rest = after;
    }
    Ok((list, rest))
}

#[cycle(expression)]
fn iter_at<'t, 'a>(
    alloc: Global,
    tokens: &'t [Token<'a>],
) -> Result<(Grown<Iter>, &'t [Token<'a>]), ParseError>
    ensures exact { Reads FitIter result (λ n m. iter_at (level n) (toks tokens.now)) }
    ensures shorter { IfOk result (λ x. length x.1.now < length tokens.now) }
{
    let Some((variable, rest)) = variable_at(tokens) else {
        return Err(ParseError::BadSyntax);
    };
    let Some((axis, rest)) = name_at(rest) else {
        return Err(ParseError::BadSyntax);
    };
    let Some(rest) = sign_at(Symbol::LeftParen, rest) else {
        return Err(ParseError::BadSyntax);
    };
    let (interval, rest) = interval(alloc, rest)?;
    let Some(rest) = sign_at(Symbol::RightParen, rest) else {
        return Err(ParseError::BadSyntax);
    };
    Ok((grown::iter(alloc, variable, axis, interval)?, rest))
}

/// What follows the word `coverage`: a form with a body, or one with a list of values.
#[cycle(expression)]
fn coverage<'t, 'a>(
    alloc: Global,
    tokens: &'t [Token<'a>],
) -> Result<(Grown<Box<Expr>>, &'t [Token<'a>]), ParseError>
    ensures exact { Reads FitTree result (λ n m. coverage m (level n) (toks tokens.now)) }
    ensures shorter { IfOk result (λ x. length x.1.now < length tokens.now) }
{
    let Some((_, rest)) = name_at(tokens) else {
        return Err(ParseError::BadSyntax);
    };
    let Some(rest) = word_at(Keyword::Over, rest) else {
        return Err(ParseError::BadSyntax);
    };
    let (iterators, rest) = iters(alloc, rest)?;
    if let Some(rest) = word_at(Keyword::Values, rest) {
        let (body, rest) = level(alloc, MAX_RANK, rest)?;
        return Ok((grown::coverage(alloc, iterators, body)?, rest));
    }
    let (items, rest) = listed(alloc, rest)?;
    Ok((grown::value_list(alloc, iterators, items)?, rest))
}

/// `value list <..>`
fn listed<'t, 'a>(
    alloc: Global,
    tokens: &'t [Token<'a>],
) -> Result<(Vec<ListItem>, &'t [Token<'a>]), ParseError>
    ensures exact { Gives (λ x. (x.0.items, toks x.1.now)) result (λ n m. listed m (toks tokens.now)) }
    ensures shorter { IfOk result (λ x. length x.1.now < length tokens.now) }
{
    let Some(rest) = word_at(Keyword::Value, tokens) else {
        return Err(ParseError::BadSyntax);
    };
    let Some(rest) = word_at(Keyword::List, rest) else {
        return Err(ParseError::BadSyntax);
    };
    let Some(rest) = sign_at(Symbol::Less, rest) else {
        return Err(ParseError::BadSyntax);
    };
    let (items, rest) = items(alloc, rest)?;
    let Some(rest) = sign_at(Symbol::Greater, rest) else {
        return Err(ParseError::BadSyntax);
    };
    Ok((items, rest))
}

/// Values with semicolons between them.
fn items<'t, 'a>(
    alloc: Global,
    tokens: &'t [Token<'a>],
) -> Result<(Vec<ListItem>, &'t [Token<'a>]), ParseError>
    ensures exact { Gives (λ x. (x.0.items, toks x.1.now)) result (λ n m. items m (toks tokens.now)) }
    ensures shorter { IfOk result (λ x. length x.1.now < length tokens.now) }
{
    let Some((first, mut rest)) = item_at(tokens) else {
        return Err(ParseError::BadSyntax);
    };
    let mut list = Vec::new(alloc);
    list.push(first)?;
    while let Some(next) = sign_at(Symbol::Semicolon, rest) {
        let Some((one, after)) = item_at(next) else {
            return Err(ParseError::BadSyntax);
        };
        list.push(one)?;
        rest = after;
    }
    Ok((list, rest))
}

/// The condition behind the word `where`, if it is there.
#[cycle(expression)]
pub fn condition<'t, 'a>(
    alloc: Global,
    tokens: &'t [Token<'a>],
) -> Result<(Grown<Option<Box<Expr>>>, &'t [Token<'a>]), ParseError>
    ensures exact { Reads FitCondition result (λ n m. condition (level n) (toks tokens.now)) }
    ensures shorter { IfOk result (λ x. length x.1.now ≤ length tokens.now) }
{
    let Some(rest) = word_at(Keyword::Where, tokens) else {
        return Ok((Grown::Fits(None, 0), tokens));
    };
    let (test, rest) = level(alloc, MAX_RANK, rest)?;
    Ok((grown::condition(test), rest))
}

/// What follows the word `condense`.
#[cycle(expression)]
fn condense<'t, 'a>(
    alloc: Global,
    tokens: &'t [Token<'a>],
) -> Result<(Grown<Box<Expr>>, &'t [Token<'a>]), ParseError>
    ensures exact { Reads FitTree result (λ n m. condense m (level n) (toks tokens.now)) }
    ensures shorter { IfOk result (λ x. length x.1.now < length tokens.now) }
{
    let Some((op, rest)) = condenser_at(tokens) else {
        return Err(ParseError::BadSyntax);
    };
    let Some(rest) = word_at(Keyword::Over, rest) else {
        return Err(ParseError::BadSyntax);
    };
    let (iterators, rest) = iters(alloc, rest)?;
    let (test, rest) = condition(alloc, rest)?;
    let Some(rest) = word_at(Keyword::Using, rest) else {
        return Err(ParseError::BadSyntax);
    };
    let (body, rest) = level(alloc, MAX_RANK, rest)?;
    Ok((grown::condense(alloc, op, iterators, test, body)?, rest))
}
