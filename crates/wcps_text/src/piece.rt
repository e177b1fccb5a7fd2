//! What the first bytes of a text are: how many belong to the token, and what it is.

ghost use Rattle.std.specs.Prelude.{◌≡◌, ◌==◌, cond, None, ◌+◌, ◌-◌, ◌<◌, ◌≤◌, length, get_or, IfOk, MatchResult, IsTrue};
ghost use Rattle.std.specs.Char.{is_ascii_digit};
ghost use Rattle.wcps_text.specs.Fronts.{IsFront, IsOther};
ghost use Rattle.wcps_text.specs.Lexing.{begins_name, double, is_space, Refused};
ghost use Rattle.wcps_text.specs.Runs.{Stops};

use crate::error::LexError;
use crate::number::decimal;
use crate::runs::{Class, run};
use crate::symbol::{double, single};
use crate::token::{Kind, Symbol};
use arr_core::name::begins_name;
use arr_core::{MAX_NAME, keyword_of};

/// The token at the front.
pub fn front(bytes: &[u8]) -> Result<(usize, Kind), LexError>
    requires some { 0 < length bytes.now }
    requires begun { Stops is_space bytes.now }
    ensures exact { MatchResult result (λ x. IsFront bytes.now x.0 x.1) (λ e. Refused bytes.now e) }
    ensures within { IfOk result (λ x. x.0 ≤ length bytes.now) }
    ensures some { IfOk result (λ x. 0 < x.0) }
    ensures first { IfOk result (λ x. get_or bytes.now 0 0 < 128) }
    ensures last { IfOk result (λ x. get_or bytes.now (x.0 - 1) 0 < 128) }
{
    let first = bytes[0];
    if first.is_ascii_digit() {
        return number(bytes);
    }
    if begins_name(first) {
        return name(bytes);
    }
    if first == b'$' {
        return variable(bytes);
    }
    if first == b'"' {
        return string(bytes);
    }
    symbol(bytes)
}

fn number(bytes: &[u8]) -> Result<(usize, Kind), LexError>
    requires some { 0 < length bytes.now }
    requires digit { IsTrue (is_ascii_digit (get_or bytes.now 0 0)) }
    ensures exact { MatchResult result (λ x. IsFront bytes.now x.0 x.1) (λ e. Refused bytes.now e) }
    ensures within { IfOk result (λ x. x.0 ≤ length bytes.now) }
    ensures some { IfOk result (λ x. 0 < x.0) }
    ensures last { IfOk result (λ x. get_or bytes.now (x.0 - 1) 0 < 128) }
{
    let count = 1 + run(Class::Digit, &bytes[1..]);
    match decimal(&bytes[..count]) {
        Some(value) => Ok((count, Kind::Number(value))),
        None => Err(LexError::NumberTooLarge),
    }
}

fn name(bytes: &[u8]) -> Result<(usize, Kind), LexError>
    requires some { 0 < length bytes.now }
    requires letter { IsTrue (begins_name (get_or bytes.now 0 0)) }
    ensures exact { MatchResult result (λ x. IsFront bytes.now x.0 x.1) (λ e. Refused bytes.now e) }
    ensures within { IfOk result (λ x. x.0 ≤ length bytes.now) }
    ensures some { IfOk result (λ x. 0 < x.0) }
    ensures last { IfOk result (λ x. get_or bytes.now (x.0 - 1) 0 < 128) }
{
    let count = 1 + run(Class::Name, &bytes[1..]);
    if count > MAX_NAME {
        return Err(LexError::BadToken);
    }
    match keyword_of(&bytes[..count]) {
        Some(word) => Ok((count, Kind::Keyword(word))),
        None => Ok((count, Kind::Name)),
    }
}

/// A name behind `$`.
fn variable(bytes: &[u8]) -> Result<(usize, Kind), LexError>
    requires some { 0 < length bytes.now }
    requires dollar { get_or bytes.now 0 0 ≡ 36 }
    ensures exact { MatchResult result (λ x. IsFront bytes.now x.0 x.1) (λ e. Refused bytes.now e) }
    ensures within { IfOk result (λ x. x.0 ≤ length bytes.now) }
    ensures some { IfOk result (λ x. 0 < x.0) }
    ensures last { IfOk result (λ x. get_or bytes.now (x.0 - 1) 0 < 128) }
{
    let rest = &bytes[1..];
    if !begins_name(byte_at(rest, 0)) {
        return Err(LexError::BadToken);
    }
    let letters = run(Class::Name, rest);
    if letters >= MAX_NAME {
        return Err(LexError::BadToken);
    }
    Ok((letters + 1, Kind::Variable))
}

/// A string, with its quotes.
fn string(bytes: &[u8]) -> Result<(usize, Kind), LexError>
    requires some { 0 < length bytes.now }
    requires quote { get_or bytes.now 0 0 ≡ 34 }
    ensures exact { MatchResult result (λ x. IsFront bytes.now x.0 x.1) (λ e. Refused bytes.now e) }
    ensures within { IfOk result (λ x. x.0 ≤ length bytes.now) }
    ensures some { IfOk result (λ x. 0 < x.0) }
    ensures last { IfOk result (λ x. get_or bytes.now (x.0 - 1) 0 < 128) }
{
    let inside = run(Class::Quotable, &bytes[1..]);
    if byte_at(bytes, 1 + inside) != b'"' {
        return Err(LexError::BadToken);
    }
    Ok((inside + 2, Kind::Text))
}

fn symbol(bytes: &[u8]) -> Result<(usize, Kind), LexError>
    requires some { 0 < length bytes.now }
    requires begun { Stops is_space bytes.now }
    requires other { IsOther (get_or bytes.now 0 0) }
    ensures first { IfOk result (λ x. get_or bytes.now 0 0 < 128) }
    ensures exact { MatchResult result (λ x. IsFront bytes.now x.0 x.1) (λ e. Refused bytes.now e) }
    ensures within { IfOk result (λ x. x.0 ≤ length bytes.now) }
    ensures some { IfOk result (λ x. 0 < x.0) }
    ensures last { IfOk result (λ x. get_or bytes.now (x.0 - 1) 0 < 128) }
{
    if let Some(symbol) = wide(bytes) {
        return Ok((2, Kind::Symbol(symbol)));
    }
    match single(bytes[0]) {
        Some(symbol) => Ok((1, Kind::Symbol(symbol))),
        None => Err(LexError::BadToken),
    }
}

/// The symbol that the first two bytes are.
fn wide(bytes: &[u8]) -> Option<Symbol>
    requires { 0 < length bytes.now }
    ensures { result ≡ cond (get_or bytes.now 1 0 == 61) (double (get_or bytes.now 0 0)) None }
{
    if byte_at(bytes, 1) != b'=' {
        return None;
    }
    double(bytes[0])
}

/// The byte at that place, and 0 behind the last one.
fn byte_at(bytes: &[u8], place: usize) -> u8
    ensures { result ≡ get_or bytes.now place 0 }
{
    match bytes.get(place) {
        Some(byte) => *byte,
        None => 0,
    }
}
