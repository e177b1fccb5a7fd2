//! The pairs of a web form, and the values under a key.
ghost use Rattle.std.specs.Prelude.{◌≡◌, IfOk, map, string_bytes};
ghost use Rattle.std.specs.Str.{str_eq_ignore_ascii_case};
ghost use Rattle.form_urlencoded.specs.Form.{split_once};
ghost use Rattle.kvp_front.specs.Values.{IsFound, pairs_of, pair_view, values_of, Gives, only_value, text_of};

use crate::request::RequestError;
use form_urlencoded::decode;
use memchr::memchr;
use std::alloc::{AllocError, Global};

/// A pair: its name, and its value as it is encoded.
#[derive(Drop)]
pub struct Pair<'a> {
    pub name: String,
    pub value: &'a [u8],
}

/// How often a key is given, and its value as it is encoded.
#[derive(Drop)]
pub enum Found<'a> {
    Absent,
    Once(&'a [u8]),
    Twice,
}

/// The text that an encoded name or value stands for.
pub fn text_of(alloc: Global, bytes: &[u8]) -> Result<String, AllocError>
    ensures { IfOk result (λ text. string_bytes text ≡ text_of bytes.now) }
{
    let text = decode(alloc, bytes)?;
    text.into_owned(alloc)
}

/// The bytes before the first mark, or all of them, and those behind it, or none.
fn cut_once(bytes: &[u8], mark: u8) -> (&[u8], &[u8])
    ensures { (result.0.now, result.1.now) ≡ split_once mark bytes.now }
{
    match memchr(mark, bytes) {
        Some(place) => (&bytes[..place], &bytes[place + 1..]),
        None => (bytes, &[]),
    }
}

/// The pairs that some bytes spell, in order. Names are decoded here, once for all keys.
pub fn pairs_of<'a>(alloc: Global, bytes: &'a [u8]) -> Result<Vec<Pair<'a>>, AllocError>
    ensures { IfOk result (λ list. map pair_view list.items ≡ pairs_of bytes.now) }
{
    let mut list = Vec::new(alloc);
    let mut rest = bytes;
    'pairs: while !rest.is_empty() {
        let (pair, after) = cut_once(rest, b'&');
        rest = after;
        if !pair.is_empty() {
            let (name, value) = cut_once(pair, b'=');
            let name = text_of(alloc, name)?;
            list.push(Pair { name, value })?;
        }
    }
    Ok(list)
}

fn is_key(name: &str, key: &str) -> bool
    ensures { result ≡ str_eq_ignore_ascii_case name.now key.now }
{
    name.eq_ignore_ascii_case(key)
}

/// Looks for a key in any ASCII case.
pub fn find<'a>(pairs: &[Pair<'a>], key: &str) -> Found<'a>
    ensures { IsFound result (values_of key.now (map pair_view pairs.now)) }
{
    let mut first = None;
    for pair in pairs {
        if is_key(pair.name.as_str(), key) {
            if first.is_some() {
                return Found::Twice;
            }
            first = Some(pair.value);
        }
    }
    match first {
        Some(value) => Found::Once(value),
        None => Found::Absent,
    }
}

/// The value of a key that is given once.
pub fn value_under(alloc: Global, pairs: &[Pair<'_>], key: &str) -> Result<String, RequestError>
    ensures { Gives string_bytes (only_value (values_of key.now (map pair_view pairs.now))) result }
{
    match find(pairs, key) {
        Found::Once(value) => {
            let text = text_of(alloc, value)?;
            Ok(text)
        }
        Found::Absent => Err(RequestError::MissingKey),
        Found::Twice => Err(RequestError::RepeatedKey),
    }
}
