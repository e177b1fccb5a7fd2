//! The body of a message.
ghost use Rattle.std.specs.Prelude.{◌<◌};
ghost use Rattle.http_front.specs.Bytes.{Refills, TellsFilled, Extends, TakesBody, TellsBody};

use crate::buffer::{Buffer, Filled};
use std::alloc::Global;
use stream_face::Source;

/// A body: kept; dropped, since none is asked for or memory is wanting; or cut short by the end of the stream or by a
/// fault.
#[derive(Drop)]
pub enum Body {
    Kept(Vec<u8>),
    Dropped,
    Short,
    Cut,
}

/// Reads once if nothing is held, at most so many bytes.
fn refill<S: Source>(buffer: &mut Buffer, source: &mut S, most: usize) -> Filled
    requires { 0 < most }
    ensures bytes { Refills (S.view source.old) (S.view source.new) buffer.old buffer.new most result }
    ensures told { TellsFilled (S.view source.old) (S.view source.new) result }
{
    if buffer.len() > 0 {
        Filled::More
    } else {
        buffer.fill(source, most)
    }
}

/// The body with these bytes too, or nothing where memory is wanting.
fn extended(kept: Option<Vec<u8>>, bytes: &[u8]) -> Option<Vec<u8>>
    ensures { Extends kept result bytes.now }
{
    match kept {
        Some(mut body) => match body.extend_from_slice(bytes) {
            Ok(()) => Some(body),
            Err(_) => None,
        },
        None => None,
    }
}

/// Takes a body of this length off the stream, and reads nothing behind it. Where it is to be kept and no memory is
/// found for it, it is dropped.
pub fn take_body<S: Source>(
    buffer: &mut Buffer,
    alloc: Global,
    source: &mut S,
    len: usize,
    keep: bool,
) -> Body
    ensures bytes { TakesBody (S.view source.old) (S.view source.new) buffer.old buffer.new len result }
    ensures told { TellsBody (S.view source.old) (S.view source.new) result }
{
    let mut kept = if keep { Some(Vec::new(alloc)) } else { None };
    let mut left = len;
    'pieces: while left > 0 {
        match refill(buffer, source, left) {
            Filled::More => {}
            Filled::End => return Body::Short,
            Filled::Fault => return Body::Cut,
        }
        let count = left.min(buffer.len());
        kept = extended(kept, &buffer.held()[..count]);
        buffer.discard(count);
        left -= count;
    }
    match kept {
        Some(body) => Body::Kept(body),
        None => Body::Dropped,
    }
}
