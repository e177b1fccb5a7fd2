//! The message whose head stands at the front of a stream.
ghost use Rattle.std.specs.Prelude.{◌≡◌, ◌≢◌, ℕ, ◌-◌, List, true, false, ◌||◌, Result, Ok};
ghost use Rattle.arr_core.specs.declared.refusal.Refusal.{Refusal};
ghost use Rattle.http_front.specs.Limits.{max_messages};
ghost use Rattle.http_front.specs.Head.{IsHeadAt, IsPlaced, asked_at};
ghost use Rattle.http_front.specs.Stream.{Shows, TellsNext};
ghost use Rattle.http_front.specs.Connection.{Takes};

use crate::body::{Body, take_body};
use crate::buffer::Buffer;
use crate::connection::Next;
use crate::head::{Asked, WholeHead};
use arr_core::Refusal;
use std::alloc::Global;
use stream_face::Source;

/// How many messages a connection may have.
const MAX_MESSAGES: usize = 1000;

/// What came of a message, and whether the connection ends with its reply.
#[derive(Drop)]
pub struct Taken {
    pub next: Next,
    pub over: bool,
}

/// Takes the message with this number, whose head stands at the front.
pub fn take_message<S: Source>(
    buffer: &mut Buffer,
    alloc: Global,
    source: &mut S,
    head: WholeHead,
    number: usize,
) -> Taken
    requires { IsHeadAt buffer.old head }
    ensures found { Takes (S.view source.old) (S.view source.new) number buffer.old buffer.new result head.bare }
    ensures goes_on { result.over ≡ false → number ≢ max_messages - 1 }
    ensures told { TellsNext (S.view source.old) (S.view source.new) result.next }
{
    let prepared = prepare(alloc, buffer.held(), head.asked);
    let len = match head.framing {
        Ok(len) => len as usize,
        Err(refusal) => {
            buffer.discard(head.len);
            return Taken {
                next: Next::Refused(refusal.number()),
                over: true,
            };
        }
    };
    buffer.discard(head.len);
    let keep = is_body(head.asked);
    let over = either(head.last, number == MAX_MESSAGES - 1);
    match take_body(buffer, alloc, source, len, keep) {
        Body::Short => Taken {
            next: Next::Refused(Refusal::BadHead.number()),
            over: true,
        },
        Body::Cut => Taken {
            next: Next::ReadFault,
            over: true,
        },
        Body::Dropped => Taken {
            next: prepared,
            over,
        },
        Body::Kept(body) => Taken {
            next: chosen(keep, body, prepared),
            over,
        },
    }
}

/// A copy of the pairs of a query part, or the refusal; where the body is asked for, what is told if none is kept.
fn prepare(alloc: Global, held: &[u8], asked: Asked) -> Next
    requires { IsPlaced held.now asked }
    ensures { (body : List ℕ) → Shows (asked_at held.now asked body) result }
{
    match asked {
        Asked::Query(span) => match span.of(held).to_vec(alloc) {
            Ok(pairs) => Next::Message(pairs),
            Err(_) => Next::Refused(Refusal::NoMemory.number()),
        },
        Asked::Body => Next::Refused(Refusal::NoMemory.number()),
        Asked::Refuses(refusal) => Next::Refused(refusal.number()),
    }
}

/// Whether the pairs stand in the body.
fn is_body(asked: Asked) -> bool
    ensures { result ≡ true → asked ≡ Asked.Body }
{
    match asked {
        Asked::Body => true,
        Asked::Query(_) => false,
        Asked::Refuses(_) => false,
    }
}

/// The body where it was asked for, else the other.
fn chosen(keep: bool, body: Vec<u8>, other: Next) -> Next
    ensures { (a : Result (List ℕ) Refusal) → (keep ≡ true → a ≡ Ok body.items) → Shows a other → Shows a result }
{
    if keep { Next::Message(body) } else { other }
}

fn either(a: bool, b: bool) -> bool
    ensures { result ≡ a || b }
{
    a || b
}
