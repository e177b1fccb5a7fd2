//! The bytes of a reply.
ghost use Rattle.std.specs.Prelude.{◌≡◌, [], IfOk};
ghost use Rattle.http.specs.StatusCode.{IsStatusCode};
ghost use Rattle.stream_face.specs.Waiting.{IsFlushed};
ghost use Rattle.http_front.specs.Sending.{IsUnderWay, Sends};
ghost use Rattle.http_front.specs.declared.reply.Reply.TheVariants.{Refused};
ghost use Rattle.http_front.specs.Replies.{phrase_of, opening, framed, reply_bytes};

use crate::letter::Letter;
use arr_core::{refusal_name, refusal_status};
use http::StatusCode;
use itoa::Buffer;
use stream_face::{Sink, flush_if};
use thiserror::Error;

/// What a request is answered: a text, a text of comma-separated values, or the number of a refusal.
#[derive(Drop)]
pub enum Reply {
    Text(String),
    Csv(String),
    Refused(u16),
}

/// A write failed or took none of some bytes, or a flush failed.
#[derive(Clone, Copy, Debug, PartialEq, Eq, Error)]
#[error("the reply was not written")]
pub struct WriteFault;

/// The phrase of a status.
fn phrase_of(status: u16) -> &'static str
    requires { IsStatusCode status }
    ensures { result.now ≡ phrase_of status }
{
    match StatusCode::from_u16(status) {
        Ok(code) => code.canonical_reason().unwrap_or(""),
        Err(_) => "",
    }
}

/// Adds what stands before the body of a reply: the status, the type and the length of the body, and whether the
/// connection ends.
fn add_opening<K: Sink>(
    letter: &mut Letter,
    sink: &mut K,
    status: u16,
    kind: &str,
    length: usize,
    last: bool,
) -> bool
    requires status { IsStatusCode status }
    requires begins { letter.old ≡ [] }
    ensures { IsUnderWay (K.view sink.old) (K.view sink.new) result (opening status kind.now length last) letter.new }
{
    let mut status_digits = Buffer::new();
    let mut length_digits = Buffer::new();
    let status_text = status_digits.format(status);
    let length_text = length_digits.format(length);
    let phrase = phrase_of(status);
    let close: &[u8] = if last { b"Connection: close\r\n" } else { b"" };
    let ok = letter.add(sink, true, b"HTTP/1.1 ");
    let ok = letter.add(sink, ok, status_text.as_bytes());
    let ok = letter.add(sink, ok, b" ");
    let ok = letter.add(sink, ok, phrase.as_bytes());
    let ok = letter.add(sink, ok, b"\r\nContent-Type: ");
    let ok = letter.add(sink, ok, kind.as_bytes());
    let ok = letter.add(sink, ok, b"\r\nContent-Length: ");
    let ok = letter.add(sink, ok, length_text.as_bytes());
    let ok = letter.add(sink, ok, b"\r\n");
    let ok = letter.add(sink, ok, close);
    letter.add(sink, ok, b"\r\n")
}

/// Adds a reply with a text, or what stands before the text alone.
fn add_text<K: Sink>(
    letter: &mut Letter,
    sink: &mut K,
    kind: &str,
    text: &str,
    last: bool,
    bare: bool,
) -> bool
    requires { letter.old ≡ [] }
    ensures { IsUnderWay (K.view sink.old) (K.view sink.new) result (framed 200 kind.now text.now last bare) letter.new }
{
    let ok = add_opening(letter, sink, 200, kind, text.len(), last);
    if bare {
        return ok;
    }
    letter.add(sink, ok, text.as_bytes())
}

/// Adds a refusal.
fn add_refusal<K: Sink>(
    letter: &mut Letter,
    sink: &mut K,
    code: u16,
    last: bool,
    bare: bool,
) -> bool
    requires { letter.old ≡ [] }
    ensures { IsUnderWay (K.view sink.old) (K.view sink.new) result (reply_bytes last bare (Refused code)) letter.new }
{
    let mut digits = Buffer::new();
    let number = digits.format(code);
    let name = refusal_name(code);
    let length = b"refused ".len() + number.len() + 1 + name.len() + 1;
    let ok = add_opening(
        letter,
        sink,
        refusal_status(code),
        "text/plain",
        length,
        last,
    );
    if bare {
        return ok;
    }
    let ok = letter.add(sink, ok, b"refused ");
    let ok = letter.add(sink, ok, number.as_bytes());
    let ok = letter.add(sink, ok, b" ");
    let ok = letter.add(sink, ok, name.as_bytes());
    letter.add(sink, ok, b"\n")
}

/// Adds a reply, without its body where it is bare.
fn add_reply<K: Sink>(
    letter: &mut Letter,
    sink: &mut K,
    reply: &Reply,
    last: bool,
    bare: bool,
) -> bool
    requires { letter.old ≡ [] }
    ensures { IsUnderWay (K.view sink.old) (K.view sink.new) result (reply_bytes last bare reply.now) letter.new }
{
    match reply {
        Reply::Text(text) => add_text(letter, sink, "text/plain", text.as_str(), last, bare),
        Reply::Csv(text) => add_text(letter, sink, "text/csv", text.as_str(), last, bare),
        Reply::Refused(code) => add_refusal(letter, sink, *code, last, bare),
    }
}

/// Writes a reply, without its body where it is bare, and flushes it.
pub fn send<K: Sink>(sink: &mut K, reply: &Reply, last: bool, bare: bool) -> Result<(), WriteFault>
    ensures sent { Sends (K.view sink.old) (K.view sink.new) result (reply_bytes last bare reply.now) }
    ensures flushed { IfOk result (λ _. IsFlushed (K.view sink.new).waiting) }
{
    let mut letter = Letter::new();
    let ok = add_reply(&mut letter, sink, reply, last, bare);
    let ok = letter.finish(sink, ok);
    if flush_if(sink, ok) {
        Ok(())
    } else {
        Err(WriteFault)
    }
}
