//! What stands at the front of some bytes: a whole head, a part of one, or no head.
ghost use Rattle.std.specs.Prelude.{◌≡◌, ◌≤◌, ◌<◌, ◌||◌, length, map, take, All};
ghost use Rattle.httparse.specs.Grammar.{HasNoRequest};
ghost use Rattle.httparse.specs.Spans.{span_bytes, header_bytes, IsHeaderWithin};
ghost use Rattle.http1.specs.Fields.{known_fields};
ghost use Rattle.http_front.specs.Bytes.{has_line_end};
ghost use Rattle.http_front.specs.Head.{FrontOf, query_of, query_at, IsQueryPlaced, IsAsked, asked_parts, IsPlaced, framing_of, is_served};

use arr_core::Refusal;
use http1::fields::{ContentLength, KnownFields, TransferEncoding};
use httparse::Status;
use httparse::spans::{EMPTY_HEADER_SPAN, HeaderSpan, Span, parse_request};

/// The most fields that a head may have.
pub const MAX_HEAD_FIELDS: usize = 64;

/// The most bytes that a body may have.
pub const MAX_BODY: u64 = 1048576;

/// What a message asks: the pairs of its query part, those of its body, or nothing but a refusal.
#[derive(Clone, Copy, Drop)]
pub enum Asked {
    Query(Span),
    Body,
    Refuses(Refusal),
}

/// A whole head at the front.
#[derive(Clone, Copy, Drop)]
pub struct WholeHead {
    /// How many bytes it has.
    pub len: usize,
    pub asked: Asked,
    /// How many bytes the body has, or the refusal.
    pub framing: Result<u64, Refusal>,
    /// The reply ends the connection.
    pub last: bool,
    /// The reply has no body.
    pub bare: bool,
}

/// What stands at the front of some bytes. No more bytes make a head of what is bad.
#[derive(Clone, Copy, Drop)]
pub enum Front {
    Whole(WholeHead),
    Partial,
    Bad,
}

/// Where the query part of a target stands. Another target than `/ows` is refused.
fn query_at(bytes: &[u8], target: Span) -> Result<Span, Refusal>
    requires ordered { target.start ≤ target.end }
    requires in_range { target.end ≤ length bytes.now }
    ensures asked { query_at bytes.now result ≡ query_of (span_bytes bytes.now target) }
    ensures placed { IsQueryPlaced bytes.now result }
{
    let text = target.of(bytes);
    if text == b"/ows".as_slice() {
        Ok(Span {
            start: target.end,
            end: target.end,
        })
    } else if text.starts_with(b"/ows?") {
        Ok(Span {
            start: target.start + 5,
            end: target.end,
        })
    } else {
        Err(Refusal::NoSuchPath)
    }
}

/// What a method and a target ask.
fn asked_of(bytes: &[u8], method: &[u8], target: Span) -> Asked
    requires ordered { target.start ≤ target.end }
    requires in_range { target.end ≤ length bytes.now }
    ensures asked { IsAsked bytes.now result (asked_parts method.now (span_bytes bytes.now target)) }
    ensures placed { IsPlaced bytes.now result }
{
    if method == b"GET".as_slice() {
        return match query_at(bytes, target) {
            Ok(span) => Asked::Query(span),
            Err(refusal) => Asked::Refuses(refusal),
        };
    }
    if method == b"POST".as_slice() {
        return match query_at(bytes, target) {
            Ok(_) => Asked::Body,
            Err(refusal) => Asked::Refuses(refusal),
        };
    }
    Asked::Refuses(Refusal::NotServed)
}

/// How many bytes the body has, or the refusal.
fn framing_of(coding: TransferEncoding, length: ContentLength) -> Result<u64, Refusal>
    ensures { result ≡ framing_of coding length }
{
    match coding {
        TransferEncoding::Absent => match length {
            ContentLength::Absent => Ok(0),
            ContentLength::Value(len) => {
                if len <= MAX_BODY {
                    Ok(len)
                } else {
                    Err(Refusal::BodyTooLong)
                }
            }
            ContentLength::Invalid => Err(Refusal::BadHead),
        },
        TransferEncoding::Chunked => Err(Refusal::NotServed),
        TransferEncoding::Other => Err(Refusal::NotServed),
        TransferEncoding::Blank => Err(Refusal::NotServed),
        TransferEncoding::Invalid => Err(Refusal::NotServed),
    }
}

fn is_served(method: &[u8]) -> bool
    ensures { result ≡ is_served method.now }
{
    method == b"GET".as_slice() || method == b"POST".as_slice()
}

/// A summary of the first of the fields.
fn known_of(bytes: &[u8], headers: &[HeaderSpan], count: usize, len: usize) -> KnownFields
    requires count { count ≤ length headers.now }
    requires len { len ≤ length bytes.now }
    requires within { All (IsHeaderWithin len) (take count headers.now) }
    ensures { result ≡ known_fields (map (header_bytes bytes.now) (take count headers.now)) }
{
    KnownFields::from_spans(bytes, &headers[..count])
}

/// Looks for a head at the front of the bytes. Of the first `seen` it is known that no head stands there; since a head
/// ends with the end of a line, the bytes are not parsed where none has come since.
pub fn front_of(bytes: &[u8], seen: usize) -> Front
    requires seen { seen ≤ length bytes.now }
    requires none { HasNoRequest (take seen bytes.now) }
    ensures { FrontOf bytes.now result }
{
    if has_line_end(&bytes[seen..]) {
        parsed_front(bytes)
    } else {
        Front::Partial
    }
}

/// Whether a line may end in these bytes.
fn has_line_end(bytes: &[u8]) -> bool
    ensures { result ≡ has_line_end bytes.now }
{
    bytes.contains(&b'\n')
}

/// Looks for a head at the front of the bytes.
fn parsed_front(bytes: &[u8]) -> Front
    requires { 0 < length bytes.now }
    ensures { FrontOf bytes.now result }
{
    let mut headers = [EMPTY_HEADER_SPAN; MAX_HEAD_FIELDS];
    match parse_request(bytes, &mut headers) {
        Ok(Status::Complete(spans)) => {
            let method = spans.method.of(bytes);
            let known = known_of(bytes, &headers, spans.headers, spans.len);
            Front::Whole(WholeHead {
                len: spans.len,
                asked: asked_of(bytes, method, spans.path),
                framing: framing_of(known.transfer_encoding, known.content_length),
                last: any_of(spans.version == 0, !is_served(method), known.close),
                bare: method == b"HEAD".as_slice(),
            })
        }
        Ok(Status::Partial) => Front::Partial,
        Err(_) => Front::Bad,
    }
}

fn any_of(a: bool, b: bool, c: bool) -> bool
    ensures { result ≡ a || b || c }
{
    a || b || c
}
