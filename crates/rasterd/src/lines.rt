//! What the program says of errors, a line each.
ghost use Rattle.rasterd.specs.Lines.{Says, SaysMore, fault_line};

use arr_core::Refusal;
use itoa::Buffer;
use stream_face::{Sink, flush_if, send_all};

/// Writes a text too, unless an earlier write failed. It says whether nothing has failed.
fn put<E: Sink>(errors: &mut E, ok: bool, text: &str) -> bool
    ensures { SaysMore (E.view errors.old) (E.view errors.new) ok result text.now }
{
    if !ok {
        return false;
    }
    send_all(errors, text.as_bytes())
}

/// Writes a line; what cannot be written is left out.
pub fn say<E: Sink>(errors: &mut E, line: &str)
    ensures { Says (E.view errors.old) (E.view errors.new) line.now }
{
    let ok = send_all(errors, line.as_bytes());
    let _flushed = flush_if(errors, ok);
}

/// Says on a line why a store was not opened or not closed, as `not opened: 94 NotAStore`.
pub fn tell<E: Sink>(errors: &mut E, what: &str, refusal: Refusal)
    ensures { Says (E.view errors.old) (E.view errors.new) (fault_line what.now refusal) }
{
    let mut digits = Buffer::new();
    let number_text = digits.format(refusal.number());
    let ok = send_all(errors, what.as_bytes());
    let ok = put(errors, ok, ": ");
    let ok = put(errors, ok, number_text);
    let ok = put(errors, ok, " ");
    let ok = put(errors, ok, refusal.name());
    let ok = put(errors, ok, "\n");
    let _flushed = flush_if(errors, ok);
}
