//! Bytes that go out whole, or up to a fault.
ghost use Rattle.std.specs.Prelude.{◌≡◌, true};
ghost use Rattle.stream_face.specs.Faults.{Sent, KeepsSent};
ghost use Rattle.stream_face.specs.Waiting.{IsFlushed};

use crate::Sink;

/// Writes all of the bytes, in as many writes as it takes. It says whether all went out; else a first part did.
pub fn send_all<K: Sink>(sink: &mut K, bytes: &[u8]) -> bool
    ensures { Sent (K.view sink.old) (K.view sink.new) result bytes.now }
{
    let mut sent = 0;
    'sending: while sent < bytes.len() {
        match sink.write_some(&bytes[sent..]) {
            Ok(0) => return false,
            Ok(count) => sent += count,
            Err(_) => return false,
        }
    }
    true
}

/// Flushes what was written, where nothing failed before. It says whether nothing has failed; then no byte waits.
pub fn flush_if<K: Sink>(sink: &mut K, ok: bool) -> bool
    ensures flushed { result ≡ true → IsFlushed (K.view sink.new).waiting }
    ensures sent { KeepsSent (K.view sink.old) (K.view sink.new) ok result }
{
    if !ok {
        return false;
    }
    match sink.hand_on() {
        Ok(()) => true,
        Err(_) => false,
    }
}
