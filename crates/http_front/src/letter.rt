//! A reply on its way out.
ghost use Rattle.std.specs.Prelude.{◌≡◌, ◌+◌, ◌≤◌, [], ◌++◌, length};
ghost use Rattle.http_front.specs.Sending.{SendsMore, Finishes};

use std::marker::Model;
use stream_face::{Sink, send_all};

/// The most bytes that are held back.
const LETTER_LIMIT: usize = 2048;

/// The part of a reply that is not yet written. It is written when no more of the reply fits, and at its end, so that a
/// reply that fits goes out in one write. Making one takes no memory.
#[derive(Drop)]
pub struct Letter {
    bytes: [u8; LETTER_LIMIT],
    filled: usize,
}

impl Model for Letter {
    ghost use Rattle.std.specs.Prelude.{◌≤◌, List, ℕ, take};
    ghost use Rattle.http_front.specs.declared.letter.TheConstants.{LETTER_LIMIT};

    ghost Value = { List ℕ };

    ghost view = { λ a. take a.filled a.bytes };

    ghost invariant = { λ a. a.filled ≤ LETTER_LIMIT };
}

impl Letter {
    pub fn new() -> Letter
        ensures { result ≡ [] }
    {
        Letter {
            bytes: [0; LETTER_LIMIT],
            filled: 0,
        }
    }

    /// How many more bytes fit.
    fn room(&self) -> usize
        ensures { result + length self.now ≡ LETTER_LIMIT }
    {
        LETTER_LIMIT - self.filled
    }

    /// Holds these bytes back too.
    fn append(&mut self, bytes: &[u8])
        requires { length self.old + length bytes.now ≤ LETTER_LIMIT }
        ensures { self.new ≡ self.old ++ bytes.now }
    {
        let end = self.filled + bytes.len();
        self.bytes[self.filled..end].copy_from_slice(bytes);
        self.filled = end;
    }

    /// The bytes that are held back.
    fn held(&self) -> &[u8]
        ensures { result.now ≡ self.now }
    {
        &self.bytes[..self.filled]
    }

    /// Holds nothing back.
    fn clear(&mut self)
        ensures { self.new ≡ [] }
    {
        self.filled = 0;
    }

    /// Adds bytes to the reply, unless a write failed before. It says whether none has failed.
    pub fn add<K: Sink>(&mut self, sink: &mut K, ok: bool, bytes: &[u8]) -> bool
        ensures { SendsMore (K.view sink.old) (K.view sink.new) ok result bytes.now self.old self.new }
    {
        if !ok {
            return false;
        }
        if bytes.len() <= self.room() {
            self.append(bytes);
            return true;
        }
        if !send_all(sink, self.held()) {
            return false;
        }
        self.clear();
        send_all(sink, bytes)
    }

    /// Writes what is held back, at the end of the reply. It says whether nothing has failed.
    pub fn finish<K: Sink>(&self, sink: &mut K, ok: bool) -> bool
        ensures { Finishes (K.view sink.old) (K.view sink.new) ok result self.now }
    {
        if !ok {
            return false;
        }
        send_all(sink, self.held())
    }
}
