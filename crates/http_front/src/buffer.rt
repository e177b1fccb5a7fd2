//! What has come of a stream and is not yet used.
ghost use Rattle.std.specs.Prelude.{◌≡◌, ◌<◌, ◌≤◌, [], length, drop};
ghost use Rattle.http_front.specs.Limits.{max_head};
ghost use Rattle.http_front.specs.Bytes.{Fills, TellsFilled};

use std::marker::Model;
use stream_face::Source;

/// The most bytes that a head may have.
pub const MAX_HEAD: usize = 16384;

/// What one read did: bytes came, the stream is at its end, or the read failed.
#[derive(Clone, Copy, PartialEq, Eq)]
pub enum Filled {
    More,
    End,
    Fault,
}

/// The bytes that came and are not used, at most as many as a head may have. Making one takes no memory.
#[derive(Drop)]
pub struct Buffer {
    bytes: [u8; MAX_HEAD],
    start: usize,
    end: usize,
}

impl Model for Buffer {
    ghost use Rattle.std.specs.Prelude.{◌≤◌, List, ℕ, slice_range};
    ghost use Rattle.http_front.specs.Limits.{max_head};

    ghost Value = { List ℕ };

    ghost view = { λ a. slice_range a.bytes a.start a.end };

    ghost invariant = { λ a. (a.start ≤ a.end) × (a.end ≤ max_head) };
}

impl Buffer {
    pub fn new() -> Buffer
        ensures { result ≡ [] }
    {
        Buffer {
            bytes: [0; MAX_HEAD],
            start: 0,
            end: 0,
        }
    }

    /// The bytes that are held.
    pub fn held(&self) -> &[u8]
        ensures value { result.now ≡ self.now }
        ensures fits { length self.now ≤ max_head }
    {
        &self.bytes[self.start..self.end]
    }

    pub fn len(&self) -> usize
        ensures { result ≡ length self.now }
    {
        self.end - self.start
    }

    /// Reads once, behind what is held, at most so many bytes.
    pub fn fill<S: Source>(&mut self, source: &mut S, most: usize) -> Filled
        requires room { length self.old < max_head }
        requires some { 0 < most }
        ensures bytes { Fills (S.view source.old) (S.view source.new) self.old self.new most result }
        ensures told { TellsFilled (S.view source.old) (S.view source.new) result }
    {
        self.bytes.copy_within(self.start..self.end, 0);
        self.end -= self.start;
        self.start = 0;
        let room = most.min(MAX_HEAD - self.end);
        match source.read_some(&mut self.bytes[self.end..self.end + room]) {
            Ok(0) => Filled::End,
            Ok(count) => {
                self.end += count;
                Filled::More
            }
            Err(_) => Filled::Fault,
        }
    }

    /// Drops the first bytes.
    pub fn discard(&mut self, count: usize)
        requires { count ≤ length self.old }
        ensures { self.new ≡ drop count self.old }
    {
        self.start += count;
    }
}
