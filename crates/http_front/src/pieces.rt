//! Readers and writers to try a connection with: they give and take their bytes in pieces, and one of their calls may
//! fail.
ghost use Rattle.std.specs.Prelude.{◌≡◌, ◌≢◌, ◌-◌, [], length, true, false, IsErr, IsOk, IfOk, IfErr, OnErr};
ghost use Rattle.std.specs.Io.{ReadsAtMost, WritesAtMost};
ghost use Rattle.std.specs.IoError.{error_kind};
ghost use Rattle.std.specs.Io.KnownBytes.{ReadConsumes, WriteAppends};
ghost use Rattle.http_front.specs.Pieces.{read_count, write_count, FailsToRead, FailsToWrite};

use std::alloc::Global;
use std::io;
use std::io::{ErrorKind, Read, Write};
use std::marker::Model;

/// A reader of some bytes in pieces: one that ends at the cut, if there is one before it, and then pieces of `step`
/// bytes, or of one where that is 0. Behind the bytes it ends, or each read fails. One call may fail before: the call
/// `due`, from 1 for the next one.
#[derive(Drop)]
pub struct PieceReader<'a> {
    bytes: &'a [u8],
    cut: usize,
    step: usize,
    due: u64,
    kind: ErrorKind,
    breaks: bool,
}

impl<'a> Model for PieceReader<'a> {
    ghost use Rattle.http_front.specs.Pieces.{Reading};

    ghost Value = { Reading };

    ghost view = { λ r. record { bytes = r.bytes.now; cut = r.cut; step = r.step; due = r.due; kind = r.kind; breaks = r.breaks } };
}

impl<'a> PieceReader<'a> {
    /// A reader of these bytes in pieces, of whose calls none fails.
    pub fn new(bytes: &'a [u8], cut: usize, step: usize) -> PieceReader<'a>
        ensures bytes { result.bytes ≡ bytes.now }
        ensures cut { result.cut ≡ cut }
        ensures step { result.step ≡ step }
        ensures due { result.due ≡ 0 }
        ensures ends { result.breaks ≡ false }
    {
        PieceReader {
            bytes,
            cut,
            step,
            due: 0,
            kind: ErrorKind::Other,
            breaks: false,
        }
    }

    /// Has call k fail, from 1 for the next one, with a fault of this kind: none for 0.
    pub fn fail_at(&mut self, k: u64, kind: ErrorKind)
        ensures { self.new ≡ record self.old { due = k; kind = kind } }
    {
        self.due = k;
        self.kind = kind;
    }

    /// Has each read behind the bytes fail.
    pub fn break_off(&mut self)
        ensures { self.new ≡ record self.old { breaks = true } }
    {
        self.breaks = true;
    }

    /// The bytes that were not read yet.
    pub fn rest(&self) -> &[u8]
        ensures { result.now ≡ self.now.bytes }
    {
        self.bytes
    }

    /// Counts a call, and says whether it fails.
    fn fails(&mut self) -> bool
        ensures due { self.new ≡ record self.old { due = self.old.due - 1 } }
        ensures fails { result ≡ true → FailsToRead self.old }
        ensures reads { result ≡ false → FailsToRead self.old → ⊥ }
    {
        let fails = self.due == 1 || self.bytes.is_empty() && self.breaks;
        self.due = self.due.saturating_sub(1);
        fails
    }
}

impl Read for PieceReader<'_> {
    ghost use Rattle.std.specs.Prelude.{Some};

    ghost remaining = { λ r. Some r.bytes };

    /// Fails where its turn has come, and behind the bytes where it breaks off; else it gives a piece.
    fn read(&mut self, buf: &mut [u8]) -> io::Result<usize>
        ensures bound { ReadsAtMost result buf.new }
        ensures bytes { ReadConsumes (Some self.old.bytes) (Some self.new.bytes) result buf.new }
        ensures given { (FailsToRead self.old → ⊥) → result ≡ Ok (read_count self.old (length buf.old)) }
        ensures fails { FailsToRead self.old → IsErr result }
        ensures kind { IfErr result (λ e. error_kind e ≡ self.old.kind) }
        ensures cut { IfOk result (λ n. self.new.cut ≡ self.old.cut - n) }
        ensures refused { OnErr result (self.new.cut ≡ self.old.cut) }
        ensures same { (self.new.step ≡ self.old.step) × (self.new.breaks ≡ self.old.breaks) × (self.new.kind ≡ self.old.kind) }
        ensures due { self.new.due ≡ self.old.due - 1 }
    {
        let kind = self.kind;
        if self.fails() {
            return Err(kind.into());
        }
        let most = if self.cut == 0 {
            self.step.max(1)
        } else {
            self.cut
        };
        let count = self.bytes.len().min(most).min(buf.len());
        buf[..count].copy_from_slice(&self.bytes[..count]);
        self.bytes = &self.bytes[count..];
        self.cut = self.cut.saturating_sub(count);
        Ok(count)
    }
}

/// A writer that takes its bytes in pieces of at most `step`, or of one where that is 0, and `room` in all; then each
/// write fails. One call may fail before, a flush too: the call `due`, from 1 for the next one.
#[derive(Drop)]
pub struct PieceWriter {
    text: Vec<u8>,
    flushed: usize,
    step: usize,
    room: usize,
    due: u64,
    kind: ErrorKind,
}

impl Model for PieceWriter {
    ghost use Rattle.std.specs.Prelude.{length, ◌≤◌};
    ghost use Rattle.http_front.specs.Pieces.{Writing};

    ghost Value = { Writing };

    ghost view = { λ w. record { text = w.text.items; flushed = w.flushed; step = w.step; room = w.room; due = w.due; kind = w.kind } };

    ghost invariant = { λ w. w.flushed ≤ length w.text.items };
}

impl PieceWriter {
    /// A writer in pieces, of whose calls none fails until it has taken so many bytes.
    pub fn new(alloc: Global, step: usize, room: usize) -> PieceWriter
        ensures text { result.text ≡ [] }
        ensures flushed { result.flushed ≡ 0 }
        ensures step { result.step ≡ step }
        ensures room { result.room ≡ room }
        ensures due { result.due ≡ 0 }
    {
        PieceWriter {
            text: Vec::new(alloc),
            flushed: 0,
            step,
            room,
            due: 0,
            kind: ErrorKind::Other,
        }
    }

    /// Has call k fail, from 1 for the next one, with a fault of this kind: none for 0.
    pub fn fail_at(&mut self, k: u64, kind: ErrorKind)
        ensures { self.new ≡ record self.old { due = k; kind = kind } }
    {
        self.due = k;
        self.kind = kind;
    }

    /// What was taken.
    pub fn text(&self) -> &[u8]
        ensures { result.now ≡ self.now.text }
    {
        self.text.as_slice()
    }

    /// How many of the bytes were flushed.
    pub fn flushed(&self) -> usize
        ensures { result ≡ self.now.flushed }
    {
        self.flushed
    }

    /// Counts a call, and says whether its turn to fail has come.
    fn is_due(&mut self) -> bool
        ensures due { self.new ≡ record self.old { due = self.old.due - 1 } }
        ensures fails { result ≡ true → self.old.due ≡ 1 }
        ensures works { result ≡ false → self.old.due ≢ 1 }
    {
        let is_due = self.due == 1;
        self.due = self.due.saturating_sub(1);
        is_due
    }
}

impl Write for PieceWriter {
    ghost use Rattle.std.specs.Prelude.{Some};

    ghost contents = { λ w. Some w.text };

    /// Fails where its turn has come, where there is no room, and where no memory is found; else it takes a piece.
    fn write(&mut self, bytes: &[u8]) -> io::Result<usize>
        ensures bound { WritesAtMost result bytes.now }
        ensures bytes { WriteAppends (Some self.old.text) (Some self.new.text) result bytes.now }
        ensures taken { IfOk result (λ n. n ≡ write_count self.old (length bytes.now)) }
        ensures room { IfOk result (λ n. self.new.room ≡ self.old.room - n) }
        ensures fails { FailsToWrite self.old → IsErr result }
        ensures kind { self.old.due ≡ 1 → IfErr result (λ e. error_kind e ≡ self.old.kind) }
        ensures wants { (FailsToWrite self.old → ⊥) → IfErr result (λ e. error_kind e ≡ ErrorKind.OutOfMemory) }
        ensures due { self.new.due ≡ self.old.due - 1 }
        ensures refused { OnErr result (self.new.room ≡ self.old.room) }
        ensures same { self.new ≡ record self.old { text = self.new.text; room = self.new.room; due = self.new.due } }
    {
        let kind = self.kind;
        if self.is_due() {
            return Err(kind.into());
        }
        if self.room == 0 {
            return Err(ErrorKind::Other.into());
        }
        let count = bytes.len().min(self.room).min(self.step.max(1));
        self.text.extend_from_slice(&bytes[..count])?;
        self.room -= count;
        Ok(count)
    }

    /// Fails where its turn has come.
    fn flush(&mut self) -> io::Result<()>
        ensures fails { self.old.due ≡ 1 → IsErr result }
        ensures kind { self.old.due ≡ 1 → IfErr result (λ e. error_kind e ≡ self.old.kind) }
        ensures works { self.old.due ≢ 1 → IsOk result × (self.new.flushed ≡ length self.old.text) }
        ensures due { self.new.due ≡ self.old.due - 1 }
        ensures refused { OnErr result (self.new.flushed ≡ self.old.flushed) }
        ensures same { self.new ≡ record self.old { flushed = self.new.flushed; due = self.new.due } }
    {
        let kind = self.kind;
        if self.is_due() {
            return Err(kind.into());
        }
        self.flushed = self.text.len();
        Ok(())
    }
}
