//! Bytes that are written as text with escapes.

use crate::answer::Answer;
use anyhow::{Result, bail};
use std::alloc::{AllocError, Global};

/// What the next byte of a text belongs to.
#[derive(Clone, Copy, PartialEq)]
enum Place {
    Plain,
    Escape,
    HighDigit,
    LowDigit,
    Count,
}

/// What was read of a text so far. Want of memory is kept as that the text is wrong.
#[derive(Drop)]
struct Reading {
    bytes: Vec<u8>,
    place: Place,
    high: u8,
    /// How often the piece stands, and where it begins.
    times: usize,
    start: usize,
    is_piece: bool,
    is_wrong: bool,
}

/// The number of a hexadecimal digit, and 16 for another byte.
fn digit(byte: u8) -> u8 {
    match byte {
        b'0'..=b'9' => byte - b'0',
        b'a'..=b'f' => byte - b'a' + 10,
        b'A'..=b'F' => byte - b'A' + 10,
        _ => 16,
    }
}

impl Reading {
    fn new(alloc: Global) -> Reading {
        Reading {
            bytes: Vec::new(alloc),
            place: Place::Plain,
            high: 0,
            times: 0,
            start: 0,
            is_piece: false,
            is_wrong: false,
        }
    }

    fn push(&mut self, byte: u8) {
        if self.bytes.push(byte).is_err() {
            self.is_wrong = true;
        }
    }

    /// The number of a digit.
    fn digit(&mut self, byte: u8) -> u8 {
        let number = digit(byte);
        if number == 16 {
            self.is_wrong = true;
        }
        number
    }

    /// A byte that stands for itself, or begins an escape or ends a piece.
    fn plain(&mut self, byte: u8) {
        if byte == b'\\' {
            self.place = Place::Escape;
        } else if byte == b'}' && self.is_piece {
            self.repeat();
        } else {
            self.push(byte);
        }
    }

    /// Writes one byte of the piece again.
    fn again(&mut self, place: usize) {
        if place < self.bytes.len() {
            let byte = self.bytes[place];
            self.push(byte);
        }
    }

    /// Writes the piece so often that it stands as often as was written before it.
    fn repeat(&mut self) {
        self.is_piece = false;
        let length = self.bytes.len().saturating_sub(self.start);
        if self.times == 0 {
            self.bytes.truncate(self.start);
        }
        for k in 0..length.saturating_mul(self.times.saturating_sub(1)) {
            self.again(self.start.saturating_add(k));
        }
    }

    /// The byte behind a backslash.
    fn escape(&mut self, byte: u8) {
        self.place = Place::Plain;
        match byte {
            b'n' => self.push(b'\n'),
            b'r' => self.push(b'\r'),
            b't' => self.push(b'\t'),
            b'\\' => self.push(b'\\'),
            b'x' => self.place = Place::HighDigit,
            b'0'..=b'9' => self.begin_count(byte),
            _ => self.is_wrong = true,
        }
    }

    /// The first digit of the number before a piece.
    fn begin_count(&mut self, byte: u8) {
        self.place = Place::Count;
        self.times = 0;
        self.count_digit(byte);
    }

    fn count_digit(&mut self, byte: u8) {
        let units = usize::from(self.digit(byte));
        self.times = self.times.saturating_mul(10).saturating_add(units);
    }

    /// A byte of the number before a piece that is repeated.
    fn count(&mut self, byte: u8) {
        if byte == b'{' {
            self.is_piece = true;
            self.start = self.bytes.len();
            self.place = Place::Plain;
        } else {
            self.count_digit(byte);
        }
    }

    fn high_digit(&mut self, byte: u8) {
        self.high = self.digit(byte);
        self.place = Place::LowDigit;
    }

    fn low_digit(&mut self, byte: u8) {
        let low = self.digit(byte);
        self.push(self.high.wrapping_mul(16) | low);
        self.place = Place::Plain;
    }

    fn take(&mut self, byte: u8) {
        match self.place {
            Place::Plain => self.plain(byte),
            Place::Escape => self.escape(byte),
            Place::HighDigit => self.high_digit(byte),
            Place::LowDigit => self.low_digit(byte),
            Place::Count => self.count(byte),
        }
    }

    /// A digit of bytes that are digits alone.
    fn hexadecimal(&mut self, byte: u8) {
        if self.place == Place::Plain {
            self.high_digit(byte);
        } else {
            self.low_digit(byte);
        }
    }

    fn finish(self) -> Result<Vec<u8>> {
        if self.is_wrong {
            bail!("no such escape, or no memory");
        }
        Ok(self.bytes)
    }
}

/// The bytes that a text is written for. `\n`, `\r`, `\t` and `\\` are as in Rust, `\x2e` is the byte of that
/// number, and `\12{ab}` is `ab` twelve times; a piece holds no brace of its own but as `\x7d`.
pub fn bytes(alloc: Global, text: &str) -> Result<Vec<u8>> {
    let mut reading = Reading::new(alloc);
    for byte in text.as_bytes() {
        reading.take(*byte);
    }
    reading.finish()
}

/// The text that a text is written for, by the same escapes.
pub fn text(alloc: Global, written: &str) -> Result<String> {
    Ok(String::from_utf8(bytes(alloc, written)?)?)
}

/// The bytes of hexadecimal digits, as `0a0b`.
pub fn hex_bytes(alloc: Global, digits: &str) -> Result<Vec<u8>> {
    let mut reading = Reading::new(alloc);
    for byte in digits.as_bytes() {
        reading.hexadecimal(*byte);
    }
    reading.finish()
}

/// Bytes as hexadecimal digits.
pub fn hex(alloc: Global, bytes: &[u8]) -> Result<String, AllocError> {
    let mut answer = Answer::new(alloc);
    answer.hex(bytes);
    answer.into_string()
}
