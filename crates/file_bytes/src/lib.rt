//! The bytes of a file format: numbers with the lowest byte first, read from the front and written
//! at the end.
#![tactic(auto)]

ghost use Rattle.std.specs.Prelude.{◌≡◌, ◌<◌, ◌^◌, ℕ, List, [], ◌∷◌, ◌++◌, length, MatchOption, IfSome, OnOk};
ghost use Rattle.byteorder.specs.Endian.{little_bytes};
ghost use Rattle.file_bytes.specs.Codes.{signed_bytes, Splits, IsRead, ReadsSigned};

mod error;
mod form;

use byteorder::{ByteOrder, LittleEndian};
pub use error::ReadError;
pub use form::{Form, Version};
use std::alloc::AllocError;
use std::marker::Model;

/// How many bytes a block of a file has.
pub const BLOCK_BYTES: usize = 4096;

/// What is left to be read of some bytes.
#[derive(Drop)]
pub struct Reader<'a> {
    rest: &'a [u8],
}

impl<'a> Model for Reader<'a> {
    ghost Value = { List ℕ };

    ghost view = { λ r. r.rest.now };
}

impl<'a> Reader<'a> {
    /// A reader of all of `bytes`.
    pub fn new(bytes: &'a [u8]) -> Self
        ensures { result ≡ bytes.now }
    {
        Reader { rest: bytes }
    }

    /// How many bytes are left.
    pub fn len(&self) -> usize
        ensures { result ≡ length self.now }
    {
        self.rest.len()
    }

    /// The next `count` bytes, or none where fewer are left.
    pub fn take(&mut self, count: usize) -> Option<&'a [u8]>
        ensures taken { MatchOption result (length self.old < count) (λ bytes. Splits count self.old bytes.now self.new) }
        ensures left { MatchOption result (self.new ≡ self.old) (λ _. Unit {0}) }
    {
        if self.rest.len() < count {
            return None;
        }
        let front = &self.rest[..count];
        self.rest = &self.rest[count..];
        Some(front)
    }

    /// The next byte, or none where none is left.
    pub fn read_u8(&mut self) -> Option<u8>
        ensures { MatchOption result ((self.old ≡ []) × (self.new ≡ [])) (λ byte. self.old ≡ byte ∷ self.new) }
    {
        let (first, others) = self.rest.split_first()?;
        self.rest = others;
        Some(*first)
    }

    /// The number in the next 4 bytes, or none where fewer are left.
    pub fn read_u32(&mut self) -> Option<u32>
        ensures read { MatchOption result (length self.old < 4)
            (λ number. self.old ≡ little_bytes 4 number ++ self.new) }
        ensures left { MatchOption result (self.new ≡ self.old) (λ _. Unit {0}) }
        ensures only { IfSome result (λ number. IsRead (λ n. n < 2 ^ 32) (little_bytes 4) self.old number self.new) }
    {
        let bytes = self.take(4)?;
        Some(number_of(bytes))
    }

    /// The signed number in the next 4 bytes, in two's complement, or none where fewer are left.
    pub fn read_i32(&mut self) -> Option<i32>
        ensures read { MatchOption result (length self.old < 4) (λ number. ReadsSigned self.old number self.new) }
        ensures left { MatchOption result (self.new ≡ self.old) (λ _. Unit {0}) }
    {
        let bytes = self.take(4)?;
        Some(signed_number_of(bytes))
    }
}

/// The number whose bytes these are, the lowest first.
fn number_of(bytes: &[u8]) -> u32
    requires { length bytes.now ≡ 4 }
    ensures { bytes.now ≡ little_bytes 4 result }
{
    LittleEndian::read_u32(bytes)
}

/// The signed number whose bytes these are in two's complement, the lowest first.
fn signed_number_of(bytes: &[u8]) -> i32
    requires { length bytes.now ≡ 4 }
    ensures { bytes.now ≡ signed_bytes result }
{
    LittleEndian::read_i32(bytes)
}

/// Writes a number in 4 bytes after the others.
pub fn push_u32(bytes: &mut Vec<u8>, number: u32) -> Result<(), AllocError>
    ensures { OnOk result (bytes.new.items ≡ bytes.old.items ++ little_bytes 4 number) }
{
    let mut piece = [0; 4];
    LittleEndian::write_u32(&mut piece, number);
    bytes.extend_from_slice(&piece)?;
    Ok(())
}

/// Writes a signed number in 4 bytes after the others, in two's complement.
pub fn push_i32(bytes: &mut Vec<u8>, number: i32) -> Result<(), AllocError>
    ensures { OnOk result (bytes.new.items ≡ bytes.old.items ++ signed_bytes number) }
{
    let mut piece = [0; 4];
    LittleEndian::write_i32(&mut piece, number);
    bytes.extend_from_slice(&piece)?;
    Ok(())
}
