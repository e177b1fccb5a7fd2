//! The header of a store file, and the numbers in its bytes.
ghost use Rattle.std.specs.Prelude.{◌≡◌, ◌≢◌, ◌≤◌, ◌<◌, ◌+◌, ◌^◌, ℕ, take, length, slice_index, IfOk, IfErr, IsTrue, ◌↔◌, MatchOption};
ghost use Rattle.file_bytes.specs.declared.form.Version.{Version};
ghost use Rattle.file_bytes.specs.declared.form.Version.TheVariants.{Two};
ghost use Rattle.block_file.specs.Format.{number_at, magic_bytes, state_number, version_number, TellsVersion, Put, IsHeader};
ghost use Rattle.block_file.specs.Links.{IsNoHeader};

use crate::OpenFault;
use byteorder::{ByteOrder, LittleEndian};
use file_bytes::{BLOCK_BYTES, Version};

/// What each store file begins with.
const MAGIC: &[u8; 8] = b"WCPSTORE";

/// The number of the version in which headers are written.
const VERSION: u32 = 2;

/// The version that a number tells, if it tells one.
fn version_of(number: u32) -> Option<Version>
    ensures { MatchOption result ((v : Version) → version_number v ≢ number) (λ v. version_number v ≡ number) }
{
    match number {
        1 => Some(Version::One),
        2 => Some(Version::Two),
        _ => None,
    }
}

/// Whether a session has the file open, or closed it.
#[derive(Clone, Copy, PartialEq, Eq)]
pub enum State {
    Open,
    Closed,
}

impl State {
    fn number(self) -> u32
        ensures { result ≡ state_number self }
    {
        match self {
            State::Open => 1,
            State::Closed => 2,
        }
    }
}

/// What a closed header tells: its version, the number of blocks, the first metadata block, and the metadata's length
/// in bytes.
#[derive(Clone, Copy)]
pub(crate) struct Header {
    pub version: Version,
    pub blocks: u32,
    pub first: u32,
    pub length: u64,
}

/// The number in four bytes from `at` on, the lowest first.
pub(crate) fn u32_at(bytes: &[u8], at: usize) -> u32
    requires { at + 4 ≤ length bytes.now }
    ensures { result ≡ number_at at 4 bytes.now }
{
    LittleEndian::read_u32(&bytes[at..])
}

/// The number in eight bytes from `at` on, the lowest first.
fn u64_at(bytes: &[u8], at: usize) -> u64
    requires { at + 8 ≤ length bytes.now }
    ensures { result ≡ number_at at 8 bytes.now }
{
    LittleEndian::read_u64(&bytes[at..])
}

/// Writes a number into so many bytes from `at` on, the lowest first.
pub(crate) fn put_number(bytes: &mut [u8], at: usize, width: usize, n: u64)
    requires width { (1 ≤ width) × (width ≤ 8) }
    requires inside { at + width ≤ length bytes.old }
    requires fits { n < 256 ^ width }
    ensures { Put at width n bytes.old bytes.new }
{
    LittleEndian::write_uint(&mut bytes[at..at + width], n, width);
}

/// A header whose fields are all zero.
fn blank_header() -> [u8; BLOCK_BYTES]
    ensures magic { take 8 result ≡ magic_bytes }
    ensures zeros { (i : ℕ) → 8 ≤ i → slice_index result i ≡ 0 }
{
    let mut bytes = [0u8; BLOCK_BYTES];
    bytes[..8].copy_from_slice(MAGIC);
    bytes
}

/// The bytes of a header of version 2.
pub(crate) fn header_bytes(state: State, blocks: u32, first: u32, length: u64) -> [u8; BLOCK_BYTES]
    ensures header { IsHeader result state blocks first length }
    ensures version { TellsVersion Two result }
{
    let mut bytes = blank_header();
    put_number(&mut bytes, 8, 4, VERSION as u64);
    put_number(&mut bytes, 12, 4, state.number() as u64);
    put_number(&mut bytes, 16, 4, blocks as u64);
    put_number(&mut bytes, 20, 4, first as u64);
    put_number(&mut bytes, 24, 8, length);
    bytes
}

/// Reads the header of a closed store file. Refused as no store file for another magic or version, then as not closed
/// for the state of an open one, then as damaged for another state or bytes behind the fields that are not zero.
pub(crate) fn parse_header(bytes: &[u8; BLOCK_BYTES]) -> Result<Header, OpenFault>
    ensures ok { IfOk result (λ header. IsHeader bytes.now State.Closed header.blocks header.first header.length) }
    ensures version { IfOk result (λ header. TellsVersion header.version bytes.now) }
    ensures refused { IfErr result (λ fault. IsNoHeader fault bytes.now) }
{
    if bytes[..8] != MAGIC[..] {
        return Err(OpenFault::NotAStore);
    }
    let Some(version) = version_of(u32_at(bytes, 8)) else {
        return Err(OpenFault::NotAStore);
    };
    let state = u32_at(bytes, 12);
    if state == State::Open.number() {
        return Err(OpenFault::NotClosed);
    }
    if state != State::Closed.number() {
        return Err(OpenFault::Damaged);
    }
    if !all_zero(bytes, 32) {
        return Err(OpenFault::Damaged);
    }
    Ok(Header {
        version,
        blocks: u32_at(bytes, 16),
        first: u32_at(bytes, 20),
        length: u64_at(bytes, 24),
    })
}

/// Whether each byte from `at` on is zero.
fn all_zero(bytes: &[u8], at: usize) -> bool
    requires { at ≤ length bytes.now }
    ensures { IsTrue result ↔ ((i : ℕ) → at ≤ i → i < length bytes.now → slice_index bytes.now i ≡ 0) }
{
    bytes[at..].iter().all(|byte| *byte == 0)
}
