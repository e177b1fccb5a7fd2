//! Blocks of 4,096 bytes in a disk: which are free, what each holds, and the header and the chain of metadata blocks
//! of a closed store file. Block 0 is the header.
#![tactic(auto)]

ghost use Rattle.std.specs.Prelude.{◌≡◌, ℕ, ◌+◌, ◌*◌, ◌%◌, ◌<◌, ◌↔◌, length, IsTrue, IsErr, OnOk, OnErr, IfOk, IsErrOf};
ghost use Rattle.disk_face.specs.Disk.{Torn, Tells};
ghost use Rattle.file_bytes.specs.Limits.{block_bytes};
ghost use Rattle.block_file.specs.State.{BlocksState, block, free_of, one, times, none};
ghost use Rattle.block_file.specs.Words.{OnlyReads, Recounts, Moves, AreLowestFree, AreUsed, AreBytesOf, blocks_from, Covers, OthersKept, OnlyHeader, WritesHeader};

mod block_file;
mod chain;
mod fault;
mod header;
mod marks;

pub use block_file::{BlockFile, NotOpened, Opened};
pub use chain::write_chain;
use disk_face::DiskFault;
pub use fault::{CloseFault, Damaged, OpenFault, TakeFault};
use file_bytes::BLOCK_BYTES;
pub use header::State;
use std::alloc::AllocError;

/// How many blocks a file has at most.
pub const MAX_BLOCKS: usize = 1048576;

/// How many bytes of metadata a file has at most: more than the catalogue and the indexes of any store take, so that a
/// damaged file takes no more memory than a store.
pub const MAX_METADATA: u64 = 15_000_000;

/// How many bytes of metadata a block of the chain holds, behind the number of the next block.
pub const CHAIN_BYTES: usize = 4092;

/// The blocks of a file. A block is free where it is in no use; the header, block 0, never is, and nobody uses it.
pub trait Blocks {
    /// What the blocks hold and how often each is in use, and what is known of the disk.
    ghost state: { Self → BlocksState };

    /// What block k holds as of its last write. Refused only where the disk has counted a failure.
    fn read(&mut self, k: u32, bytes: &mut [u8; BLOCK_BYTES]) -> Result<(), DiskFault>
        requires { 0 < (state self.old).uses k }
        ensures value { OnOk result (IsTrue (state self.old).honest → bytes.new ≡ block (state self.old) k) }
        ensures frame { OnlyReads (one k) (state self.old) (state self.new) }
        ensures told { Tells (IsErr result) (state self.old).failures (state self.new).failures };

    /// What neighbouring blocks hold, from block k on, one behind the other: as many as the bytes have room for.
    /// Refused only where the disk has counted a failure.
    fn read_run(&mut self, k: u32, bytes: &mut [u8]) -> Result<(), DiskFault>
        requires whole { length bytes.old % block_bytes ≡ 0 }
        requires used { (i : ℕ) → block_bytes * i < length bytes.old → 0 < (state self.old).uses (k + i) }
        ensures value { OnOk result (AreBytesOf (blocks_from k bytes.old) (state self.old) bytes.new) }
        ensures frame { OnlyReads (times (blocks_from k bytes.old)) (state self.old) (state self.new) }
        ensures told { Tells (IsErr result) (state self.old).failures (state self.new).failures };

    /// Writes block k, which is in use once, and nothing else but zeros in a gap before it. A write that fails leaves
    /// any bytes in both, and each other whole block, in use or not, as it was. It does not sync: what lasts changes
    /// there alone. Refused only where the disk has counted a failure.
    fn write(&mut self, k: u32, bytes: &[u8; BLOCK_BYTES]) -> Result<(), DiskFault>
        requires { (state self.old).uses k ≡ 1 }
        ensures written { OnOk result (IsTrue (state self.old).honest → block (state self.new) k ≡ bytes.now) }
        ensures others { OthersKept k (block (state self.old)) (block (state self.new)) }
        ensures torn { Torn (block_bytes * k) block_bytes (state self.old).content (state self.new).content }
        ensures torn_synced { Torn (block_bytes * k) block_bytes (state self.old).synced (state self.new).synced }
        ensures frame { Moves (one k) (one k) (state self.old) (state self.new) }
        ensures told { Tells (IsErr result) (state self.old).failures (state self.new).failures };

    /// Takes the n lowest free blocks. Refused for room where fewer are free, else only for memory; nothing is taken
    /// then.
    fn take(&mut self, n: usize) -> Result<Vec<u32>, TakeFault>
        ensures taken { IfOk result (λ ks. Recounts none (times ks.items) (state self.old) (state self.new)) }
        ensures lowest { IfOk result (λ ks. AreLowestFree n ks.items (state self.old)) }
        ensures refused { OnErr result (state self.new ≡ state self.old) }
        ensures room { IsErrOf result TakeFault.NoRoom ↔ (free_of (state self.old) < n) };

    /// Gives up one use of each block listed, as often as it is listed. Takes no memory.
    fn give_back(&mut self, ks: &[u32])
        requires { Covers (state self.old) (times ks.now) }
        ensures { Recounts (times ks.now) none (state self.old) (state self.new) };

    /// Counts one use more of each block listed, as often as it is listed: so one that is given back once is in use
    /// still, until it is given back once more. Refused for memory alone; no use is counted then.
    fn hold(&mut self, ks: &[u32]) -> Result<(), AllocError>
        requires { AreUsed ks.now (state self.old) }
        ensures held { OnOk result (Recounts none (times ks.now) (state self.old) (state self.new)) }
        ensures refused { OnErr result (state self.new ≡ state self.old) };

    /// Lets go what memory holds of blocks so that they need not be read again. Callers see no difference. Takes no
    /// memory.
    fn let_go(&mut self)
        ensures { self.new ≡ self.old };

    /// How many blocks may still be taken.
    fn free(&self) -> u32
        ensures { result ≡ free_of (state self.now) };

    /// How often block k is in use: not at all where it is the header, is free or lies past the end of the file. It
    /// tests what the other calls ask of uses.
    fn uses(&self, k: u32) -> u32
        ensures { result ≡ (state self.now).uses k };

    /// Writes the header, after a sync of all the rest, and syncs it: whether a session has the file open, the number
    /// of the file's blocks, and where its metadata of `length` bytes begins. A last block that a failed write cut
    /// short is filled with zeros before. Refused only where the disk has counted a failure; the header then holds any
    /// bytes, and so does what was added to the last block.
    fn write_header(&mut self, session: State, first: u32, length: u64) -> Result<(), DiskFault>
        ensures written { OnOk result (WritesHeader session first length (state self.old) (state self.new)) }
        ensures frame { OnlyHeader (state self.old) (state self.new) }
        ensures told { Tells (IsErr result) (state self.old).failures (state self.new).failures };
}
