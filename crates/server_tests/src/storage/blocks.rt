//! A file of blocks, and the pages that are kept of it.

use crate::storage::disks::{AnyDisk, TestDisk, say_done};
use crate::storage::words::{DAMAGED, DISK_FAULT, NO_MEMORY, NO_ROOM, block_numbers};
use anyhow::{Context, Result, bail};
use block_file::{BlockFile, Blocks, CHAIN_BYTES, State, TakeFault, write_chain};
use page_pool::PagePool;
use std::alloc::Global;
use std::marker::Model;
use test_rows::{Answer, Files, cut, index, number};

/// A file of blocks with its pool, and the blocks that were taken last and are in use.
#[derive(Drop)]
pub struct Volume {
    file: PagePool<TestDisk>,
    taken: Vec<u32>,
    /// The first block of the chain that was written last.
    first: u32,
}

impl Model for Volume {
    ghost use Rattle.block_file.specs.View.{BlockFileView, state_of};
    ghost use Rattle.tile_store.specs.Written.{AreFresh};

    ghost Value = { BlockFileView };

    ghost view = { λ v. v.file };

    ghost invariant = { λ v. AreFresh v.taken.items (state_of v.file) };
}

fn take_number(fault: TakeFault) -> u16 {
    match fault {
        TakeFault::NoMemory => NO_MEMORY,
        TakeFault::NoRoom => NO_ROOM,
    }
}

/// Puts bytes at the front of a block; what would stand past its end is left out.
fn overwrite(block: &mut [u8], bytes: &[u8]) {
    for k in 0..bytes.len() {
        if k < block.len() {
            block[k] = bytes[k];
        }
    }
}

/// How many blocks there are, and the lowest and the highest, as `2 from 1 to 2`.
fn say_blocks(answer: &mut Answer, blocks: &[u32]) {
    let lowest = blocks.iter().min().copied().unwrap_or(0);
    let highest = blocks.iter().max().copied().unwrap_or(0);
    answer.count(blocks.len() as u64);
    answer.say(" from ");
    answer.count(u64::from(lowest));
    answer.say(" to ");
    answer.count(u64::from(highest));
}

/// How many blocks are free, before more.
fn say_free(answer: &mut Answer, free: u32) {
    answer.count(u64::from(free));
    answer.say(" ");
}

/// The state of a header.
fn state(word: &str) -> Result<State> {
    Ok(match word {
        "closed" => State::Closed,
        "open" => State::Open,
        _ => bail!("no state {word}"),
    })
}

impl Volume {
    pub fn new(alloc: Global, file: PagePool<TestDisk>) -> Volume {
        Volume {
            file,
            taken: Vec::new(alloc),
            first: 0,
        }
    }

    /// The blocks, of which none has a name any more.
    pub fn into_file(self) -> PagePool<TestDisk> {
        let Volume {
            file,
            taken: _,
            first: _,
        } = self;
        file
    }

    /// Takes so many blocks.
    fn take(&mut self, count: usize) -> Result<(), TakeFault> {
        self.taken = self.file.take(count)?;
        Ok(())
    }

    /// Takes so many blocks, and tells which.
    fn take_some(&mut self, answer: &mut Answer, count: usize) {
        match self.take(count) {
            Ok(()) => say_blocks(answer, &self.taken),
            Err(fault) => answer.refusal(take_number(fault)),
        }
    }

    /// Takes all blocks but so many.
    fn leave(&mut self, answer: &mut Answer, count: usize) {
        let free = self.file.free() as usize;
        match self.take(free.saturating_sub(count)) {
            Ok(()) => answer.say("ok"),
            Err(fault) => answer.refusal(take_number(fault)),
        }
    }

    /// Gives the first of the blocks that were taken back, so many; the others stay in use and have no name any more.
    fn give_back(&mut self, answer: &mut Answer, count: usize) {
        self.taken.truncate(count);
        self.file.give_back(&self.taken);
        self.taken.clear();
        answer.say("ok");
    }

    /// Takes so many blocks, holds them, gives them back, takes as many others, which it tells, and gives the first
    /// back once more: after each how many are free. No block that was taken has a name any more.
    fn hold(&mut self, answer: &mut Answer, count: usize) -> Result<(), TakeFault> {
        self.taken.clear();
        let taken = self.file.take(count)?;
        let held: &[u32] = &taken;
        say_free(answer, self.file.free());
        self.file.hold(held)?;
        say_free(answer, self.file.free());
        self.file.give_back(held);
        say_free(answer, self.file.free());
        let others = self.file.take(count)?;
        say_blocks(answer, &others);
        answer.say(" ");
        say_free(answer, self.file.free());
        self.file.give_back(held);
        answer.count(u64::from(self.file.free()));
        Ok(())
    }

    /// Holds blocks meanwhile, or tells the refusal.
    fn hold_some(&mut self, answer: &mut Answer, count: usize) {
        match self.hold(answer, count) {
            Ok(()) => {}
            Err(fault) => answer.refusal(take_number(fault)),
        }
    }

    /// Keeps at most so many pages from now on.
    fn keep_pages(&mut self, answer: &mut Answer, pages: usize) {
        self.file.resize(pages);
        answer.say("ok");
    }

    /// Writes the first bytes of a block of those that were taken, by its place, and zeros behind them.
    fn write(&mut self, answer: &mut Answer, place: usize, bytes: &[u8]) {
        if place >= self.taken.len() {
            return answer.wrong("no such block");
        }
        let mut content = [0u8; 4096];
        overwrite(&mut content, bytes);
        let block = self.taken[place];
        say_done(answer, self.file.write(block, &content));
    }

    /// The bytes of a block of those that were taken, by its place.
    fn read(&mut self, answer: &mut Answer, place: usize) {
        if place >= self.taken.len() {
            return answer.wrong("no such block");
        }
        let mut content = [0u8; 4096];
        let block = self.taken[place];
        match self.file.read(block, &mut content) {
            Ok(()) => answer.hex(&content),
            Err(_) => answer.refusal(DISK_FAULT),
        }
    }

    /// Writes a chain of metadata.
    fn chain(&mut self, answer: &mut Answer, metadata: &[u8]) {
        let room = self.file.free() as usize;
        if metadata.is_empty() || metadata.len().div_ceil(CHAIN_BYTES) > room {
            return answer.wrong("no room");
        }
        match write_chain(&mut self.file, metadata) {
            Ok(block) => {
                self.first = block;
                answer.say("ok");
            }
            Err(fault) => answer.refusal(fault.refusal().number()),
        }
    }

    /// The number of a block, which `first` stands for too.
    fn block(&self, word: &str) -> Result<u32> {
        match word {
            "first" => Ok(self.first),
            _ => Ok(word.parse::<u32>()?),
        }
    }

    /// Writes a header, as `closed 1 12`: its state, the first block of the metadata, and the metadata's length.
    fn write_header(&mut self, answer: &mut Answer, words: &str) -> Result<()> {
        let (word, rest) = cut(words);
        let (block, length) = cut(rest);
        let state = state(word)?;
        let block = self.block(block)?;
        let length = number(length)?;
        let outcome = self.file.write_header(state, block, length);
        say_done(answer, outcome);
        Ok(())
    }
}

/// Writes the first bytes of a block, as `0 0x0102`.
fn write(
    alloc: Global,
    answer: &mut Answer,
    volume: &mut Volume,
    files: &Files,
    words: &str,
) -> Result<()> {
    let (place, words) = cut(words);
    let bytes = files.bytes(alloc, words)?;
    volume.write(answer, index(place)?, &bytes);
    Ok(())
}

/// Writes the bytes of a file as a chain of metadata.
fn chain(
    alloc: Global,
    answer: &mut Answer,
    volume: &mut Volume,
    files: &Files,
    words: &str,
) -> Result<()> {
    let metadata = files.bytes(alloc, words)?;
    volume.chain(answer, &metadata);
    Ok(())
}

/// A call on a file of blocks.
pub fn call(
    alloc: Global,
    answer: &mut Answer,
    volume: &mut Volume,
    files: &Files,
    verb: &str,
    words: &str,
) -> Result<()> {
    match verb {
        "free" => answer.count(u64::from(volume.file.free())),
        "take" => volume.take_some(answer, index(words)?),
        "leave" => volume.leave(answer, index(words)?),
        "give_back" => volume.give_back(answer, index(words)?),
        "hold" => volume.hold_some(answer, index(words)?),
        "pages" => volume.keep_pages(answer, index(words)?),
        "read" => volume.read(answer, index(words)?),
        "write" => return write(alloc, answer, volume, files, words),
        "chain" => return chain(alloc, answer, volume, files, words),
        "first" => answer.count(u64::from(volume.first)),
        "header" => return volume.write_header(answer, words),
        _ => answer.wrong("no such call"),
    }
    Ok(())
}

/// Keeps a file of blocks, of which none has a name and no page is kept.
fn mount(alloc: Global, file: BlockFile<TestDisk>, volume: &mut Option<Volume>) {
    *volume = Some(Volume::new(alloc, PagePool::new(alloc, file, 0)));
}

/// The metadata of a file that was opened, or `ok` for none.
fn say_metadata(answer: &mut Answer, metadata: &[u8]) {
    answer.hex(metadata);
    if metadata.is_empty() {
        answer.say("ok");
    }
}

/// Opens a disk as a file of blocks, and gives its metadata, or `ok` for none. A disk that is refused stays.
pub fn open(
    alloc: Global,
    answer: &mut Answer,
    disk: &mut Option<AnyDisk>,
    volume: &mut Option<Volume>,
) -> Result<()> {
    let Some(AnyDisk::Test(tested)) = disk.take() else {
        bail!("no test disk");
    };
    match BlockFile::open(alloc, tested) {
        Ok(opened) => {
            mount(alloc, opened.file, volume);
            say_metadata(answer, &opened.metadata);
        }
        Err(refused) => {
            *disk = Some(AnyDisk::Test(refused.disk));
            answer.refusal(refused.fault.refusal().number());
        }
    }
    Ok(())
}

/// The disk of a file of blocks.
pub fn unmount(volume: &mut Option<Volume>) -> Result<AnyDisk> {
    let volume = volume.take().context("no file of blocks")?;
    Ok(AnyDisk::Test(volume.into_file().into_file().into_disk()))
}

/// Claims blocks on a file, which is kept whether it has them or not; says whether it has.
fn claimed(alloc: Global, before: Volume, blocks: &[u32], volume: &mut Option<Volume>) -> bool {
    let mut file = before.into_file().into_file();
    let is_claimed = file.claim(blocks).is_ok();
    mount(alloc, file, volume);
    is_claimed
}

/// Claims blocks, as `1,2`. Those that were taken before have no name any more, and no page is kept.
pub fn claim(
    alloc: Global,
    answer: &mut Answer,
    volume: &mut Option<Volume>,
    words: &str,
) -> Result<()> {
    let blocks = block_numbers(alloc, words)?;
    let Some(before) = volume.take() else {
        bail!("no file of blocks");
    };
    if claimed(alloc, before, &blocks, volume) {
        answer.say("ok");
    } else {
        answer.refusal(DAMAGED);
    }
    Ok(())
}
