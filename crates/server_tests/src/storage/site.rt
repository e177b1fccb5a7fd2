//! What the rows speak to.

use crate::storage::blocks::{self, Volume};
use crate::storage::disks::{AnyDisk, open_file, remove_file};
use crate::storage::stores::{self, Store};
use crate::storage::values::Values;
use anyhow::{Context, Result, bail};
use std::alloc::Global;
use test_rows::{Answer, Files, Layer, cut, number};

/// What the rows speak to, each in its last state.
#[derive(Drop)]
pub struct Site {
    pub files: Files,
    disk: Option<AnyDisk>,
    volume: Option<Volume>,
    store: Option<Store>,
    /// How many bytes the catalogue of the store is said to have.
    catalogue_bytes: u64,
    values: Values,
}

impl Site {
    pub fn new(alloc: Global) -> Site {
        Site {
            files: Files::new(alloc),
            disk: None,
            volume: None,
            store: None,
            catalogue_bytes: 0,
            values: Values::new(alloc),
        }
    }

    /// Names bytes.
    fn name(&mut self, alloc: Global, answer: &mut Answer, words: &str) -> Result<()> {
        self.files.name(alloc, words)?;
        answer.say("ok");
        Ok(())
    }

    /// Whether two files have the same bytes, as `a | b`.
    fn same(&self, alloc: Global, answer: &mut Answer, words: &str) -> Result<()> {
        let (left, right) = words.split_once(" | ").unwrap_or((words, ""));
        let left = self.files.bytes(alloc, left)?;
        let right = self.files.bytes(alloc, right)?;
        answer.yes(left.as_slice() == right.as_slice());
        Ok(())
    }

    /// Makes a disk of a kind, as `memory lai`.
    fn make_disk(&mut self, alloc: Global, kind: &str, words: &str) -> Result<()> {
        self.disk = Some(AnyDisk::new(alloc, &self.files, kind, words)?);
        Ok(())
    }

    fn new_disk(
        &mut self,
        alloc: Global,
        answer: &mut Answer,
        kind: &str,
        words: &str,
    ) -> Result<()> {
        self.make_disk(alloc, kind, words)?;
        answer.say("ok");
        Ok(())
    }

    /// Keeps the bytes of the disk under a name.
    fn keep(&mut self, alloc: Global, answer: &mut Answer, name: &str) -> Result<()> {
        let disk = self.disk.take().context("no disk")?;
        self.files.put(alloc, name, disk.into_bytes()?)?;
        answer.say("ok");
        Ok(())
    }

    /// A call on the disk that there is.
    fn with_disk(
        &mut self,
        alloc: Global,
        answer: &mut Answer,
        verb: &str,
        words: &str,
    ) -> Result<()> {
        match &mut self.disk {
            Some(disk) => disk.call(alloc, answer, &self.files, verb, words),
            None => bail!("no disk"),
        }
    }

    /// A call on the disk.
    fn on_disk(
        &mut self,
        rt: &HostRuntime,
        answer: &mut Answer,
        verb: &str,
        words: &str,
    ) -> Result<()> {
        match verb {
            "memory" | "test" | "full" => self.new_disk(rt.alloc(), answer, verb, words),
            "open" => open_file(rt, answer, &mut self.disk, words),
            "remove" => remove_file(rt, answer, words),
            "keep" => self.keep(rt.alloc(), answer, words),
            _ => self.with_disk(rt.alloc(), answer, verb, words),
        }
    }

    /// Opens the disk as a file of blocks.
    fn open_blocks(&mut self, alloc: Global, answer: &mut Answer) -> Result<()> {
        blocks::open(alloc, answer, &mut self.disk, &mut self.volume)
    }

    /// Makes a disk of a kind and opens it as a file of blocks, as `within 8192 lai`.
    fn open_new(
        &mut self,
        alloc: Global,
        answer: &mut Answer,
        kind: &str,
        words: &str,
    ) -> Result<()> {
        self.make_disk(alloc, kind, words)?;
        self.open_blocks(alloc, answer)
    }

    /// Takes the disk of the file of blocks back.
    fn close_blocks(&mut self, answer: &mut Answer) -> Result<()> {
        self.disk = Some(blocks::unmount(&mut self.volume)?);
        answer.say("ok");
        Ok(())
    }

    /// A call on the file of blocks that there is.
    fn with_blocks(
        &mut self,
        alloc: Global,
        answer: &mut Answer,
        verb: &str,
        words: &str,
    ) -> Result<()> {
        match &mut self.volume {
            Some(volume) => blocks::call(alloc, answer, volume, &self.files, verb, words),
            None => bail!("no file of blocks"),
        }
    }

    /// A call on the file of blocks.
    fn on_blocks(
        &mut self,
        alloc: Global,
        answer: &mut Answer,
        verb: &str,
        words: &str,
    ) -> Result<()> {
        match verb {
            "open" => self.open_blocks(alloc, answer),
            "on" => self.open_new(alloc, answer, "test", words),
            "within" => self.open_new(alloc, answer, "within", words),
            "close" => self.close_blocks(answer),
            "claim" => blocks::claim(alloc, answer, &mut self.volume, words),
            _ => self.with_blocks(alloc, answer, verb, words),
        }
    }

    /// Begins a store whose catalogue is said to have so many bytes.
    fn begin(&mut self, alloc: Global, answer: &mut Answer, bytes: u64) -> Result<()> {
        self.catalogue_bytes = bytes;
        stores::begin(alloc, answer, &mut self.volume, &mut self.store)
    }

    /// A call on the store that there is.
    fn with_store(
        &mut self,
        alloc: Global,
        answer: &mut Answer,
        verb: &str,
        words: &str,
    ) -> Result<()> {
        match &mut self.store {
            Some(store) => stores::call(alloc, answer, store, self.catalogue_bytes, verb, words),
            None => bail!("no store"),
        }
    }

    /// A call on the store.
    fn on_store(
        &mut self,
        alloc: Global,
        answer: &mut Answer,
        verb: &str,
        words: &str,
    ) -> Result<()> {
        match verb {
            "begin" => self.begin(alloc, answer, number(words)?),
            "end" => stores::end(alloc, answer, &mut self.volume, &mut self.store),
            _ => self.with_store(alloc, answer, verb, words),
        }
    }

    /// A call on one of what the rows speak to.
    fn call(&mut self, rt: &HostRuntime, answer: &mut Answer, call: &str) -> Result<()> {
        let alloc = rt.alloc();
        let (object, rest) = cut(call);
        let (verb, words) = cut(rest);
        match object {
            "disk" => self.on_disk(rt, answer, verb, words),
            "blocks" => self.on_blocks(alloc, answer, verb, words),
            "store" => self.on_store(alloc, answer, verb, words),
            "file" => self.name(alloc, answer, rest),
            "same" => self.same(alloc, answer, rest),
            _ => self.values.call(alloc, answer, &self.files, object, rest),
        }
    }
}

impl Layer for Site {
    fn answer(&mut self, rt: &HostRuntime, call: &str) -> Result<String> {
        let mut answer = Answer::new(rt.alloc());
        self.call(rt, &mut answer, call)?;
        answer.into_text()
    }
}
