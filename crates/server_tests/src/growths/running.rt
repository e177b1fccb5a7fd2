//! Scripts with each growth refused in turn, over a store in memory or in a file of the system.

use crate::disks::Site;
use crate::growths::counts::{Counts, Part, Wrong};
use crate::growths::scripted::Script;
use crate::growths::turns::Turn;
use anyhow::{Context, Result, bail};
use disk_face::{FileDisk, MemoryDisk};
use std::alloc::Global;
use std::fs;
use test_rows::{cut, index, text};

/// The file of the system in which a store lies.
const PATH: &str = "growths.tmp";

/// How many growths a script has at most.
const MOST: u32 = 1_000_000;

/// Where the store of a script lies, how many growths in a row are refused, and from each which one on.
#[derive(Clone, Copy)]
struct Plan {
    is_in_memory: bool,
    count: u16,
    step: usize,
}

/// Reads a plan, as `memory 40 1`.
fn read_plan(words: &str) -> Result<Plan> {
    let (place, rest) = cut(words);
    let (count, step) = cut(rest);
    Ok(Plan {
        is_in_memory: place == "memory",
        count: count.parse::<u16>()?,
        step: index(step)?,
    })
}

/// What a turn gave that refuses growths from a first one on; what was wrong is an error.
fn given<T>(first: u32, outcome: Result<T, Wrong>) -> Result<T> {
    match outcome {
        Ok(given) => Ok(given),
        Err(Wrong { part, refusal }) => {
            let told = match refusal {
                Some(refusal) => refusal.name(),
                None => "another reply",
            };
            match part {
                Part::Opening => bail!("from growth {first} on, the opening: {told}"),
                Part::Step(place) => bail!("from growth {first} on, step {place}: {told}"),
                Part::Close => bail!("from growth {first} on, the close: {told}"),
            }
        }
    }
}

/// The bytes of the file that a turn over a store in memory leaves.
fn left_in_memory(alloc: Global, turn: &mut Turn, script: &Script) -> Result<Vec<u8>> {
    let disk = MemoryDisk::new(Vec::from_slice(alloc, &script.file)?);
    let disk = given(turn.first, turn.play(alloc, disk, script))?;
    Ok(disk.into_bytes())
}

/// The bytes of the file that a turn over it leaves.
fn left_in_file(rt: &HostRuntime, turn: &mut Turn, script: &Script) -> Result<Vec<u8>> {
    fs::write(rt, PATH, script.file.as_slice())?;
    let disk = FileDisk::open(rt, PATH)?;
    let _closed = given(turn.first, turn.play(rt.alloc(), disk, script))?;
    let left = fs::read(rt, PATH)?;
    fs::remove_file(rt, PATH)?;
    Ok(left)
}

/// A turn, of which the file is to be left as it is left where no growth is refused.
fn turn(rt: &HostRuntime, script: &Script, plan: Plan, first: u32) -> Result<Turn> {
    let alloc = rt.alloc();
    let mut turn = Turn::new(alloc, first, plan.count, plan.is_in_memory)?;
    let left = if plan.is_in_memory {
        left_in_memory(alloc, &mut turn, script)?
    } else {
        left_in_file(rt, &mut turn, script)?
    };
    if left.as_slice() != script.closed.as_slice() {
        bail!("from growth {first} on the file is left as another one");
    }
    Ok(turn)
}

/// Says on standard error how many turns there were, and how often want of memory was told.
fn report(rt: &HostRuntime, words: &str, turns: u64, counts: &Counts) -> Result<()> {
    let Counts {
        openings,
        replies,
        closes,
    } = *counts;
    eprintln!(rt;
        "growths {words}: {turns} turns, {openings} openings, {replies} replies and {closes} closes refused"
    )?;
    Ok(())
}

/// Plays a script, as `memory 40 1`, so often that each growth has been the first one that is refused, or every so
/// manyth. Where growths are not refused at all it is played once.
fn play(rt: &HostRuntime, script: &Script, words: &str) -> Result<()> {
    let plan = read_plan(words)?;
    let mut counts = Counts::new();
    let mut turns = 0u64;
    for first in (1..MOST).step_by(plan.step.max(1)) {
        let turn = turn(rt, script, plan, first)?;
        if !turn.is_met {
            break;
        }
        counts.add(&turn.counts);
        turns = turns.saturating_add(1);
    }
    if turns > 0 {
        report(rt, words, turns, &counts)?;
    }
    Ok(())
}

impl Site {
    /// Opens the server of a file, whose replies make a script from then on.
    pub fn begin_script(&mut self, alloc: Global, words: &str) -> Result<String> {
        self.script = Script::new(alloc, self.storage.files.bytes(alloc, words)?);
        self.open(alloc, 0, 0, words)
    }

    /// Adds a request to the script, and gives the body of its reply.
    pub fn add_step(&mut self, alloc: Global, written: &str) -> Result<String> {
        let pairs = text(alloc, written)?;
        let server = self.server.as_mut().context("no server")?;
        self.script.add(alloc, server, pairs.as_str())
    }

    /// Ends the script where its server is open, by a close, and plays it.
    pub fn play(&mut self, rt: &HostRuntime, words: &str) -> Result<String> {
        let alloc = rt.alloc();
        if self.server.is_some() {
            if self.close(alloc)?.as_str() != "ok" {
                bail!("the script is not closed");
            }
            self.script.closed = self.storage.files.bytes(alloc, "closed")?;
        }
        play(rt, &self.script, words)?;
        Ok(String::from_str(alloc, "ok")?)
    }
}
