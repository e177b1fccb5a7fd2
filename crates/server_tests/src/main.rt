//! Worked values of the server and of the crates of storage, by their public calls, each a row of standard input:
//! requests and queries with their replies, streams of bytes with what is written for them, disks that are opened and
//! closed, that fail, lie or become full; and names, domains, the bytes of tiles, indexes, catalogues and metadata,
//! files of blocks, and stores of coverages.
#![tactic(auto)]

mod devices;
mod disks;
mod growths;
mod layer;
mod looks;
mod messages;
mod scripts;
mod sessions;
mod storage;
mod streams;

use anyhow::Result;
use scripts::Scripts;
use std::process::ExitCode;
use test_rows::judge;

fn main(rt: HostRuntime) -> Result<ExitCode> {
    let mut scripts = Scripts::new(rt.alloc());
    let outcome = judge(&rt, &mut scripts);
    drop(scripts);
    outcome
}
