//! A coverage server over standard input and output, or over sockets of this machine.
#![tactic(auto)]

ghost use Rattle.std.specs.Prelude.{◌≡◌, codes, map, string_bytes};
ghost use Rattle.std.specs.IoError.{error_kind};
ghost use Rattle.coverage_server.specs.Sessions.{ends_all};
ghost use Rattle.rasterd.specs.Commands.{AsksMemory};
ghost use Rattle.rasterd.specs.Places.{EndsInMemory};
ghost use Rattle.rasterd.specs.Statuses.{ReportsStore, ReportsUnread, ReportsUsage, ReportsWords};

mod commands;
mod lines;
mod listening;
mod place;
mod resumed;
mod session;
mod streams;
mod words;

use arr_core::Refusal;
use commands::Command;
use lines::say;
use listening::listen;
use place::{Place, open_place};
use resumed::Resumed;
use session::{not_opened, session_status};
use std::io::ErrorKind;
use std::process::ExitCode;
use std::{env, io};
use stream_face::{Sink, Source, Watched};
use streams::null_streams;
use words::command;

/// What the program says where its words ask nothing.
const USAGE: &str = "usage: rasterd FILE run or rasterd FILE listen PORT COUNT\n";

/// The status where the words ask nothing.
const NO_COMMAND: u8 = 2;

/// Says on a line what words may ask, where they ask nothing. Gives the status of that.
fn no_command<E: Sink>(errors: &mut E) -> u8
    ensures { ReportsUsage result (E.view errors.old) (E.view errors.new) }
{
    say(errors, USAGE);
    NO_COMMAND
}

/// Says on a line why the words could not be read: the store is not opened where memory is wanting, and a word that is
/// not UTF-8 asks nothing. Gives the status of that.
fn no_words<E: Sink>(errors: &mut E, error: &io::Error) -> u8
    ensures { ReportsUnread (error_kind error.now) result (E.view errors.old) (E.view errors.new) }
{
    if error.kind() == ErrorKind::OutOfMemory {
        not_opened(errors, Refusal::NoMemory)
    } else {
        no_command(errors)
    }
}

/// Serves one connection, its reader and its writer, over the store in a file, which is made where there is none. Gives
/// the status.
fn serve_file<R: Source, W: Sink, E: Sink>(
    rt: &HostRuntime,
    file: &str,
    streams: &mut [(R, W); 1],
    errors: &mut E,
) -> u8
    ensures reports { ReportsStore result (E.view errors.old) (E.view errors.new) }
    ensures memory { file.now ≡ codes "-" → EndsInMemory (ends_all R.view W.view streams.old streams.new) result }
    ensures untouched { result ≡ 3 → streams.new ≡ streams.old }
{
    let alloc = rt.alloc();
    match open_place(rt, file, errors) {
        Ok(Place::Memory(disk)) => session_status(alloc, disk, streams, errors).0,
        Ok(Place::File(disk)) => session_status(alloc, disk, streams, errors).0,
        Err(status) => status,
    }
}

/// Does what the words after the program's name ask, and says on a line of `errors` what was not done. `FILE run`
/// serves the connection. Gives the status.
fn run<R: Source, W: Sink, E: Sink>(
    rt: &HostRuntime,
    words: &[String],
    streams: &mut [(R, W); 1],
    errors: &mut E,
) -> u8
    ensures reports { ReportsWords (map string_bytes words.now) result (E.view errors.old) (E.view errors.new) }
    ensures memory { AsksMemory words.now → EndsInMemory (ends_all R.view W.view streams.old streams.new) result }
    ensures untouched { result ≡ 3 → streams.new ≡ streams.old }
{
    match command(words) {
        Some(Command::Run(file)) => serve_file(rt, file, streams, errors),
        Some(Command::Listen(file, port, count)) => listen(rt, file, port, count, errors),
        None => no_command(errors),
    }
}

/// The words after the program's name. An error where memory is wanting, or where one of them is not UTF-8.
fn words_of(rt: &HostRuntime) -> io::Result<Vec<String>> {
    let mut words = Vec::new(rt.alloc());
    for word in env::args(rt)?.skip(1) {
        words.push(word)?;
    }
    Ok(words)
}

fn main(rt: HostRuntime) -> ExitCode {
    let _null_streams = null_streams(&rt);
    let mut errors = Resumed::new(Watched::new(rt.stderr()));
    let words = match words_of(&rt) {
        Ok(words) => words,
        Err(error) => return ExitCode::from(no_words(&mut errors, &error)),
    };
    let reader = Resumed::new(Watched::new(rt.stdin().lock()));
    let writer = Resumed::new(Watched::new(rt.stdout()));
    ExitCode::from(run(&rt, &words, &mut [(reader, writer)], &mut errors))
}
