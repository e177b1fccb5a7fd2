//! What the words after the program's name may ask.

/// To serve standard input to standard output as one connection, over a file; or to serve so many connections, one
/// after the other, at a port of this machine. The file `-` is an empty store in memory.
#[derive(Clone, Copy, PartialEq, Eq)]
pub enum Command<'a> {
    Run(&'a str),
    Listen(&'a str, u16, u32),
}
