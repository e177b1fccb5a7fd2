//! Standard streams that are closed when the program starts.

use std::fs::{File, OpenOptions};
use std::os::fd::AsRawFd;

/// How many standard streams there are: their numbers are 0, 1 and 2.
const STREAMS: i32 = 3;

/// The null device, opened once for each standard stream that is closed. The system gives what is opened the least
/// number that is free: so as long as these are open, no file and no socket has the number of a standard stream, and
/// nothing that is written to such a stream goes there.
pub fn null_streams(rt: &HostRuntime) -> [Option<File>; 3] {
    let mut options = OpenOptions::new();
    options.read(true).write(true);
    let mut held = [None, None, None];
    for stream in held.iter_mut() {
        match options.open(rt, "/dev/null") {
            Ok(device) if device.as_raw_fd() < STREAMS => *stream = Some(device),
            _ => return held,
        }
    }
    held
}
