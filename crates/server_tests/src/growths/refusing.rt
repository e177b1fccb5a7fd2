//! Growths that are refused where a library is loaded before the program that heeds the sizes of some: `faults/shim.c`.
//! All code takes its memory from one place, so an allocator that refuses cannot be handed in. Without the library no
//! growth is refused.

use std::alloc::Global;

/// Growths from this many bytes on are refused by every system. The library takes the lower bits of a size for how many
/// growths are let through and how many are refused from then on.
const ASKS: usize = 0x7ee0_0000_0000_0000;

/// A growth of so many bytes is refused where one was refused since that was asked.
const TELLS: usize = 4_000_037;

/// Asks that so many growths be refused, from the one of this number on, the next one being 1.
pub fn refuse(alloc: Global, first: u32, count: u16) {
    let size = ASKS | usize::from(count) << 32 | first as usize;
    let _refused = Vec::<u8>::with_capacity(alloc, size);
}

/// Whether a growth was refused since that was asked. None is refused from here on.
pub fn was_one_refused(alloc: Global) -> bool {
    let is_told = Vec::<u8>::with_capacity(alloc, TELLS).is_err();
    refuse(alloc, 0, 0);
    is_told
}
