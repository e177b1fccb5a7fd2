//! Noise, the same in each run.

/// A number that its place does not show.
pub fn noise(place: u64) -> u64 {
    let x = place.wrapping_add(1).wrapping_mul(0x9e37_79b9_7f4a_7c15);
    let y = (x ^ (x >> 30)).wrapping_mul(0xbf58_476d_1ce4_e5b9);
    y ^ (y >> 27)
}
