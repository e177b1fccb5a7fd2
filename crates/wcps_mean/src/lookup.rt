//! What a list has at a place, or 0 where it has none.

ghost use Rattle.std.specs.Prelude.{◌≡◌, pos, slice_index_or};

/// The item at a place.
pub fn item_at(items: &[i64], place: u64) -> i64
    ensures { result ≡ slice_index_or items.now place (pos 0) }
{
    match items.get(place as usize) {
        Some(z) => *z,
        None => 0,
    }
}

/// The coordinate of the iterator `k`.
pub fn coordinate_at(coordinates: &[i32], k: usize) -> i64
    ensures { result ≡ slice_index_or coordinates.now k (pos 0) }
{
    match coordinates.get(k) {
        Some(x) => *x as i64,
        None => 0,
    }
}

/// The place that a list of places has at `k`.
pub fn place_at(places: &[usize], k: usize) -> usize
    ensures { result ≡ slice_index_or places.now k 0 }
{
    match places.get(k) {
        Some(place) => *place,
        None => 0,
    }
}
