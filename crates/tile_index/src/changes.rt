//! Entries joined with changes of some of them.

ghost use Rattle.std.specs.Prelude.{◌≡◌, ◌≢◌, ◌≤◌, ◌+◌, ◌↔◌, ℕ, [], ◌++◌, None, Some, IsSome, IsTrue, IfSome, IfNone, reverse, vec_len, vec_capacity};
ghost use Rattle.tile_index.specs.Index.{found_at, changed_at, IsRising, IsIndex, AreChanges, IsPlaceOf, AreExchanges};
ghost use Rattle.tile_index.specs.Moves.{AreApart, MovesAfter};

use crate::entry::Entry;

/// The place of a tile's pair.
fn place_of(entries: &[(u64, Entry)], tile: u64) -> Option<usize>
    requires { IsRising entries.now }
    ensures place { IfSome result (λ place. IsPlaceOf tile entries.now place) }
    ensures none { IfNone result (found_at tile entries.now ≡ None) }
{
    match entries.binary_search_by_key(&tile, |pair| pair.0) {
        Ok(place) => Some(place),
        Err(_) => None,
    }
}

/// Whether all changes give listed tiles entries.
pub fn are_exchanges(entries: &[(u64, Entry)], changes: &[(u64, Option<Entry>)]) -> bool
    requires { IsRising entries.now }
    ensures { IsTrue result ↔ AreExchanges changes.now entries.now }
{
    for (tile, change) in changes {
        if change.is_none() || place_of(entries, *tile).is_none() {
            return false;
        }
    }
    true
}

/// Gives a listed tile another entry, in its place.
fn exchange(entries: &mut Vec<(u64, Entry)>, tile: u64, entry: Entry)
    requires rising { IsRising entries.old.items }
    requires listed { IsSome (found_at tile entries.old.items) }
    ensures here { found_at tile entries.new.items ≡ Some entry }
    ensures others { (t : ℕ) → t ≢ tile → found_at t entries.new.items ≡ found_at t entries.old.items }
    ensures rising { IsRising entries.new.items }
{
    if let Some(place) = place_of(entries, tile) {
        entries[place].1 = entry;
    }
}

/// Gives listed tiles other entries, in their places.
pub fn exchange_all(entries: &mut Vec<(u64, Entry)>, mut changes: Vec<(u64, Option<Entry>)>)
    requires index { IsIndex entries.old.items }
    requires changes { AreChanges changes.items entries.old.items }
    requires exchanges { AreExchanges changes.items entries.old.items }
    ensures changed { (tile : ℕ) → found_at tile entries.new.items ≡ changed_at tile changes.items entries.old.items }
    ensures index { IsIndex entries.new.items }
{
    while let Some((tile, change)) = changes.pop() {
        if let Some(new) = change {
            exchange(entries, tile, new);
        }
    }
}

/// Moves the entries after a tile from the end of one list to the end of another, and drops that of the tile.
fn move_after(entries: &mut Vec<(u64, Entry)>, moved: &mut Vec<(u64, Entry)>, tile: u64)
    requires apart { AreApart tile entries.old.items (reverse moved.old.items) }
    requires room { vec_len entries.old + vec_len moved.old ≤ vec_capacity moved.old }
    ensures parted { MovesAfter tile entries.old.items moved.old.items entries.new.items moved.new.items }
    ensures fewer { vec_len entries.new + vec_len moved.new ≤ vec_len entries.old + vec_len moved.old }
    ensures room { vec_capacity moved.old ≤ vec_capacity moved.new }
{
    while let Some(pair) = entries.pop() {
        if pair.0 < tile {
            entries.push(pair).unwrap();
            return;
        }
        if pair.0 != tile {
            moved.push(pair).unwrap();
        }
    }
}

/// Moves all entries from the end of one list to the end of another.
fn move_all(entries: &mut Vec<(u64, Entry)>, moved: &mut Vec<(u64, Entry)>)
    requires { vec_len entries.old + vec_len moved.old ≤ vec_capacity moved.old }
    ensures { reverse moved.new.items ≡ entries.old.items ++ reverse moved.old.items }
{
    while let Some(pair) = entries.pop() {
        moved.push(pair).unwrap();
    }
}

/// The entries with the changes, in `room`, which is empty and has room for all.
pub fn merged(
    mut entries: Vec<(u64, Entry)>,
    mut changes: Vec<(u64, Option<Entry>)>,
    mut room: Vec<(u64, Entry)>,
) -> Vec<(u64, Entry)>
    requires index { IsIndex entries.items }
    requires changes { AreChanges changes.items entries.items }
    requires empty { room.items ≡ [] }
    requires room { vec_len entries + vec_len changes ≤ vec_capacity room }
    ensures changed { (tile : ℕ) → found_at tile result.items ≡ changed_at tile changes.items entries.items }
    ensures index { IsIndex result.items }
{
    while let Some((tile, change)) = changes.pop() {
        move_after(&mut entries, &mut room, tile);
        if let Some(entry) = change {
            room.push((tile, entry)).unwrap();
        }
    }
    move_all(&mut entries, &mut room);
    room.reverse();
    room
}
