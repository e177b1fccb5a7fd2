//! Stores of coverages.

ghost use Rattle.std.specs.Prelude.{◌≡◌, ◌<◌, None, length, IfSome, IsSomeAnd, IsTrue};
ghost use Rattle.arr_core.specs.Domains.{IsInside};
ghost use Rattle.arr_core.specs.Stores.{found};
ghost use Rattle.arr_core.specs.Tiles.{tile_boxes};
ghost use Rattle.raster_store.specs.Calls.{HasField};
ghost use Rattle.raster_store.specs.Fetches.{HasTile, IsPlaceOf};
ghost use Rattle.raster_store.specs.Snapshots.{OnHeldFor, held_for};

use crate::storage::blocks::Volume;
use crate::storage::disks::TestDisk;
use crate::storage::lists::list;
use crate::storage::picks::pick;
use crate::storage::words::{
    DAMAGED, DISK_FAULT, NO_MEMORY, NO_ROOM, cells, say_list, say_signature, signature,
};
use anyhow::{Context, Result, bail};
use arr_core::{Domain, Name, Signature};
use page_pool::PagePool;
use raster_store::{Fault, RasterStore, TileAt, WriteFault};
use std::alloc::{AllocError, Global};
use test_rows::{Answer, cell, cut, domain, index, number, point};

pub type Store = RasterStore<PagePool<TestDisk>>;

/// A field, by its place, of the coverage with a name.
#[derive(Drop)]
pub struct Target {
    pub name: Name,
    pub field: usize,
}

/// A tile, by its number, of a field that a number reads: what is held for that job, or for 0 what is there.
#[derive(Clone, Copy)]
pub struct Asked<'a> {
    pub job: u64,
    pub target: &'a Target,
    pub tile: u64,
}

/// What is asked of a field: a verb, and its words.
#[derive(Clone, Copy)]
struct FieldCall<'a> {
    verb: &'a str,
    words: &'a str,
}

/// Whether a store has a field.
fn has_field(store: &Store, target: &Target) -> bool
    ensures { IsTrue result → HasField target.now.name target.now.field store.now.coverages }
{
    match store.signature(&target.name) {
        Some(signature) => target.field < signature.fields.len(),
        None => false,
    }
}

pub fn refused(fault: Fault) -> u16 {
    match fault {
        Fault::NoMemory => NO_MEMORY,
        Fault::DiskFault => DISK_FAULT,
        Fault::NoRoom => NO_ROOM,
        Fault::Damaged => DAMAGED,
    }
}

fn unwritten(fault: WriteFault) -> u16 {
    match fault {
        WriteFault::OutsideDomain => 24,
        WriteFault::ValueCount => 25,
        WriteFault::ValueRange => 26,
        WriteFault::Device(fault) => refused(fault),
    }
}

/// `ok`, or the refusal of a write.
fn say_written(answer: &mut Answer, outcome: Result<(), WriteFault>) {
    match outcome {
        Ok(()) => answer.say("ok"),
        Err(fault) => answer.refusal(unwritten(fault)),
    }
}

/// The cells of a tile that was read into a buffer, or the refusal of the read.
pub fn say_cells(alloc: Global, answer: &mut Answer, outcome: Result<(), Fault>, cells: &[i64]) {
    match outcome {
        Ok(()) => say_list(alloc, answer, cells),
        Err(fault) => answer.refusal(refused(fault)),
    }
}

/// Writes cells into a box, as `x(0:2) 1,2,3`.
fn update(
    alloc: Global,
    answer: &mut Answer,
    store: &mut Store,
    bytes: u64,
    target: &Target,
    words: &str,
) -> Result<()>
    requires { HasField target.now.name target.now.field store.old.coverages }
{
    let (area, list) = cut(words);
    let area = domain(alloc, area)?;
    let list = cells(alloc, list)?;
    say_written(
        answer,
        store.write_box(&target.name, target.field, &area, &list, bytes),
    );
    Ok(())
}

/// Writes one cell at every point of a box, as `x(0:99) 7`.
fn fill(
    alloc: Global,
    answer: &mut Answer,
    store: &mut Store,
    bytes: u64,
    target: &Target,
    words: &str,
) -> Result<()>
    requires { HasField target.now.name target.now.field store.old.coverages }
{
    let (area, word) = cut(words);
    let cell = cell(word)?;
    let area = domain(alloc, area)?;
    say_written(
        answer,
        store.fill_box(&target.name, target.field, &area, cell, bytes),
    );
    Ok(())
}

/// Whether a tile is there.
fn is_readable(store: &Store, asked: Asked<'_>) -> bool
    ensures field { IsTrue result → OnHeldFor asked.entry.job store.now
        (λ v. HasField asked.entry.target.now.name asked.entry.target.now.field v.coverages) }
    ensures tile { IsTrue result → OnHeldFor asked.entry.job store.now
        (λ v. IsSomeAnd (found asked.entry.target.now.name v.coverages)
        (λ c. asked.entry.tile < length (tile_boxes c.domain))) }
    ensures held { IsTrue result → held_for asked.entry.job store.now.snapshots ≡ None → asked.entry.job ≡ 0 }
{
    let Asked { job, target, tile } = asked;
    if job != 0 && !store.holds(job) {
        return false;
    }
    match store.signature_at(job, &target.name) {
        Some(signature) => {
            target.field < signature.fields.len() && tile < signature.domain.tiles()
        }
        None => false,
    }
}

/// Where a tile is, if it is there.
pub fn tile_at(store: &Store, asked: Asked<'_>) -> Option<TileAt>
    ensures tile { IfSome result (λ at. OnHeldFor asked.entry.job store.now (λ v. HasTile at v.coverages)) }
    ensures place { IfSome result (λ at.
        OnHeldFor asked.entry.job store.now (λ v. IsPlaceOf asked.entry.target.now.name v.coverages at.coverage)) }
    ensures held { IfSome result
        (λ _. held_for asked.entry.job store.now.snapshots ≡ None → asked.entry.job ≡ 0) }
{
    if !is_readable(store, asked) {
        return None;
    }
    let Asked { job, target, tile } = asked;
    match store.place_at(job, &target.name) {
        Some(coverage) => Some(TileAt {
            coverage,
            field: target.field,
            tile,
        }),
        None => None,
    }
}

/// The numbers of a tile, which are read into a buffer.
fn read_into(
    alloc: Global,
    answer: &mut Answer,
    store: &mut Store,
    asked: Asked<'_>,
    cells: &mut Vec<i64>,
) {
    match tile_at(store, asked) {
        Some(at) => {
            let outcome = store.fetch_at(asked.job, at, cells);
            say_cells(alloc, answer, outcome, cells);
        }
        None => answer.wrong("no tile"),
    }
}

/// The numbers of a tile.
fn read_tile(alloc: Global, answer: &mut Answer, store: &mut Store, asked: Asked<'_>) {
    let mut cells = Vec::new(alloc);
    read_into(alloc, answer, store, asked, &mut cells);
}

/// A tile, by its number, of a field as it is.
fn present<'a>(target: &'a Target, tile: u64) -> Asked<'a> {
    Asked {
        job: 0,
        target,
        tile,
    }
}

/// The numbers of two tiles, which are read into one buffer one after the other, as `1 0`.
fn read_tiles(
    alloc: Global,
    answer: &mut Answer,
    store: &mut Store,
    target: &Target,
    words: &str,
) -> Result<()> {
    let (first, second) = cut(words);
    let (first, second) = (number(first)?, number(second)?);
    let mut cells = Vec::new(alloc);
    read_into(alloc, answer, store, present(target, first), &mut cells);
    answer.say(" | ");
    read_into(alloc, answer, store, present(target, second), &mut cells);
    Ok(())
}

/// The domain of the coverage with a name.
fn domain_of(alloc: Global, store: &Store, name: &Name) -> Result<Domain> {
    let signature = store.signature(name).context("no coverage")?;
    Ok(signature.domain.copy(alloc)?)
}

/// Copies the numbers of a tile, whose box is `part`, to the points of a box that are in it.
fn copy_tile(
    alloc: Global,
    part: &Domain,
    tile: &[i64],
    area: &Domain,
    cells: &mut [i64],
) -> Result<()> {
    for place in 0..part.points() {
        let point = part.unrank(alloc, place)?;
        if area.contains(&point) {
            let number = tile.get(place as usize).context("too few numbers")?;
            let cell = cells
                .get_mut(area.rank(&point) as usize)
                .context("too few cells")?;
            *cell = *number;
        }
    }
    Ok(())
}

/// Reads a tile, whose box is `part`, and copies its numbers to the points of a box that are in it.
fn read_part(
    alloc: Global,
    store: &mut Store,
    asked: Asked<'_>,
    part: &Domain,
    area: &Domain,
    cells: &mut [i64],
) -> Result<Result<(), Fault>> {
    let at = tile_at(store, asked).context("no tile")?;
    let mut numbers = Vec::new(alloc);
    if let Err(fault) = store.fetch_at(asked.job, at, &mut numbers) {
        return Ok(Err(fault));
    }
    copy_tile(alloc, part, &numbers, area, cells)?;
    Ok(Ok(()))
}

/// The numbers of a box of a field, in row-major order, from the tiles that it meets, each of which is read by itself.
fn box_of(
    alloc: Global,
    store: &mut Store,
    target: &Target,
    area: &Domain,
) -> Result<Result<Vec<i64>, Fault>> {
    let domain = domain_of(alloc, store, &target.name)?;
    if !area.is_box_of(&domain) {
        bail!("no box");
    }
    let mut cells = vec![in alloc; 0i64; area.points() as usize]?;
    for tile in domain.tiles_meeting(alloc, area)? {
        if tile >= domain.tiles() {
            bail!("no tile");
        }
        let part = domain.tile_box(alloc, tile)?;
        if let Err(fault) = read_part(
            alloc,
            store,
            present(target, tile),
            &part,
            area,
            &mut cells,
        )? {
            return Ok(Err(fault));
        }
    }
    Ok(Ok(cells))
}

/// The numbers of a box, as `x(0:99)`.
fn read_box(
    alloc: Global,
    answer: &mut Answer,
    store: &mut Store,
    target: &Target,
    words: &str,
) -> Result<()> {
    let area = domain(alloc, words)?;
    match box_of(alloc, store, target, &area)? {
        Ok(cells) => say_list(alloc, answer, &cells),
        Err(fault) => answer.refusal(refused(fault)),
    }
    Ok(())
}

/// The number of the tile that a point of a domain is in, and the place of the point there.
fn place_of(alloc: Global, domain: &Domain, point: &[i32]) -> Result<(u64, usize), AllocError>
    requires { IsInside domain.now point.now }
{
    let tile = domain.tile_of(point);
    let part = domain.tile_box(alloc, tile)?;
    Ok((tile, part.rank(point) as usize))
}

/// The number at a point, as `99`: the one that its tile has there.
fn read_point(
    alloc: Global,
    answer: &mut Answer,
    store: &mut Store,
    target: &Target,
    words: &str,
) -> Result<()> {
    let point = point(alloc, words)?;
    let domain = domain_of(alloc, store, &target.name)?;
    if !domain.contains(&point) {
        bail!("no point");
    }
    let (tile, place) = place_of(alloc, &domain, &point)?;
    let asked = present(target, tile);
    let at = tile_at(store, asked).context("no tile")?;
    let mut cells = Vec::new(alloc);
    match store.fetch_at(asked.job, at, &mut cells) {
        Ok(()) => answer.integer(*cells.get(place).context("too few cells")?),
        Err(fault) => answer.refusal(refused(fault)),
    }
    Ok(())
}

/// The bytes of the index of a field.
fn index_bytes(alloc: Global, answer: &mut Answer, store: &Store, target: &Target) -> Result<()>
    requires { HasField target.now.name target.now.field store.now.coverages }
{
    answer.hex(&store.index_bytes(alloc, &target.name, target.field)?);
    Ok(())
}

/// A call on a field of a store whose catalogue has so many bytes.
fn on_field(
    alloc: Global,
    answer: &mut Answer,
    store: &mut Store,
    bytes: u64,
    target: &Target,
    call: FieldCall<'_>,
) -> Result<()>
    requires { HasField target.now.name target.now.field store.old.coverages }
{
    let FieldCall { verb, words } = call;
    match verb {
        "update" => return update(alloc, answer, store, bytes, target, words),
        "fill" => return fill(alloc, answer, store, bytes, target, words),
        "box" => return read_box(alloc, answer, store, target, words),
        "at" => return read_point(alloc, answer, store, target, words),
        "index" => return index_bytes(alloc, answer, store, target),
        "tiles" => return read_tiles(alloc, answer, store, target, words),
        "tile" => read_tile(alloc, answer, store, present(target, number(words)?)),
        _ => answer.wrong("no such call"),
    }
    Ok(())
}

/// A call on a field of a coverage, as `box lai 0 x(0:99)`.
fn of_field(
    alloc: Global,
    answer: &mut Answer,
    store: &mut Store,
    bytes: u64,
    verb: &str,
    words: &str,
) -> Result<()> {
    let (name, rest) = cut(words);
    let (field, rest) = cut(rest);
    let name = Name::new(alloc, name)?;
    let field = index(field)?;
    let target = Target { name, field };
    if !has_field(store, &target) {
        bail!("no field");
    }
    on_field(
        alloc,
        answer,
        store,
        bytes,
        &target,
        FieldCall { verb, words: rest },
    )
}

/// Adds a coverage.
fn add(answer: &mut Answer, store: &mut Store, bytes: u64, signature: &Signature) {
    if store.signature(&signature.name).is_some() {
        return answer.wrong("there is one with this name");
    }
    match store.create(signature, bytes) {
        Ok(()) => answer.say("ok"),
        Err(fault) => answer.refusal(refused(fault)),
    }
}

/// Adds a coverage, as `lai x(0:99) v:i16`.
fn create(
    alloc: Global,
    answer: &mut Answer,
    store: &mut Store,
    bytes: u64,
    words: &str,
) -> Result<()> {
    let signature = signature(alloc, words)?;
    add(answer, store, bytes, &signature);
    Ok(())
}

/// What is told of the coverage with a name.
fn describe(alloc: Global, answer: &mut Answer, store: &Store, words: &str) -> Result<()> {
    let name = Name::new(alloc, words)?;
    say_signature(answer, store.signature(&name));
    Ok(())
}

/// Takes a coverage out.
fn delete(alloc: Global, answer: &mut Answer, store: &mut Store, words: &str) -> Result<()> {
    let name = Name::new(alloc, words)?;
    store.remove(&name);
    answer.say("ok");
    Ok(())
}

/// Whether a store has a coverage with a name.
fn has_name(store: &Store, name: &Name) -> bool
    ensures { IsTrue result → found name.now store.now.coverages ≡ None → ⊥ }
{
    store.signature(name).is_some()
}

/// Holds a coverage for a job, as `1 lai`.
fn hold(alloc: Global, answer: &mut Answer, store: &mut Store, words: &str) -> Result<()> {
    let (job, name) = cut(words);
    let job = number(job)?;
    let name = Name::new(alloc, name)?;
    if store.holds(job) || !has_name(store, &name) {
        bail!("nothing to hold");
    }
    match store.hold(job, &[name]) {
        Ok(()) => answer.say("ok"),
        Err(_) => answer.refusal(NO_MEMORY),
    }
    Ok(())
}

/// Ends what is held for a job.
fn release(answer: &mut Answer, store: &mut Store, job: u64) {
    store.release(job);
    answer.say("ok");
}

/// Reads a job, a field and a tile, as `1 lai 0 0`, and what stands behind.
pub fn read_asked(alloc: Global, words: &str) -> Result<(u64, Target, u64, &str)> {
    let (job, rest) = cut(words);
    let (name, rest) = cut(rest);
    let (field, rest) = cut(rest);
    let (tile, rest) = cut(rest);
    let name = Name::new(alloc, name)?;
    let field = index(field)?;
    Ok((number(job)?, Target { name, field }, number(tile)?, rest))
}

/// The numbers of a tile of a field, as `1 lai 0 0`: of the coverage as it is held for a job.
fn read_held(alloc: Global, answer: &mut Answer, store: &mut Store, words: &str) -> Result<()> {
    let (job, target, tile, _) = read_asked(alloc, words)?;
    let target = &target;
    read_tile(alloc, answer, store, Asked { job, target, tile });
    Ok(())
}

/// A call on a store whose catalogue has so many bytes.
pub fn call(
    alloc: Global,
    answer: &mut Answer,
    store: &mut Store,
    bytes: u64,
    verb: &str,
    words: &str,
) -> Result<()> {
    match verb {
        "create" => return create(alloc, answer, store, bytes, words),
        "described" => return describe(alloc, answer, store, words),
        "delete" => return delete(alloc, answer, store, words),
        "hold" => return hold(alloc, answer, store, words),
        "held" => return read_held(alloc, answer, store, words),
        "pick" => return pick(alloc, answer, store, words),
        "runs" => return list(alloc, answer, store, words),
        "fetched" => answer.count(store.fetched()),
        "count" => answer.count(store.len() as u64),
        "release" => release(answer, store, number(words)?),
        _ => return of_field(alloc, answer, store, bytes, verb, words),
    }
    Ok(())
}

/// Makes a store without coverages over the blocks of a file.
pub fn begin(
    alloc: Global,
    answer: &mut Answer,
    volume: &mut Option<Volume>,
    store: &mut Option<Store>,
) -> Result<()> {
    let volume = volume.take().context("no file of blocks")?;
    *store = Some(RasterStore::new(alloc, volume.into_file()));
    answer.say("ok");
    Ok(())
}

/// Takes the blocks of a store back.
pub fn end(
    alloc: Global,
    answer: &mut Answer,
    volume: &mut Option<Volume>,
    store: &mut Option<Store>,
) -> Result<()> {
    let store = store.take().context("no store")?;
    *volume = Some(Volume::new(alloc, store.into_blocks()));
    answer.say("ok");
    Ok(())
}
