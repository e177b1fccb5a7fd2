//! What a unit found is kept. It takes no memory.

ghost use Rattle.std.specs.Prelude.{◌≡◌, ℕ, Bool, ◌+◌, ◌<◌, ◌≤◌, ◌^◌, [], ◌∷◌, ◌++◌, length, vec_capacity};
ghost use Rattle.wcps_text.specs.declared.operator.Aggregate.{Aggregate};
ghost use Rattle.wcps_mean.specs.declared.cell.Outcome.{Outcome};
ghost use Rattle.tile_kernel.specs.Told.{IsFirstOf};
ghost use Rattle.tile_kernel.specs.Standing.{Stands};
ghost use Rattle.tile_exec.specs.declared.task.Status.{Status};
ghost use Rattle.tile_exec.specs.declared.found.Found.{Found};
ghost use Rattle.tile_exec.specs.Progress.{after_condition};
ghost use Rattle.tile_exec.specs.Standing.{IsSound, tasks_left};
ghost use Rattle.tile_exec.specs.Units.{Fits, IsNotGiven, AfterSkipped, BeginsTile, Gives, Keeps};

use crate::buffers::Buffers;
use crate::found::{Found, ItemTile, Unit};
use crate::known::Known;
use crate::row::write_points;
use crate::state::State;
use crate::task::Status;
use arr_core::Cell;
use std::mem;
use tile_kernel::{Accumulator, FirstFault};
use wcps_mean::{CellList, Item, Outcome, is_set};
use wcps_text::Aggregate;

/// Puts an outcome at the end of a list that has room for it.
fn put_register(registers: &mut Vec<Outcome>, o: Outcome)
    requires { length registers.old.items < vec_capacity registers.old }
    ensures items { registers.new.items ≡ registers.old.items ++ o ∷ [] }
    ensures capacity { vec_capacity registers.old ≤ vec_capacity registers.new }
{
    match registers.push(o) {
        Ok(()) => (),
        Err(_) => unreachable!(),
    }
}

/// Puts an item at the end of a list that has room for it.
fn put_item(items: &mut Vec<Item>, item: Item)
    requires { length items.old.items < vec_capacity items.old }
    ensures items { items.new.items ≡ items.old.items ++ item ∷ [] }
    ensures capacity { vec_capacity items.old ≤ vec_capacity items.new }
{
    match items.push(item) {
        Ok(()) => (),
        Err(_) => unreachable!(),
    }
}

/// The accumulator as it is before a tile: that of the tiles before it, or of no point before the first tile.
fn begin(accumulator: &mut Accumulator, tile: u64, op: Aggregate)
    ensures stands { BeginsTile tile (Stands accumulator.old) (Stands accumulator.new) }
    ensures op { (0 < tile → accumulator.old.running.op ≡ op) → accumulator.new.running.op ≡ op }
    ensures count { (n : ℕ) → (0 < tile → accumulator.old.running.count ≤ n) → accumulator.new.running.count ≤ n }
{
    if tile == 0 {
        *accumulator = Accumulator::empty(op);
        return;
    }
}

/// The first fault before a tile: that of the tiles before it, or none before the first tile.
fn begin_first(first: FirstFault, tile: u64) -> FirstFault
    ensures { BeginsTile tile (IsFirstOf first) (IsFirstOf result) }
{
    if tile == 0 {
        return FirstFault::none();
    }
    first
}

/// The cells before a tile: those of the tiles before it, or fresh ones before the first tile.
fn begin_cells(cells: &mut Vec<Cell>, tile: u64, fresh: Vec<Cell>)
    ensures kept { 0 < tile → cells.new.items ≡ cells.old.items }
    ensures fresh { tile ≡ 0 → cells.new.items ≡ fresh.items }
{
    if tile == 0 {
        *cells = fresh;
        return;
    }
}

/// What is known after a tile: what a first one found, else what was known before.
fn begin_known(known: &mut Option<Known>, tile: u64, found: Option<Known>)
    ensures kept { 0 < tile → known.new ≡ known.old }
    ensures found { tile ≡ 0 → known.new ≡ found }
{
    if tile == 0 {
        *known = found;
        return;
    }
}

/// How it stands after a condition.
fn tested(status: Status, o: Outcome) -> Status
    ensures { result ≡ after_condition status o }
{
    match status {
        Status::Failed(f) => return Status::Failed(f),
        Status::Giving => return tested_by(o),
        Status::Skipping => return tested_by(o),
    }
}

/// What a condition says.
fn tested_by(o: Outcome) -> Status
    ensures { result ≡ after_condition Status.Giving o }
{
    match o {
        Outcome::Fault(f) => return Status::Failed(f),
        Outcome::Value(x) => {
            if is_set(x) {
                return Status::Giving;
            }
            return Status::Skipping;
        }
    }
}

/// How it stands after an item that is not given: a fault stands, else the next combination may give one.
fn after_skipped(status: Status) -> Status
    ensures { IsNotGiven status → AfterSkipped status result }
{
    match status {
        Status::Failed(f) => return Status::Failed(f),
        Status::Giving => return Status::Giving,
        Status::Skipping => return Status::Giving,
    }
}

impl State {
    /// Keeps what a unit found.
    pub(crate) fn keep(&mut self, buffers: &mut Buffers, unit: Unit)
        requires sound { IsSound self.old }
        requires fits { Fits self.old (tasks_left self.old) unit.last unit.found }
        requires left { 0 < self.old.left }
        ensures { Keeps self.old self.new unit.found }
    {
        let Unit { last, found } = unit;
        match found {
            Found::Pass(a) => self.keep_pass(last, a),
            Found::Condition(o) => self.keep_condition(o),
            Found::Item(tile) => self.keep_item(buffers, last, tile),
            Found::Fieldless(line) => self.keep_fieldless(line),
            Found::Skipped => self.keep_skipped(last),
        }
    }

    /// The pass at hand is told of its next tile. After its last one its outcome goes to its register.
    fn keep_pass(&mut self, last: bool, found: Accumulator)
        requires sound { IsSound self.old }
        requires fits { Fits self.old (tasks_left self.old) last (Found.Pass found) }
        ensures { Keeps self.old self.new (Found.Pass found) }
    {
        let op = found.running.op;
        begin(&mut self.accumulator, self.tile, op);
        self.accumulator.merge(found);
        self.left -= 1;
        if last {
            let whole = mem::replace(&mut self.accumulator, Accumulator::empty(op));
            put_register(&mut self.registers, whole.finish());
            self.at += 1;
            self.tile = 0;
            return;
        }
        self.tile += 1;
    }

    /// The condition at hand is tested.
    fn keep_condition(&mut self, o: Outcome)
        requires sound { IsSound self.old }
        requires fits { (last : Bool) × Fits self.old (tasks_left self.old) last (Found.Condition o) }
        ensures { Keeps self.old self.new (Found.Condition o) }
    {
        self.status = tested(self.status, o);
        self.left -= 1;
        self.at += 1;
        self.tile = 0;
    }

    /// The item at hand is told of its next tile. After its last one it is given, or its first fault stands.
    fn keep_item(&mut self, buffers: &mut Buffers, last: bool, found: ItemTile)
        requires sound { IsSound self.old }
        requires fits { Fits self.old (tasks_left self.old) last (Found.Item found) }
        ensures { Keeps self.old self.new (Found.Item found) }
    {
        let ItemTile {
            columns,
            places,
            booleans,
            first,
            fresh,
            known,
            line,
            fields,
        } = found;
        begin_cells(&mut self.cells, self.tile, fresh);
        begin_known(&mut self.known, self.tile, known);
        write_points(&mut self.cells, &places, &booleans, &columns);
        buffers.take_back(places);
        self.first = begin_first(self.first, self.tile).least(first);
        self.left -= 1;
        if last {
            self.give_item(line, fields);
            return;
        }
        self.tile += 1;
    }

    /// The item at hand is given, or its first fault stands. Its cells and what is known of it are kept no longer.
    fn give_item(&mut self, line: u64, fields: u32)
        requires small { self.old.at + 1 < 2 ^ 64 }
        requires room { length self.old.items.items < vec_capacity self.old.items }
        ensures { Gives self.old self.new line fields }
    {
        self.at += 1;
        self.tile = 0;
        self.known = None;
        let cells = mem::replace(&mut self.cells, Vec::new(self.alloc));
        match self.first.fault {
            Some(f) => {
                self.status = Status::Failed(f);
                return;
            }
            None => {
                let cells = CellList::new(cells);
                put_item(
                    &mut self.items,
                    Item {
                        line,
                        fields,
                        cells,
                    },
                );
                return;
            }
        }
    }

    /// The item at hand, which has no fields, is given.
    fn keep_fieldless(&mut self, line: u64)
        requires sound { IsSound self.old }
        requires fits { (last : Bool) × Fits self.old (tasks_left self.old) last (Found.Fieldless line) }
        ensures { Keeps self.old self.new (Found.Fieldless line) }
    {
        let cells = CellList::new(Vec::new(self.alloc));
        put_item(
            &mut self.items,
            Item {
                line,
                fields: 0,
                cells,
            },
        );
        self.left -= 1;
        self.at += 1;
        self.tile = 0;
    }

    /// A tile of an item that is not given; or there is no task.
    fn keep_skipped(&mut self, last: bool)
        requires sound { IsSound self.old }
        requires fits { Fits self.old (tasks_left self.old) last Found.Skipped }
        requires left { 0 < self.old.left }
        ensures { Keeps self.old self.new Found.Skipped }
    {
        self.left -= 1;
        if self.tasks.len() <= self.at {
            return;
        }
        if last {
            self.status = after_skipped(self.status);
            self.at += 1;
            self.tile = 0;
            return;
        }
        self.tile += 1;
    }
}
