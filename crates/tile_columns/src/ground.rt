//! What bodies stand over.

ghost use Rattle.std.specs.Prelude.{◌≡◌, length, OnOk};
ghost use Rattle.tile_columns.specs.Calling.{Reads};
ghost use Rattle.tile_columns.specs.Meaning.{IsGroundOf, HasPlaceOver, IsColumnOf};
ghost use Rattle.tile_columns.specs.BodyReads.{read_view, FetchesTilesOf};

use crate::frame::Frame;
use crate::gather::{Reading, read};
use crate::scratch::Scratch;
use crate::source::Tiles;
use arr_core::Signature;
use plan_ir::Index;
use tile_kernel::Column;
use wcps_mean::{CellError, Outcome, place_at};

/// What bodies of one combination stand over: the coverages of the plan, which of them the combination chooses, by
/// their places in the plan, and the outcomes of its passes.
#[derive(Clone, Copy)]
pub struct Ground<'a> {
    pub signatures: &'a [Signature],
    pub coverages: &'a [usize],
    pub registers: &'a [Outcome],
}

/// A read of a body: a coverage by its place among those that are chosen, a field by its place, and an index for each
/// axis.
#[derive(Clone, Copy)]
pub(crate) struct BodyRead<'a> {
    pub coverage: usize,
    pub field: usize,
    pub indexes: &'a [Index],
}

/// Makes `out` the cells that a body's read gives at the places of a frame.
pub(crate) fn read_cells<S: Tiles>(
    source: &mut S,
    ground: &Ground<'_>,
    what: &BodyRead<'_>,
    frame: &Frame,
    scratch: &mut Scratch,
    out: &mut Column,
) -> Result<(), CellError>
    requires signatures { IsGroundOf (S.state source.old) ground.now }
    requires place { HasPlaceOver (S.state source.old) ground.now (read_view what.now) frame.now }
    ensures value { OnOk result (IsColumnOf (S.state source.old) ground.now (read_view what.now) frame.now out.new) }
    ensures places { OnOk result (length out.new ≡ length frame.now) }
    ensures reads { Reads S.Tiles result source.old source.new }
    ensures fetched { OnOk result (FetchesTilesOf ground.now what.now frame.now S.Tiles source.old source.new) }
{
    let place = place_at(ground.coverages, what.coverage);
    let reading = Reading {
        coverage: place,
        field: what.field,
        domain: &ground.signatures[place].domain,
        indexes: what.indexes,
    };
    read(source, &reading, frame, scratch, out)
}
