//! Folds of zones, evaluated by their keys.

ghost use Rattle.std.specs.Prelude.{◌≡◌, length, OnOk};
ghost use Rattle.tile_columns.specs.Calling.{Reads};
ghost use Rattle.tile_columns.specs.Keys.{fold_of, FetchesByKey};
ghost use Rattle.tile_columns.specs.Meaning.{IsGroundOf, HasPlaceOver, IsColumnOf};
ghost use Rattle.tile_columns.specs.Zones.{AreZonesOf};

use crate::bodies::{Zoning, tell_zones};
use crate::folds::{empty_folds, finish_folds};
use crate::frame::Frame;
use crate::ground::Ground;
use crate::scratch::Scratch;
use crate::source::Tiles;
use crate::zones::Key;
use tile_kernel::Column;
use wcps_mean::CellError;

/// Makes `out` the outcomes of a fold of zones at the places of a frame, in one pass over its box.
pub fn evaluate_keyed<S: Tiles>(
    source: &mut S,
    ground: &Ground<'_>,
    key: &Key<'_>,
    frame: &mut Frame,
    scratch: &mut Scratch,
    out: &mut Column,
) -> Result<(), CellError>
    requires signatures { IsGroundOf (S.state source.old) ground.now }
    requires zones { AreZonesOf key.now.fold.now frame.old key.now.zones }
    requires place { HasPlaceOver (S.state source.old) ground.now (fold_of key.now) frame.old }
    ensures value { OnOk result (IsColumnOf (S.state source.old) ground.now (fold_of key.now) frame.old out.new) }
    ensures places { OnOk result (length out.new ≡ length frame.old) }
    ensures frame { OnOk result (frame.new ≡ frame.old) }
    ensures reads { Reads S.Tiles result source.old source.new }
    ensures fetched { OnOk result (FetchesByKey key.now frame.old S.Tiles source.old source.new) }
{
    scratch.keep_runs(false);
    let mut folds = empty_folds(scratch.alloc(), key.fold.op, frame.places())?;
    let zoning = Zoning {
        ground: &*ground,
        zones: key.zones,
    };
    tell_zones(source, &zoning, key.fold, frame, scratch, &mut folds)?;
    finish_folds(folds, &mut scratch.outcomes)?;
    out.write_outcomes(&scratch.outcomes);
    Ok(())
}
