//! The first fault of points that are told in whatever order.

ghost use Rattle.std.specs.Prelude.{[]};
ghost use Rattle.tile_kernel.specs.Told.{IsFirstOf};
ghost use Rattle.tile_kernel.specs.Joins.{HoldsOfBoth};

use wcps_mean::PointFault;

/// The fault at the least place of the points that were told, if there is one; without a fault the place means nothing.
#[derive(Clone, Copy, PartialEq, Eq)]
pub struct FirstFault {
    pub fault: Option<PointFault>,
    pub place: u64,
}

impl FirstFault {
    /// Of no point.
    pub fn none() -> FirstFault
        ensures { IsFirstOf result [] }
    {
        FirstFault {
            fault: None,
            place: 0,
        }
    }

    /// Of the points of both.
    pub fn least(self, other: FirstFault) -> FirstFault
        ensures { HoldsOfBoth (IsFirstOf self) (IsFirstOf other) (IsFirstOf result) }
    {
        match other.fault {
            None => return self,
            Some(_) => match self.fault {
                None => return other,
                Some(_) => {
                    if self.place <= other.place {
                        return self;
                    }
                    return other;
                }
            },
        }
    }
}
