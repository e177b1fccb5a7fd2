//! The buffers of all units that are done by turns.

use crate::buffers::Buffers;
use std::alloc::{AllocError, Global};
use std::marker::Model;

/// The buffers that units work in, made where a step first needs them. One workspace serves all plans that are done by
/// turns. To a caller all are the same.
#[derive(Drop)]
pub struct Workspace {
    alloc: Global,
    buffers: Option<Box<Buffers>>,
}

impl Model for Workspace {
    ghost Value = { Unit {0} };

    ghost view = { λ _. tt };
}

impl Workspace {
    /// Nothing yet. It takes no memory.
    pub fn new(alloc: Global) -> Workspace {
        Workspace {
            alloc,
            buffers: None,
        }
    }

    /// The buffers: those that it has, or new ones, which it keeps.
    pub(crate) fn buffers(&mut self) -> Result<&mut Buffers, AllocError> {
        if self.buffers.is_none() {
            let buffers = Buffers::new(self.alloc)?;
            self.buffers = Some(Box::new(self.alloc, buffers)?);
        }
        match &mut self.buffers {
            Some(buffers) => Ok(&mut **buffers),
            None => unreachable!(),
        }
    }
}
