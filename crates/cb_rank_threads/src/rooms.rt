//! Room for a crew's threads, and for what they return.
ghost use Rattle.std.specs.Prelude.{IfOk};
ghost use Rattle.cb_rank_threads.specs.ThreadRooms.{IsRoomFor};

use crate::promises::Running;
use cb_rank_runs::{Member, Recorder};
use cb_semirings::Semiring;
use std::alloc::{AllocError, Global};

/// Lists with room for the threads of a number of ranks, and for the ranks, desks and recorders that these return.
#[derive(Drop)]
pub(crate) struct Room<S: Semiring, T: Recorder> {
    pub(crate) threads: Vec<Running<S, T>>,
    pub(crate) members: Vec<Member<S>>,
    pub(crate) told: Vec<T>,
}

impl<S: Semiring, T: Recorder> Room<S, T> {
    /// Empty lists, with room for this many ranks.
    pub(crate) fn with_room(alloc: Global, ranks: usize) -> Result<Room<S, T>, AllocError>
        ensures { IfOk result (IsRoomFor ranks) }
    {
        Ok(Room {
            threads: Vec::with_capacity(alloc, ranks)?,
            members: Vec::with_capacity(alloc, ranks)?,
            told: Vec::with_capacity(alloc, ranks)?,
        })
    }
}
