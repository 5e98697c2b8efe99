//! Room for what a crew's workers get, and for what comes back.
ghost use Rattle.std.specs.Prelude.{IfOk};
ghost use Rattle.cb_rank_crews.specs.CrewRooms.{IsRoomFor};

use crate::messages::Naming;
use crate::workers::{Back, Busy, Idle};
use cb_rank_runs::Member;
use cb_semirings::Semiring;
use std::alloc::{AllocError, Global};

/// Lists with room for a number of workers: with their ranks, as they come back, without ranks, and for the ranks.
#[derive(Drop)]
pub(crate) struct Room<S: Semiring, J: Naming> {
    pub(crate) busy: Vec<Busy<S, J>>,
    pub(crate) back: Vec<Back<S, J>>,
    pub(crate) rested: Vec<Idle<S, J>>,
    pub(crate) members: Vec<Member<S>>,
}

impl<S: Semiring, J: Naming> Room<S, J> {
    /// Empty lists, with room for this many ranks.
    pub(crate) fn with_room(alloc: Global, ranks: usize) -> Result<Room<S, J>, AllocError>
        ensures { IfOk result (IsRoomFor ranks) }
    {
        Ok(Room {
            busy: Vec::with_capacity(alloc, ranks)?,
            back: Vec::with_capacity(alloc, ranks)?,
            rested: Vec::with_capacity(alloc, ranks)?,
            members: Vec::with_capacity(alloc, ranks)?,
        })
    }
}
