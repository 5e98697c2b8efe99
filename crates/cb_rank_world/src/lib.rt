//! A world: all ranks of a checked plan and the lanes between them, in one place, stepped one event at a time.
//!
//! An event names a rank, which does its next half if it can. A post needs a free place on its lane, and a take needs a
//! letter; an operation can always be done. A rank that can't act, or is done, changes nothing. Events may come in any
//! order. How far each rank has come determines the slots of each rank and the letters on each lane, lost blocks aside.
//! [`World::ready`] finds the least rank that can act. There is one until all are done, for every capacity of the lanes.
//!
//! A lane is a queue in the mailbox of its addressee. [`World::start`] takes all memory, except for the blocks that ranks
//! copy and make. If memory for one of these is refused, a slot or a letter is lost, and the world goes on.
//!
//! `specs/Worlds` defines what holds of a world at every moment, and `specs/WorldSteps` what an event changes.
#![tactic(auto)]

mod ends;
mod events;
mod starting;
mod world;

pub use events::Event;
pub use world::World;
