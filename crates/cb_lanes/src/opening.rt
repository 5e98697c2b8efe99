//! Opening the lanes between all ranks: desk k holds the posting ends of row k and the taking ends of column k.
ghost use Rattle.std.specs.Prelude.{ℕ, ◌≡◌, ◌<◌, length, map, slice_index_or, IfOk};
ghost use Rattle.cb_lanes.specs.Desks.{identity, AreOfOneOpening, IsNewDesk};

use crate::desk::Desk;
use cb_letters::Capacity;
use cb_rings::open_lanes;
use std::alloc::{AllocError, Global};
use std::mem;

/// The desks of all ranks, in order of their numbers, with a new lane for at most `capacity` letters from each rank to
/// each other. All memory that lanes ever use is allocated here: `ranks * (ranks - 1)` rings, each with a bell.
pub fn open<P: Drop>(
    alloc: Global,
    ranks: u16,
    capacity: Capacity,
) -> Result<Vec<Desk<P>>, AllocError>
    ensures count { IfOk result (λ desks. length desks.items ≡ ranks) }
    ensures one_opening { IfOk result (λ desks. AreOfOneOpening (map identity desks.items)) }
    ensures new { IfOk result (λ desks. (k : ℕ) (a : _) → k < ranks → IsNewDesk capacity ranks k (slice_index_or desks.items k a)) }
{
    let (mut rows, mut columns) = open_lanes(alloc, ranks, capacity)?;
    let mut desks = Vec::new(alloc);
    for me in 0..ranks {
        let outgoing = mem::replace(&mut rows[me as usize], Vec::new(alloc));
        let incoming = mem::replace(&mut columns[me as usize], Vec::new(alloc));
        desks.push(Desk {
            me,
            outgoing,
            incoming,
        })?;
    }
    Ok(desks)
}
