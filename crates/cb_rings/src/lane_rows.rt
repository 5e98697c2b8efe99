//! Opening the lanes between all ranks.
//!
//! The lanes are made row by row: the posting ends of one rank's lanes are a row, and the taking ends are appended to the
//! columns of their addressees.
ghost use Rattle.std.specs.Prelude.{◌≡◌, ◌<◌, ◌==◌, ◌^◌, length, IfOk};
ghost use Rattle.cb_rings.specs.Ends.{IsNewLane, AreRows, AreColumns, AreNewLanes, IsRow};

use crate::Bell;
use crate::ring_ends::{Numbered, Poster, Taker};
use cb_letters::{Capacity, Letter};
use rtrb::RingBuffer;
use std::alloc::{AllocError, Global};

/// The posting ends of the lanes from one rank, by addressee.
pub type Row<P> = Vec<Option<Poster<P>>>;

/// The taking ends of the lanes to one rank, by sender.
pub type Column<P> = Vec<Option<Taker<P>>>;

/// The two ends of the lane from one rank to another. A rank has no lane to itself.
fn open_lane<P: Drop>(
    alloc: Global,
    from: u16,
    to: u16,
    capacity: Capacity,
) -> Result<(Option<Poster<P>>, Option<Taker<P>>), AllocError>
    ensures { IfOk result (λ ends. IsNewLane from to capacity ends.0 ends.1) }
{
    if from == to {
        return Ok((None, None));
    }
    let (producer, consumer) = RingBuffer::<Letter<P>>::with_protocol::<Global, Numbered>(
        alloc,
        capacity.get(),
    )?;
    let (bell, theirs) = Bell::pair(alloc)?;
    Ok((
        Some(Poster::new(producer, bell)),
        Some(Taker::new(consumer, theirs)),
    ))
}

/// The posting ends of the lanes from one rank. The taking ends go to the columns.
fn open_row<P: Drop>(
    alloc: Global,
    from: u16,
    capacity: Capacity,
    columns: &mut Vec<Column<P>>,
) -> Result<Row<P>, AllocError>
    requires count { length columns.old.items < 2 ^ 16 }
    requires columns { AreColumns columns.old.items from }
    ensures count { IfOk result (λ row. (length row.items ≡ length columns.old.items) × (length columns.new.items ≡ length columns.old.items)) }
    ensures row { IfOk result (λ row. IsRow from capacity row.items columns.old.items columns.new.items) }
{
    let mut row = Vec::new(alloc);
    for to in 0..columns.len() as u16 {
        let (outgoing, incoming) = open_lane(alloc, from, to, capacity)?;
        row.push(outgoing)?;
        columns[to as usize].push(incoming)?;
    }
    Ok(row)
}

/// The lanes from each rank to each: the posting ends by sender, the taking ends by addressee.
pub fn open_lanes<P: Drop>(
    alloc: Global,
    ranks: u16,
    capacity: Capacity,
) -> Result<(Vec<Row<P>>, Vec<Column<P>>), AllocError>
    ensures count { IfOk result (λ t. (length t.0.items ≡ ranks) × (length t.1.items ≡ ranks)) }
    ensures rows { IfOk result (λ t. AreRows t.0.items ranks) }
    ensures columns { IfOk result (λ t. AreColumns t.1.items ranks) }
    ensures lanes { IfOk result (λ t. AreNewLanes capacity t.0.items t.1.items) }
{
    let mut columns = Vec::new(alloc);
    for _ in 0..ranks {
        columns.push(Vec::new(alloc))?;
    }
    let mut rows = Vec::new(alloc);
    for from in 0..ranks {
        rows.push(open_row(alloc, from, capacity, &mut columns)?)?;
    }
    Ok((rows, columns))
}
