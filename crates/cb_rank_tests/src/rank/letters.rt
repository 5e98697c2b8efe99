//! What a rank posts, and what it takes.
use super::{Held, accepts, contents_of, letter, rank_0, worked};
use cb_dcsc::Block;
use cb_letters::{Body, Letter, Tag};
use cb_plan::{Op, SharedBlock};
use cb_rank::{Arrival, Rank, Supply, Want};
use cb_samples::shape;
use cb_semirings::PlusTimes;
use std::alloc::Global;

/// Copies slot 0 to slot 3, which is posted.
const COPY: Op = Op::Copy { a: 0, into: 3 };

/// Rank 0 after that copy.
fn copied(alloc: Global, lost: bool) -> Option<Rank<PlusTimes>> {
    worked(alloc, COPY, 3, [lost, false, false], Supply::Granted)
}

/// The letter of a Post, if the next half is one.
fn posted(
    rank: &mut Rank<PlusTimes>,
    supply: Supply,
) -> Option<(Tag, Body<SharedBlock<PlusTimes>>)> {
    match rank.want() {
        Want::Post(_) => Some(rank.outgoing(supply)),
        _ => None,
    }
}

/// Whether a letter with tag 9 and a block with one entry is posted.
fn posts_one_entry(rank: &mut Rank<PlusTimes>) -> bool {
    match posted(rank, Supply::Granted) {
        Some((tag, Body::Sheet(copy))) => tag == Tag(9) && copy.len() == 1,
        _ => false,
    }
}

/// Whether the lane to rank 1 is shut.
fn shuts(rank: &mut Rank<PlusTimes>) -> bool {
    match rank.want() {
        Want::Shut(1) => {
            rank.shut();
            true
        }
        _ => false,
    }
}

/// Whether a rank that has done its operation posts its copy, closes its lane, and is done when the other lane ends.
fn is_done_at_the_end(rank: &mut Rank<PlusTimes>) -> bool {
    let mut as_expected = rank.want() == Want::Post(1);
    as_expected &= posts_one_entry(rank);
    as_expected &= shuts(rank);
    as_expected &= rank.want() == Want::End(1) && !rank.is_done();
    as_expected &= accepts(rank, Arrival::End(1));
    as_expected & (rank.want() == Want::Done && rank.is_done() && rank.refusals() == 0)
}

/// What slot 3 holds at the end of such a rank.
fn left_at_the_end(alloc: Global) -> Option<Held> {
    let mut rank = copied(alloc, false)?;
    let is_done = is_done_at_the_end(&mut rank);
    let held = contents_of(&rank.into_store(), 3);
    if is_done { Some(held) } else { None }
}

#[test]
fn a_program_is_done_half_by_half(rt: HostRuntime) {
    assert!(rt; left_at_the_end(rt.alloc()) == Some(Held::Entries(1, 2)));
}

/// The rank at which a body was lost.
fn origin_of(body: &Body<SharedBlock<PlusTimes>>) -> Option<u16> {
    match body {
        Body::Lost(origin) => Some(*origin),
        _ => None,
    }
}

/// The rank at which the posted copy was lost, if no memory is granted for it, and how often memory was refused.
fn lost_at(alloc: Global, lost: bool) -> Option<(u16, u64)> {
    let mut rank = copied(alloc, lost)?;
    let (_tag, body) = posted(&mut rank, Supply::Refused)?;
    let origin = origin_of(&body)?;
    Some((origin, rank.refusals()))
}

#[test]
fn a_refused_copy_is_lost_at_this_rank_and_a_lost_slot_at_its_origin(rt: HostRuntime) {
    assert!(rt; lost_at(rt.alloc(), false) == Some((0, 1)));
    assert!(rt; lost_at(rt.alloc(), true) == Some((10, 0)));
}

/// What a letter carries.
#[derive(Clone, Copy)]
enum Carried {
    Lost,
    Mark,
    /// A block of two columns.
    Wide,
}

/// A letter for the first Take: its sender, its addressee, its tag and what it carries.
type Stray = (u16, u16, u32, Carried);

/// Letters that are wrong only in the sender, the addressee, the tag, the kind, or the shape.
const STRAYS: [Stray; 5] = [
    (0, 0, 5, Carried::Lost),
    (1, 1, 5, Carried::Lost),
    (1, 0, 6, Carried::Lost),
    (1, 0, 5, Carried::Mark),
    (1, 0, 5, Carried::Wide),
];

/// What such a letter has in it.
fn body_of(alloc: Global, carried: Carried) -> Option<Body<SharedBlock<PlusTimes>>> {
    match carried {
        Carried::Lost => Some(Body::Lost(4)),
        Carried::Mark => Some(Body::Close),
        Carried::Wide => {
            let sheet = Block::empty(alloc, shape(1, 2).ok()?);
            Some(Body::Sheet(SharedBlock::new(sheet)))
        }
    }
}

/// Whether a rank that waits for its first letter doesn't accept this one and keeps waiting.
fn leaves(alloc: Global, rank: &mut Rank<PlusTimes>, stray: &Stray) -> Option<bool> {
    let (from, to, tag, carried) = *stray;
    let body = body_of(alloc, carried)?;
    let letter = Letter {
        from,
        to,
        number: 0,
        tag: Tag(tag),
        body,
    };
    let is_accepted = accepts(rank, Arrival::Letter(letter));
    Some(!is_accepted && rank.want() == Want::Take(1))
}

/// Whether it accepts none of these letters, nor an end.
fn leaves_all(alloc: Global, rank: &mut Rank<PlusTimes>) -> bool {
    for stray in &STRAYS {
        if leaves(alloc, rank, stray) != Some(true) {
            return false;
        }
    }
    !accepts(rank, Arrival::End(1)) && rank.want() == Want::Take(1)
}

/// What slot 0 holds after a rank accepts none of them, and then the letter that it waits for.
fn taken_after_strays(alloc: Global) -> Option<Held> {
    let mut rank = rank_0(alloc, COPY, 3)?;
    let mut as_expected = leaves_all(alloc, &mut rank);
    as_expected &= accepts(&mut rank, letter(0, 5, Body::Lost(4)));
    let held = contents_of(&rank.into_store(), 0);
    if as_expected { Some(held) } else { None }
}

#[test]
fn a_take_takes_no_other_letter(rt: HostRuntime) {
    assert!(rt; taken_after_strays(rt.alloc()) == Some(Held::LostAt(4)));
}

/// Whether a rank that waits for the end of the lane from rank 1 accepts no close mark and no other lane's end.
fn takes_its_end_alone(rank: &mut Rank<PlusTimes>) -> bool {
    let mark = accepts(rank, letter(3, 0, Body::Close));
    let other_end = accepts(rank, Arrival::End(0));
    let waits = rank.want() == Want::End(1);
    let end = accepts(rank, Arrival::End(1));
    !mark && !other_end && waits && end
}

/// The same, for a rank that has posted its copy and closed its lane.
fn ends_alone(alloc: Global) -> Option<bool> {
    let mut rank = copied(alloc, true)?;
    let _letter = posted(&mut rank, Supply::Granted);
    let is_shut = shuts(&mut rank);
    Some(is_shut & takes_its_end_alone(&mut rank))
}

#[test]
fn an_end_takes_no_letter(rt: HostRuntime) {
    assert!(rt; ends_alone(rt.alloc()) == Some(true));
}
