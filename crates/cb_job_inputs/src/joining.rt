//! The pieces of a text, joined side by side.
ghost use Rattle.std.specs.Prelude.{◌<◌, ◌≤◌, IfSome, length};
ghost use Rattle.std.specs.Thread.{IsSync};
ghost use Rattle.cb_job_inputs.specs.TextPieces.{AreCut, AreInOrder, IsRead, in_a_row};

use crate::pieces::{Cut, Lines, Reading};
use crate::places::Places;
use cb_market::Piece;
use cb_semirings::Semiring;
use std::thread::{Threads, join_mut};

/// Joins what was read of a text. Pieces that no thread has read are read here.
pub(crate) fn join_places<S: Semiring + Send + Sync, R: Threads + Sync>(
    rt: &R,
    cut: &Cut<'_>,
    mut places: Places<S>,
) -> Option<Piece<S>>
    requires ends { AreCut cut.now.pieces.items }
    requires order { AreInOrder S.arithmetic cut.now.reading cut.now.pieces.items places.items }
    ensures { IfSome result (IsRead S.arithmetic cut.now.reading (in_a_row cut.now.pieces.items)) }
{
    for number in 0..places.len() {
        if places[number].is_none() {
            places[number] = Some(cut.read::<S>(number)?);
        }
    }
    join_all(rt, &cut.reading, cut.in_turn(), &cut.pieces, &mut places)
}

/// How many of this many pieces, at least two, are joined before the others are appended to them: all but the last, if they are
/// joined in turn, and otherwise half of them, rounded up to a power of two.
fn first_part(count: usize, in_turn: usize) -> usize
    requires { 2 ≤ count }
    ensures some { 0 < result }
    ensures below { result < count }
{
    if count <= in_turn {
        count - 1
    } else {
        half_of(count)
    }
}

/// The largest power of two below a number from 2 on.
fn half_of(count: usize) -> usize
    requires { 2 ≤ count }
    ensures some { 0 < result }
    ensures below { result < count }
{
    let mut half = 1;
    while half < count - half {
        half *= 2;
    }
    half
}

/// Joins pieces. Up to `in_turn` of them are joined one after the other, so that the entries of each are copied once. More are
/// joined by halves, each half by a thread of its own while this one waits. None if a place has no piece, or if memory is refused.
///
/// Entries that ascend go through a grid column by column. So parts of a text meet in few blocks if there are as many as blocks
/// side by side, and little is copied to join them.
#[cycle(pieces)]
fn join_all<S: Semiring + Send + Sync, R: Threads + Sync>(
    rt: &R,
    reading: &Reading,
    in_turn: usize,
    pieces: &[Lines<'_>],
    places: &mut [Option<Piece<S>>],
) -> Option<Piece<S>>
    requires ends { AreCut pieces.now }
    requires order { AreInOrder S.arithmetic reading.now pieces.now places.old }
    ensures { IfSome result (IsRead S.arithmetic reading.now (in_a_row pieces.now)) }
{
    if pieces.len() < 2 {
        return only(reading, pieces, places);
    }
    let half = first_part(pieces.len(), in_turn);
    let (front, back) = pieces.split_at(half);
    let (front_places, back_places) = places.split_at_mut(half);
    let (front, back) = join_halves(rt, reading, in_turn, front, front_places, back, back_places);
    let front = front?;
    let back = back?;
    front.append(rt, reading.alloc, back)
}

/// Joins the first pieces, and the others: each by a thread of its own if these are several.
#[cycle(pieces)]
fn join_halves<S: Semiring + Send + Sync, R: Threads + Sync>(
    rt: &R,
    reading: &Reading,
    in_turn: usize,
    front: &[Lines<'_>],
    front_places: &mut [Option<Piece<S>>],
    back: &[Lines<'_>],
    back_places: &mut [Option<Piece<S>>],
) -> (Option<Piece<S>>, Option<Piece<S>>)
    requires some { 0 < length front.now }
    requires others { 0 < length back.now }
    requires front_ends { AreCut front.now }
    requires front_order { AreInOrder S.arithmetic reading.now front.now front_places.old }
    requires back_ends { AreCut back.now }
    requires back_order { AreInOrder S.arithmetic reading.now back.now back_places.old }
    ensures front { IfSome result.0 (IsRead S.arithmetic reading.now (in_a_row front.now)) }
    ensures back { IfSome result.1 (IsRead S.arithmetic reading.now (in_a_row back.now)) }
{
    if back.len() < 2 {
        let first = join_all(rt, reading, in_turn, front, front_places);
        return (first, join_all(rt, reading, in_turn, back, back_places));
    }
    let mut there = || -> Option<Piece<S>>
        requires { IsSync R.row × AreCut back.now × AreInOrder S.arithmetic reading.now back.now back_places.now }
        ensures { IfSome result (IsRead S.arithmetic reading.entry.now (in_a_row back.entry.now)) }
    { join_all(rt, reading, in_turn, back, back_places) };
    let mut here = || -> Option<Piece<S>>
        requires { IsSync R.row × AreCut front.now × AreInOrder S.arithmetic reading.now front.now front_places.now }
        ensures { IfSome result (IsRead S.arithmetic reading.entry.now (in_a_row front.entry.now)) }
    { join_apart(rt, reading, in_turn, front, front_places) };
    let (back, front) = join_mut(rt, &mut there, &mut here);
    (front, back)
}

/// Joins pieces in a thread of its own, while this one waits.
#[cycle(pieces)]
fn join_apart<S: Semiring + Send + Sync, R: Threads + Sync>(
    rt: &R,
    reading: &Reading,
    in_turn: usize,
    pieces: &[Lines<'_>],
    places: &mut [Option<Piece<S>>],
) -> Option<Piece<S>>
    requires ends { AreCut pieces.now }
    requires order { AreInOrder S.arithmetic reading.now pieces.now places.old }
    ensures { IfSome result (IsRead S.arithmetic reading.now (in_a_row pieces.now)) }
{
    let mut there = || -> Option<Piece<S>>
        requires { IsSync R.row × AreCut pieces.now × AreInOrder S.arithmetic reading.now pieces.now places.now }
        ensures { IfSome result (IsRead S.arithmetic reading.entry.now (in_a_row pieces.entry.now)) }
    { join_all(rt, reading, in_turn, pieces, places) };
    let (piece, ()) = join_mut(rt, &mut there, &mut || {});
    piece
}

/// Takes the only piece. None if there is none.
fn only<S: Semiring>(
    reading: &Reading,
    pieces: &[Lines<'_>],
    places: &mut [Option<Piece<S>>],
) -> Option<Piece<S>>
    requires few { length pieces.now < 2 }
    requires order { AreInOrder S.arithmetic reading.now pieces.now places.old }
    ensures { IfSome result (IsRead S.arithmetic reading.now (in_a_row pieces.now)) }
{
    let place = places.get_mut(0)?;
    place.take()
}
