//! What threads read of the pieces of a text, each at the place with the piece's number.
ghost use Rattle.std.specs.Prelude.{◌≡◌, Option, None, All, IfSome, IfOk, length};
ghost use Rattle.cb_market.specs.Pieces.{Part};
ghost use Rattle.cb_job_inputs.specs.TextPieces.{AreInOrder};

use crate::pieces::Cut;
use cb_job_threads::apart::each_apart;
use cb_job_threads::gates::Gate;
use cb_job_threads::turns::Turns;
use cb_market::Piece;
use cb_semirings::Semiring;
use std::alloc::{AllocError, Global};
use std::thread::Threads;

/// What was read of the pieces of a text, in order. A place without a piece is one that wasn't read.
pub(crate) type Places<S> = Vec<Option<Piece<S>>>;

/// Returns nothing, this many times.
fn nothing<T: Drop>(alloc: Global, count: usize) -> Result<Vec<Option<T>>, AllocError>
    ensures count { IfOk result (λ v. length v.items ≡ count) }
    ensures none { IfOk result (λ v. All (λ o. o ≡ None) v.items) }
{
    let mut places = Vec::with_capacity(alloc, count)?;
    for _ in 0..count {
        places.push_reserved(None);
    }
    Ok(places)
}

/// Reads pieces of a text, as long as there is a turn. None if a piece can't be read; then nobody gets another turn.
fn read_some<S: Semiring, G: Gate>(cut: &Cut<'_>, turns: &Turns<'_, G>) -> Option<Places<S>>
    ensures { IfSome result (λ p. AreInOrder S.arithmetic cut.now.reading cut.now.pieces.items p.items) }
{
    let count = cut.pieces.len();
    let mut places = nothing::<Piece<S>>(cut.reading.alloc, count).ok()?;
    for _ in 0..count {
        let Some(number) = turns.take(count) else {
            break;
        };
        let Some(piece) = cut.read::<S>(number) else {
            turns.stop();
            return None;
        };
        places[number] = Some(piece);
    }
    Some(places)
}

/// Moves what was read of other pieces to the places that have none.
fn fill<S: Semiring>(cut: &Cut<'_>, places: &mut Places<S>, mut others: Places<S>)
    requires order { AreInOrder S.arithmetic cut.now.reading cut.now.pieces.items places.old.items }
    requires others { AreInOrder S.arithmetic cut.now.reading cut.now.pieces.items others.items }
    ensures { AreInOrder S.arithmetic cut.now.reading cut.now.pieces.items places.new.items }
{
    for number in 0..cut.pieces.len() {
        if places[number].is_none() {
            places[number] = others[number].take();
        }
    }
}

/// Reads the pieces of a text by a thread for each of these, while this one waits. Each takes the next piece that nobody has taken.
fn read_each<S: Semiring + Send + Sync, R: Threads + Sync, G: Gate>(
    rt: &R,
    cut: &Cut<'_>,
    turns: &Turns<'_, G>,
    read: &mut [Option<Places<S>>],
)
    ensures { All (λ o. IfSome o (λ p. AreInOrder S.arithmetic cut.now.reading cut.now.pieces.items p.items)) read.new }
{
    each_apart(
        rt,
        &|_, places: &mut Option<Places<S>>| *places = read_some::<S, G>(cut, turns),
        read,
    );
}

/// Reads the pieces of a text by this many threads. None if a piece can't be read.
pub(crate) fn read_all<S: Semiring + Send + Sync, R: Threads + Sync, G: Gate>(
    rt: &R,
    threads: usize,
    cut: &Cut<'_>,
    turns: &Turns<'_, G>,
) -> Option<Places<S>>
    ensures { IfSome result (λ p. AreInOrder S.arithmetic cut.now.reading cut.now.pieces.items p.items) }
{
    let mut read = nothing::<Places<S>>(cut.reading.alloc, threads).ok()?;
    read_each::<S, R, G>(rt, cut, turns, &mut read);
    let mut places = nothing::<Piece<S>>(cut.reading.alloc, cut.pieces.len()).ok()?;
    while let Some(others) = read.pop() {
        fill(cut, &mut places, others?);
    }
    Some(places)
}
