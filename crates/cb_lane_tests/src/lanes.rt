//! Worked examples of desks, and desks on their own threads.
ghost use Rattle.std.specs.Prelude.{◌≡◌, [], ◌∷◌, IfSome};
ghost use Rattle.cb_lanes.specs.Desks.{identity, AreOfOneOpening};

use cb_lanes::{Desk, Gone, WaitRefusal, open, settle};
use cb_letters::{Body, Capacity, Letter, PostRefusal, Tag, Taken};
use std::alloc::Global;
use std::sync::Wait;
use std::thread::{Threads, join};

/// The first letter on the lane from 0 to 1, without a sheet and with tag 4.
const LOST: Taken<u64> = Taken::Letter(Letter {
    from: 0,
    to: 1,
    number: 0,
    tag: Tag(4),
    body: Body::Lost(0),
});

/// The desks of two ranks, with lanes for this many letters.
pub(crate) fn two_desks(alloc: Global, letters: usize) -> Option<(Desk<u64>, Desk<u64>)>
    ensures { IfSome result (λ desks. AreOfOneOpening (identity desks.0 ∷ identity desks.1 ∷ [])) }
{
    let Ok(desks) = open::<u64>(alloc, 2, Capacity::nearest(letters)) else {
        return None;
    };
    let mut desks = desks;
    let second = desks.pop()?;
    let first = desks.pop()?;
    Some((first, second))
}

/// How many letters were posted and taken from the first of two desks to the second, and in the other direction.
fn settled(alloc: Global, first: Desk<u64>, second: Desk<u64>) -> Option<[(u64, u64); 2]>
    requires { AreOfOneOpening (identity first ∷ identity second ∷ []) }
{
    let desks = vec![in alloc; first, second].ok()?;
    let settled = settle(desks);
    Some([
        (settled.posted(0, 1), settled.taken(0, 1)),
        (settled.posted(1, 0), settled.taken(1, 0)),
    ])
}

/// How many letters a desk posted to a rank, and took from it.
fn counts(desk: &Desk<u64>, rank: u16) -> Option<(u64, u64)> {
    if desk.is_stranger(rank) {
        return None;
    }
    Some((desk.posted(rank), desk.taken(rank)))
}

/// Whether letters without a sheet, posted to these ranks, are answered as expected. Each that is refused comes back.
fn posts(desk: &mut Desk<u64>, rows: &[(u16, Result<u64, PostRefusal>)]) -> bool
    ensures { identity desk.new ≡ identity desk.old }
{
    let mut as_expected = true;
    for (to, answer) in rows {
        as_expected &= match desk.try_post(*to, Tag(4), Body::Lost(0)) {
            Ok(number) => *answer == Ok(number),
            Err((refusal, body)) => *answer == Err(refusal) && body == Body::Lost(0),
        };
    }
    as_expected
}

/// Whether takes from rank 0 are answered as expected.
fn takes(desk: &mut Desk<u64>, rows: &[Taken<u64>]) -> bool
    ensures { identity desk.new ≡ identity desk.old }
{
    let mut as_expected = true;
    for answer in rows {
        as_expected &= desk.try_take(0) == *answer;
    }
    as_expected
}

/// What is refused once the lane is closed, and on no lane.
const REFUSED: &[(u16, Result<u64, PostRefusal>)] = &[
    (1, Err(PostRefusal::Closed)),
    (0, Err(PostRefusal::Stranger)),
];

/// What is taken while the lane holds one letter, and once it is closed.
const ONE_LETTER: &[Taken<u64>] = &[LOST, Taken::Empty];

const ENDED: &[Taken<u64>] = &[Taken::End, Taken::End];

/// Whether the only place of the lane from the first desk to the second is filled, emptied, free again, and filled by the
/// close mark.
fn is_filled_and_closed(first: &mut Desk<u64>, second: &mut Desk<u64>) -> bool
    ensures first { identity first.new ≡ identity first.old }
    ensures second { identity second.new ≡ identity second.old }
{
    let mut as_expected = first.room(1);
    as_expected &= posts(first, &[(1, Ok(0)), (1, Err(PostRefusal::Full))]);
    as_expected &= !first.room(1);
    as_expected &= takes(second, ONE_LETTER);
    as_expected &= first.room(1);
    as_expected &= first.try_close(1) == Ok(1);
    as_expected &= posts(first, REFUSED);
    as_expected & takes(second, ENDED)
}

/// Whether the desks are of ranks 0 and 1, and two letters went from the first to the second.
fn are_counted(first: &Desk<u64>, second: &Desk<u64>) -> bool {
    let mut as_expected = first.rank() == 0 && second.rank() == 1;
    as_expected &= counts(first, 0).is_none() && counts(first, 2).is_none();
    as_expected &= counts(first, 1) == Some((2, 0));
    as_expected & (counts(second, 0) == Some((0, 2)))
}

/// What the lanes of two desks on one thread carried, if all is answered as expected.
fn settled_on_one_thread(alloc: Global) -> Option<[(u64, u64); 2]> {
    let (mut first, mut second) = two_desks(alloc, 1)?;
    let is_closed = is_filled_and_closed(&mut first, &mut second);
    let as_expected = is_closed & are_counted(&first, &second);
    let lanes = settled(alloc, first, second);
    if as_expected { lanes } else { None }
}

#[test]
fn a_pair_of_desks_on_one_thread(rt: HostRuntime) {
    assert!(rt; settled_on_one_thread(rt.alloc()) == Some([(2, 2), (0, 0)]));
}

/// Whether waiting posts of a sheet to these ranks are answered as expected. Each sheet that is refused comes back.
pub(crate) fn waits_to_post<R: Wait>(
    rt: &R,
    desk: &mut Desk<u64>,
    sheet: u64,
    rows: &[(u16, Result<u64, WaitRefusal>)],
) -> bool {
    let mut as_expected = true;
    for (to, answer) in rows {
        as_expected &= match desk.post(rt, *to, Tag(4), Body::Sheet(sheet)) {
            Ok(number) => *answer == Ok(number),
            Err((refusal, body)) => *answer == Err(refusal) && body == Body::Sheet(sheet),
        };
    }
    as_expected
}

/// Whether waiting closes of the lanes to these ranks are answered as expected.
fn waits_to_close<R: Wait>(
    rt: &R,
    desk: &mut Desk<u64>,
    rows: &[(u16, Result<u64, WaitRefusal>)],
) -> bool {
    let mut as_expected = true;
    for (to, answer) in rows {
        as_expected &= desk.close(rt, *to) == *answer;
    }
    as_expected
}

/// Whether waiting takes from a rank are answered as expected.
pub(crate) fn waits_to_take<R: Wait>(
    rt: &R,
    desk: &mut Desk<u64>,
    from: u16,
    rows: &[Result<Taken<u64>, Gone>],
) -> bool {
    let mut as_expected = true;
    for answer in rows {
        as_expected &= desk.take(rt, from) == *answer;
    }
    as_expected
}

/// Closes after one post, and posts after the close, with their answers.
const CLOSES: &[(u16, Result<u64, WaitRefusal>)] = &[
    (1, Ok(1)),
    (1, Err(WaitRefusal::Closed)),
    (2, Err(WaitRefusal::Stranger)),
];

const POSTS: &[(u16, Result<u64, WaitRefusal>)] = &[
    (1, Err(WaitRefusal::Closed)),
    (0, Err(WaitRefusal::Stranger)),
];

/// What is then taken at the other desk, and from no lane.
const TAKES: &[Result<Taken<u64>, Gone>] = &[Ok(LOST), Ok(Taken::End), Ok(Taken::End)];

const NO_LANE: &[Result<Taken<u64>, Gone>] = &[Ok(Taken::Stranger)];

/// Whether waiting calls on two new desks are answered as expected.
fn wait_as_expected<R: Wait>(rt: &R, first: &mut Desk<u64>, second: &mut Desk<u64>) -> bool {
    let mut as_expected = matches!(first.post(rt, 1, Tag(4), Body::Lost(0)), Ok(0));
    as_expected &= waits_to_close(rt, first, CLOSES);
    as_expected &= waits_to_post(rt, first, 7, POSTS);
    as_expected &= waits_to_take(rt, first, 0, NO_LANE);
    as_expected & waits_to_take(rt, second, 0, TAKES)
}

/// The same for desks that it makes.
fn two_wait_as_expected<R: Wait>(rt: &R, alloc: Global) -> Option<bool> {
    let (mut first, mut second) = two_desks(alloc, 2)?;
    Some(wait_as_expected(rt, &mut first, &mut second))
}

#[test]
fn waiting_calls_refuse_as_the_others(rt: HostRuntime) {
    assert!(rt; two_wait_as_expected(&rt, rt.alloc()) == Some(true));
}

/// What is answered to calls that name a rank whose desk is gone, and to a close of another lane.
const GONE_TAKE: &[Result<Taken<u64>, Gone>] = &[Err(Gone(1))];

const GONE_POST: &[(u16, Result<u64, WaitRefusal>)] = &[(1, Err(WaitRefusal::Gone(1)))];

const GONE_CLOSES: &[(u16, Result<u64, WaitRefusal>)] = &[
    (1, Err(WaitRefusal::Gone(1))),
    (2, Ok(0)),
];

/// Whether calls that name rank 1, which left a letter, don't wait for it once its desk is gone.
fn gives_up_rank_1<R: Wait>(rt: &R, first: &mut Desk<u64>, third: &mut Desk<u64>) -> bool {
    let none = waits_to_take(rt, third, 1, GONE_TAKE);
    let letter = matches!(first.take(rt, 1), Ok(Taken::Letter(_)));
    let no_more = waits_to_take(rt, first, 1, GONE_TAKE);
    let _ = first.try_post(1, Tag(4), Body::Sheet(8));
    let full = waits_to_post(rt, first, 9, GONE_POST);
    let closed = waits_to_close(rt, first, GONE_CLOSES);
    none && letter && no_more && full && closed
}

/// Whether calls on two of three desks are answered as expected once the third, of rank 1, has left a letter and is gone.
fn two_give_up_rank_1<R: Wait>(rt: &R, alloc: Global) -> Option<bool> {
    let mut desks = open::<u64>(alloc, 3, Capacity::nearest(1)).ok()?;
    let mut third = desks.pop()?;
    let mut second = desks.pop()?;
    let mut first = desks.pop()?;
    let is_posted = waits_to_post(rt, &mut second, 7, &[(0, Ok(0))]);
    drop(second);
    Some(is_posted & gives_up_rank_1(rt, &mut first, &mut third))
}

#[test]
fn a_desk_that_is_gone_is_not_waited_for(rt: HostRuntime) {
    assert!(rt; two_give_up_rank_1(&rt, rt.alloc()) == Some(true));
}

/// How many sheets are sent from thread to thread.
const SHEETS: u64 = 1000;

/// Posts the sheets 0, 1, 2 and so on, and closes.
fn send<R: Wait>(rt: &R, desk: Desk<u64>) -> Desk<u64>
    ensures { identity result ≡ identity desk }
{
    let mut desk = desk;
    for sheet in 0..SHEETS {
        let _ = desk.post(rt, 1, Tag(3), Body::Sheet(sheet));
    }
    let _ = desk.close(rt, 1);
    desk
}

/// Takes until the lane ends, and counts the sheets that arrive in order.
fn receive<R: Wait>(rt: &R, desk: Desk<u64>) -> (Desk<u64>, u64)
    ensures { identity result.0 ≡ identity desk }
{
    let mut desk = desk;
    let mut in_order = 0;
    for _ in 0..SHEETS {
        match desk.take(rt, 0) {
            Ok(Taken::Letter(letter)) => {
                if letter.body == Body::Sheet(letter.number) {
                    in_order += 1;
                }
            }
            _ => break,
        }
    }
    let _ = desk.take(rt, 0);
    (desk, in_order)
}

/// Sends on one thread and receives on another.
fn send_and_receive<R: Threads + Wait + Sync>(
    rt: &R,
    first: Desk<u64>,
    second: Desk<u64>,
) -> (Desk<u64>, Desk<u64>, u64)
    ensures first { identity result.0 ≡ identity first }
    ensures second { identity result.1 ≡ identity second }
{
    let (first, (second, in_order)) = join(
        rt,
        move || -> Desk<u64>
            ensures { identity result ≡ identity first }
        { send(rt, first) },
        move || -> (Desk<u64>, u64)
            ensures { identity result.0 ≡ identity second }
        { receive(rt, second) },
    );
    (first, second, in_order)
}

/// What the lanes of two desks on two threads carried, if all sheets arrive in order.
fn settled_on_two_threads<R: Threads + Wait + Sync>(
    rt: &R,
    alloc: Global,
) -> Option<[(u64, u64); 2]> {
    let (first, second) = two_desks(alloc, 1)?;
    let (first, second, in_order) = send_and_receive(rt, first, second);
    let lanes = settled(alloc, first, second);
    if in_order == SHEETS { lanes } else { None }
}

#[test]
fn two_desks_on_two_threads(rt: HostRuntime) {
    let wanted = [(SHEETS + 1, SHEETS + 1), (0, 0)];
    assert!(rt; settled_on_two_threads(&rt, rt.alloc()) == Some(wanted));
}

/// How many letters were posted and taken on two lanes of three new desks, if there is memory for them.
fn letters_of_three(alloc: Global) -> Option<(u64, u64)> {
    let desks = open::<u64>(alloc, 3, Capacity::nearest(2)).ok()?;
    let settled = settle(desks);
    Some((settled.posted(0, 2), settled.taken(2, 1)))
}

/// Passes whichever single growth is refused (`rt try --test --fail-alloc N`, for each N in turn): either
/// all desks are made, with every lane, or none is.
#[test]
fn a_refused_opening_is_reported(rt: HostRuntime) {
    assert!(rt; letters_of_three(rt.alloc()).is_none_or(|letters| letters == (0, 0)));
}
