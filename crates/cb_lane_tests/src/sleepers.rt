//! Desks on their own threads that wait long enough to sleep. No contract says that a sleeper wakes up. If one doesn't,
//! its test hangs.
use crate::lanes::{two_desks, waits_to_post, waits_to_take};
use cb_lanes::{Desk, Gone, WaitRefusal, open};
use cb_letters::{Body, Capacity, Tag, Taken};
use std::alloc::Global;
use std::sync::Wait;
use std::sync::atomic::{AtomicU64, Ordering};
use std::thread;
use std::thread::{Threads, join};
use std::time::{Clock, Duration};

/// How long a desk makes the other wait: long enough for it to sleep.
const PAUSE: u64 = 20;

/// Posts a letter late, and later takes two, of which the second can only be posted once the first is taken; then goes.
fn dawdle<R: Wait + Clock>(rt: &R, desk: Desk<u64>) -> bool {
    let mut desk = desk;
    thread::sleep(rt, Duration::from_millis(PAUSE));
    let posted = waits_to_post(rt, &mut desk, 7, &[(0, Ok(0))]);
    thread::sleep(rt, Duration::from_millis(PAUSE));
    let first = matches!(desk.take(rt, 0), Ok(Taken::Letter(_)));
    let second = matches!(desk.take(rt, 0), Ok(Taken::Letter(_)));
    thread::sleep(rt, Duration::from_millis(PAUSE));
    posted && first && second
}

/// What a desk waits for when the other goes.
#[derive(Clone, Copy, Drop)]
enum Last {
    Letter,
    Room,
}

/// Waits for a letter, for room on a lane of one place, and then for a desk that goes.
fn sleep_three_times<R: Wait>(rt: &R, desk: Desk<u64>, last: Last) -> bool {
    let mut desk = desk;
    let letter = matches!(desk.take(rt, 1), Ok(Taken::Letter(_)));
    let room = waits_to_post(rt, &mut desk, 8, &[(1, Ok(0)), (1, Ok(1))]);
    let gone = match last {
        Last::Letter => waits_to_take(rt, &mut desk, 1, &[Err(Gone(1))]),
        Last::Room => {
            let rows = [(1, Ok(2)), (1, Err(WaitRefusal::Gone(1)))];
            waits_to_post(rt, &mut desk, 9, &rows)
        }
    };
    letter && room && gone
}

/// Whether a desk that sleeps three times beside one that dawdles is woken each time.
fn is_woken<R: Threads + Wait + Clock + Sync>(rt: &R, alloc: Global, last: Last) -> Option<bool> {
    let (first, second) = two_desks(alloc, 1)?;
    let (done, waited) = join(
        rt,
        move || dawdle(rt, second),
        move || sleep_three_times(rt, first, last),
    );
    Some(done && waited)
}

#[test]
fn a_sleeper_is_woken_by_a_letter_by_room_and_as_the_other_goes(rt: HostRuntime) {
    assert!(rt; is_woken(&rt, rt.alloc(), Last::Letter) == Some(true));
    assert!(rt; is_woken(&rt, rt.alloc(), Last::Room) == Some(true));
}

/// How many ranks form the ring.
const RANKS: u16 = 36;

/// Which ranks of the ring post before they take.
#[derive(Clone, Copy, PartialEq, Eq, Drop)]
enum First {
    Rank0,
    Each,
}

/// Whether the sheet of this lap is posted to the next rank of the ring.
fn passes_on<R: Wait>(rt: &R, desk: &mut Desk<u64>, lap: u64) -> bool {
    let after = (desk.rank() % RANKS + 1) % RANKS;
    waits_to_post(rt, desk, lap, &[(after, Ok(lap))])
}

/// Whether the sheet of this lap is taken from the rank before.
fn gets<R: Wait>(rt: &R, desk: &mut Desk<u64>, lap: u64) -> bool {
    let before = (desk.rank() % RANKS + RANKS - 1) % RANKS;
    match desk.take(rt, before) {
        Ok(Taken::Letter(letter)) => letter.body == Body::Sheet(lap) && letter.tag == Tag(4),
        _ => false,
    }
}

/// Whether a rank of the ring gets and passes on a letter in each lap.
fn goes_round<R: Wait>(rt: &R, desk: Desk<u64>, laps: u64, first: First) -> bool {
    let mut desk = desk;
    let is_first = first == First::Each || desk.rank() == 0;
    let mut as_expected = true;
    for lap in 0..laps {
        if is_first {
            as_expected &= passes_on(rt, &mut desk, lap);
        }
        as_expected &= gets(rt, &mut desk, lap);
        if !is_first {
            as_expected &= passes_on(rt, &mut desk, lap);
        }
    }
    as_expected
}

/// How many ranks of a new ring did, each on its own thread.
fn go_round<R: Threads + Wait + Sync>(
    rt: &R,
    alloc: Global,
    laps: u64,
    first: First,
) -> Option<u64> {
    let desks = open::<u64>(alloc, RANKS, Capacity::nearest(1)).ok()?;
    let count = AtomicU64::new(0);
    let done = &count;
    thread::scope(thread::scope_env(), rt, |scope| {
        for desk in desks {
            let _ = scope.spawn(move || {
                if goes_round(rt, desk, laps, first) {
                    done.fetch_add(1, Ordering::SeqCst);
                }
            });
        }
    });
    Some(count.load(Ordering::SeqCst))
}

#[test]
fn a_chain_of_sleepers_passes_a_letter_round(rt: HostRuntime) {
    assert!(rt; go_round(&rt, rt.alloc(), 60, First::Rank0) == Some(36));
}

#[test]
fn thousands_of_letters_go_round_at_once(rt: HostRuntime) {
    assert!(rt; go_round(&rt, rt.alloc(), 200, First::Each) == Some(36));
}
