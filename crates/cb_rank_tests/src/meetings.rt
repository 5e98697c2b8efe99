//! The ranks of a product on their own threads, which really run in parallel: some wait for each other.
ghost use Rattle.std.specs.Prelude.{◌≡◌, ◌<◌, length};
ghost use Rattle.cb_plan.specs.Stores.{Fits};
ghost use Rattle.cb_rank_runs.specs.Views.{finished_view};

use crate::examples::{product_blocks, results, two_by_two};
use cb_letters::Capacity;
use cb_plan::{CheckedPlan, Half, RankStore};
use cb_rank::{Rank, Want};
use cb_rank_runs::{Finished, Observer};
use cb_rank_threads::run_threads;
use cb_semirings::{PlusTimes, Semiring};
use std::alloc::Global;
use std::sync::atomic::{AtomicU64, Ordering};
use std::sync::{Mutex, Wait};
use std::thread;
use std::thread::Threads;

/// How often a rank checks for the other one.
const TURNS: u32 = 10_000_000;

/// A meeting of two ranks, which wait for each other.
#[derive(Drop)]
struct Pair {
    came: [AtomicU64; 2],
    met: AtomicU64,
}

impl Pair {
    const fn new() -> Pair {
        Pair {
            came: [AtomicU64::new(0), AtomicU64::new(0)],
            met: AtomicU64::new(0),
        }
    }

    /// Announces one of them, and waits a while for the other.
    fn meet(&self, me: usize)
        requires { me < 2 }
    {
        self.came[me].store(1, Ordering::SeqCst);
        for _ in 0..TURNS {
            if self.came[1 - me].load(Ordering::SeqCst) > 0 {
                self.met.fetch_add(1, Ordering::SeqCst);
                return;
            }
            thread::yield_now();
        }
    }

    /// How many of the two found the other.
    fn met(&self) -> u64 {
        self.met.load(Ordering::SeqCst)
    }
}

/// How far a rank has come when it is observed.
#[derive(Clone, Copy, PartialEq, Drop)]
enum Moment {
    /// It has done nothing.
    Start,
    /// It has just taken its first letter.
    FirstTake,
    /// Anything else.
    Other,
}

/// How far a rank has come that wanted these so far.
fn moment_of(wants: &[Want]) -> Moment {
    let Some(last) = wants.last() else {
        return Moment::Start;
    };
    let takes = wants
        .iter()
        .filter(|want| matches!(want, Want::Take(_)))
        .count();
    if takes == 1 && matches!(last, Want::Take(_)) {
        Moment::FirstTake
    } else {
        Moment::Other
    }
}

/// What each of four ranks wanted whenever it was observed, and two meetings: ranks 0 and 1 meet in their first pass,
/// ranks 1 and 2 in the pass after their first Take.
#[derive(Drop)]
struct Passes {
    wants: [Mutex<Vec<Want>>; 4],
    starts: Pair,
    takes: Pair,
}

impl Passes {
    fn new(alloc: Global) -> Passes {
        let wants = [
            Mutex::new(Vec::new(alloc)),
            Mutex::new(Vec::new(alloc)),
            Mutex::new(Vec::new(alloc)),
            Mutex::new(Vec::new(alloc)),
        ];
        Passes {
            wants,
            starts: Pair::new(),
            takes: Pair::new(),
        }
    }

    /// Records what a rank wants, and returns how far it has come.
    fn keep<R: Wait>(&self, rt: &R, rank: usize, want: Want) -> Moment
        requires { rank < 4 }
    {
        let mut wants = self.wants[rank].lock(rt);
        let moment = moment_of(&wants);
        let _ = wants.push(want);
        moment
    }

    /// Waits for another rank, if this one has a meeting at this moment.
    fn meet(&self, rank: u16, moment: Moment) {
        match (moment, rank) {
            (Moment::Start, 0) => self.starts.meet(0),
            (Moment::Start, 1) => self.starts.meet(1),
            (Moment::FirstTake, 1) => self.takes.meet(0),
            (Moment::FirstTake, 2) => self.takes.meet(1),
            _ => {}
        }
    }

    /// How many passes there were, if each rank wanted the halves of its program in order.
    fn count<R: Wait>(&self, rt: &R, alloc: Global, plan: &CheckedPlan) -> Option<usize>
        requires { plan.now.ranks ≡ 4 }
    {
        let mut passes = 0usize;
        for rank in 0..4 {
            let program = plan.project(alloc, rank).ok()?;
            let wants = self.wants[rank as usize].lock(rt);
            if !are_of(&wants, &program) {
                return None;
            }
            passes = passes.saturating_add(wants.len());
        }
        Some(passes)
    }
}

/// The observer that records the passes.
#[derive(Drop)]
struct Keeper<'a, R: Wait> {
    rt: &'a R,
    passes: Passes,
}

impl<'a, S: Semiring, R: Wait + Sync> Observer<S> for Keeper<'a, R> {
    fn observe(&self, rank: u16, state: &Rank<S>) {
        if rank > 3 {
            return;
        }
        let moment = self.passes.keep(self.rt, rank as usize, state.want());
        self.passes.meet(rank, moment);
    }
}

/// What a rank wants before this half.
fn want_of(half: &Half) -> Want {
    match half {
        Half::Post { to, .. } => Want::Post(*to),
        Half::Take { from, .. } => Want::Take(*from),
        Half::Work(_) => Want::Work,
        Half::Shut { to } => Want::Shut(*to),
        Half::End { from } => Want::End(*from),
    }
}

/// Whether these are the halves of a program.
fn are_of(wants: &[Want], program: &[Half]) -> bool {
    wants.len() == program.len()
        && wants
            .iter()
            .zip(program.iter())
            .all(|(want, half)| *want == want_of(half))
}

/// How many letters, close marks included, were sent, if all that were posted were taken.
fn letters(finished: &Finished<PlusTimes>) -> Option<u64>
    requires { length (finished_view finished.now).stores ≡ 4 }
{
    let mut letters = 0u64;
    for from in 0..4 {
        for to in 0..4 {
            if from != to {
                if finished.posted(from, to) != finished.taken(from, to) {
                    return None;
                }
                letters = letters.saturating_add(finished.posted(from, to));
            }
        }
    }
    Some(letters)
}

/// Whether both meetings took place, and each of four ranks wanted the halves of its program.
fn are_met<R: Wait>(rt: &R, alloc: Global, plan: &CheckedPlan, passes: &Passes) -> bool
    requires { plan.now.ranks ≡ 4 }
{
    let met = (passes.starts.met(), passes.takes.met());
    met == (2, 2) && passes.count(rt, alloc, plan) == Some(60)
}

/// Whether four ranks left the product, and no memory was refused.
fn is_product(finished: Finished<PlusTimes>) -> bool
    requires { length (finished_view finished).stores ≡ 4 }
{
    let are_sent = letters(&finished) == Some(20) && finished.refusals() == 0;
    let (stores, refusals) = finished.into_parts();
    are_sent && refusals.as_slice() == [0; 4].as_slice() && results(&stores) == product_blocks()
}

/// Whether the ranks of a plan leave the product.
fn leave_product<R: Threads + Wait + Sync>(
    rt: &R,
    alloc: Global,
    plan: &CheckedPlan,
    stores: Vec<RankStore<PlusTimes>>,
    observer: &Keeper<'_, R>,
) -> bool
    requires fits { Fits plan.now.ranks plan.now.starts stores.items }
    requires ranks { plan.now.ranks ≡ 4 }
{
    match run_threads(rt, alloc, plan, stores, Capacity::nearest(1), observer) {
        Ok(finished) => is_product(finished),
        Err(_) => false,
    }
}

/// Whether the ranks of the product meet and leave the product.
fn meet_and_leave_product<R: Threads + Wait + Sync>(rt: &R, alloc: Global) -> Option<bool> {
    let (plan, stores) = two_by_two(alloc, 2)?;
    let passes = Passes::new(alloc);
    let observer = Keeper { rt, passes };
    let leave_product = leave_product(rt, alloc, &plan, stores, &observer);
    Some(leave_product & are_met(rt, alloc, &plan, &observer.passes))
}

#[test]
fn ranks_in_threads_meet_and_leave_the_product(rt: HostRuntime) {
    assert!(rt; meet_and_leave_product(&rt, rt.alloc()) == Some(true));
}
