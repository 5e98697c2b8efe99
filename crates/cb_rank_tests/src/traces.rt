//! Traces of the ranks of a product on threads.
use crate::examples::two_by_two;
use cb_letters::Capacity;
use cb_rank::{Rank, Want};
use cb_rank_runs::Observer;
use cb_rank_threads::run_traced;
use cb_semirings::Semiring;
use cb_trace::Trace;
use std::alloc::Global;
use std::sync::{Mutex, Wait};
use std::thread::Threads;

/// What one rank wanted and recorded in a traced run.
#[derive(Drop)]
struct Story {
    /// The places in the trace at which it recorded its events.
    places: Vec<usize>,
    /// How many halves other than Work it wanted.
    halves: usize,
    /// Whether it had recorded as many events at each of its passes.
    agrees: bool,
}

impl Story {
    fn new(alloc: Global) -> Story {
        Story {
            places: Vec::new(alloc),
            halves: 0,
            agrees: true,
        }
    }

    fn pass(&mut self, want: Want) {
        self.agrees &= self.places.len() == self.halves;
        if want != Want::Work {
            self.halves = self.halves.saturating_add(1);
        }
    }

    fn record(&mut self, place: usize) {
        self.agrees &= self.places.push(place).is_ok();
    }

    /// Whether it agrees to the end and the trace has an event of this rank at each of the places.
    fn is_of(&self, rank: usize, trace: &Trace) -> bool {
        self.agrees
            && self.places.len() == self.halves
            && self.places.iter().all(|place| *place < trace.len()
                && usize::from(trace.event_at(*place).rank()) == rank)
    }
}

/// An observer that records the story of each rank.
#[derive(Drop)]
struct Scribe<'a, R: Wait> {
    rt: &'a R,
    stories: Vec<Mutex<Story>>,
}

impl<'a, S: Semiring, R: Wait + Sync> Observer<S> for Scribe<'a, R> {
    fn observe(&self, rank: u16, state: &Rank<S>) {
        if let Some(story) = self.stories.get(usize::from(rank)) {
            story.lock(self.rt).pass(state.want());
        }
    }

    fn recorded(&self, rank: u16, place: usize) {
        if let Some(story) = self.stories.get(usize::from(rank)) {
            story.lock(self.rt).record(place);
        }
    }
}

/// Empty stories for this many ranks.
fn stories(alloc: Global, ranks: u16) -> Option<Vec<Mutex<Story>>> {
    let mut stories = Vec::new(alloc);
    for _ in 0..ranks {
        stories.push(Mutex::new(Story::new(alloc))).ok()?;
    }
    Some(stories)
}

/// Whether each story agrees with its rank's events, and together they have each place of the trace once.
fn are_of(alloc: Global, stories: Vec<Mutex<Story>>, trace: &Trace) -> Option<bool> {
    let mut places = Vec::new(alloc);
    let mut agree = true;
    for (rank, story) in stories.into_iter().enumerate() {
        let story = story.into_inner();
        agree &= story.is_of(rank, trace);
        places.extend_from_slice(&story.places).ok()?;
    }
    let len = trace.len();
    Some(agree && places.len() == len && (0..len).all(|place| places.contains(&place)))
}

/// Whether four ranks record each of forty events once, over lanes for this many letters.
fn record_all<R: Threads + Wait + Sync>(rt: &R, alloc: Global, letters: usize) -> Option<bool> {
    let (plan, stores) = two_by_two(alloc, 2)?;
    let stories = stories(alloc, 4)?;
    let scribe = Scribe { rt, stories };
    let capacity = Capacity::nearest(letters);
    let (_finished, trace) = run_traced(rt, alloc, &plan, stores, capacity, &scribe).ok()?;
    let Scribe { stories, .. } = scribe;
    let are_recorded = are_of(alloc, stories, &trace)?;
    Some(are_recorded && trace.len() == 40)
}

#[test]
fn each_of_four_ranks_records_its_halves_as_it_does_them(rt: HostRuntime) {
    assert!(rt; record_all(&rt, rt.alloc(), 1) == Some(true));
    assert!(rt; record_all(&rt, rt.alloc(), 64) == Some(true));
}
