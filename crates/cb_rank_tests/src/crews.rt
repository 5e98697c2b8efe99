//! A crew of two workers that runs one plan after the other, also after one for which memory was refused.
ghost use Rattle.std.specs.Prelude.{ℕ, ◌≡◌, slice_get, IfErr, IfOk};
ghost use Rattle.cb_semirings.specs.Tables.{plus_times};
ghost use Rattle.cb_rank_faults.specs.declared.RanksFault.TheVariants.{Memory};
ghost use Rattle.cb_plan.specs.Stores.{Fits};
ghost use Rattle.cb_rank_runs.specs.Finished.{LanesHold};
ghost use Rattle.cb_rank_runs.specs.NamedRanks.{NamesLeast};
ghost use Rattle.cb_rank_runs.specs.Views.{finished_view};
ghost use Rattle.cb_rank_crews.specs.Crews.{size};

use crate::plans::{Held, doubling};
use crate::ranks::left_at_0;
use cb_letters::Capacity;
use cb_plan::{CheckedPlan, RankStore};
use cb_rank_crews::{Crew, Naming, Rings, hire};
use cb_rank_faults::RanksFault;
use cb_rank_runs::{Finished, NoObserver};
use cb_semirings::PlusTimes;
use std::alloc::Global;
use std::marker::Brand;
use std::sync::Wait;
use std::thread;
use std::thread::Threads;

/// Runs a plan by a crew, with what is promised of the lanes, of a fault, and of the crew after it.
fn run_plan<J: Naming, R: Wait>(
    rt: &R,
    alloc: Global,
    crew: &mut Crew<PlusTimes, J>,
    plan: &CheckedPlan,
    stores: Vec<RankStore<PlusTimes>>,
    capacity: Capacity,
) -> Result<Finished<PlusTimes>, RanksFault>
    requires fits { Fits plan.now.ranks plan.now.starts stores.items }
    requires workers { size crew.old ≡ plan.now.ranks }
    ensures lanes { IfOk result (λ finished. LanesHold plan.now.ranks capacity (finished_view finished)) }
    ensures untouched { IfErr result (λ fault. fault ≡ Memory → crew.new ≡ crew.old) }
    ensures least { IfErr result (NamesLeast plus_times plan.now stores.items) }
{
    crew.run_plan(rt, alloc, plan, stores, capacity)
}

/// How a run ended.
#[derive(Clone, Copy, Debug, PartialEq, Eq, Drop)]
enum Outcome {
    /// The double is there.
    Whole,
    /// It is lost, by one refusal.
    Lost,
    /// Memory was refused before any rank ran.
    Refused,
    Wrong,
}

/// What is left of the doubling of 3.
fn outcome_of(finished: Finished<PlusTimes>) -> Outcome {
    match left_at_0(finished) {
        Some((Held::Number(6), (0, 0))) => Outcome::Whole,
        Some((Held::LostAt(0), (1, 0))) => Outcome::Lost,
        Some((Held::LostAt(1), (0, 1))) => Outcome::Lost,
        _ => Outcome::Wrong,
    }
}

/// How the doubling of 3 ends by a crew of two.
fn doubled<J: Naming, R: Wait>(rt: &R, alloc: Global, crew: &mut Crew<PlusTimes, J>) -> Outcome {
    let Some((plan, stores)) = doubling(alloc, 3) else {
        return Outcome::Refused;
    };
    if crew.workers() != plan.ranks() as usize {
        return Outcome::Wrong;
    }
    match run_plan(rt, alloc, crew, &plan, stores, Capacity::nearest(1)) {
        Ok(finished) => outcome_of(finished),
        Err(RanksFault::Memory) => Outcome::Refused,
        Err(_) => Outcome::Wrong,
    }
}

/// The same twice by a new crew over these rings, if its threads can be started.
fn hired_runs_twice<J: Naming + Send + Sync, R: Threads + Wait + Sync>(
    rt: &R,
    alloc: Global,
    rings: Rings<PlusTimes>,
) -> Option<[Outcome; 2]>
    requires { (k : ℕ) → J.ring k ≡ slice_get rings k }
{
    thread::scope(
        thread::scope_env(),
        rt,
        move |scope| -> Option<[Outcome; 2]>
            requires { (k : ℕ) → J.ring k ≡ slice_get rings k }
        {
            let hired = hire::<_, PlusTimes, J, R, NoObserver>(
                scope,
                rt,
                alloc,
                rings,
                &NoObserver,
            );
            let mut crew = hired.ok()?;
            let first = doubled(rt, alloc, &mut crew);
            Some([first, doubled(rt, alloc, &mut crew)])
        },
    )
}

/// The same for a crew of two.
fn crew_runs_twice<R: Threads + Wait + Sync>(rt: &R, alloc: Global) -> Option<[Outcome; 2]> {
    let rings = Rings::open(alloc, 2).ok()?;
    hired_runs_twice::<Brand, R>(rt, alloc, rings)
}

#[test]
fn a_crew_runs_one_plan_after_the_other(rt: HostRuntime) {
    assert!(rt; crew_runs_twice(&rt, rt.alloc()) == Some([Outcome::Whole; 2]));
}

/// Passes whichever allocation is refused: it concerns one of the two runs alone.
#[test]
fn a_crew_that_is_refused_memory_runs_the_next_plan(rt: HostRuntime) {
    if let Some(outcomes) = crew_runs_twice(&rt, rt.alloc()) {
        assert!(rt; outcomes.contains(&Outcome::Whole));
        assert!(rt; !outcomes.contains(&Outcome::Wrong));
    }
}
