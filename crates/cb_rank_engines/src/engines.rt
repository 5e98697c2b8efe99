//! Runs of plans by their ranks. Only [`Engine::run`] distinguishes engines.
ghost use Rattle.std.specs.Prelude.{◌≡◌, ◌⊎◌, ◌<◌, ◌*◌, All, IfOk, IfErr, OnOk, OnErr};
ghost use Rattle.cb_matrix.specs.Sparse.{Sparse};
ghost use Rattle.cb_plan.specs.Meaning.{State};
ghost use Rattle.cb_plan.specs.Stores.{state_of, Fits};
ghost use Rattle.cb_plan.specs.PlanTables.{IsTable};
ghost use Rattle.cb_rank.specs.Leavings.{HoldsMeaning};
ghost use Rattle.cb_plan_slots.specs.Answers.{HasShapes, IsGathered, IsGatheredOf, Makes};
ghost use Rattle.cb_plan_slots.specs.Losses.{LostOrMeans};
ghost use Rattle.cb_plan_slots.specs.Slots.{whole_operands};
ghost use Rattle.cb_rank_crews.specs.Crews.{workers_of};
ghost use Rattle.cb_rank_faults.specs.declared.RanksFault.TheVariants.{Memory};
ghost use Rattle.cb_rank_engines.specs.Orders.{IsLeftInOrder, IsOrdered, IsOrderedLoss, IsOrderedOutcome};
ghost use Rattle.cb_rank_engines.specs.EngineRuns.{IsEngineFault, IsLossFault, IsMade, IsNoLoss, IsTraceOf, LostWhereRefused, checked_of};

use cb_layout::{DistributedMatrix, Grid};
use cb_letters::Capacity;
use cb_matrix::Shape;
use cb_plan::{CheckedPlan, Planned, RankStore, SLOTS};
use cb_plan_slots::{DrainFault, gather_slot, laid_out};
use cb_rank_crews::{Crew, Naming};
use cb_rank_faults::RanksFault;
use cb_rank_runs::NoObserver;
use cb_rank_threads::{run_threads, run_traced};
use cb_rank_world::{Event, World};
use cb_semirings::Semiring;
use cb_trace::Trace;
use std::alloc::{AllocError, Global};
use std::sync::Wait;
use std::thread::Threads;

/// How the ranks of a plan are run.
///
/// The number is the capacity of the lanes from each rank to each other: 1 to 64 letters, or the nearest of these for any
/// other number.
#[derive(Clone, Copy)]
pub enum Engine<'o> {
    /// Each rank in a thread of its own.
    Threads(usize),
    /// The same, with a trace of what the ranks post and take.
    Traced(usize),
    /// The ranks stepped on the caller's thread: by these events, and then until all are done.
    InOrder(usize, &'o [Event]),
}

/// What [`compute`] returns.
#[derive(Drop)]
pub struct Outcome<S: Semiring> {
    /// The answer, over the grid.
    pub answer: DistributedMatrix<S>,
    /// How often memory was refused to each rank. Empty if no ranks ran.
    pub refusals: Vec<u64>,
    /// The trace, where the engine keeps one.
    pub trace: Option<Trace>,
}

/// What the ranks of a plan leave, as [`Engine::run`] returns it.
#[derive(Drop)]
pub struct Left<S: Semiring> {
    /// The store of each rank.
    pub stores: Vec<RankStore<S>>,
    /// How often memory was refused to each rank.
    pub refusals: Vec<u64>,
    /// The trace, where the engine keeps one.
    pub trace: Option<Trace>,
}

impl<'o> Engine<'o> {
    /// Runs a checked plan on stores that fit it.
    ///
    /// `InOrder` steps the ranks by exactly these events, and then until all are done. Ranks in threads leave what ranks
    /// leave that are stepped in some order. If memory is refused to a rank, a slot may be left lost: it names that rank,
    /// whose count of refusals is then above 0. On a fault the stores are dropped.
    pub fn run<S: Semiring + Send + Sync, R: Threads + Wait + Sync>(
        self,
        rt: &R,
        alloc: Global,
        plan: &CheckedPlan,
        stores: Vec<RankStore<S>>,
    ) -> Result<Left<S>, RanksFault>
        requires fits { Fits plan.now.ranks plan.now.starts stores.items }
        ensures left { IfOk result (λ left. HoldsMeaning S.arithmetic plan.now stores.items left.stores.items left.refusals.items) }
        ensures order { IfOk result (λ left. IsOrdered S.arithmetic self.entry plan.now stores.items left.stores.items left.refusals.items) }
        ensures trace { IfOk result (λ left. IsTraceOf self.entry plan.now left.trace) }
        ensures fault { IfErr result (IsEngineFault self.entry plan.now.ranks) }
        ensures whole { IfErr result IsNoLoss }
    {
        match self {
            Engine::Threads(letters) => {
                let capacity = Capacity::nearest(letters);
                let finished = run_threads(rt, alloc, plan, stores, capacity, &NoObserver)?;
                let (stores, refusals) = finished.into_parts();
                Ok(Left {
                    stores,
                    refusals,
                    trace: None,
                })
            }
            Engine::Traced(letters) => {
                let capacity = Capacity::nearest(letters);
                let (finished, trace) = run_traced(rt, alloc, plan, stores, capacity, &NoObserver)?;
                prove_eq!(trace.len(), trace.events().len());
                let (stores, refusals) = finished.into_parts();
                Ok(Left {
                    stores,
                    refusals,
                    trace: Some(trace),
                })
            }
            Engine::InOrder(letters, order) => {
                let (stores, refusals) = stepped(alloc, letters, plan, stores, order)?;
                Ok(Left {
                    stores,
                    refusals,
                    trace: None,
                })
            }
        }
    }

    /// Does the same, by a crew if there is one with a worker for each rank and the engine is one of threads without a
    /// trace: no thread is started then. If memory is refused, the crew is as it was; after any other fault it is so too, or
    /// it has no workers any more.
    pub fn run_by<S: Semiring + Send + Sync, J: Naming, R: Threads + Wait + Sync>(
        self,
        rt: &R,
        alloc: Global,
        crew: &mut Option<Crew<S, J>>,
        plan: &CheckedPlan,
        stores: Vec<RankStore<S>>,
    ) -> Result<Left<S>, RanksFault>
        requires fits { Fits plan.now.ranks plan.now.starts stores.items }
        ensures left { IfOk result (λ left. HoldsMeaning S.arithmetic plan.now stores.items left.stores.items left.refusals.items) }
        ensures order { IfOk result (λ left. IsOrdered S.arithmetic self.entry plan.now stores.items left.stores.items left.refusals.items) }
        ensures trace { IfOk result (λ left. IsTraceOf self.entry plan.now left.trace) }
        ensures fault { IfErr result (IsEngineFault self.entry plan.now.ranks) }
        ensures whole { IfErr result IsNoLoss }
        ensures workers { OnOk result (workers_of crew.new ≡ workers_of crew.old) }
        ensures untouched { IfErr result (λ fault. fault ≡ Memory → crew.new ≡ crew.old) }
        ensures spent { OnErr result ((crew.new ≡ crew.old) ⊎ (workers_of crew.new ≡ 0)) }
    {
        let Engine::Threads(letters) = self else {
            return self.run(rt, alloc, plan, stores);
        };
        let Some(crew) = crew else {
            return self.run(rt, alloc, plan, stores);
        };
        if crew.workers() != plan.ranks() as usize {
            return self.run(rt, alloc, plan, stores);
        }
        let capacity = Capacity::nearest(letters);
        let finished = crew.run_plan(rt, alloc, plan, stores, capacity)?;
        let (stores, refusals) = finished.into_parts();
        Ok(Left {
            stores,
            refusals,
            trace: None,
        })
    }
}

/// Steps the ranks of a plan by these events, and then until all are done. Returns their stores, and how often memory
/// was refused to each.
fn stepped<S: Semiring>(
    alloc: Global,
    letters: usize,
    plan: &CheckedPlan,
    stores: Vec<RankStore<S>>,
    order: &[Event],
) -> Result<(Vec<RankStore<S>>, Vec<u64>), AllocError>
    requires fits { Fits plan.now.ranks plan.now.starts stores.items }
    ensures left { IfOk result (λ left. HoldsMeaning S.arithmetic plan.now stores.items left.0.items left.1.items) }
    ensures order { IfOk result (λ left. IsLeftInOrder S.arithmetic plan.now stores.items left.0.items left.1.items letters order.now) }
{
    let capacity = Capacity::nearest(letters);
    let mut world = match World::start(alloc, plan, stores, capacity) {
        Ok(world) => world,
        Err((_stores, refused)) => return Err(refused),
    };
    world.run(order);
    world.finish();
    Ok(world.into_parts())
}

/// Runs a plan on operands over a grid, and returns the matrix of this shape that the plan makes of them.
///
/// Each operand comes with its slot. Its blocks are moved into this slot of the ranks, and the blocks of the answer are
/// moved out of the plan's result slot; none is copied. The cost is that of the plan's acts.
pub fn compute<S: Semiring + Send + Sync, R: Threads + Wait + Sync>(
    rt: &R,
    alloc: Global,
    engine: Engine,
    grid: &Grid,
    planned: Planned,
    operands: Vec<(u16, DistributedMatrix<S>)>,
    shape: Shape,
) -> Result<Outcome<S>, RanksFault>
    requires sides { All (λ o. o.1.side ≡ grid.now.side) operands.items }
    requires makes { (answer : Sparse) × Makes S.arithmetic grid.now.side (whole_operands operands.items) planned shape answer }
    ensures ok { IfOk result (λ done. IsMade S.arithmetic grid.now.side (whole_operands operands.items) planned shape done.answer) }
    ensures order { IfOk result (IsOrderedOutcome S.arithmetic engine.entry grid.now.side planned (whole_operands operands.items) shape) }
    ensures trace { IfOk result (λ done. IsTraceOf engine.entry (checked_of planned) done.trace) }
    ensures fault { IfErr result (IsEngineFault engine.entry (grid.now.side * grid.now.side)) }
    ensures lost { IfErr result (IsOrderedLoss S.arithmetic engine.entry grid.now.side planned (whole_operands operands.items)) }
{
    let stores = laid_out(alloc, grid, operands)?;
    let (plan, slot) = planned.into_checked();
    let left = engine.run(rt, alloc, &plan, stores)?;
    let outcome = outcome_of(alloc, grid, left, slot, shape)?;
    Ok(outcome)
}

/// Takes the answer, of this shape, out of a slot of the ranks.
fn outcome_of<S: Semiring>(
    alloc: Global,
    grid: &Grid,
    left: Left<S>,
    slot: u16,
    shape: Shape,
) -> Result<Outcome<S>, RanksFault>
    requires slot { slot < SLOTS }
    requires table { IsTable (grid.now.side * grid.now.side) SLOTS left.stores.items }
    requires lost { LostWhereRefused left.stores.items left.refusals.items }
    requires meant { (meant : State Sparse) × LostOrMeans meant left.stores.items × HasShapes grid.now.side shape slot meant }
    ensures ok { IfOk result (λ done. IsGatheredOf S.arithmetic grid.now.side shape slot left.stores.items done.answer) }
    ensures held { IfOk result (λ done. IsGathered S.arithmetic grid.now.side shape slot (state_of left.stores.items) done.answer) }
    ensures rest { IfOk result (λ done. (done.refusals.items ≡ left.refusals.items) × (done.trace ≡ left.trace)) }
    ensures fault { IfErr result (IsLossFault slot left.stores.items left.refusals.items) }
{
    let Left {
        stores,
        refusals,
        trace,
    } = left;
    match gather_slot(alloc, grid, stores, slot, shape) {
        Ok(answer) => Ok(Outcome {
            answer,
            refusals,
            trace,
        }),
        Err(DrainFault::Memory) => Err(RanksFault::Memory),
        Err(DrainFault::Lost(rank)) => Err(RanksFault::lost(rank, &refusals)),
    }
}
