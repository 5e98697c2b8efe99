//! A crew: all ranks of a plan, each with its desk.
ghost use Rattle.std.specs.Prelude.{◌≡◌, ◌≤◌, length, IfOk};
ghost use Rattle.cb_plan.specs.Stores.{Fits};
ghost use Rattle.cb_rank_runs.specs.Crews.{AreNew, AreNewRanks, HaveCapacity, IsCrew, desks_of};

use cb_lanes::{Desk, open};
use cb_letters::Capacity;
use cb_plan::{CheckedPlan, RankStore, SharedBlock};
use cb_rank::Rank;
use cb_semirings::Semiring;
use std::alloc::{AllocError, Global};

/// A rank with its desk.
pub type Member<S> = (Rank<S>, Desk<SharedBlock<S>>);

/// Makes the ranks of a plan in order, each new, with its store and a new desk, over lanes of `capacity` letters. For
/// callers that run each rank by [`run_rank`](crate::run_rank) on a thread of their own.
///
/// The cost is that of projecting the plan to each rank, and room for `capacity` letters on each lane.
pub fn assemble<S: Semiring>(
    alloc: Global,
    plan: &CheckedPlan,
    stores: Vec<RankStore<S>>,
    capacity: Capacity,
) -> Result<Vec<Member<S>>, AllocError>
    requires { Fits plan.now.ranks plan.now.starts stores.items }
    ensures crew { IfOk result (λ crew. IsCrew plan.now stores.items crew.items) }
    ensures new { IfOk result (λ crew. AreNew crew.items) }
    ensures lanes { IfOk result (λ crew. HaveCapacity capacity crew.items) }
{
    let desks = open(alloc, plan.ranks(), capacity)?;
    pair_up(alloc, plan, stores, desks)
}

/// Makes each rank of a plan, with its store and its desk.
fn pair_up<S: Semiring>(
    alloc: Global,
    plan: &CheckedPlan,
    stores: Vec<RankStore<S>>,
    desks: Vec<Desk<SharedBlock<S>>>,
) -> Result<Vec<Member<S>>, AllocError>
    requires fits { Fits plan.now.ranks plan.now.starts stores.items }
    requires desks { (length desks.items ≡ plan.now.ranks) × (length desks.items ≤ 65535) }
    ensures desks { IfOk result (λ crew. desks_of crew.items ≡ desks.items) }
    ensures ranks { IfOk result (λ crew. AreNewRanks plan.now stores.items crew.items) }
{
    let mut crew = Vec::with_capacity(alloc, desks.len())?;
    for (store, desk) in stores.into_iter().zip(desks) {
        let number = crew.len() as u16;
        match Rank::start(alloc, plan, number, store) {
            Ok(rank) => crew.push_reserved((rank, desk)),
            Err((_store, refused)) => return Err(refused),
        }
    }
    Ok(crew)
}
