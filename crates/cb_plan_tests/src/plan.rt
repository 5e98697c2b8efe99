//! Plans of two ranks, with ample memory and with each allocation refused in turn.
ghost use Rattle.std.specs.Prelude.{◌≡◌, IfOk, IfSome, length};

use cb_letters::Tag;
use cb_plan::{Act, CheckedPlan, Plan, PlanFault, RankStore, Start};
use cb_samples::{SampleFault, block, entry, shape};
use cb_semirings::PlusTimes;
use std::alloc::Global;

mod faults;
mod memory;
mod operations;
mod programs;
mod stores;

/// A Move between two ranks.
const fn send(from: u16, to: u16, slot: u16, into: u16) -> Act {
    Act::Move {
        from,
        to,
        tag: Tag(0),
        slot,
        into,
    }
}

/// A Shut of the lane from one rank to another.
const fn shut(from: u16, to: u16) -> Act {
    Act::Shut { from, to }
}

/// A start: a 1 by 2 block in slot 0 of rank 0.
fn row_at_0() -> Result<Start, SampleFault>
    ensures { IfOk result (λ s. s ≡ record { rank = 0; slot = 0; shape = record { rows = 1; cols = 2 } }) }
{
    Ok(Start {
        rank: 0,
        slot: 0,
        shape: shape(1, 2)?,
    })
}

/// The plan of these acts for two ranks, or the fault of the first that can't be appended.
fn plan_of(alloc: Global, acts: &[Act]) -> Result<Plan, PlanFault>
    ensures { IfOk result (λ p. p.ranks ≡ 2) }
{
    let mut plan = Plan::new(alloc, 2);
    for act in acts {
        plan.push(*act)?;
    }
    Ok(plan)
}

/// The plan of these acts for two ranks, all of which can be appended.
fn grown(alloc: Global, acts: &[Act]) -> Result<Plan, SampleFault>
    ensures { IfOk result (λ p. p.ranks ≡ 2) }
{
    match plan_of(alloc, acts) {
        Ok(plan) => Ok(plan),
        Err(_) => Err(SampleFault::Shape),
    }
}

/// The small plan: a block goes from rank 0 to rank 1, and both lanes are shut.
fn small() -> [Act; 3] {
    [send(0, 1, 0, 3), shut(0, 1), shut(1, 0)]
}

/// The small plan, checked with a 1 by 2 block in slot 0 of rank 0. None if memory is refused.
fn checked(alloc: Global) -> Option<CheckedPlan>
    ensures { IfSome result (λ p. p.ranks ≡ 2) }
{
    let plan = plan_of(alloc, &small()).ok()?;
    CheckedPlan::check(alloc, plan, &[row_at_0().ok()?]).ok()
}

/// Two stores with a 1 by 2 block in slot 0 of rank 0. None if memory is refused.
fn two_stores(alloc: Global) -> Option<Vec<RankStore<PlusTimes>>>
    ensures { IfSome result (λ v. length v.items ≡ 2) }
{
    let mut first = RankStore::new(alloc).ok()?;
    first.put(0, block(alloc, 1, 2, &[entry(0, 1, 6)]).ok()?);
    let second = RankStore::new(alloc).ok()?;
    vec![in alloc; first, second].ok()
}
