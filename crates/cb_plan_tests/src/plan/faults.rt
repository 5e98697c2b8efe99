//! The first faults of plans.
ghost use Rattle.std.specs.Prelude.{◌≡◌, IfOk};

use crate::plan::{row_at_0, send, shut};
use cb_plan::{Act, CheckedPlan, Op, Plan, PlanFault, PlanFaultKind};
use cb_samples::SampleFault;
use std::alloc::Global;

/// An act of two ranks, or the shutting of all their lanes.
#[derive(Clone, Copy)]
enum Step {
    /// A Move: its ranks and its slots.
    Send(u16, u16, u16, u16),
    Shut(u16, u16),
    /// The product of slot 0 and itself, added to itself.
    Product,
    /// The transpose of slot 0, in slot 1.
    Transpose,
    /// Slot 0, masked by slot 1.
    Mask,
    /// Both lanes are shut, as at the end of a plan.
    ShutAll,
}

/// The act of a step, if it is one act.
fn act_of(step: &Step) -> Option<Act> {
    let op = match step {
        Step::Send(from, to, slot, into) => return Some(send(*from, *to, *slot, *into)),
        Step::Shut(from, to) => return Some(shut(*from, *to)),
        Step::Product => Op::MulAdd { a: 0, b: 0, acc: 0 },
        Step::Transpose => Op::Transpose { a: 0, into: 1 },
        Step::Mask => Op::Mask {
            a: 0,
            m: 1,
            into: 2,
        },
        Step::ShutAll => return None,
    };
    Some(Act::Work { rank: 0, op })
}

/// Appends a step to a plan.
fn append(plan: &mut Plan, step: &Step) -> Result<(), PlanFault>
    ensures { plan.new.ranks ≡ plan.old.ranks }
{
    match act_of(step) {
        Some(act) => plan.push(act),
        None => plan.shut_all(),
    }
}

/// The plan of some steps for two ranks.
fn plan_of(alloc: Global, steps: &[Step]) -> Result<Plan, SampleFault>
    ensures { IfOk result (λ p. p.ranks ≡ 2) }
{
    let mut plan = Plan::new(alloc, 2);
    for step in steps {
        if append(&mut plan, step).is_err() {
            return Err(SampleFault::Shape);
        }
    }
    Ok(plan)
}

/// Steps, and the number of the first act at fault and its fault, if there is one.
type Finding<'a> = (&'a [Step], Option<(u32, PlanFaultKind)>);

/// Whether the check, with a 1 by 2 block in slot 0 of rank 0, finds this. A plan that comes back is as it was.
fn is_found(alloc: Global, finding: &Finding<'_>) -> Result<bool, SampleFault> {
    let start = row_at_0()?;
    let plan = plan_of(alloc, finding.0)?;
    let count = plan.len();
    match CheckedPlan::check(alloc, plan, &[start]) {
        Ok(_) => Ok(finding.1.is_none()),
        Err((same, PlanFault { act, kind })) => {
            Ok(same.len() == count && finding.1 == Some((act, kind)))
        }
    }
}

const FINDINGS: &[Finding<'static>] = &[
    (&[Step::Send(0, 2, 0, 0)], Some((0, PlanFaultKind::NoRank))),
    (
        &[Step::Send(0, 0, 0, 0)],
        Some((0, PlanFaultKind::SelfMove)),
    ),
    (
        &[Step::Send(0, 1, 256, 0)],
        Some((0, PlanFaultKind::NoSlot)),
    ),
    (
        &[Step::Send(0, 1, 1, 0)],
        Some((0, PlanFaultKind::EmptySlot)),
    ),
    (&[Step::Product], Some((0, PlanFaultKind::Shape))),
    (
        &[Step::Transpose, Step::Mask],
        Some((1, PlanFaultKind::Shape)),
    ),
    (
        &[Step::Shut(0, 1), Step::Send(0, 1, 256, 0)],
        Some((1, PlanFaultKind::NoSlot)),
    ),
    (
        &[Step::Shut(0, 1), Step::Send(0, 1, 0, 0)],
        Some((1, PlanFaultKind::AfterShut)),
    ),
    (&[], Some((0, PlanFaultKind::NotShut))),
    (&[Step::Shut(0, 1)], Some((1, PlanFaultKind::NotShut))),
    (&[Step::Shut(1, 0)], Some((1, PlanFaultKind::NotShut))),
    (
        &[Step::Send(0, 1, 0, 3), Step::Shut(0, 1), Step::Shut(1, 0)],
        None,
    ),
];

/// The same for plans that shut all lanes at once, at their end or before it.
const ENDS: &[Finding<'static>] = &[
    (&[Step::Send(0, 1, 0, 3), Step::ShutAll], None),
    (
        &[Step::Shut(0, 1), Step::ShutAll],
        Some((1, PlanFaultKind::AfterShut)),
    ),
    (
        &[Step::Shut(1, 0), Step::ShutAll],
        Some((2, PlanFaultKind::AfterShut)),
    ),
    (
        &[Step::Product, Step::ShutAll],
        Some((0, PlanFaultKind::Shape)),
    ),
    (&[Step::ShutAll, Step::Transpose], None),
    (
        &[Step::ShutAll, Step::Send(0, 1, 0, 3)],
        Some((2, PlanFaultKind::AfterShut)),
    ),
    (
        &[Step::ShutAll, Step::ShutAll],
        Some((2, PlanFaultKind::AfterShut)),
    ),
];

#[test]
fn plan_faults(rt: HostRuntime) {
    for finding in FINDINGS {
        assert!(rt; is_found(rt.alloc(), finding) == Ok(true));
    }
}

#[test]
fn faults_where_all_lanes_are_shut(rt: HostRuntime) {
    for finding in ENDS {
        assert!(rt; is_found(rt.alloc(), finding) == Ok(true));
    }
}
