//! The programs of two ranks, and of three that only shut their lanes.
use crate::plan::checked;
use cb_letters::Tag;
use cb_plan::{CheckedPlan, Half, Plan};
use std::alloc::Global;
use std::test::Fail;

/// Whether a program posts slot 0 to rank 1 and then ends both lanes.
fn posts(program: &[Half]) -> bool {
    matches!(
        program,
        [
            Half::Post {
                to: 1,
                tag: Tag(0),
                slot: 0
            },
            Half::Shut { to: 1 },
            Half::End { from: 1 },
        ]
    )
}

/// Whether a program takes a 1 by 2 block from rank 0 into slot 3 and then ends both lanes.
fn takes(program: &[Half]) -> bool {
    match program {
        [
            Half::Take {
                from: 0,
                tag: Tag(0),
                into: 3,
                shape,
            },
            Half::End { from: 0 },
            Half::Shut { to: 0 },
        ] => shape.rows() == 1 && shape.cols() == 2,
        _ => false,
    }
}

#[test]
fn each_rank_has_its_halves(rt: HostRuntime) -> Result<(), Fail> {
    let plan = checked(rt.alloc()).ok_or("no plan")?;
    assert!(rt; posts(&plan.project(rt.alloc(), 0)?));
    assert!(rt; takes(&plan.project(rt.alloc(), 1)?));
    Ok(())
}

/// The halves of a rank of three in a plan that only shuts all lanes. None if memory is refused.
fn shutting(alloc: Global, rank: u16) -> Option<Vec<Half>> {
    let mut plan = Plan::new(alloc, 3);
    plan.shut_all().ok()?;
    let plan = CheckedPlan::check(alloc, plan, &[]).ok()?;
    if rank < plan.ranks() {
        plan.project(alloc, rank).ok()
    } else {
        None
    }
}

/// Whether a program of rank 1 of three ends each lane by sender.
fn ends_by_sender(program: &[Half]) -> bool {
    matches!(
        program,
        [
            Half::End { from: 0 },
            Half::Shut { to: 0 },
            Half::Shut { to: 2 },
            Half::End { from: 2 },
        ]
    )
}

#[test]
fn the_end_of_a_plan_has_its_halves(rt: HostRuntime) {
    let program = shutting(rt.alloc(), 1);
    assert!(rt; matches!(&program, Some(halves) if ends_by_sender(halves)));
}
