//! Whether stores fit the starts of a plan.
ghost use Rattle.std.specs.Prelude.{◌≡◌, IfSome, length};

use crate::plan::checked;
use cb_plan::{CheckedPlan, RankStore};
use cb_samples::block;
use cb_semirings::PlusTimes;
use std::alloc::Global;
use std::test::Fail;

/// Two stores, the first with an empty block of this many rows and columns in slot 0.
fn two_with(alloc: Global, rows: u32, cols: u32) -> Option<Vec<RankStore<PlusTimes>>>
    ensures { IfSome result (λ v. length v.items ≡ 2) }
{
    let mut first = RankStore::new(alloc).ok()?;
    first.put(0, block(alloc, rows, cols, &[]).ok()?);
    let second = RankStore::new(alloc).ok()?;
    vec![in alloc; first, second].ok()
}

/// Whether stores with a 1 by 2 block fit the plan, and don't if one is missing or has a lost slot.
fn fit_as_started(alloc: Global, plan: &CheckedPlan) -> Option<bool> {
    let mut stores = two_with(alloc, 1, 2)?;
    let fits = plan.fits(&stores) && !plan.fits(&stores[..1]);
    stores[1].put_lost(3, 0);
    Some(fits && !plan.fits(&stores))
}

/// Whether neither stores without a block nor stores with another block fit it.
fn do_not_fit(alloc: Global, plan: &CheckedPlan) -> Option<bool> {
    let first = RankStore::<PlusTimes>::new(alloc).ok()?;
    let second = RankStore::new(alloc).ok()?;
    let empty = vec![in alloc; first, second].ok()?;
    let turned = two_with(alloc, 2, 1)?;
    Some(!plan.fits(&empty) && !plan.fits(&turned))
}

/// Another block, no block, a lost slot, or too few stores: none fits the starts.
#[test]
fn stores_that_do_not_fit(rt: HostRuntime) -> Result<(), Fail> {
    let plan = checked(rt.alloc()).ok_or("no plan")?;
    assert!(rt; fit_as_started(rt.alloc(), &plan) == Some(true));
    assert!(rt; do_not_fit(rt.alloc(), &plan) == Some(true));
    Ok(())
}
