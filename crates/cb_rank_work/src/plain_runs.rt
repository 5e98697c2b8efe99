//! A checked plan, run act by act on one thread.
ghost use Rattle.std.specs.Prelude.{◌≡◌, length, IfOk, OnOk};
ghost use Rattle.cb_plan.specs.Meaning.{act, meaning};
ghost use Rattle.cb_plan.specs.Algebras.{matrices};
ghost use Rattle.cb_plan.specs.Checks.{Lanes, IsSound};
ghost use Rattle.cb_plan.specs.Stores.{state_of, shapes_of, NoneLost, Fits};
ghost use Rattle.cb_plan.specs.PlanTables.{IsTable};

use crate::kernels::work;
use cb_plan::{Act, CheckedPlan, RankStore, SLOTS};
use cb_semirings::Semiring;
use std::alloc::{AllocError, Global};

/// Does the acts of a plan one after the other, on stores that fit it. If memory is refused, the stores are dropped.
///
/// Costs what the operations cost, and a copy of each block that is moved. Shutting all lanes at the end costs nothing.
pub fn run_plain<S: Semiring>(
    alloc: Global,
    plan: &CheckedPlan,
    stores: Vec<RankStore<S>>,
) -> Result<Vec<RankStore<S>>, AllocError>
    requires { Fits plan.now.ranks plan.now.starts stores.items }
    ensures meaning { IfOk result (λ after. state_of after.items ≡ meaning (matrices S.arithmetic) plan.now.acts (state_of stores.items)) }
    ensures none_lost { IfOk result (λ after. NoneLost after.items) }
    ensures table { IfOk result (λ after. IsTable plan.now.ranks SLOTS after.items) }
{
    let mut stores = stores;
    let (acts, _) = plan.stored();
    for act in acts {
        run_act(alloc, &mut stores, act)?;
    }
    Ok(stores)
}

/// Does one act on the slots of all ranks.
fn run_act<S: Semiring>(
    alloc: Global,
    stores: &mut Vec<RankStore<S>>,
    next: &Act,
) -> Result<(), AllocError>
    requires table { IsTable (length stores.old.items) SLOTS stores.old.items }
    requires none_lost { NoneLost stores.old.items }
    requires sound { (shut : Lanes) × IsSound (length stores.old.items) (shapes_of stores.old.items) shut next.now }
    ensures table { OnOk result (IsTable (length stores.old.items) SLOTS stores.new.items) }
    ensures none_lost { OnOk result (NoneLost stores.new.items) }
    ensures act { OnOk result (state_of stores.new.items ≡ act (matrices S.arithmetic) next.now (state_of stores.old.items)) }
{
    match next {
        Act::Move {
            from,
            to,
            slot,
            into,
            ..
        } => {
            let block = stores[*from as usize].try_copy(*slot)?;
            stores[*to as usize].set(*into, block);
        }
        Act::Work { rank, op } => {
            work(alloc, &mut stores[*rank as usize], op)?;
        }
        Act::Shut { .. } => {}
    }
    Ok(())
}
