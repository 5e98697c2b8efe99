//! The end of a plan: all lanes are shut.
ghost use Rattle.std.specs.Prelude.{◌≡◌, ◌<◌, ◌*◌, ◌++◌, All, AllPairs, IfOk, IfErr};
ghost use Rattle.cb_plan_parts.specs.Collectives.{shut_acts};
ghost use Rattle.cb_plan.specs.Checks.{started, none_shut};
ghost use Rattle.cb_plan.specs.Plans.{IsElsewhere};
ghost use Rattle.cb_plan.specs.Runnable.{IsRunnable};
ghost use Rattle.cb_plan_parts.specs.Flows.{Flows};
ghost use Rattle.cb_plan_parts.specs.Growth.{IsWithinLimit, no_memory};

use crate::shut_all;
use cb_grid::Grid;
use cb_plan::{Plan, PlanFault, Planned, SLOTS, Start};

/// Ends a plan: all lanes are shut after its acts. Before the first act the slots are as the starts say; after the last
/// one each rank has its part of the answer in slot `answer`.
pub fn finish(
    grid: &Grid,
    mut plan: Plan,
    starts: Vec<Start>,
    answer: u16,
) -> Result<Planned, PlanFault>
    requires ranks { plan.ranks ≡ grid.now.side * grid.now.side }
    requires limit { IsWithinLimit plan (shut_acts (grid.now.side * grid.now.side)) }
    requires flows { Flows (grid.now.side * grid.now.side) none_shut (started starts.items) plan.acts }
    requires exist { All (λ s. (s.rank < grid.now.side * grid.now.side) × (s.slot < SLOTS)) starts.items }
    requires once { AllPairs IsElsewhere starts.items }
    requires slot { answer < SLOTS }
    ensures ranks { IfOk result (λ p. p.plan.ranks ≡ grid.now.side * grid.now.side) }
    ensures starts { IfOk result (λ p. p.starts.items ≡ starts.items) }
    ensures acts { IfOk result (λ p. p.plan.acts ≡ plan.acts ++ shut_acts (grid.now.side * grid.now.side)) }
    ensures slot { IfOk result (λ p. p.result ≡ answer) }
    ensures runnable { IfOk result (λ p. IsRunnable p) }
    ensures fault { IfErr result (λ e. e ≡ no_memory) }
{
    shut_all(&mut plan)?;
    Ok(Planned {
        plan,
        starts,
        result: answer,
    })
}
