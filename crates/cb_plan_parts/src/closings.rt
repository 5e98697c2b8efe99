//! Shutting all lanes.
ghost use Rattle.std.specs.Prelude.{◌≡◌, ◌++◌, if◌then◌else◌, is_ok, IfErr, Err};
ghost use Rattle.cb_plan_parts.specs.Appends.{IsTooLong, IsRefusal, too_long};
ghost use Rattle.cb_plan_parts.specs.Collectives.{shut_acts, Means};

use cb_plan::{Plan, PlanFault};

/// Shuts every lane between two ranks of the plan, by sender and then by addressee. The plan stores no act for it, so it
/// costs nothing, and takes memory only for a plan that ends so already.
#[tactic(auto, using(crate::proofs::ShutMeaning::shut_nothing))]
pub fn shut_all(plan: &mut Plan) -> Result<(), PlanFault>
    ensures ranks { plan.new.ranks ≡ plan.old.ranks }
    ensures acts { plan.new.acts ≡ (if is_ok result then plan.old.acts ++ shut_acts plan.old.ranks else plan.old.acts) }
    ensures long { IsTooLong plan.old (shut_acts plan.old.ranks) → result ≡ Err (too_long plan.old) }
    ensures faults { IfErr result (IsRefusal plan.old (shut_acts plan.old.ranks)) }
    ensures means { Means (shut_acts plan.old.ranks) (λ state. state) }
{
    plan.shut_all()
}
