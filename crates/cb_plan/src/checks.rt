//! The check of a plan: what its acts mean, on shapes alone.
ghost use Rattle.std.specs.Prelude.{◌≡◌, ◌<◌, ◌≤◌, ◌⊎◌, ℕ, [], ◌++◌, length, All, AllPairs, IfOk, IfErr, Option, Some, None};
ghost use Rattle.cb_plan.specs.Checks.{plan_fault};
ghost use Rattle.cb_plan.specs.Closings.{closings};
ghost use Rattle.cb_plan.specs.Plans.{CheckedView, IsChecked, IsElsewhere};
ghost use Rattle.cb_plan.specs.declared.plans.PlanFaultKind.TheVariants.{Memory};

use crate::acts::{Act, Op, Start};
use crate::check_states::CheckState;
use crate::plans::{MOST_ACTS, Plan, PlanFault, PlanFaultKind, Planned};
use crate::stores::SLOTS;
use std::alloc::{AllocError, Global};
use std::marker::Model;

/// A plan without faults, with the slots that are filled before its first act.
#[derive(Drop)]
pub struct CheckedPlan {
    plan: Plan,
    starts: Vec<Start>,
}

impl Model for CheckedPlan {
    ghost Value = { CheckedView };

    ghost view = { λ p. record { ranks = p.plan.ranks; starts = p.starts.items; acts = p.plan.acts } };

    ghost invariant = { λ p. IsChecked (record { ranks = p.plan.ranks; starts = p.starts.items; acts = p.plan.acts }) };
}

impl CheckedPlan {
    /// Checks a plan. The fault is that of the first act that has one, and there the first in the order of
    /// [`PlanFaultKind`]. A refused plan comes back as it was. The starts must name what exists, and each slot once.
    ///
    /// Each act that is stored costs the same, and the end of a plan that shuts all lanes a look at each lane. Besides a
    /// copy of the starts, the check takes room for 256 shapes per rank, and for each lane.
    pub fn check(
        alloc: Global,
        plan: Plan,
        starts: &[Start],
    ) -> Result<CheckedPlan, (Plan, PlanFault)>
        requires exist { All (λ s. (s.rank < plan.ranks) × (s.slot < SLOTS)) starts.now }
        requires once { AllPairs IsElsewhere starts.now }
        ensures ok { IfOk result (λ checked. checked ≡ record { ranks = plan.ranks; starts = starts.now; acts = plan.acts }) }
        ensures no_fault { IfOk result (λ checked. plan_fault plan.ranks starts.now plan.acts ≡ None) }
        ensures back { IfErr result (λ e. e.0 ≡ plan) }
        ensures fault { IfErr result (λ e. (e.1 ≡ record { act = 0; kind = Memory }) ⊎ (plan_fault plan.ranks starts.now plan.acts ≡ Some e.1)) }
    {
        match first_fault(alloc, &plan, starts) {
            Ok(None) => {}
            Ok(Some(fault)) => return Err((plan, fault)),
            Err(error) => return Err((plan, PlanFault::from(error))),
        }
        match Vec::from_slice(alloc, starts) {
            Ok(starts) => Ok(CheckedPlan { plan, starts }),
            Err(_) => Err((plan, PlanFault::from(AllocError))),
        }
    }

    /// How many ranks it is for.
    pub fn ranks(&self) -> u16
        ensures ranks { result ≡ self.now.ranks }
        ensures checked { IsChecked self.now }
    {
        self.plan.ranks()
    }

    /// The slots that are filled before the first act.
    pub fn starts(&self) -> &[Start]
        ensures starts { result.now ≡ self.now.starts }
        ensures checked { IsChecked self.now }
    {
        &self.starts
    }

    /// The number of its acts.
    pub fn len(&self) -> usize
        ensures value { result ≡ length self.now.acts }
        ensures limit { result ≤ MOST_ACTS }
    {
        self.plan.len()
    }

    /// The acts as the plan keeps them: those that are stored, in order, and whether all lanes are shut after them.
    pub fn stored(&self) -> (&[Act], bool)
        ensures acts { self.now.acts ≡ result.0.now ++ closings self.now.ranks result.1 }
        ensures checked { IsChecked self.now }
    {
        self.plan.stored()
    }
}

impl Planned {
    ghost use Rattle.cb_plan.specs.Runnable.{IsRunnable};

    /// The plan as one that was checked, and the slot that has each rank's part of the answer. A plan that is proved to
    /// run isn't checked again: its parts are moved, and no memory is taken.
    pub fn into_checked(self) -> (CheckedPlan, u16)
        requires { IsRunnable self }
        ensures plan { result.0 ≡ record { ranks = self.plan.ranks; starts = self.starts.items; acts = self.plan.acts } }
        ensures slot { result.1 ≡ self.result }
    {
        let Planned {
            plan,
            starts,
            result: slot,
        } = self;
        (CheckedPlan { plan, starts }, slot)
    }
}

/// The first fault of a plan, if it has one.
fn first_fault(
    alloc: Global,
    plan: &Plan,
    starts: &[Start],
) -> Result<Option<PlanFault>, AllocError>
    requires { All (λ s. (s.rank < plan.now.ranks) × (s.slot < SLOTS)) starts.now }
    ensures { IfOk result (λ fault. fault ≡ plan_fault plan.now.ranks starts.now plan.now.acts) }
{
    let mut state = CheckState::started(alloc, plan.ranks(), starts)?;
    let (acts, closes) = plan.stored();
    Ok(state.fault_among(acts, closes))
}

impl CheckState {
    ghost use Rattle.std.specs.Prelude.{◌+◌};
    ghost use Rattle.cb_plan.specs.Closings.{shut_acts};
    ghost use Rattle.cb_plan.specs.Checks.{fault_from, slots_in, lanes_in};

    /// The first fault of the acts from here on, and of shutting all lanes after them if the plan closes.
    fn fault_among(&mut self, acts: &[Act], closes: bool) -> Option<PlanFault>
        requires { length (acts.now ++ closings self.old.ranks closes) ≤ MOST_ACTS }
        ensures { result ≡ fault_from self.old.ranks 0 (slots_in self.old.slots) (lanes_in self.old.shut) (acts.now ++ closings self.old.ranks closes) }
    {
        let mut number = 0;
        for act in acts {
            if let Some(kind) = self.fault_of(act) {
                return Some(PlanFault { act: number, kind });
            }
            self.pass(act);
            number += 1;
        }
        if closes {
            self.fault_at_closing(number)
        } else {
            self.fault_at_end(number)
        }
    }

    /// The fault of a plan that ends here, before this act: a lane that isn't shut.
    fn fault_at_end(&self, number: u32) -> Option<PlanFault>
        ensures { result ≡ fault_from self.now.ranks number (slots_in self.now.slots) (lanes_in self.now.shut) [] }
    {
        if self.is_all_shut() {
            None
        } else {
            Some(PlanFault {
                act: number,
                kind: PlanFaultKind::NotShut,
            })
        }
    }

    /// The fault of a plan that shuts all lanes from this act on, and ends: the first lane that is shut already.
    fn fault_at_closing(&self, mut number: u32) -> Option<PlanFault>
        requires { number + length (shut_acts self.now.ranks) ≤ MOST_ACTS }
        ensures { result ≡ fault_from self.now.ranks number (slots_in self.now.slots) (lanes_in self.now.shut) (shut_acts self.now.ranks) }
    {
        let ranks = self.ranks();
        for from in 0..ranks {
            for to in 0..ranks {
                if from == to {
                    continue;
                }
                if self.is_shut(from, to) {
                    return Some(PlanFault {
                        act: number,
                        kind: PlanFaultKind::AfterShut,
                    });
                }
                number += 1;
            }
        }
        None
    }
}
