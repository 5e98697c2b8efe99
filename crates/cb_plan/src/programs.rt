//! The program of a rank: what it does for each act of a checked plan.
ghost use Rattle.std.specs.Prelude.{◌≡◌, ◌<◌, length, IfOk, OnOk, ◌++◌, None, flat_map};
ghost use Rattle.std.specs.List.{range_with_len};
ghost use Rattle.cb_plan.specs.Closings.{closings};
ghost use Rattle.cb_plan.specs.Checks.{IsSound, slots_in, lanes_in};
ghost use Rattle.cb_plan.specs.Plans.{IsChecked};
ghost use Rattle.cb_plan.specs.Programs.{halves_of, half_list, own_shut, closing_halves, project};

use crate::acts::{Act, Half, Op};
use crate::check_states::CheckState;
use crate::checks::CheckedPlan;
use std::alloc::{AllocError, Global};

impl CheckedPlan {
    /// The program of a rank: its half of each act that has one, in the plan's order. A sheet that is taken has the
    /// shape that the check gives it.
    ///
    /// Costs the same for each act that is stored, and for each other rank if the plan closes, besides the room that the
    /// check takes.
    pub fn project(&self, alloc: Global, rank: u16) -> Result<Vec<Half>, AllocError>
        requires { rank < self.now.ranks }
        ensures program { IfOk result (λ halves. halves.items ≡ project self.now.starts self.now.acts rank) }
        ensures checked { IsChecked self.now }
    {
        let mut state = CheckState::started(alloc, self.ranks(), self.starts())?;
        let mut halves = Vec::new(alloc);
        let (acts, closes) = self.stored();
        state.append_halves(acts, closes, rank, &mut halves)?;
        Ok(halves)
    }
}

/// Appends a half, if there is one.
fn append_half(halves: &mut Vec<Half>, half: Option<Half>) -> Result<(), AllocError>
    ensures { OnOk result (halves.new.items ≡ halves.old.items ++ half_list half) }
{
    // For the borrow check, as in `Plan::push`.
    let _none: Option<Op> = None;
    if let Some(half) = half {
        halves.push(half)?;
    }
    Ok(())
}

/// Appends what a rank does when all lanes are shut: for each sender it takes the mark that ends the lane, and its own
/// lanes it shuts.
fn append_closing(halves: &mut Vec<Half>, ranks: u16, rank: u16) -> Result<(), AllocError>
    ensures { OnOk result (halves.new.items ≡ halves.old.items ++ flat_map (closing_halves ranks rank) (range_with_len 0 ranks)) }
{
    // For the borrow check, as in `Plan::push`.
    let _none: Option<Op> = None;
    for from in 0..ranks {
        if from == rank {
            append_shuts(halves, ranks, rank)?;
        } else {
            halves.push(Half::End { from })?;
        }
    }
    Ok(())
}

/// Appends the shutting of the lanes from a rank to each other one.
fn append_shuts(halves: &mut Vec<Half>, ranks: u16, rank: u16) -> Result<(), AllocError>
    ensures { OnOk result (halves.new.items ≡ halves.old.items ++ flat_map (own_shut rank) (range_with_len 0 ranks)) }
{
    // For the borrow check, as in `Plan::push`.
    let _none: Option<Op> = None;
    for to in 0..ranks {
        if to != rank {
            halves.push(Half::Shut { to })?;
        }
    }
    Ok(())
}

impl CheckState {
    ghost use Rattle.cb_plan.specs.Checks.{fault_from};
    ghost use Rattle.cb_plan.specs.Programs.{project_from};

    /// Appends what a rank does for the acts from here on, and for shutting all lanes after them if the plan closes. None
    /// of these acts has a fault.
    fn append_halves(
        &mut self,
        acts: &[Act],
        closes: bool,
        rank: u16,
        halves: &mut Vec<Half>,
    ) -> Result<(), AllocError>
        requires rank { rank < self.old.ranks }
        requires sound { fault_from self.old.ranks 0 (slots_in self.old.slots) (lanes_in self.old.shut) (acts.now ++ closings self.old.ranks closes) ≡ None }
        ensures { OnOk result (halves.new.items ≡ halves.old.items ++ project_from (slots_in self.old.slots) (acts.now ++ closings self.old.ranks closes) rank) }
    {
        for act in acts {
            append_half(halves, self.half_of(act, rank))?;
            self.pass(act);
        }
        if !closes {
            return Ok(());
        }
        append_closing(halves, self.ranks(), rank)?;
        Ok(())
    }

    /// What a rank does for an act that has no fault here.
    fn half_of(&self, act: &Act, rank: u16) -> Option<Half>
        requires { IsSound self.now.ranks (slots_in self.now.slots) (lanes_in self.now.shut) act.now }
        ensures { half_list result ≡ halves_of (slots_in self.now.slots) act.now rank }
    {
        match *act {
            Act::Move {
                from,
                to,
                tag,
                slot,
                ..
            } if from == rank => Some(Half::Post { to, tag, slot }),
            Act::Move {
                from,
                to,
                tag,
                slot,
                into,
            } if to == rank => {
                let shape = self.slot(from, slot)?;
                Some(Half::Take {
                    from,
                    tag,
                    into,
                    shape,
                })
            }
            Act::Work { rank: at, op } if at == rank => Some(Half::Work(op)),
            Act::Shut { from, to } if from == rank => Some(Half::Shut { to }),
            Act::Shut { from, to } if to == rank => Some(Half::End { from }),
            _ => None,
        }
    }
}
