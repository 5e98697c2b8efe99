//! Plans, which grow act by act, and the faults that a plan may have.
ghost use Rattle.std.specs.Prelude.{◌≡◌, ◌<◌, ◌≤◌, ◌+◌, [], ◌∷◌, ◌++◌, length, vec_capacity, if◌then◌else◌, is_ok, IsOk, IfOk, IfErr, OnOk, ◌⊎◌, Err};
ghost use Rattle.cb_plan.specs.declared.plans.TheConstants.{MOST_ACTS};
ghost use Rattle.cb_plan.specs.Closings.{shut_from, shut_acts, closings};
ghost use Rattle.cb_plan.specs.Plans.{PlanView, room_in, too_long, no_memory, IsTooLong, IsRefusal};

use crate::acts::{Act, Op, Start};
use std::alloc::{AllocError, Global};
use std::marker::Model;
use thiserror::Error;

/// The most acts that a plan may have.
pub const MOST_ACTS: usize = 4_294_967_295;

/// The kinds of faults of a plan, in the order in which they are checked at an act.
#[derive(Clone, Copy, Debug, PartialEq, Eq, Error)]
pub enum PlanFaultKind {
    /// A rank is not below the plan's number of ranks.
    #[error("no such rank")]
    NoRank,
    /// A Move or a Shut goes from a rank to itself.
    #[error("from a rank to itself")]
    SelfMove,
    /// A slot is `SLOTS` or more.
    #[error("no such slot")]
    NoSlot,
    /// A slot that the act reads is empty.
    #[error("a slot that is read is empty")]
    EmptySlot,
    /// The shapes aren't those that the operation requires.
    #[error("shapes don't agree")]
    Shape,
    /// The lane was shut before.
    #[error("the lane was shut before")]
    AfterShut,
    /// Some lane isn't shut at the end.
    #[error("a lane isn't shut at the end")]
    NotShut,
    /// The plan already has `MOST_ACTS` acts.
    #[error("too many acts")]
    TooLong,
    /// Memory was refused.
    #[error("out of memory")]
    Memory,
}

/// A fault of a plan, and the number of its act, counted from 0. For NotShut and TooLong the act is the plan's length, for
/// Memory it is 0.
#[derive(Clone, Copy, Debug, PartialEq, Eq, Error)]
#[error("act {act}: {kind}")]
pub struct PlanFault {
    pub act: u32,
    pub kind: PlanFaultKind,
}

impl From<AllocError> for PlanFault {
    ghost use Rattle.cb_plan.specs.declared.plans.PlanFaultKind.TheVariants.{Memory};

    fn from(_error: AllocError) -> PlanFault
        ensures { result ≡ record { act = 0; kind = Memory } }
    {
        PlanFault {
            act: 0,
            kind: PlanFaultKind::Memory,
        }
    }
}

/// A plan, the slots that are filled before it, and the slot that has each rank's part of the answer after it.
#[derive(Drop)]
pub struct Planned {
    pub plan: Plan,
    pub starts: Vec<Start>,
    pub result: u16,
}

/// The acts of all ranks, in one order: at most `MOST_ACTS`. If the last ones shut all lanes, it keeps that fact in their
/// place, so they take no memory.
#[derive(Drop)]
pub struct Plan {
    ranks: u16,
    stored: Vec<Act>,
    /// Whether all lanes are shut after the stored acts.
    closes: bool,
}

impl Model for Plan {
    ghost Value = { PlanView };

    ghost view = { λ p. record { ranks = p.ranks; acts = p.stored.items ++ closings p.ranks p.closes; room = room_in p.ranks p.stored.items p.closes (vec_capacity p.stored) } };

    ghost invariant = { λ p. length (p.stored.items ++ closings p.ranks p.closes) ≤ MOST_ACTS };
}

impl Plan {
    ghost use Rattle.cb_plan.specs.declared.plans.PlanFaultKind.TheVariants.{TooLong, Memory};

    /// The plan without acts, for this many ranks. It takes no memory.
    pub fn new(alloc: Global, ranks: u16) -> Plan
        ensures ranks { result.ranks ≡ ranks }
        ensures acts { result.acts ≡ [] }
    {
        Plan {
            ranks,
            stored: Vec::new(alloc),
            closes: false,
        }
    }

    /// The number of its ranks.
    pub fn ranks(&self) -> u16
        ensures { result ≡ self.now.ranks }
    {
        self.ranks
    }

    /// The number of its acts.
    pub fn len(&self) -> usize
        ensures value { result ≡ length self.now.acts }
        ensures limit { result ≤ MOST_ACTS }
    {
        if self.closes {
            self.stored.len() + lanes_between(self.ranks)
        } else {
            self.stored.len()
        }
    }

    /// The acts as the plan keeps them: those that are stored, in order, and whether all lanes are shut after them.
    pub fn stored(&self) -> (&[Act], bool)
        ensures acts { self.now.acts ≡ result.0.now ++ closings self.now.ranks result.1 }
        ensures limit { length self.now.acts ≤ MOST_ACTS }
    {
        (&self.stored, self.closes)
    }

    /// Makes room, so that the next `count` pushes take no memory. If there is room already, or `count` is 0, it takes
    /// none. After [`Plan::shut_all`] there is room for no act.
    pub fn reserve(&mut self, count: usize) -> Result<(), AllocError>
        ensures ranks { self.new.ranks ≡ self.old.ranks }
        ensures acts { self.new.acts ≡ self.old.acts }
        ensures room { OnOk result (length self.new.acts + count ≤ self.new.room) }
        ensures kept { self.old.room ≤ self.new.room }
        ensures granted { length self.old.acts + count ≤ self.old.room → IsOk result }
        ensures none { count ≡ 0 → IsOk result }
    {
        if self.closes {
            if count == 0 {
                return Ok(());
            }
            self.stored = with_closings(&self.stored, self.ranks)?;
            self.closes = false;
        }
        self.stored.reserve(count)?;
        Ok(())
    }

    /// Appends an act. It is refused with TooLong, then Memory; a refusal leaves the plan as it was.
    ///
    /// After [`Plan::shut_all`] it first stores the acts that shut the lanes.
    pub fn push(&mut self, act: Act) -> Result<(), PlanFault>
        ensures ranks { self.new.ranks ≡ self.old.ranks }
        ensures acts { self.new.acts ≡ (if is_ok result then self.old.acts ++ act ∷ [] else self.old.acts) }
        ensures room { self.old.room ≤ self.new.room }
        ensures granted { length self.old.acts < MOST_ACTS → length self.old.acts < self.old.room → IsOk result }
        ensures long { length self.old.acts ≡ MOST_ACTS → result ≡ Err (record { act = MOST_ACTS; kind = TooLong }) }
        ensures faults { IfErr result (λ e. (e ≡ record { act = MOST_ACTS; kind = TooLong }) ⊎ (e ≡ record { act = 0; kind = Memory })) }
    {
        // For the borrow check alone: it knows a type inside an act only if the body names it.
        let _none: Option<Op> = None;
        if self.len() == MOST_ACTS {
            return Err(self.too_long());
        }
        if self.reserve(1).is_err() {
            return Err(PlanFault::from(AllocError));
        }
        self.stored.push_reserved(act);
        Ok(())
    }

    /// Shuts every lane between two ranks, by sender and then by addressee. It is refused if the plan would be too long.
    /// It stores no act, and takes memory only if the plan ends so already.
    pub fn shut_all(&mut self) -> Result<(), PlanFault>
        ensures ranks { self.new.ranks ≡ self.old.ranks }
        ensures acts { self.new.acts ≡ (if is_ok result then self.old.acts ++ shut_acts self.old.ranks else self.old.acts) }
        ensures long { IsTooLong self.old (shut_acts self.old.ranks) → result ≡ Err (too_long self.old) }
        ensures faults { IfErr result (IsRefusal self.old (shut_acts self.old.ranks)) }
    {
        if lanes_between(self.ranks) > MOST_ACTS - self.len() {
            return Err(self.too_long());
        }
        if self.closes {
            let Ok(stored) = with_closings(&self.stored, self.ranks) else {
                return Err(PlanFault::from(AllocError));
            };
            self.stored = stored;
        }
        self.closes = true;
        Ok(())
    }

    /// The fault that the plan can't have more acts.
    fn too_long(&self) -> PlanFault
        ensures { result ≡ too_long self.now }
    {
        PlanFault {
            act: self.len() as u32,
            kind: PlanFaultKind::TooLong,
        }
    }

    /// Makes room for `count` more acts, so that the next pushes can't be refused. TooLong is reported before memory is
    /// asked for, and memory is asked for only if there isn't room already.
    pub fn make_room(&mut self, count: usize) -> Result<(), PlanFault>
        ensures ranks { self.new.ranks ≡ self.old.ranks }
        ensures acts { self.new.acts ≡ self.old.acts }
        ensures room { OnOk result ((length self.new.acts + count ≤ self.new.room) × (length self.new.acts + count ≤ MOST_ACTS)) }
        ensures granted { length self.old.acts + count ≤ MOST_ACTS → length self.old.acts + count ≤ self.old.room → IsOk result }
        ensures none { count ≡ 0 → IsOk result }
        ensures long { MOST_ACTS < length self.old.acts + count → result ≡ Err (too_long self.old) }
        ensures faults { IfErr result (λ e. ((MOST_ACTS < length self.old.acts + count) × (e ≡ too_long self.old)) ⊎ (e ≡ no_memory)) }
    {
        if count > MOST_ACTS - self.len() {
            return Err(self.too_long());
        }
        if self.reserve(count).is_err() {
            return Err(PlanFault::from(AllocError));
        }
        Ok(())
    }
}

/// The number of lanes between two ranks.
#[tactic(auto, using(crate::proofs::ShutCounts::count_shut))]
fn lanes_between(ranks: u16) -> usize
    ensures value { result ≡ length (shut_acts ranks) }
    ensures limit { result ≤ MOST_ACTS }
{
    usize::from(ranks) * usize::from(ranks.saturating_sub(1))
}

/// These acts, and then those that shut all lanes.
fn with_closings(stored: &Vec<Act>, ranks: u16) -> Result<Vec<Act>, AllocError>
    ensures { IfOk result (λ acts. acts.items ≡ stored.now.items ++ shut_acts ranks) }
{
    // For the borrow check, as in `Plan::push`.
    let _none: Option<Op> = None;
    let mut acts = Vec::from_slice(*stored.allocator(), stored)?;
    for from in 0..ranks {
        shut_each(&mut acts, ranks, from)?;
    }
    Ok(acts)
}

/// Shuts the lanes from a rank to each other rank.
fn shut_each(acts: &mut Vec<Act>, ranks: u16, from: u16) -> Result<(), AllocError>
    ensures { OnOk result (acts.new.items ≡ acts.old.items ++ shut_from ranks from) }
{
    // For the borrow check, as in `Plan::push`.
    let _none: Option<Op> = None;
    for to in 0..ranks {
        if from != to {
            acts.push(Act::Shut { from, to })?;
        }
    }
    Ok(())
}
