//! A rank that another program drives, with the letters that it posted and took.
ghost use Rattle.std.specs.Prelude.{◌≡◌, ◌↔◌, IsTrue, IfOk, IfErr, OnOk, OnErr};
ghost use Rattle.cb_rank.specs.Ranks.{IsRank, next_half, want_of, IsTakeOrEnd};
ghost use Rattle.cb_rank_driven.specs.DrivenRanks.{CanStart, DoesNext, HasDoneNothing, IsDriven, IsPostOrShut, IsMark, IsNextLetter, IsRefusal, Posts, Takes};
ghost use Rattle.cb_rank_driven.specs.Joined.{IsHeld, IsLeft, IsPartOfAnswer};

use crate::first_stores::fits_at;
use crate::lane_letters::LaneLetters;
use cb_dcsc::Block;
use cb_letters::{Body, Letter, Tag};
use cb_plan::{CheckedPlan, RankStore, SLOTS, SharedBlock, Slot};
use cb_rank::{Arrival, Rank, Supply, Want};
use cb_semirings::Semiring;
use std::alloc::{AllocError, Global};
use std::marker::Model;
use std::snapshot::Snapshot;

/// Why a rank wasn't begun.
#[derive(Clone, Copy, Drop)]
pub enum StartFault {
    /// The plan has no such rank, or the slots aren't those with which it begins there.
    Unfit,
    /// Memory was refused.
    Memory,
}

impl From<AllocError> for StartFault {
    ghost use Rattle.std.specs.Prelude.{◌≡◌};
    ghost use Rattle.cb_rank_driven.specs.declared.driven_ranks.StartFault.TheVariants.{Memory};

    ghost from_gives = { λ _ fault. fault ≡ Memory };

    fn from(_error: AllocError) -> StartFault {
        StartFault::Memory
    }
}

/// Why a call did nothing.
#[derive(Clone, Copy, Drop)]
pub enum StepRefusal {
    /// Another half is next.
    NotNow,
    /// The half doesn't wait for this letter.
    Stray,
    /// Memory was refused.
    Memory,
}

impl From<AllocError> for StepRefusal {
    ghost use Rattle.std.specs.Prelude.{◌≡◌};
    ghost use Rattle.cb_rank_driven.specs.declared.driven_ranks.StepRefusal.TheVariants.{Memory};

    ghost from_gives = { λ _ refusal. refusal ≡ Memory };

    fn from(_error: AllocError) -> StepRefusal {
        StepRefusal::Memory
    }
}

/// Why a rank hands over no block.
#[derive(Drop)]
pub enum NoBlock<R> {
    /// Some halves aren't done: the rank as it was.
    NotDone(R),
    /// The slot is empty.
    Empty,
    /// The block was lost when memory was refused at this rank.
    Lost(u16),
    /// The block is lent to other slots, and memory for a copy was refused.
    Memory,
}

/// A rank of a plan, with the letters that it posted and took.
#[derive(Drop)]
pub struct DrivenRank<S: Semiring> {
    me: u16,
    rank: Rank<S>,
    first: Snapshot<RankStore<S>>,
    posted: LaneLetters<SharedBlock<S>>,
    taken: LaneLetters<SharedBlock<S>>,
}

impl<S: Semiring> Model for DrivenRank<S> {
    ghost use Rattle.std.specs.Prelude.{◌≡◌};
    ghost use Rattle.cb_rank_driven.specs.DrivenRanks.{DrivenView, IsDriven, driven_view};

    ghost Value = { DrivenView };

    ghost view = { λ x. driven_view x.rank x.first.value x.posted.letters x.taken.letters };

    ghost invariant = { λ x. (x.me ≡ x.rank.me) × IsDriven S.arithmetic (driven_view x.rank x.first.value x.posted.letters x.taken.letters) };
}

impl<S: Semiring> DrivenRank<S> {
    /// A rank that has done nothing yet, with its slots, if they are those with which the plan begins.
    pub fn start(
        alloc: Global,
        plan: &CheckedPlan,
        me: u16,
        store: RankStore<S>,
    ) -> Result<DrivenRank<S>, StartFault>
        ensures new { IfOk result (λ x. HasDoneNothing plan.now me x) }
        ensures first { IfOk result (λ x. x.first ≡ store) }
        ensures fits { IfOk result (λ _. CanStart plan.now me store) }
        ensures unfit { IfErr result (λ f. f ≡ StartFault.Unfit → CanStart plan.now me store → ⊥) }
    {
        if me >= plan.ranks() || !fits_at(plan, me, &store) {
            return Err(StartFault::Unfit);
        }
        let first = Snapshot::of(&store);
        let posted = LaneLetters::new(alloc, plan.ranks())?;
        let taken = LaneLetters::new(alloc, plan.ranks())?;
        match Rank::start(alloc, plan, me, store) {
            Ok(rank) => {
                let _next = rank.want();
                Ok(DrivenRank {
                    me,
                    rank,
                    first,
                    posted,
                    taken,
                })
            }
            Err(_) => Err(StartFault::Memory),
        }
    }

    /// The next half.
    pub fn want(&self) -> Want
        ensures next { result ≡ want_of (next_half self.now.rank) }
        ensures driven { IsDriven S.arithmetic self.now }
    {
        self.rank.want()
    }

    /// Does a Post or a Shut, and returns the letter. If memory for the copy of a sheet is refused, the letter says that it was
    /// lost here.
    pub fn post(&mut self) -> Result<Letter<SharedBlock<S>>, StepRefusal>
        ensures posts { IfOk result (λ letter. Posts S.arithmetic self.old letter self.new) }
        ensures refused { IfErr result (IsRefusal (IsPostOrShut (want_of (next_half self.old.rank))) (Unit {0})) }
        ensures unchanged { OnErr result (self.new ≡ self.old) }
    {
        match self.rank.want() {
            Want::Post(to) => self.post_sheet(to),
            Want::Shut(to) => self.post_mark(to),
            _ => Err(StepRefusal::NotNow),
        }
    }

    /// Does a Post.
    fn post_sheet(&mut self, to: u16) -> Result<Letter<SharedBlock<S>>, StepRefusal>
        requires rank { IsRank self.old.rank }
        requires want { want_of (next_half self.old.rank) ≡ Want.Post to }
        ensures posts { IfOk result (λ letter. Posts S.arithmetic self.old letter self.new) }
        ensures refused { IfErr result (λ r. r ≡ StepRefusal.Memory) }
        ensures unchanged { OnErr result (self.new ≡ self.old) }
    {
        self.posted.make_room(to)?;
        let number = self.posted.count(to) as u64;
        let (tag, body) = self.rank.outgoing(Supply::Granted);
        let _after = self.rank.want();
        let letter = Letter {
            from: self.me,
            to,
            number,
            tag,
            body,
        };
        self.posted.note(to, Snapshot::of(&letter));
        Ok(letter)
    }

    /// Does a Shut.
    fn post_mark(&mut self, to: u16) -> Result<Letter<SharedBlock<S>>, StepRefusal>
        requires rank { IsRank self.old.rank }
        requires want { want_of (next_half self.old.rank) ≡ Want.Shut to }
        ensures posts { IfOk result (λ letter. Posts S.arithmetic self.old letter self.new) }
        ensures refused { IfErr result (λ r. r ≡ StepRefusal.Memory) }
        ensures unchanged { OnErr result (self.new ≡ self.old) }
    {
        self.posted.make_room(to)?;
        let number = self.posted.count(to) as u64;
        self.rank.shut();
        let _after = self.rank.want();
        let letter = Letter {
            from: self.me,
            to,
            number,
            tag: Tag(0),
            body: Body::Close,
        };
        self.posted.note(to, Snapshot::of(&letter));
        Ok(letter)
    }

    /// Does a Take or an End with a letter.
    pub fn take(&mut self, letter: Letter<SharedBlock<S>>) -> Result<(), StepRefusal>
        ensures takes { OnOk result (Takes S.arithmetic self.old letter self.new) }
        ensures refused { IfErr result (IsRefusal (IsTakeOrEnd (want_of (next_half self.old.rank))) (IsNextLetter self.old letter)) }
        ensures unchanged { OnErr result (self.new ≡ self.old) }
    {
        match self.rank.want() {
            Want::Take(from) => self.take_sheet(from, letter),
            Want::End(from) => self.take_mark(from, letter),
            _ => Err(StepRefusal::NotNow),
        }
    }

    /// Does a Take.
    fn take_sheet(&mut self, from: u16, letter: Letter<SharedBlock<S>>) -> Result<(), StepRefusal>
        requires rank { IsRank self.old.rank }
        requires want { want_of (next_half self.old.rank) ≡ Want.Take from }
        ensures takes { OnOk result (Takes S.arithmetic self.old letter self.new) }
        ensures refused { IfErr result (IsRefusal (Unit {0}) (IsNextLetter self.old letter)) }
        ensures unchanged { OnErr result (self.new ≡ self.old) }
    {
        if letter.number != self.taken.count(from) as u64 {
            return Err(StepRefusal::Stray);
        }
        self.taken.make_room(from)?;
        let note = Snapshot::of(&letter);
        let Ok(()) = self.rank.accept(Arrival::Letter(letter)) else {
            return Err(StepRefusal::Stray);
        };
        let _after = self.rank.want();
        self.taken.note(from, note);
        Ok(())
    }

    /// Does an End.
    fn take_mark(&mut self, from: u16, letter: Letter<SharedBlock<S>>) -> Result<(), StepRefusal>
        requires rank { IsRank self.old.rank }
        requires want { want_of (next_half self.old.rank) ≡ Want.End from }
        ensures takes { OnOk result (Takes S.arithmetic self.old letter self.new) }
        ensures refused { IfErr result (IsRefusal (Unit {0}) (IsNextLetter self.old letter)) }
        ensures unchanged { OnErr result (self.new ≡ self.old) }
    {
        if letter.number != self.taken.count(from) as u64 || !is_mark(&letter, from, self.me) {
            return Err(StepRefusal::Stray);
        }
        self.taken.make_room(from)?;
        let note = Snapshot::of(&letter);
        let Ok(()) = self.rank.accept(Arrival::End(from)) else {
            return Err(StepRefusal::Stray);
        };
        let _after = self.rank.want();
        self.taken.note(from, note);
        Ok(())
    }

    /// Does a Work. If memory for its result is refused, the result is lost here.
    pub fn work(&mut self) -> Result<(), StepRefusal>
        ensures does { OnOk result (DoesNext S.arithmetic self.old self.new) }
        ensures refused { IfErr result (λ r. (r ≡ StepRefusal.NotNow) × (want_of (next_half self.old.rank) ≡ Want.Work → ⊥)) }
        ensures unchanged { OnErr result (self.new ≡ self.old) }
    {
        let Want::Work = self.rank.want() else {
            return Err(StepRefusal::NotNow);
        };
        self.rank.work(Supply::Granted);
        let _after = self.rank.want();
        Ok(())
    }

    /// The block that the rank leaves in a slot, once every half is done.
    pub fn finish(self, slot: u16) -> Result<Block<S>, NoBlock<DrivenRank<S>>>
        ensures left { IsLeft self slot result }
        ensures joined { IsPartOfAnswer S.arithmetic self slot result }
    {
        let Want::Done = self.rank.want() else {
            return Err(NoBlock::NotDone(self));
        };
        if slot >= SLOTS {
            return Err(NoBlock::Empty);
        }
        let mut store = self.rank.into_store();
        block_of(store.take(slot))
    }
}

/// The block in a slot.
fn block_of<S: Semiring, R: Drop>(slot: Slot<SharedBlock<S>>) -> Result<Block<S>, NoBlock<R>>
    ensures { IsHeld slot result }
{
    match slot {
        Slot::Sheet(block) => match block.into_block() {
            Ok(block) => Ok(block),
            Err(_) => Err(NoBlock::Memory),
        },
        Slot::Lost(origin) => Err(NoBlock::Lost(origin)),
        Slot::Empty => Err(NoBlock::Empty),
    }
}

/// Whether a letter is a close mark from one rank to another.
fn is_mark<P>(letter: &Letter<P>, from: u16, to: u16) -> bool
    ensures { IsTrue result ↔ IsMark from to letter.now }
{
    letter.from == from && letter.to == to && letter.tag.0 == 0 && letter.body.is_close()
}
