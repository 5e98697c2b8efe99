//! A rank, and the halves of its program that it does by itself.
ghost use Rattle.std.specs.Prelude.{ℕ, OnErr, ◌≡◌, ◌+◌, ◌-◌, ◌≤◌, length, ◌<◌, ◌↔◌, true, false, Ok, IfOk, IfErr, OnOk, IsOk, IsTrue, None, Some};
ghost use Rattle.std.specs.Int.{from_bool};
ghost use Rattle.cb_plan.specs.Stores.{is_filled};
ghost use Rattle.cb_rank.specs.Halves.{slot_at, is_sheet, IsCopy, HasKind};
ghost use Rattle.cb_rank.specs.Ranks.{next_half, want_of, new_rank, FitsAt, IsRank, IsPost, IsShut, IsTakeOrEnd, IsAwaited, HasSlot, onward, slots_with};
ghost use Rattle.cb_rank.specs.Steps.{HandsOut, Works, WorksOn, CountsRefusal};

use crate::next_products::NextProducts;
use crate::operations::{operate, operate_all, threads_each};
use crate::wants::{Arrival, Stray, Supply, Want};
use cb_letters::{Body, Letter, Tag};
use cb_matrix::Shape;
use cb_plan::{CheckedPlan, Half, MOST_ACTS, Op, RankStore, SLOTS, SharedBlock, Slot};
use cb_semirings::Semiring;
use std::alloc::{AllocError, Global};
use std::marker::Model;
use std::snapshot::Snapshot;
use std::thread::Threads;

/// One rank of a checked plan.
#[derive(Drop)]
pub struct Rank<S: Semiring> {
    alloc: Global,
    plan: Snapshot<CheckedPlan>,
    /// How many ranks the plan has.
    ranks: u16,
    me: u16,
    program: Vec<Half>,
    done: usize,
    store: RankStore<S>,
    refusals: u64,
}

impl<S: Semiring> Model for Rank<S> {
    ghost use Rattle.cb_rank.specs.Ranks.{RankView, rank_view, IsRank};

    ghost Value = { RankView };

    ghost view = { λ r. rank_view r.plan.value r.me r.program.items r.done r.store r.refusals };

    ghost invariant = { λ r. IsRank (rank_view r.plan.value r.me r.program.items r.done r.store r.refusals) };
}

impl<S: Semiring> Rank<S> {
    /// A rank that has done nothing yet, with its part of stores that fit the plan. If memory for its program is refused,
    /// the store comes back.
    pub fn start(
        alloc: Global,
        plan: &CheckedPlan,
        rank: u16,
        store: RankStore<S>,
    ) -> Result<Rank<S>, (RankStore<S>, AllocError)>
        requires rank { rank < plan.now.ranks }
        requires fits { FitsAt plan.now.starts rank store }
        ensures new { IfOk result (λ r. r ≡ new_rank plan.now rank store) }
        ensures back { IfErr result (λ e. e.0 ≡ store) }
    {
        let program = match plan.project(alloc, rank) {
            Ok(program) => program,
            Err(refused) => return Err((store, refused)),
        };
        Ok(Rank {
            alloc,
            plan: Snapshot::of(plan),
            ranks: plan.ranks(),
            me: rank,
            program,
            done: 0,
            store,
            refusals: 0,
        })
    }

    /// The next half.
    pub fn want(&self) -> Want
        ensures value { result ≡ want_of (next_half self.now) }
        ensures rank { IsRank self.now }
    {
        match self.next() {
            None => Want::Done,
            Some(Half::Post { to, .. }) => Want::Post(to),
            Some(Half::Take { from, .. }) => Want::Take(from),
            Some(Half::Work(_)) => Want::Work,
            Some(Half::Shut { to }) => Want::Shut(to),
            Some(Half::End { from }) => Want::End(from),
        }
    }

    /// The next half of the program, if there is one.
    fn next(&self) -> Option<Half>
        ensures value { result ≡ next_half self.now }
        ensures rank { IsRank self.now }
    {
        self.program.get(self.done).copied()
    }

    /// The number of times that this rank was refused memory.
    pub fn refusals(&self) -> u64
        ensures { result ≡ self.now.refusals }
    {
        self.refusals
    }

    /// The number of halves that aren't done.
    pub fn remaining(&self) -> u64
        ensures value { result ≡ length self.now.program - self.now.done }
        ensures few { result ≤ MOST_ACTS }
    {
        (self.program.len() - self.done) as u64
    }

    /// Whether every half is done.
    pub fn is_done(&self) -> bool
        ensures { IsTrue result ↔ (next_half self.now ≡ None) }
    {
        self.done == self.program.len()
    }

    /// The slots as they are now.
    pub fn into_store(self) -> RankStore<S>
        ensures { result ≡ self.slots }
    {
        let Rank { store, .. } = self;
        store
    }

    /// Does a Post except for the posting itself: returns the tag and the body of the letter. The body is a copy of the
    /// half's slot; for a lost slot it is the slot's origin, and if memory is refused it is this rank.
    pub fn outgoing(&mut self, supply: Supply) -> (Tag, Body<SharedBlock<S>>)
        requires { IsPost (want_of (next_half self.old)) }
        ensures half { HandsOut self.old (next_half self.old) result.0 result.1 self.new }
        ensures starved { supply ≡ Supply.Refused → CountsRefusal self.old self.new }
    {
        let Some(Half::Post { tag, slot, .. }) = self.next() else {
            unreachable!()
        };
        let (body, refused) = copy_of(self.alloc, &mut self.store, self.me, slot, supply);
        self.refusals += u64::from(refused);
        self.done += 1;
        (tag, body)
    }

    /// Does a Work. If operands are lost, so is the result, with the origin of the first of them in the order of the
    /// operation's fields. If memory is refused, the result is lost at this rank. A Clear also empties a lost slot.
    pub fn work(&mut self, supply: Supply)
        requires { want_of (next_half self.old) ≡ Want.Work }
        ensures half { Works S.arithmetic self.old (next_half self.old) self.new }
        ensures starved { supply ≡ Supply.Refused → CountsRefusal self.old self.new }
    {
        let Some(Half::Work(op)) = self.next() else {
            unreachable!()
        };
        let refused = operate(self.alloc, &mut self.store, self.me, &op, supply);
        self.refusals += u64::from(refused);
        self.done += 1;
    }

    /// Does a Shut except for posting the close mark.
    pub fn shut(&mut self)
        requires { IsShut (want_of (next_half self.old)) }
        ensures { self.new ≡ onward self.old self.old.slots self.old.refusals }
    {
        self.done += 1;
    }

    /// Does a Take or an End with what has arrived, if that is what the half waits for. For a Take this is a letter from
    /// its sender to this rank, with its tag, that carries a sheet of the shape that the check gives it, or the news that
    /// the sheet was lost; for an End it is the end of its lane. Anything else comes back.
    pub fn accept(&mut self, arrival: Arrival<SharedBlock<S>>) -> Result<(), Stray<SharedBlock<S>>>
        requires { IsTakeOrEnd (want_of (next_half self.old)) }
        ensures awaited { IsOk result ↔ IsAwaited (next_half self.old) self.old.me arrival }
        ensures taken { OnOk result (self.new ≡ onward self.old (slots_with (next_half self.old) arrival self.old.slots) self.old.refusals) }
        ensures stray { IfErr result (λ s. s.0 ≡ arrival) }
        ensures unchanged { OnErr result (self.new ≡ self.old) }
    {
        let Some(half) = self.next() else {
            unreachable!()
        };
        if !is_awaited(&half, self.me, &arrival) {
            return Err(Stray(arrival));
        }
        fill(&mut self.store, &half, arrival);
        self.done += 1;
        Ok(())
    }
}

impl<S: Semiring + Send + Sync> Rank<S> {
    /// Does the next halves at once, as many as are Works that add products to the same slot, from factors in other slots.
    /// Returns whether it did: not if these are fewer than two, if an operand is lost, or if memory is refused. Then nothing
    /// changes.
    ///
    /// Costs less time and memory than the halves one after the other, since no block is made for a sum in between. If there are
    /// enough products, several threads make them where there are two processors for each rank, or one and most products are of
    /// few pairs of blocks. Each makes some of the columns, and those of all but the first are then copied once.
    pub fn work_all<R: Threads + Sync>(&mut self, rt: &R) -> bool
        ensures done { result ≡ true → WorksOn S.arithmetic self.old self.new }
        ensures none { result ≡ false → self.new ≡ self.old }
    {
        let Some(next) = NextProducts::of(self.alloc, &self.program[self.done..]) else {
            return false;
        };
        let threads = threads_each(rt, self.ranks);
        let (alloc, store) = (self.alloc, &mut self.store);
        if !operate_all(rt, alloc, threads, store, &next.factors, next.acc) {
            return false;
        }
        self.done += next.factors.len();
        true
    }
}

/// Whether this is what the next half of rank `me` waits for.
fn is_awaited<S: Semiring>(half: &Half, me: u16, arrival: &Arrival<SharedBlock<S>>) -> bool
    ensures { IsTrue result ↔ IsAwaited (Some half.now) me arrival.now }
{
    match half {
        Half::Take {
            from,
            tag,
            shape,
            ..
        } => match arrival {
            Arrival::Letter(letter) => {
                letter.from == *from
                    && letter.to == me
                    && letter.tag.0 == tag.0
                    && has_kind(*shape, &letter.body)
            }
            Arrival::End(_) => false,
        },
        Half::End { from } => match arrival {
            Arrival::Letter(_) => false,
            Arrival::End(sender) => *sender == *from,
        },
        _ => false,
    }
}

/// Puts what has arrived, which is what the half waits for, into its slot.
fn fill<S: Semiring>(store: &mut RankStore<S>, half: &Half, arrival: Arrival<SharedBlock<S>>)
    requires inside { HasSlot half.now }
    requires awaited { (me : ℕ) × IsAwaited (Some half.now) me arrival }
    ensures { store.new ≡ slots_with (Some half.now) arrival store.old }
{
    if let Half::Take { into, .. } = half
        && let Arrival::Letter(letter) = arrival
    {
        match letter.body {
            Body::Sheet(block) => store.put_shared(*into, block),
            Body::Lost(origin) => store.put_lost(*into, origin),
            Body::Close => unreachable!(),
        }
    }
}

/// What rank `me` posts for a filled slot, and whether memory for a copy was refused.
fn copy_of<S: Semiring>(
    alloc: Global,
    store: &mut RankStore<S>,
    me: u16,
    slot: u16,
    supply: Supply,
) -> (Body<SharedBlock<S>>, bool)
    requires inside { slot < SLOTS }
    requires filled { is_filled (slot_at store.old slot) ≡ true }
    ensures copy { IsCopy me (slot_at store.old slot) result.0 0 (from_bool result.1) }
    ensures starved { supply ≡ Supply.Refused → is_sheet (slot_at store.old slot) ≡ true → result.1 ≡ true }
    ensures kept { store.new ≡ store.old }
{
    match store.slot(slot) {
        Slot::Sheet(_block) => match supply {
            Supply::Granted => match store.shared_copy(alloc, slot) {
                Ok(copy) => (Body::Sheet(copy), false),
                Err(_) => (Body::Lost(me), true),
            },
            Supply::Refused => (Body::Lost(me), true),
        },
        Slot::Lost(origin) => (Body::Lost(*origin), false),
        Slot::Empty => unreachable!(),
    }
}

/// Whether a Take of this shape accepts this body.
fn has_kind<S: Semiring>(shape: Shape, body: &Body<SharedBlock<S>>) -> bool
    ensures { IsTrue result ↔ HasKind shape body.now }
{
    match body {
        Body::Sheet(block) => {
            let found = block.shape();
            found.rows() == shape.rows() && found.cols() == shape.cols()
        }
        Body::Lost(_) => true,
        Body::Close => false,
    }
}
