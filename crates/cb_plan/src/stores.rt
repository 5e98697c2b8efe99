//! The slots of a rank.
ghost use Rattle.std.specs.Prelude.{◌≡◌, ◌<◌, ◌≤◌, ℕ, true, List, Some, None, length, get_or, replicate, slice_set, IfOk, IsOk, IsSome, count_by, not};
ghost use Rattle.cb_matrix.specs.Sparse.{Sparse};
ghost use Rattle.cb_plan.specs.declared.stores.Slot.{Slot as SlotOf};
ghost use Rattle.cb_plan.specs.declared.stores.Slot.TheVariants.{Empty, Sheet, Lost};
ghost use Rattle.cb_plan.specs.declared.stores.TheConstants.{SLOTS};
ghost use Rattle.cb_plan.specs.Stores.{is_filled, sheets_in};

use crate::shared_blocks::SharedBlock;
use cb_dcsc::Block;
use cb_semirings::Semiring;
use std::alloc::{AllocError, Global};
use std::marker::Model;
use std::mem;

/// The number of slots of a rank.
pub const SLOTS: u16 = 256;

/// A slot of a rank, for blocks of any kind.
#[derive(Drop)]
pub enum Slot<B> {
    /// The slot is empty.
    Empty,
    /// A block.
    Sheet(B),
    /// The block that should be there was lost when memory was refused at this rank.
    Lost(u16),
}

impl<B> Slot<B> {
    /// Whether the slot is empty.
    pub fn is_empty(&self) -> bool
        ensures { result ≡ not (is_filled self.now) }
    {
        matches!(self, Slot::Empty)
    }
}

/// The slots of a rank, `SLOTS` of them.
#[derive(Drop)]
pub struct RankStore<S: Semiring> {
    slots: Vec<Slot<SharedBlock<S>>>,
}

impl<S: Semiring> Model for RankStore<S> {
    ghost Value = { List (SlotOf Sparse) };

    ghost view = { λ store. store.slots.items };

    ghost invariant = { λ store. length store.slots.items ≡ SLOTS };
}

impl<S: Semiring> RankStore<S> {
    /// A store whose slots are all empty.
    pub fn new(alloc: Global) -> Result<Self, AllocError>
        ensures { IfOk result (λ store. store ≡ replicate SLOTS Empty) }
    {
        let mut slots = Vec::with_capacity(alloc, SLOTS as usize)?;
        for _ in 0..SLOTS {
            slots.push(Slot::Empty)?;
        }
        Ok(RankStore { slots })
    }

    /// What is in a slot.
    pub fn slot(&self, n: u16) -> &Slot<SharedBlock<S>>
        requires { n < SLOTS }
        ensures value { result.now ≡ get_or self.now n Empty }
        ensures size { length self.now ≡ SLOTS }
    {
        &self.slots[n as usize]
    }

    /// Puts anything into a slot.
    pub fn set(&mut self, n: u16, slot: Slot<SharedBlock<S>>)
        requires { n < SLOTS }
        ensures value { self.new ≡ slice_set self.old n slot }
        ensures size { length self.old ≡ SLOTS }
    {
        self.slots[n as usize] = slot;
    }

    /// Puts a block into a slot.
    pub fn put(&mut self, n: u16, block: Block<S>)
        requires { n < SLOTS }
        ensures value { self.new ≡ slice_set self.old n (Sheet block) }
        ensures size { length self.old ≡ SLOTS }
    {
        self.put_shared(n, SharedBlock::new(block));
    }

    /// Puts a block into a slot, which may be shared.
    pub fn put_shared(&mut self, n: u16, block: SharedBlock<S>)
        requires { n < SLOTS }
        ensures value { self.new ≡ slice_set self.old n (Sheet block) }
        ensures size { length self.old ≡ SLOTS }
    {
        self.set(n, Slot::Sheet(block));
    }

    /// Lends the block in a slot, if there is one: copies of the slot share it from now on. If memory is refused, nothing
    /// changes.
    ///
    /// Takes memory for a few words.
    pub fn lend(&mut self, alloc: Global, n: u16) -> Result<(), AllocError>
        requires { n < SLOTS }
        ensures { self.new ≡ self.old }
    {
        match &mut self.slots[n as usize] {
            Slot::Sheet(block) => block.lend(alloc),
            _ => Ok(()),
        }
    }

    /// Marks a slot as lost at a rank.
    pub fn put_lost(&mut self, n: u16, origin: u16)
        requires { n < SLOTS }
        ensures value { self.new ≡ slice_set self.old n (Lost origin) }
        ensures size { length self.old ≡ SLOTS }
    {
        self.set(n, Slot::Lost(origin));
    }

    /// Empties a slot.
    pub fn clear(&mut self, n: u16)
        requires { n < SLOTS }
        ensures value { self.new ≡ slice_set self.old n Empty }
        ensures size { length self.old ≡ SLOTS }
    {
        self.set(n, Slot::Empty);
    }

    /// Takes what is in a slot, and leaves it empty.
    pub fn take(&mut self, n: u16) -> Slot<SharedBlock<S>>
        requires { n < SLOTS }
        ensures value { result ≡ get_or self.old n Empty }
        ensures left { self.new ≡ slice_set self.old n Empty }
        ensures size { length self.old ≡ SLOTS }
    {
        mem::replace(&mut self.slots[n as usize], Slot::Empty)
    }

    /// A copy of a slot. If the slot has no block, or a block that was lent, this takes no memory.
    pub fn try_copy(&self, n: u16) -> Result<Slot<SharedBlock<S>>, AllocError>
        requires { n < SLOTS }
        ensures copy { IfOk result (λ slot. slot ≡ get_or self.now n Empty) }
        ensures granted { sheets_in self.now n ≡ None → IsOk result }
    {
        match self.slot(n) {
            Slot::Empty => Ok(Slot::Empty),
            Slot::Sheet(block) => Ok(Slot::Sheet(block.try_clone()?)),
            Slot::Lost(origin) => Ok(Slot::Lost(*origin)),
        }
    }

    /// A copy of the block in a slot, which has the same lists. If memory is refused, nothing changes.
    ///
    /// Takes memory for a few words.
    pub fn shared_copy(&mut self, alloc: Global, n: u16) -> Result<SharedBlock<S>, AllocError>
        requires slot { n < SLOTS }
        requires sheet { IsSome (sheets_in self.old n) }
        ensures copy { IfOk result (λ block. sheets_in self.old n ≡ Some block) }
        ensures kept { self.new ≡ self.old }
    {
        self.lend(alloc, n)?;
        match self.slot(n) {
            Slot::Sheet(block) => block.try_clone(),
            _ => unreachable!(),
        }
    }

    /// The block in a slot.
    pub fn sheet(&self, n: u16) -> &Block<S>
        requires slot { n < SLOTS }
        requires sheet { IsSome (sheets_in self.now n) }
        ensures { sheets_in self.now n ≡ Some result.now }
    {
        match self.slot(n) {
            Slot::Sheet(block) => block,
            _ => unreachable!(),
        }
    }

    /// How many slots aren't empty.
    pub fn filled(&self) -> usize
        ensures value { result ≡ count_by is_filled self.now }
        ensures limit { result ≤ SLOTS }
        ensures size { length self.now ≡ SLOTS }
    {
        count_filled(&self.slots)
    }
}

/// The number of these slots that aren't empty.
fn count_filled<B>(slots: &[Slot<B>]) -> usize
    ensures value { result ≡ count_by is_filled slots.now }
    ensures limit { result ≤ length slots.now }
{
    let mut count = 0;
    for slot in slots {
        if !slot.is_empty() {
            count += 1;
        }
    }
    count
}
