//! The state of the check between two acts: what it knows of all slots and lanes.
ghost use Rattle.std.specs.Prelude.{◌≡◌, ◌<◌, ◌+◌, ◌-◌, ℕ, true, None, Some, length, All, IfOk, IsTrue, IsSome, is_some, [], ◌∷◌, ◌&&◌, ◌==◌, nat_le};
ghost use Rattle.cb_plan.specs.Checks.{CheckState as CheckStateView, IsCheckState, IsBlank, IsStarted, DidAct, SetSlot, slots_in, lanes_in};
ghost use Rattle.cb_plan.specs.Checks.{fault_in, all_below, all_filled, ranks_of, slots_of, operands_of, is_apart, reads_filled, act_agrees, is_open};
ghost use Rattle.cb_plan.specs.Checks.{shapes_agree, shape_if, have_same_shape, can_add_product, has_part};
ghost use Rattle.cb_plan.specs.Meaning.{target_of, result_of};
ghost use Rattle.cb_plan.specs.Algebras.{shapes};

use crate::acts::{Act, Op, Start};
use crate::plans::PlanFaultKind;
use crate::stores::SLOTS;
use crate::tables::Table;
use cb_matrix::Shape;
use std::alloc::{AllocError, Global};
use std::marker::Model;

/// The shapes in all slots, and the lanes that are shut.
#[derive(Drop)]
pub(crate) struct CheckState {
    ranks: u16,
    slots: Table<Option<Shape>>,
    shut: Table<bool>,
}

impl Model for CheckState {
    ghost Value = { CheckStateView };

    ghost view = { λ o. record { ranks = o.ranks; slots = o.slots; shut = o.shut } };

    ghost invariant = { λ o. IsCheckState (record { ranks = o.ranks; slots = o.slots; shut = o.shut }) };
}

impl CheckState {
    /// The state in which all slots are empty and all lanes open.
    fn new(alloc: Global, ranks: u16) -> Result<Self, AllocError>
        ensures { IfOk result (λ o. IsBlank ranks o) }
    {
        Ok(CheckState {
            ranks,
            slots: Table::new(alloc, ranks as usize, SLOTS as usize, None)?,
            shut: Table::new(alloc, ranks as usize, ranks as usize, false)?,
        })
    }

    /// The state before the first act: the slots of the starts have their shapes, and all lanes are open.
    pub(crate) fn started(alloc: Global, ranks: u16, starts: &[Start]) -> Result<Self, AllocError>
        requires { All (λ s. (s.rank < ranks) × (s.slot < SLOTS)) starts.now }
        ensures { IfOk result (λ o. IsStarted ranks starts.now o) }
    {
        let mut state = CheckState::new(alloc, ranks)?;
        for start in starts {
            state.set_slot(start.rank, start.slot, Some(start.shape));
        }
        Ok(state)
    }

    /// The number of ranks.
    pub(crate) fn ranks(&self) -> u16
        ensures { result ≡ self.now.ranks }
    {
        self.ranks
    }

    /// The shape in a slot, if it isn't empty.
    pub(crate) fn slot(&self, rank: u16, slot: u16) -> Option<Shape>
        requires rank { rank < self.now.ranks }
        requires slot { slot < SLOTS }
        ensures { result ≡ slots_in self.now.slots rank slot }
    {
        self.slots.get(rank as usize, slot as usize)
    }

    /// Puts a shape into a slot, or empties it.
    fn set_slot(&mut self, rank: u16, slot: u16, shape: Option<Shape>)
        requires rank { rank < self.old.ranks }
        requires slot { slot < SLOTS }
        ensures { SetSlot rank slot shape self.old self.new }
    {
        self.slots.set(rank as usize, slot as usize, shape);
    }
}

impl CheckState {
    /// Whether the act names only ranks of the plan.
    fn names_ranks(&self, act: Act) -> bool
        ensures { result ≡ all_below self.now.ranks (ranks_of act) }
    {
        match act {
            Act::Move { from, to, .. } => from < self.ranks && to < self.ranks,
            Act::Work { rank, .. } => rank < self.ranks,
            Act::Shut { from, to } => from < self.ranks && to < self.ranks,
        }
    }

    /// Whether a slot is filled.
    fn is_filled(&self, rank: u16, slot: u16) -> bool
        requires rank { rank < self.now.ranks }
        requires slot { slot < SLOTS }
        ensures { result ≡ is_some (slots_in self.now.slots rank slot) }
    {
        self.slot(rank, slot).is_some()
    }

    /// Whether all of these slots are filled.
    fn are_filled(&self, rank: u16, slots: &[u16]) -> bool
        requires rank { rank < self.now.ranks }
        requires slots { IsTrue (all_below SLOTS slots.now) }
        ensures { result ≡ all_filled (slots_in self.now.slots rank) slots.now }
    {
        for slot in slots {
            if !self.is_filled(rank, *slot) {
                return false;
            }
        }
        true
    }

    /// Whether the operands of an operation are all filled.
    fn has_operands(&self, rank: u16, op: Op) -> bool
        requires rank { rank < self.now.ranks }
        requires slots { IsTrue (all_below SLOTS (operands_of op)) }
        ensures { result ≡ all_filled (slots_in self.now.slots rank) (operands_of op) }
    {
        let operands = op.operands();
        self.are_filled(rank, operands.as_slice())
    }

    /// The shape in a slot, which isn't empty.
    fn shape(&self, rank: u16, slot: u16) -> Shape
        requires rank { rank < self.now.ranks }
        requires slot { slot < SLOTS }
        requires filled { IsSome (slots_in self.now.slots rank slot) }
        ensures { slots_in self.now.slots rank slot ≡ Some result }
    {
        match self.slot(rank, slot) {
            Some(shape) => shape,
            None => unreachable!(),
        }
    }
}

impl CheckState {
    /// The common shape of two slots.
    fn common_shape(&self, rank: u16, a: u16, b: u16) -> Result<Option<Shape>, PlanFaultKind>
        requires rank { rank < self.now.ranks }
        requires slots { IsTrue (all_below SLOTS (a ∷ b ∷ [])) }
        requires filled { IsTrue (all_filled (slots_in self.now.slots rank) (a ∷ b ∷ [])) }
        ensures { result ≡ shape_if (have_same_shape (slots_in self.now.slots rank) a b) (slots_in self.now.slots rank a) }
    {
        let a = self.shape(rank, a);
        let b = self.shape(rank, b);
        demanded(a.rows() == b.rows() && a.cols() == b.cols(), a)
    }

    /// The shape of what an operation makes, or None if it leaves its slot empty. Operands whose shapes aren't those
    /// that it requires are refused.
    fn made_by(&self, rank: u16, op: Op) -> Result<Option<Shape>, PlanFaultKind>
        requires rank { rank < self.now.ranks }
        requires slots { IsTrue (all_below SLOTS (operands_of op)) }
        requires filled { IsTrue (all_filled (slots_in self.now.slots rank) (operands_of op)) }
        ensures { result ≡ shape_if (shapes_agree (slots_in self.now.slots rank) op) (result_of shapes op (slots_in self.now.slots rank)) }
    {
        match op {
            Op::Zero { shape, .. } => Ok(Some(shape)),
            Op::MulAdd { a, b, acc } => sum_with_product(
                self.shape(rank, a),
                self.shape(rank, b),
                self.shape(rank, acc),
            ),
            Op::Add { a, b, .. } => self.common_shape(rank, a, b),
            Op::Times { a, b, .. } => self.common_shape(rank, a, b),
            Op::Mask { a, m, .. } => self.common_shape(rank, a, m),
            Op::Transpose { a, .. } => {
                let a = self.shape(rank, a);
                Ok(Shape::new(a.cols(), a.rows()))
            }
            Op::ColumnSums { a, .. } => {
                let a = self.shape(rank, a);
                Ok(Shape::new(1, a.cols()))
            }
            Op::MulVec { a, x, .. } => vector_product(self.shape(rank, a), self.shape(rank, x)),
            Op::Cut { a, rows, cols, .. } => part_of(self.shape(rank, a), rows, cols),
            Op::Place { a, shape, at, .. } => {
                demanded(is_place(self.shape(rank, a), shape, at), shape)
            }
            Op::Prune { a, .. } => Ok(self.slot(rank, a)),
            Op::Copy { a, .. } => Ok(self.slot(rank, a)),
            Op::Clear { .. } => Ok(None),
        }
    }
}

/// A shape, if what is required holds.
fn demanded(holds: bool, shape: Shape) -> Result<Option<Shape>, PlanFaultKind>
    ensures { result ≡ shape_if holds (Some shape) }
{
    if holds {
        Ok(Some(shape))
    } else {
        Err(PlanFaultKind::Shape)
    }
}

/// The shape of a block to which the product of two others can be added.
fn sum_with_product(a: Shape, b: Shape, acc: Shape) -> Result<Option<Shape>, PlanFaultKind>
    ensures { result ≡ shape_if (can_add_product a b acc) (Some acc) }
{
    let agree = a.cols() == b.rows() && acc.rows() == a.rows() && acc.cols() == b.cols();
    demanded(agree, acc)
}

/// The shape of the product of a block and a vector, if they have one.
fn vector_product(a: Shape, x: Shape) -> Result<Option<Shape>, PlanFaultKind>
    ensures { result ≡ shape_if ((a.cols == x.rows) && (x.cols == 1)) (Some (record { rows = a.rows; cols = x.cols })) }
{
    demanded(a.cols() == x.rows() && x.cols() == 1, a.with_columns_of(x))
}

/// The shape of these rows and columns of a shape, if it has them.
fn part_of(shape: Shape, rows: (u32, u32), cols: (u32, u32)) -> Result<Option<Shape>, PlanFaultKind>
    ensures { result ≡ shape_if (has_part rows cols shape) (Some (record { rows = rows.1 - rows.0; cols = cols.1 - cols.0 })) }
{
    let is_inside = rows.0 <= rows.1
        && rows.1 <= shape.rows()
        && cols.0 <= cols.1
        && cols.1 <= shape.cols();
    if is_inside {
        Ok(Shape::new(rows.1 - rows.0, cols.1 - cols.0))
    } else {
        Err(PlanFaultKind::Shape)
    }
}

/// Whether a shape fits inside another one, with its first place at this row and column.
fn is_place(part: Shape, shape: Shape, at: (u32, u32)) -> bool
    ensures { result ≡ (nat_le (at.0 + part.rows) shape.rows && nat_le (at.1 + part.cols) shape.cols) }
{
    at.0 <= shape.rows()
        && part.rows() <= shape.rows() - at.0
        && at.1 <= shape.cols()
        && part.cols() <= shape.cols() - at.1
}

/// Whether all these slots exist.
fn all_exist(slots: &[u16]) -> bool
    ensures { result ≡ all_below SLOTS slots.now }
{
    for slot in slots {
        if *slot >= SLOTS {
            return false;
        }
    }
    true
}

/// Whether the slots that an operation names exist.
fn names_slots(op: &Op) -> bool
    ensures { result ≡ all_below SLOTS (target_of op.now ∷ operands_of op.now) }
{
    let operands = op.operands();
    let exist = all_exist(operands.as_slice());
    exist && op.target() < SLOTS
}

impl CheckState {
    /// The fault of a rank's operation here, if any: the first in the order of the kinds.
    fn fault_of_work(&self, rank: u16, op: &Op) -> Option<PlanFaultKind>
        requires { rank < self.now.ranks }
        ensures { result ≡ fault_in self.now (Act.Work rank op.now) }
    {
        if !names_slots(op) {
            Some(PlanFaultKind::NoSlot)
        } else if !self.has_operands(rank, *op) {
            Some(PlanFaultKind::EmptySlot)
        } else {
            self.made_by(rank, *op).err()
        }
    }

    /// The fault of an act here, if any: the first in the order of the kinds.
    pub(crate) fn fault_of(&self, act: &Act) -> Option<PlanFaultKind>
        ensures { result ≡ fault_in self.now act.now }
    {
        if !self.names_ranks(*act) {
            return Some(PlanFaultKind::NoRank);
        }
        match act {
            Act::Move {
                from,
                to,
                slot,
                into,
                ..
            } => {
                if *from == *to {
                    Some(PlanFaultKind::SelfMove)
                } else if *slot >= SLOTS || *into >= SLOTS {
                    Some(PlanFaultKind::NoSlot)
                } else if !self.is_filled(*from, *slot) {
                    Some(PlanFaultKind::EmptySlot)
                } else if self.shut.get(*from as usize, *to as usize) {
                    Some(PlanFaultKind::AfterShut)
                } else {
                    None
                }
            }
            Act::Work { rank, op } => self.fault_of_work(*rank, op),
            Act::Shut { from, to } => {
                if *from == *to {
                    Some(PlanFaultKind::SelfMove)
                } else if self.shut.get(*from as usize, *to as usize) {
                    Some(PlanFaultKind::AfterShut)
                } else {
                    None
                }
            }
        }
    }
}

impl CheckState {
    ghost use Rattle.cb_plan.specs.Checks.{IsSound};

    /// Advances past an act that has no fault.
    pub(crate) fn pass(&mut self, act: &Act)
        requires { IsSound self.old.ranks (slots_in self.old.slots) (lanes_in self.old.shut) act.now }
        ensures { DidAct act.now self.old self.new }
    {
        match act {
            Act::Move {
                from,
                to,
                slot,
                into,
                ..
            } => {
                let shape = self.slot(*from, *slot);
                self.set_slot(*to, *into, shape);
            }
            Act::Work { rank, op } => {
                let Ok(shape) = self.made_by(*rank, *op) else {
                    unreachable!()
                };
                self.set_slot(*rank, op.target(), shape);
            }
            Act::Shut { from, to } => {
                self.shut.set(*from as usize, *to as usize, true);
            }
        }
    }
}

impl CheckState {
    ghost use Rattle.std.specs.Prelude.{◌||◌};
    ghost use Rattle.std.specs.List.{range_with_len};
    ghost use Rattle.cb_plan.specs.Checks.{all_hold, are_all_shut};

    /// Whether a lane is shut. A rank has no lane to itself, which counts as shut.
    pub(crate) fn is_shut(&self, from: u16, to: u16) -> bool
        requires from { from < self.now.ranks }
        requires to { to < self.now.ranks }
        ensures { result ≡ (from == to) || lanes_in self.now.shut from to }
    {
        from == to || self.shut.get(from as usize, to as usize)
    }

    /// Whether each lane from a rank is shut.
    fn has_shut_all(&self, from: u16) -> bool
        requires { from < self.now.ranks }
        ensures { result ≡ all_hold (λ t. (from == t) || lanes_in self.now.shut from t) (range_with_len 0 self.now.ranks) }
    {
        for to in 0..self.ranks {
            if !self.is_shut(from, to) {
                return false;
            }
        }
        true
    }

    /// Whether each lane between two ranks is shut.
    pub(crate) fn is_all_shut(&self) -> bool
        ensures { result ≡ are_all_shut self.now.ranks (lanes_in self.now.shut) }
    {
        for from in 0..self.ranks {
            if !self.has_shut_all(from) {
                return false;
            }
        }
        true
    }
}
