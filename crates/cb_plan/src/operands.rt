//! The slots that an operation reads.
ghost use Rattle.std.specs.Prelude.{◌≡◌, ◌∷◌, []};

use crate::acts::Op;
use std::marker::Model;

/// The slots that an operation reads, in the order of its fields: three at most.
#[derive(Drop)]
pub struct ReadSlots {
    slots: [u16; 3],
    count: usize,
}

impl Model for ReadSlots {
    ghost use Rattle.std.specs.Prelude.{ℕ, ◌≤◌, List, take};

    ghost Value = { List ℕ };

    ghost view = { λ o. take o.count o.slots };

    ghost invariant = { λ o. o.count ≤ 3 };
}

impl ReadSlots {
    /// The slots, in order.
    pub fn as_slice(&self) -> &[u16]
        ensures { result.now ≡ self.now }
    {
        &self.slots[..self.count]
    }

    fn none() -> ReadSlots
        ensures { result ≡ [] }
    {
        ReadSlots {
            slots: [0, 0, 0],
            count: 0,
        }
    }

    fn one(a: u16) -> ReadSlots
        ensures { result ≡ a ∷ [] }
    {
        ReadSlots {
            slots: [a, 0, 0],
            count: 1,
        }
    }

    fn two(a: u16, b: u16) -> ReadSlots
        ensures { result ≡ a ∷ b ∷ [] }
    {
        ReadSlots {
            slots: [a, b, 0],
            count: 2,
        }
    }

    fn three(a: u16, b: u16, c: u16) -> ReadSlots
        ensures { result ≡ a ∷ b ∷ c ∷ [] }
    {
        ReadSlots {
            slots: [a, b, c],
            count: 3,
        }
    }
}

impl Op {
    ghost use Rattle.cb_plan.specs.Checks.{operands_of};

    /// The slots that the operation reads, in the order of its fields.
    pub fn operands(self) -> ReadSlots
        ensures { result ≡ operands_of self }
    {
        match self {
            Op::Zero { .. } => ReadSlots::none(),
            Op::MulAdd { a, b, acc } => ReadSlots::three(a, b, acc),
            Op::Add { a, b, .. } => ReadSlots::two(a, b),
            Op::Times { a, b, .. } => ReadSlots::two(a, b),
            Op::Transpose { a, .. } => ReadSlots::one(a),
            Op::ColumnSums { a, .. } => ReadSlots::one(a),
            Op::Cut { a, .. } => ReadSlots::one(a),
            Op::Place { a, .. } => ReadSlots::one(a),
            Op::MulVec { a, x, .. } => ReadSlots::two(a, x),
            Op::Prune { a, .. } => ReadSlots::one(a),
            Op::Copy { a, .. } => ReadSlots::one(a),
            Op::Clear { slot } => ReadSlots::one(slot),
            Op::Mask { a, m, .. } => ReadSlots::two(a, m),
        }
    }
}
