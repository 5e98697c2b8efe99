//! What ranks do: operations on their own slots, and acts between two ranks.
use cb_letters::Tag;
use cb_matrix::{Shape, Test};

/// An operation on the slots of one rank. Its operands are read before its slot is set, so it may name one slot twice.
#[derive(Clone, Copy, Drop)]
pub enum Op {
    /// The block of a shape without entries.
    Zero {
        into: u16,
        shape: Shape,
    },
    /// The product of `a` (m by k) and `b` (k by n), added to `acc` (m by n).
    MulAdd {
        a: u16,
        b: u16,
        acc: u16,
    },
    /// The sum at each place of two blocks of one shape.
    Add {
        a: u16,
        b: u16,
        into: u16,
    },
    /// The product at each place of two blocks of one shape.
    Times {
        a: u16,
        b: u16,
        into: u16,
    },
    /// Rows and columns exchanged.
    Transpose {
        a: u16,
        into: u16,
    },
    /// The sum of each column, in a block of one row.
    ColumnSums {
        a: u16,
        into: u16,
    },
    /// The part of `a` in a range of rows and of columns, each from the first number up to the second, which is excluded.
    Cut {
        a: u16,
        rows: (u32, u32),
        cols: (u32, u32),
        into: u16,
    },
    /// `a` inside a larger shape, with its row 0 and column 0 at this row and column of that shape.
    Place {
        a: u16,
        shape: Shape,
        at: (u32, u32),
        into: u16,
    },
    /// The product of `a` (m by n) and the vector `x` (n by 1).
    MulVec {
        a: u16,
        x: u16,
        into: u16,
    },
    /// `a` without the entries whose value passes the test.
    Prune {
        a: u16,
        test: Test,
        into: u16,
    },
    /// A copy.
    Copy {
        a: u16,
        into: u16,
    },
    /// Empties the slot, which must be filled.
    Clear {
        slot: u16,
    },
    /// The entries of `a` at the places where `m`, of the same shape, has entries.
    Mask {
        a: u16,
        m: u16,
        into: u16,
    },
}

impl Op {
    ghost use Rattle.std.specs.Prelude.{◌≡◌};
    ghost use Rattle.cb_plan.specs.Meaning.{target_of};

    /// The slot that the operation sets.
    pub fn target(self) -> u16
        ensures { result ≡ target_of self }
    {
        match self {
            Op::MulAdd { acc, .. } => acc,
            Op::Clear { slot } => slot,
            Op::Zero { into, .. } => into,
            Op::Add { into, .. } => into,
            Op::Times { into, .. } => into,
            Op::Transpose { into, .. } => into,
            Op::ColumnSums { into, .. } => into,
            Op::Cut { into, .. } => into,
            Op::Place { into, .. } => into,
            Op::MulVec { into, .. } => into,
            Op::Prune { into, .. } => into,
            Op::Copy { into, .. } => into,
            Op::Mask { into, .. } => into,
        }
    }
}

/// One act of a plan.
#[derive(Clone, Copy, Drop)]
pub enum Act {
    /// Rank `from` sends a copy of its slot `slot` to slot `into` of rank `to`, in a letter with this tag.
    Move {
        from: u16,
        to: u16,
        tag: Tag,
        slot: u16,
        into: u16,
    },
    /// A rank does an operation.
    Work {
        rank: u16,
        op: Op,
    },
    /// The lane from one rank to another is closed.
    Shut {
        from: u16,
        to: u16,
    },
}

/// What one rank does for an act.
#[derive(Clone, Copy, Drop)]
pub enum Half {
    /// It posts a copy of a slot.
    Post {
        to: u16,
        tag: Tag,
        slot: u16,
    },
    /// It takes a letter into a slot; the sheet has this shape.
    Take {
        from: u16,
        tag: Tag,
        into: u16,
        shape: Shape,
    },
    /// It does an operation.
    Work(Op),
    /// It closes the lane to a rank.
    Shut {
        to: u16,
    },
    /// It takes the close mark of the lane from a rank.
    End {
        from: u16,
    },
}

/// A slot that has a block of this shape before the first act.
#[derive(Clone, Copy, Drop)]
pub struct Start {
    pub rank: u16,
    pub slot: u16,
    pub shape: Shape,
}
