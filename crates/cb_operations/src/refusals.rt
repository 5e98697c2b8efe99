//! Why an operation on matrices or graphs, or a selection, has no result.
ghost use Rattle.std.specs.Prelude.{◌≡◌};
ghost use Rattle.cb_operations.specs.RefusalTexts.{refusal_text};

use std::alloc::AllocError;
use std::fmt;
use thiserror::Error;

/// Why an operation, a selection or a task on a graph is refused, whatever computes it. Each has a definition that says which of
/// them it is refused for.
#[derive(Clone, Copy, Debug, PartialEq, Eq)]
pub enum Refusal {
    /// The shapes of the operands don't agree.
    Shapes,
    /// A number that the function takes isn't a value of the semiring.
    NoValue,
    /// The matrix must have exactly one column.
    NotColumn,
    /// The matrix must be square.
    NotSquare,
    /// The source isn't a vertex of the graph.
    Source,
    /// The Kronecker product has more rows or columns than a matrix may have.
    TooLarge,
    /// The part ends beyond the matrix, or a range of it descends.
    Place,
    /// A list names a row that the matrix doesn't have, or has a place without a number.
    NoRow,
    /// A list names a column that the matrix doesn't have, or has a place without a number.
    NoColumn,
}

impl Refusal {
    /// Returns the reason in words.
    pub fn text(&self) -> &'static str
        ensures { result.now ≡ refusal_text self.now }
    {
        match self {
            Refusal::Shapes => "shapes don't agree",
            Refusal::NoValue => "no value of the semiring",
            Refusal::NotColumn => "matrix not a column",
            Refusal::NotSquare => "matrix not square",
            Refusal::Source => "no such source",
            Refusal::TooLarge => "product too large",
            Refusal::Place => "part ends beyond the matrix",
            Refusal::NoRow => "no such row",
            Refusal::NoColumn => "no such column",
        }
    }
}

impl fmt::Display for Refusal {
    fn fmt<W: fmt::Write>(&self, f: &mut fmt::Formatter<W>) -> fmt::Result {
        f.write_str(self.text())
    }
}

impl std::error::Error for Refusal {}

/// Why blocks have no result on one thread. The reasons are checked in this order.
#[derive(Clone, Copy, Debug, PartialEq, Eq, Error)]
pub enum ComputeFault {
    /// What is asked for is refused, whatever would compute it.
    #[error("{0}")]
    Refused(Refusal),
    /// Memory was refused.
    #[error("out of memory")]
    Memory,
}

impl From<AllocError> for ComputeFault {
    ghost use Rattle.cb_operations.specs.declared.refusals.ComputeFault.TheVariants.{Memory};

    ghost from_gives = { λ _ fault. fault ≡ Memory };

    fn from(_error: AllocError) -> ComputeFault {
        ComputeFault::Memory
    }
}

impl From<Refusal> for ComputeFault {
    ghost use Rattle.cb_operations.specs.declared.refusals.ComputeFault.TheVariants.{Refused};

    ghost from_gives = { λ refusal fault. fault ≡ Refused refusal };

    fn from(refusal: Refusal) -> ComputeFault {
        ComputeFault::Refused(refusal)
    }
}
