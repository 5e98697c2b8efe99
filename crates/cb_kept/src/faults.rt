//! Why a call fails.
ghost use Rattle.std.specs.Prelude.{◌≡◌, ◌≢◌};
ghost use Rattle.cb_kept.specs.Refusals.{code_of};

use cb_operations::{ComputeFault, Refusal};
use std::alloc::AllocError;

/// Why a call fails. A call looks for faults in the order of these variants. `Memory` comes last.
#[derive(Clone, Copy)]
pub enum Fault {
    /// No semiring has the number.
    Semiring,
    /// No operation, selection, update or task on a graph has the number, or a power has no factors.
    Test,
    /// Kept matrices are over different semirings, or a graph isn't over the semiring of the call.
    Mixed,
    /// The kind of a matrix, or the width of its starts, is above 1.
    Form,
    /// There are more than 2,147,483,647 rows, columns or sources.
    TooLarge,
    /// The lengths of a matrix's lists don't agree with one another or with its starts.
    Lengths,
    /// Starts descend, or columns, or the rows of a column, don't ascend strictly.
    Order,
    /// A column or a row is outside the shape.
    Place,
    /// A number isn't a value of the semiring.
    Value,
    /// The shapes of the operands don't agree.
    Shapes,
    /// The matrix of a diagonal has not exactly one column.
    NotColumn,
    /// The matrix of a graph or of a power isn't square.
    NotSquare,
    /// The graph has no such vertex.
    Source,
    /// A text isn't a Matrix Market text of the profile.
    Text,
    /// Memory was refused.
    Memory,
}

impl From<AllocError> for Fault {
    ghost use Rattle.cb_kept.specs.declared.faults.Fault.TheVariants.{Memory};

    ghost from_gives = { λ _ fault. fault ≡ Memory };

    fn from(_error: AllocError) -> Fault {
        Fault::Memory
    }
}

impl From<Refusal> for Fault {
    ghost use Rattle.cb_kept.specs.Refusals.{refused_as};

    ghost from_gives = { λ refusal fault. fault ≡ refused_as refusal };

    fn from(refusal: Refusal) -> Fault {
        match refusal {
            Refusal::Shapes => Fault::Shapes,
            Refusal::NoValue => Fault::Value,
            Refusal::NotColumn => Fault::NotColumn,
            Refusal::NotSquare => Fault::NotSquare,
            Refusal::Source => Fault::Source,
            Refusal::TooLarge => Fault::TooLarge,
            Refusal::Place => Fault::Place,
            Refusal::NoRow => Fault::Place,
            Refusal::NoColumn => Fault::Place,
        }
    }
}

impl From<ComputeFault> for Fault {
    ghost use Rattle.cb_kept.specs.Refusals.{uncomputed_as};

    ghost from_gives = { λ fault made. made ≡ uncomputed_as fault };

    fn from(fault: ComputeFault) -> Fault {
        match fault {
            ComputeFault::Refused(refusal) => refusal.into(),
            ComputeFault::Memory => Fault::Memory,
        }
    }
}

impl Fault {
    /// Returns the number of the fault in C, which is never 0.
    pub fn code(self) -> u32
        ensures code { result ≡ code_of self }
        ensures fault { result ≢ 0 }
    {
        match self {
            Fault::Semiring => 1,
            Fault::Test => 2,
            Fault::Mixed => 3,
            Fault::Form => 4,
            Fault::TooLarge => 5,
            Fault::Lengths => 6,
            Fault::Order => 7,
            Fault::Place => 8,
            Fault::Value => 9,
            Fault::Shapes => 10,
            Fault::NotSquare => 11,
            Fault::Source => 12,
            Fault::Text => 13,
            Fault::Memory => 14,
            Fault::NotColumn => 16,
        }
    }
}
