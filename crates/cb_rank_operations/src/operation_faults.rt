//! Why an operation fails.
ghost use Rattle.std.specs.Prelude.{◌≡◌};
ghost use Rattle.cb_rank_faults.specs.declared.RanksFault.TheVariants.{Memory};
ghost use Rattle.cb_rank_operations.specs.declared.operation_faults.OperationFault.TheVariants.{Failed};

use cb_operations::Refusal;
use cb_rank_faults::RanksFault;
use std::alloc::AllocError;
use thiserror::Error;

/// Why an operation fails. The reasons are checked in this order.
#[derive(Clone, Copy, Debug, PartialEq, Eq, Error)]
pub enum OperationFault {
    /// The operation is refused, whatever the engine.
    #[error("{0}")]
    Refused(Refusal),
    /// The engine fails.
    #[error("{0}")]
    Failed(RanksFault),
}

impl From<RanksFault> for OperationFault {
    ghost from_gives = { λ engine fault. fault ≡ Failed engine };

    fn from(fault: RanksFault) -> OperationFault {
        OperationFault::Failed(fault)
    }
}

impl From<Refusal> for OperationFault {
    ghost use Rattle.cb_rank_operations.specs.declared.operation_faults.OperationFault.TheVariants.{Refused};

    ghost from_gives = { λ refusal fault. fault ≡ Refused refusal };

    fn from(refusal: Refusal) -> OperationFault {
        OperationFault::Refused(refusal)
    }
}

impl From<AllocError> for OperationFault {
    ghost from_gives = { λ _ fault. fault ≡ Failed Memory };

    fn from(_error: AllocError) -> OperationFault {
        OperationFault::Failed(RanksFault::Memory)
    }
}
