//! Why a call of a process isn't done.
use cb_messages::MessageFault;
use cb_plan::PlanFault;
use cb_rank_driven::StepRefusal;
use std::alloc::AllocError;

/// Why a call of a process isn't done.
#[derive(Clone, Copy, PartialEq, Drop)]
pub enum ProcessFault {
    /// Another call is next.
    NotNow,
    /// The half doesn't wait for this letter, or what arrived is no letter.
    Stray,
    /// There is no such semiring, grid, rank, operation, register or vertex, the register has no matrix, or the process was freed.
    Absent,
    /// The text has a fault, or memory was refused while it was read.
    Text,
    /// The shapes of the operands don't agree, or the matrix of a graph isn't square.
    Shapes,
    /// The block was lost when memory was refused at this rank.
    Lost(u16),
    /// Memory was refused.
    Memory,
}

impl From<AllocError> for ProcessFault {
    ghost use Rattle.std.specs.Prelude.{◌≡◌};
    ghost use Rattle.cb_rank_process.specs.declared.faults.ProcessFault.TheVariants.{Memory};

    ghost from_gives = { λ _ fault. fault ≡ Memory };

    fn from(_error: AllocError) -> ProcessFault {
        ProcessFault::Memory
    }
}

impl From<StepRefusal> for ProcessFault {
    fn from(refusal: StepRefusal) -> ProcessFault {
        match refusal {
            StepRefusal::NotNow => ProcessFault::NotNow,
            StepRefusal::Stray => ProcessFault::Stray,
            StepRefusal::Memory => ProcessFault::Memory,
        }
    }
}

impl From<MessageFault> for ProcessFault {
    fn from(fault: MessageFault) -> ProcessFault {
        match fault {
            MessageFault::Broken => ProcessFault::Stray,
            MessageFault::Memory => ProcessFault::Memory,
        }
    }
}

impl From<PlanFault> for ProcessFault {
    ghost use Rattle.std.specs.Prelude.{◌≡◌};
    ghost use Rattle.cb_rank_process.specs.declared.faults.ProcessFault.TheVariants.{Memory};

    ghost from_gives = { λ _ fault. fault ≡ Memory };

    fn from(_fault: PlanFault) -> ProcessFault {
        ProcessFault::Memory
    }
}
