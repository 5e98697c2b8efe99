//! The numbers by which C says what it wants, and hears what was done.
use cb_rank::Want;
use cb_rank_process::ProcessFault;

/// The code of a call that is done.
pub(crate) const DONE: u32 = 0;

/// The code of a fault. The other codes are [`DONE`] and those of `cb_rank_process::ProcessFault`, in order.
pub(crate) fn code_of(fault: ProcessFault) -> u32 {
    match fault {
        ProcessFault::NotNow => 1,
        ProcessFault::Stray => 2,
        ProcessFault::Absent => 3,
        ProcessFault::Text => 4,
        ProcessFault::Shapes => 5,
        ProcessFault::Lost(_rank) => 6,
        ProcessFault::Memory => 7,
    }
}

/// The code of a call.
pub(crate) fn code(done: Result<(), ProcessFault>) -> u32 {
    match done {
        Ok(()) => DONE,
        Err(fault) => code_of(fault),
    }
}

/// The number of a half, and the rank at the other end of its lane, or 0.
pub(crate) fn number_of(want: Want) -> (u32, u16) {
    match want {
        Want::Done => (0, 0),
        Want::Post(to) => (1, to),
        Want::Take(from) => (2, from),
        Want::Work => (3, 0),
        Want::Shut(to) => (4, to),
        Want::End(from) => (5, from),
    }
}
