//! Why a plan that its ranks run has no result.
#![tactic(auto)]

ghost use Rattle.std.specs.Prelude.{◌≡◌, ◌<◌, length, get_or};
ghost use Rattle.cb_rank_faults.specs.declared.RanksFault.TheVariants.{Memory, Lost};

use std::alloc::AllocError;
use std::fmt;

/// Why a run of a plan by its ranks fails, in the order in which the reasons are checked. Each call says by a clause which of
/// them it may return.
#[derive(Clone, Copy, Debug, PartialEq, Eq)]
pub enum RanksFault {
    /// Memory was refused.
    Memory,
    /// The thread of this rank couldn't be started. It is the first such rank: those before it were started, and those
    /// after it weren't tried.
    NotStarted(u16),
    /// This rank found the rank at the other end of a lane gone. It is the least rank that did.
    Gone(u16),
    /// The trace doesn't match what the ranks recorded, or an event was refused.
    TraceTorn,
    /// A block of the answer is lost because this rank was refused memory, `refusals` times in all.
    Lost { rank: u16, refusals: u64 },
}

impl RanksFault {
    /// Returns the fault of a block that is lost at a rank. `refusals` says how often memory was refused to each rank.
    pub fn lost(rank: u16, refusals: &[u64]) -> RanksFault
        requires { rank < length refusals.now }
        ensures { result ≡ Lost rank (get_or refusals.now rank 0) }
    {
        RanksFault::Lost {
            rank,
            refusals: refusals[rank as usize],
        }
    }
}

impl From<AllocError> for RanksFault {
    ghost from_gives = { λ _ fault. fault ≡ Memory };

    fn from(_error: AllocError) -> RanksFault {
        RanksFault::Memory
    }
}

impl fmt::Display for RanksFault {
    ghost use Rattle.std.specs.Prelude.{Some};
    ghost use Rattle.cb_rank_faults.specs.RanksFaults.{ranks_fault_text};

    ghost output = { λ fault. Some (ranks_fault_text fault) };

    fn fmt<W: fmt::Write>(&self, f: &mut fmt::Formatter<W>) -> fmt::Result {
        match *self {
            RanksFault::Memory => f.write_str("out of memory"),
            RanksFault::NotStarted(rank) => write!(f, "rank {rank} not started"),
            RanksFault::Gone(rank) => write!(f, "rank {rank} gone"),
            RanksFault::TraceTorn => f.write_str("trace torn"),
            RanksFault::Lost { rank, .. } => write!(f, "lost at rank {rank}"),
        }
    }
}

impl std::error::Error for RanksFault {}
