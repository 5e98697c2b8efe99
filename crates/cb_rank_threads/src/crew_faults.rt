//! Why not all threads of a crew did their ranks' programs.
ghost use Rattle.std.specs.Prelude.{◌≡◌};
ghost use Rattle.cb_rank_threads.specs.ThreadFaults.{told_as};

use crate::rank_threads::{LeftAlone, NoThread};
use cb_rank_faults::RanksFault;

/// Why not all ranks of a crew ran. A crew takes no memory, so lack of it isn't among the reasons.
#[derive(Drop)]
pub(crate) enum CrewFault {
    NotStarted(NoThread),
    Gone(LeftAlone),
}

impl From<CrewFault> for RanksFault {
    ghost from_gives = { λ crew_fault fault. fault ≡ told_as crew_fault };

    fn from(fault: CrewFault) -> RanksFault {
        match fault {
            CrewFault::NotStarted(none) => RanksFault::NotStarted(none.rank()),
            CrewFault::Gone(alone) => RanksFault::Gone(alone.rank()),
        }
    }
}
