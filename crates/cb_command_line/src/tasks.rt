//! What a command line asks to compute.
ghost use Rattle.std.specs.Prelude.{◌≡◌};
ghost use Rattle.cb_command_line.specs.Jobs.{is_distributive};

use crate::lists::Lists;
use cb_operations::{Computation, GraphTask};
use cb_semirings::SemiringName;

/// What is computed from the files. Tasks on matrices have a crate that does them, and a small program; so have those on graphs.
#[derive(Clone, Copy, PartialEq, Eq)]
pub enum Task {
    /// What is computed of the files' matrices, over a semiring.
    Compute(Computation, SemiringName),
    /// The listed rows and columns of the first file's matrix, over a semiring. The other files have the lists.
    Extract(Lists, SemiringName),
    /// A task on the graph of the first file's matrix, which is read over the semiring of the task. The second file, if there is
    /// one, lists sources, or has initial values and is read in min-plus.
    Graph(GraphTask),
}

/// Whether a semiring is one in the sense of algebra, whose product distributes over its sum.
pub fn is_distributive(semiring: SemiringName) -> bool
    ensures { result ≡ is_distributive semiring }
{
    match semiring {
        SemiringName::PlusTimes => true,
        SemiringName::MinPlus => true,
        SemiringName::OrAnd => true,
        SemiringName::MaxMin => true,
        _ => false,
    }
}

/// Calls a function over the distributive semiring with a name, as [`over_semiring`](cb_semirings::over_semiring) does over any. A
/// program that needs no others is compiled in less than half the time.
#[macro_export]
macro_rules! over_distributive {
    ($name:expr, $call:ident::<_ $(, $other:ty)*>($($argument:expr),* $(,)?)) => {
        match $name {
            cb_semirings::SemiringName::PlusTimes => $call::<cb_semirings::PlusTimes $(, $other)*>($($argument),*),
            cb_semirings::SemiringName::MinPlus => $call::<cb_semirings::MinPlus $(, $other)*>($($argument),*),
            cb_semirings::SemiringName::OrAnd => $call::<cb_semirings::OrAnd $(, $other)*>($($argument),*),
            cb_semirings::SemiringName::MaxMin => $call::<cb_semirings::MaxMin $(, $other)*>($($argument),*),
            _ => unreachable!(),
        }
    };
}
