//! What a rank waits for, what it is given, and what it reports.
use cb_letters::Letter;

/// The next half of a rank's program, by its kind and the rank at the lane's other end.
#[derive(Clone, Copy, PartialEq, Eq, Drop)]
pub enum Want {
    /// It posts a letter to this rank.
    Post(u16),
    /// It takes a letter from this rank.
    Take(u16),
    /// It does an operation.
    Work,
    /// It closes the lane to this rank.
    Shut(u16),
    /// It takes the close mark of the lane from this rank.
    End(u16),
    /// Every half is done.
    Done,
}

/// Whether a half is granted memory. If not, a copy of a sheet fails as if there were no memory, and so does an operation
/// that needs memory and has no lost operand.
#[derive(Clone, Copy, PartialEq, Eq, Drop)]
pub enum Supply {
    Granted,
    Refused,
}

/// What arrived on a lane.
#[derive(Drop)]
pub enum Arrival<P> {
    /// A letter.
    Letter(Letter<P>),
    /// The close mark of the lane from this rank.
    End(u16),
}

/// Something arrived that the rank doesn't wait for.
#[derive(Drop)]
pub struct Stray<P>(pub Arrival<P>);

/// What a step did.
#[derive(Clone, Copy, PartialEq, Eq, Drop)]
pub enum Moved {
    /// It posted a letter.
    Posted,
    /// It took a letter.
    Took,
    /// It did an operation.
    Worked,
    /// It closed a lane.
    Closed,
    /// It took a close mark.
    Drained,
    /// Nothing: there is no room for its letter, or no letter has arrived.
    Waiting,
    /// Nothing: every half is done.
    Idle,
}
