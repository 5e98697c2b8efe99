//! What is called before each half of a rank's program, and after each event that it records.
use cb_rank::Rank;
use cb_semirings::Semiring;

/// An observer of ranks, called by each rank's thread. It may look, count and wait, but can't change the rank.
pub trait Observer<S: Semiring>: Sync {
    /// Called before each half, with the rank as it is then; and once before halves that are done at once.
    fn observe(&self, rank: u16, state: &Rank<S>);

    /// Whether each half is done by itself, as by default. Otherwise several halves that add products to the same slot may be
    /// done at once, which costs less ([`Rank::work_all`]).
    fn parts_halves(&self) -> bool {
        true
    }

    /// Called in a traced run once the rank has recorded an event, with the event's place in the trace, from 0. It does
    /// nothing by default.
    fn recorded(&self, _rank: u16, _place: usize) {}
}

/// An observer that does nothing.
#[derive(Clone, Copy, Debug, PartialEq, Eq, Drop)]
pub struct NoObserver;

impl<S: Semiring> Observer<S> for NoObserver {
    fn observe(&self, _rank: u16, _state: &Rank<S>) {}

    fn parts_halves(&self) -> bool {
        false
    }
}
