//! The lanes after all ranks have stopped.
ghost use Rattle.std.specs.Prelude.{ℕ, ◌≡◌, ◌<◌, length, slice_index_or};
ghost use Rattle.cb_lanes.specs.declared.desk.Desk.{Desk};

use crate::desk::Desk;

/// What was posted and taken on each lane: all desks, brought together by `settle`.
#[derive(Drop)]
pub struct Settled<P> {
    pub(crate) desks: Vec<Desk<P>>,
    ghost places: { (k : ℕ) (a : Desk P) → k < length desks.items → (slice_index_or desks.items k a).me ≡ k },
    ghost ranks: { (k : ℕ) (a : Desk P) → k < length desks.items → length (slice_index_or desks.items k a).outgoing.items ≡ length desks.items },
}

impl<P: Drop> Settled<P> {
    ghost use Rattle.cb_lanes.specs.Lanes.{posted_on, taken_on, IsLane};

    /// The number of letters posted on the lane from one rank to another, the close mark included.
    pub fn posted(&self, from: u16, to: u16) -> u64
        requires { IsLane self.now from to }
        ensures { result ≡ length (posted_on self.now from to) }
    {
        self.desks[from as usize].posted(to)
    }

    /// The number of letters taken on the lane from one rank to another, the close mark included.
    pub fn taken(&self, from: u16, to: u16) -> u64
        requires { IsLane self.now from to }
        ensures { result ≡ length (taken_on self.now from to) }
    {
        self.desks[to as usize].taken(from)
    }
}
