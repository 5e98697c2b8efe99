//! What the ranks of a plan leave once all have run.
ghost use Rattle.std.specs.Prelude.{◌≡◌, ◌≢◌, ◌<◌, ◌^◌, length, sum};
ghost use Rattle.cb_lanes.specs.Lanes.{rank_count};

use crate::crew::Member;
use cb_lanes::{Desk, Settled, settle};
use cb_plan::{RankStore, SharedBlock};
use cb_semirings::Semiring;
use std::alloc::{AllocError, Global};

/// The store that each rank of a plan left, how often each was refused memory, and the lanes between the ranks.
#[derive(Drop)]
pub struct Finished<S: Semiring> {
    pub(crate) stores: Vec<RankStore<S>>,
    pub(crate) refusals: Vec<u64>,
    pub(crate) lanes: Settled<SharedBlock<S>>,
    ghost ranks: { (length refusals.items ≡ length stores.items) × (rank_count lanes ≡ length stores.items) },
    ghost fits: { sum refusals.items < 2 ^ 64 },
}

impl<S: Semiring> Finished<S> {
    ghost use Rattle.cb_rank_runs.specs.Finished.{all_refusals, IsLaneOf};
    ghost use Rattle.cb_rank_runs.specs.Views.{finished_view};

    /// The store of each rank, and how often each was refused memory, in the order of the ranks.
    pub fn into_parts(self) -> (Vec<RankStore<S>>, Vec<u64>)
        ensures stores { result.0.items ≡ (finished_view self).stores }
        ensures refusals { result.1.items ≡ (finished_view self).refusals }
    {
        (self.stores, self.refusals)
    }

    /// The number of times that memory was refused, over all ranks. If it is 0, no slot is lost.
    pub fn refusals(&self) -> u64
        ensures { result ≡ all_refusals (finished_view self.now) }
    {
        self.refusals.iter().sum()
    }

    /// The number of letters posted on the lane from one rank to another, the close mark included.
    pub fn posted(&self, from: u16, to: u16) -> u64
        requires { IsLaneOf (finished_view self.now) from to }
        ensures { result ≡ length ((finished_view self.now).posted from to) }
    {
        self.lanes.posted(from, to)
    }

    /// The number of letters taken on the lane from one rank to another, the close mark included.
    pub fn taken(&self, from: u16, to: u16) -> u64
        requires { IsLaneOf (finished_view self.now) from to }
        ensures { result ≡ length ((finished_view self.now).taken from to) }
    {
        self.lanes.taken(from, to)
    }
}

/// What ranks leave, in order: their stores, their counts of refusals, and their desks.
#[derive(Drop)]
pub struct Remains<S: Semiring> {
    pub(crate) stores: Vec<RankStore<S>>,
    pub(crate) refusals: Vec<u64>,
    pub(crate) desks: Vec<Desk<SharedBlock<S>>>,
}

impl<S: Semiring> Remains<S> {
    ghost use Rattle.std.specs.Prelude.{map, IfOk, vec_len};
    ghost use Rattle.cb_lanes.specs.Desks.{identity, AreOfOneOpening};
    ghost use Rattle.cb_rank_runs.specs.Crews.{desks_of, stores_of, counts_of};
    ghost use Rattle.cb_rank_runs.specs.Remains.{AreNone, HaveRoom, IsLeftBy};
    ghost use Rattle.cb_rank_runs.specs.Views.{finished_view};

    /// Empty lists, with room for this many ranks.
    pub fn with_room(alloc: Global, ranks: usize) -> Result<Remains<S>, AllocError>
        ensures none { IfOk result (λ remains. AreNone remains) }
        ensures room { IfOk result (λ remains. HaveRoom remains ranks) }
    {
        Ok(Remains {
            stores: Vec::with_capacity(alloc, ranks)?,
            refusals: Vec::with_capacity(alloc, ranks)?,
            desks: Vec::with_capacity(alloc, ranks)?,
        })
    }

    /// Takes what the ranks of a crew left, and compares both ends of each of their lanes. It takes no memory, since there
    /// must be room.
    pub fn finish(self, crew: Vec<Member<S>>) -> Finished<S>
        requires none { AreNone self }
        requires room { HaveRoom self (vec_len crew) }
        requires opening { AreOfOneOpening (map identity (desks_of crew.items)) }
        requires few { sum (counts_of crew.items) < 2 ^ 64 }
        ensures { IsLeftBy crew.items (finished_view result) }
    {
        let Remains {
            stores,
            refusals,
            desks,
        } = self.take_from(crew);
        let lanes = settle(desks);
        Finished {
            stores,
            refusals,
            lanes,
        }
    }

    /// Takes what these ranks leave. There must be room for it.
    fn take_from(self, crew: Vec<Member<S>>) -> Remains<S>
        requires none { AreNone self }
        requires room { HaveRoom self (vec_len crew) }
        ensures stores { result.stores.items ≡ stores_of crew.items }
        ensures refusals { result.refusals.items ≡ counts_of crew.items }
        ensures desks { result.desks.items ≡ desks_of crew.items }
    {
        let Remains {
            mut stores,
            mut refusals,
            mut desks,
        } = self;
        for (rank, desk) in crew {
            refusals.push_reserved(rank.refusals());
            stores.push_reserved(rank.into_store());
            desks.push_reserved(desk);
        }
        Remains {
            stores,
            refusals,
            desks,
        }
    }
}
