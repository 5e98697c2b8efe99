//! What goes between a crew and its workers.
ghost use Rattle.std.specs.Prelude.{List, Result, ◌≡◌, length, Some, IfOk};
ghost use Rattle.rtrb.specs.Ring.{received, known_items};
ghost use Rattle.cb_lanes.specs.declared.waiting.Gone.{Gone as GoneOf};
ghost use Rattle.cb_rank_runs.specs.Crews.{Member as MemberView, Ran};
ghost use Rattle.cb_rank_runs.specs.Runs.{IsNewRun};
ghost use Rattle.cb_rank_crews.specs.Rings.{taken_ring, last_item};

use cb_lanes::{Desk, Gone};
use cb_plan::SharedBlock;
use cb_rank::Rank;
use cb_rank_runs::Member;
use cb_semirings::Semiring;
use rtrb::Consumer;
use std::marker::{Brand, Model, PhantomData};

/// Says which ring is whose. It is picked where a crew is hired, so a caller passes `Brand`.
pub trait Naming {
    ghost use Rattle.std.specs.Prelude.{ℕ, Option};
    ghost use Rattle.cb_rank_crews.specs.Rings.{RingName};

    /// The ring of the worker with this number.
    ghost ring: { ℕ → Option RingName };
}

impl Naming for Brand {
    ghost use Rattle.std.specs.Prelude.{None};

    ghost ring = { λ _. None };
}

/// A new rank with its new desk, which a worker is to run.
#[derive(Drop)]
pub(crate) struct Errand<S: Semiring> {
    pub(crate) rank: Rank<S>,
    pub(crate) desk: Desk<SharedBlock<S>>,
}

impl<S: Semiring> Model for Errand<S> {
    ghost Value = { MemberView };

    ghost view = { λ e. (e.rank, e.desk) };

    ghost invariant = { λ e. IsNewRun e.rank e.desk };
}

/// The end of a worker's ring that takes errands out.
#[derive(Drop)]
pub(crate) struct Slip<S: Semiring, J: Naming> {
    pub(crate) number: u16,
    pub(crate) ring: Consumer<Errand<S>>,
    pub(crate) of: PhantomData<J>,
    ghost name: { J.ring number ≡ Some (taken_ring ring) },
}

/// A slip with one errand to take out.
#[derive(Drop)]
pub(crate) struct Request<S: Semiring, J: Naming> {
    pub(crate) slip: Slip<S, J>,
    ghost one: { length (known_items slip.ring) ≡ 1 },
}

/// A slip, and what is left of the errand that was taken out last.
#[derive(Drop)]
pub(crate) struct Answer<S: Semiring, J: Naming> {
    pub(crate) slip: Slip<S, J>,
    pub(crate) left: Result<Member<S>, Gone>,
}

impl<S: Semiring, J: Naming> Model for Answer<S, J> {
    ghost Value = { List MemberView × Result MemberView GoneOf };

    ghost view = { λ a. (received a.slip.ring, a.left) };

    ghost invariant = { λ a. (given : MemberView) → last_item (received a.slip.ring) ≡ Some given → IfOk a.left (Ran S.arithmetic given) };
}
