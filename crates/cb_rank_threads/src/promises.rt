//! What a rank's thread promises to leave.
ghost use Rattle.std.specs.Prelude.{◌≡◌, IfOk};
ghost use Rattle.cb_rank_runs.specs.Runs.{Runs};
ghost use Rattle.cb_rank_runs.specs.Told.{TellsProgram};

use cb_lanes::{Desk, Gone};
use cb_plan::SharedBlock;
use cb_rank::Rank;
use cb_rank_runs::Recorder;
use cb_semirings::Semiring;
use std::snapshot::Snapshot;
use std::thread::{Promise, PromisedHandle};

/// What the thread with this rank, desk and recorder promises: once it returns, the rank has run its program over the desk,
/// and the recorder was told of each event.
#[derive(Drop)]
pub(crate) struct RunOf<S: Semiring, T: Recorder> {
    pub(crate) rank: Snapshot<Rank<S>>,
    pub(crate) desk: Snapshot<Desk<SharedBlock<S>>>,
    pub(crate) recorder: Snapshot<T>,
}

impl<S: Semiring, T: Recorder> Promise<Result<(Rank<S>, Desk<SharedBlock<S>>, T), Gone>>
    for RunOf<S, T> {
    ghost kept_by = { λ p r. IfOk r (λ done. Runs S.arithmetic p.rank.value p.desk.value done.0 done.1
        × TellsProgram T.tells p.rank.value p.recorder.value done.2) };
}

/// The thread of a rank, not joined yet.
#[derive(Drop)]
pub(crate) struct Running<S: Semiring, T: Recorder> {
    pub(crate) rank: u16,
    pub(crate) thread: PromisedHandle<
        Result<(Rank<S>, Desk<SharedBlock<S>>, T), Gone>,
        RunOf<S, T>,
    >,
    ghost own: { rank ≡ thread.promise.desk.value.me },
}
