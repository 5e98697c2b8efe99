//! The thread of one rank: how it is started, and what comes back when it is joined. Only these calls say that a rank has
//! no thread, or that it was left alone.
ghost use denote.Param.Send.{IsSend};
ghost use Rattle.std.specs.Prelude.{◌≡◌, IfOk, IfErr};
ghost use Rattle.std.specs.Thread.{IsSync};
ghost use Rattle.cb_rank_runs.specs.Crews.{Ran};
ghost use Rattle.cb_rank_runs.specs.Runs.{IsNewRun};
ghost use Rattle.cb_rank_runs.specs.Told.{TellsProgram};
ghost use Rattle.cb_rank_threads.specs.Started.{started, started_recorder};

use crate::promises::{RunOf, Running};
use cb_lanes::{Desk, Gone};
use cb_plan::SharedBlock;
use cb_rank::Rank;
use cb_rank_runs::{Member, Observer, Recorder, run_recorded};
use cb_semirings::Semiring;
use std::snapshot::Snapshot;
use std::sync::Wait;
use std::thread::{Scope, Threads};

/// No thread could be started for this rank.
#[derive(Drop)]
pub(crate) struct NoThread {
    rank: u16,
}

impl NoThread {
    pub(crate) fn rank(&self) -> u16
        ensures { result ≡ self.now.rank }
    {
        self.rank
    }
}

/// This rank found the rank at the other end of a lane gone.
#[derive(Drop)]
pub(crate) struct LeftAlone {
    rank: u16,
}

impl LeftAlone {
    pub(crate) fn rank(&self) -> u16
        ensures { result ≡ self.now.rank }
    {
        self.rank
    }
}

/// Tells a proof that values of a type may go to other threads.
#[inline(always)]
fn may_be_sent<T: Send>()
    ensures { IsSend T.row }
{}

/// Starts a thread for one rank. If no thread can be started, the rank and its desk are dropped.
pub(crate) fn start<
    's,
    E,
    S: Semiring + Send + Sync + 's,
    R: Threads + Wait + Sync,
    O: Observer<S>,
    T: Recorder + 's,
>(
    scope: &Scope<'s, E>,
    rt: &'s R,
    rank: Rank<S>,
    desk: Desk<SharedBlock<S>>,
    recorder: T,
    observer: &'s O,
) -> Result<Running<S, T>, NoThread>
    requires { IsNewRun rank desk }
    ensures started { IfOk result (λ running. (started running ≡ (rank, desk)) × (started_recorder running ≡ recorder)) }
    ensures none { IfErr result (λ none. none.rank ≡ desk.me) }
{
    // The prover finds this for each of them, but not for all at once.
    may_be_sent::<SharedBlock<S>>();
    may_be_sent::<Rank<S>>();
    may_be_sent::<Desk<SharedBlock<S>>>();
    let number = desk.rank();
    let promise = RunOf {
        rank: Snapshot::of(&rank),
        desk: Snapshot::of(&desk),
        recorder: Snapshot::of(&recorder),
    };
    let started = scope.spawn_with(
        promise,
        move || -> Result<(Rank<S>, Desk<SharedBlock<S>>, T), Gone>
            requires { IsSync R.row × IsNewRun rank desk }
        { run_recorded(rt, rank, desk, observer, recorder) },
    );
    let Ok(thread) = started else {
        return Err(NoThread { rank: number });
    };
    Ok(Running {
        rank: number,
        thread,
    })
}

/// Waits for a thread to end, and takes what its rank left.
pub(crate) fn join<S: Semiring, R: Threads, T: Recorder>(
    rt: &R,
    running: Running<S, T>,
) -> Result<(Member<S>, T), LeftAlone>
    ensures ran { IfOk result (λ done. Ran S.arithmetic (started running) done.0) }
    ensures told { IfOk result (λ done. TellsProgram T.tells (started running).0 (started_recorder running) done.1) }
    ensures gone { IfErr result (λ alone. alone.rank ≡ (started running).1.me) }
{
    let Running { rank, thread } = running;
    match thread.join(rt) {
        Ok((done, desk, recorder)) => Ok(((done, desk), recorder)),
        Err(_) => Err(LeftAlone { rank }),
    }
}
