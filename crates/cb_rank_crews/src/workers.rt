//! One worker: what its thread does, and the crew's end of it.
ghost use Rattle.std.specs.Prelude.{◌≡◌, Some, IfOk, IfErr, IfSome};
ghost use Rattle.rtrb.specs.Ring.{sent, received};
ghost use Rattle.cb_rank_runs.specs.Crews.{Member as MemberView, Ran};
ghost use Rattle.cb_rank_runs.specs.Runs.{IsNewRun};
ghost use Rattle.std.specs.Option.{option_map};
ghost use Rattle.cb_rank_crews.specs.Backs.{BackView, was_given};
ghost use Rattle.cb_rank_crews.specs.Rings.{put_ring, last_item};

use crate::lines::{Receiver, Sender};
use crate::messages::{Answer, Errand, Naming, Request, Slip};
use cb_lanes::Desk;
use cb_plan::SharedBlock;
use cb_rank::Rank;
use cb_rank_runs::{Member, Observer, run_rank};
use cb_semirings::Semiring;
use rtrb::Producer;
use std::marker::Model;
use std::snapshot::Snapshot;
use std::sync::Wait;
use std::thread::Threads;

/// The crew's ends of the lines to a worker and from it, and of the worker's ring.
#[derive(Drop)]
pub(crate) struct Worker<S: Semiring, J: Naming> {
    pub(crate) number: u16,
    pub(crate) errands: Producer<Errand<S>>,
    pub(crate) requests: Sender<Request<S, J>>,
    pub(crate) answers: Receiver<Answer<S, J>>,
    ghost name: { J.ring number ≡ Some (put_ring errands) },
}

/// A worker without an errand. Its slip is here.
#[derive(Drop)]
pub(crate) struct Idle<S: Semiring, J: Naming> {
    pub(crate) worker: Worker<S, J>,
    pub(crate) slip: Slip<S, J>,
    ghost same: { slip.number ≡ worker.number },
    ghost none_left: { received slip.ring ≡ sent worker.errands },
}

/// A worker with this errand, which is a rank of this number.
#[derive(Drop)]
pub(crate) struct Busy<S: Semiring, J: Naming> {
    worker: Worker<S, J>,
    rank: u16,
    pub(crate) errand: Snapshot<Errand<S>>,
    ghost own: { rank ≡ errand.value.1.me },
    ghost last: { last_item (sent worker.errands) ≡ Some errand.value },
}

impl<S: Semiring, J: Naming> Idle<S, J> {
    /// Gives the worker a rank to run over its desk. The error is the number of the rank, which is dropped.
    pub(crate) fn give(self, rank: Rank<S>, desk: Desk<SharedBlock<S>>) -> Result<Busy<S, J>, u16>
        requires { IsNewRun rank desk }
        ensures given { IfOk result (λ busy. busy.errand.value ≡ (rank, desk)) }
        ensures lost { IfErr result (λ number. number ≡ desk.me) }
    {
        let Idle {
            mut worker,
            mut slip,
        } = self;
        let number = desk.rank();
        let errand = Errand { rank, desk };
        let given = Snapshot::of(&errand);
        let Ok(()) = worker.errands.push(errand) else {
            return Err(number);
        };
        slip.ring.slots_beside(&mut worker.errands);
        let Ok(()) = worker.requests.send(Request { slip }) else {
            return Err(number);
        };
        Ok(Busy {
            worker,
            rank: number,
            errand: given,
        })
    }
}

/// What came back of a worker with this errand: the worker without one, and the rank and its desk as they were left. Or the
/// number of the rank, if nothing is left of it. Only [`Busy::wait`] makes it.
#[derive(Drop)]
pub(crate) struct Back<S: Semiring, J: Naming> {
    rank: u16,
    left: Option<(Idle<S, J>, Member<S>)>,
    errand: Snapshot<Errand<S>>,
}

impl<S: Semiring, J: Naming> Model for Back<S, J> {
    ghost Value = { BackView };

    ghost view = { λ b. (b.errand.value, option_map (λ done. done.1) b.left) };

    ghost invariant = { λ b. IfSome b.left (λ done. Ran S.arithmetic b.errand.value done.1) × (b.rank ≡ b.errand.value.1.me) };
}

impl<S: Semiring, J: Naming> Back<S, J> {
    /// The worker and what is left of its rank, or the number of the rank.
    pub(crate) fn into_left(self) -> Result<(Idle<S, J>, Member<S>), u16>
        ensures ran { IfOk result (λ done. Ran S.arithmetic (was_given self) done.1) }
        ensures gone { IfErr result (λ number. number ≡ (was_given self).1.me) }
    {
        let Back {
            rank,
            left,
            errand: _,
        } = self;
        left.ok_or(rank)
    }
}

impl<S: Semiring, J: Naming> Busy<S, J> {
    /// Waits for what is left of the rank and its desk.
    pub(crate) fn wait<R: Wait>(self, rt: &R) -> Back<S, J>
        ensures { was_given result ≡ self.errand.value }
    {
        let Busy {
            worker,
            rank,
            errand,
        } = self;
        Back {
            rank,
            left: worker.wait(rt),
            errand,
        }
    }
}

impl<S: Semiring, J: Naming> Worker<S, J> {
    /// Waits for what is left of the errand that was put in last, if anything is.
    fn wait<R: Wait>(self, rt: &R) -> Option<(Idle<S, J>, Member<S>)>
        ensures { IfSome result (λ done. (given : MemberView) → last_item (sent self.errands) ≡ Some given → Ran S.arithmetic given done.1) }
    {
        let mut worker = self;
        let Some(answer) = worker.answers.receive(rt) else {
            return None;
        };
        let Answer { mut slip, left } = answer;
        if slip.number != worker.number || slip.ring.slots_beside(&mut worker.errands) != 0 {
            return None;
        }
        let Ok(member) = left else {
            return None;
        };
        Some((Idle { worker, slip }, member))
    }
}

/// What a worker's thread does: one request after the other, until the crew is gone.
pub(crate) fn serve<S: Semiring + Send + Sync, J: Naming, R: Threads + Wait + Sync, O: Observer<S>>(
    rt: &R,
    requests: Receiver<Request<S, J>>,
    answers: Sender<Answer<S, J>>,
    observer: &O,
) {
    let mut requests = requests;
    let mut answers = answers;
    for _ in rt.forever() {
        let Some(Request { mut slip }) = requests.receive(rt) else {
            return;
        };
        let Errand { rank, desk } = slip.ring.pop_known();
        let left = run_rank(rt, rank, desk, observer);
        let Ok(()) = answers.send(Answer { slip, left }) else {
            return;
        };
    }
}
