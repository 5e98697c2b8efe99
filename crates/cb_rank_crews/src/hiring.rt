//! The rings of a crew, and how its threads are started.
ghost use Rattle.std.specs.Prelude.{ℕ, ◌≡◌, ◌<◌, ◌^◌, List, [], length, slice_get, Some, IfOk, IfErr};
ghost use Rattle.rtrb.specs.Ring.{sent, received, IsPair};
ghost use Rattle.cb_rank_runs.specs.NamedRanks.{IsFaultOf};
ghost use Rattle.cb_rank_crews.specs.Crews.{size};
ghost use Rattle.cb_rank_crews.specs.Rings.{RingName, put_ring, names_of, AreNewRings};

use crate::crew::Crew;
use crate::lines::line;
use crate::messages::{Errand, Naming, Slip};
use crate::workers::{Idle, Worker, serve};
use cb_rank_faults::RanksFault;
use cb_rank_runs::Observer;
use cb_semirings::Semiring;
use rtrb::{Consumer, Producer, RingBuffer};
use std::alloc::{AllocError, Global};
use std::marker::{Model, PhantomData};
use std::sync::Wait;
use std::thread::{Scope, Threads};

/// The rings of a crew to be, one for each worker. A contract sees their names.
#[derive(Drop)]
pub struct Rings<S: Semiring> {
    ends: Vec<(Producer<Errand<S>>, Consumer<Errand<S>>)>,
}

impl<S: Semiring> Model for Rings<S> {
    ghost Value = { List RingName };

    ghost view = { λ r. names_of r.ends.items };

    ghost invariant = { λ r. AreNewRings r.ends.items × (length r.ends.items < 2 ^ 16) };
}

impl<S: Semiring> Rings<S> {
    /// Rings for so many workers, with a place for one rank each.
    pub fn open(alloc: Global, workers: u16) -> Result<Rings<S>, AllocError>
        ensures { IfOk result (λ rings. length rings ≡ workers) }
    {
        let mut ends = Vec::new(alloc);
        for _ in 0..workers {
            ends.push(RingBuffer::new(alloc, 1)?)?;
        }
        Ok(Rings { ends })
    }
}

/// Starts a thread for each ring, in order, and returns the crew. Before each half of a rank its worker calls the observer,
/// as [`run_rank`](cb_rank_runs::run_rank) does.
///
/// It takes memory for two lines for each worker and for a list of them. On a fault the threads that were started end:
/// `Memory` is returned also if some were, and `NotStarted` has the number of the first worker without a thread.
pub fn hire<
    's,
    E,
    S: Semiring + Send + Sync + 's,
    J: Naming + Send + Sync + 's,
    R: Threads + Wait + Sync,
    O: Observer<S>,
>(
    scope: &Scope<'s, E>,
    rt: &'s R,
    alloc: Global,
    rings: Rings<S>,
    observer: &'s O,
) -> Result<Crew<S, J>, RanksFault>
    requires names { (k : ℕ) → J.ring k ≡ slice_get rings k }
    ensures size { IfOk result (λ crew. size crew ≡ length rings) }
    ensures fault { IfErr result (IsFaultOf (length rings)) }
{
    let Rings { ends } = rings;
    let mut idle = Vec::with_capacity(alloc, ends.len())?;
    for (errands, slip) in ends {
        let number = idle.len() as u16;
        idle.push_reserved(hire_one(scope, rt, alloc, number, errands, slip, observer)?);
    }
    Ok(Crew { idle })
}

/// Starts a thread for one worker, whose errands go through this ring.
fn hire_one<
    's,
    E,
    S: Semiring + Send + Sync + 's,
    J: Naming + Send + Sync + 's,
    R: Threads + Wait + Sync,
    O: Observer<S>,
>(
    scope: &Scope<'s, E>,
    rt: &'s R,
    alloc: Global,
    number: u16,
    errands: Producer<Errand<S>>,
    slip: Consumer<Errand<S>>,
    observer: &'s O,
) -> Result<Idle<S, J>, RanksFault>
    requires name { J.ring number ≡ Some (put_ring errands) }
    requires new { IsPair errands slip × (sent errands ≡ []) × (received slip ≡ []) }
    ensures fault { IfErr result (λ fault. (n : ℕ) → number < n → IsFaultOf n fault) }
{
    let (requests, their_requests) = line(alloc)?;
    let (their_answers, answers) = line(alloc)?;
    let Ok(_thread) = scope.spawn(move || serve(rt, their_requests, their_answers, observer)) else {
        return Err(RanksFault::NotStarted(number));
    };
    let worker = Worker {
        number,
        errands,
        requests,
        answers,
    };
    let slip = Slip {
        number,
        ring: slip,
        of: PhantomData,
    };
    Ok(Idle { worker, slip })
}
