//! One rank on its caller's thread.
ghost use Rattle.std.specs.Prelude.{◌≡◌, ◌≢◌, ◌⊎◌, None, true, false, length, IfOk, IfErr, OnOk};
ghost use Rattle.cb_lanes.specs.Desks.{is_stranger, posted_to, taken_from};
ghost use Rattle.cb_rank.specs.Ranks.{IsRank, next_half, want_of};
ghost use Rattle.cb_rank.specs.Steps.{WorksOn};
ghost use Rattle.cb_rank_runs.specs.Runs.{IsNewRun, IsOther, Runs};
ghost use Rattle.cb_rank_runs.specs.Told.{TellsProgram};
ghost use Rattle.cb_rank_runs.specs.UnderWay.{IsUnderWay, DoesNext, TellsNext, arrival_event};

use crate::observers::Observer;
use crate::recorders::{Recorder, Silent};
use cb_lanes::{Desk, Gone};
use cb_letters::{Tag, Taken};
use cb_plan::SharedBlock;
use cb_rank::{Arrival, Rank, Supply, Want};
use cb_semirings::Semiring;
use cb_trace::{Envelope, TraceEvent};
use std::sync::Wait;
use std::thread::Threads;

/// Does all halves of one rank, in order, on its caller's thread, and returns the rank and its desk. It calls the observer
/// before each half, and waits until the half can be done. Halves that add products to the same slot, one directly after the
/// other, are done at once where the observer allows it.
///
/// `Gone` names the rank at the other end of a lane, if its desk is gone, or if something arrived from it that the half
/// doesn't wait for. The rank and its desk are dropped then, so that a rank that waits for this one finds it gone too.
pub fn run_rank<S: Semiring + Send + Sync, R: Threads + Wait + Sync, O: Observer<S>>(
    rt: &R,
    rank: Rank<S>,
    desk: Desk<SharedBlock<S>>,
    observer: &O,
) -> Result<(Rank<S>, Desk<SharedBlock<S>>), Gone>
    requires { IsNewRun rank desk }
    ensures runs { IfOk result (λ r. Runs S.arithmetic rank desk r.0 r.1) }
    ensures gone { IfErr result (λ e. IsOther rank e.0) }
{
    let (rank, desk, Silent) = run_recorded(rt, rank, desk, observer, Silent)?;
    Ok((rank, desk))
}

/// Does the same as [`run_rank`], and tells a recorder of each event of the rank's program, in order. The recorder is returned too.
pub fn run_recorded<
    S: Semiring + Send + Sync,
    R: Threads + Wait + Sync,
    O: Observer<S>,
    T: Recorder,
>(
    rt: &R,
    rank: Rank<S>,
    desk: Desk<SharedBlock<S>>,
    observer: &O,
    recorder: T,
) -> Result<(Rank<S>, Desk<SharedBlock<S>>, T), Gone>
    requires { IsNewRun rank desk }
    ensures runs { IfOk result (λ r. Runs S.arithmetic rank desk r.0 r.1) }
    ensures told { IfOk result (λ r. TellsProgram T.tells rank recorder r.2) }
    ensures gone { IfErr result (λ e. IsOther rank e.0) }
{
    let mut rank = rank;
    let mut desk = desk;
    let mut recorder = recorder;
    while rank.want() != Want::Done {
        observer.observe(desk.rank(), &rank);
        if does_all(rt, &mut rank, observer.parts_halves()) {
            continue;
        }
        do_half(rt, &mut rank, &mut desk, &mut recorder)?;
    }
    Ok((rank, desk, recorder))
}

/// Does the next halves that add products to the same slot, if there are several and they needn't be parted, and returns
/// whether it did.
fn does_all<S: Semiring + Send + Sync, R: Threads + Sync>(
    rt: &R,
    rank: &mut Rank<S>,
    are_parted: bool,
) -> bool
    ensures done { result ≡ true → WorksOn S.arithmetic rank.old rank.new }
    ensures none { result ≡ false → rank.new ≡ rank.old }
{
    if are_parted {
        return false;
    }
    rank.work_all(rt)
}

/// Does the next half, as soon as it can be done, and tells the recorder of it.
fn do_half<S: Semiring, R: Wait, T: Recorder>(
    rt: &R,
    rank: &mut Rank<S>,
    desk: &mut Desk<SharedBlock<S>>,
    recorder: &mut T,
) -> Result<(), Gone>
    requires more { next_half rank.old ≢ None }
    requires under_way { IsUnderWay rank.old desk.old }
    ensures next { OnOk result (DoesNext S.arithmetic rank.old desk.old rank.new desk.new) }
    ensures told { OnOk result (TellsNext T.tells rank.old desk.old recorder.old recorder.new) }
    ensures gone { IfErr result (λ e. IsOther rank.old e.0) }
{
    match rank.want() {
        Want::Post(to) => post(rt, rank, desk, recorder, to),
        Want::Take(from) => take(rt, rank, desk, recorder, from),
        Want::Work => {
            rank.work(Supply::Granted);
            Ok(())
        }
        Want::Shut(to) => close(rt, rank, desk, recorder, to),
        Want::End(from) => take(rt, rank, desk, recorder, from),
        Want::Done => unreachable!(),
    }
}

/// Does a Post. The lane exists and is open, so the post is refused only if the other desk is gone.
fn post<S: Semiring, R: Wait, T: Recorder>(
    rt: &R,
    rank: &mut Rank<S>,
    desk: &mut Desk<SharedBlock<S>>,
    recorder: &mut T,
    to: u16,
) -> Result<(), Gone>
    requires rank { IsRank rank.old }
    requires want { want_of (next_half rank.old) ≡ Want.Post to }
    requires under_way { IsUnderWay rank.old desk.old }
    ensures next { OnOk result (DoesNext S.arithmetic rank.old desk.old rank.new desk.new) }
    ensures told { OnOk result (TellsNext T.tells rank.old desk.old recorder.old recorder.new) }
    ensures gone { IfErr result (λ e. IsOther rank.old e.0) }
{
    let (tag, body) = rank.outgoing(Supply::Granted);
    recorder.tell(rt, TraceEvent::Posted(next_post(desk, to, tag)));
    let Ok(_number) = desk.post(rt, to, tag, body) else {
        return Err(Gone(to));
    };
    Ok(())
}

/// Does a Shut. It is refused as a Post is.
fn close<S: Semiring, R: Wait, T: Recorder>(
    rt: &R,
    rank: &mut Rank<S>,
    desk: &mut Desk<SharedBlock<S>>,
    recorder: &mut T,
    to: u16,
) -> Result<(), Gone>
    requires rank { IsRank rank.old }
    requires want { want_of (next_half rank.old) ≡ Want.Shut to }
    requires under_way { IsUnderWay rank.old desk.old }
    ensures next { OnOk result (DoesNext S.arithmetic rank.old desk.old rank.new desk.new) }
    ensures told { OnOk result (TellsNext T.tells rank.old desk.old recorder.old recorder.new) }
    ensures gone { IfErr result (λ e. IsOther rank.old e.0) }
{
    rank.shut();
    recorder.tell(rt, TraceEvent::Closed(next_post(desk, to, Tag(0))));
    let Ok(_number) = desk.close(rt, to) else {
        return Err(Gone(to));
    };
    Ok(())
}

/// The envelope of what the desk posts to another rank next.
fn next_post<P: Drop>(desk: &Desk<P>, to: u16, tag: Tag) -> Envelope
    requires { is_stranger desk.now to ≡ false }
    ensures { result ≡ record { from = desk.now.me; to = to; number = length (posted_to desk.now to); tag = tag } }
{
    Envelope {
        from: desk.rank(),
        to,
        number: desk.posted(to),
        tag,
    }
}

/// The envelope of what the desk takes from another rank next.
fn next_take<P: Drop>(desk: &Desk<P>, from: u16, tag: Tag) -> Envelope
    requires { is_stranger desk.now from ≡ false }
    ensures { result ≡ record { from = from; to = desk.now.me; number = length (taken_from desk.now from); tag = tag } }
{
    Envelope {
        from,
        to: desk.rank(),
        number: desk.taken(from),
        tag,
    }
}

/// The event of what was taken. `mark` is the envelope that it has if it is a close mark.
fn event_of<P: Drop>(mark: Envelope, arrival: &Arrival<P>) -> TraceEvent
    ensures { result ≡ arrival_event mark arrival.now }
{
    match arrival {
        Arrival::Letter(letter) => TraceEvent::Took(Envelope {
            tag: letter.tag,
            ..mark
        }),
        Arrival::End(_) => TraceEvent::Ended(mark),
    }
}

/// Does a Take or an End.
fn take<S: Semiring, R: Wait, T: Recorder>(
    rt: &R,
    rank: &mut Rank<S>,
    desk: &mut Desk<SharedBlock<S>>,
    recorder: &mut T,
    from: u16,
) -> Result<(), Gone>
    requires rank { IsRank rank.old }
    requires want { (want_of (next_half rank.old) ≡ Want.Take from) ⊎ (want_of (next_half rank.old) ≡ Want.End from) }
    requires under_way { IsUnderWay rank.old desk.old }
    ensures next { OnOk result (DoesNext S.arithmetic rank.old desk.old rank.new desk.new) }
    ensures told { OnOk result (TellsNext T.tells rank.old desk.old recorder.old recorder.new) }
    ensures gone { IfErr result (λ e. IsOther rank.old e.0) }
{
    let mark = next_take(desk, from, Tag(0));
    let arrival = match desk.take(rt, from)? {
        Taken::Letter(letter) => Arrival::Letter(letter),
        Taken::End => Arrival::End(from),
        Taken::Empty => unreachable!(),
        Taken::Stranger => unreachable!(),
    };
    let event = event_of(mark, &arrival);
    let Ok(()) = rank.accept(arrival) else {
        return Err(Gone(from));
    };
    recorder.tell(rt, event);
    Ok(())
}
