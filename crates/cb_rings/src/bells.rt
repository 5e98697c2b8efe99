//! How a thread waits at one end of a ring for the thread at the other end.
//!
//! It polls, and pauses between polls as a `Backoff` says: first for one spin, then two, up to 64; then it yields the
//! processor four times; from then on it sleeps. So a short wait makes no system call, and a long one takes no processor
//! time.
//!
//! The two ends share a bell, which wakes the sleeper. A thread that is about to sleep announces this at the bell and
//! polls once more. The other end rings after each item that it pushes or pops, and when it is dropped; if nobody waits,
//! that costs one read. All operations on the ring and on the bell are in one total order, so either the waiting thread
//! sees the change, or the other end sees that there is someone to wake.
//!
//! No contract claims that a sleeper wakes. That it looks between the announcement and its sleep is proved: the look from
//! before the announcement is forgotten there.
ghost use Rattle.std.specs.Prelude.{◌≡◌, ◌<◌, length, IsTrue};
ghost use Rattle.std.proofs.Common.{rules};
ghost use Rattle.rtrb.specs.Ring.{received, known_free, known_items, ProducerLooked, SameConsumer};
ghost use Rattle.cb_rings.specs.declared.bells.Look.TheVariants.{Ready, Nothing};

use crossbeam_utils::Backoff;
use crossbeam_utils::sync::{EventCount, Key};
use rtrb::{Consumer, Producer, Protocol};
use std::alloc::{AllocError, Global};
use std::sync::{Arc, Wait};

/// One end's hold on the bell that both ends of a ring share.
#[derive(Drop)]
pub struct Bell {
    events: Arc<EventCount>,
}

impl Bell {
    /// The bell of a new ring, once for each of its ends. Allocates once.
    pub fn pair(alloc: Global) -> Result<(Bell, Bell), AllocError> {
        let events = Arc::new(alloc, EventCount::new())?;
        let theirs = Arc::try_clone(&events)?;
        Ok((Bell { events }, Bell { events: theirs }))
    }

    /// Wakes the thread that sleeps at the other end.
    pub fn ring(&self) {
        self.events.notify_all();
    }
}

/// What a look at an end of a ring shows.
#[derive(Clone, Copy, Debug, PartialEq, Eq, Drop)]
pub enum Look {
    /// There is a free place to push to, or an item to pop.
    Ready,
    /// There is none, and the other end was dropped.
    Left,
    /// There is none yet.
    Nothing,
}

/// An end of a ring that a thread may wait at.
pub trait RingEnd {
    /// This end only looked at the other end.
    ghost looked: { Self → Self → Type 0 };

    /// The next push or pop succeeds.
    ghost ready: { Self → Type 0 };

    /// The last look showed nothing.
    ghost idle: { Self → Type 0 };

    /// Looks whether there is a free place to push to, or an item to pop. The contract doesn't claim that the other end is
    /// there if it isn't `Left`.
    fn look(&mut self) -> Look
        ensures looked { looked self.old self.new }
        ensures ready { result ≡ Ready → ready self.new }
        ensures idle { result ≡ Nothing → idle self.new };

    ghost unchanged: { (a : Self) → looked a a };

    ghost again: { (a b c : Self) → looked a b → looked b c → looked a c };
}

impl<T, P: Protocol<T>> RingEnd for Producer<T, Global, P> {
    ghost looked = { ProducerLooked };

    ghost ready = { λ ring. 0 < known_free ring };

    ghost idle = { λ ring. known_free ring ≡ 0 };

    ghost unchanged = { Prim.search rules };

    ghost again = { Prim.search rules };

    fn look(&mut self) -> Look {
        // Asked before polling, so that what the other end did just before it was dropped isn't missed.
        let is_left = self.is_abandoned();
        if !self.is_full() {
            return Look::Ready;
        }
        if is_left { Look::Left } else { Look::Nothing }
    }
}

impl<T, P: Protocol<T>> RingEnd for Consumer<T, Global, P> {
    ghost looked = { λ a b. SameConsumer a b × (received b ≡ received a) };

    ghost ready = { λ ring. 0 < length (known_items ring) };

    ghost idle = { λ ring. length (known_items ring) ≡ 0 };

    ghost unchanged = { Prim.search rules };

    ghost again = { Prim.search rules };

    fn look(&mut self) -> Look {
        // As above.
        let is_left = self.is_abandoned();
        if !self.is_empty() {
            return Look::Ready;
        }
        if is_left { Look::Left } else { Look::Nothing }
    }
}

/// Waits until an end is ready or the other end is gone, and returns whether it is ready.
pub fn wait_at<E: RingEnd, R: Wait>(rt: &R, end: &mut E, bell: &Bell) -> bool
    ensures looked { E.looked end.old end.new }
    ensures ready { IsTrue result → E.ready end.new }
{
    let backoff = Backoff::new();
    for _ in rt.forever() {
        match end.look() {
            Look::Ready => return true,
            Look::Left => return false,
            Look::Nothing => {}
        }
        if backoff.is_completed() {
            sleep_at(rt, end, bell);
        } else {
            backoff.snooze();
        }
    }
    unreachable!()
}

/// Sleeps until the bell rings, unless the end is ready or the other end is gone.
fn sleep_at<E: RingEnd, R: Wait>(rt: &R, end: &mut E, bell: &Bell)
    ensures { E.looked end.old end.new }
{
    let announced = announce(end, bell);
    if end.look() == Look::Nothing {
        sleep(rt, end, announced);
    }
}

/// Announces that a thread is about to sleep at an end. What was seen of the end before is out of date from then on: the
/// contract keeps none of it.
fn announce<'b, E: RingEnd>(_end: &mut E, bell: &'b Bell) -> Key<'b>
    ensures { E.looked _end.old _end.new }
{
    bell.events.prepare_wait()
}

/// Sleeps until the bell rings. The end has to be looked at after the sleep was announced.
fn sleep<E: RingEnd, R: Wait>(rt: &R, _end: &E, announced: Key<'_>)
    requires { E.idle _end.now }
{
    announced.wait(rt);
}
