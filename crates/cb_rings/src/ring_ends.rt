//! The two ends of one lane: a ring and its bell, with the numbers of the letters and the close mark.
ghost use Rattle.std.specs.Prelude.{ℕ, ◌≡◌, ◌-◌, ◌^◌, ◌<◌, length};
ghost use Rattle.cb_letters.specs.Posted.{ends_closed, NothingAfterClose};
ghost use Rattle.rtrb.specs.Ring.{sent, received};
ghost use Rattle.cb_rings.specs.Numbers.{IsNext, AreNumbered};

use crate::{Bell, wait_at};
use cb_letters::{Body, Letter, PostRefusal, Tag, Taken};
use rtrb::{Consumer, Producer, Protocol, PushError};
use std::alloc::Global;
use std::sync::Wait;

/// The protocol of a lane's ring: its letters are numbered from 0, the largest `u64` isn't used, and a close mark has tag
/// 0. So both ends can count in a `u64`. It says nothing about the content of letters.
#[derive(Clone, Copy)]
pub struct Numbered;

impl<P> Protocol<Letter<P>> for Numbered {
    ghost allows = { IsNext };
}

/// The posting end. It counts its letters, and knows whether it posted the close mark.
pub struct Poster<P> {
    pub(crate) ring: Producer<Letter<P>, Global, Numbered>,
    bell: Bell,
    posted: u64,
    closed: bool,
    ghost counted: { posted ≡ length (sent ring) },
    ghost marked: { closed ≡ ends_closed (sent ring) },
    ghost ended: { NothingAfterClose (sent ring) },
}

/// The taking end. It counts its letters, and knows whether it took the close mark.
pub struct Taker<P> {
    pub(crate) ring: Consumer<Letter<P>, Global, Numbered>,
    bell: Bell,
    taken: u64,
    ended: bool,
    ghost counted: { taken ≡ length (received ring) },
    ghost marked: { ended ≡ ends_closed (received ring) },
    ghost numbered: { AreNumbered (received ring) },
}

impl<P: Drop> Poster<P> {
    ghost use Rattle.std.specs.Prelude.{◌≤◌, [], ◌∷◌, ◌++◌, None, IfOk, IfErr, OnErr, IsOk, IsTrue, true, false};
    ghost use Rattle.rtrb.specs.Ring.{known_free, SameProducer, ProducerLooked};
    ghost use Rattle.cb_letters.specs.Letters.{is_close};
    ghost use Rattle.cb_letters.specs.Standing.{standing_refusal, MayRefuse, IsAccepted};
    ghost use Rattle.cb_rings.specs.Ends.{standing_at, MayBeFull, Sends, KeepsSent};

    pub(crate) fn new(ring: Producer<Letter<P>, Global, Numbered>, bell: Bell) -> Poster<P>
        requires { sent ring ≡ [] }
        ensures { result.ring ≡ ring }
    {
        Poster {
            ring,
            bell,
            posted: 0,
            closed: false,
        }
    }

    /// Posts a letter or a close mark, and returns its number. A refusal hands the body back.
    #[tactic(auto, using(cb_letters::proofs::Marks::marks))]
    pub fn post(
        &mut self,
        from: u16,
        to: u16,
        tag: Tag,
        body: Body<P>,
    ) -> Result<u64, (PostRefusal, Body<P>)>
        requires { is_close body ≡ true → tag.0 ≡ 0 }
        ensures ring { SameProducer self.old.ring self.new.ring }
        ensures accepted { IfOk result (λ number. IsAccepted (standing_at from self.old) to tag body number (Sends self.old self.new)) }
        ensures refused { IfErr result (λ e. MayRefuse (standing_at from self.old) (MayBeFull self.old) e.0 × (e.1 ≡ body) × KeepsSent self.old self.new) }
        ensures room { OnErr result (known_free self.old.ring ≤ known_free self.new.ring) }
        ensures succeeds { 0 < known_free self.old.ring → standing_refusal (standing_at from self.old) ≡ None → IsOk result }
    {
        if self.closed {
            return Err((PostRefusal::Closed, body));
        }
        let number = self.posted;
        if number == u64::MAX {
            return Err((PostRefusal::Spent, body));
        }
        let closes = body.is_close();
        let letter = Letter {
            from,
            to,
            number,
            tag,
            body,
        };
        if let Err(PushError::Full(Letter { body, .. })) = self.ring.push(letter) {
            return Err((PostRefusal::Full, body));
        }
        self.bell.ring();
        self.posted = number + 1;
        self.closed = closes;
        Ok(number)
    }

    /// Whether there is room for a letter.
    pub fn has_room(&mut self) -> bool
        ensures looked { ProducerLooked self.old.ring self.new.ring }
        ensures value { IsTrue result → 0 < known_free self.new.ring }
        ensures full { result ≡ false → MayBeFull self.old }
    {
        !self.ring.is_full()
    }

    /// Waits for room. Returns false if the other end is gone.
    pub fn await_room(&mut self, rt: &impl Wait) -> bool
        ensures looked { ProducerLooked self.old.ring self.new.ring }
        ensures room { IsTrue result → 0 < known_free self.new.ring }
    {
        wait_at(rt, &mut self.ring, &self.bell)
    }

    /// The number of letters posted, the close mark included.
    pub fn posted(&self) -> u64
        ensures { result ≡ length (sent self.now.ring) }
    {
        self.posted
    }
}

impl<P: Drop> Taker<P> {
    ghost use Rattle.std.specs.Prelude.{◌≢◌, ◌+◌, ◌≤◌, [], ◌∷◌, ◌++◌, Some, None, IfOk, IfErr, OnErr, IsOk, IsTrue, true, ◌↔◌};
    ghost use mathlib.Core.List.{IsPrefix};
    ghost use Rattle.rtrb.specs.Ring.{known_items, IsPair, SameConsumer, ConsumerLooked, ProducerLooked};
    ghost use Rattle.cb_letters.specs.Letters.{is_close};
    ghost use Rattle.cb_letters.specs.Posted.{GrowsBy, is_end};

    pub(crate) fn new(ring: Consumer<Letter<P>, Global, Numbered>, bell: Bell) -> Taker<P>
        requires { received ring ≡ [] }
        ensures { result.ring ≡ ring }
    {
        Taker {
            ring,
            bell,
            taken: 0,
            ended: false,
        }
    }

    /// Takes the oldest available letter. Returns `End` at the close mark and ever after.
    #[tactic(auto, using(cb_letters::proofs::Marks::marks))]
    pub fn take(&mut self) -> Taken<P>
        ensures ring { SameConsumer self.old.ring self.new.ring }
        ensures taken { GrowsBy (received self.old.ring) (received self.new.ring) result }
        ensures end { is_end result ≡ ends_closed (received self.new.ring) }
        ensures stays { ends_closed (received self.old.ring) ≡ true → received self.new.ring ≡ received self.old.ring }
        ensures member { result ≢ Taken.Stranger }
        ensures succeeds { 0 < length (known_items self.old.ring) → result ≢ Taken.Empty }
    {
        if self.ended {
            return Taken::End;
        }
        let Ok(letter) = self.ring.pop() else {
            return Taken::Empty;
        };
        self.bell.ring();
        self.taken += 1;
        self.ended = letter.body.is_close();
        if self.ended {
            return Taken::End;
        }
        Taken::Letter(letter)
    }

    /// Waits for a letter. Returns false if the other end is gone.
    pub fn await_letter(&mut self, rt: &impl Wait) -> bool
        ensures ring { SameConsumer self.old.ring self.new.ring }
        ensures received { received self.new.ring ≡ received self.old.ring }
        ensures letter { IsTrue result → 0 < length (known_items self.new.ring) }
    {
        wait_at(rt, &mut self.ring, &self.bell)
    }

    /// The number of letters taken, the close mark included.
    pub fn taken(&self) -> u64
        ensures { result ≡ length (received self.now.ring) }
    {
        self.taken
    }

    /// Compares both ends of the lane: what was taken is a prefix of what was posted.
    pub fn settle(&mut self, outgoing: &mut Poster<P>)
        requires { IsPair outgoing.old.ring self.old.ring }
        ensures incoming { ConsumerLooked self.old.ring self.new.ring }
        ensures outgoing { ProducerLooked outgoing.old.ring outgoing.new.ring }
        ensures settled { IsPrefix (received self.old.ring) (sent outgoing.old.ring) }
    {
        self.ring.slots_beside(&mut outgoing.ring);
    }
}

impl<P: Drop> Drop for Poster<P> {
    fn drop(self) {
        let Poster {
            ring,
            bell,
            posted: _,
            closed: _,
        } = self;
        // Dropped first, so that whoever is woken finds this end gone.
        drop(ring);
        bell.ring();
    }
}

impl<P: Drop> Drop for Taker<P> {
    fn drop(self) {
        let Taker {
            ring,
            bell,
            taken: _,
            ended: _,
        } = self;
        // Dropped first, so that whoever is woken finds this end gone.
        drop(ring);
        bell.ring();
    }
}
