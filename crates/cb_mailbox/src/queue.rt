//! One lane of a mailbox.
ghost use Rattle.std.specs.Prelude.{ℕ, ◌≡◌, ◌≢◌, ◌+◌, ◌∷◌, ◌++◌, ◌<◌, ◌≤◌, ◌==◌, length, nat_lt, Some, None, IfOk, IfErr, IsTrue, ◌↔◌};
ghost use Rattle.cb_letters.specs.Letters.{is_close};
ghost use Rattle.cb_letters.specs.Lane.{new_lane, posted, refusal, Accepts, IsDrained, HasRoom, take_answer, after_take};

use cb_letters::{Body, Letter, PostRefusal, Tag, Taken};
use circular_buffer::HeapCircularBuffer;
use std::alloc::{AllocError, Global};
use std::marker::Model;

/// The letters that wait on a lane, the number of those taken, and whether a close mark was posted.
#[derive(Drop)]
pub struct Queue<P> {
    ring: HeapCircularBuffer<Letter<P>>,
    taken: u64,
    closed: bool,
}

impl<P> Model for Queue<P> {
    ghost use Rattle.std.specs.Prelude.{◌+◌, ◌<◌, ◌^◌, length};
    ghost use Rattle.cb_letters.specs.Lane.{Lane};

    ghost Value = { Lane P };

    ghost view = { λ q. record { queue = q.ring.items; capacity = q.ring.capacity; taken = q.taken; closed = q.closed } };

    ghost invariant = { λ q. q.taken + length q.ring.items < 2 ^ 64 };
}

impl<P: Drop> Queue<P> {
    /// A new lane with this many places.
    pub(crate) fn new(alloc: Global, capacity: usize) -> Result<Queue<P>, AllocError>
        ensures { IfOk result (λ q. q ≡ new_lane capacity) }
    {
        let ring = HeapCircularBuffer::with_capacity(alloc, capacity)?;
        Ok(Queue {
            ring,
            taken: 0,
            closed: false,
        })
    }

    /// The number of letters posted.
    pub(crate) fn posted(&self) -> u64
        ensures { result ≡ posted self.now }
    {
        self.taken + self.ring.len() as u64
    }

    /// Appends a letter, unless the lane refuses it.
    pub(crate) fn post(
        &mut self,
        from: u16,
        to: u16,
        tag: Tag,
        body: Body<P>,
    ) -> Result<u64, (PostRefusal, Body<P>)>
        ensures accepted { IfOk result (λ number. Accepts self.old from to tag body number self.new) }
        ensures refused { IfErr result (λ e. (refusal self.old ≡ Some e.0) × (e.1 ≡ body) × (self.new ≡ self.old)) }
    {
        if self.closed {
            return Err((PostRefusal::Closed, body));
        }
        let number = self.posted();
        if number == u64::MAX {
            return Err((PostRefusal::Spent, body));
        }
        let closes = body.is_close();
        let letter = Letter {
            from,
            to,
            number,
            tag,
            body,
        };
        if let Err(Letter { body, .. }) = self.ring.try_push_back(letter) {
            return Err((PostRefusal::Full, body));
        }
        self.closed = closes;
        Ok(number)
    }

    /// Takes the oldest letter. A close mark is returned as the end of the lane.
    pub(crate) fn take(&mut self) -> Taken<P>
        ensures answer { result ≡ take_answer self.old }
        ensures after { self.new ≡ after_take self.old }
    {
        let Some(letter) = self.ring.pop_front() else {
            return if self.closed {
                Taken::End
            } else {
                Taken::Empty
            };
        };
        self.taken += 1;
        match letter.body {
            Body::Close => Taken::End,
            body => Taken::Letter(Letter { body, ..letter }),
        }
    }

    /// Whether the lane is closed and all its letters are taken.
    pub(crate) fn is_drained(&self) -> bool
        ensures { IsTrue result ↔ IsDrained self.now }
    {
        self.closed && self.ring.is_empty()
    }

    /// Whether there is a free place.
    pub(crate) fn has_room(&self) -> bool
        ensures { IsTrue result ↔ HasRoom self.now }
    {
        self.ring.len() < self.ring.capacity()
    }

    /// The number of letters taken.
    pub(crate) fn taken(&self) -> u64
        ensures { result ≡ self.now.taken }
    {
        self.taken
    }
}
