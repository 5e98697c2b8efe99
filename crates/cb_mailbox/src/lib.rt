//! A rank's mailbox in one place: a bounded queue of letters for each other rank that posts to it.
//!
//! `open` allocates all queues. After that the cost of a call doesn't depend on how many letters have gone through, and
//! only `run` takes memory.
//!
//! - `post` and `close` append to the sender's queue and return the number on that lane: 0, 1, 2 and so on, the close
//!   mark included. They are refused to a stranger (the rank itself, or no rank), after a close, when the numbers are
//!   spent, and when the queue is full, in this order. A refused call changes nothing and hands its body back.
//! - `take` returns the oldest letter of one sender. At the close mark and ever after it returns `End`.
//! - `run` makes a list of calls. It allocates room for all answers first, so a refused `run` does nothing.
//!
//! A mailbox behaves like one lane per sender (`cb_letters`' `Lane`). Over any list of calls, on each lane, what was
//! queued and then accepted is what was taken and what is queued in the end; and on a new mailbox the accepted posts
//! and takes are legal (`cb_letters`' `Events`).
#![tactic(auto)]

mod calls;
mod queue;

ghost use Rattle.std.specs.Prelude.{ℕ, ◌≡◌, ◌<◌, length, Some, None, IfOk, IfErr, OnErr, IsTrue, true, false, ◌↔◌, if◌then◌else◌};
ghost use Rattle.cb_letters.specs.Letters.{is_close, mark_tag};
ghost use Rattle.cb_letters.specs.Lane.{new_lane, posted, IsDrained, HasRoom, IsAddressed, take_answer};
ghost use Rattle.cb_letters.specs.declared.Letter.{Letter};
ghost use Rattle.cb_mailbox.specs.Inbox.{is_stranger, lane_from, with_take, post_refusal, AcceptsFrom};

pub use calls::{Call, Reply};
use cb_letters::{Body, Capacity, PostRefusal, Tag, Taken};
use queue::Queue;
use std::alloc::{AllocError, Global};
use std::marker::Model;

/// The letters in transit to one rank, in a queue for each sender.
#[derive(Drop)]
pub struct Mailbox<P> {
    me: u16,
    lanes: Vec<Queue<P>>,
}

impl<P> Model for Mailbox<P> {
    ghost use Rattle.std.specs.Prelude.{◌<◌, ◌^◌, length};
    ghost use Rattle.cb_mailbox.specs.Inbox.{Inbox, HasLanes};

    ghost Value = { Inbox P };

    ghost view = { λ m. record { me = m.me; lanes = m.lanes.items } };

    ghost invariant = { λ m. (m.me < length m.lanes.items) × (length m.lanes.items < 2 ^ 16) × HasLanes (record { me = m.me; lanes = m.lanes.items }) };
}

impl<P: Drop> Mailbox<P> {
    /// The mailbox of rank `me` among `ranks`. Each queue has `capacity` places, allocated here. The queue from the rank
    /// itself, to which nobody posts, has none.
    #[tactic(auto, using(crate::proofs::Inboxes::lanes))]
    pub fn open(
        alloc: Global,
        me: u16,
        ranks: u16,
        capacity: Capacity,
    ) -> Result<Mailbox<P>, AllocError>
        requires { me < ranks }
        ensures ranks { IfOk result (λ m. (m.me ≡ me) × (length m.lanes ≡ ranks)) }
        ensures new { IfOk result (λ m. (from : ℕ) → lane_from m from ≡ new_lane (if is_stranger m from then 0 else capacity)) }
    {
        let mut lanes = Vec::new(alloc);
        for from in 0..ranks {
            let places = if from == me { 0 } else { capacity.get() };
            lanes.push(Queue::new(alloc, places)?)?;
        }
        Ok(Mailbox { me, lanes })
    }

    /// Posts a letter of the sender `from`, and returns its number on that lane.
    pub fn post(
        &mut self,
        from: u16,
        tag: Tag,
        body: Body<P>,
    ) -> Result<u64, (PostRefusal, Body<P>)>
        requires { is_close body ≡ false }
        ensures accepted { IfOk result (λ number. AcceptsFrom self.old from tag body number self.new) }
        ensures refused { IfErr result (λ e. (post_refusal self.old from ≡ Some e.0) × (e.1 ≡ body)) }
        ensures unchanged { OnErr result (self.new ≡ self.old) }
    {
        if self.is_stranger(from) {
            return Err((PostRefusal::Stranger, body));
        }
        let me = self.me;
        self.lanes[from as usize].post(from, me, tag, body)
    }

    /// Posts the mark that ends the lane of the sender `from`, and returns its number.
    pub fn close(&mut self, from: u16) -> Result<u64, PostRefusal>
        ensures accepted { IfOk result (λ number. AcceptsFrom self.old from mark_tag Body.Close number self.new) }
        ensures refused { IfErr result (λ e. post_refusal self.old from ≡ Some e) }
        ensures unchanged { OnErr result (self.new ≡ self.old) }
    {
        if self.is_stranger(from) {
            return Err(PostRefusal::Stranger);
        }
        let me = self.me;
        match self.lanes[from as usize].post(from, me, Tag(0), Body::Close) {
            Ok(number) => Ok(number),
            Err((refusal, _mark)) => Err(refusal),
        }
    }

    /// Takes the oldest letter of the sender `from`. The take that reaches the close mark returns `End`, and so does
    /// every later one.
    pub fn take(&mut self, from: u16) -> Taken<P>
        ensures stranger { is_stranger self.old from ≡ true → (result ≡ Taken.Stranger) × (self.new ≡ self.old) }
        ensures letter { (x : Letter P) → result ≡ Taken.Letter x → IsAddressed from self.old.me (lane_from self.old from).taken x }
        ensures answer { is_stranger self.old from ≡ false → (result ≡ take_answer (lane_from self.old from)) × (self.new ≡ with_take self.old from) }
    {
        if self.is_stranger(from) {
            return Taken::Stranger;
        }
        self.lanes[from as usize].take()
    }

    /// Whether the lane of the sender `from` is closed and all its letters are taken.
    pub fn drained(&self, from: u16) -> bool
        requires { is_stranger self.now from ≡ false }
        ensures { IsTrue result ↔ IsDrained (lane_from self.now from) }
    {
        self.lanes[from as usize].is_drained()
    }

    /// Whether the queue of the sender `from` has a free place.
    pub fn room(&self, from: u16) -> bool
        requires { is_stranger self.now from ≡ false }
        ensures { IsTrue result ↔ HasRoom (lane_from self.now from) }
    {
        self.lanes[from as usize].has_room()
    }

    /// The number of letters that the sender `from` posted, its close mark included.
    pub fn posted(&self, from: u16) -> u64
        requires { is_stranger self.now from ≡ false }
        ensures { result ≡ posted (lane_from self.now from) }
    {
        self.lanes[from as usize].posted()
    }

    /// The number of letters taken from the sender `from`, its close mark included.
    pub fn taken(&self, from: u16) -> u64
        requires { is_stranger self.now from ≡ false }
        ensures { result ≡ (lane_from self.now from).taken }
    {
        self.lanes[from as usize].taken()
    }

    fn is_stranger(&self, from: u16) -> bool
        ensures { result ≡ is_stranger self.now from }
    {
        from == self.me || from as usize >= self.lanes.len()
    }
}
