//! One rank's ends of its lanes, over the mailboxes of all ranks. The rank posts to the mailbox of the addressee, and
//! takes from its own.
ghost use Rattle.std.specs.Prelude.{ℕ, ◌≡◌, ◌≢◌, ◌<◌, false, length, None, IfOk, IfErr, IsOk, IsTrue, ◌↔◌};
ghost use Rattle.cb_letters.specs.Lane.{posted, HasRoom};
ghost use Rattle.cb_letters.specs.Letters.{is_close};
ghost use Rattle.cb_letters.specs.Standing.{standing_refusal, IsAccepted};
ghost use Rattle.cb_mailbox.specs.Inbox.{lane_from};
ghost use Rattle.cb_rank_world.specs.Ends as ends;
ghost use Rattle.cb_rank_world.specs.Ends.{box_in};
ghost use Rattle.cb_rank_world.specs.Starting.{AreNewBoxes};
ghost use Rattle.cb_rank_world.specs.EndLaws as laws;

use cb_letters::{Body, Capacity, Ports, PostRefusal, Tag, Taken};
use cb_mailbox::Mailbox;
use std::alloc::{AllocError, Global};
use std::marker::Model;

/// The mailboxes of all ranks, as one of them uses them.
#[derive(Drop)]
pub(crate) struct Ends<P> {
    me: u16,
    boxes: Vec<Mailbox<P>>,
}

impl<P> Model for Ends<P> {
    ghost use Rattle.cb_rank_world.specs.Ends.{EndsView, IsEnds};

    ghost Value = { EndsView P };

    ghost view = { λ e. record { me = e.me; boxes = e.boxes.items } };

    ghost invariant = { λ e. IsEnds (record { me = e.me; boxes = e.boxes.items }) };
}

impl<P: Drop> Ends<P> {
    /// A new mailbox for each rank, with lanes of this capacity.
    pub(crate) fn open(alloc: Global, ranks: u16, capacity: Capacity) -> Result<Ends<P>, AllocError>
        ensures { IfOk result (λ e. AreNewBoxes ranks capacity e.boxes) }
    {
        let mut boxes = Vec::with_capacity(alloc, ranks as usize)?;
        for rank in 0..ranks {
            boxes.push_reserved(Mailbox::open(alloc, rank, ranks, capacity)?);
        }
        Ok(Ends { me: 0, boxes })
    }

    /// Makes these the ends of another rank.
    pub(crate) fn turn_to(&mut self, me: u16)
        requires { me < length self.old.boxes }
        ensures { self.new ≡ record self.old { me = me } }
    {
        self.me = me;
    }

    /// Whether the lane from one rank to another has a free place.
    pub(crate) fn has_room(&self, from: u16, to: u16) -> bool
        requires from { from < length self.now.boxes }
        requires to { to < length self.now.boxes }
        requires apart { from ≢ to }
        ensures { IsTrue result ↔ HasRoom (lane_from (box_in self.now.boxes to) from) }
    {
        self.boxes[to as usize].room(from)
    }

    /// Whether a letter is queued on the lane from one rank to another.
    pub(crate) fn has_letter(&self, from: u16, to: u16) -> bool
        requires from { from < length self.now.boxes }
        requires to { to < length self.now.boxes }
        requires apart { from ≢ to }
        ensures { IsTrue result ↔ (0 < length (lane_from (box_in self.now.boxes to) from).queue) }
    {
        self.taken(from, to) < self.posted(from, to)
    }

    /// The number of letters posted on the lane from one rank to another, the close mark included.
    pub(crate) fn posted(&self, from: u16, to: u16) -> u64
        requires from { from < length self.now.boxes }
        requires to { to < length self.now.boxes }
        requires apart { from ≢ to }
        ensures { result ≡ posted (lane_from (box_in self.now.boxes to) from) }
    {
        self.boxes[to as usize].posted(from)
    }

    /// The number of letters taken on the lane from one rank to another, the close mark included.
    pub(crate) fn taken(&self, from: u16, to: u16) -> u64
        requires from { from < length self.now.boxes }
        requires to { to < length self.now.boxes }
        requires apart { from ≢ to }
        ensures { result ≡ (lane_from (box_in self.now.boxes to) from).taken }
    {
        self.boxes[to as usize].taken(from)
    }

    /// Whether there is no lane to this rank, because it is the ends' own rank, or no rank.
    fn is_out(&self, other: u16) -> bool
        ensures { result ≡ ends.is_out self.now other }
    {
        other == self.me || other as usize >= self.boxes.len()
    }
}

impl<P: Drop> Ports<P> for Ends<P> {
    ghost standing = { ends.standing };

    ghost has_room = { ends.has_room };

    ghost may_be_full = { ends.may_be_full };

    ghost keeps = { ends.keeps };

    ghost posts = { ends.posts };

    ghost takes = { ends.takes };

    ghost kept = { laws.kept };

    ghost posted = { laws.posted_law };

    ghost taken = { laws.taken_law };

    ghost empty = { laws.empty };

    ghost kept_posts = { laws.kept_posts };

    fn room(&mut self, to: u16) -> bool {
        if self.is_out(to) {
            return false;
        }
        self.boxes[to as usize].room(self.me)
    }

    fn try_post(&mut self, to: u16, tag: Tag, body: Body<P>) -> Result<u64, (PostRefusal, Body<P>)>
        requires { is_close body ≡ false }
        ensures accepted { IfOk result (λ number. IsAccepted (ends.standing self.old to) to tag body number (λ x. ends.posts self.old to x self.new)) }
        ensures refused { IfErr result (λ e. ends.MayRefusePost self.old to e.0 × (e.1 ≡ body) × ends.keeps self.old self.new) }
        ensures succeeds { ends.has_room self.old to → standing_refusal (ends.standing self.old to) ≡ None → IsOk result }
    {
        if self.is_out(to) {
            return Err((PostRefusal::Stranger, body));
        }
        let me = self.me;
        self.boxes[to as usize].post(me, tag, body)
    }

    fn try_close(&mut self, to: u16) -> Result<u64, PostRefusal> {
        if self.is_out(to) {
            return Err(PostRefusal::Stranger);
        }
        let me = self.me;
        self.boxes[to as usize].close(me)
    }

    fn try_take(&mut self, from: u16) -> Taken<P> {
        if self.is_out(from) {
            return Taken::Stranger;
        }
        self.boxes[self.me as usize].take(from)
    }
}
