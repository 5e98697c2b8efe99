//! A rank's desk: the ends of its lanes to and from every other rank.
ghost use Rattle.std.specs.Prelude.{ℕ, ◌≡◌, ◌<◌, ◌^◌, ◌==◌, None, not, length, is_some, slice_index_or};

use cb_letters::{Body, Letter, PostRefusal, Tag, Taken};
use cb_rings::{Poster, Taker};
use std::alloc::{AllocError, Global};
use std::sync::Wait;

/// The ends of one rank's lanes: the posting ends by addressee, and the taking ends by sender. There is none for the rank
/// itself. No call takes memory, and its cost depends neither on the number of ranks nor on how many letters have gone
/// through. Once a desk is dropped, calls of other desks that wait for it return `Gone`.
#[derive(Drop)]
pub struct Desk<P> {
    pub(crate) me: u16,
    pub(crate) outgoing: Vec<Option<Poster<P>>>,
    pub(crate) incoming: Vec<Option<Taker<P>>>,
    ghost ranks: { (length incoming.items ≡ length outgoing.items) × (length outgoing.items < 2 ^ 16) },
    ghost others: { (k : ℕ) → k < length outgoing.items → is_some (slice_index_or outgoing.items k None) ≡ not (me == k) },
    ghost senders: { (k : ℕ) → k < length incoming.items → is_some (slice_index_or incoming.items k None) ≡ not (k == me) },
}

impl<P: Drop> Desk<P> {
    ghost use Rattle.std.specs.Prelude.{◌≢◌, ◌+◌, ◌≤◌, [], ◌∷◌, ◌++◌, Some, IfOk, IfErr, OnErr, IsOk, IsTrue, true, false, ◌↔◌};
    ghost use mathlib.Core.List.{IsPrefix};
    ghost use Rattle.cb_letters.specs.Letters.{is_close, mark_tag};
    ghost use Rattle.cb_letters.specs.Posted.{is_end, ends_closed};
    ghost use Rattle.cb_letters.specs.Standing.{standing_refusal, IsAccepted};
    ghost use Rattle.cb_rings.specs.Numbers.{AreNumbered};
    ghost use Rattle.cb_lanes.specs.Desks.{identity, is_stranger, posted_to, taken_from, standing, has_room, has_letter, may_be_full, MayRefusePost};
    ghost use Rattle.cb_lanes.specs.Desks.{Keeps, KeepsPosted, KeepsTaken, AddsPosted, AddsTaken, ring_to, ring_from, AreLinked, IsSettled};

    /// Posts a letter to this rank, and returns its number on the lane. A refusal hands the body back; refusals are
    /// checked in the order of `PostRefusal`. It is `Full` only if at least as many letters were posted as the lane has
    /// places.
    pub fn try_post(
        &mut self,
        to: u16,
        tag: Tag,
        body: Body<P>,
    ) -> Result<u64, (PostRefusal, Body<P>)>
        requires { is_close body ≡ false }
        ensures identity { identity self.new ≡ identity self.old }
        ensures taken { KeepsTaken self.old self.new }
        ensures accepted { IfOk result (λ number. IsAccepted (standing self.old to) to tag body number (AddsPosted self.old self.new to)) }
        ensures refused { IfErr result (λ e. MayRefusePost self.old to e.0 × (e.1 ≡ body) × KeepsPosted self.old self.new) }
        ensures succeeds { has_room self.old to → standing_refusal (standing self.old to) ≡ None → IsOk result }
    {
        if self.is_stranger(to) {
            return Err((PostRefusal::Stranger, body));
        }
        let me = self.me;
        match &mut self.outgoing[to as usize] {
            Some(lane) => lane.post(me, to, tag, body),
            None => unreachable!(),
        }
    }

    /// Posts the mark that ends the lane to this rank, and returns its number. It is refused as a letter is.
    pub fn try_close(&mut self, to: u16) -> Result<u64, PostRefusal>
        ensures identity { identity self.new ≡ identity self.old }
        ensures taken { KeepsTaken self.old self.new }
        ensures accepted { IfOk result (λ number. IsAccepted (standing self.old to) to mark_tag Body.Close number (AddsPosted self.old self.new to)) }
        ensures refused { IfErr result (λ e. MayRefusePost self.old to e × KeepsPosted self.old self.new) }
        ensures succeeds { has_room self.old to → standing_refusal (standing self.old to) ≡ None → IsOk result }
    {
        if self.is_stranger(to) {
            return Err(PostRefusal::Stranger);
        }
        let me = self.me;
        let answer = match &mut self.outgoing[to as usize] {
            Some(lane) => lane.post(me, to, Tag(0), Body::Close),
            None => unreachable!(),
        };
        match answer {
            Ok(number) => Ok(number),
            Err((refusal, _mark)) => Err(refusal),
        }
    }

    /// Takes the oldest available letter from this rank. The take that reaches the close mark returns `End`, and so
    /// does every later one.
    pub fn try_take(&mut self, from: u16) -> Taken<P>
        ensures identity { identity self.new ≡ identity self.old }
        ensures posted { KeepsPosted self.old self.new }
        ensures stranger { (result ≡ Taken.Stranger) ↔ (is_stranger self.old from ≡ true) }
        ensures taken { AddsTaken self.old self.new from result }
        ensures end { is_end result ≡ ends_closed (taken_from self.new from) }
        ensures stays { ends_closed (taken_from self.old from) ≡ true → taken_from self.new from ≡ taken_from self.old from }
        ensures numbered { AreNumbered (taken_from self.new from) }
        ensures succeeds { has_letter self.old from → result ≢ Taken.Empty }
    {
        if self.is_stranger(from) {
            return Taken::Stranger;
        }
        match &mut self.incoming[from as usize] {
            Some(lane) => lane.take(),
            None => unreachable!(),
        }
    }

    /// Whether there is room for a letter to this rank. If so, the next post to it isn't refused as `Full`. A stranger has
    /// none. It looks at the other end of the ring, so it takes `&mut self`.
    pub fn room(&mut self, to: u16) -> bool
        ensures identity { identity self.new ≡ identity self.old }
        ensures posted { KeepsPosted self.old self.new }
        ensures taken { KeepsTaken self.old self.new }
        ensures room { IsTrue result → has_room self.new to }
        ensures full { result ≡ false → is_stranger self.old to ≡ false → may_be_full self.old to }
        ensures stranger { is_stranger self.old to ≡ true → result ≡ false }
    {
        if self.is_stranger(to) {
            return false;
        }
        match &mut self.outgoing[to as usize] {
            Some(lane) => lane.has_room(),
            None => unreachable!(),
        }
    }

    /// The rank whose desk this is.
    pub fn rank(&self) -> u16
        ensures { result ≡ (identity self.now).me }
    {
        self.me
    }

    /// Whether this desk has no lane to this rank, because it is the desk's own rank, or no rank.
    pub fn is_stranger(&self, rank: u16) -> bool
        ensures { result ≡ is_stranger self.now rank }
    {
        rank == self.me || rank as usize >= self.outgoing.len()
    }

    /// The number of letters posted to this rank, the close mark included.
    pub fn posted(&self, to: u16) -> u64
        requires { is_stranger self.now to ≡ false }
        ensures { result ≡ length (posted_to self.now to) }
    {
        match &self.outgoing[to as usize] {
            Some(lane) => lane.posted(),
            None => unreachable!(),
        }
    }

    /// The number of letters taken from this rank, the close mark included.
    pub fn taken(&self, from: u16) -> u64
        requires { is_stranger self.now from ≡ false }
        ensures { result ≡ length (taken_from self.now from) }
    {
        match &self.incoming[from as usize] {
            Some(lane) => lane.taken(),
            None => unreachable!(),
        }
    }

    /// Waits for room for a letter to this rank. Returns false if the desk at the other end of the lane is gone.
    pub(crate) fn await_room(&mut self, rt: &impl Wait, to: u16) -> bool
        requires { is_stranger self.old to ≡ false }
        ensures identity { identity self.new ≡ identity self.old }
        ensures posted { KeepsPosted self.old self.new }
        ensures taken { KeepsTaken self.old self.new }
        ensures room { IsTrue result → has_room self.new to }
    {
        match &mut self.outgoing[to as usize] {
            Some(lane) => lane.await_room(rt),
            None => unreachable!(),
        }
    }

    /// Waits for a letter from this rank. Returns false if the desk at the other end of the lane is gone.
    pub(crate) fn await_letter(&mut self, rt: &impl Wait, from: u16) -> bool
        requires { is_stranger self.old from ≡ false }
        ensures identity { identity self.new ≡ identity self.old }
        ensures posted { KeepsPosted self.old self.new }
        ensures taken { KeepsTaken self.old self.new }
        ensures letter { IsTrue result → has_letter self.new from }
    {
        match &mut self.incoming[from as usize] {
            Some(lane) => lane.await_letter(rt),
            None => unreachable!(),
        }
    }

    /// Compares both ends of the lane from this desk to another.
    pub(crate) fn settle_lane(&mut self, other: &mut Desk<P>)
        requires apart { self.old.me ≢ other.old.me }
        requires within { (other.old.me < length self.old.outgoing.items) × (self.old.me < length other.old.incoming.items) }
        requires ring { ring_to (identity self.old) other.old.me ≡ ring_from (identity other.old) self.old.me }
        ensures identity { (identity self.new ≡ identity self.old) × (identity other.new ≡ identity other.old) }
        ensures sender { KeepsPosted self.old self.new × KeepsTaken self.old self.new }
        ensures receiver { KeepsPosted other.old other.new × KeepsTaken other.old other.new }
        ensures settled { IsPrefix (taken_from other.old self.old.me) (posted_to self.old other.old.me) }
    {
        let (from, to) = (self.me as usize, other.me as usize);
        match &mut self.outgoing[to] {
            Some(outgoing) => match &mut other.incoming[from] {
                Some(incoming) => incoming.settle(outgoing),
                None => unreachable!(),
            },
            None => unreachable!(),
        }
    }

    /// Compares both ends of each of the two lanes between this desk and another.
    pub(crate) fn settle_with(&mut self, other: &mut Desk<P>)
        requires { AreLinked (identity self.old) (identity other.old) }
        ensures sender { Keeps self.old self.new }
        ensures other { Keeps other.old other.new }
        ensures there { IsSettled self.old other.old self.old.me other.old.me }
        ensures back { IsSettled other.old self.old other.old.me self.old.me }
    {
        self.settle_lane(other);
        other.settle_lane(self);
    }
}
