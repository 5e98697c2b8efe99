//! All ranks of a checked plan, stepped one event at a time.
ghost use Rattle.std.specs.Prelude.{ℕ, ◌≡◌, ◌≢◌, ◌+◌, ◌<◌, ◌≤◌, ◌↔◌, List, length, map, IfOk, IfErr, IsTrue};
ghost use Rattle.cb_letters.specs.Lane.{posted};
ghost use Rattle.cb_plan.specs.Stores.{Fits};
ghost use Rattle.cb_rank.specs.Leavings.{HoldsMeaning};
ghost use Rattle.cb_rank_world.specs.Worlds.{IsWorld, IsNewWorld, next_of, lane_between, CanAct, AllDone, IsReady, remaining, refusals_in, IsFinished};
ghost use Rattle.cb_rank_world.specs.WorldSteps.{Steps, StepsBy, IsStarved, RunsBy, FinishesBy};
ghost use Rattle.cb_rank_world.specs.LaneCalls.{Exchange, AreCallsOf, AreTakenOnce, AreForAddressee, AreInPostingOrder, NothingAcceptedAfterClose, HasGivenOutAll};
ghost use Rattle.cb_rank_world.specs.declared.events.Event.{Event as EventOf};
ghost use Rattle.cb_rank_world.specs.declared.events.Event.TheVariants.{Starve};

use crate::ends::Ends;
use crate::events::Event;
use crate::starting::{parts_of, start_ranks};
use cb_letters::Capacity;
use cb_plan::{CheckedPlan, RankStore, SharedBlock};
use cb_rank::{Moved, Rank, Supply, Want};
use cb_semirings::Semiring;
use std::alloc::{AllocError, Global};
use std::marker::Model;
use std::snapshot::Snapshot;

/// The ranks of a checked plan, each with its slots, and the lanes between them.
#[derive(Drop)]
pub struct World<S: Semiring> {
    plan: Snapshot<CheckedPlan>,
    first: Snapshot<Vec<RankStore<S>>>,
    capacity: usize,
    ranks: Vec<Rank<S>>,
    ends: Ends<SharedBlock<S>>,
    // Both are empty, with room for the store of each rank and for its count of refusals.
    stores: Vec<RankStore<S>>,
    counts: Vec<u64>,
}

impl<S: Semiring> Model for World<S> {
    ghost use Rattle.std.specs.Prelude.{length};
    ghost use Rattle.cb_rank_world.specs.Starting.{HasRoomFor};
    ghost use Rattle.cb_rank_world.specs.Worlds.{WorldView, world_view, IsWorld};

    ghost Value = { WorldView };

    ghost view = { λ w. world_view w.plan.value w.first.value.items w.capacity w.ranks.items w.ends.boxes };

    ghost invariant = { λ w. IsWorld S.arithmetic (world_view w.plan.value w.first.value.items w.capacity w.ranks.items w.ends.boxes)
        × HasRoomFor (length w.ranks.items) w.stores
        × HasRoomFor (length w.ranks.items) w.counts };
}

impl<S: Semiring> World<S> {
    /// A world in which nothing is done: a rank for each store, and lanes of `capacity` letters. All memory that the
    /// world itself needs is taken here. If it is refused, the stores come back.
    pub fn start(
        alloc: Global,
        plan: &CheckedPlan,
        stores: Vec<RankStore<S>>,
        capacity: Capacity,
    ) -> Result<World<S>, (Vec<RankStore<S>>, AllocError)>
        requires { Fits plan.now.ranks plan.now.starts stores.items }
        ensures new { IfOk result (λ w. IsNewWorld plan.now stores.items capacity w) }
        ensures world { IfOk result (λ w. IsWorld S.arithmetic w) }
        ensures back { IfErr result (λ e. e.0.items ≡ stores.items) }
    {
        let first = Snapshot::of(&stores);
        let ends = match Ends::open(alloc, plan.ranks(), capacity) {
            Ok(ends) => ends,
            Err(refused) => return Err((stores, refused)),
        };
        let counts = match Vec::with_capacity(alloc, plan.ranks() as usize) {
            Ok(counts) => counts,
            Err(refused) => return Err((stores, refused)),
        };
        let (ranks, stores) = start_ranks(alloc, plan, stores)?;
        Ok(World {
            plan: Snapshot::of(plan),
            first,
            capacity: capacity.get(),
            ranks,
            ends,
            stores,
            counts,
        })
    }

    /// Does one event: the rank does its next half, if it can. Returns the kind of half that was done. If the rank waits,
    /// or is done, or there is no such rank, nothing changes.
    ///
    /// The cost is that of the half, whatever the length of the plan and the number of ranks.
    pub fn step(&mut self, event: Event) -> Moved
        ensures step { Steps S.arithmetic event result self.old self.new }
        ensures falls { result ≢ Moved.Waiting → result ≢ Moved.Idle → remaining self.new + 1 ≡ remaining self.old }
        ensures keeps { (self.new.plan ≡ self.old.plan) × (self.new.first ≡ self.old.first) }
        ensures world { IsWorld S.arithmetic self.new }
    {
        match event {
            Event::Step(rank) => self.advance(rank, Supply::Granted),
            Event::Starve(rank) => self.advance(rank, Supply::Refused),
        }
    }

    /// Steps a rank, with this supply of memory.
    fn advance(&mut self, r: u16, supply: Supply) -> Moved
        ensures half { StepsBy S.arithmetic r (next_of self.old r) result self.old self.new }
        ensures starved { supply ≡ Supply.Refused → IsStarved (Starve r) self.old self.new }
        ensures falls { result ≢ Moved.Waiting → result ≢ Moved.Idle → remaining self.new + 1 ≡ remaining self.old }
        ensures world { IsWorld S.arithmetic self.new }
    {
        if r as usize >= self.ranks.len() {
            return Moved::Idle;
        }
        self.ends.turn_to(r);
        match self.ranks[r as usize].step(&mut self.ends, supply) {
            Ok(moved) => moved,
            Err(_) => unreachable!(),
        }
    }

    /// Does these events, one after the other.
    ///
    /// Whatever the events are, and whatever was done before: each letter is taken at most once, by its addressee alone,
    /// per sender in posting order; nothing is accepted after a close; and a drained lane has given out all letters that
    /// were queued on it and accepted.
    pub fn run(&mut self, events: &[Event])
        ensures runs { RunsBy S.arithmetic events.now self.old self.new }
        ensures keeps { (self.new.plan ≡ self.old.plan) × (self.new.first ≡ self.old.first) }
        ensures calls { (calls : List Exchange) × AreCallsOf S.arithmetic events.now calls self.old self.new }
        ensures once { (calls : List Exchange) → AreCallsOf S.arithmetic events.now calls self.old self.new → AreTakenOnce self.old self.new calls }
        ensures addressee { (calls : List Exchange) → AreCallsOf S.arithmetic events.now calls self.old self.new → AreForAddressee self.old calls }
        ensures order { (calls : List Exchange) → AreCallsOf S.arithmetic events.now calls self.old self.new → AreInPostingOrder self.old self.new calls }
        ensures closed { (calls : List Exchange) → AreCallsOf S.arithmetic events.now calls self.old self.new → NothingAcceptedAfterClose self.old calls }
        ensures drained { (calls : List Exchange) → AreCallsOf S.arithmetic events.now calls self.old self.new → HasGivenOutAll self.old self.new calls }
    {
        let _ranks = &self.ranks;
        for event in events {
            self.step(*event);
        }
    }

    /// Whether this rank can do its next half now.
    fn can_act(&self, r: u16) -> bool
        ensures { IsTrue result ↔ CanAct self.now r }
    {
        let Some(rank) = self.ranks.get(r as usize) else {
            return false;
        };
        match rank.want() {
            Want::Post(to) => self.ends.has_room(r, to),
            Want::Take(from) => self.ends.has_letter(from, r),
            Want::Work => true,
            Want::Shut(to) => self.ends.has_room(r, to),
            Want::End(from) => self.ends.has_letter(from, r),
            Want::Done => false,
        }
    }

    /// The least rank that can act. There is none only if all are done, whatever the capacity and whatever memory was
    /// refused.
    ///
    /// Looks at each rank at most once.
    pub fn ready(&self) -> Option<u16>
        ensures ready { IsReady self.now result }
        ensures world { IsWorld S.arithmetic self.now }
    {
        for r in 0..self.ranks.len() as u16 {
            if self.can_act(r) {
                return Some(r);
            }
        }
        None
    }

    /// Steps the least rank that can act, until all are done.
    pub fn finish(&mut self)
        ensures runs { (events : List EventOf) × FinishesBy S.arithmetic events self.old self.new }
        ensures done { AllDone self.new }
        ensures keeps { (self.new.plan ≡ self.old.plan) × (self.new.first ≡ self.old.first) }
    {
        while let Some(r) = self.ready() {
            self.step(Event::Step(r));
        }
    }

    /// The number of halves that aren't done, over all ranks.
    pub fn remaining(&self) -> u64
        ensures { result ≡ remaining self.now }
    {
        let mut halves = 0;
        for rank in &self.ranks {
            halves += rank.remaining();
        }
        halves
    }

    /// Whether every rank has done all its halves.
    pub fn all_done(&self) -> bool
        ensures done { IsTrue result ↔ AllDone self.now }
        ensures none_left { IsTrue result ↔ (remaining self.now ≡ 0) }
    {
        self.remaining() == 0
    }

    /// The number of times that memory was refused, over all ranks.
    pub fn refusals(&self) -> u64
        ensures { result ≡ refusals_in self.now }
    {
        let mut refusals = 0;
        for rank in &self.ranks {
            refusals += rank.refusals();
        }
        refusals
    }

    /// The number of letters posted on the lane from one rank to another, the close mark included.
    pub fn posted(&self, from: u16, to: u16) -> u64
        requires from { from < self.now.plan.ranks }
        requires to { to < self.now.plan.ranks }
        requires apart { from ≢ to }
        ensures { result ≡ posted (lane_between self.now from to) }
    {
        self.ends.posted(from, to)
    }

    /// The number of letters taken on the lane from one rank to another, the close mark included.
    pub fn taken(&self, from: u16, to: u16) -> u64
        requires from { from < self.now.plan.ranks }
        requires to { to < self.now.plan.ranks }
        requires apart { from ≢ to }
        ensures { result ≡ (lane_between self.now from to).taken }
    {
        self.ends.taken(from, to)
    }

    /// The store of each rank, and how often each was refused memory, once all are done. The stores hold what the plan
    /// means, except for what was lost to refused memory. They come in the vector that was given to `start`, which also
    /// took the memory for the counts, so this call takes none.
    pub fn into_parts(self) -> (Vec<RankStore<S>>, Vec<u64>)
        requires { AllDone self }
        ensures stores { result.0.items ≡ map (λ x. x.slots) self.ranks }
        ensures refusals { result.1.items ≡ map (λ x. x.refusals) self.ranks }
        ensures finished { IsFinished S.arithmetic self }
        ensures meaning { HoldsMeaning S.arithmetic self.plan self.first result.0.items result.1.items }
    {
        let World {
            ranks,
            stores,
            counts,
            ..
        } = self;
        parts_of(ranks, stores, counts)
    }
}
