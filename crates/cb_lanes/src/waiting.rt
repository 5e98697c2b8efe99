//! The calls that wait. Each tries, waits until the lane has room or a letter, and tries again. It gives up if the desk at
//! the other end is gone.
ghost use Rattle.std.specs.Prelude.{ℕ, ◌≡◌, ◌≢◌, ◌∷◌, ◌++◌, length, IfOk, IfErr, None, true, false, ◌↔◌};
ghost use Rattle.cb_letters.specs.Letters.{is_close, mark_tag};
ghost use Rattle.cb_letters.specs.Standing.{IsAccepted};
ghost use Rattle.cb_lanes.specs.Desks.{standing, is_stranger, Keeps, Posts, Takes};
ghost use Rattle.cb_lanes.specs.Waiting.{MayGiveUp, FindsGone};

use crate::desk::Desk;
use cb_letters::{Body, Letter, PostRefusal, Tag, Taken};
use std::sync::Wait;

/// The desk of this rank is gone, and none of its letters is left.
#[derive(Clone, Copy, Debug, PartialEq, Eq, Drop)]
pub struct Gone(pub u16);

/// Why a waiting post or close was refused, in the order in which the reasons are checked.
#[derive(Clone, Copy, Debug, PartialEq, Eq, Drop)]
pub enum WaitRefusal {
    /// There is no such lane: the other rank is the desk's own, or no rank.
    Stranger,
    /// The close mark was posted.
    Closed,
    /// All numbers of the lane have been used, up to 2^64-2.
    Spent,
    /// The lane is full, and the desk of this rank is gone.
    Gone(u16),
}

impl<P: Drop> Desk<P> {
    /// Posts a letter to this rank as soon as there is room, and returns its number. A refusal hands the body back.
    pub fn post(
        &mut self,
        rt: &impl Wait,
        to: u16,
        tag: Tag,
        body: Body<P>,
    ) -> Result<u64, (WaitRefusal, Body<P>)>
        requires { is_close body ≡ false }
        ensures accepted { IfOk result (λ number. IsAccepted (standing self.old to) to tag body number (λ x. Posts self.old to x self.new)) }
        ensures refused { IfErr result (λ e. MayGiveUp (standing self.old to) to e.0 × (e.1 ≡ body) × Keeps self.old self.new) }
    {
        let body = match self.try_post(to, tag, body) {
            Ok(number) => return Ok(number),
            Err((PostRefusal::Stranger, body)) => return Err((WaitRefusal::Stranger, body)),
            Err((PostRefusal::Closed, body)) => return Err((WaitRefusal::Closed, body)),
            Err((PostRefusal::Spent, body)) => return Err((WaitRefusal::Spent, body)),
            Err((PostRefusal::Full, body)) => body,
        };
        if !self.await_room(rt, to) {
            return Err((WaitRefusal::Gone(to), body));
        }
        match self.try_post(to, tag, body) {
            Ok(number) => Ok(number),
            Err(_) => unreachable!(),
        }
    }

    /// Posts the mark that ends the lane to this rank as soon as there is room, and returns its number.
    pub fn close(&mut self, rt: &impl Wait, to: u16) -> Result<u64, WaitRefusal>
        ensures accepted { IfOk result (λ number. IsAccepted (standing self.old to) to mark_tag Body.Close number (λ x. Posts self.old to x self.new)) }
        ensures refused { IfErr result (λ e. MayGiveUp (standing self.old to) to e × Keeps self.old self.new) }
    {
        match self.try_close(to) {
            Ok(number) => return Ok(number),
            Err(PostRefusal::Stranger) => return Err(WaitRefusal::Stranger),
            Err(PostRefusal::Closed) => return Err(WaitRefusal::Closed),
            Err(PostRefusal::Spent) => return Err(WaitRefusal::Spent),
            Err(PostRefusal::Full) => {}
        }
        if !self.await_room(rt, to) {
            return Err(WaitRefusal::Gone(to));
        }
        match self.try_close(to) {
            Ok(number) => Ok(number),
            Err(_) => unreachable!(),
        }
    }

    /// Takes the oldest letter from this rank as soon as there is one. Never returns `Empty`.
    pub fn take(&mut self, rt: &impl Wait, from: u16) -> Result<Taken<P>, Gone>
        ensures waited { IfOk result (λ r. r ≢ Taken.Empty) }
        ensures stranger { IfOk result (λ r. (r ≡ Taken.Stranger) ↔ (is_stranger self.old from ≡ true)) }
        ensures taken { IfOk result (λ r. Takes self.old from r self.new) }
        ensures gone { IfErr result (λ e. (e.0 ≡ from) × FindsGone self.old from self.new) }
    {
        match self.try_take(from) {
            Taken::Empty => {}
            taken => return Ok(taken),
        }
        if !self.await_letter(rt, from) {
            return Err(Gone(from));
        }
        Ok(self.try_take(from))
    }
}
