//! The ends of one rank's lanes.
ghost use Rattle.std.specs.Prelude.{ℕ, ◌≡◌, true, false, None, IfOk, IfErr, IsOk, IsTrue, ◌↔◌};
ghost use Rattle.cb_letters.specs.declared.Letter.{Letter};
ghost use Rattle.cb_letters.specs.declared.Taken.{Taken};
ghost use Rattle.cb_letters.specs.Letters.{is_close, mark_tag};
ghost use Rattle.cb_letters.specs.Standing.{Standing, standing_refusal, MayRefuse, IsAccepted, KeepsLane, CountsOn};

use crate::{Body, PostRefusal, Tag, Taken};

/// One rank's ends of its lanes: it posts to other ranks, and takes from them. No call waits or takes memory.
///
/// Implementations differ in what they can see: the end of a ring knows what went through it, and mailboxes in one place
/// show what is queued. So each one defines what a call did to it (`keeps`, `posts` and `takes`), and what it knows of
/// free places (`has_room` and `may_be_full`). How each lane stands, and so every refusal but `Full`, is the same for all.
pub trait Ports<P> {
    // how the lane to this rank stands
    ghost standing: { Self → ℕ → Standing };

    // there is a free place for a letter to this rank
    ghost has_room: { Self → ℕ → Type 0 };

    // there may be no free place for a letter to this rank
    ghost may_be_full: { Self → ℕ → Type 0 };

    // nothing was posted and nothing taken between these states
    ghost keeps: { Self → Self → Type 0 };

    // this letter was posted to this rank, and nothing else happened
    ghost posts: { Self → ℕ → Letter P → Self → Type 0 };

    // a take from this rank gave this answer, and nothing else happened
    ghost takes: { Self → ℕ → Taken P → Self → Type 0 };

    /// Whether there is room for a letter to this rank. If so, the next post to it isn't refused as `Full`. A stranger
    /// has none.
    fn room(&mut self, to: u16) -> bool
        ensures keeps { keeps self.old self.new }
        ensures room { IsTrue result → has_room self.new to }
        ensures full { result ≡ false → (standing self.old to).is_stranger ≡ false → may_be_full self.old to }
        ensures stranger { (standing self.old to).is_stranger ≡ true → result ≡ false };

    /// Posts a letter to this rank, and returns its number. A refusal returns the body, and posts nothing.
    fn try_post(&mut self, to: u16, tag: Tag, body: Body<P>) -> Result<u64, (PostRefusal, Body<P>)>
        requires { is_close body ≡ false }
        ensures accepted { IfOk result (λ number. IsAccepted (standing self.old to) to tag body number (λ x. posts self.old to x self.new)) }
        ensures refused { IfErr result (λ e. MayRefuse (standing self.old to) (may_be_full self.old to) e.0 × (e.1 ≡ body) × keeps self.old self.new) }
        ensures succeeds { has_room self.old to → standing_refusal (standing self.old to) ≡ None → IsOk result };

    /// Posts the mark that ends the lane to this rank, and returns its number. A refusal posts nothing.
    fn try_close(&mut self, to: u16) -> Result<u64, PostRefusal>
        ensures accepted { IfOk result (λ number. IsAccepted (standing self.old to) to mark_tag Body.Close number (λ x. posts self.old to x self.new)) }
        ensures refused { IfErr result (λ e. MayRefuse (standing self.old to) (may_be_full self.old to) e × keeps self.old self.new) }
        ensures succeeds { has_room self.old to → standing_refusal (standing self.old to) ≡ None → IsOk result };

    /// Takes the oldest available letter from this rank.
    fn try_take(&mut self, from: u16) -> Taken<P>
        ensures takes { takes self.old from result self.new }
        ensures stranger { (result ≡ Taken.Stranger) ↔ ((standing self.old from).is_stranger ≡ true) };

    // if nothing was posted, every lane stands as before and keeps its room
    ghost kept: { (p q : Self) → keeps p q → (k : ℕ) → KeepsLane standing has_room p q k };

    // a posted letter counts on its own lane, and changes no other
    ghost posted: { (p q : Self) (to : ℕ) (x : Letter P) → posts p to x q → standing_refusal (standing p to) ≡ None → CountsOn standing has_room p q to x };

    // a take changes no lane on which this rank posts
    ghost taken: { (p q : Self) (from : ℕ) (r : Taken P) → takes p from r q → (k : ℕ) → KeepsLane standing has_room p q k };

    // a take that finds neither a letter nor the end changes nothing
    ghost empty: { (p q : Self) (from : ℕ) → takes p from Taken.Empty q → keeps p q };

    // a post may be seen from any earlier state that kept everything
    ghost kept_posts: { (p q r : Self) (to : ℕ) (x : Letter P) → keeps p q → posts q to x r → posts p to x r };
}
