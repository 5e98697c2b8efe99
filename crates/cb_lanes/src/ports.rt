//! A desk implements `Ports`. It knows of a free place if its end of the ring saw one, and a lane may be full if at least
//! as many letters were posted as it has places.
ghost use Rattle.std.specs.Prelude.{◌≡◌, false, None, IfOk, IfErr, IsOk};
ghost use Rattle.cb_letters.specs.Letters.{is_close};
ghost use Rattle.cb_letters.specs.Standing.{standing_refusal, IsAccepted};
ghost use Rattle.cb_lanes.specs.Desks as desks;
ghost use Rattle.cb_lanes.specs.Laws as laws;

use crate::desk::Desk;
use cb_letters::{Body, Ports, PostRefusal, Tag, Taken};

impl<P: Drop> Ports<P> for Desk<P> {
    ghost standing = { desks.standing };

    ghost has_room = { desks.has_room };

    ghost may_be_full = { desks.may_be_full };

    ghost keeps = { desks.Keeps };

    ghost posts = { desks.Posts };

    ghost takes = { desks.Takes };

    ghost kept = { laws.kept };

    ghost posted = { laws.posted };

    ghost taken = { laws.taken };

    ghost empty = { laws.empty };

    ghost kept_posts = { laws.kept_posts };

    fn room(&mut self, to: u16) -> bool {
        Desk::room(self, to)
    }

    fn try_post(&mut self, to: u16, tag: Tag, body: Body<P>) -> Result<u64, (PostRefusal, Body<P>)>
        requires { is_close body ≡ false }
        ensures accepted { IfOk result (λ number. IsAccepted (desks.standing self.old to) to tag body number (λ x. desks.Posts self.old to x self.new)) }
        ensures refused { IfErr result (λ e. desks.MayRefusePost self.old to e.0 × (e.1 ≡ body) × desks.Keeps self.old self.new) }
        ensures succeeds { desks.has_room self.old to → standing_refusal (desks.standing self.old to) ≡ None → IsOk result }
    {
        Desk::try_post(self, to, tag, body)
    }

    fn try_close(&mut self, to: u16) -> Result<u64, PostRefusal> {
        Desk::try_close(self, to)
    }

    fn try_take(&mut self, from: u16) -> Taken<P> {
        Desk::try_take(self, from)
    }
}
