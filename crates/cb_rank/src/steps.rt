//! A step of a rank, through the ends of its lanes: its next half, if that can be done now.
ghost use Rattle.std.specs.Prelude.{◌⊎◌, ◌≢◌, ◌≡◌, ◌↔◌, true, Ok, Err, Some, None};
ghost use Rattle.cb_rank.specs.Ranks.{next_half, want_of, ArePortsOf, IsRank};
ghost use Rattle.cb_rank.specs.Steps.{StepPosts, StepTakes, StepWorks, CountsRefusalIf};

use crate::ranks::Rank;
use crate::wants::{Arrival, Moved, Stray, Supply, Want};
use cb_letters::{Ports, Taken};
use cb_plan::SharedBlock;
use cb_semirings::Semiring;

impl<S: Semiring> Rank<S> {
    /// Does the next half, if it can be done now, and returns what it did. A Post and a Shut wait if there is no room for
    /// their letter, and a Take and an End if no letter is there; then nothing changes, and no memory is asked for. A
    /// letter that the half doesn't wait for comes back as a [`Stray`], and only the ports change.
    ///
    /// The cost is that of the half, whatever the length of the program.
    pub fn step<Q: Ports<SharedBlock<S>>>(
        &mut self,
        ports: &mut Q,
        supply: Supply,
    ) -> Result<Moved, Stray<SharedBlock<S>>>
        requires { ArePortsOf self.old (Q.standing ports.old) }
        ensures posts { StepPosts Q.standing Q.has_room Q.may_be_full Q.keeps Q.posts (next_half self.old) result self.old ports.old self.new ports.new }
        ensures takes { StepTakes Q.takes (next_half self.old) result self.old ports.old self.new ports.new }
        ensures works { StepWorks S.arithmetic (next_half self.old) result self.old ports.old self.new ports.new }
        ensures starved { supply ≡ Supply.Refused → CountsRefusalIf (result ≢ Ok Moved.Waiting) self.old self.new }
        ensures ports { ArePortsOf self.new (Q.standing ports.new) }
    {
        match self.want() {
            Want::Post(to) => Ok(self.post(ports, to, supply)),
            Want::Take(from) => self.take(ports, from),
            Want::Work => {
                self.work(supply);
                Ok(Moved::Worked)
            }
            Want::Shut(to) => Ok(self.close(ports, to)),
            Want::End(from) => self.take(ports, from),
            Want::Done => Ok(Moved::Idle),
        }
    }

    /// A step at a Post. It makes the copy only if there is room.
    fn post<Q: Ports<SharedBlock<S>>>(&mut self, ports: &mut Q, to: u16, supply: Supply) -> Moved
        requires rank { IsRank self.old }
        requires want { want_of (next_half self.old) ≡ Want.Post to }
        requires ports { ArePortsOf self.old (Q.standing ports.old) }
        ensures posts { StepPosts Q.standing Q.has_room Q.may_be_full Q.keeps Q.posts (next_half self.old) (Ok result) self.old ports.old self.new ports.new }
        ensures starved { supply ≡ Supply.Refused → CountsRefusalIf (result ≢ Moved.Waiting) self.old self.new }
        ensures ports { ArePortsOf self.new (Q.standing ports.new) }
    {
        if !ports.room(to) {
            return Moved::Waiting;
        }
        let (tag, body) = self.outgoing(supply);
        match ports.try_post(to, tag, body) {
            Ok(_number) => Moved::Posted,
            Err(_) => unreachable!(),
        }
    }

    /// A step at a Shut.
    fn close<Q: Ports<SharedBlock<S>>>(&mut self, ports: &mut Q, to: u16) -> Moved
        requires rank { IsRank self.old }
        requires want { want_of (next_half self.old) ≡ Want.Shut to }
        requires ports { ArePortsOf self.old (Q.standing ports.old) }
        ensures posts { StepPosts Q.standing Q.has_room Q.may_be_full Q.keeps Q.posts (next_half self.old) (Ok result) self.old ports.old self.new ports.new }
        ensures ports { ArePortsOf self.new (Q.standing ports.new) }
    {
        if !ports.room(to) {
            return Moved::Waiting;
        }
        self.shut();
        match ports.try_close(to) {
            Ok(_number) => Moved::Closed,
            Err(_) => unreachable!(),
        }
    }

    /// A step at a Take or an End: one take.
    fn take<Q: Ports<SharedBlock<S>>>(
        &mut self,
        ports: &mut Q,
        from: u16,
    ) -> Result<Moved, Stray<SharedBlock<S>>>
        requires rank { IsRank self.old }
        requires want { (want_of (next_half self.old) ≡ Want.Take from) ⊎ (want_of (next_half self.old) ≡ Want.End from) }
        requires ports { ArePortsOf self.old (Q.standing ports.old) }
        ensures takes { StepTakes Q.takes (next_half self.old) result self.old ports.old self.new ports.new }
        ensures ports { ArePortsOf self.new (Q.standing ports.new) }
    {
        let arrival = match ports.try_take(from) {
            Taken::Letter(letter) => Arrival::Letter(letter),
            Taken::End => Arrival::End(from),
            Taken::Empty => return Ok(Moved::Waiting),
            Taken::Stranger => unreachable!(),
        };
        let moved = match self.want() {
            Want::Take(_) => Moved::Took,
            _ => Moved::Drained,
        };
        self.accept(arrival)?;
        Ok(moved)
    }
}
