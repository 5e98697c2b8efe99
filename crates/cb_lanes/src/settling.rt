//! Settling: the desks of all ranks are brought together, and both ends of each lane compared. No memory is taken.
ghost use Rattle.std.specs.Prelude.{ℕ, ◌≡◌, ◌<◌, length, map};
ghost use Rattle.cb_lanes.specs.Desks.{identity, AreOfOneOpening, SameDesks, IsPairSettled, capacity_in, posted_in, taken_in, AreSettledLanes};
ghost use Rattle.cb_lanes.specs.Lanes.{rank_count, capacity_on, posted_on, taken_on};

use crate::desk::Desk;
use crate::settled::Settled;

/// Takes back all desks of one `open`, in order of their ranks, and compares both ends of each lane: what was taken is a
/// prefix of what was posted, and all of it if the close mark was taken.
pub fn settle<P: Drop>(desks: Vec<Desk<P>>) -> Settled<P>
    requires { AreOfOneOpening (map identity desks.items) }
    ensures ranks { rank_count result ≡ length desks.items }
    ensures capacities { (from to : ℕ) → capacity_on result from to ≡ capacity_in desks.items from to }
    ensures posted { (from to : ℕ) → posted_on result from to ≡ posted_in desks.items from to }
    ensures taken { (from to : ℕ) → taken_on result from to ≡ taken_in desks.items from to }
    ensures settled { AreSettledLanes desks.items }
{
    let mut desks = desks;
    settle_all(&mut desks);
    Settled { desks }
}

/// Compares both ends of each lane.
fn settle_all<P: Drop>(desks: &mut [Desk<P>])
    requires { AreOfOneOpening (map identity desks.old) }
    ensures same { SameDesks desks.old desks.new }
    ensures settled { (low high : ℕ) → low < high → high < length desks.old → IsPairSettled desks.old low high }
{
    for high in 0..desks.len() {
        for low in 0..high {
            settle_pair(desks, low, high);
        }
    }
}

/// Compares both ends of the two lanes between two of the desks.
fn settle_pair<P: Drop>(desks: &mut [Desk<P>], low: usize, high: usize)
    requires desks { AreOfOneOpening (map identity desks.old) }
    requires ranks { (low < high) × (high < length desks.old) }
    ensures same { SameDesks desks.old desks.new }
    ensures settled { IsPairSettled desks.old low high }
{
    let (front, back) = desks.split_at_mut(high);
    front[low].settle_with(&mut back[0]);
}
