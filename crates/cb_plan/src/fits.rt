//! Whether stores hold the blocks with which a plan starts.
ghost use Rattle.std.specs.Prelude.{◌≡◌, ◌<◌, ◌≤◌, ◌↔◌, length, All, IsTrue, sum_by, count_by, get_or};
ghost use Rattle.cb_plan.specs.Stores.{Fits, all_stand, count_filled, is_filled, stands};

use crate::acts::Start;
use crate::checks::CheckedPlan;
use crate::stores::{RankStore, SLOTS, Slot};
use cb_semirings::Semiring;

impl CheckedPlan {
    /// Whether there is one store for each rank, the slots of the starts hold blocks of their shapes, every other slot
    /// is empty, and nothing is lost.
    ///
    /// The starts name each slot once. So if each start finds its block, and as many slots are filled as there are
    /// starts, all others are empty. Costs a step for each slot and one for each start.
    pub fn fits<S: Semiring>(&self, stores: &[RankStore<S>]) -> bool
        ensures { IsTrue result ↔ Fits self.now.ranks self.now.starts stores.now }
    {
        if stores.len() != self.ranks() as usize {
            return false;
        }
        let starts = self.starts();
        all_stand(starts, stores) && count_filled(stores) == starts.len()
    }
}

/// Whether each start has a block of its shape in its slot.
fn all_stand<S: Semiring>(starts: &[Start], stores: &[RankStore<S>]) -> bool
    requires { All (λ s. (s.rank < length stores.now) × (s.slot < SLOTS)) starts.now }
    ensures { result ≡ all_stand stores.now starts.now }
{
    for start in starts {
        if !stands(*start, stores) {
            return false;
        }
    }
    true
}

/// Whether a start has a block of its shape in its slot.
fn stands<S: Semiring>(start: Start, stores: &[RankStore<S>]) -> bool
    requires rank { start.rank < length stores.now }
    requires slot { start.slot < SLOTS }
    ensures { result ≡ stands stores.now start }
{
    match stores[start.rank as usize].slot(start.slot) {
        Slot::Sheet(block) => {
            let shape = block.shape();
            shape.rows() == start.shape.rows() && shape.cols() == start.shape.cols()
        }
        _ => false,
    }
}

/// The number of slots that aren't empty.
fn count_filled<S: Semiring>(stores: &[RankStore<S>]) -> usize
    requires { length stores.now ≤ u16.MAX }
    ensures value { result ≡ count_filled stores.now }
    ensures sizes { All (λ slots. length slots ≡ SLOTS) stores.now }
{
    let mut count = 0;
    for store in stores {
        count += store.filled();
    }
    count
}
