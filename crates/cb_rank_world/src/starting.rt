//! Making the ranks of a world from their stores, and getting the stores back.
ghost use Rattle.std.specs.Prelude.{◌≡◌, ◌+◌, ◌≤◌, [], ◌++◌, length, map, reverse, vec_capacity, IfOk, IfErr};
ghost use Rattle.cb_plan.specs.Stores.{Fits};
ghost use Rattle.cb_rank_world.specs.Starting.{new_ranks, HasRoomFor};

use cb_plan::{CheckedPlan, RankStore};
use cb_rank::Rank;
use cb_semirings::Semiring;
use std::alloc::{AllocError, Global};

/// Makes a new rank for each store. Returns the vector of the stores too, which is empty now. If memory is refused, the
/// stores come back.
pub(crate) fn start_ranks<S: Semiring>(
    alloc: Global,
    plan: &CheckedPlan,
    stores: Vec<RankStore<S>>,
) -> Result<(Vec<Rank<S>>, Vec<RankStore<S>>), (Vec<RankStore<S>>, AllocError)>
    requires { Fits plan.now.ranks plan.now.starts stores.items }
    ensures ranks { IfOk result (λ r. r.0.items ≡ new_ranks plan.now 0 stores.items) }
    ensures empty { IfOk result (λ r. (r.1.items ≡ []) × (length r.0.items ≤ vec_capacity r.1)) }
    ensures back { IfErr result (λ e. e.0.items ≡ stores.items) }
{
    let mut stores = stores;
    let mut ranks = match Vec::with_capacity(alloc, plan.ranks() as usize) {
        Ok(ranks) => ranks,
        Err(refused) => return Err((stores, refused)),
    };
    // From the last store to the first, so that a refused one can be pushed back where it was.
    while let Some(store) = stores.pop() {
        match Rank::start(alloc, plan, stores.len() as u16, store) {
            Ok(rank) => ranks.push_reserved(rank),
            Err((store, refused)) => {
                stores.push_reserved(store);
                return Err((with_stores_of(stores, ranks), refused));
            }
        }
    }
    ranks.reverse();
    Ok((ranks, stores))
}

/// Appends the stores of these ranks, the last rank's first.
fn with_stores_of<S: Semiring>(stores: Vec<RankStore<S>>, ranks: Vec<Rank<S>>) -> Vec<RankStore<S>>
    requires { length stores.items + length ranks.items ≤ vec_capacity stores }
    ensures { result.items ≡ stores.items ++ map (λ r. r.slots) (reverse ranks.items) }
{
    let mut stores = stores;
    let mut ranks = ranks;
    while let Some(rank) = ranks.pop() {
        stores.push_reserved(rank.into_store());
    }
    stores
}

/// The stores of the ranks and their counts of refusals, in vectors with room for them.
pub(crate) fn parts_of<S: Semiring>(
    ranks: Vec<Rank<S>>,
    stores: Vec<RankStore<S>>,
    refusals: Vec<u64>,
) -> (Vec<RankStore<S>>, Vec<u64>)
    requires stores { HasRoomFor (length ranks.items) stores }
    requires refusals { HasRoomFor (length ranks.items) refusals }
    ensures stores { result.0.items ≡ map (λ r. r.slots) ranks.items }
    ensures refusals { result.1.items ≡ map (λ r. r.refusals) ranks.items }
{
    let mut stores = stores;
    let mut refusals = refusals;
    for rank in ranks {
        refusals.push_reserved(rank.refusals());
        stores.push_reserved(rank.into_store());
    }
    (stores, refusals)
}
