//! Products that are added to a block at once, by several threads. Each makes a part of the columns.
//!
//! A part is made by halves, so parts are appended to one another side by side. All threads share the blocks.
ghost use Rattle.std.specs.Prelude.{◌≡◌, ◌<◌, ◌≤◌, length, All, IfOk};
ghost use Rattle.std.specs.Thread.{IsSync};
ghost use Rattle.cb_rank_work.specs.FactorSlots.{AreToBeMade, HasColumnsOf, HoldProduct, IsSumWith};

use crate::kernels::factors_in;
use cb_dcsc::Block;
use cb_plan::RankStore;
use cb_product::{columns_of_sum, first_columns, multiply_all_columns};
use cb_semirings::Semiring;
use std::alloc::{AllocError, Global};
use std::thread::{Threads, join};

/// Returns a block plus the products of blocks in these slots. Each of so many parts of the columns is made by a thread of its
/// own, while this one waits; all parts but the first are copied once. If a thread isn't available, this one makes its part.
pub(crate) fn all_added_apart<S: Semiring + Send + Sync, R: Threads + Sync>(
    rt: &R,
    alloc: Global,
    parts: u32,
    store: &RankStore<S>,
    products: &[(u16, u16)],
    sum: &Block<S>,
) -> Result<Block<S>, AllocError>
    requires { All (HoldProduct store.now sum.now.shape) products.now }
    ensures { IfOk result (IsSumWith S.arithmetic store.now sum.now products.now) }
{
    let factors = factors_in(alloc, store, products)?;
    let columns = columns_of_sum(alloc, &factors, sum)?;
    let _shape = sum.shape();
    make_parts::<S, R>(rt, alloc, store, products, sum, &columns, parts, parts)
}

/// Makes the given columns of the sum in this many parts: one by this thread, and more by halves, each half by a thread of its
/// own, while this one waits. The first part takes room for `room` parts, since later ones are appended to it.
#[cycle(parts)]
fn make_parts<S: Semiring + Send + Sync, R: Threads + Sync>(
    rt: &R,
    alloc: Global,
    store: &RankStore<S>,
    products: &[(u16, u16)],
    sum: &Block<S>,
    columns: &[u32],
    parts: u32,
    room: u32,
) -> Result<Block<S>, AllocError>
    requires { AreToBeMade store.now sum.now products.now columns.now }
    ensures { IfOk result (HasColumnsOf S.arithmetic store.now sum.now products.now columns.now) }
{
    if parts < 2 {
        return make_part(alloc, store, products, sum, columns, room);
    }
    let high = parts / 2;
    let low = parts - high;
    let place = first_part(alloc, store, products, sum, columns, low, parts)?;
    let (first, last) = columns.split_at(place);
    let (back, front) = join(
        rt,
        || -> Result<Block<S>, AllocError>
            requires { IsSync R.row × AreToBeMade store.now sum.now products.now last.now }
            ensures { IfOk result (HasColumnsOf S.arithmetic store.entry.now sum.entry.now products.entry.now last.entry.now) }
        { make_parts::<S, R>(rt, alloc, store, products, sum, last, high, high) },
        || -> Result<Block<S>, AllocError>
            requires { IsSync R.row × AreToBeMade store.now sum.now products.now first.now }
            ensures { IfOk result (HasColumnsOf S.arithmetic store.entry.now sum.entry.now products.entry.now first.entry.now) }
        { make_apart::<S, R>(rt, alloc, store, products, sum, first, low, room) },
    );
    let mut front = front?;
    let mut back = back?;
    let _shape = sum.shape();
    front.append(&mut back)?;
    Ok(front)
}

/// The same in a thread of its own, while this one waits: a system may keep the first thread that one starts on its own
/// processor as long as it works.
#[cycle(parts)]
fn make_apart<S: Semiring + Send + Sync, R: Threads + Sync>(
    rt: &R,
    alloc: Global,
    store: &RankStore<S>,
    products: &[(u16, u16)],
    sum: &Block<S>,
    columns: &[u32],
    parts: u32,
    room: u32,
) -> Result<Block<S>, AllocError>
    requires { AreToBeMade store.now sum.now products.now columns.now }
    ensures { IfOk result (HasColumnsOf S.arithmetic store.now sum.now products.now columns.now) }
{
    let (made, ()) = join(
        rt,
        || -> Result<Block<S>, AllocError>
            requires { IsSync R.row × AreToBeMade store.now sum.now products.now columns.now }
            ensures { IfOk result (HasColumnsOf S.arithmetic store.entry.now sum.entry.now products.entry.now columns.entry.now) }
        { make_parts::<S, R>(rt, alloc, store, products, sum, columns, parts, room) },
        || {},
    );
    made
}

/// Returns how many of these columns make up the first `low` of `count` parts.
fn first_part<S: Semiring>(
    alloc: Global,
    store: &RankStore<S>,
    products: &[(u16, u16)],
    sum: &Block<S>,
    columns: &[u32],
    low: u32,
    count: u32,
) -> Result<usize, AllocError>
    requires some { 0 < count }
    requires made { AreToBeMade store.now sum.now products.now columns.now }
    ensures { IfOk result (λ n. n ≤ length columns.now) }
{
    let factors = factors_in(alloc, store, products)?;
    Ok(first_columns(&factors, sum, columns, low, count))
}

/// Makes the given columns of the sum in this thread, with room for so many parts of this size.
fn make_part<S: Semiring>(
    alloc: Global,
    store: &RankStore<S>,
    products: &[(u16, u16)],
    sum: &Block<S>,
    columns: &[u32],
    room: u32,
) -> Result<Block<S>, AllocError>
    requires { AreToBeMade store.now sum.now products.now columns.now }
    ensures { IfOk result (HasColumnsOf S.arithmetic store.now sum.now products.now columns.now) }
{
    let factors = factors_in(alloc, store, products)?;
    multiply_all_columns(alloc, &factors, sum, columns, room)
}
