//! The operations of a plan, done on the slots of one rank by the block kernels.
ghost use Rattle.std.specs.Prelude.{◌≡◌, ◌≢◌, ◌<◌, ℕ, true, false, length, map, get_or, slice_set, All, IfOk, IfErr, OnOk, OnErr, IsOk, IsSome, Some, ◌∷◌};
ghost use Rattle.std.specs.List.{AllZip};
ghost use Rattle.cb_matrix.specs.Sparse.{Extent};
ghost use Rattle.cb_matrix.specs.Values.{product, product_shape};
ghost use Rattle.cb_matrix.specs.Operations.{sum_of};
ghost use Rattle.cb_plan.specs.Meaning.{result_of, target_of, needs_memory};
ghost use Rattle.cb_plan.specs.Algebras.{matrices};
ghost use Rattle.cb_plan.specs.Checks.{operands_of, all_below, all_filled, shapes_agree};
ghost use Rattle.cb_product.specs.SeveralProducts.{pairs_in};
ghost use Rattle.cb_rank_work.specs.FactorSlots.{HoldPair, HoldProduct, IsSumWith};
ghost use Rattle.cb_rank_work.specs.Slots.{MayBeAdded, adding, after_all};
ghost use Rattle.cb_plan.specs.Stores.{sheets_in, shapes_in, slot_of};

use crate::parts::all_added_apart;
use cb_dcsc::Block;
use cb_elementwise::{add, mask, prune, times};
use cb_plan::{Op, RankStore, SLOTS, SharedBlock, Slot};
use cb_product::{
    Factors, LEAST_PRODUCTS, estimated_products, multiply, multiply_all_into, multiply_into,
};
use cb_reshape::{column_sums, cut, place, transpose};
use cb_semirings::Semiring;
use std::alloc::{AllocError, Global};
use std::thread::Threads;

/// Does an operation whose operands are there, with the shapes that it requires. A refusal leaves the slots as they
/// were; an operation that needs no memory isn't refused.
pub fn work<S: Semiring>(alloc: Global, store: &mut RankStore<S>, op: &Op) -> Result<(), AllocError>
    requires slots { all_below SLOTS (target_of op.now ∷ operands_of op.now) ≡ true }
    requires filled { all_filled (shapes_in store.old) (operands_of op.now) ≡ true }
    requires agree { shapes_agree (shapes_in store.old) op.now ≡ true }
    ensures ok { OnOk result (store.new ≡ slice_set store.old (target_of op.now) (slot_of (result_of (matrices S.arithmetic) op.now (sheets_in store.old)))) }
    ensures err { OnErr result (store.new ≡ store.old) }
    ensures granted { needs_memory op.now ≡ false → IsOk result }
{
    if let Op::MulAdd { a, b, acc } = op
        && *acc != *a
        && *acc != *b
    {
        return accumulate(alloc, store, *a, *b, *acc);
    }
    if let Op::Clear { slot } = op {
        store.clear(*slot);
        return Ok(());
    }
    if let Op::Copy { a, into } = op {
        let copy = store.shared_copy(alloc, *a)?;
        store.put_shared(*into, copy);
        return Ok(());
    }
    let made = made_by(alloc, store, *op)?;
    store.put(op.target(), made);
    Ok(())
}

/// The block that an operation makes. It may be any operation but `Clear`, which makes none, and `Copy`, whose block may be
/// shared.
fn made_by<S: Semiring>(alloc: Global, store: &RankStore<S>, op: Op) -> Result<Block<S>, AllocError>
    requires makes { (slot : ℕ) → op ≢ Op.Clear slot }
    requires alone { (a into : ℕ) → op ≢ Op.Copy a into }
    requires slots { all_below SLOTS (operands_of op) ≡ true }
    requires filled { all_filled (shapes_in store.now) (operands_of op) ≡ true }
    requires agree { shapes_agree (shapes_in store.now) op ≡ true }
    ensures made { IfOk result (λ block. Some block ≡ result_of (matrices S.arithmetic) op (sheets_in store.now)) }
    ensures granted { needs_memory op ≡ false → IsOk result }
{
    match op {
        Op::Zero { shape, .. } => Ok(Block::empty(alloc, shape)),
        Op::MulAdd { a, b, acc } => {
            product_added(alloc, store.sheet(a), store.sheet(b), store.sheet(acc))
        }
        Op::Add { a, b, .. } => add(alloc, store.sheet(a), store.sheet(b)),
        Op::Times { a, b, .. } => times(alloc, store.sheet(a), store.sheet(b)),
        Op::Transpose { a, .. } => transpose(alloc, store.sheet(a)),
        Op::ColumnSums { a, .. } => column_sums(alloc, store.sheet(a)),
        Op::Cut { a, rows, cols, .. } => cut(alloc, store.sheet(a), rows, cols),
        Op::Place { a, shape, at, .. } => place(alloc, store.sheet(a), shape, at),
        Op::MulVec { a, x, .. } => multiply(alloc, store.sheet(a), store.sheet(x)),
        Op::Prune { a, test, .. } => prune(alloc, store.sheet(a), test),
        Op::Copy { .. } | Op::Clear { .. } => unreachable!(),
        Op::Mask { a, m, .. } => mask(alloc, store.sheet(a), store.sheet(m)),
    }
}

/// The product of two blocks, added to a third.
fn product_added<S: Semiring>(
    alloc: Global,
    left: &Block<S>,
    right: &Block<S>,
    sum: &Block<S>,
) -> Result<Block<S>, AllocError>
    requires agree { left.now.shape.cols ≡ right.now.shape.rows }
    requires shape { sum.now.shape ≡ product_shape left.now right.now }
    ensures { IfOk result (λ m. m ≡ sum_of S.arithmetic sum.now (product S.arithmetic left.now right.now)) }
{
    let product = multiply(alloc, left, right)?;
    add(alloc, sum, &product)
}

/// Adds the product of two blocks to a third, which is neither of them and is replaced by the sum.
fn accumulate<S: Semiring>(
    alloc: Global,
    store: &mut RankStore<S>,
    a: u16,
    b: u16,
    acc: u16,
) -> Result<(), AllocError>
    requires slots { all_below SLOTS (target_of (Op.MulAdd a b acc) ∷ operands_of (Op.MulAdd a b acc)) ≡ true }
    requires other_left { acc ≢ a }
    requires other_right { acc ≢ b }
    requires filled { all_filled (shapes_in store.old) (operands_of (Op.MulAdd a b acc)) ≡ true }
    requires agree { shapes_agree (shapes_in store.old) (Op.MulAdd a b acc) ≡ true }
    ensures ok { OnOk result (store.new ≡ slice_set store.old acc (slot_of (result_of (matrices S.arithmetic) (Op.MulAdd a b acc) (sheets_in store.old)))) }
    ensures err { OnErr result (store.new ≡ store.old) }
{
    let Slot::Sheet(sum) = store.take(acc) else {
        unreachable!()
    };
    match added_to(alloc, store.sheet(a), store.sheet(b), sum) {
        Ok(sum) => {
            store.put(acc, sum);
            Ok(())
        }
        Err((sum, error)) => {
            store.put_shared(acc, sum);
            Err(error)
        }
    }
}

/// Adds the product of two blocks to a third. If memory is refused, the third comes back as it was.
fn added_to<S: Semiring>(
    alloc: Global,
    left: &Block<S>,
    right: &Block<S>,
    sum: SharedBlock<S>,
) -> Result<Block<S>, (SharedBlock<S>, AllocError)>
    requires agree { left.now.shape.cols ≡ right.now.shape.rows }
    requires shape { sum.shape ≡ product_shape left.now right.now }
    ensures ok { IfOk result (λ m. m ≡ sum_of S.arithmetic sum (product S.arithmetic left.now right.now)) }
    ensures err { IfErr result (λ e. e.0 ≡ sum) }
{
    let sum = match sum.into_block() {
        Ok(sum) => sum,
        Err(refused) => return Err(refused),
    };
    match multiply_into(alloc, left, right, sum) {
        Ok(sum) => Ok(sum),
        Err((sum, error)) => Err((SharedBlock::new(sum), error)),
    }
}

/// Adds products to a slot, one after the other, whose factors are in other slots. A refusal leaves the slots as they were.
/// All are added in one pass, so no block is made for a sum in between. At most `threads` threads, this one among them, make
/// the columns of the sum; fewer if there are few products.
pub fn accumulate_all<S: Semiring + Send + Sync, R: Threads + Sync>(
    rt: &R,
    alloc: Global,
    threads: u32,
    store: &mut RankStore<S>,
    products: &[(u16, u16)],
    acc: u16,
) -> Result<(), AllocError>
    requires some { 0 < length products.now }
    requires each { All (MayBeAdded store.old acc) products.now }
    ensures ok { OnOk result (store.new ≡ after_all S.arithmetic (map (adding acc) products.now) store.old) }
    ensures err { OnErr result (store.new ≡ store.old) }
{
    let Slot::Sheet(sum) = store.take(acc) else {
        unreachable!()
    };
    match all_added_to(rt, alloc, threads, store, products, sum) {
        Ok(sum) => {
            store.put(acc, sum);
            Ok(())
        }
        Err((sum, error)) => {
            store.put_shared(acc, sum);
            Err(error)
        }
    }
}

/// Adds products to a block, one after the other, whose factors are in these slots. If memory is refused, the block comes back
/// as it was.
fn all_added_to<S: Semiring + Send + Sync, R: Threads + Sync>(
    rt: &R,
    alloc: Global,
    threads: u32,
    store: &RankStore<S>,
    products: &[(u16, u16)],
    sum: SharedBlock<S>,
) -> Result<Block<S>, (SharedBlock<S>, AllocError)>
    requires hold { All (HoldProduct store.now sum.shape) products.now }
    ensures ok { IfOk result (IsSumWith S.arithmetic store.now sum products.now) }
    ensures err { IfErr result (λ e. e.0 ≡ sum) }
{
    let factors = match factors_in(alloc, store, products) {
        Ok(factors) => factors,
        Err(error) => return Err((sum, error)),
    };
    let sum = match sum.into_block() {
        Ok(sum) => sum,
        Err(refused) => return Err(refused),
    };
    let parts = (estimated_products(&factors) / LEAST_PRODUCTS).min(
        helpers(&factors, threads) as usize,
    );
    if parts > 1 {
        return match all_added_apart::<S, R>(rt, alloc, parts as u32, store, products, &sum) {
            Ok(made) => Ok(made),
            Err(error) => Err((SharedBlock::new(sum), error)),
        };
    }
    match multiply_all_into(alloc, &factors, sum) {
        Ok(sum) => Ok(sum),
        Err((sum, error)) => Err((SharedBlock::new(sum), error)),
    }
}

/// By how many of these threads the products are added: by all if nearly all entries are in one pair of blocks, as in a band,
/// since other ranks have few products then; by one in two if two pairs have equally many entries, and so on.
fn helpers<S: Semiring>(products: &[Factors<'_, S>], threads: u32) -> u32 {
    let (mut left, mut right, mut both) = (0usize, 0usize, 0usize);
    for factors in products {
        let pairs = factors.left.len().saturating_mul(factors.right.len());
        both = both.saturating_add(pairs);
        left = left.saturating_add(factors.left.len());
        right = right.saturating_add(factors.right.len());
    }
    let all = left.saturating_mul(right);
    let twice = both.saturating_mul(2).saturating_mul(threads as usize);
    let count = twice.saturating_add(all) / all.saturating_mul(2).max(1);
    count.min(u32::MAX as usize) as u32
}

/// The blocks in these slots, by pairs.
pub(crate) fn factors_in<'a, S: Semiring>(
    alloc: Global,
    store: &'a RankStore<S>,
    products: &[(u16, u16)],
) -> Result<Vec<Factors<'a, S>>, AllocError>
    requires { (shape : Extent) × All (HoldProduct store.now shape) products.now }
    ensures { IfOk result (λ factors. AllZip (HoldPair store.now) products.now (pairs_in factors.items)) }
{
    let mut factors = Vec::with_capacity(alloc, products.len())?;
    for pair in products {
        let left = store.sheet(pair.0);
        let right = store.sheet(pair.1);
        factors.push(Factors { left, right })?;
    }
    Ok(factors)
}
