//! Element-wise operations on blocks: sums, products, masks, and entries dropped by a test.
//!
//! The value at a place of the result depends on the values at that place alone. So two blocks are joined by one walk over the
//! columns that have entries. A column that both have is joined row by row: at each row where one of the two has an entry, a
//! rule combines the two values, where no entry is the semiring's zero, and the result is stored unless it is zero. What one
//! side alone has, a column or the end of one, is copied whole or left out, as the rule says. `rules` has the rules,
//! `column_joins` the joint walk over two columns, and `joins` that over two blocks. One block is walked by `replacements`,
//! which apply a rule of `value_rules` to each entry.
//!
//! The cost of each call is proportional to the stored entries of its operands, whatever their dimensions. The
//! operations are those of Kepner and Gilbert, Graph Algorithms in the Language of Linear Algebra (SIAM 2011), section 2.
#![tactic(auto)]

ghost use Rattle.std.specs.Prelude.{◌≡◌, ◌≢◌, ◌↔◌, ℕ, ◌<◌, ◌≤◌, ◌+◌, IsTrue, List, [], ◌∷◌, ◌++◌, length, All, IfOk, IfSome, IfNone, OnOk, OnErr};
ghost use Rattle.cb_matrix.specs.Operations.{sum_of, times_of, pruned, masked};
ghost use Rattle.cb_matrix.specs.Passing.{passes};
ghost use Rattle.cb_operations.specs.SelectionAnswers.{excluded};

mod column_joins;
mod joins;
mod replacements;
mod rules;
mod value_rules;

use crate::joins::joined;
use crate::rules::{Exclusion, Product, Restriction, Sum};
use cb_dcsc::Block;
use cb_matrix::Test;
use cb_semirings::Semiring;
pub use replacements::replaced;
use std::alloc::{AllocError, Global};
pub use value_rules::ValueRule;

/// The element-wise sum of two blocks of one shape. Sums of zero aren't stored.
///
/// Costs a few instructions for each entry of the two.
pub fn add<S: Semiring>(
    alloc: Global,
    left: &Block<S>,
    right: &Block<S>,
) -> Result<Block<S>, AllocError>
    requires { right.now.shape ≡ left.now.shape }
    ensures { IfOk result (λ sum. sum ≡ sum_of S.arithmetic left.now right.now) }
{
    let room = left.len().max(right.len());
    joined(alloc, &Sum, left, right, room)
}

/// The element-wise product of two blocks of one shape. Products of zero aren't stored.
///
/// Costs a few instructions for each entry of the two.
pub fn times<S: Semiring>(
    alloc: Global,
    left: &Block<S>,
    right: &Block<S>,
) -> Result<Block<S>, AllocError>
    requires { right.now.shape ≡ left.now.shape }
    ensures { IfOk result (λ product. product ≡ times_of S.arithmetic left.now right.now) }
{
    let room = left.len().min(right.len());
    joined(alloc, &Product, left, right, room)
}

/// The entries of a block at the places where a mask of the same shape has an entry. The values of the mask don't
/// matter.
///
/// Costs a few instructions for each entry of the two.
pub fn mask<S: Semiring>(
    alloc: Global,
    block: &Block<S>,
    mask: &Block<S>,
) -> Result<Block<S>, AllocError>
    requires { mask.now.shape ≡ block.now.shape }
    ensures { IfOk result (λ kept. kept ≡ masked S.arithmetic block.now mask.now) }
{
    let room = block.len().min(mask.len());
    joined(alloc, &Restriction, block, mask, room)
}

/// The entries of a block at the places where a mask of the same shape has none: those that the complement of the mask
/// allows. The values of the mask don't matter.
///
/// Costs a few instructions for each entry of the two.
pub fn exclude<S: Semiring>(
    alloc: Global,
    block: &Block<S>,
    mask: &Block<S>,
) -> Result<Block<S>, AllocError>
    requires { mask.now.shape ≡ block.now.shape }
    ensures { IfOk result (λ kept. kept ≡ excluded S.arithmetic block.now mask.now) }
{
    joined(alloc, &Exclusion, block, mask, block.len())
}

/// The block without the entries whose value passes the test.
///
/// Costs a few instructions for each entry. Room is taken only as it is needed, since few entries may be left.
pub fn prune<S: Semiring>(
    alloc: Global,
    block: &Block<S>,
    test: Test,
) -> Result<Block<S>, AllocError>
    ensures { IfOk result (λ kept. kept ≡ pruned S.arithmetic (passes test) block.now) }
{
    replaced(alloc, block, &test, 0)
}
