//! What is computed of matrices by several threads, which share the operands.
ghost use Rattle.std.specs.Prelude.{◌≡◌, ◌<◌, [], ◌∷◌, length, IfOk, IfErr};
ghost use Rattle.cb_operations.specs.Computations.{operand_count_of, Suits, answer_of, IsFaultOf};
ghost use Rattle.cb_operations.specs.OperationAnswers.{shapes_in};
ghost use Rattle.cb_operations.specs.Operands.{lent_in};
ghost use Rattle.cb_panels.specs.Shared.{AreShared, MayEnd};
ghost use Rattle.cb_shares.specs.Shares.{AreEnds};

use crate::Panels;
use crate::ranges::{make_all, make_whole};
use cb_layout::PanelledMatrix;
use cb_operations::{Computation, ComputeFault, Operation};
use cb_semirings::Semiring;
use cb_shares::{check, ends_by_entries, ends_of, even_ends, is_by_columns};
use std::alloc::{AllocError, Global};
use std::thread::Threads;

/// Where the ranges of columns end that threads make of what is computed of one matrix. They share a transpose of a matrix in one
/// panel: each reads all entries, and places those of its rows.
fn ends_of_one<S: Semiring>(
    alloc: Global,
    panels: Panels,
    computation: Computation,
    a: &PanelledMatrix<S>,
) -> Result<Vec<u32>, AllocError>
    ensures { IfOk result (λ ends. MayEnd (answer_of computation S.arithmetic (a.now ∷ [])) ends.items) }
{
    let (front, others) = a.panels();
    if let Computation::Operation(Operation::Transpose) = computation {
        if others.is_empty() {
            let enough = front.len() / panels.least.max(1);
            let count = enough.min(panels.most as usize);
            return even_ends(alloc, a.shape().rows(), count);
        }
    }
    Ok(Vec::new(alloc))
}

/// Where those of a product end, also under a mask or outside it: each takes about the same number of products of two values.
fn ends_of_product<S: Semiring>(
    alloc: Global,
    panels: Panels,
    a: &PanelledMatrix<S>,
    b: &PanelledMatrix<S>,
) -> Result<Vec<u32>, AllocError>
    requires { a.now.shape.cols ≡ b.now.shape.rows }
    ensures { IfOk result (λ ends. AreEnds (length ends.items) b.now.shape.cols ends.items) }
{
    let left = a.whole()?;
    let right = b.whole()?;
    prove_eq!(left.block().shape().cols(), right.block().shape().rows());
    let count = panels.most as usize;
    ends_of(alloc, left.block(), right.block(), count, panels.least)
}

/// Where the ranges end that threads make of what is computed of two matrices. They share a product of them.
fn ends_of_two<S: Semiring>(
    alloc: Global,
    panels: Panels,
    computation: Computation,
    a: &PanelledMatrix<S>,
    b: &PanelledMatrix<S>,
) -> Result<Vec<u32>, AllocError>
    requires { Suits computation S.arithmetic (shapes_in (a.now ∷ b.now ∷ [])) }
    ensures { IfOk result (λ ends. MayEnd (answer_of computation S.arithmetic (a.now ∷ b.now ∷ [])) ends.items) }
{
    if let Computation::Operation(Operation::Multiply) = computation {
        return ends_of_product(alloc, panels, a, b);
    }
    Ok(Vec::new(alloc))
}

/// Where the ranges of columns end that threads make of a result. There are none if one thread makes all columns.
fn range_ends<S: Semiring>(
    alloc: Global,
    panels: Panels,
    computation: Computation,
    operands: &[&PanelledMatrix<S>],
) -> Result<Vec<u32>, AllocError>
    requires { AreShared S.arithmetic computation operands.now }
    ensures { IfOk result (λ ends. MayEnd (answer_of computation S.arithmetic (lent_in operands.now)) ends.items) }
{
    if panels.most < 2 {
        return Ok(Vec::new(alloc));
    }
    if is_by_columns(computation) {
        let (cols, count) = (operands[0].shape().cols(), panels.most as usize);
        return ends_by_entries(alloc, operands, cols, count, panels.least);
    }
    match operands {
        [a] => ends_of_one(alloc, panels, computation, a),
        [a, b, _mask] => ends_of_product(alloc, panels, a, b),
        [a, b] => ends_of_two(alloc, panels, computation, a, b),
        _ => Ok(Vec::new(alloc)),
    }
}

/// What is computed of matrices that suit it.
fn computed<S: Semiring + Send + Sync, R: Threads + Sync>(
    rt: &R,
    alloc: Global,
    panels: Panels,
    computation: Computation,
    operands: &[&PanelledMatrix<S>],
) -> Result<PanelledMatrix<S>, AllocError>
    requires { AreShared S.arithmetic computation operands.now }
    ensures { IfOk result (λ m. m ≡ answer_of computation S.arithmetic (lent_in operands.now)) }
{
    let ends = range_ends(alloc, panels, computation, operands)?;
    if ends.is_empty() {
        return make_whole(alloc, computation, operands);
    }
    make_all(rt, alloc, computation, operands, &ends)
}

/// Computes anything of matrices, by as many threads as there are panels, this one among them. They share what is computed by
/// columns, such as sums and products place by place, prunes, functions of entries and complemented masks; transposes; and products
/// of matrices, also under a mask or outside it. Each makes some columns, which stay in a panel of their own. This thread alone
/// does all else, and what is computed of few entries. What is refused is refused before memory is requested.
///
/// Costs what it costs by one thread, divided among the threads. Each thread copies its columns of an operand, and for a product
/// has an index of the left factor's columns; an operand in several panels is copied where nothing is shared, and by each thread as
/// the left factor of a product.
pub fn compute<S: Semiring + Send + Sync, R: Threads + Sync>(
    rt: &R,
    alloc: Global,
    panels: Panels,
    computation: Computation,
    operands: &[&PanelledMatrix<S>],
) -> Result<PanelledMatrix<S>, ComputeFault>
    requires { length operands.now ≡ operand_count_of computation }
    ensures ok { IfOk result (λ m. m ≡ answer_of computation S.arithmetic (lent_in operands.now)) }
    ensures suits { IfOk result (λ _. Suits computation S.arithmetic (shapes_in (lent_in operands.now))) }
    ensures fault { IfErr result (IsFaultOf computation S.arithmetic (lent_in operands.now)) }
{
    check::<S>(computation, operands)?;
    Ok(computed(rt, alloc, panels, computation, operands)?)
}
