//! The product of a block and a vector, as a sparse column or by a list of all sums.
ghost use Rattle.std.specs.Prelude.{◌≡◌, IfOk};
ghost use Rattle.cb_matrix.specs.Values.{product};

use cb_dcsc::Block;
use cb_dense::add_product;
use cb_product::multiply;
use cb_reshape::{column_of_list, has_few_rows};
use cb_semirings::Semiring;
use std::alloc::{AllocError, Global};

/// The product of a block and a vector, which is a block of one column.
///
/// Costs the entries of the columns that the vector's entries name. If neither has more than four rows for each entry, the
/// sums are added up in a list with a place for each row, which then costs no more than the entries of both.
pub(crate) fn multiply_vector<S: Semiring>(
    alloc: Global,
    matrix: &Block<S>,
    vector: &Block<S>,
) -> Result<Block<S>, AllocError>
    requires agree { matrix.now.shape.cols ≡ vector.now.shape.rows }
    requires column { vector.now.shape.cols ≡ 1 }
    ensures { IfOk result (λ m. m ≡ product S.arithmetic matrix.now vector.now) }
{
    if has_few_rows(matrix) && has_few_rows(vector) {
        listed_product(alloc, matrix, vector)
    } else {
        multiply(alloc, matrix, vector)
    }
}

/// The product, by a list of all sums.
fn listed_product<S: Semiring>(
    alloc: Global,
    matrix: &Block<S>,
    vector: &Block<S>,
) -> Result<Block<S>, AllocError>
    requires agree { matrix.now.shape.cols ≡ vector.now.shape.rows }
    requires column { vector.now.shape.cols ≡ 1 }
    ensures { IfOk result (λ m. m ≡ product S.arithmetic matrix.now vector.now) }
{
    let shape = matrix.shape().with_columns_of(vector.shape());
    let mut sums = vec![in alloc; S::zero(); shape.rows() as usize]?;
    add_product(&mut sums, matrix, vector);
    column_of_list(alloc, shape, &sums)
}
