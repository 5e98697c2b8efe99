//! Plans over a grid of ranks: the transpose, element-wise sums and products, pruning, sums of rows and of columns, and
//! the product of a matrix and a vector.
//!
//! Rank (i, j) keeps its block of the first matrix in slot 0, that of the second in slot 1, and that of the answer in
//! slot 2; slot 0 isn't changed. Element-wise operations need no letters except close marks. In a transpose each rank
//! sends its transposed block across the diagonal. A vector is spread over all ranks, a piece in slot 1 of each. Its
//! pieces go down the columns of ranks, and those of the products along the rows.
//!
//! `specs/GridPlans`, `specs/VectorPlans` and `specs/ReductionPlans` list the acts of each plan, and define what they
//! leave.
#![tactic(auto)]

mod placewise;
mod reduction_plans;
mod transposes;
mod vector_plans;

pub use placewise::{grid_add, grid_prune, grid_times};
pub use reduction_plans::{grid_column_sums, grid_row_sums};
pub use transposes::grid_transpose;
pub use vector_plans::grid_vector;
