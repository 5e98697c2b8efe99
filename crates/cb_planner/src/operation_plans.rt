//! The plan of each operation, by the shapes of its operands.
ghost use Rattle.std.specs.Prelude.{◌≡◌, length, Ok, IfOk};
ghost use Rattle.cb_operations.specs.OperationAnswers.{operand_count_of, Agree};
ghost use Rattle.cb_planner.specs.OperationPlans.{Computes};

use cb_layout::Grid;
use cb_matrix::{Shape, Test};
use cb_operations::Operation;
use cb_plan::{PlanFault, Planned};
use cb_plan_operations::{
    grid_add, grid_column_sums, grid_prune, grid_row_sums, grid_times, grid_transpose,
};
use cb_plan_summa::{summa, summa_masked};
use std::alloc::{AllocError, Global};

/// The plan by which the ranks of a grid compute an operation on matrices of these shapes, which agree.
///
/// The blocks of the first matrix are in slot 0 of the ranks, those of the second in slot 1, and those of a mask in slot 7.
/// A product by a vector is planned as one of two matrices, and the vector is cut over the grid as they are. The memory is
/// proportional to the number of acts, whatever the shapes are.
pub fn plan_of(
    alloc: Global,
    grid: &Grid,
    operation: Operation,
    shapes: &[Shape],
) -> Result<Planned, AllocError>
    requires count { length shapes.now ≡ operand_count_of operation }
    requires agree { Agree operation shapes.now }
    ensures { IfOk result (Computes operation grid.now.side shapes.now) }
{
    match operation {
        Operation::Multiply => planned(summa(alloc, grid, shapes[0], shapes[1])),
        Operation::MultiplyMasked => planned(summa_masked(alloc, grid, shapes[0], shapes[1])),
        Operation::MultiplyVector => planned(summa(alloc, grid, shapes[0], shapes[1])),
        Operation::Transpose => planned(grid_transpose(alloc, grid, shapes[0])),
        Operation::RowSums => planned(grid_row_sums(alloc, grid, shapes[0])),
        Operation::ColumnSums => planned(grid_column_sums(alloc, grid, shapes[0])),
        Operation::Add => planned(grid_add(alloc, grid, shapes[0])),
        Operation::Times => planned(grid_times(alloc, grid, shapes[0])),
        Operation::Prune(test) => planned(grid_prune(alloc, grid, shapes[0], test)),
    }
}

/// The plan that was made, of which only want of memory is a fault.
fn planned(made: Result<Planned, PlanFault>) -> Result<Planned, AllocError>
    ensures { IfOk result (λ p. made ≡ Ok p) }
{
    match made {
        Ok(planned) => Ok(planned),
        Err(_fault) => Err(AllocError),
    }
}
