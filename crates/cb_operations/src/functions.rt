//! Functions that give an entry a new value.
ghost use Rattle.std.specs.Prelude.{◌≡◌, ◌↔◌, ℕ, ◌<◌, IsTrue};
ghost use Rattle.cb_semirings.specs.Arithmetic.{IsValue};
ghost use Rattle.cb_operations.specs.Functions.{TakesValues, operand_of, function_value};

use cb_matrix::Shape;
use cb_semirings::Semiring;

/// A function of the value of an entry and of its place. Rows and columns are counted from 0.
#[derive(Clone, Copy, PartialEq, Eq)]
pub enum Function {
    /// Always this number.
    Constant(u64),
    /// The sum of the value and this number.
    Sum(u64),
    /// The product of this number and the value.
    LeftProduct(u64),
    /// The product of the value and this number.
    RightProduct(u64),
    /// The number of the row.
    Row,
    /// The number of the column.
    Column,
}

impl Function {
    /// Whether the numbers that it takes in matrices of a shape are values of the semiring: its own, whatever the shape, or those
    /// of all rows or of all columns.
    pub fn fits<S: Semiring>(&self, shape: Shape) -> bool
        ensures fits { IsTrue result ↔ TakesValues S.arithmetic self.now shape }
        ensures places { IsTrue result → (i j : ℕ) → i < shape.rows → j < shape.cols → IsValue S.arithmetic (operand_of self.now i j) }
    {
        match self {
            Function::Constant(number) => S::is_value(*number),
            Function::Sum(number) => S::is_value(*number),
            Function::LeftProduct(number) => S::is_value(*number),
            Function::RightProduct(number) => S::is_value(*number),
            Function::Row => are_values::<S>(shape.rows()),
            Function::Column => are_values::<S>(shape.cols()),
        }
    }

    /// Its result for a value at a place.
    pub fn value<S: Semiring>(&self, row: u32, column: u32, value: u64) -> u64
        requires value { IsValue S.arithmetic value }
        requires operand { IsValue S.arithmetic (operand_of self.now row column) }
        ensures { result ≡ function_value S.arithmetic self.now row column value }
    {
        match self {
            Function::Constant(number) => *number,
            Function::Sum(number) => S::add(value, *number),
            Function::LeftProduct(number) => S::mul(*number, value),
            Function::RightProduct(number) => S::mul(value, *number),
            Function::Row => u64::from(row),
            Function::Column => u64::from(column),
        }
    }
}

/// Whether all numbers below this one are values of the semiring.
fn are_values<S: Semiring>(count: u32) -> bool
    ensures { IsTrue result ↔ ((i : ℕ) → i < count → IsValue S.arithmetic i) }
{
    count == 0 || S::is_value(u64::from(count - 1))
}
