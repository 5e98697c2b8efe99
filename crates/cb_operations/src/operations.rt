//! Operations, and the shapes that they take.
ghost use Rattle.std.specs.Prelude.{◌≡◌, ◌≤◌, length, IfSome, IfNone};
ghost use Rattle.cb_operations.specs.OperationAnswers.{operand_count_of, Agree, IsShapeOfAnswers, shape_of};

use cb_matrix::{Shape, Test};

/// The most matrices that an operation takes.
pub const MOST_OPERANDS: usize = 3;

/// An operation on matrices over a semiring, whose result is a matrix.
#[derive(Clone, Copy, PartialEq, Eq)]
pub enum Operation {
    /// The product of two matrices. The second has as many rows as the first has columns.
    Multiply,
    /// The same, under a mask: only the entries where a third matrix of the product's shape has an entry. The mask's
    /// values don't matter.
    MultiplyMasked,
    /// The product of a matrix and a vector, which is a matrix of one column.
    MultiplyVector,
    /// The transpose of a matrix.
    Transpose,
    /// The sum of each row of a matrix, as a matrix of one column.
    RowSums,
    /// The sum of each column of a matrix, as a matrix of one row.
    ColumnSums,
    /// The element-wise sum of two matrices of one shape.
    Add,
    /// The element-wise product of two matrices of one shape.
    Times,
    /// A matrix without the entries whose value passes the test.
    Prune(Test),
}

/// The operands of an operation, in order.
#[derive(Drop)]
pub enum Operands<M> {
    /// For an operation on one matrix.
    One(M),
    /// For an operation on two matrices.
    Two(M, M),
    /// For a product of two matrices under a mask, which is the third.
    Three(M, M, M),
}

impl Operation {
    /// How many matrices it takes, 1 to 3.
    pub fn operand_count(self) -> usize
        ensures count { result ≡ operand_count_of self }
        ensures some { 1 ≤ result }
        ensures few { result ≤ MOST_OPERANDS }
    {
        match self {
            Operation::Multiply => 2,
            Operation::MultiplyMasked => 3,
            Operation::MultiplyVector => 2,
            Operation::Transpose => 1,
            Operation::RowSums => 1,
            Operation::ColumnSums => 1,
            Operation::Add => 2,
            Operation::Times => 2,
            Operation::Prune(_test) => 1,
        }
    }

    /// The shape of its result for matrices of these shapes. None if they don't agree.
    pub fn shape_of(self, shapes: &[Shape]) -> Option<Shape>
        requires { length shapes.now ≡ operand_count_of self }
        ensures agree { IfSome result (λ d. Agree self shapes.now) }
        ensures shape { IfSome result (λ d. d ≡ shape_of self shapes.now) }
        ensures law { IfSome result (IsShapeOfAnswers self shapes.now) }
        ensures none { IfNone result (¬ Agree self shapes.now) }
    {
        match self {
            Operation::Multiply => product_shape(shapes[0], shapes[1]),
            Operation::MultiplyMasked => {
                let product = product_shape(shapes[0], shapes[1])?;
                same_shape(product, shapes[2])
            }
            Operation::MultiplyVector => vector_shape(shapes[0], shapes[1]),
            Operation::Transpose => Some(turned(shapes[0])),
            Operation::RowSums => Shape::new(shapes[0].rows(), 1),
            Operation::ColumnSums => Shape::new(1, shapes[0].cols()),
            Operation::Add => same_shape(shapes[0], shapes[1]),
            Operation::Times => same_shape(shapes[0], shapes[1]),
            Operation::Prune(_test) => Some(shapes[0]),
        }
    }
}

/// The shape of the product of two matrices. None if the first doesn't have as many columns as the second has rows.
fn product_shape(left: Shape, right: Shape) -> Option<Shape>
    ensures agree { IfSome result (λ d. left.cols ≡ right.rows) }
    ensures shape { IfSome result (λ d. d ≡ record { rows = left.rows; cols = right.cols }) }
    ensures none { IfNone result (¬ (left.cols ≡ right.rows)) }
{
    if left.cols() != right.rows() {
        return None;
    }
    Some(left.with_columns_of(right))
}

/// The shape of the product of a matrix and a vector. None if the vector doesn't have one column and as many rows as
/// the matrix has columns.
fn vector_shape(matrix: Shape, vector: Shape) -> Option<Shape>
    ensures agree { IfSome result (λ d. (matrix.cols ≡ vector.rows) × (vector.cols ≡ 1)) }
    ensures shape { IfSome result (λ d. d ≡ record { rows = matrix.rows; cols = vector.cols }) }
    ensures none { IfNone result (¬ ((matrix.cols ≡ vector.rows) × (vector.cols ≡ 1))) }
{
    if vector.cols() != 1 {
        return None;
    }
    product_shape(matrix, vector)
}

/// The shape of two matrices. None if they have different ones.
fn same_shape(first: Shape, second: Shape) -> Option<Shape>
    ensures agree { IfSome result (λ d. first ≡ second) }
    ensures shape { IfSome result (λ d. d ≡ first) }
    ensures none { IfNone result (¬ (first ≡ second)) }
{
    if first != second {
        return None;
    }
    Some(first)
}

/// A shape with rows and columns exchanged.
fn turned(shape: Shape) -> Shape
    ensures { result ≡ record { rows = shape.cols; cols = shape.rows } }
{
    Shape::new(shape.cols(), shape.rows()).unwrap()
}
