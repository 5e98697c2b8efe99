//! Selections, and the matrices from which they can be made.
ghost use Rattle.std.specs.Prelude.{◌≡◌, ◌≢◌, ◌↔◌, ◌≤◌, ◌*◌, IsTrue, length};
ghost use Rattle.cb_matrix.specs.declared.TheConstants.{LIMIT};
ghost use Rattle.cb_operations.specs.Functions.{TakesValues};
ghost use Rattle.cb_operations.specs.SelectionAnswers.{operand_count_of, FitsAt, FitsLimit, IsPartOf, Suits, refusal_of, selection_of};

use crate::functions::Function;
use crate::numbers::Choice;
use crate::refusals::Refusal;
use crate::regions::{Diagonal, Region};
use cb_matrix::{LIMIT, Shape};
use cb_semirings::Semiring;
use std::num::NonZeroU32;

/// A matrix made from one or two others over a semiring: from their entries by place or by value, or as a power or a Kronecker
/// product. Rows and columns are counted from 0.
#[derive(Clone, Copy, PartialEq, Eq)]
pub enum Selection {
    /// The entries in a region.
    Select(Region),
    /// A function of each entry in place of its value. Results of zero aren't stored.
    Apply(Function),
    /// The main diagonal, as one column.
    Diagonal,
    /// The square matrix with a column on its main diagonal.
    DiagonalMatrix,
    /// The power of a square matrix with this many factors, which are multiplied from the left.
    Power(NonZeroU32),
    /// The part in a range of rows and a range of columns, each from the first number up to, but not including, the second.
    Part((u32, u32), (u32, u32)),
    /// The Kronecker product of two matrices.
    Kronecker,
    /// The first matrix with the second in place of the part that begins at a corner, a row and a column.
    Assign((u32, u32)),
    /// The entries of the first matrix at the places where the second, of the same shape, has none: a complemented mask.
    Exclude,
}

impl Selection {
    /// How many matrices it is made from, 1 or 2.
    pub fn operand_count(self) -> usize
        ensures count { result ≡ operand_count_of self }
        ensures some { 1 ≤ result }
        ensures few { result ≤ 2 }
    {
        match self {
            Selection::Select(_region) => 1,
            Selection::Apply(_function) => 1,
            Selection::Diagonal => 1,
            Selection::DiagonalMatrix => 1,
            Selection::Power(_factors) => 1,
            Selection::Part(_rows, _cols) => 1,
            Selection::Kronecker => 2,
            Selection::Assign(_corner) => 2,
            Selection::Exclude => 2,
        }
    }

    /// Why it is refused, if it is.
    pub fn refusal(self) -> Refusal
        ensures { result ≡ refusal_of self }
    {
        match self {
            Selection::Select(_region) => Refusal::Shapes,
            Selection::Apply(_function) => Refusal::NoValue,
            Selection::Diagonal => Refusal::Shapes,
            Selection::DiagonalMatrix => Refusal::NotColumn,
            Selection::Power(_factors) => Refusal::NotSquare,
            Selection::Part(_rows, _cols) => Refusal::Place,
            Selection::Kronecker => Refusal::TooLarge,
            Selection::Assign(_corner) => Refusal::Place,
            Selection::Exclude => Refusal::Shapes,
        }
    }

    /// Whether it can be made from matrices of these shapes over a semiring.
    pub fn suits<S: Semiring>(self, shapes: &[Shape]) -> bool
        requires { length shapes.now ≡ operand_count_of self }
        ensures { IsTrue result ↔ Suits self S.arithmetic shapes.now }
    {
        match self {
            Selection::Select(_region) => true,
            Selection::Apply(function) => function.fits::<S>(shapes[0]),
            Selection::Diagonal => true,
            Selection::DiagonalMatrix => shapes[0].cols() == 1,
            Selection::Power(_factors) => shapes[0].rows() == shapes[0].cols(),
            Selection::Part(rows, cols) => is_part(rows, cols, shapes[0]),
            Selection::Kronecker => fits_limit(shapes[0], shapes[1]),
            Selection::Assign(corner) => fits_at(corner, shapes[1], shapes[0]),
            Selection::Exclude => shapes[1] == shapes[0],
        }
    }

    /// Returns the selection of a choice that isn't a power, by its number. 11 to 14 are the entries in a region: the lower and the
    /// upper triangle, the diagonal, and all off it. 15 to 20 are a function of each entry: the constant, the sum, the products
    /// from the left and from the right, the row and the column. 21 is the diagonal, 22 the matrix of a diagonal, 23 a part, 24
    /// the Kronecker product, 25 one matrix put into another, and 26 the entries outside a mask. No other number has one.
    pub fn numbered(choice: &Choice) -> Option<Selection>
        ensures { result ≡ selection_of choice.now }
    {
        let (row, column) = (choice.row, choice.column);
        let (diagonal, value) = (Diagonal { row, column }, choice.value);
        match choice.number {
            11 => Some(Selection::Select(Region::Lower(diagonal))),
            12 => Some(Selection::Select(Region::Upper(diagonal))),
            13 => Some(Selection::Select(Region::On(diagonal))),
            14 => Some(Selection::Select(Region::Off(diagonal))),
            15 => Some(Selection::Apply(Function::Constant(value))),
            16 => Some(Selection::Apply(Function::Sum(value))),
            17 => Some(Selection::Apply(Function::LeftProduct(value))),
            18 => Some(Selection::Apply(Function::RightProduct(value))),
            19 => Some(Selection::Apply(Function::Row)),
            20 => Some(Selection::Apply(Function::Column)),
            21 => Some(Selection::Diagonal),
            22 => Some(Selection::DiagonalMatrix),
            23 => Some(Selection::Part((row, choice.row_end), (column, choice.column_end))),
            24 => Some(Selection::Kronecker),
            25 => Some(Selection::Assign((row, column))),
            26 => Some(Selection::Exclude),
            _ => None,
        }
    }
}

/// Whether two ranges, of which neither descends, end within a matrix of this shape.
fn is_part(rows: (u32, u32), cols: (u32, u32), whole: Shape) -> bool
    ensures { IsTrue result ↔ IsPartOf rows cols whole }
{
    rows.0 <= rows.1 && rows.1 <= whole.rows() && cols.0 <= cols.1 && cols.1 <= whole.cols()
}

/// Whether the Kronecker product of matrices of two shapes isn't too large.
fn fits_limit(left: Shape, right: Shape) -> bool
    ensures { IsTrue result ↔ FitsLimit left right }
{
    let rows = u64::from(left.rows()) * u64::from(right.rows());
    let cols = u64::from(left.cols()) * u64::from(right.cols());
    rows <= u64::from(LIMIT) && cols <= u64::from(LIMIT)
}

/// Whether a part that begins at a corner ends within a matrix of this shape.
fn fits_at(corner: (u32, u32), part: Shape, whole: Shape) -> bool
    ensures { IsTrue result ↔ FitsAt corner part whole }
{
    let bottom = u64::from(corner.0) + u64::from(part.rows());
    let right = u64::from(corner.1) + u64::from(part.cols());
    bottom <= u64::from(whole.rows()) && right <= u64::from(whole.cols())
}
