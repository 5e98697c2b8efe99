//! What a function makes of the values of a block, without its places.
ghost use Rattle.std.specs.Prelude.{◌≡◌, ◌≢◌, ℕ, ◌<◌, IsTrue, length, slice_index, All, IfOk, IfSome};
ghost use Rattle.cb_semirings.specs.Arithmetic.{IsValue};
ghost use Rattle.cb_operations.specs.Functions.{operand_of, function_value};
ghost use Rattle.cb_selections.specs.KernelSteps.{depends_on_column, AreMade, IsResult};

use cb_matrix::Shape;
use cb_operations::Function;
use cb_semirings::Semiring;
use std::alloc::{AllocError, Global};

/// Whether the result of a function depends on the column.
pub(crate) fn depends_on_column(function: Function) -> bool
    ensures { result ≡ depends_on_column function }
{
    match function {
        Function::Constant(_) => false,
        Function::Sum(_) => false,
        Function::LeftProduct(_) => false,
        Function::RightProduct(_) => false,
        Function::Row => false,
        Function::Column => true,
    }
}

/// Whether a function gives zero in some row of a shape, whatever the value is.
pub(crate) fn gives_zeros<S: Semiring>(function: Function, shape: Shape) -> bool
    ensures { IsTrue result → (i : ℕ) × ((j x : ℕ) → function_value S.arithmetic function i j x ≡ S.arithmetic.zero) }
{
    match function {
        Function::Constant(number) => number == S::zero(),
        Function::Row => S::zero() < u64::from(shape.rows()),
        _ => false,
    }
}

/// The result of a function for each value, in its row and in column 0, or `None` if one is zero. Each function has a loop of
/// its own.
pub(crate) fn results<S: Semiring>(
    alloc: Global,
    function: Function,
    rows: &[u32],
    values: &[u64],
) -> Result<Option<Vec<u64>>, AllocError>
    requires lengths { length values.now ≡ length rows.now }
    requires values { All (IsValue S.arithmetic) values.now }
    requires operands { All (λ i. IsValue S.arithmetic (operand_of function i 0)) rows.now }
    ensures made { IfOk result (λ made. IfSome made (λ list. AreMade (IsResult S.arithmetic function) rows.now values.now list.items)) }
    ensures not_zero { IfOk result (λ made. IfSome made (λ list. All (λ v. v ≢ S.arithmetic.zero) list.items)) }
{
    match function {
        Function::Constant(number) => each::<S, _>(alloc, rows, values, |_row, _value| number),
        Function::Sum(number) => each::<S, _>(
            alloc,
            rows,
            values,
            |_row, value| S::add(value, number),
        ),
        Function::LeftProduct(number) => {
            each::<S, _>(alloc, rows, values, |_row, value| S::mul(number, value))
        }
        Function::RightProduct(number) => {
            each::<S, _>(alloc, rows, values, |_row, value| S::mul(value, number))
        }
        Function::Row => each::<S, _>(alloc, rows, values, |row, _value| u64::from(row)),
        Function::Column => each::<S, _>(alloc, rows, values, |_row, _value| 0),
    }
}

/// What `f` makes of each row and value, or `None` if it makes a zero.
fn each<S: Semiring, F: Fn(u32, u64) -> u64>(
    alloc: Global,
    rows: &[u32],
    values: &[u64],
    f: F,
) -> Result<Option<Vec<u64>>, AllocError>
    requires lengths { length values.now ≡ length rows.now }
    requires callable { (k : ℕ) → k < length rows.now → F.pre f (slice_index rows.now k) (slice_index values.now k) }
    ensures made { IfOk result (λ made. IfSome made (λ list. AreMade (F.post f) rows.now values.now list.items)) }
    ensures not_zero { IfOk result (λ made. IfSome made (λ list. All (λ v. v ≢ S.arithmetic.zero) list.items)) }
{
    let mut made = Vec::with_capacity(alloc, rows.len())?;
    for n in 0..rows.len() {
        let value = f(rows[n], values[n]);
        if value == S::zero() {
            return Ok(None);
        }
        made.push_reserved(value);
    }
    Ok(Some(made))
}
