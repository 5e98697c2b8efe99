//! Computations by numbers, as programs in other languages name them.
ghost use Rattle.std.specs.Prelude.{◌≡◌};
ghost use Rattle.cb_operations.specs.Numbers.{IsChosen, IsPowerOf, operation_of};

use crate::computations::Computation;
use crate::operations::Operation;
use crate::selections::Selection;
use cb_matrix::Test;
use std::num::NonZeroU32;

impl Operation {
    /// Returns the operation of a number: 0 to 7 for those without a test in the order of [`Operation`], then 8 for the prune that
    /// drops values below `value`, 9 for those above it, and 10 for those equal to it. No other number has an operation.
    pub fn numbered(number: u32, value: u64) -> Option<Operation>
        ensures { result ≡ operation_of number value }
    {
        match number {
            0 => Some(Operation::Multiply),
            1 => Some(Operation::MultiplyMasked),
            2 => Some(Operation::MultiplyVector),
            3 => Some(Operation::Transpose),
            4 => Some(Operation::RowSums),
            5 => Some(Operation::ColumnSums),
            6 => Some(Operation::Add),
            7 => Some(Operation::Times),
            8 => Some(Operation::Prune(Test::Below(value))),
            9 => Some(Operation::Prune(Test::Above(value))),
            10 => Some(Operation::Prune(Test::Equal(value))),
            _ => None,
        }
    }
}

/// A computation by its number, and what it takes.
#[repr(C)]
#[derive(Clone, Copy)]
pub struct Choice {
    /// 0 to 10 for an operation ([`Operation::numbered`]), 27 for a power, 28 for the product outside a mask, and any other for the
    /// selection that has it ([`Selection::numbered`]).
    pub number: u32,
    /// A row on the diagonal of a region, or the first of a part.
    pub row: u32,
    /// The row after the last of a part.
    pub row_end: u32,
    /// A column on the diagonal of a region, or the first of a part.
    pub column: u32,
    /// The column after the last of a part.
    pub column_end: u32,
    /// How many factors a power has.
    pub factors: u32,
    /// The number that a function takes, or with which the values that a prune drops are compared.
    pub value: u64,
}

impl Computation {
    /// Returns the computation of a choice. There is none of another number, and no power without factors.
    pub fn chosen(choice: &Choice) -> Option<Computation>
        ensures { IsChosen choice.now result }
    {
        if choice.number <= 10 {
            let operation = Operation::numbered(choice.number, choice.value)?;
            return Some(Computation::Operation(operation));
        }
        match choice.number {
            27 => power_of(choice.factors),
            28 => Some(Computation::MultiplyOutside),
            _ => Some(Computation::Selection(Selection::numbered(choice)?)),
        }
    }
}

/// The power with this many factors. There is none with 0.
fn power_of(factors: u32) -> Option<Computation>
    ensures { IsPowerOf factors result }
{
    let factors = NonZeroU32::new(factors)?;
    Some(Computation::Selection(Selection::Power(factors)))
}
