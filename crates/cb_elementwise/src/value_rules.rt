//! Rules that give an entry a new value, by its place.
ghost use Rattle.std.specs.Prelude.{◌≡◌, ℕ};
ghost use Rattle.cb_semirings.specs.Arithmetic.{IsValue};
ghost use Rattle.cb_operations.specs.Functions.{operand_of, function_value};
ghost use Rattle.cb_operations.specs.Regions.{is_in, where_true};
ghost use Rattle.cb_elementwise.specs.RuleLaws.{function_value-value, unless_passes, unless_passes-value, where_true-value};

use cb_matrix::Test;
use cb_operations::{Function, Region};
use cb_semirings::Semiring;

/// A rule makes a value from the value and the place of an entry.
pub trait ValueRule<S: Semiring> {
    /// At this place it makes values from values.
    ghost fits: { Self → ℕ → ℕ → Type 0 };

    /// The new value, by row, column and old value.
    ghost made: { Self → ℕ → ℕ → ℕ → ℕ };

    fn make(&self, row: u32, column: u32, value: u64) -> u64
        requires value { IsValue S.arithmetic value }
        requires fits { fits self.now row column }
        ensures { result ≡ made self.now row column value };

    ghost values: { (rule : Self) (i j x : ℕ) → fits rule i j → IsValue S.arithmetic x → IsValue S.arithmetic (made rule i j x) };
}

/// Keeps a value, unless it passes the test.
impl<S: Semiring> ValueRule<S> for Test {
    ghost fits = { λ rule i j. Unit {0} };

    ghost made = { λ rule i j x. unless_passes S.arithmetic.zero rule x };

    ghost values = { λ rule i j x f h. unless_passes-value S.arithmetic S.is_semiring rule x h };

    fn make(&self, _row: u32, _column: u32, value: u64) -> u64 {
        if self.passes(value) { S::zero() } else { value }
    }
}

/// Keeps values in the region, and makes others zero.
impl<S: Semiring> ValueRule<S> for Region {
    ghost fits = { λ rule i j. Unit {0} };

    ghost made = { λ rule i j x. where_true S.arithmetic.zero (is_in rule i j) x };

    ghost values = { λ rule i j x f h. where_true-value S.arithmetic S.is_semiring (is_in rule i j) x h };

    fn make(&self, row: u32, column: u32, value: u64) -> u64 {
        if self.has(row, column) {
            value
        } else {
            S::zero()
        }
    }
}

/// Applies the function.
impl<S: Semiring> ValueRule<S> for Function {
    ghost fits = { λ rule i j. IsValue S.arithmetic (operand_of rule i j) };

    ghost made = { λ rule i j x. function_value S.arithmetic rule i j x };

    ghost values = { λ rule i j x f h. function_value-value S.arithmetic S.is_semiring rule i j x f h };

    fn make(&self, row: u32, column: u32, value: u64) -> u64 {
        self.value::<S>(row, column, value)
    }
}
