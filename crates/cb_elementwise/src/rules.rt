//! Rules: the value of a place, given the values of two blocks there.
ghost use Rattle.std.specs.Prelude.{◌≡◌, ℕ, cond, ◌==◌, not};
ghost use Rattle.cb_semirings.specs.Arithmetic.{IsValue};
ghost use Rattle.cb_elementwise.specs.RuleLaws.{where_stored, where_stored-zero, where_stored-value, where_absent, where_absent-zero, where_absent-value};

use cb_semirings::Semiring;

/// A rule combines two values of a semiring into one, and two zeros into zero.
pub(crate) trait Rule<S: Semiring> {
    /// The combined value.
    ghost combined: { Self → ℕ → ℕ → ℕ };

    /// Whether a value of the left block is kept where the right block has none. Otherwise it is dropped.
    fn keeps_left(&self) -> bool
        ensures { (x : ℕ) → IsValue S.arithmetic x → combined self.now x S.arithmetic.zero ≡ cond result x S.arithmetic.zero };

    /// Whether a value of the right block is kept where the left block has none. Otherwise it is dropped.
    fn keeps_right(&self) -> bool
        ensures { (x : ℕ) → IsValue S.arithmetic x → combined self.now S.arithmetic.zero x ≡ cond result x S.arithmetic.zero };

    fn combine(&self, left: u64, right: u64) -> u64
        requires left_is_value { IsValue S.arithmetic left }
        requires right_is_value { IsValue S.arithmetic right }
        ensures { result ≡ combined self.now left right };

    ghost zeros: { (rule : Self) → combined rule S.arithmetic.zero S.arithmetic.zero ≡ S.arithmetic.zero };

    ghost values: { (rule : Self) (x y : ℕ) → IsValue S.arithmetic x → IsValue S.arithmetic y → IsValue S.arithmetic (combined rule x y) };
}

/// The sum.
#[derive(Drop)]
pub(crate) struct Sum;

impl<S: Semiring> Rule<S> for Sum {
    ghost combined = { λ rule x y. S.arithmetic.add x y };

    ghost zeros = { λ rule. S.is_semiring.zero_add S.arithmetic.zero S.is_semiring.zero_value };

    ghost values = { λ rule x y h k. S.is_semiring.add_value x y h k };

    fn keeps_left(&self) -> bool {
        true
    }

    fn keeps_right(&self) -> bool {
        true
    }

    fn combine(&self, left: u64, right: u64) -> u64 {
        S::add(left, right)
    }
}

/// The product.
#[derive(Drop)]
pub(crate) struct Product;

impl<S: Semiring> Rule<S> for Product {
    ghost combined = { λ rule x y. S.arithmetic.mul x y };

    ghost zeros = { λ rule. S.is_semiring.zero_mul S.arithmetic.zero S.is_semiring.zero_value };

    ghost values = { λ rule x y h k. S.is_semiring.mul_value x y h k };

    fn keeps_left(&self) -> bool {
        false
    }

    fn keeps_right(&self) -> bool {
        false
    }

    fn combine(&self, left: u64, right: u64) -> u64 {
        S::mul(left, right)
    }
}

/// The first value if the second isn't zero.
#[derive(Drop)]
pub(crate) struct Restriction;

impl<S: Semiring> Rule<S> for Restriction {
    ghost combined = { λ rule x y. where_stored S.arithmetic.zero x y };

    ghost zeros = { λ rule. where_stored-zero S.arithmetic.zero };

    ghost values = { λ rule x y h k. where_stored-value S.arithmetic S.is_semiring x y h };

    fn keeps_left(&self) -> bool {
        false
    }

    fn keeps_right(&self) -> bool {
        false
    }

    fn combine(&self, left: u64, right: u64) -> u64 {
        if right == S::zero() { S::zero() } else { left }
    }
}

/// The first value if the second is zero.
#[derive(Drop)]
pub(crate) struct Exclusion;

impl<S: Semiring> Rule<S> for Exclusion {
    ghost combined = { λ rule x y. where_absent S.arithmetic.zero x y };

    ghost zeros = { λ rule. where_absent-zero S.arithmetic.zero };

    ghost values = { λ rule x y h k. where_absent-value S.arithmetic S.is_semiring x y h };

    fn keeps_left(&self) -> bool {
        true
    }

    fn keeps_right(&self) -> bool {
        false
    }

    fn combine(&self, left: u64, right: u64) -> u64 {
        if right == S::zero() { left } else { S::zero() }
    }
}
