//! Binary operators that replace the product of a semiring: see [`crate::WithProduct`].
ghost use Rattle.std.specs.Prelude.{◌≡◌};

/// A binary operator on the numbers below 2^64, as in GraphBLAS. No call takes memory.
pub trait Operator: Drop {
    ghost use Rattle.std.specs.Prelude.{ℕ};
    ghost use Rattle.cb_semirings.specs.Arithmetic.{IsWordOperator};

    /// Its result for two numbers.
    ghost operator: { ℕ → ℕ → ℕ };

    /// Its result for two numbers.
    fn apply(left: u64, right: u64) -> u64
        ensures { result ≡ operator left right };

    /// Its result is below 2^64.
    ghost fits: { IsWordOperator operator };
}

/// Always 1.
#[derive(Clone, Copy)]
pub struct Pair;

impl Operator for Pair {
    ghost use Rattle.cb_semirings.specs.Tables.{pair};
    ghost use Rattle.std.proofs.Common.{lit<};

    ghost operator = { pair };

    ghost fits = { λ x y h k. lit< tt };

    fn apply(_left: u64, _right: u64) -> u64 {
        1
    }
}

/// The first operand.
#[derive(Clone, Copy)]
pub struct First;

impl Operator for First {
    ghost use Rattle.cb_semirings.specs.Tables.{first};

    ghost operator = { first };

    ghost fits = { λ x y h k. h };

    fn apply(left: u64, _right: u64) -> u64 {
        left
    }
}

/// The second operand.
#[derive(Clone, Copy)]
pub struct Second;

impl Operator for Second {
    ghost use Rattle.cb_semirings.specs.Tables.{second};

    ghost operator = { second };

    ghost fits = { λ x y h k. k };

    fn apply(_left: u64, right: u64) -> u64 {
        right
    }
}

/// The sum, saturating at 2^64 - 1.
#[derive(Clone, Copy)]
pub struct Plus;

impl Operator for Plus {
    ghost use Rattle.cb_semirings.specs.Tables.{plus};
    ghost use Rattle.cb_semirings.specs.Laws.{plus_fits};

    ghost operator = { plus };

    ghost fits = { plus_fits };

    fn apply(left: u64, right: u64) -> u64 {
        left.saturating_add(right)
    }
}

/// The minimum.
#[derive(Clone, Copy)]
pub struct Min;

impl Operator for Min {
    ghost use Rattle.std.specs.Prelude.{min};
    ghost use Rattle.cb_semirings.specs.Laws.{min_fits};

    ghost operator = { min };

    ghost fits = { min_fits };

    fn apply(left: u64, right: u64) -> u64 {
        left.min(right)
    }
}

/// The maximum.
#[derive(Clone, Copy)]
pub struct Max;

impl Operator for Max {
    ghost use Rattle.std.specs.Prelude.{max};
    ghost use Rattle.cb_semirings.specs.Laws.{max_fits};

    ghost operator = { max };

    ghost fits = { max_fits };

    fn apply(left: u64, right: u64) -> u64 {
        left.max(right)
    }
}
