//! A semiring with another product: a sum and a binary operator, as GraphBLAS combines them.
use crate::operators::{First, Max, Min, Operator, Pair, Plus, Second};
use crate::{MaxMin, MinPlus, PlusTimes, Semiring};
use std::marker::PhantomData;

/// A semiring whose values are all numbers below 2^64.
pub trait FullRange: Semiring {
    ghost use Rattle.std.specs.Prelude.{◌≡◌, ◌^◌};

    /// Its values are the numbers below 2^64.
    ghost is_full: { Self.arithmetic.bound ≡ 2 ^ 64 };
}

impl FullRange for PlusTimes {
    ghost use Rattle.std.proofs.Common.{refl};

    ghost is_full = { refl };
}

impl FullRange for MinPlus {
    ghost use Rattle.std.proofs.Common.{refl};

    ghost is_full = { refl };
}

impl FullRange for MaxMin {
    ghost use Rattle.std.proofs.Common.{refl};

    ghost is_full = { refl };
}

/// The values, the zero and the sum of a semiring, with a binary operator as the product, except that a product with
/// zero is zero. Numbers in files become values as in that semiring.
#[derive(Drop)]
pub struct WithProduct<S: FullRange, P: Operator>(PhantomData<(S, P)>);

impl<S: FullRange, P: Operator> Semiring for WithProduct<S, P> {
    ghost use Rattle.cb_semirings.specs.Tables.{with_product};
    ghost use Rattle.cb_semirings.specs.Laws.{with_product_is_semiring, with_product_reads_numbers, with_product_has_negatives, full_values};

    ghost arithmetic = { with_product S.arithmetic P.operator };

    ghost is_semiring = { with_product_is_semiring S.arithmetic P.operator S.is_semiring (full_values S.arithmetic P.operator S.is_full P.fits) };

    ghost reads_numbers = { with_product_reads_numbers S.arithmetic P.operator S.reads_numbers };

    ghost has_negatives = { with_product_has_negatives S.arithmetic P.operator S.has_negatives };

    fn is_value(number: u64) -> bool {
        S::is_value(number)
    }

    fn zero() -> u64 {
        S::zero()
    }

    fn add(left: u64, right: u64) -> u64 {
        S::add(left, right)
    }

    fn mul(left: u64, right: u64) -> u64 {
        if left == S::zero() || right == S::zero() {
            S::zero()
        } else {
            P::apply(left, right)
        }
    }

    fn negative(value: u64) -> Option<u64> {
        S::negative(value)
    }

    fn pattern() -> u64 {
        S::pattern()
    }

    fn accept(negative: bool, magnitude: u64) -> Option<u64> {
        S::accept(negative, magnitude)
    }

    fn writes_pattern() -> bool {
        S::writes_pattern()
    }
}

/// The sum, modulo 2^64, of a one for each product: how many products there are. Triangles are counted in this way.
pub type PlusPair = WithProduct<PlusTimes, Pair>;

/// The sum, modulo 2^64, of minima.
pub type PlusMin = WithProduct<PlusTimes, Min>;

/// The sum, modulo 2^64, of first operands.
pub type PlusFirst = WithProduct<PlusTimes, First>;

/// The sum, modulo 2^64, of second operands.
pub type PlusSecond = WithProduct<PlusTimes, Second>;

/// The minimum of first operands: parents in a search that multiplies a row by a matrix.
pub type MinFirst = WithProduct<MinPlus, First>;

/// The minimum of second operands: parents in a search that multiplies a matrix by a column.
pub type MinSecond = WithProduct<MinPlus, Second>;

/// The maximum of first operands.
pub type MaxFirst = WithProduct<MaxMin, First>;

/// The maximum of second operands.
pub type MaxSecond = WithProduct<MaxMin, Second>;

/// The maximum of sums that saturate at 2^64 - 1: the weights of longest walks.
pub type MaxPlus = WithProduct<MaxMin, Plus>;

/// The minimum of maxima: walks whose greatest weight is least.
pub type MinMax = WithProduct<MinPlus, Max>;
