//! Maximum and minimum, for widest walks.
use crate::{DistributiveSemiring, Semiring};

/// The numbers below 2^64, with the maximum as the sum and the minimum as the product. The capacities of widest walks
/// combine in this way.
#[derive(Clone, Copy)]
pub struct MaxMin;

impl Semiring for MaxMin {
    ghost use Rattle.cb_semirings.specs.Tables.{max_min};
    ghost use Rattle.cb_semirings.specs.Laws.{max_min_is_semiring, max_min_reads_numbers, max_min_has_negatives};

    ghost arithmetic = { max_min };

    ghost is_semiring = { max_min_is_semiring };

    ghost reads_numbers = { max_min_reads_numbers };

    ghost has_negatives = { max_min_has_negatives };

    fn is_value(_number: u64) -> bool {
        true
    }

    fn zero() -> u64 {
        0
    }

    fn add(left: u64, right: u64) -> u64 {
        left.max(right)
    }

    fn mul(left: u64, right: u64) -> u64 {
        left.min(right)
    }

    fn negative(_value: u64) -> Option<u64> {
        None
    }

    fn pattern() -> u64 {
        1
    }

    fn accept(negative: bool, magnitude: u64) -> Option<u64> {
        if negative && magnitude != 0 {
            None
        } else {
            Some(magnitude)
        }
    }

    fn writes_pattern() -> bool {
        false
    }
}

impl DistributiveSemiring for MaxMin {
    ghost use Rattle.std.specs.Prelude.{◌-◌, ◌^◌};
    ghost use Rattle.cb_semirings.specs.Laws.{max_min_is_distributive};

    ghost one = { 2 ^ 64 - 1 };

    ghost is_distributive = { max_min_is_distributive };

    fn one() -> u64 {
        u64::MAX
    }
}
