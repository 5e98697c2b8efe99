//! Minimum and sum, for shortest walks.
use crate::{DistributiveSemiring, Semiring};

/// The numbers below 2^64, with the minimum as the sum and the sum as the product, saturating at 2^64 - 1. That number
/// is infinity, the semiring's zero. The weights of shortest walks combine in this way.
#[derive(Clone, Copy)]
pub struct MinPlus;

impl Semiring for MinPlus {
    ghost use Rattle.cb_semirings.specs.Tables.{min_plus};
    ghost use Rattle.cb_semirings.specs.Laws.{min_plus_is_semiring, min_plus_reads_numbers, min_plus_has_negatives};

    ghost arithmetic = { min_plus };

    ghost is_semiring = { min_plus_is_semiring };

    ghost reads_numbers = { min_plus_reads_numbers };

    ghost has_negatives = { min_plus_has_negatives };

    fn is_value(_number: u64) -> bool {
        true
    }

    fn zero() -> u64 {
        u64::MAX
    }

    fn add(left: u64, right: u64) -> u64 {
        left.min(right)
    }

    fn mul(left: u64, right: u64) -> u64 {
        left.saturating_add(right)
    }

    fn negative(_value: u64) -> Option<u64> {
        None
    }

    fn pattern() -> u64 {
        1
    }

    fn accept(negative: bool, magnitude: u64) -> Option<u64> {
        if magnitude == 0 {
            Some(0)
        } else if negative || magnitude == u64::MAX {
            None
        } else {
            Some(magnitude)
        }
    }

    fn writes_pattern() -> bool {
        false
    }
}

impl DistributiveSemiring for MinPlus {
    ghost use Rattle.cb_semirings.specs.Laws.{min_plus_is_distributive};

    ghost one = { 0 };

    ghost is_distributive = { min_plus_is_distributive };

    fn one() -> u64 {
        0
    }
}
