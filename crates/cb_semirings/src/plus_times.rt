//! Sums and products of whole numbers, modulo 2^64.
use crate::{DistributiveSemiring, Semiring};

/// The numbers below 2^64, with sums and products modulo 2^64. A negative number in a file is taken modulo 2^64.
#[derive(Clone, Copy)]
pub struct PlusTimes;

impl Semiring for PlusTimes {
    ghost use Rattle.cb_semirings.specs.Tables.{plus_times};
    ghost use Rattle.cb_semirings.specs.Laws.{plus_times_is_semiring, plus_times_reads_numbers, plus_times_has_negatives};

    ghost arithmetic = { plus_times };

    ghost is_semiring = { plus_times_is_semiring };

    ghost reads_numbers = { plus_times_reads_numbers };

    ghost has_negatives = { plus_times_has_negatives };

    fn is_value(_number: u64) -> bool {
        true
    }

    fn zero() -> u64 {
        0
    }

    fn add(left: u64, right: u64) -> u64 {
        left.wrapping_add(right)
    }

    fn mul(left: u64, right: u64) -> u64 {
        left.wrapping_mul(right)
    }

    fn negative(value: u64) -> Option<u64> {
        Some(value.wrapping_neg())
    }

    fn pattern() -> u64 {
        1
    }

    fn accept(negative: bool, magnitude: u64) -> Option<u64> {
        Some(if negative {
            magnitude.wrapping_neg()
        } else {
            magnitude
        })
    }

    fn writes_pattern() -> bool {
        false
    }
}

impl DistributiveSemiring for PlusTimes {
    ghost use Rattle.cb_semirings.specs.Laws.{plus_times_is_distributive};

    ghost one = { 1 };

    ghost is_distributive = { plus_times_is_distributive };

    fn one() -> u64 {
        1
    }
}
