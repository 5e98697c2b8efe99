//! Logical or and logical and, for reachability.
use crate::{DistributiveSemiring, Semiring};

/// 0 and 1, with logical or as the sum and logical and as the product. Every number in a file except 0 stands for 1, and
/// entries are written without values.
#[derive(Clone, Copy)]
pub struct OrAnd;

impl Semiring for OrAnd {
    ghost use Rattle.cb_semirings.specs.Tables.{or_and};
    ghost use Rattle.cb_semirings.specs.Laws.{or_and_is_semiring, or_and_reads_numbers, or_and_has_negatives};

    ghost arithmetic = { or_and };

    ghost is_semiring = { or_and_is_semiring };

    ghost reads_numbers = { or_and_reads_numbers };

    ghost has_negatives = { or_and_has_negatives };

    fn is_value(number: u64) -> bool {
        number < 2
    }

    fn zero() -> u64 {
        0
    }

    fn add(left: u64, right: u64) -> u64 {
        left.max(right)
    }

    fn mul(left: u64, right: u64) -> u64 {
        left.min(right)
    }

    fn negative(_value: u64) -> Option<u64> {
        None
    }

    fn pattern() -> u64 {
        1
    }

    fn accept(_negative: bool, magnitude: u64) -> Option<u64> {
        Some(if magnitude == 0 { 0 } else { 1 })
    }

    fn writes_pattern() -> bool {
        true
    }
}

impl DistributiveSemiring for OrAnd {
    ghost use Rattle.cb_semirings.specs.Laws.{or_and_is_distributive};

    ghost one = { 1 };

    ghost is_distributive = { or_and_is_distributive };

    fn one() -> u64 {
        1
    }
}
