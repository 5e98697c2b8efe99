//! Semirings over whole numbers, as sparse linear algebra uses them for graphs.
//!
//! A semiring is a set of values with a sum and a product. The sum is commutative and associative, `zero` is its
//! neutral element, and a product with `zero` is `zero`. So a place of a matrix without an entry stands for `zero`, and
//! products may be added in any order. This is a semiring in the sense of GraphBLAS: a commutative monoid and a binary
//! operator. Algebra asks for more: the product is associative, has a `one`, and distributes over the sum. A semiring
//! with these laws is a [`DistributiveSemiring`]; no product of matrices needs them. [`WithProduct`] combines the sum of
//! a semiring with a binary operator.
//!
//! The values are the whole numbers below a bound, at most 2^64. The operations of each type are one record of
//! `specs/Tables.antt`, its laws are proved in `specs/Laws.antt`, and all crates above use that record alone. A semiring
//! also says how numbers in a file become values, and how values are written.
//!
//! [`SemiringName`] is the one table of the semirings' names and numbers, and [`over_semiring`] the one match that
//! picks the type of a name.
//!
//! The names follow Kepner and Gilbert, Graph Algorithms in the Language of Linear Algebra
//! (SIAM 2011), section 2.2.
#![tactic(auto)]

ghost use Rattle.std.specs.Prelude.{◌≡◌, ◌↔◌, IsTrue};

mod max_min;
mod min_plus;
mod names;
pub mod operators;
mod or_and;
mod plus_times;
mod with_product;

pub use max_min::MaxMin;
pub use min_plus::MinPlus;
pub use names::{NAMES, SemiringName};
pub use or_and::OrAnd;
pub use plus_times::PlusTimes;
pub use with_product::{
    FullRange, MaxFirst, MaxPlus, MaxSecond, MinFirst, MinMax, MinSecond, PlusFirst, PlusMin,
    PlusPair, PlusSecond, WithProduct,
};

/// A set of whole numbers with a sum and a product. The sum is a commutative monoid, and a product with its zero is
/// zero. No call takes memory, and each costs a few instructions.
pub trait Semiring: Drop {
    ghost use Rattle.cb_semirings.specs.Arithmetic.{Arithmetic, IsValue, IsSemiring, ReadsNumbers, HasNegatives};

    /// The operations.
    ghost arithmetic: { Arithmetic };

    /// Whether a number is a value.
    fn is_value(number: u64) -> bool
        ensures { IsTrue result ↔ IsValue arithmetic number };

    /// The value of a place without an entry: the neutral element of the sum.
    fn zero() -> u64
        ensures { result ≡ arithmetic.zero };

    /// The sum of two values.
    fn add(left: u64, right: u64) -> u64
        requires left_is_value { IsValue arithmetic left }
        requires right_is_value { IsValue arithmetic right }
        ensures { result ≡ arithmetic.add left right };

    /// The product of two values.
    fn mul(left: u64, right: u64) -> u64
        requires left_is_value { IsValue arithmetic left }
        requires right_is_value { IsValue arithmetic right }
        ensures { result ≡ arithmetic.mul left right };

    /// The negative of a value, which added to it gives zero. None if the semiring has no negatives.
    fn negative(value: u64) -> Option<u64>
        requires { IsValue arithmetic value }
        ensures { result ≡ arithmetic.negative value };

    /// The value of an entry that a file writes without one.
    fn pattern() -> u64
        ensures { result ≡ arithmetic.pattern };

    /// The value that a number in a file stands for, by its sign and its magnitude. None if the number is out of the
    /// semiring's range.
    fn accept(negative: bool, magnitude: u64) -> Option<u64>
        ensures { result ≡ arithmetic.accept negative magnitude };

    /// Whether entries are written without their values.
    fn writes_pattern() -> bool
        ensures { result ≡ arithmetic.writes_pattern };

    /// The laws of a semiring.
    ghost is_semiring: { IsSemiring arithmetic };

    /// How numbers in a file become values.
    ghost reads_numbers: { ReadsNumbers arithmetic };

    /// The laws of negatives.
    ghost has_negatives: { HasNegatives arithmetic };
}

/// A semiring in the sense of algebra: the product is associative, has a one, and distributes over the sum.
pub trait DistributiveSemiring: Semiring {
    ghost use Rattle.std.specs.Prelude.{ℕ};
    ghost use Rattle.cb_semirings.specs.Arithmetic.{IsDistributive};

    /// The neutral element of the product.
    ghost one: { ℕ };

    /// The neutral element of the product.
    fn one() -> u64
        ensures { result ≡ one };

    /// The laws that GraphBLAS doesn't ask for.
    ghost is_distributive: { IsDistributive Self.arithmetic one };
}
