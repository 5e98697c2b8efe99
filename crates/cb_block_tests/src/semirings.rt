//! The tables of the semirings, at values worked out by hand.
ghost use Rattle.std.specs.Prelude.{◌≡◌, IfSome, is_some};
ghost use Rattle.cb_semirings.specs.Arithmetic.{IsValue, IsDistributive, has_negatives};

use cb_semirings::{
    DistributiveSemiring, MaxFirst, MaxMin, MaxPlus, MaxSecond, MinFirst, MinMax, MinPlus,
    MinSecond, OrAnd, PlusFirst, PlusMin, PlusPair, PlusSecond, PlusTimes, Semiring,
};

const TOP: u64 = u64::MAX;

/// The zero; what -1, 0, 7 and 2^64 - 1 in a file stand for; the negatives of 0 and 1; and whether files are written
/// without values.
struct Numbers {
    zero: u64,
    accepted: [Option<u64>; 4],
    negatives: [Option<u64>; 2],
    writes_pattern: bool,
}

/// The numbers of the semirings whose sum is addition.
const PLUS: Numbers = Numbers {
    zero: 0,
    accepted: [Some(TOP), Some(0), Some(7), Some(TOP)],
    negatives: [Some(0), Some(TOP)],
    writes_pattern: false,
};

/// The numbers of those whose sum is the minimum.
const MIN: Numbers = Numbers {
    zero: TOP,
    accepted: [None, Some(0), Some(7), None],
    negatives: [None, None],
    writes_pattern: false,
};

/// The numbers of those whose sum is the maximum.
const MAX: Numbers = Numbers {
    zero: 0,
    accepted: [None, Some(0), Some(7), Some(TOP)],
    negatives: [None, None],
    writes_pattern: false,
};

const RELATION: Numbers = Numbers {
    zero: 0,
    accepted: [Some(1), Some(0), Some(1), Some(1)],
    negatives: [None, None],
    writes_pattern: true,
};

/// Two values, and their sum and product.
type Row = (u64, u64, u64, u64);

/// Whether two values have this sum and this product.
fn makes<S: Semiring>(row: &Row) -> bool {
    let (left, right, sum, product) = *row;
    S::is_value(left)
        && S::is_value(right)
        && S::add(left, right) == sum
        && S::mul(left, right) == product
}

/// Whether numbers are read and written as expected.
fn has_numbers<S: Semiring>(wanted: &Numbers) -> bool {
    let [minus_one, zero, seven, top] = wanted.accepted;
    S::zero() == wanted.zero
        && S::pattern() == 1
        && S::writes_pattern() == wanted.writes_pattern
        && S::accept(true, 1) == minus_one
        && S::accept(true, 0) == zero
        && S::accept(false, 7) == seven
        && S::accept(false, TOP) == top
}

/// The negative of a value. That the two add up to zero is proved, and that all values have one or none has.
fn negative<S: Semiring>(value: u64) -> Option<u64>
    requires { IsValue S.arithmetic value }
    ensures adds { IfSome result (λ y. IsValue S.arithmetic y × (S.arithmetic.add value y ≡ S.arithmetic.zero)) }
    ensures all_or_none { is_some result ≡ has_negatives S.arithmetic }
{
    S::negative(value)
}

/// Whether 0 and 1 have these negatives.
fn has_negatives<S: Semiring>(wanted: &Numbers) -> bool {
    let [of_zero, of_one] = wanted.negatives;
    S::is_value(0) && S::is_value(1) && negative::<S>(0) == of_zero && negative::<S>(1) == of_one
}

/// Whether a semiring has these numbers, sums and products.
fn is_as_expected<S: Semiring>(numbers: &Numbers, rows: &[Row]) -> bool {
    for row in rows {
        if !makes::<S>(row) {
            return false;
        }
    }
    has_numbers::<S>(numbers) && has_negatives::<S>(numbers)
}

const HALF: u64 = 1 << 32;

#[test]
fn sums_products_and_numbers_are_those_of_the_tables(rt: HostRuntime) {
    assert!(rt;
        is_as_expected::<PlusTimes>(&PLUS, &[(TOP, 3, 2, TOP - 2), (HALF, HALF, 1 << 33, 0)])
    );
    assert!(rt;
        is_as_expected::<MinPlus>(
            &MIN,
            &[(3, 4, 3, 7), (TOP - 1, 1, 1, TOP), (TOP, 4, 4, TOP)]
        )
    );
    assert!(rt; is_as_expected::<OrAnd>(&RELATION, &[(1, 0, 1, 0)]) && !OrAnd::is_value(2));
    assert!(rt; is_as_expected::<MaxMin>(&MAX, &[(3, 4, 4, 3)]));
}

/// Whether the semirings whose sum is addition are right.
fn are_of_plus() -> bool {
    is_as_expected::<PlusPair>(
        &PLUS,
        &[(7, 9, 16, 1), (7, 0, 7, 0), (0, 9, 9, 0), (TOP, 3, 2, 1)],
    ) && is_as_expected::<PlusMin>(&PLUS, &[(7, 9, 16, 7), (0, 9, 9, 0)])
        && is_as_expected::<PlusFirst>(&PLUS, &[(7, 9, 16, 7), (7, 0, 7, 0)])
        && is_as_expected::<PlusSecond>(&PLUS, &[(7, 9, 16, 9), (0, 9, 9, 0)])
}

/// Whether those whose sum is the minimum are right.
fn are_of_min() -> bool {
    is_as_expected::<MinFirst>(&MIN, &[(7, 9, 7, 7), (7, TOP, 7, TOP), (0, 9, 0, 0)])
        && is_as_expected::<MinSecond>(&MIN, &[(7, 9, 7, 9), (TOP, 9, 9, TOP), (7, 0, 0, 0)])
        && is_as_expected::<MinMax>(&MIN, &[(7, 9, 7, 9), (TOP, 0, 0, TOP), (0, 0, 0, 0)])
}

/// Whether those whose sum is the maximum are right.
fn are_of_max() -> bool {
    is_as_expected::<MaxFirst>(&MAX, &[(7, 9, 9, 7), (7, 0, 7, 0)])
        && is_as_expected::<MaxSecond>(&MAX, &[(7, 9, 9, 9), (0, 9, 9, 0)])
        && is_as_expected::<MaxPlus>(
            &MAX,
            &[
                (7, 9, 9, 16),
                (7, 0, 7, 0),
                (0, 9, 9, 0),
                (TOP, 9, TOP, TOP),
            ],
        )
}

/// 7 and 9, each with zero, and two values whose sum overflows.
#[test]
fn binary_operators_take_the_place_of_products(rt: HostRuntime) {
    assert!(rt; are_of_plus());
    assert!(rt; are_of_min());
    assert!(rt; are_of_max());
}

/// The one of a semiring. That the product is associative, has this one and distributes over the sum is proved.
fn one<S: DistributiveSemiring>() -> u64
    ensures { IsDistributive S.arithmetic result }
{
    S::one()
}

/// Whether this is the one of a semiring, and multiplying a value by it changes nothing.
fn has_one<S: DistributiveSemiring>(wanted: u64, value: u64) -> bool {
    S::is_value(wanted)
        && S::is_value(value)
        && one::<S>() == wanted
        && S::mul(wanted, value) == value
}

#[test]
fn each_distributive_semiring_has_its_one(rt: HostRuntime) {
    assert!(rt; has_one::<PlusTimes>(1, 7) && has_one::<MinPlus>(0, 7));
    assert!(rt; has_one::<OrAnd>(1, 1) && has_one::<MaxMin>(TOP, 7));
}
