//! Tests of values.
ghost use Rattle.std.specs.Prelude.{◌≡◌};
ghost use Rattle.cb_matrix.specs.Passing.{passes};

/// A test of a value, as a whole number.
#[derive(Clone, Copy, PartialEq, Eq)]
pub enum Test {
    /// Passes values below this number.
    Below(u64),
    /// Passes values above this number.
    Above(u64),
    /// Passes values equal to this number.
    Equal(u64),
}

impl Test {
    /// Whether a value passes the test.
    pub fn passes(&self, value: u64) -> bool
        ensures { result ≡ passes self.now value }
    {
        match self {
            Test::Below(number) => value < *number,
            Test::Above(number) => value > *number,
            Test::Equal(number) => value == *number,
        }
    }
}
