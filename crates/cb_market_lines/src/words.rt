//! Words of a line, and their numbers.
ghost use Rattle.std.specs.Prelude.{◌≡◌, ◌+◌, ◌-◌, ◌*◌, IsTrue, bytes_eq};
ghost use Rattle.cb_market_lines.specs.Lines.{is_digit, is_number, is_value_word, is_negative, is_comment, number};
ghost use Rattle.cb_market_lines.specs.Cursor.{if_small, whole_number, number_of};
ghost use Rattle.cb_market_lines.specs.Checks.{is_name, small_in, value_in};

use cb_matrix::LIMIT;
use cb_semirings::Semiring;

/// The number of a word: digits after an optional sign. The sign isn't part of it.
#[derive(Clone, Copy)]
pub enum Number {
    NotWhole,
    /// At least 2^64.
    TooLarge,
    Whole(u64),
}

/// A word of a line. Its number is parsed in the same pass that finds its end.
#[derive(Clone, Copy)]
pub struct Word<'a> {
    pub bytes: &'a [u8],
    pub number: Number,
    ghost number_is: { number ≡ number_of bytes.now },
}

impl<'a> Word<'a> {
    /// Returns whether a line that begins with this word is a comment.
    pub fn is_comment(&self) -> bool
        ensures { result ≡ is_comment self.now.bytes.now }
    {
        match self.bytes {
            [] => true,
            [byte, ..] => *byte == b'%',
        }
    }

    /// Returns whether the word is these bytes.
    pub fn is_exactly(&self, bytes: &[u8]) -> bool
        ensures { result ≡ bytes_eq self.now.bytes.now bytes.now }
    {
        self.bytes == bytes
    }

    /// Returns whether the word is a name, ignoring ASCII case.
    pub fn is_name(&self, name: &[u8]) -> bool
        ensures { result ≡ is_name self.now.bytes.now name.now }
    {
        self.bytes.eq_ignore_ascii_case(name)
    }

    /// Returns whether the word is digits after an optional sign.
    pub fn is_value(&self) -> bool
        ensures { result ≡ is_value_word self.now.bytes.now }
    {
        match self.number {
            Number::NotWhole => false,
            Number::TooLarge => true,
            Number::Whole(_) => true,
        }
    }

    /// Returns whether the word is digits alone.
    pub fn is_number(&self) -> bool
        ensures { result ≡ is_number self.now.bytes.now }
    {
        match self.bytes {
            [] => false,
            [byte, ..] => *byte != b'+' && *byte != b'-' && self.is_value(),
        }
    }

    fn is_negative(&self) -> bool
        ensures { result ≡ is_negative self.now.bytes.now }
    {
        match self.bytes {
            [] => false,
            [byte, ..] => *byte == b'-',
        }
    }

    /// Returns the word's number, if it is below 2^64.
    pub fn whole(&self) -> Option<u64>
        requires { IsTrue (is_number self.now.bytes.now) }
        ensures { result ≡ if_small (number self.now.bytes.now) }
    {
        match self.number {
            Number::Whole(number) => Some(number),
            _ => None,
        }
    }

    /// Returns the word's value, if the semiring has it.
    pub fn value<S: Semiring>(&self) -> Option<u64>
        requires { IsTrue (is_value_word self.now.bytes.now) }
        ensures { result ≡ value_in S.arithmetic self.now.bytes.now }
    {
        match self.number {
            Number::Whole(number) => S::accept(self.is_negative(), number),
            _ => None,
        }
    }

    /// Returns the word's number, if a matrix can have as many rows, columns or entries.
    pub fn limited(&self) -> Option<u32>
        requires { IsTrue (is_number self.now.bytes.now) }
        ensures { result ≡ small_in LIMIT (number self.now.bytes.now) }
    {
        match self.number {
            Number::Whole(number) => small_in(LIMIT, number),
            _ => None,
        }
    }
}

fn small_in(limit: u32, number: u64) -> Option<u32>
    ensures { result ≡ small_in limit number }
{
    if number <= limit as u64 {
        Some(number as u32)
    } else {
        None
    }
}

/// Appends a digit to a number, if the result is below 2^64.
pub fn with_digit(number: u64, digit: u8) -> Option<u64>
    requires { IsTrue (is_digit digit) }
    ensures { result ≡ if_small (number * 10 + (digit - 48)) }
{
    number.checked_mul(10)?.checked_add((digit - b'0') as u64)
}

/// The number of a word of digits: too large if it isn't below 2^64.
pub fn whole_number(digits: Option<u64>) -> Number
    ensures { result ≡ whole_number digits }
{
    match digits {
        Some(number) => Number::Whole(number),
        None => Number::TooLarge,
    }
}
