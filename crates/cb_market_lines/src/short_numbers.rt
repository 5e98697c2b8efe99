//! Numbers of at most eight digits, whose digits are read together.
//!
//! A mask tells which of the first bytes of a text aren't digits. Its lowest bit tells how many digits are at the front,
//! and the mask without the bits up to that one is the mask of what comes after them. So the ends of all numbers of a line
//! follow from one comparison, and no byte has a branch of its own.
ghost use Rattle.std.specs.Prelude.{◌≡◌, ℕ, ◌<◌, ◌≤◌, List, IfSome, length, take};
ghost use Rattle.core.specs.Dec2flt.Digits.{IsEightDigits};
ghost use Rattle.core.specs.Int.Digits.{number_from_digits};
ghost use lib.Lanes.{number_l};
ghost use Rattle.cb_market_lines.specs.Lines.{number};
ghost use Rattle.cb_market_lines.specs.Cursor.{front_digits, nondigits_of, IsMask, IsShortNumber};

use std::simd::prelude::*;

/// The byte '0' eight times.
const ZEROS: u64 = 0x3030_3030_3030_3030;

/// A text with a mask of its first bytes: a bit for each, the first byte's the lowest, set if the byte isn't a digit.
#[derive(Clone, Copy)]
pub struct Masked<'a> {
    pub text: &'a [u8],
    pub nondigits: u64,
}

/// Returns the mask of the first 32 bytes of a text.
#[inline(always)]
fn nondigits(text: &[u8]) -> u64
    requires { 32 ≤ length text.now }
    ensures { result ≡ nondigits_of (take 32 text.now) }
{
    let above_zero = u8x32::from_slice(text) - u8x32::splat(b'0');
    above_zero.simd_gt(u8x32::splat(9)).to_bitmask()
}

/// Returns the number that eight digits write, given the value of the first in the lowest byte, and so on.
#[inline(always)]
fn number_of_eight(digits: u64) -> u64
    ensures { (ds : List ℕ) → IsEightDigits ds → digits ≡ number_l 256 ds → result ≡ number_from_digits 10 ds }
{
    // Every other byte, from the lowest on, becomes the number of two digits.
    let pairs = digits.wrapping_mul(10).wrapping_add(digits >> 8);
    // The upper half of each product is the sum of two pairs at their places in the number: the first and the third, the
    // second and the fourth.
    let odd = (pairs & 0x0000_00ff_0000_00ff).wrapping_mul(100 + (1_000_000 << 32));
    let even = ((pairs >> 16) & 0x0000_00ff_0000_00ff).wrapping_mul(1 + (10_000 << 32));
    odd.wrapping_add(even) >> 32
}

/// Returns the number at the front of a text, given how many digits it has.
#[inline(always)]
fn number_of_length(text: &[u8], count: usize) -> u64
    requires room { 8 ≤ length text.now }
    requires some { 0 < count }
    requires few { count ≤ 8 }
    requires digits { count ≡ length (front_digits text.now) }
    ensures { result ≡ number (front_digits text.now) }
{
    let word = u64::from_le_bytes([
        text[0], text[1], text[2], text[3], text[4], text[5], text[6], text[7],
    ]);
    // The shift drops the bytes after the digits, and puts zeros in front of them to make eight.
    number_of_eight((word ^ ZEROS) << (64 - 8 * count))
}

impl<'a> Masked<'a> {
    /// Masks the first 32 bytes of a text. None if it has fewer.
    #[inline(always)]
    pub fn of(text: &'a [u8]) -> Option<Masked<'a>>
        ensures text { IfSome result (λ m. m.text.now ≡ text.now) }
        ensures mask { IfSome result (λ m. IsMask m.text.now m.nondigits) }
    {
        if text.len() < 32 {
            return None;
        }
        Some(Masked {
            text,
            nondigits: nondigits(text),
        })
    }

    /// Returns the number at the front and the text after it, if it has at most eight digits and is followed by this byte.
    /// None also if its last byte isn't masked, or if fewer than eight bytes are left.
    #[inline(always)]
    pub fn short_number(&self, end: u8) -> Option<(u64, Masked<'a>)>
        requires { IsMask self.now.text.now self.now.nondigits }
        ensures { IfSome result (λ p. IsShortNumber self.now.text.now end p.0 p.1.text.now p.1.nondigits) }
    {
        let count = self.nondigits.trailing_zeros() as usize;
        if count == 0 || count > 8 || self.text.len() < 8 {
            return None;
        }
        let (_digits, after) = self.text.split_at(count);
        let [byte, rest @ ..] = after else {
            return None;
        };
        if *byte != end {
            return None;
        }
        let number = number_of_length(self.text, count);
        let rest = Masked {
            text: rest,
            nondigits: self.nondigits >> count >> 1,
        };
        Some((number, rest))
    }
}
