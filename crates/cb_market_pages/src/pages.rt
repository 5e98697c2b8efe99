//! Pages: buffers for the bytes of a text, filled until there is no room for another line.
ghost use Rattle.std.specs.Prelude.{◌≡◌, ◌↔◌, ◌+◌, ◌<◌, ◌≤◌, [], ◌∷◌, ◌++◌, length, take, decimal, IfOk, IsTrue};

use itoa::write_digits;
use std::alloc::{AllocError, Global};
use std::marker::Model;

/// How many bytes a page holds.
pub(crate) const SIZE: usize = 65_536;

/// The most bytes that a line of three numbers can have: 20 digits for each, and a byte after each.
pub(crate) const LINE: usize = 63;

/// At most 65,536 bytes of a text. In contracts a page is these bytes.
#[derive(Drop)]
pub struct Page {
    /// The whole buffer, of which the first `end` bytes are written.
    bytes: Vec<u8>,
    end: usize,
}

impl Model for Page {
    ghost use Rattle.std.specs.Prelude.{◌≡◌, ℕ, ◌≤◌, List, take, length};
    ghost use Rattle.cb_market_pages.specs.declared.pages.TheConstants.{SIZE};

    ghost Value = { List ℕ };

    ghost view = { λ p. take p.end p.bytes.items };

    ghost invariant = { λ p. (length p.bytes.items ≡ SIZE) × (p.end ≤ SIZE) };
}

impl Page {
    /// Makes an empty page. Writing to it takes no memory.
    pub fn new(alloc: Global) -> Result<Page, AllocError>
        ensures { IfOk result (λ page. page ≡ []) }
    {
        let bytes = vec![in alloc; 0; SIZE]?;
        Ok(Page { bytes, end: 0 })
    }

    /// Discards what was written.
    pub fn clear(&mut self)
        ensures { self.new ≡ [] }
    {
        self.end = 0;
    }

    /// Returns what was written.
    pub fn written(&self) -> &[u8]
        ensures { result.now ≡ self.now }
    {
        &self.bytes[..self.end]
    }

    /// Returns whether there is room for a line of three numbers.
    pub(crate) fn has_room(&self) -> bool
        ensures { IsTrue result ↔ (length self.now + LINE ≤ SIZE) }
    {
        self.end + LINE <= SIZE
    }

    /// Writes a number and a byte after it, at most 21 bytes together.
    pub(crate) fn put(&mut self, number: u64, after: u8)
        requires room { length self.old + 21 ≤ SIZE }
        ensures written { self.new ≡ self.old ++ decimal number ++ after ∷ [] }
        ensures length { length self.new ≤ length self.old + 21 }
    {
        self.end = put_number(&mut self.bytes, self.end, number, after);
    }

    /// Writes the number after a number, and a byte after it.
    pub(crate) fn put_next(&mut self, number: u64, after: u8)
        requires room { length self.old + 21 ≤ SIZE }
        ensures written { self.new ≡ self.old ++ decimal (number + 1) ++ after ∷ [] }
        ensures length { length self.new ≤ length self.old + 21 }
    {
        self.end = put_next_number(&mut self.bytes, self.end, number, after);
    }

    /// Writes some bytes and a byte after them.
    pub(crate) fn append(&mut self, bytes: &[u8], after: u8)
        requires { length self.old + length bytes.now < SIZE }
        ensures { self.new ≡ self.old ++ bytes.now ++ after ∷ [] }
    {
        self.end = put_bytes(&mut self.bytes, self.end, bytes, after);
    }
}

/// Writes a number and a byte after it at an offset, and returns the offset after them.
pub(crate) fn put_number(buffer: &mut [u8], at: usize, number: u64, after: u8) -> usize
    requires { at + 21 ≤ length buffer.old }
    ensures end { result ≡ at + length (decimal number) + 1 }
    ensures written { take result buffer.new ≡ take at buffer.old ++ decimal number ++ after ∷ [] }
    ensures limit { result ≤ at + 21 }
{
    let end = at + digits(number);
    write_digits(number, buffer, end);
    buffer[end] = after;
    end + 1
}

/// Writes the number after a number, and a byte after it, at an offset, and returns the offset after them.
pub(crate) fn put_next_number(buffer: &mut [u8], at: usize, number: u64, after: u8) -> usize
    requires { at + 21 ≤ length buffer.old }
    ensures written { take result buffer.new ≡ take at buffer.old ++ decimal (number + 1) ++ after ∷ [] }
    ensures limit { result ≤ at + 21 }
{
    if number < u64::MAX {
        return put_number(buffer, at, number + 1, after);
    }
    // 18446744073709551616, which has the digits of a tenth of it before its last.
    let end = put_number(buffer, at, number / 10, b'6');
    put_bytes(buffer, end, &[], after)
}

/// Writes some bytes and a byte after them at an offset, and returns the offset after them.
pub(crate) fn put_bytes(buffer: &mut [u8], at: usize, bytes: &[u8], after: u8) -> usize
    requires { at + length bytes.now < length buffer.old }
    ensures end { result ≡ at + length bytes.now + 1 }
    ensures written { take result buffer.new ≡ take at buffer.old ++ bytes.now ++ after ∷ [] }
{
    let end = at + bytes.len();
    buffer[at..end].copy_from_slice(bytes);
    buffer[end] = after;
    end + 1
}

/// Returns how many digits a number has. It counts them by fours, since most numbers are short.
pub(crate) fn digits(number: u64) -> usize
    ensures value { result ≡ length (decimal number) }
    ensures limit { result ≤ 20 }
{
    let mut left = number;
    let mut count = 0;
    while left >= 10_000 {
        left /= 10_000;
        count += 4;
    }
    count + short_digits(left)
}

/// Returns how many digits a number below 10,000 has.
#[tactic(auto, using(crate::proofs::Digits::has_one, crate::proofs::Digits::has_two, crate::proofs::Digits::has_three, crate::proofs::Digits::has_four))]
fn short_digits(number: u64) -> usize
    requires { number < 10000 }
    ensures { result ≡ length (decimal number) }
{
    if number < 10 {
        1
    } else if number < 100 {
        2
    } else if number < 1000 {
        3
    } else {
        4
    }
}
