//! A table of the places of numbers in an ascending list.
//!
//! The table has a slot for each number below a bound. The slot of a number in the list holds the number's place there,
//! and all others hold [`NONE`]. Before the table serves another list, only the slots of this list's numbers are cleared.
ghost use Rattle.std.specs.Prelude.{◌≡◌, ◌≢◌, ℕ, ◌<◌, ◌≤◌, ◌^◌, length, All, AllPairs, IfOk, slice_index};
ghost use Rattle.cb_masked.specs.PlaceTables.{AreNoted};

use std::alloc::{AllocError, Global};

/// The content of the slot of a number that isn't in the list.
pub(crate) const NONE: u32 = u32::MAX;

/// Returns a cleared table with a slot for each number below a bound, if these are at most four for each lookup, and
/// otherwise a table without slots.
pub(crate) fn cleared(alloc: Global, bound: u32, asked: usize) -> Result<Vec<u32>, AllocError>
    ensures { IfOk result (λ slots. All (λ x. x ≡ NONE) slots.items) }
{
    let mut slots = Vec::new(alloc);
    let count = if bound as usize / 4 < asked { bound } else { 0 };
    slots.resize(count as usize, NONE)?;
    Ok(slots)
}

/// Returns a table of the places of the numbers in a list.
pub(crate) fn noted(
    alloc: Global,
    bound: u32,
    asked: usize,
    numbers: &[u32],
) -> Result<Vec<u32>, AllocError>
    requires ascending { AllPairs (λ a b. a < b) numbers.now }
    requires below { All (λ a. a < bound) numbers.now }
    ensures { IfOk result (λ slots. AreNoted slots.items numbers.now) }
{
    let mut slots = cleared(alloc, bound, asked)?;
    note(&mut slots, numbers);
    Ok(slots)
}

/// Writes the places of the numbers in a list to a cleared table. Numbers without a slot are left out.
pub(crate) fn note(slots: &mut [u32], numbers: &[u32])
    requires ascending { AllPairs (λ a b. a < b) numbers.now }
    requires few { length numbers.now < 2 ^ 32 }
    requires cleared { All (λ x. x ≡ NONE) slots.old }
    ensures noted { AreNoted slots.new numbers.now }
    ensures length { length slots.new ≡ length slots.old }
{
    if slots.is_empty() {
        return;
    }
    for n in 0..numbers.len() {
        let number = numbers[n] as usize;
        if number < slots.len() {
            slots[number] = n as u32;
        }
    }
}

/// Clears the slots of the numbers in a list.
pub(crate) fn clear(slots: &mut [u32], numbers: &[u32])
    requires { AreNoted slots.old numbers.now }
    ensures cleared { All (λ x. x ≡ NONE) slots.new }
    ensures length { length slots.new ≡ length slots.old }
{
    for n in 0..numbers.len() {
        let number = numbers[n] as usize;
        if number < slots.len() {
            slots[number] = NONE;
        }
    }
}

/// Returns the place of a number in a list, or the list's length if it isn't there. It is read from the number's slot, or
/// found by a binary search if the number has no slot.
#[inline(always)]
pub(crate) fn place_of(slots: &[u32], numbers: &[u32], number: u32) -> usize
    requires ascending { AllPairs (λ a b. a < b) numbers.now }
    requires noted { AreNoted slots.now numbers.now }
    ensures within { result ≤ length numbers.now }
    ensures here { result < length numbers.now → slice_index numbers.now result ≡ number }
    ensures none { result ≡ length numbers.now → (n : ℕ) → n < length numbers.now → slice_index numbers.now n ≢ number }
{
    let at = number as usize;
    if at < slots.len() {
        (slots[at] as usize).min(numbers.len())
    } else {
        search(numbers, number)
    }
}

/// Returns the place of a number in a list, or the list's length if it isn't there, by a binary search.
fn search(numbers: &[u32], number: u32) -> usize
    requires { AllPairs (λ a b. a < b) numbers.now }
    ensures within { result ≤ length numbers.now }
    ensures here { result < length numbers.now → slice_index numbers.now result ≡ number }
    ensures none { result ≡ length numbers.now → (n : ℕ) → n < length numbers.now → slice_index numbers.now n ≢ number }
{
    match numbers.binary_search(&number) {
        Ok(n) => n,
        Err(_) => numbers.len(),
    }
}
