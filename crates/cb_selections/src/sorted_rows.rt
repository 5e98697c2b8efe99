//! The entries of a column in listed rows, where the numbers of these rows are in any order.
//!
//! An entry that is kept becomes a key: its row's place in the list, and then its own place in the column. Keys are single
//! numbers, so a short column is sorted by insertion and a long one without branches, and its values are moved once.
ghost use Rattle.std.specs.Prelude.{◌≡◌, ℕ, ◌<◌, ◌≤◌, ◌/◌, ◌%◌, length, take, slice_index, All, AllPairs};
ghost use Rattle.cb_selections.specs.ListedRows.{ArePlaces, IsListed};
ghost use Rattle.cb_selections.specs.RowKeys.{AreKeys};

use std::alloc::Global;

/// How many places in a column a key can have for each place of a row.
const ENTRIES: u64 = 1 << 32;

/// The entries of one column after another that are kept, at the fronts of two lists, and room for their keys.
#[derive(Drop)]
pub(crate) struct KeptColumn {
    pub(crate) rows: Vec<u32>,
    pub(crate) values: Vec<u64>,
    pub(crate) keys: Vec<u64>,
}

impl KeptColumn {
    /// No entries and no room.
    pub(crate) fn new(alloc: Global) -> Self {
        Self {
            rows: Vec::new(alloc),
            values: Vec::new(alloc),
            keys: Vec::new(alloc),
        }
    }
}

/// Writes the entries of a column that are in listed rows to the fronts of two lists, in order of their places in the list of
/// rows, which are their rows now. Returns how many they are.
pub(crate) fn write_sorted(
    kept_rows: &mut [u32],
    kept_values: &mut [u64],
    keys: &mut [u64],
    rows: &[u32],
    values: &[u64],
    listed: &[u32],
    places: &[u32],
) -> usize
    requires count { length values.now ≡ length rows.now }
    requires rows { AllPairs (λ i j. i < j) rows.now }
    requires inside { All (λ i. i < length places.now) rows.now }
    requires places { ArePlaces (length places.now) listed.now places.now }
    requires rows_room { length rows.now ≤ length kept_rows.old }
    requires values_room { length rows.now ≤ length kept_values.old }
    requires keys_room { length rows.now ≤ length keys.old }
    ensures rows_room { result ≤ length kept_rows.new }
    ensures values_room { result ≤ length kept_values.new }
    ensures listed { IsListed listed.now rows.now values.now (take result kept_rows.new) (take result kept_values.new) }
{
    let count = sort_keys(keys, rows, listed, places);
    read_keys(kept_rows, kept_values, &keys[..count], values);
    count
}

/// Writes the keys of the entries in listed rows to the front of a list, in ascending order, and returns how many they are.
fn sort_keys(keys: &mut [u64], rows: &[u32], listed: &[u32], places: &[u32]) -> usize
    requires rows { AllPairs (λ i j. i < j) rows.now }
    requires inside { All (λ i. i < length places.now) rows.now }
    requires places { ArePlaces (length places.now) listed.now places.now }
    requires room { length rows.now ≤ length keys.old }
    ensures most { result ≤ length rows.now }
    ensures room { length keys.new ≡ length keys.old }
    ensures keys { AreKeys listed.now rows.now (take result keys.new) }
    ensures ascending { AllPairs (λ x y. x < y) (take result keys.new) }
{
    let count = write_keys(keys, rows, listed, places);
    keys[..count].sort_unstable();
    count
}

/// The same, in the order of the column. A key is written in any case, and the next one over it if its row isn't listed.
#[inline(always)]
fn write_keys(keys: &mut [u64], rows: &[u32], listed: &[u32], places: &[u32]) -> usize
    requires rows { AllPairs (λ i j. i < j) rows.now }
    requires inside { All (λ i. i < length places.now) rows.now }
    requires places { ArePlaces (length places.now) listed.now places.now }
    requires room { length rows.now ≤ length keys.old }
    ensures most { result ≤ length rows.now }
    ensures room { length keys.new ≡ length keys.old }
    ensures keys { AreKeys listed.now rows.now (take result keys.new) }
{
    let mut count = 0usize;
    for n in 0..rows.len() {
        let place = places[rows[n] as usize];
        keys[count] = place as u64 * ENTRIES + n as u64;
        count += usize::from((place as usize) < listed.len());
    }
    count
}

/// Writes the rows and the values of keys to the fronts of two lists.
#[inline(always)]
fn read_keys(kept_rows: &mut [u32], kept_values: &mut [u64], keys: &[u64], values: &[u64])
    requires entries { All (λ key. key % ENTRIES < length values.now) keys.now }
    requires rows_room { length keys.now ≤ length kept_rows.old }
    requires values_room { length keys.now ≤ length kept_values.old }
    ensures rows_length { length kept_rows.new ≡ length kept_rows.old }
    ensures values_length { length kept_values.new ≡ length kept_values.old }
    ensures rows { (k : ℕ) → k < length keys.now → slice_index kept_rows.new k ≡ slice_index keys.now k / ENTRIES }
    ensures values { (k : ℕ) → k < length keys.now → slice_index kept_values.new k ≡ slice_index values.now (slice_index keys.now k % ENTRIES) }
{
    for n in 0..keys.len() {
        let key = keys[n];
        kept_rows[n] = (key / ENTRIES) as u32;
        kept_values[n] = values[(key % ENTRIES) as usize];
    }
}
