//! The sparse accumulator: a sum for each row, and two levels of marks.
//!
//! A product is added to the sum of its row. A bit marks each row that got one, and a second level of bits marks each word
//! of 64 such bits. The marks are read in order, so the rows need no sorting, and one word of the second level tells which
//! of 4,096 rows to look at. Only words between those of the first and the last row are read. It is the accumulator of
//! Gilbert, Moler and Schreiber, Sparse Matrices in MATLAB (SIAM J. Matrix Anal. Appl. 1992, section 3.1), with bits in place
//! of a list of rows.
ghost use Rattle.std.specs.Prelude.{◌≡◌, ◌≢◌, ℕ, ◌<◌, ◌≤◌, ◌+◌, ◌*◌, ◌/◌, ◌^◌, length, All, AllPairs, IfOk, IfSome, OnOk, slice_index, slice_index_or};
ghost use Rattle.std.specs.Int.{bit_at};
ghost use Rattle.cb_semirings.specs.Arithmetic.{IsValue};
ghost use Rattle.cb_product.specs.SparseColumn.{IsColumnOf, scaled_at};
ghost use Rattle.cb_product.specs.DenseSums.{AddsToSums, ZerosStay, column_and_sum};
ghost use Rattle.cb_product.specs.Terms.{IsTerm, terms_value};
ghost use Rattle.cb_product.specs.Marks.{IsAccumulator, IsZeroOutside};
ghost use Rattle.cb_product.specs.Outside.{scaled_unmarked, terms_unmarked};

use crate::columns::{Column, scaled};
use crate::marks::{is_marked, mark_row};
use crate::terms::Term;
use cb_semirings::Semiring;
use std::alloc::{AllocError, Global};
use std::marker::{Model, PhantomData};

/// A sum for each row; in contracts, the list of sums. The sums of rows without a mark are zero.
#[derive(Drop)]
pub(crate) struct SparseAccumulator<S: Semiring> {
    sums: Vec<u64>,
    /// A bit for each row.
    marks: Vec<u64>,
    /// A bit for each word of `marks`.
    groups: Vec<u64>,
    /// A range of words of `groups`, by the first one and the one after the last. The words outside it are zero.
    used: (usize, usize),
    semiring: PhantomData<S>,
}

impl<S: Semiring> Model for SparseAccumulator<S> {
    ghost use Rattle.std.specs.Prelude.{List, ℕ};
    ghost use Rattle.cb_product.specs.Marks.{IsAccumulator, IsZeroOutside};

    ghost Value = { List ℕ };

    ghost view = { λ a. a.sums.items };

    ghost invariant = { λ a. IsAccumulator S.arithmetic a.sums.items a.marks.items a.groups.items × IsZeroOutside a.used.0 a.used.1 a.groups.items };
}

impl<S: Semiring> SparseAccumulator<S> {
    /// Returns an accumulator for this many rows. All sums are zero.
    pub fn new(alloc: Global, rows: u32) -> Result<Self, AllocError>
        ensures length { IfOk result (λ a. length a ≡ rows) }
        ensures zeros { IfOk result (λ a. All (λ x. x ≡ S.arithmetic.zero) a) }
    {
        let rows = rows as usize;
        let sums = vec![in alloc; S::zero(); rows]?;
        let marks = vec![in alloc; 0u64; rows / 64 + 1]?;
        let groups = vec![in alloc; 0u64; rows / 4096 + 1]?;
        Ok(SparseAccumulator {
            sums,
            marks,
            groups,
            used: (usize::MAX, 0),
            semiring: PhantomData,
        })
    }

    /// How many rows it has.
    fn rows(&self) -> usize
        ensures { result ≡ length self.now }
    {
        self.sums.len()
    }

    /// Makes it an accumulator for this many rows. All sums are zero before and after.
    pub fn make_room(&mut self, alloc: Global, rows: u32) -> Result<(), AllocError>
        requires { All (λ x. x ≡ S.arithmetic.zero) self.old }
        ensures length { OnOk result (length self.new ≡ rows) }
        ensures zeros { OnOk result (All (λ x. x ≡ S.arithmetic.zero) self.new) }
    {
        if self.rows() != rows as usize {
            *self = Self::new(alloc, rows)?;
        }
        Ok(())
    }

    /// Adds a column, times a factor if there is one, to the sums of its rows.
    #[inline(always)]
    pub fn add(&mut self, rows: &[u32], values: &[u64], scale: Option<u64>)
        requires lengths { length values.now ≡ length rows.now }
        requires values { All (IsValue S.arithmetic) values.now }
        requires order { AllPairs (λ i j. i < j) rows.now }
        requires scale { IfSome scale (IsValue S.arithmetic) }
        requires inside { All (λ i. i < length self.old) rows.now }
        ensures length { length self.new ≡ length self.old }
        ensures values { All (IsValue S.arithmetic) self.new }
        ensures sums { AddsToSums S.arithmetic (length self.old) (scaled_at S.arithmetic rows.now values.now scale) self.old self.new }
    {
        let SparseAccumulator {
            sums,
            marks,
            groups,
            used,
            ..
        } = self;
        add_entries::<S>(sums, marks, groups, rows, values, scale);
        *used = widened(*used, rows);
    }

    /// Adds terms to the sums of their rows.
    #[inline(never)]
    pub fn add_terms(&mut self, rows: &[u32], values: &[u64], terms: &[Term])
        requires lengths { length values.now ≡ length rows.now }
        requires values { All (IsValue S.arithmetic) values.now }
        requires terms { All (IsTerm S.arithmetic rows.now) terms.now }
        requires inside { All (λ i. i < length self.old) rows.now }
        requires sums { All (IsValue S.arithmetic) self.old }
        ensures length { length self.new ≡ length self.old }
        ensures values { All (IsValue S.arithmetic) self.new }
        ensures sums { AddsToSums S.arithmetic (length self.old) (λ i. terms_value S.arithmetic rows.now values.now i terms.now) self.old self.new }
    {
        for term in terms {
            self.add(
                &rows[term.at..term.end],
                &values[term.at..term.end],
                Some(term.scale),
            );
        }
    }

    /// Adds a column, times a factor if there is one, to the sums of its rows, except for the excluded rows, which are marked.
    #[inline(always)]
    pub fn add_outside(
        &mut self,
        rows: &[u32],
        values: &[u64],
        scale: Option<u64>,
        excluded: &[u64],
    )
        requires lengths { length values.now ≡ length rows.now }
        requires values { All (IsValue S.arithmetic) values.now }
        requires order { AllPairs (λ i j. i < j) rows.now }
        requires scale { IfSome scale (IsValue S.arithmetic) }
        requires inside { All (λ i. i < length self.old) rows.now }
        requires room { length self.old ≤ 64 * length excluded.now }
        ensures length { length self.new ≡ length self.old }
        ensures values { All (IsValue S.arithmetic) self.new }
        ensures sums { AddsToSums S.arithmetic (length self.old) (scaled_unmarked S.arithmetic excluded.now rows.now values.now scale) self.old self.new }
    {
        let SparseAccumulator {
            sums,
            marks,
            groups,
            used,
            ..
        } = self;
        add_entries_outside::<S>(sums, marks, groups, rows, values, scale, excluded);
        *used = widened(*used, rows);
    }

    /// Adds terms to the sums of their rows, except for the excluded rows, which are marked.
    pub fn add_terms_outside(
        &mut self,
        rows: &[u32],
        values: &[u64],
        terms: &[Term],
        excluded: &[u64],
    )
        requires lengths { length values.now ≡ length rows.now }
        requires values { All (IsValue S.arithmetic) values.now }
        requires terms { All (IsTerm S.arithmetic rows.now) terms.now }
        requires inside { All (λ i. i < length self.old) rows.now }
        requires room { length self.old ≤ 64 * length excluded.now }
        requires sums { All (IsValue S.arithmetic) self.old }
        ensures length { length self.new ≡ length self.old }
        ensures sums { AddsToSums S.arithmetic (length self.old) (terms_unmarked S.arithmetic excluded.now rows.now values.now terms.now) self.old self.new }
    {
        for term in terms {
            self.add_outside(
                &rows[term.at..term.end],
                &values[term.at..term.end],
                Some(term.scale),
                excluded,
            );
        }
    }

    /// Moves all sums into a column, which replaces the one in `made`, and leaves zeros. Costs O(a + n / 4096) for a rows that
    /// were added to, the first and the last of which are n rows apart.
    pub fn take(&mut self, made: &mut Column<S>) -> Result<(), AllocError>
        ensures length { length self.new ≡ length self.old }
        ensures zeros { OnOk result (All (λ x. x ≡ S.arithmetic.zero) self.new) }
        ensures column { OnOk result (IsColumnOf S.arithmetic (λ i. slice_index_or self.old i S.arithmetic.zero) made.new) }
    {
        let SparseAccumulator {
            sums,
            marks,
            groups,
            used,
            ..
        } = self;
        take_rows(made, sums, marks, groups, *used)?;
        *used = (usize::MAX, 0);
        Ok(())
    }
}

/// A range of words of `groups`, extended to the words for these rows, which ascend.
#[inline(always)]
fn widened(used: (usize, usize), rows: &[u32]) -> (usize, usize)
    requires { AllPairs (λ i j. i < j) rows.now }
    ensures first { result.0 ≤ used.0 }
    ensures end { used.1 ≤ result.1 }
    ensures rows { All (λ i. (result.0 ≤ i / 4096) × (i / 4096 < result.1)) rows.now }
{
    match (rows.first(), rows.last()) {
        (Some(first), Some(last)) => (
            used.0.min(*first as usize / 4096),
            used.1.max(*last as usize / 4096 + 1),
        ),
        _ => used,
    }
}

/// Adds a column, times a factor if there is one, to the sums of its rows, and marks the rows. A sum that isn't zero has its
/// mark already, so only the others are looked up: where many products have the same row, that is one in many.
#[inline(always)]
fn add_entries<S: Semiring>(
    sums: &mut [u64],
    marks: &mut [u64],
    groups: &mut [u64],
    rows: &[u32],
    values: &[u64],
    scale: Option<u64>,
)
    requires lengths { length values.now ≡ length rows.now }
    requires values { All (IsValue S.arithmetic) values.now }
    requires order { AllPairs (λ i j. i < j) rows.now }
    requires scale { IfSome scale (IsValue S.arithmetic) }
    requires inside { All (λ i. i < length sums.old) rows.now }
    requires accumulator { IsAccumulator S.arithmetic sums.old marks.old groups.old }
    ensures accumulator { IsAccumulator S.arithmetic sums.new marks.new groups.new }
    ensures groups { (k : ℕ) → All (λ i. i / 4096 ≢ k) rows.now → slice_index groups.new k ≡ slice_index groups.old k }
    ensures length { length sums.new ≡ length sums.old }
    ensures sums { AddsToSums S.arithmetic (length sums.old) (scaled_at S.arithmetic rows.now values.now scale) sums.old sums.new }
{
    for n in 0..rows.len() {
        let row = rows[n] as usize;
        let sum = sums[row];
        sums[row] = S::add(sum, scaled::<S>(values[n], scale));
        mark_row(marks, groups, row, sum != S::zero());
    }
}

/// Adds a column, times a factor if there is one, to the sums of its rows, except for the excluded rows, which are marked.
#[inline(always)]
fn add_entries_outside<S: Semiring>(
    sums: &mut [u64],
    marks: &mut [u64],
    groups: &mut [u64],
    rows: &[u32],
    values: &[u64],
    scale: Option<u64>,
    excluded: &[u64],
)
    requires lengths { length values.now ≡ length rows.now }
    requires values { All (IsValue S.arithmetic) values.now }
    requires order { AllPairs (λ i j. i < j) rows.now }
    requires scale { IfSome scale (IsValue S.arithmetic) }
    requires inside { All (λ i. i < length sums.old) rows.now }
    requires room { length sums.old ≤ 64 * length excluded.now }
    requires accumulator { IsAccumulator S.arithmetic sums.old marks.old groups.old }
    ensures accumulator { IsAccumulator S.arithmetic sums.new marks.new groups.new }
    ensures groups { (k : ℕ) → All (λ i. i / 4096 ≢ k) rows.now → slice_index groups.new k ≡ slice_index groups.old k }
    ensures length { length sums.new ≡ length sums.old }
    ensures sums { AddsToSums S.arithmetic (length sums.old) (scaled_unmarked S.arithmetic excluded.now rows.now values.now scale) sums.old sums.new }
{
    for n in 0..rows.len() {
        let row = rows[n] as usize;
        if is_marked(excluded, row) {
            continue;
        }
        let sum = sums[row];
        sums[row] = S::add(sum, scaled::<S>(values[n], scale));
        mark_row(marks, groups, row, sum != S::zero());
    }
}

/// Moves the sums of the rows that the nth word marks into a column, and leaves zeros. A row's value in the column plus its
/// sum stays the same.
fn take_word<S: Semiring>(
    made: &mut Column<S>,
    sums: &mut [u64],
    n: usize,
    word: u64,
) -> Result<(), AllocError>
    requires limit { length sums.old < 2 ^ 32 }
    requires values { All (IsValue S.arithmetic) sums.old }
    requires inside { (k : ℕ) → bit_at word k ≡ 1 → n * 64 + k < length sums.old }
    requires before { All (λ i. i < n * 64) made.old.rows }
    ensures length { length sums.new ≡ length sums.old }
    ensures values { All (IsValue S.arithmetic) sums.new }
    ensures zeros_stay { ZerosStay S.arithmetic.zero sums.old sums.new }
    ensures zeros { OnOk result ((k : ℕ) → bit_at word k ≡ 1 → slice_index_or sums.new (n * 64 + k) S.arithmetic.zero ≡ S.arithmetic.zero) }
    ensures rows { OnOk result (All (λ i. i < n * 64 + 64) made.new.rows) }
    ensures together { OnOk result ((i : ℕ) → column_and_sum S.arithmetic made.new sums.new i ≡ column_and_sum S.arithmetic made.old sums.old i) }
{
    prove_eq!(made.entries().0.len(), made.entries().1.len());
    let mut rest = word;
    while rest != 0 {
        let bit = rest.trailing_zeros();
        let row = n * 64 + bit as usize;
        made.keep(row as u32, sums[row])?;
        sums[row] = S::zero();
        rest &= !(1 << bit);
    }
    Ok(())
}

/// Moves the sums of the rows in the words that the nth word of `groups` marks into a column, and leaves zeros. A row's value
/// in the column plus its sum stays the same.
fn take_group<S: Semiring>(
    made: &mut Column<S>,
    sums: &mut [u64],
    marks: &mut [u64],
    groups: &mut [u64],
    n: usize,
) -> Result<(), AllocError>
    requires inside { n < length groups.old }
    requires accumulator { IsAccumulator S.arithmetic sums.old marks.old groups.old }
    requires before { All (λ i. i < n * 4096) made.old.rows }
    ensures accumulator { IsAccumulator S.arithmetic sums.new marks.new groups.new }
    ensures length { length sums.new ≡ length sums.old }
    ensures groups_length { length groups.new ≡ length groups.old }
    ensures others { (k : ℕ) → k ≢ n → slice_index groups.new k ≡ slice_index groups.old k }
    ensures none { OnOk result (slice_index groups.new n ≡ 0) }
    ensures rows { OnOk result (All (λ i. i < n * 4096 + 4096) made.new.rows) }
    ensures together { OnOk result ((i : ℕ) → column_and_sum S.arithmetic made.new sums.new i ≡ column_and_sum S.arithmetic made.old sums.old i) }
{
    let mut rest = groups[n];
    while rest != 0 {
        let bit = rest.trailing_zeros();
        let word = n * 64 + bit as usize;
        take_word(made, sums, word, marks[word])?;
        marks[word] = 0;
        rest &= !(1 << bit);
        groups[n] = rest;
    }
    Ok(())
}

/// Moves all sums into a column, which replaces the one in `made`, and leaves zeros. Only marked words are read, and words of
/// `groups` in a range outside which they are zero.
fn take_rows<S: Semiring>(
    made: &mut Column<S>,
    sums: &mut [u64],
    marks: &mut [u64],
    groups: &mut [u64],
    used: (usize, usize),
) -> Result<(), AllocError>
    requires accumulator { IsAccumulator S.arithmetic sums.old marks.old groups.old }
    requires used { IsZeroOutside used.0 used.1 groups.old }
    ensures accumulator { IsAccumulator S.arithmetic sums.new marks.new groups.new }
    ensures used { IsZeroOutside used.0 used.1 groups.new }
    ensures length { length sums.new ≡ length sums.old }
    ensures none { OnOk result ((k : ℕ) → slice_index groups.new k ≡ 0) }
    ensures zeros { OnOk result (All (λ x. x ≡ S.arithmetic.zero) sums.new) }
    ensures column { OnOk result (IsColumnOf S.arithmetic (λ i. slice_index_or sums.old i S.arithmetic.zero) made.new) }
{
    made.clear();
    let end = used.1.min(groups.len());
    for n in used.0..end {
        take_group(made, sums, marks, groups, n)?;
    }
    prove_eq!(made.entries().0.len(), made.entries().1.len());
    Ok(())
}
