//! A matrix in compressed columns, as C passes it, and whether its lists are well formed.
ghost use Rattle.std.specs.Prelude.{◌≡◌, ◌↔◌, ◌≤◌, ◌<◌, ◌+◌, IsTrue, length, slice_index, All, AllPairs};
ghost use Rattle.cb_lists.specs.Lists.{count, column, starts, rows_in, values_in, shape_of, HasForm, Fits, HasStarts, HaveLengths, StartsRise, RowsAscend, AreOrdered, AreInside, AreValues, AreLists};

use cb_matrix::{LIMIT, Shape};
use cb_semirings::Semiring;

/// A matrix in compressed columns. The stored columns are those in `columns` (DCSC, `kind` 0), or all columns (CSC, `kind`
/// 1, which ignores `columns`). The entries of the nth stored column are those of `rows` and `values` from the nth start
/// up to the next.
///
/// `columns` ascend strictly, and so do the rows of each stored column. An entry whose value is the semiring's zero is
/// ignored. A matrix without stored columns may have no starts.
#[repr(C)]
#[derive(Clone, Copy)]
pub struct Columns<'a> {
    /// How many rows the matrix has.
    pub nrows: u32,
    /// How many columns the matrix has.
    pub ncols: u32,
    /// 0 (DCSC) if `columns` has the stored columns, 1 (CSC) if all columns are stored.
    pub kind: u32,
    /// 0 if the starts have 32 bits, 1 if they have 64.
    pub wide: u32,
    /// JC: the stored columns.
    pub columns: &'a [u32],
    /// CP: where each stored column starts, and where the last ends, in 32 bits.
    pub starts32: &'a [u32],
    /// The same in 64 bits.
    pub starts64: &'a [u64],
    /// IR: the row of each entry.
    pub rows: &'a [u32],
    /// NUM: the value of each entry.
    pub values: &'a [u64],
}

impl<'a> Columns<'a> {
    /// How many columns are stored.
    pub(crate) fn count(&self) -> usize
        ensures { result ≡ count self.now }
    {
        if self.kind == 0 {
            self.columns.len()
        } else {
            self.ncols as usize
        }
    }

    /// How many starts there are.
    fn starts_len(&self) -> usize
        ensures { result ≡ length (starts self.now) }
    {
        if self.wide == 0 {
            self.starts32.len()
        } else {
            self.starts64.len()
        }
    }

    /// Where the nth stored column starts, or 0 past the last start.
    fn start(&self, n: usize) -> u64
        ensures { result ≡ slice_index (starts self.now) n }
    {
        if self.wide == 0 {
            self.starts32.get(n).copied().unwrap_or(0).into()
        } else {
            self.starts64.get(n).copied().unwrap_or(0)
        }
    }

    /// The number of the nth stored column.
    pub(crate) fn column(&self, n: usize) -> u32
        requires { n < count self.now }
        ensures { result ≡ column self.now n }
    {
        if self.kind == 0 {
            self.columns[n]
        } else {
            n as u32
        }
    }

    /// Where the nth stored column starts and ends.
    fn bounds(&self, n: usize) -> (usize, usize)
        requires n { n < count self.now }
        requires lengths { HaveLengths self.now }
        requires rising { StartsRise self.now }
        ensures start { result.0 ≡ slice_index (starts self.now) n }
        ensures end { result.1 ≡ slice_index (starts self.now) (n + 1) }
        ensures order { result.0 ≤ result.1 }
        ensures rows { result.1 ≤ length self.now.rows.now }
        ensures values { result.1 ≤ length self.now.values.now }
    {
        (self.start(n) as usize, self.start(n + 1) as usize)
    }

    /// The rows of the nth stored column, and the value at each.
    pub(crate) fn nth_column(&self, n: usize) -> (&'a [u32], &'a [u64])
        requires n { n < count self.now }
        requires lengths { HaveLengths self.now }
        requires rising { StartsRise self.now }
        ensures rows { result.0.now ≡ rows_in self.now n }
        ensures values { result.1.now ≡ values_in self.now n }
    {
        let (start, end) = self.bounds(n);
        (&self.rows[start..end], &self.values[start..end])
    }

    /// Whether the kind and the width are known.
    pub fn has_form(&self) -> bool
        ensures { IsTrue result ↔ HasForm self.now }
    {
        self.kind <= 1 && self.wide <= 1
    }

    /// Whether there are at most [`LIMIT`] rows and as many columns.
    pub fn fits(&self) -> bool
        ensures { IsTrue result ↔ Fits self.now }
    {
        self.nrows <= LIMIT && self.ncols <= LIMIT
    }

    /// Whether there is one more start than stored columns, or none of either.
    fn has_starts(&self) -> bool
        ensures { IsTrue result ↔ HasStarts self.now }
    {
        let none = self.kind == 0 && self.columns.is_empty() && self.starts_len() == 0;
        self.starts_len().checked_sub(1) == Some(self.count()) || none
    }

    /// Whether the lengths agree.
    pub fn have_lengths(&self) -> bool
        ensures { IsTrue result ↔ HaveLengths self.now }
    {
        self.has_starts()
            && self.start(0) == 0
            && self.start(self.count()) == self.rows.len() as u64
            && self.values.len() == self.rows.len()
    }

    /// Whether the starts never descend.
    fn starts_rise(&self) -> bool
        requires { count self.now < usize.MAX }
        ensures { IsTrue result ↔ StartsRise self.now }
    {
        for n in 0..self.count() {
            if self.start(n + 1) < self.start(n) {
                return false;
            }
        }
        true
    }

    /// Whether the rows of each stored column ascend strictly.
    fn rows_ascend(&self) -> bool
        requires lengths { HaveLengths self.now }
        requires rising { StartsRise self.now }
        ensures { IsTrue result ↔ RowsAscend self.now }
    {
        for n in 0..self.count() {
            let (rows, _values) = self.nth_column(n);
            if !ascends(rows) {
                return false;
            }
        }
        true
    }

    /// Whether the starts never descend, and the columns, and the rows of each column, ascend strictly.
    pub fn are_ordered(&self) -> bool
        requires { HaveLengths self.now }
        ensures { IsTrue result ↔ AreOrdered self.now }
    {
        self.starts_rise() && (self.kind != 0 || ascends(self.columns)) && self.rows_ascend()
    }

    /// Whether all columns and rows are inside the shape.
    pub fn are_inside(&self) -> bool
        ensures { IsTrue result ↔ AreInside self.now }
    {
        (self.kind != 0 || are_below(self.columns, self.ncols)) && are_below(self.rows, self.nrows)
    }

    /// The shape of the matrix.
    pub fn shape(&self) -> Shape
        requires { Fits self.now }
        ensures { result ≡ shape_of self.now }
    {
        Shape::new(self.nrows, self.ncols).unwrap()
    }

    /// Whether all values are values of the semiring.
    pub fn are_values<S: Semiring>(&self) -> bool
        ensures { IsTrue result ↔ AreValues S.arithmetic self.now }
    {
        self.values.iter().all(|value| S::is_value(*value))
    }

    /// Whether the lists are those of a matrix over the semiring. Costs a walk over the stored columns and the entries, and
    /// no memory.
    pub fn are_well_formed<S: Semiring>(&self) -> bool
        ensures { IsTrue result ↔ AreLists S.arithmetic self.now }
    {
        self.has_form()
            && self.fits()
            && self.have_lengths()
            && self.are_ordered()
            && self.are_inside()
            && self.are_values::<S>()
    }
}

/// Whether numbers ascend strictly.
pub fn ascends(numbers: &[u32]) -> bool
    ensures { IsTrue result ↔ AllPairs (λ i j. i < j) numbers.now }
{
    for n in 1..numbers.len() {
        if numbers[n] <= numbers[n - 1] {
            return false;
        }
    }
    true
}

/// Whether all numbers are below a limit.
fn are_below(numbers: &[u32], limit: u32) -> bool
    ensures { IsTrue result ↔ All (λ i. i < limit) numbers.now }
{
    numbers.iter().all(|number| *number < limit)
}
