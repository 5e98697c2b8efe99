//! A matrix from entries in any order: they are sorted by place, and those at the same place are added up.
ghost use Rattle.std.specs.Prelude.{◌≡◌, ◌↔◌, ◌≢◌, ℕ, ◌<◌, ◌≤◌, ◌++◌, ◌+◌, length, take, drop, All, AllPairs, IfOk, IfNone, IsErrOf, OnOk, Some, position, filter, IsPermutation};
ghost use Rattle.cb_semirings.specs.Arithmetic.{IsValue};
ghost use Rattle.cb_matrix.specs.Sparse.{is_at, IsNotAfter, IsInside, is_outside};
ghost use Rattle.cb_matrix.specs.Combined.{stored, IsCombined};
ghost use Rattle.cb_matrix.specs.Products.{products_with, products};
ghost use Rattle.cb_matrix.specs.Values.{collected, product, product_shape};

use crate::{Entry, EntryFault, Matrix, ProductFault, Shape};
use cb_semirings::Semiring;
use std::alloc::{AllocError, Global};
use std::marker::PhantomData;

/// The entries sorted by column and then by row. Those at the same place keep their order.
///
/// Costs O(n log n) time for n entries and the buffer of a stable sort. If they ascend already, it costs O(n) time and
/// no memory.
pub fn in_order(entries: Vec<Entry>) -> Result<Vec<Entry>, AllocError>
    ensures order { IfOk result (λ v. AllPairs IsNotAfter v.items) }
    ensures same { IfOk result (λ v. (i j : ℕ) → filter (is_at i j) v.items ≡ filter (is_at i j) entries.items) }
    ensures permutation { IfOk result (λ v. IsPermutation entries.items v.items) }
{
    let mut sorted = entries;
    sorted.sort_by_key(|entry| (entry.column, entry.row))?;
    Ok(sorted)
}

/// Stores an entry after the first `kept` ones, unless its value is zero. Returns how many are kept now.
fn keep<S: Semiring>(entries: &mut [Entry], kept: usize, entry: Entry) -> usize
    requires { kept < length entries.old }
    ensures count { result ≤ kept + 1 }
    ensures kept { take result entries.new ≡ take kept entries.old ++ stored S.arithmetic.zero entry }
    ensures rest { drop (kept + 1) entries.new ≡ drop (kept + 1) entries.old }
{
    if entry.value == S::zero() {
        return kept;
    }
    entries[kept] = entry;
    kept + 1
}

/// Replaces the entries by the sums at each place that aren't zero, at the front of the list. Returns how many sums there
/// are.
fn combine<S: Semiring>(entries: &mut [Entry]) -> usize
    requires order { AllPairs IsNotAfter entries.old }
    requires values { All (λ e. IsValue S.arithmetic e.value) entries.old }
    ensures { IsCombined S.arithmetic entries.old (take result entries.new) }
{
    if entries.is_empty() {
        return 0;
    }
    let mut current = entries[0];
    let mut kept = 0;
    for index in 1..entries.len() {
        let entry = entries[index];
        if entry.row == current.row && entry.column == current.column {
            current.value = S::add(current.value, entry.value);
        } else {
            kept = keep::<S>(entries, kept, current);
            current = entry;
        }
    }
    keep::<S>(entries, kept, current)
}

impl Shape {
    /// Whether an entry is outside the shape.
    fn is_outside(&self, entry: &Entry) -> bool
        ensures { result ≡ is_outside self.now entry.now }
    {
        !(entry.row < self.rows && entry.column < self.cols)
    }

    /// The index of the first entry outside the shape.
    fn first_outside(&self, entries: &[Entry]) -> Option<usize>
        ensures first { result ≡ position (is_outside self.now) entries.now }
        ensures none { IfNone result (All (IsInside self.now) entries.now) }
    {
        entries.iter().position(|entry| self.is_outside(entry))
    }
}

impl<S: Semiring> Matrix<S> {
    /// The matrix that has at each place the sum of the values given there. The entries are inside the shape, and may
    /// come in any order. Sums of zero aren't stored.
    ///
    /// The list is consumed; it is sorted and added up in place. Costs O(n log n) time for n entries and the buffer of a
    /// stable sort. If they ascend by column and then row, it costs O(n) time and no memory.
    pub fn collect(shape: Shape, entries: Vec<Entry>) -> Result<Self, AllocError>
        requires inside { All (IsInside shape) entries.items }
        requires values { All (λ e. IsValue S.arithmetic e.value) entries.items }
        ensures { IfOk result (λ m. m ≡ collected S.arithmetic shape entries.items) }
    {
        let mut entries = in_order(entries)?;
        let kept = combine::<S>(&mut entries);
        entries.truncate(kept);
        Ok(Matrix {
            shape,
            entries,
            semiring: PhantomData,
        })
    }

    /// The matrix that has at each place the sum of the values given there. The entries may come in any order. Sums of
    /// zero aren't stored.
    ///
    /// Costs O(n log n) time for n entries, or O(n) if they ascend by column and then row. Memory is that of one copy
    /// and, unless they ascend, the buffer of a stable sort.
    pub fn from_entries(alloc: Global, shape: Shape, entries: &[Entry]) -> Result<Self, EntryFault>
        requires { All (λ e. IsValue S.arithmetic e.value) entries.now }
        ensures ok { IfOk result (λ m. m ≡ collected S.arithmetic shape entries.now) }
        ensures place { (n : ℕ) → IsErrOf result (EntryFault.Place n) ↔ (position (is_outside shape) entries.now ≡ Some n) }
    {
        if let Some(index) = shape.first_outside(entries) {
            return Err(EntryFault::Place(index));
        }
        let entries = Vec::from_slice(alloc, entries)?;
        Ok(Self::collect(shape, entries)?)
    }

    /// The same as [`from_entries`](Self::from_entries), from a list, which is consumed as in [`collect`](Self::collect).
    pub fn from_vec(shape: Shape, entries: Vec<Entry>) -> Result<Self, EntryFault>
        requires { All (λ e. IsValue S.arithmetic e.value) entries.items }
        ensures ok { IfOk result (λ m. m ≡ collected S.arithmetic shape entries.items) }
        ensures place { (n : ℕ) → IsErrOf result (EntryFault.Place n) ↔ (position (is_outside shape) entries.items ≡ Some n) }
    {
        if let Some(index) = shape.first_outside(&entries) {
            return Err(EntryFault::Place(index));
        }
        Ok(Self::collect(shape, entries)?)
    }
}

impl<S: Semiring> Matrix<S> {
    /// The product of two matrices: at row i and column j the sum of `left(i, k)` times `right(k, j)` over all columns k
    /// of the first.
    ///
    /// Compares each stored entry of the first with each of the second, so its time is the product of their numbers of
    /// entries, whatever the shapes: a reference, not a kernel. Memory is that of all products of matching entries, and
    /// the buffer of a stable sort.
    pub fn plain_product(alloc: Global, left: &Self, right: &Self) -> Result<Self, ProductFault>
        ensures ok { IfOk result (λ m. m ≡ product S.arithmetic left.now right.now) }
        ensures shapes { IsErrOf result ProductFault.Shapes ↔ (left.now.shape.cols ≢ right.now.shape.rows) }
    {
        if left.cols() != right.rows() {
            return Err(ProductFault::Shapes);
        }
        let products = left.products(alloc, right)?;
        Ok(Self::collect(left.shape.with_columns_of(right.shape), products)?)
    }

    /// The products of all pairs of matching entries. Added up, they make the product of the matrices.
    fn products(&self, alloc: Global, right: &Self) -> Result<Vec<Entry>, AllocError>
        requires { self.now.shape.cols ≡ right.now.shape.rows }
        ensures inside { IfOk result (λ v. All (IsInside (product_shape self.now right.now)) v.items) }
        ensures values { IfOk result (λ v. All (λ e. IsValue S.arithmetic e.value) v.items) }
        ensures sums { IfOk result (λ v. collected S.arithmetic (product_shape self.now right.now) v.items ≡ product S.arithmetic self.now right.now) }
    {
        let mut products = Vec::new(alloc);
        for entry in &self.entries {
            append_products::<S>(&mut products, entry, &right.entries)?;
        }
        Ok(products)
    }
}

/// Appends the products of an entry with all entries that it matches.
fn append_products<S: Semiring>(
    products: &mut Vec<Entry>,
    left: &Entry,
    entries: &[Entry],
) -> Result<(), AllocError>
    requires left { IsValue S.arithmetic left.now.value }
    requires right { All (λ e. IsValue S.arithmetic e.value) entries.now }
    ensures { OnOk result (products.new.items ≡ products.old.items ++ products_with S.arithmetic left.now entries.now) }
{
    for right in entries {
        if left.column == right.row {
            products.push(Entry {
                row: left.row,
                column: right.column,
                value: S::mul(left.value, right.value),
            })?;
        }
    }
    Ok(())
}
