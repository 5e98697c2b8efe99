//! A column of a product at a time, for callers that store products in a way of their own.
ghost use Rattle.std.specs.Prelude.{◌≡◌, ◌<◌, length, All, AllPairs, OnOk};
ghost use Rattle.cb_matrix.specs.Sparse.{IsMatrix};
ghost use Rattle.cb_dcsc.specs.Columns.{rows_of};
ghost use Rattle.cb_semirings.specs.Arithmetic.{IsValue};
ghost use Rattle.cb_product.specs.ColumnStarts.{Tells};
ghost use Rattle.cb_product.specs.SparseColumn.{IsSparseColumn, IsColumnOf};
ghost use Rattle.cb_product.specs.Terms.{IsTerm};
ghost use Rattle.cb_product.specs.Marks.{MarksNone};
ghost use Rattle.cb_product.specs.Outside.{sum_outside, terms_outside};

use crate::column_index::ColumnIndex;
use crate::is_dense;
use crate::marks::{make_room, set_marks};
use crate::panel::Panel;
use crate::terms::{Term, products_of};
use crate::workspace::Workspace;
use cb_dcsc::Block;
use cb_semirings::Semiring;
use std::alloc::{AllocError, Global};
use std::marker::Model;

/// A column of a product. Columns are computed one after another, in the same memory.
#[derive(Drop)]
pub struct ProductColumn<S: Semiring> {
    alloc: Global,
    work: Workspace<S>,
    panel: Panel,
    /// A bit for each row, set while the row is excluded.
    excluded: Vec<u64>,
    /// How many products the columns so far had.
    seen: usize,
    /// Whether the last column was computed to its end; else its sums and bits may not be cleared.
    complete: bool,
}

impl<S: Semiring> Model for ProductColumn<S> {
    ghost use Rattle.std.specs.Prelude.{◌≡◌, IsTrue, All};
    ghost use Rattle.cb_product.specs.Marks.{MarksNone};
    ghost use Rattle.cb_product.specs.SparseColumn.{SparseColumn};

    ghost Value = { SparseColumn };

    ghost view = { λ a. a.work.made };

    ghost invariant = { λ a. IsTrue a.complete → All (λ x. x ≡ S.arithmetic.zero) a.work.sums × MarksNone a.excluded.items };
}

impl<S: Semiring> ProductColumn<S> {
    /// Returns a column without entries.
    pub fn new(alloc: Global) -> Result<Self, AllocError> {
        Ok(ProductColumn {
            alloc,
            work: Workspace::new(alloc)?,
            panel: Panel::new(alloc, 1),
            excluded: Vec::new(alloc),
            seen: 0,
            complete: true,
        })
    }

    /// Replaces this column by a sum of columns of the left block, each times a factor, without the entries in the excluded
    /// rows, which ascend. `inner` has the numbers of the left block's columns; the index is that of the left block.
    ///
    /// Costs the products of these columns and factors, and the excluded rows. If memory is refused, the entries are those
    /// of no column until a later call succeeds.
    pub fn make_outside(
        &mut self,
        left: &Block<S>,
        index: &ColumnIndex,
        inner: &[u32],
        factors: &[u64],
        excluded: &[u32],
    ) -> Result<(), AllocError>
        requires told { Tells index.now left.now }
        requires lengths { length factors.now ≡ length inner.now }
        requires factors { All (IsValue S.arithmetic) factors.now }
        requires inside { All (λ k. k < left.now.shape.cols) inner.now }
        requires excluded { AllPairs (λ i j. i < j) excluded.now }
        requires excluded_inside { All (λ i. i < left.now.shape.rows) excluded.now }
        ensures { OnOk result (IsColumnOf S.arithmetic (sum_outside S.arithmetic left.now excluded.now inner.now factors.now) self.new) }
    {
        let left_rows = left.shape().rows();
        if !self.complete {
            self.work = Workspace::new(self.alloc)?;
            self.excluded.clear();
        }
        self.complete = false;
        self.panel.clear();
        let all = inner.len();
        let (begin, end) = self.panel.find(left, index, inner, factors, 0, all)?;
        let terms = &self.panel.terms()[begin..end];
        let products = products_of(terms);
        self.seen = self.seen.saturating_add(products);
        let dense = is_dense(left_rows, products, self.seen);
        let (work, marks) = (&mut self.work, &mut self.excluded);
        make_of_terms(work, marks, left, terms, excluded, dense)?;
        self.complete = true;
        Ok(())
    }

    /// Returns the rows and the values of the entries.
    pub fn entries(&self) -> (&[u32], &[u64])
        ensures rows { result.0.now ≡ self.now.rows }
        ensures values { result.1.now ≡ self.now.values }
        ensures column { IsSparseColumn S.arithmetic self.now.rows self.now.values }
    {
        self.work.made.entries()
    }
}

/// Computes the sum of terms without its entries in the excluded rows, which ascend. In the sparse accumulator, products in
/// these rows are skipped; `marks` marks the rows meanwhile.
fn make_of_terms<S: Semiring>(
    work: &mut Workspace<S>,
    marks: &mut Vec<u64>,
    left: &Block<S>,
    terms: &[Term],
    excluded: &[u32],
    dense: bool,
) -> Result<(), AllocError>
    requires left { IsMatrix S.arithmetic left.now }
    requires terms { All (IsTerm S.arithmetic (rows_of left.now.entries)) terms.now }
    requires excluded { AllPairs (λ i j. i < j) excluded.now }
    requires inside { All (λ i. i < left.now.shape.rows) excluded.now }
    requires zeros { All (λ x. x ≡ S.arithmetic.zero) work.old.sums }
    requires none { MarksNone marks.old.items }
    ensures zeros { OnOk result (All (λ x. x ≡ S.arithmetic.zero) work.new.sums) }
    ensures none { OnOk result (MarksNone marks.new.items) }
    ensures column { OnOk result (IsColumnOf S.arithmetic (terms_outside S.arithmetic left.now excluded.now terms.now) work.new.made) }
{
    if !dense || terms.len() == 1 || excluded.is_empty() {
        return work.make_outside(left, terms, excluded, dense);
    }
    make_room(marks, left.shape().rows())?;
    set_marks(marks, excluded, true);
    work.make_dense_outside(left, terms, marks)?;
    set_marks(marks, excluded, false);
    Ok(())
}
