//! One column of a product, computed in the cheapest of four ways.
ghost use Rattle.std.specs.Prelude.{◌≡◌, ◌<◌, ◌≤◌, ◌*◌, length, All, AllPairs, IfOk, OnOk};
ghost use Rattle.cb_matrix.specs.Sparse.{IsMatrix};
ghost use Rattle.cb_dcsc.specs.Columns.{rows_of};
ghost use Rattle.cb_product.specs.SparseColumn.{AreEntries, IsColumnOf};
ghost use Rattle.cb_product.specs.Terms.{IsTerm, sum_with};
ghost use Rattle.cb_product.specs.Sources.{IsSource, HasTerms, IsColumnWithAll};
ghost use Rattle.cb_product.specs.Outside.{sum_unmarked, terms_outside};

use crate::columns::Column;
use crate::heads::merge;
use crate::sources::Source;
use crate::sparse_accumulator::SparseAccumulator;
use crate::terms::{Term, products_of};
use cb_dcsc::Block;
use cb_semirings::Semiring;
use std::alloc::{AllocError, Global};
use std::mem::swap;

/// Up to this many terms are joined one after another; more are merged by a heap.
const FEW: usize = 24;

/// Up to this many terms are joined also if the column is dense, unless it has more than [`SHORT`] products.
const FEW_SHORT: usize = 5;

/// The most products, with the entries of the accumulator's column, of a dense column whose terms are joined.
const SHORT: usize = 96;

/// The memory in which columns are computed, one after another: the result, a spare column and the sparse accumulator.
#[derive(Drop)]
pub(crate) struct Workspace<S: Semiring> {
    alloc: Global,
    pub made: Column<S>,
    pub spare: Column<S>,
    pub sums: SparseAccumulator<S>,
}

impl<S: Semiring> Workspace<S> {
    /// Returns a workspace of columns without entries and an accumulator without rows.
    pub fn new(alloc: Global) -> Result<Self, AllocError>
        ensures { IfOk result (λ w. All (λ x. x ≡ S.arithmetic.zero) w.sums) }
    {
        Ok(Workspace {
            alloc,
            sums: SparseAccumulator::new(alloc, 0)?,
            made: Column::new(alloc),
            spare: Column::new(alloc),
        })
    }

    /// Computes the sum of terms and a column of the accumulator. A single term is joined with that column. Several terms
    /// are added up in the sparse accumulator if `dense`, unless they are short; otherwise a few are joined one after
    /// another, and many are merged by a heap.
    pub fn make(
        &mut self,
        left: &Block<S>,
        terms: &[Term],
        own_rows: &[u32],
        own_values: &[u64],
        dense: bool,
    ) -> Result<(), AllocError>
        requires left { IsMatrix S.arithmetic left.now }
        requires terms { All (IsTerm S.arithmetic (rows_of left.now.entries)) terms.now }
        requires own { AreEntries S.arithmetic left.now.shape.rows own_rows.now own_values.now }
        requires zeros { All (λ x. x ≡ S.arithmetic.zero) self.old.sums }
        ensures zeros { OnOk result (All (λ x. x ≡ S.arithmetic.zero) self.new.sums) }
        ensures column { OnOk result (IsColumnOf S.arithmetic (sum_with S.arithmetic left.now own_rows.now own_values.now terms.now) self.new.made) }
    {
        if terms.len() == 1 {
            return self.make_of_one(left, terms, own_rows, own_values);
        }
        if dense && !is_short(terms, own_rows.len()) {
            return self.make_dense(left, terms, own_rows, own_values);
        }
        if terms.len() <= FEW {
            return self.make_joined(left, terms, own_rows, own_values);
        }
        let (rows, values) = (left.row_numbers(), left.values());
        merge(self.alloc, &mut self.spare, rows, values, terms)?;
        let (merged_rows, merged_values) = self.spare.entries();
        self.made
            .join(own_rows, own_values, merged_rows, merged_values, None)
    }

    /// Computes the sum of a column of the accumulator and of the terms of several products in the sparse accumulator. Their
    /// columns have this many rows.
    pub fn make_all_dense(
        &mut self,
        sources: &[Source<'_, S>],
        rows: u32,
        own_rows: &[u32],
        own_values: &[u64],
    ) -> Result<(), AllocError>
        requires sources { All (IsSource S.arithmetic) sources.now }
        requires terms { All (HasTerms S.arithmetic) sources.now }
        requires rows { All (λ x. x.left.now.shape.rows ≡ rows) sources.now }
        requires own { AreEntries S.arithmetic rows own_rows.now own_values.now }
        requires zeros { All (λ x. x ≡ S.arithmetic.zero) self.old.sums }
        ensures zeros { OnOk result (All (λ x. x ≡ S.arithmetic.zero) self.new.sums) }
        ensures column { OnOk result (IsColumnWithAll S.arithmetic sources.now own_rows.now own_values.now self.new.made) }
    {
        self.sums.make_room(self.alloc, rows)?;
        self.sums.add(own_rows, own_values, None);
        for source in sources {
            let (rows, values) = (source.left.row_numbers(), source.left.values());
            self.sums.add_terms(rows, values, source.terms());
        }
        self.sums.take(&mut self.made)
    }

    /// Computes the sum of terms, without its entries in the excluded rows, which ascend.
    pub fn make_outside(
        &mut self,
        left: &Block<S>,
        terms: &[Term],
        excluded: &[u32],
        dense: bool,
    ) -> Result<(), AllocError>
        requires left { IsMatrix S.arithmetic left.now }
        requires terms { All (IsTerm S.arithmetic (rows_of left.now.entries)) terms.now }
        requires excluded { AllPairs (λ i j. i < j) excluded.now }
        requires zeros { All (λ x. x ≡ S.arithmetic.zero) self.old.sums }
        ensures zeros { OnOk result (All (λ x. x ≡ S.arithmetic.zero) self.new.sums) }
        ensures column { OnOk result (IsColumnOf S.arithmetic (terms_outside S.arithmetic left.now excluded.now terms.now) self.new.made) }
    {
        self.make(left, terms, &[], &[], dense)?;
        if excluded.is_empty() {
            return Ok(());
        }
        swap(&mut self.made, &mut self.spare);
        let (rows, values) = self.spare.entries();
        self.made.fill_outside(rows, values, None, excluded)
    }

    /// Computes the sum of terms in the sparse accumulator, without its entries in the excluded rows, which are marked.
    /// Products in these rows are skipped.
    pub fn make_dense_outside(
        &mut self,
        left: &Block<S>,
        terms: &[Term],
        excluded: &[u64],
    ) -> Result<(), AllocError>
        requires left { IsMatrix S.arithmetic left.now }
        requires terms { All (IsTerm S.arithmetic (rows_of left.now.entries)) terms.now }
        requires room { left.now.shape.rows ≤ 64 * length excluded.now }
        requires zeros { All (λ x. x ≡ S.arithmetic.zero) self.old.sums }
        ensures zeros { OnOk result (All (λ x. x ≡ S.arithmetic.zero) self.new.sums) }
        ensures column { OnOk result (IsColumnOf S.arithmetic (sum_unmarked S.arithmetic left.now excluded.now terms.now) self.new.made) }
    {
        let rows = left.shape().rows();
        self.sums.make_room(self.alloc, rows)?;
        self.sums
            .add_terms_outside(left.row_numbers(), left.values(), terms, excluded);
        self.sums.take(&mut self.made)
    }

    /// Computes it by joining the only term with the accumulator's column.
    fn make_of_one(
        &mut self,
        left: &Block<S>,
        terms: &[Term],
        own_rows: &[u32],
        own_values: &[u64],
    ) -> Result<(), AllocError>
        requires one { length terms.now ≡ 1 }
        requires left { IsMatrix S.arithmetic left.now }
        requires terms { All (IsTerm S.arithmetic (rows_of left.now.entries)) terms.now }
        requires own { AreEntries S.arithmetic left.now.shape.rows own_rows.now own_values.now }
        ensures sums { self.new.sums ≡ self.old.sums }
        ensures column { OnOk result (IsColumnOf S.arithmetic (sum_with S.arithmetic left.now own_rows.now own_values.now terms.now) self.new.made) }
    {
        let term = terms[0];
        let (rows, values) = (left.row_numbers(), left.values());
        self.made.join(
            own_rows,
            own_values,
            &rows[term.at..term.end],
            &values[term.at..term.end],
            Some(term.scale),
        )
    }

    /// Computes it in the sparse accumulator.
    fn make_dense(
        &mut self,
        left: &Block<S>,
        terms: &[Term],
        own_rows: &[u32],
        own_values: &[u64],
    ) -> Result<(), AllocError>
        requires left { IsMatrix S.arithmetic left.now }
        requires terms { All (IsTerm S.arithmetic (rows_of left.now.entries)) terms.now }
        requires own { AreEntries S.arithmetic left.now.shape.rows own_rows.now own_values.now }
        requires zeros { All (λ x. x ≡ S.arithmetic.zero) self.old.sums }
        ensures zeros { OnOk result (All (λ x. x ≡ S.arithmetic.zero) self.new.sums) }
        ensures column { OnOk result (IsColumnOf S.arithmetic (sum_with S.arithmetic left.now own_rows.now own_values.now terms.now) self.new.made) }
    {
        let rows = left.shape().rows();
        self.sums.make_room(self.alloc, rows)?;
        self.sums.add(own_rows, own_values, None);
        self.sums
            .add_terms(left.row_numbers(), left.values(), terms);
        self.sums.take(&mut self.made)
    }

    /// Computes it by joining one term after another with the accumulator's column.
    fn make_joined(
        &mut self,
        left: &Block<S>,
        terms: &[Term],
        own_rows: &[u32],
        own_values: &[u64],
    ) -> Result<(), AllocError>
        requires left { IsMatrix S.arithmetic left.now }
        requires terms { All (IsTerm S.arithmetic (rows_of left.now.entries)) terms.now }
        requires own { AreEntries S.arithmetic left.now.shape.rows own_rows.now own_values.now }
        ensures sums { self.new.sums ≡ self.old.sums }
        ensures column { OnOk result (IsColumnOf S.arithmetic (sum_with S.arithmetic left.now own_rows.now own_values.now terms.now) self.new.made) }
    {
        let (rows, values) = (left.row_numbers(), left.values());
        self.made
            .join_terms(&mut self.spare, own_rows, own_values, rows, values, terms)
    }
}

/// Whether terms are so few, and have so few products, that to join them one after another costs less than to add them up
/// in the sparse accumulator. The accumulator's column has `own` entries, which count as products.
fn is_short(terms: &[Term], own: usize) -> bool {
    terms.len() <= FEW_SHORT && own.saturating_add(products_of(terms)) <= SHORT
}
