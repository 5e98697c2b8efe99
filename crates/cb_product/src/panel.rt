//! The terms of many columns of a product, gathered in one loop.
//!
//! Columns of the right block that follow one another have entries that do. A loop over all of them costs less than one for
//! each column, since the processor needn't guess where a short column ends.
ghost use Rattle.std.specs.Prelude.{◌≡◌, ◌<◌, ◌≤◌, List, [], true, length, All, OnOk, IfOk};
ghost use Rattle.cb_semirings.specs.Arithmetic.{IsValue};
ghost use Rattle.cb_matrix.specs.Sparse.{IsMatrix};
ghost use Rattle.cb_dcsc.specs.Columns.{rows_of};
ghost use Rattle.cb_product.specs.ColumnStarts.{Tells};
ghost use Rattle.cb_product.specs.Gathered.{AreGathered, Holds, HasTermsAt};

use crate::column_index::ColumnIndex;
use crate::terms::{Term, term_of};
use cb_dcsc::Block;
use cb_semirings::Semiring;
use std::alloc::{AllocError, Global};

/// The terms of this many entries are gathered at once, or of more if a column has more: few enough for what is fetched to
/// stay in the processor's first cache until it is used. The panels of several products share this number.
const ENTRIES: usize = 32;

/// The terms of some entries of a list that follow one another: columns of the left block, times factors.
#[derive(Drop)]
pub(crate) struct Panel {
    terms: Vec<Term>,
    /// Where the terms of each entry begin, and where those of the last one end.
    places: Vec<usize>,
    /// The place of the first of these entries among all.
    first: usize,
    /// The terms of this many entries are gathered at once, or of more if a column has more.
    most: usize,
}

impl Panel {
    /// Returns a panel without entries. It is one of this many.
    pub fn new(alloc: Global, count: usize) -> Self
        ensures places { result.places.items ≡ [] }
        ensures first { result.first ≡ 0 }
        ensures terms { result.terms.items ≡ [] }
    {
        Panel {
            terms: Vec::new(alloc),
            places: Vec::new(alloc),
            first: 0,
            most: ENTRIES / count.max(1),
        }
    }

    /// Removes all terms.
    pub fn clear(&mut self)
        ensures places { self.new.places.items ≡ [] }
        ensures first { self.new.first ≡ 0 }
        ensures terms { self.new.terms.items ≡ [] }
    {
        self.terms.clear();
        self.places.clear();
        self.first = 0;
    }

    /// Returns the terms.
    #[inline(always)]
    pub fn terms(&self) -> &[Term]
        ensures { result.now ≡ self.now.terms.items }
    {
        &self.terms
    }

    /// Returns where the terms of the entries from one place up to another begin and end among the terms. If they weren't
    /// gathered, they are, and those of some later entries. An entry has a row, which names a column of the left block, and a
    /// value, by which it is multiplied.
    #[inline(always)]
    pub fn find<S: Semiring>(
        &mut self,
        left: &Block<S>,
        index: &ColumnIndex,
        rows: &[u32],
        values: &[u64],
        from: usize,
        until: usize,
    ) -> Result<(usize, usize), AllocError>
        requires order { from ≤ until }
        requires within { until ≤ length rows.now }
        requires lengths { length values.now ≡ length rows.now }
        requires values { All (IsValue S.arithmetic) values.now }
        requires matrix { IsMatrix S.arithmetic left.now }
        requires told { Tells index.now left.now }
        requires inside { All (λ i. i < left.now.shape.cols) rows.now }
        requires gathered { AreGathered S.arithmetic left.now rows.now values.now self.old }
        ensures gathered { OnOk result (AreGathered S.arithmetic left.now rows.now values.now self.new) }
        ensures terms { IfOk result (λ r. HasTermsAt S.arithmetic left.now rows.now values.now from until self.new r) }
    {
        if from == until {
            return Ok((0, 0));
        }
        if !self.holds(from, until) {
            self.gather(left, index, rows, values, from, until)?;
        }
        let (begin, end) = (from - self.first, until - self.first);
        Ok((self.places[begin], self.places[end]))
    }

    /// Whether it has the terms of the entries from one place up to another.
    #[inline(always)]
    fn holds(&self, from: usize, until: usize) -> bool
        requires { from ≤ until }
        ensures { result ≡ true → Holds self.now from until }
    {
        self.first <= from && until - self.first < self.places.len()
    }

    /// Gathers the terms of the entries from one place up to another, and of some that follow.
    fn gather<S: Semiring>(
        &mut self,
        left: &Block<S>,
        index: &ColumnIndex,
        rows: &[u32],
        values: &[u64],
        from: usize,
        until: usize,
    ) -> Result<(), AllocError>
        requires order { from ≤ until }
        requires within { until ≤ length rows.now }
        requires lengths { length values.now ≡ length rows.now }
        requires values { All (IsValue S.arithmetic) values.now }
        requires matrix { IsMatrix S.arithmetic left.now }
        requires told { Tells index.now left.now }
        requires inside { All (λ i. i < left.now.shape.cols) rows.now }
        ensures gathered { OnOk result (AreGathered S.arithmetic left.now rows.now values.now self.new) }
        ensures holds { OnOk result (Holds self.new from until) }
    {
        let last = from.saturating_add(self.most).min(rows.len()).max(until);
        let (left_rows, left_values) = (left.row_numbers(), left.values());
        self.first = from;
        self.terms.clear();
        self.places.clear();
        self.terms.reserve(last - from)?;
        self.places.reserve(last - from + 1)?;
        self.places.push_reserved(0);
        let mut products = 0usize;
        for n in from..last {
            let (at, end) = index.range(left, rows[n]);
            if at < end {
                let term = term_of(left_rows, left_values, at, end, values[n], products);
                self.terms.push_reserved(term);
                products = products.saturating_add(end - at);
            }
            self.places.push_reserved(self.terms.len());
        }
        Ok(())
    }
}
