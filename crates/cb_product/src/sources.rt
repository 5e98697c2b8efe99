//! Products whose sum is computed column by column.
ghost use Rattle.std.specs.Prelude.{◌≡◌, ◌≤◌, length, All, IfOk, OnOk};
ghost use Rattle.cb_product.specs.SeveralProducts.{pair_of, pairs_in};
ghost use Rattle.cb_product.specs.Sources.{IsSource, HasTermsOf, column_terms, source_pair, source_pairs};

use crate::column_index::ColumnIndex;
use crate::columns::range_of_next;
use crate::panel::Panel;
use crate::several::Factors;
use crate::terms::{Term, products_of};
use cb_dcsc::Block;
use cb_semirings::Semiring;
use std::alloc::{AllocError, Global};

/// One of several products: its factors, an index of the left one's columns, and the terms of one of its columns.
#[derive(Drop)]
pub(crate) struct Source<'a, S: Semiring> {
    pub left: &'a Block<S>,
    pub right: &'a Block<S>,
    pub index: ColumnIndex,
    /// The place at which the right factor's next column is looked for first.
    next: usize,
    panel: Panel,
    /// Where the terms of the column begin and end among those of the panel.
    begin: usize,
    end: usize,
}

impl<'a, S: Semiring> Source<'a, S> {
    /// Returns a product, without terms so far. It is one of this many.
    pub fn new(alloc: Global, factors: &Factors<'a, S>, count: usize) -> Result<Self, AllocError>
        requires { factors.now.left.now.shape.cols ≡ factors.now.right.now.shape.rows }
        ensures source { IfOk result (IsSource S.arithmetic) }
        ensures pair { IfOk result (λ x. source_pair x ≡ pair_of factors.now) }
    {
        let (left, right) = (factors.left, factors.right);
        prove_eq!(left.shape().cols(), right.shape().rows());
        Ok(Source {
            left,
            right,
            index: ColumnIndex::new(alloc, left, right.len())?,
            next: 0,
            panel: Panel::new(alloc, count),
            begin: 0,
            end: 0,
        })
    }

    /// Returns the terms of the column.
    #[inline(always)]
    pub fn terms(&self) -> &[Term]
        requires { IsSource S.arithmetic self.now }
        ensures { result.now ≡ column_terms self.now }
    {
        let terms = self.panel.terms();
        &terms[self.begin..self.end]
    }

    /// Moves on to a column, and returns how many products its terms have. Columns that are asked for in ascending order are
    /// found at once.
    fn gather(&mut self, column: u32) -> Result<usize, AllocError>
        requires { IsSource S.arithmetic self.old }
        ensures source { OnOk result (IsSource S.arithmetic self.new) }
        ensures pair { OnOk result (source_pair self.new ≡ source_pair self.old) }
        ensures terms { OnOk result (HasTermsOf S.arithmetic column self.new) }
    {
        prove_eq!(self.left.shape().cols(), self.right.shape().rows());
        let (from, until) = range_of_next(self.right, &mut self.next, column);
        let (rows, values) = (self.right.row_numbers(), self.right.values());
        let found = self
            .panel
            .find(self.left, &self.index, rows, values, from, until)?;
        (self.begin, self.end) = found;
        Ok(products_of(self.terms()))
    }
}

/// Returns the products of these factors.
pub(crate) fn sources_of<'a, S: Semiring>(
    alloc: Global,
    products: &[Factors<'a, S>],
) -> Result<Vec<Source<'a, S>>, AllocError>
    requires { All (λ p. p.0.shape.cols ≡ p.1.shape.rows) (pairs_in products.now) }
    ensures sources { IfOk result (λ xs. All (IsSource S.arithmetic) xs.items) }
    ensures pairs { IfOk result (λ xs. source_pairs xs.items ≡ pairs_in products.now) }
{
    let mut sources = Vec::with_capacity(alloc, products.len())?;
    for factors in products {
        sources.push(Source::new(alloc, factors, products.len())?)?;
    }
    Ok(sources)
}

/// Collects the terms of a column of each product, and returns how many products of two values they have.
pub(crate) fn gather_all<S: Semiring>(
    sources: &mut [Source<'_, S>],
    column: u32,
) -> Result<usize, AllocError>
    requires { All (IsSource S.arithmetic) sources.old }
    ensures sources { OnOk result (All (IsSource S.arithmetic) sources.new) }
    ensures pairs { OnOk result (source_pairs sources.new ≡ source_pairs sources.old) }
    ensures terms { OnOk result (All (HasTermsOf S.arithmetic column) sources.new) }
{
    let mut products = 0usize;
    for n in 0..sources.len() {
        let more = sources[n].gather(column)?;
        products = products.saturating_add(more);
    }
    Ok(products)
}
