//! The merge of terms by a heap, which holds each term at its next entry.
ghost use Rattle.std.specs.Prelude.{◌≡◌, ◌≢◌, ◌↔◌, ◌==◌, ℕ, ◌<◌, ◌≤◌, ◌+◌, List, [], ◌∷◌, length, All, IfSome, IfNone, IfOk, OnOk};
ghost use Rattle.std.proofs.Common.{rules};
ghost use Rattle.std.specs.Cmp.{partial_order_from_own_ties};
ghost use Rattle.std.specs.Cmp.Rules.{comparing};
ghost use Rattle.std.specs.Ordering.{nat_cmp, on, flip_args, as_partial_cmp};
ghost use Rattle.std.specs.BinaryHeap.{IsHeap, heap_items};

use crate::columns::Column;
use crate::terms::Term;
use cb_semirings::Semiring;
use std::alloc::{AllocError, Global};
use std::cmp::Ordering;
use std::collections::BinaryHeap;
use std::collections::binary_heap::PeekMut;

/// A term at its next entry: that entry's row, where the entries that are left start and end among all, and the factor.
/// The head with the least row is the greatest.
#[derive(Clone, Copy)]
struct Head {
    row: u32,
    at: usize,
    end: usize,
    scale: u64,
}

impl PartialEq for Head {
    ghost eq = { on (λ h. h.row) ◌==◌ };

    ghost laws = { Prim.search (comparing, rules) };

    fn eq(&self, other: &Self) -> bool {
        self.row == other.row
    }
}

impl Eq for Head {
    ghost laws = { Prim.search (comparing, rules) };
}

impl PartialOrd for Head {
    ghost partial_cmp = { as_partial_cmp (flip_args (on (λ h. h.row) nat_cmp)) };

    ghost laws = { partial_order_from_own_ties (Prim.search (comparing, rules)) (Prim.search (comparing, rules)) };

    fn partial_cmp(&self, other: &Self) -> Option<Ordering> {
        Some(self.cmp(other))
    }
}

impl Ord for Head {
    ghost cmp = { flip_args (on (λ h. h.row) nat_cmp) };

    ghost total = { Prim.search (comparing, rules) };

    ghost matches_partial_cmp = { Prim.search (comparing, rules) };

    ghost matches_eq = { Prim.search (comparing, rules) };

    fn cmp(&self, other: &Self) -> Ordering {
        other.row.cmp(&self.row)
    }
}

ghost use Rattle.cb_product.specs.Heads.{IsHead, AreHeadsOf, Gives, by_row};
ghost use Rattle.cb_product.specs.SparseColumn.{IsColumnOf};
ghost use Rattle.cb_product.specs.Terms.{IsTerm, terms_value};
ghost use Rattle.cb_semirings.specs.Arithmetic.{IsValue};

/// Takes the entry with the least row from the heads, and returns its row and its value times the factor.
fn next<S: Semiring>(
    heads: &mut BinaryHeap<Head>,
    rows: &[u32],
    values: &[u64],
) -> Option<(u32, u64)>
    requires heads { All (IsHead S.arithmetic rows.now) (heap_items heads.old) }
    requires lengths { length values.now ≡ length rows.now }
    requires values { All (IsValue S.arithmetic) values.now }
    requires order { IsHeap by_row (heap_items heads.old) }
    ensures order { IsHeap by_row (heap_items heads.new) }
    ensures none { IfNone result (heap_items heads.old ≡ []) }
    ensures still_none { IfNone result (heap_items heads.new ≡ []) }
    ensures gives { IfSome result (λ t. Gives S.arithmetic rows.now values.now (heap_items heads.old) t (heap_items heads.new)) }
    ensures least { IfSome result (λ t. All (λ h. t.0 ≤ h.row) (heap_items heads.new)) }
{
    let Some(mut top) = heads.peek_mut() else {
        return None;
    };
    let head = *top;
    let value = S::mul(values[head.at], head.scale);
    let at = head.at + 1;
    if at < head.end {
        *top = Head {
            row: rows[at],
            at,
            end: head.end,
            scale: head.scale,
        };
    } else {
        PeekMut::pop(top);
    }
    Some((head.row, value))
}

/// Returns a heap with a head for each term, at its first entry.
fn heads_of<S: Semiring>(
    alloc: Global,
    rows: &[u32],
    terms: &[Term],
) -> Result<BinaryHeap<Head>, AllocError>
    requires { All (IsTerm S.arithmetic rows.now) terms.now }
    ensures heads { IfOk result (λ h. All (IsHead S.arithmetic rows.now) (heap_items h)) }
    ensures order { IfOk result (λ h. IsHeap by_row (heap_items h)) }
    ensures sums { IfOk result (λ h. AreHeadsOf S.arithmetic rows.now terms.now (heap_items h)) }
{
    let mut heads = BinaryHeap::new(alloc);
    for term in terms {
        heads.push(Head {
            row: term.row,
            at: term.at,
            end: term.end,
            scale: term.scale,
        })?;
    }
    Ok(heads)
}

/// Replaces a column by the sum of terms, which are merged by a heap. Costs O(products * log terms).
pub(crate) fn merge<S: Semiring>(
    alloc: Global,
    made: &mut Column<S>,
    rows: &[u32],
    values: &[u64],
    terms: &[Term],
) -> Result<(), AllocError>
    requires lengths { length values.now ≡ length rows.now }
    requires values { All (IsValue S.arithmetic) values.now }
    requires terms { All (IsTerm S.arithmetic rows.now) terms.now }
    ensures { OnOk result (IsColumnOf S.arithmetic (λ i. terms_value S.arithmetic rows.now values.now i terms.now) made.new) }
{
    made.clear();
    let mut heads = heads_of::<S>(alloc, rows, terms)?;
    let first = next::<S>(&mut heads, rows, values);
    let Some((mut row, mut sum)) = first else {
        return Ok(());
    };
    while let Some((later, value)) = next::<S>(&mut heads, rows, values) {
        if later == row {
            sum = S::add(sum, value);
        } else {
            made.keep(row, sum)?;
            row = later;
            sum = value;
        }
    }
    made.keep(row, sum)
}
