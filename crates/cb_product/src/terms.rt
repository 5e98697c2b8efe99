//! The terms of a column of a product, which is their sum.
ghost use Rattle.std.specs.Prelude.{◌≡◌, ◌<◌, ◌≤◌, length, slice_index};

/// A column of the left block times a factor. The column is given by where its entries start and end among all; `row` is
/// the row of its first entry.
#[derive(Clone, Copy)]
pub(crate) struct Term {
    pub row: u32,
    pub at: usize,
    pub end: usize,
    pub scale: u64,
    /// How many products the terms before it in a list have.
    before: usize,
    /// The result of [`both_ends`], which isn't used.
    ends: u64,
}

/// Returns a column of the block that has these rows and values, times a factor. The column is given by where its entries
/// start and end among all; the terms before it have `before` products.
///
/// The columns of the left block are far apart in memory. Here both ends of each are read, and no read waits for another, so
/// the memory fetches many columns at once.
#[inline(always)]
pub(crate) fn term_of(
    rows: &[u32],
    values: &[u64],
    at: usize,
    end: usize,
    scale: u64,
    before: usize,
) -> Term
    requires some { at < end }
    requires within { end ≤ length rows.now }
    requires lengths { length values.now ≡ length rows.now }
    ensures row { result.row ≡ slice_index rows.now at }
    ensures at { result.at ≡ at }
    ensures end { result.end ≡ end }
    ensures scale { result.scale ≡ scale }
{
    Term {
        row: rows[at],
        at,
        end,
        scale,
        before,
        ends: both_ends(rows, values, at, end),
    }
}

/// Reads the last row of a column, and its first and last value. With its first row, which the term stores, this fetches a
/// short column from memory as a whole. The column is given by where its entries start and end among all.
#[inline(always)]
fn both_ends(rows: &[u32], values: &[u64], at: usize, end: usize) -> u64
    requires some { at < end }
    requires within { end ≤ length rows.now }
    requires lengths { length values.now ≡ length rows.now }
{
    let last = end - 1;
    u64::from(rows[last]) ^ values[at] ^ values[last]
}

/// Returns how many products terms have that follow one another in a list.
#[inline(always)]
pub(crate) fn products_of(terms: &[Term]) -> usize {
    let (Some(first), Some(last)) = (terms.first(), terms.last()) else {
        return 0;
    };
    let all = last.before.saturating_add(last.end.saturating_sub(last.at));
    all.saturating_sub(first.before)
}
