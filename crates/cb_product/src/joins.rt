//! Columns that are written into lists with room for them: entry by entry, and as the sum of two others.
//!
//! The lists are slices, so their addresses stay in registers from entry to entry, and no entry asks for memory.
ghost use Rattle.std.specs.Prelude.{◌≡◌, ℕ, ◌<◌, ◌≤◌, ◌+◌, ◌-◌, ◌%◌, ◌^◌, length, take, drop, All, AllPairs, IfSome, slice_index};
ghost use Rattle.cb_semirings.specs.Arithmetic.{IsValue};
ghost use Rattle.cb_dcsc.specs.Columns.{row_value};
ghost use Rattle.cb_product.specs.Terms.{IsTerm, term_value, terms_value, terms_length};
ghost use Rattle.cb_product.specs.SparseColumn.{IsSparseColumn, value_in, IsColumnOf, AddsToColumn, first_entries, one_value, scaled_rest, both_value};

use crate::columns::{is_zero, scaled};
use crate::terms::Term;
use cb_semirings::Semiring;

/// Stores an entry behind the first n, unless its value is zero, and returns how many there are then. Its row comes after
/// all others.
#[inline(always)]
pub(crate) fn put<S: Semiring>(
    rows: &mut [u32],
    values: &mut [u64],
    n: usize,
    row: u32,
    value: u64,
) -> usize
    requires room { n < length rows.old }
    requires values_room { n < length values.old }
    requires column { IsSparseColumn S.arithmetic (take n rows.old) (take n values.old) }
    requires after { All (λ i. i < row) (take n rows.old) }
    requires value { IsValue S.arithmetic value }
    ensures length { length rows.new ≡ length rows.old }
    ensures values_length { length values.new ≡ length values.old }
    ensures most { result ≤ n + 1 }
    ensures column { IsSparseColumn S.arithmetic (take result rows.new) (take result values.new) }
    ensures sum { AddsToColumn S.arithmetic (one_value S.arithmetic.zero (row, value)) (first_entries n rows.old values.old) (first_entries result rows.new values.new) }
    ensures rows { (bound : ℕ) → row < bound → All (λ i. i < bound) (take result rows.new) }
{
    rows[n] = row;
    values[n] = value;
    if is_zero::<S>(value) { n } else { n + 1 }
}

/// Stores the entries of another column from a place on, times a factor if there is one, behind the first `count`, and
/// returns how many there are then. Their rows come after all others.
#[inline(always)]
pub(crate) fn put_rest<S: Semiring>(
    out_rows: &mut [u32],
    out_values: &mut [u64],
    count: usize,
    rows: &[u32],
    values: &[u64],
    scale: Option<u64>,
    from: usize,
) -> usize
    requires room { count + (length rows.now - from) ≤ length out_rows.old }
    requires values_room { length out_rows.old ≤ length out_values.old }
    requires column { IsSparseColumn S.arithmetic (take count out_rows.old) (take count out_values.old) }
    requires lengths { length values.now ≡ length rows.now }
    requires values { All (IsValue S.arithmetic) values.now }
    requires order { AllPairs (λ i j. i < j) rows.now }
    requires scale { IfSome scale (IsValue S.arithmetic) }
    requires after { from < length rows.now → All (λ i. i < slice_index rows.now from) (take count out_rows.old) }
    ensures length { length out_rows.new ≡ length out_rows.old }
    ensures values_length { length out_values.new ≡ length out_values.old }
    ensures most { result ≤ count + (length rows.now - from) }
    ensures column { IsSparseColumn S.arithmetic (take result out_rows.new) (take result out_values.new) }
    ensures sum { AddsToColumn S.arithmetic (scaled_rest S.arithmetic rows.now values.now scale from) (first_entries count out_rows.old out_values.old) (first_entries result out_rows.new out_values.new) }
    ensures none { length rows.now ≤ from → take result out_rows.new ≡ take count out_rows.old }
{
    let mut len = count;
    for n in from..rows.len() {
        let value = scaled::<S>(values[n], scale);
        len = put::<S>(out_rows, out_values, len, rows[n], value);
    }
    len
}

/// Stores the sum of two columns, each times a factor if there is one, and returns how many entries it has. Costs O(entries
/// of both).
#[inline(always)]
pub(crate) fn put_joined<S: Semiring>(
    out_rows: &mut [u32],
    out_values: &mut [u64],
    own_rows: &[u32],
    own_values: &[u64],
    own_scale: Option<u64>,
    rows: &[u32],
    values: &[u64],
    scale: Option<u64>,
) -> usize
    requires room { length own_rows.now + length rows.now ≤ length out_rows.old }
    requires values_room { length out_rows.old ≤ length out_values.old }
    requires own_lengths { length own_values.now ≡ length own_rows.now }
    requires own_values { All (IsValue S.arithmetic) own_values.now }
    requires own_order { AllPairs (λ i j. i < j) own_rows.now }
    requires own_scale { IfSome own_scale (IsValue S.arithmetic) }
    requires lengths { length values.now ≡ length rows.now }
    requires values { All (IsValue S.arithmetic) values.now }
    requires order { AllPairs (λ i j. i < j) rows.now }
    requires scale { IfSome scale (IsValue S.arithmetic) }
    ensures length { length out_rows.new ≡ length out_rows.old }
    ensures values_length { length out_values.new ≡ length out_values.old }
    ensures most { result ≤ length own_rows.now + length rows.now }
    ensures column { IsSparseColumn S.arithmetic (take result out_rows.new) (take result out_values.new) }
    ensures sum { IsColumnOf S.arithmetic (both_value S.arithmetic own_rows.now own_values.now own_scale rows.now values.now scale) (first_entries result out_rows.new out_values.new) }
{
    let mut count = 0;
    let mut x = 0;
    let mut y = 0;
    while x < own_rows.len() && y < rows.len() {
        let own_row = own_rows[x];
        let row = rows[y];
        if own_row < row {
            let value = scaled::<S>(own_values[x], own_scale);
            count = put::<S>(out_rows, out_values, count, own_row, value);
            x += 1;
        } else if row < own_row {
            let value = scaled::<S>(values[y], scale);
            count = put::<S>(out_rows, out_values, count, row, value);
            y += 1;
        } else {
            let own_value = scaled::<S>(own_values[x], own_scale);
            let value = scaled::<S>(values[y], scale);
            count = put::<S>(out_rows, out_values, count, row, S::add(own_value, value));
            x += 1;
            y += 1;
        }
    }
    let len = put_rest::<S>(
        out_rows, out_values, count, own_rows, own_values, own_scale, x,
    );
    put_rest::<S>(out_rows, out_values, len, rows, values, scale, y)
}

/// Stores the sum of the first `count` entries of a column and of a term, and returns how many entries it has.
#[inline(always)]
fn put_term<S: Semiring>(
    out_rows: &mut [u32],
    out_values: &mut [u64],
    own_rows: &[u32],
    own_values: &[u64],
    count: usize,
    rows: &[u32],
    values: &[u64],
    term: &Term,
) -> usize
    requires room { count + (term.now.end - term.now.at) ≤ length out_rows.old }
    requires values_room { length out_rows.old ≤ length out_values.old }
    requires within { count ≤ length own_rows.now }
    requires values_within { count ≤ length own_values.now }
    requires own { IsSparseColumn S.arithmetic (take count own_rows.now) (take count own_values.now) }
    requires lengths { length values.now ≡ length rows.now }
    requires values { All (IsValue S.arithmetic) values.now }
    requires term { IsTerm S.arithmetic rows.now term.now }
    ensures length { length out_rows.new ≡ length out_rows.old }
    ensures values_length { length out_values.new ≡ length out_values.old }
    ensures most { result ≤ count + (term.now.end - term.now.at) }
    ensures column { IsSparseColumn S.arithmetic (take result out_rows.new) (take result out_values.new) }
    ensures sum { (i : ℕ) → value_in S.arithmetic.zero (first_entries result out_rows.new out_values.new) i ≡ S.arithmetic.add (value_in S.arithmetic.zero (first_entries count own_rows.now own_values.now) i) (term_value S.arithmetic rows.now values.now i term.now) }
{
    put_joined::<S>(
        out_rows,
        out_values,
        &own_rows[..count],
        &own_values[..count],
        None,
        &rows[term.at..term.end],
        &values[term.at..term.end],
        Some(term.scale),
    )
}

/// Stores the sum of a column and of the first terms, and returns how many entries it has and how many terms they are: an
/// even number of terms is left.
#[inline(always)]
fn put_first<S: Semiring>(
    out_rows: &mut [u32],
    out_values: &mut [u64],
    own_rows: &[u32],
    own_values: &[u64],
    rows: &[u32],
    values: &[u64],
    terms: &[Term],
) -> (usize, usize)
    requires room { length own_rows.now + terms_length terms.now ≤ length out_rows.old }
    requires values_room { length out_rows.old ≤ length out_values.old }
    requires own_lengths { length own_values.now ≡ length own_rows.now }
    requires own_values { All (IsValue S.arithmetic) own_values.now }
    requires own_order { AllPairs (λ i j. i < j) own_rows.now }
    requires lengths { length values.now ≡ length rows.now }
    requires values { All (IsValue S.arithmetic) values.now }
    requires terms { All (IsTerm S.arithmetic rows.now) terms.now }
    ensures length { length out_rows.new ≡ length out_rows.old }
    ensures values_length { length out_values.new ≡ length out_values.old }
    ensures within { result.1 ≤ length terms.now }
    ensures even { (length terms.now - result.1) % 2 ≡ 0 }
    ensures most { result.0 + terms_length (drop result.1 terms.now) ≤ length own_rows.now + terms_length terms.now }
    ensures column { IsSparseColumn S.arithmetic (take result.0 out_rows.new) (take result.0 out_values.new) }
    ensures sum { (i : ℕ) → S.arithmetic.add (value_in S.arithmetic.zero (first_entries result.0 out_rows.new out_values.new) i) (terms_value S.arithmetic rows.now values.now i (drop result.1 terms.now)) ≡ S.arithmetic.add (row_value S.arithmetic.zero own_rows.now own_values.now i) (terms_value S.arithmetic rows.now values.now i terms.now) }
{
    if terms.len() % 2 == 1 {
        let first = &terms[0];
        let count = put_joined::<S>(
            out_rows,
            out_values,
            own_rows,
            own_values,
            None,
            &rows[first.at..first.end],
            &values[first.at..first.end],
            Some(first.scale),
        );
        return (count, 1);
    }
    if terms.is_empty() || !own_rows.is_empty() {
        let count = put_rest::<S>(out_rows, out_values, 0, own_rows, own_values, None, 0);
        return (count, 0);
    }
    let first = &terms[0];
    let second = &terms[1];
    let count = put_joined::<S>(
        out_rows,
        out_values,
        &rows[first.at..first.end],
        &values[first.at..first.end],
        Some(first.scale),
        &rows[second.at..second.end],
        &values[second.at..second.end],
        Some(second.scale),
    );
    (count, 2)
}

/// Stores the sum of a column and of terms, which are joined one after another, and returns how many entries it has. Every
/// other sum so far is stored in `half`.
#[inline(never)]
pub(crate) fn put_terms<S: Semiring>(
    out_rows: &mut [u32],
    out_values: &mut [u64],
    half_rows: &mut [u32],
    half_values: &mut [u64],
    own_rows: &[u32],
    own_values: &[u64],
    rows: &[u32],
    values: &[u64],
    terms: &[Term],
) -> usize
    requires room { length own_rows.now + terms_length terms.now ≤ length out_rows.old }
    requires values_room { length out_rows.old ≤ length out_values.old }
    requires half_room { length own_rows.now + terms_length terms.now ≤ length half_rows.old }
    requires half_values_room { length half_rows.old ≤ length half_values.old }
    requires own_lengths { length own_values.now ≡ length own_rows.now }
    requires own_values { All (IsValue S.arithmetic) own_values.now }
    requires own_order { AllPairs (λ i j. i < j) own_rows.now }
    requires lengths { length values.now ≡ length rows.now }
    requires values { All (IsValue S.arithmetic) values.now }
    requires terms { All (IsTerm S.arithmetic rows.now) terms.now }
    ensures length { length out_rows.new ≡ length out_rows.old }
    ensures values_length { length out_values.new ≡ length out_values.old }
    ensures half_length { length half_rows.new ≡ length half_rows.old }
    ensures half_values_length { length half_values.new ≡ length half_values.old }
    ensures most { result ≤ length own_rows.now + terms_length terms.now }
    ensures column { IsSparseColumn S.arithmetic (take result out_rows.new) (take result out_values.new) }
    ensures sum { IsColumnOf S.arithmetic (λ i. S.arithmetic.add (row_value S.arithmetic.zero own_rows.now own_values.now i) (terms_value S.arithmetic rows.now values.now i terms.now)) (first_entries result out_rows.new out_values.new) }
{
    let (first, start) = put_first::<S>(
        out_rows, out_values, own_rows, own_values, rows, values, terms,
    );
    let mut count = first;
    let mut n = start;
    while n + 1 < terms.len() {
        let half = put_term::<S>(
            half_rows,
            half_values,
            out_rows,
            out_values,
            count,
            rows,
            values,
            &terms[n],
        );
        count = put_term::<S>(
            out_rows,
            out_values,
            half_rows,
            half_values,
            half,
            rows,
            values,
            &terms[n + 1],
        );
        n += 2;
    }
    count
}

/// Returns how many products terms have, or the largest number if they have more.
#[inline(always)]
pub(crate) fn products_in(terms: &[Term]) -> usize
    ensures { result < 2 ^ 64 - 1 → terms_length terms.now ≤ result }
{
    let mut products = 0usize;
    for term in terms {
        products = products.saturating_add(term.end.saturating_sub(term.at));
    }
    products
}
