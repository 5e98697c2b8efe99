//! Two columns joined by a rule.
//!
//! Where both columns have entries left, the lower of the two rows is next. Which of the two it is can't be predicted, so it is
//! picked without a branch.
ghost use Rattle.std.specs.Prelude.{◌≡◌, ℕ, IsTrue, ◌+◌, ◌-◌, ◌<◌, ◌≤◌, ◌++◌, ◌∷◌, [], cond, length, drop, slice_index, AllPairs, OnOk, vec_len, vec_capacity};
ghost use Rattle.cb_semirings.specs.Arithmetic.{IsValue};
ghost use Rattle.cb_product.specs.SparseColumn.{IsSparseColumn};
ghost use Rattle.cb_elementwise.specs.JoinedColumns.{IsJoined, IsJoinedTo, where_kept};

use crate::rules::Rule;
use cb_semirings::Semiring;
use std::alloc::AllocError;

/// Where entries of one column alone are dropped and one column has more than this many times the entries of the other, its
/// rows are searched.
const LONG: usize = 16;

/// Fills the two lists with the rows and values of two columns joined by a rule.
///
/// Costs a few instructions for each entry of the two, or, where entries of one column alone are dropped and one column is far
/// longer, for each entry of the shorter one a search of the next row. A column that lies wholly in front of the other, and the
/// rest of a column once the other has ended, are copied or left out whole.
pub(crate) fn join_columns<S: Semiring, R: Rule<S>>(
    kept_rows: &mut Vec<u32>,
    kept_values: &mut Vec<u64>,
    left_rows: &[u32],
    left_values: &[u64],
    right_rows: &[u32],
    right_values: &[u64],
    rule: &R,
) -> Result<(), AllocError>
    requires left { IsSparseColumn S.arithmetic left_rows.now left_values.now }
    requires right { IsSparseColumn S.arithmetic right_rows.now right_values.now }
    ensures column { OnOk result (IsSparseColumn S.arithmetic kept_rows.new.items kept_values.new.items) }
    ensures values { OnOk result (IsJoined S.arithmetic.zero (R.combined rule.now) left_rows.now left_values.now right_rows.now right_values.now kept_rows.new.items kept_values.new.items) }
{
    kept_rows.clear();
    kept_values.clear();
    let room = left_rows.len() + right_rows.len();
    kept_rows.reserve(room)?;
    kept_values.reserve(room)?;
    let (x, y) = join_fronts(
        kept_rows,
        kept_values,
        left_rows,
        left_values,
        right_rows,
        right_values,
        rule,
    );
    let (keeps_left, keeps_right) = (rule.keeps_left(), rule.keeps_right());
    keep_rest(kept_rows, left_rows, x, keeps_left)?;
    keep_rest(kept_values, left_values, x, keeps_left)?;
    keep_rest(kept_rows, right_rows, y, keeps_right)?;
    keep_rest(kept_values, right_values, y, keeps_right)
}

/// Joins the entries of two columns until one column has ended, and returns how many entries of each are joined. A column that
/// lies wholly in front of the other is copied whole. The two lists are empty and have room.
fn join_fronts<S: Semiring, R: Rule<S>>(
    kept_rows: &mut Vec<u32>,
    kept_values: &mut Vec<u64>,
    left_rows: &[u32],
    left_values: &[u64],
    right_rows: &[u32],
    right_values: &[u64],
    rule: &R,
) -> (usize, usize)
    requires left { IsSparseColumn S.arithmetic left_rows.now left_values.now }
    requires right { IsSparseColumn S.arithmetic right_rows.now right_values.now }
    requires no_rows { kept_rows.old.items ≡ [] }
    requires no_values { kept_values.old.items ≡ [] }
    requires rows_room { vec_len kept_rows.old + (length left_rows.now + length right_rows.now) ≤ vec_capacity kept_rows.old }
    requires values_room { vec_len kept_values.old + (length left_rows.now + length right_rows.now) ≤ vec_capacity kept_values.old }
    ensures joined { IsJoinedTo S.arithmetic (R.combined rule.now) left_rows.now left_values.now right_rows.now right_values.now result.0 result.1 kept_rows.new.items kept_values.new.items }
    ensures ended { result.0 < length left_rows.now → length right_rows.now ≤ result.1 }
{
    let (keeps_left, keeps_right) = (rule.keeps_left(), rule.keeps_right());
    if are_below(left_rows, right_rows) {
        keep_all(kept_rows, kept_values, left_rows, left_values, keeps_left);
        return (left_rows.len(), 0);
    }
    if are_below(right_rows, left_rows) {
        keep_all(
            kept_rows,
            kept_values,
            right_rows,
            right_values,
            keeps_right,
        );
        return (0, right_rows.len());
    }
    if !keeps_left && !keeps_right && is_far_longer(left_rows, right_rows) {
        return find_fronts(
            kept_rows,
            kept_values,
            left_rows,
            left_values,
            right_rows,
            right_values,
            rule,
        );
    }
    walk_fronts(
        kept_rows,
        kept_values,
        left_rows,
        left_values,
        right_rows,
        right_values,
        rule,
    )
}

/// Whether both columns have rows, and the last of the first comes before the first of the second.
#[inline(always)]
fn are_below(rows: &[u32], others: &[u32]) -> bool
    ensures { IsTrue result → slice_index rows.now (length rows.now - 1) < slice_index others.now 0 }
{
    if rows.is_empty() || others.is_empty() {
        return false;
    }
    rows[rows.len() - 1] < others[0]
}

/// Appends a column to two lists that have room for it, if it is kept.
#[inline(always)]
fn keep_all(
    kept_rows: &mut Vec<u32>,
    kept_values: &mut Vec<u64>,
    rows: &[u32],
    values: &[u64],
    is_kept: bool,
)
    requires rows_room { vec_len kept_rows.old + length rows.now ≤ vec_capacity kept_rows.old }
    requires values_room { vec_len kept_values.old + length values.now ≤ vec_capacity kept_values.old }
    ensures rows { kept_rows.new.items ≡ kept_rows.old.items ++ where_kept is_kept rows.now }
    ensures values { kept_values.new.items ≡ kept_values.old.items ++ where_kept is_kept values.now }
{
    if is_kept {
        extend_reserved(kept_rows, rows);
        extend_reserved(kept_values, values);
    }
}

/// Appends items to a list that has room for them.
#[inline(always)]
fn extend_reserved<T: Copy>(list: &mut Vec<T>, items: &[T])
    requires { vec_len list.old + length items.now ≤ vec_capacity list.old }
    ensures { list.new.items ≡ list.old.items ++ items.now }
{
    match list.extend_from_slice(items) {
        Ok(()) => {}
        Err(_) => unreachable!(),
    }
}

/// Whether one of two lists is far longer than the other.
fn is_far_longer(left: &[u32], right: &[u32]) -> bool {
    left.len() / LONG > right.len() || right.len() / LONG > left.len()
}

/// Joins them entry by entry.
#[inline(always)]
fn walk_fronts<S: Semiring, R: Rule<S>>(
    kept_rows: &mut Vec<u32>,
    kept_values: &mut Vec<u64>,
    left_rows: &[u32],
    left_values: &[u64],
    right_rows: &[u32],
    right_values: &[u64],
    rule: &R,
) -> (usize, usize)
    requires left { IsSparseColumn S.arithmetic left_rows.now left_values.now }
    requires right { IsSparseColumn S.arithmetic right_rows.now right_values.now }
    requires no_rows { kept_rows.old.items ≡ [] }
    requires no_values { kept_values.old.items ≡ [] }
    requires rows_room { vec_len kept_rows.old + (length left_rows.now + length right_rows.now) ≤ vec_capacity kept_rows.old }
    requires values_room { vec_len kept_values.old + (length left_rows.now + length right_rows.now) ≤ vec_capacity kept_values.old }
    ensures joined { IsJoinedTo S.arithmetic (R.combined rule.now) left_rows.now left_values.now right_rows.now right_values.now result.0 result.1 kept_rows.new.items kept_values.new.items }
    ensures ended { result.0 < length left_rows.now → length right_rows.now ≤ result.1 }
{
    let mut x = 0;
    let mut y = 0;
    while x < left_rows.len() && y < right_rows.len() {
        let left_row = left_rows[x];
        let right_row = right_rows[y];
        let left_value = left_values[x];
        let right_value = right_values[y];
        if left_row == right_row {
            let value = rule.combine(left_value, right_value);
            keep_if(kept_rows, kept_values, value != S::zero(), left_row, value);
            x += 1;
            y += 1;
        } else {
            let is_left = left_row < right_row;
            let is_kept = pick(is_left, rule.keeps_left(), rule.keeps_right());
            let row = pick(is_left, left_row, right_row);
            let value = pick(is_left, left_value, right_value);
            keep_if(kept_rows, kept_values, is_kept, row, value);
            x += usize::from(is_left);
            y += usize::from(!is_left);
        }
    }
    (x, y)
}

/// Joins them by a search for each next row, where entries that one column has alone are dropped.
fn find_fronts<S: Semiring, R: Rule<S>>(
    kept_rows: &mut Vec<u32>,
    kept_values: &mut Vec<u64>,
    left_rows: &[u32],
    left_values: &[u64],
    right_rows: &[u32],
    right_values: &[u64],
    rule: &R,
) -> (usize, usize)
    requires left { IsSparseColumn S.arithmetic left_rows.now left_values.now }
    requires right { IsSparseColumn S.arithmetic right_rows.now right_values.now }
    requires no_rows { kept_rows.old.items ≡ [] }
    requires no_values { kept_values.old.items ≡ [] }
    requires rows_room { vec_len kept_rows.old + (length left_rows.now + length right_rows.now) ≤ vec_capacity kept_rows.old }
    requires values_room { vec_len kept_values.old + (length left_rows.now + length right_rows.now) ≤ vec_capacity kept_values.old }
    requires left_dropped { (v : ℕ) → IsValue S.arithmetic v → R.combined rule.now v S.arithmetic.zero ≡ S.arithmetic.zero }
    requires right_dropped { (v : ℕ) → IsValue S.arithmetic v → R.combined rule.now S.arithmetic.zero v ≡ S.arithmetic.zero }
    ensures joined { IsJoinedTo S.arithmetic (R.combined rule.now) left_rows.now left_values.now right_rows.now right_values.now result.0 result.1 kept_rows.new.items kept_values.new.items }
    ensures ended { result.0 < length left_rows.now → length right_rows.now ≤ result.1 }
{
    let mut x = 0;
    let mut y = 0;
    while x < left_rows.len() && y < right_rows.len() {
        let left_row = left_rows[x];
        let right_row = right_rows[y];
        if left_row < right_row {
            x = first_from(left_rows, x, right_row);
        } else if right_row < left_row {
            y = first_from(right_rows, y, left_row);
        } else {
            let value = rule.combine(left_values[x], right_values[y]);
            keep_if(kept_rows, kept_values, value != S::zero(), left_row, value);
            x += 1;
            y += 1;
        }
    }
    (x, y)
}

/// The place of the first of these rows, which ascend, that isn't below a row, past a place whose row is. Looks at places that
/// are twice as far each time, and then searches between the last two: O(log of the distance).
fn first_from(rows: &[u32], place: usize, row: u32) -> usize
    requires ascending { AllPairs (λ i j. i < j) rows.now }
    requires within { place < length rows.now }
    requires below { slice_index rows.now place < row }
    ensures past { place < result }
    ensures within { result ≤ length rows.now }
    ensures below { slice_index rows.now (result - 1) < row }
{
    let mut at = place;
    let mut step = 1usize;
    while step < rows.len() - at && rows[at + step] < row {
        at += step;
        step = step.saturating_mul(2);
    }
    let end = at.saturating_add(step).min(rows.len());
    at + 1 + count_below(rows, at + 1, end, row)
}

/// How many rows from one place up to another, which ascend, are below a row, by a binary search.
fn count_below(rows: &[u32], from: usize, end: usize, row: u32) -> usize
    requires ascending { AllPairs (λ i j. i < j) rows.now }
    requires order { from ≤ end }
    requires within { end ≤ length rows.now }
    ensures within { from + result ≤ end }
    ensures below { 0 < result → slice_index rows.now (from + result - 1) < row }
{
    match rows[from..end].binary_search(&row) {
        Ok(n) => n,
        Err(n) => n,
    }
}

/// The first of two if `is_first` holds, otherwise the second.
#[inline(always)]
fn pick<T: Copy>(is_first: bool, first: T, second: T) -> T
    ensures { result ≡ cond is_first first second }
{
    if is_first { first } else { second }
}

/// Appends an entry to two lists that have room for it, if it is kept.
#[inline(always)]
fn keep_if(
    kept_rows: &mut Vec<u32>,
    kept_values: &mut Vec<u64>,
    is_kept: bool,
    row: u32,
    value: u64,
)
    requires rows_room { vec_len kept_rows.old < vec_capacity kept_rows.old }
    requires values_room { vec_len kept_values.old < vec_capacity kept_values.old }
    ensures rows { kept_rows.new.items ≡ kept_rows.old.items ++ where_kept is_kept (row ∷ []) }
    ensures values { kept_values.new.items ≡ kept_values.old.items ++ where_kept is_kept (value ∷ []) }
    ensures rows_capacity { vec_capacity kept_rows.new ≡ vec_capacity kept_rows.old }
    ensures values_capacity { vec_capacity kept_values.new ≡ vec_capacity kept_values.old }
    ensures rows_len { vec_len kept_rows.new ≤ vec_len kept_rows.old + 1 }
    ensures values_len { vec_len kept_values.new ≤ vec_len kept_values.old + 1 }
{
    if is_kept {
        kept_rows.push_reserved(row);
        kept_values.push_reserved(value);
    }
}

/// Appends the items from a place on, if they are kept.
#[inline(always)]
fn keep_rest<T: Copy>(
    list: &mut Vec<T>,
    items: &[T],
    place: usize,
    are_kept: bool,
) -> Result<(), AllocError>
    requires { place ≤ length items.now }
    ensures { OnOk result (list.new.items ≡ list.old.items ++ where_kept are_kept (drop place items.now)) }
{
    if are_kept {
        list.extend_from_slice(&items[place..])?;
    }
    Ok(())
}
