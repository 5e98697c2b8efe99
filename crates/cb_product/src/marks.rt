//! Marks of rows: a bit for each row, in words of 64. Marked rows are found in order, 64 rows with one look.
ghost use Rattle.std.specs.Prelude.{◌≡◌, ◌≢◌, ◌↔◌, IsTrue, ℕ, ◌<◌, ◌≤◌, ◌/◌, ◌*◌, ◌^◌, cond, length, All, IfSome, IfNone, OnOk, slice_index};
ghost use Rattle.cb_product.specs.InColumns.{is_among};
ghost use Rattle.cb_product.specs.Marks.{mark_of, MarksNone};

use std::alloc::AllocError;

/// Marks a row.
fn mark(words: &mut [u64], row: usize)
    requires { row / 64 < length words.old }
    ensures length { length words.new ≡ length words.old }
    ensures here { mark_of words.new row ≡ 1 }
    ensures others { (i : ℕ) → i ≢ row → mark_of words.new i ≡ mark_of words.old i }
    ensures words { (k : ℕ) → k ≢ row / 64 → slice_index words.new k ≡ slice_index words.old k }
{
    words[row / 64] |= 1 << (row % 64);
}

/// Removes the mark of a row.
fn unmark(words: &mut [u64], row: usize)
    requires { row / 64 < length words.old }
    ensures length { length words.new ≡ length words.old }
    ensures here { mark_of words.new row ≡ 0 }
    ensures others { (i : ℕ) → i ≢ row → mark_of words.new i ≡ mark_of words.old i }
{
    words[row / 64] &= !(1 << (row % 64));
}

/// Makes room for the marks of this many rows. No row is marked before or after.
pub(crate) fn make_room(words: &mut Vec<u64>, rows: u32) -> Result<(), AllocError>
    requires { MarksNone words.old.items }
    ensures room { OnOk result (rows ≤ 64 * length words.new.items) }
    ensures none { OnOk result (MarksNone words.new.items) }
{
    let count = rows as usize / 64 + 1;
    if words.len() < count {
        words.clear();
        words.resize(count, 0)?;
    }
    Ok(())
}

/// Marks these rows, or removes their marks.
pub(crate) fn set_marks(words: &mut [u64], rows: &[u32], marked: bool)
    requires { All (λ i. i / 64 < length words.old) rows.now }
    ensures length { length words.new ≡ length words.old }
    ensures marks { (i : ℕ) → mark_of words.new i ≡ cond (is_among rows.now i) (cond marked 1 0) (mark_of words.old i) }
{
    for n in 0..rows.len() {
        set_mark(words, rows[n] as usize, marked);
    }
}

/// Marks a row, or removes its mark.
fn set_mark(words: &mut [u64], row: usize, marked: bool)
    requires { row / 64 < length words.old }
    ensures length { length words.new ≡ length words.old }
    ensures here { mark_of words.new row ≡ cond marked 1 0 }
    ensures others { (i : ℕ) → i ≢ row → mark_of words.new i ≡ mark_of words.old i }
{
    if marked {
        mark(words, row);
    } else {
        unmark(words, row);
    }
}

/// Whether a row is marked.
#[inline(always)]
pub(crate) fn is_marked(words: &[u64], row: usize) -> bool
    requires { row / 64 < length words.now }
    ensures { IsTrue result ↔ (mark_of words.now row ≡ 1) }
{
    (words[row / 64] >> (row % 64)) % 2 == 1
}

/// Marks a row, and the word with its mark. A row that is known to be marked costs nothing, since many products have the same
/// row.
#[inline(always)]
pub(crate) fn mark_row(marks: &mut [u64], groups: &mut [u64], row: usize, is_known: bool)
    requires known { IsTrue is_known → mark_of marks.old row ≡ 1 }
    requires room { row / 64 < length marks.old }
    requires groups_room { row / 64 / 64 < length groups.old }
    requires no_group { (n : ℕ) → mark_of groups.old n ≡ 0 → slice_index marks.old n ≡ 0 }
    ensures length { length marks.new ≡ length marks.old }
    ensures here { mark_of marks.new row ≡ 1 }
    ensures others { (i : ℕ) → i ≢ row → mark_of marks.new i ≡ mark_of marks.old i }
    ensures words { (k : ℕ) → k ≢ row / 64 → slice_index marks.new k ≡ slice_index marks.old k }
    ensures groups_length { length groups.new ≡ length groups.old }
    ensures group { mark_of groups.new (row / 64) ≡ 1 }
    ensures other_groups { (n : ℕ) → n ≢ row / 64 → mark_of groups.new n ≡ mark_of groups.old n }
    ensures group_words { (k : ℕ) → k ≢ row / 4096 → slice_index groups.new k ≡ slice_index groups.old k }
{
    if is_known {
        return;
    }
    mark(marks, row);
    mark(groups, row / 64);
}
