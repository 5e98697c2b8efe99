//! What a fault of numbers, lists or triples is about: the first of them that misfits. A caller asks once a call has returned
//! the fault.
ghost use Rattle.std.specs.Prelude.{◌≡◌, ℕ, ◌↔◌, ◌+◌, ◌-◌, ◌<◌, ◌≤◌, IsTrue, length, map, slice_index};
ghost use Rattle.cb_lists.specs.Lists.{count, starts, HasForm, Fits, HaveLengths, StartsRise};
ghost use Rattle.cb_kept.specs.declared.faults.Fault.{Fault};
ghost use Rattle.cb_kept.specs.Misfits.{IsFirst, IsFrom, IsOther, IsColumnUnordered, IsEntryUnordered, IsColumnOutside, IsFirstOfLists, IsListMisfit, IsMisfitOfLists, IsTripleOutside, IsTripleMisfit, IsMisfitOfTriples};
ghost use Rattle.cb_kept.specs.Refusals.{list_faults};
ghost use Rattle.cb_kept.specs.Triples.{triple_faults};

use crate::triples::{Triple, are_within};
use cb_lists::Columns;
use cb_matrix::Shape;
use cb_semirings::{Semiring, SemiringName, over_semiring};

/// Returns the position of the first number that isn't below a bound, or how many numbers there are.
pub fn first_outside(numbers: &[u32], bound: u32) -> usize
    ensures { IsFirst (IsFrom bound numbers.now) (length numbers.now) result }
{
    for n in 0..numbers.len() {
        if numbers[n] >= bound {
            return n;
        }
    }
    numbers.len()
}

/// The position of the first number that isn't a value of the semiring, or how many numbers there are.
fn first_other<S: Semiring>(values: &[u64]) -> usize
    ensures { IsFirst (IsOther S.arithmetic values.now) (length values.now) result }
{
    for n in 0..values.len() {
        if !S::is_value(values[n]) {
            return n;
        }
    }
    values.len()
}

/// How many columns lists store.
fn stored(lists: &Columns) -> usize
    ensures count { result ≡ count lists.now }
    ensures fits { result < usize.MAX }
{
    if lists.kind == 0 {
        lists.columns.len()
    } else {
        lists.ncols as usize
    }
}

/// Where the nth stored column starts, or 0 past the last start.
fn start(lists: &Columns, n: usize) -> u64
    ensures { result ≡ slice_index (starts lists.now) n }
{
    if lists.wide == 0 {
        lists.starts32.get(n).copied().unwrap_or(0).into()
    } else {
        lists.starts64.get(n).copied().unwrap_or(0)
    }
}

/// Whether the nth stored column is out of order.
fn is_unordered(lists: &Columns, n: usize) -> bool
    requires n { n < count lists.now }
    requires fits { count lists.now < usize.MAX }
    ensures { IsTrue result ↔ IsColumnUnordered lists.now n }
{
    let columns = lists.columns;
    start(lists, n + 1) < start(lists, n)
        || lists.kind == 0 && n > 0 && columns[n] <= columns[n - 1]
}

/// The first stored column that is out of order, or how many are stored.
fn first_unordered(lists: &Columns) -> usize
    ensures { IsFirst (IsColumnUnordered lists.now) (count lists.now) result }
{
    let count = stored(lists);
    for n in 0..count {
        if is_unordered(lists, n) {
            return n;
        }
    }
    count
}

/// The first entry that is out of order, or how many entries there are.
fn first_unordered_entry(lists: &Columns) -> usize
    requires lengths { HaveLengths lists.now }
    requires rising { StartsRise lists.now }
    ensures { IsFirst (IsEntryUnordered lists.now) (length lists.now.rows.now) result }
{
    for n in 0..stored(lists) {
        let first = start(lists, n) as usize;
        let end = start(lists, n + 1) as usize;
        for entry in first + 1..end {
            if lists.rows[entry] <= lists.rows[entry - 1] {
                return entry;
            }
        }
    }
    lists.rows.len()
}

/// Where lists are out of order: the stored column, counted on from the number of entries, or else the entry.
fn unordered(lists: &Columns) -> usize
    requires { HaveLengths lists.now }
    ensures { IsFirstOfLists lists.now (IsColumnUnordered lists.now) (IsEntryUnordered lists.now) result }
{
    let column = first_unordered(lists);
    if column < stored(lists) {
        return lists.rows.len() + column;
    }
    first_unordered_entry(lists)
}

/// Where lists are outside the shape, in the same way.
fn outside(lists: &Columns) -> usize
    ensures { IsFirstOfLists lists.now (IsColumnOutside lists.now) (IsFrom lists.now.nrows lists.now.rows.now) result }
{
    if lists.kind == 0 {
        let column = first_outside(lists.columns, lists.ncols);
        if column < lists.columns.len() {
            return lists.rows.len() + column;
        }
    }
    first_outside(lists.rows, lists.nrows)
}

/// Whether lists have no fault of the kinds that are about all of them.
fn are_measured(lists: &Columns) -> bool
    ensures { IsTrue result ↔ (HasForm lists.now × Fits lists.now × HaveLengths lists.now) }
{
    lists.has_form() && lists.fits() && lists.have_lengths()
}

/// What the fault of lists over a semiring is about.
fn misfit_in_lists<S: Semiring>(lists: &Columns) -> usize
    ensures { (f : Fault) → list_faults S.arithmetic lists.now f → IsListMisfit S.arithmetic lists.now f result }
{
    if !are_measured(lists) {
        return 0;
    }
    if !lists.are_ordered() {
        return unordered(lists);
    }
    if !lists.are_inside() {
        return outside(lists);
    }
    first_other::<S>(lists.values)
}

/// Returns what the fault of lists over the semiring of a number is about. For an order or a place it is the first stored column
/// that misfits, counted on from the number of entries; or, if all of them fit, the first entry that does. For a value it is the
/// first entry. Of other faults, and of none, it tells nothing. Costs what the check of the lists costs.
pub fn misfit_of_lists(semiring: u32, lists: &Columns) -> usize
    ensures { IsMisfitOfLists semiring lists.now result }
{
    match SemiringName::numbered(semiring) {
        Some(name) => over_semiring!(name, misfit_in_lists::<_>(lists)),
        None => 0,
    }
}

/// The first triple outside a shape, or how many triples there are.
fn first_outside_triple(shape: Shape, triples: &[Triple]) -> usize
    ensures { IsFirst (IsTripleOutside shape triples.now) (length triples.now) result }
{
    for n in 0..triples.len() {
        if triples[n].row >= shape.rows() || triples[n].column >= shape.cols() {
            return n;
        }
    }
    triples.len()
}

/// The first triple whose value isn't one of the semiring, or how many triples there are.
fn first_other_triple<S: Semiring>(triples: &[Triple]) -> usize
    ensures { IsFirst (IsOther S.arithmetic (map (λ t. t.value) triples.now)) (length triples.now) result }
{
    for n in 0..triples.len() {
        if !S::is_value(triples[n].value) {
            return n;
        }
    }
    triples.len()
}

/// What the fault of triples over a semiring is about.
fn misfit_in_triples<S: Semiring>(nrows: u32, ncols: u32, triples: &[Triple]) -> usize
    ensures { (f : Fault) → triple_faults S.arithmetic nrows ncols triples.now f → IsTripleMisfit S.arithmetic nrows ncols triples.now f result }
{
    let Some(shape) = Shape::new(nrows, ncols) else {
        return 0;
    };
    if !are_within(shape, triples) {
        return first_outside_triple(shape, triples);
    }
    first_other_triple::<S>(triples)
}

/// Returns what the fault of triples over the semiring of a number is about: the first triple outside the shape, or the first
/// whose value isn't one of the semiring. Of other faults, and of none, it tells nothing. Costs a walk over the triples or two.
pub fn misfit_of_triples(semiring: u32, nrows: u32, ncols: u32, triples: &[Triple]) -> usize
    ensures { IsMisfitOfTriples semiring nrows ncols triples.now result }
{
    match SemiringName::numbered(semiring) {
        Some(name) => over_semiring!(name, misfit_in_triples::<_>(nrows, ncols, triples)),
        None => 0,
    }
}
