//! Worked examples, with ample memory and with each allocation refused in turn.
ghost use Rattle.std.specs.Prelude.{◌≡◌, ◌≤◌, ◌<◌, ◌+◌, ◌-◌, [], length, All, IsTrue};
ghost use Rattle.cb_semirings.specs.Tables.{plus_times};
ghost use Rattle.cb_matrix.specs.Sparse.{IsMatrix};
ghost use Rattle.cb_dcsc.specs.Columns.{with_entries};

use crate::calls::are_below;
use crate::samples::{are_same, has_entries, is_right_or_refused};
use cb_dcsc::{Block, BlockFault};
use cb_matrix::{Entry, LIMIT, Shape};
use cb_samples::{SampleFault, block, entries, entry, shape};
use cb_semirings::{MinPlus, OrAnd, PlusTimes, Semiring};
use std::alloc::{AllocError, Global};
use std::test::Fail;

/// The last row and the last column of the largest sides.
const LAST: u32 = LIMIT - 1;

/// The lists of a block: the columns that have entries, the range of each column's entries among all, and the rows and the
/// values of the entries.
#[derive(Clone, Copy)]
struct Lists {
    columns: &'static [u32],
    ranges: &'static [(usize, usize)],
    rows: &'static [u32],
    values: &'static [u64],
}

/// Whether the columns of a block have these ranges of entries.
fn has_ranges<S: Semiring>(block: &Block<S>, ranges: &[(usize, usize)]) -> bool {
    if block.columns() != ranges.len() {
        return false;
    }
    for n in 0..block.columns() {
        if ranges.get(n) != Some(&block.nth_range(n)) {
            return false;
        }
    }
    true
}

/// Whether a block has these lists.
fn has_lists<S: Semiring>(block: &Block<S>, lists: &Lists) -> bool {
    block.column_numbers() == lists.columns
        && has_ranges(block, lists.ranges)
        && block.row_numbers() == lists.rows
        && block.values() == lists.values
}

/// Entries in two of a thousand columns.
const SPREAD: &'static [Entry] = entries![(0, 3, 5), (2, 3, 6), (1, 900, 7)];

const OF_SPREAD: Lists = Lists {
    columns: &[3, 900],
    ranges: &[(0, 2), (2, 3)],
    rows: &[0, 2, 1],
    values: &[5, 6, 7],
};

const NONE: Lists = Lists {
    columns: &[],
    ranges: &[],
    rows: &[],
    values: &[],
};

/// The sides of a block (rows, columns), its entries, and its lists. The second is a vector, whose row 0 isn't stored. The
/// third has the largest sides, which cost no more than its entries.
const BLOCKS: &[((u32, u32), &[Entry], Lists)] = &[
    ((4, 1000), SPREAD, OF_SPREAD),
    (
        (3, 1),
        entries![(1, 0, 5), (2, 0, 1)],
        Lists {
            columns: &[0],
            ranges: &[(0, 2)],
            rows: &[1, 2],
            values: &[5, 1],
        },
    ),
    (
        (LIMIT, LIMIT),
        entries![(0, 0, 1), (LAST, LAST, 9)],
        Lists {
            columns: &[0, LAST],
            ranges: &[(0, 1), (1, 2)],
            rows: &[0, LAST],
            values: &[1, 9],
        },
    ),
    ((0, 0), &[], NONE),
    ((3, 3), &[], NONE),
    ((LIMIT, LIMIT), &[], NONE),
];

/// Whether a block's copy has these sides, lists and entries.
fn is_copied(
    block: &Block<PlusTimes>,
    sides: (u32, u32),
    given: &[Entry],
    lists: &Lists,
) -> Result<bool, AllocError> {
    let copy = block.try_clone()?;
    let entries = copy.entries()?;
    let is_shaped = (copy.shape().rows(), copy.shape().cols()) == sides;
    Ok(is_shaped && has_lists(&copy, lists) && entries.as_slice() == given)
}

/// Whether the block of these entries and its copy have these lists and entries; or why there is no block.
fn is_held(
    alloc: Global,
    sides: (u32, u32),
    given: &[Entry],
    lists: &Lists,
) -> Result<bool, SampleFault> {
    let block = block(alloc, sides.0, sides.1, given)?;
    let is_copied = is_copied(&block, sides, given, lists)?;
    Ok(is_copied && has_lists(&block, lists) && has_entries(&block, given))
}

#[test]
fn the_lists_hold_the_columns_that_have_entries(rt: HostRuntime) {
    for (sides, given, lists) in BLOCKS {
        assert!(rt; is_held(rt.alloc(), *sides, given, lists) == Ok(true));
    }
}

/// Passes whichever single allocation is refused (`rt try --test --fail-alloc N`, for each N in turn).
#[test]
fn refused_memory_is_reported(rt: HostRuntime) {
    assert!(rt; is_right_or_refused(is_held(rt.alloc(), (4, 1000), SPREAD, &OF_SPREAD)));
}

/// The entries of a block of four rows and a thousand columns that grew by one entry and then took room for more.
fn grown(alloc: Global, shape: Shape) -> Result<Vec<Entry>, AllocError>
    requires { shape ≡ record { rows = 4; cols = 1000 } }
{
    let mut block = Block::<PlusTimes>::empty(alloc, shape);
    block.push(entry(2, 3, 6))?;
    block.reserve(3)?;
    block.entries()
}

/// With ample memory every call that takes memory succeeds.
#[test]
fn a_block_grows_by_entries(rt: HostRuntime) -> Result<(), Fail> {
    let entries = grown(rt.alloc(), shape(4, 1000)?)?;
    assert!(rt; entries.as_slice() == [entry(2, 3, 6)].as_slice());
    Ok(())
}

/// Entries that make no block, and why.
const FAULTS: &[(&[Entry], BlockFault)] = &[
    (
        entries![(2, 3, 6), (0, 3, 5), (1, 900, 7)],
        BlockFault::Order(1),
    ),
    (
        entries![(0, 3, 5), (4, 3, 6), (1, 900, 0)],
        BlockFault::Place(1),
    ),
    (
        entries![(0, 3, 5), (2, 3, 6), (1, 900, 0)],
        BlockFault::Zero(2),
    ),
    (entries![(0, 3, 5), (0, 3, 0)], BlockFault::Order(1)),
];

/// Why these entries make no block of four rows and a thousand columns.
fn fault_of(alloc: Global, entries: &[Entry]) -> Option<SampleFault> {
    block::<PlusTimes>(alloc, 4, 1000, entries).err()
}

#[test]
fn the_first_fault_is_named(rt: HostRuntime) {
    for (entries, fault) in FAULTS {
        assert!(rt; fault_of(rt.alloc(), entries) == Some(SampleFault::Block(*fault)));
    }
}

/// Whether the block of the spread entries gives its columns by index and by number, and the range of a column.
fn is_walked(block: &Block<MinPlus>) -> bool {
    block.columns() == 2
        && block.column_number(1) == 900
        && block.nth_column(0) == ([0, 2].as_slice(), [5, 6].as_slice())
        && block.column(900) == ([1].as_slice(), [7].as_slice())
        && block.column(4) == ([].as_slice(), [].as_slice())
        && block.range(3) == (0, 2)
}

/// Whether places have their values: those of entries, or zero.
fn is_looked_up(block: &Block<MinPlus>) -> bool {
    if block.shape().rows() != 4 || block.shape().cols() != 1000 {
        return false;
    }
    block.get(2, 3) == 6 && block.get(1, 3) == u64::MAX
}

#[test]
fn a_block_is_walked_and_looked_up(rt: HostRuntime) -> Result<(), Fail> {
    let block = block::<MinPlus>(rt.alloc(), 4, 1000, SPREAD)?;
    assert!(rt; is_walked(&block) && is_looked_up(&block));
    Ok(())
}

/// Appends three columns, one of them without rows, to a block of four rows and a thousand columns.
fn push_columns(block: &mut Block<PlusTimes>) -> Result<(), AllocError>
    requires shape { block.old.shape ≡ record { rows = 4; cols = 1000 } }
    requires empty { block.old.entries ≡ [] }
{
    block.push_column(3, &[1], &[6])?;
    block.push_column(5, &[], &[])?;
    block.push_column(900, &[0, 2], &[7, 8])?;
    Ok(())
}

const OF_THREE: Lists = Lists {
    columns: &[3, 900],
    ranges: &[(0, 1), (1, 3)],
    rows: &[1, 0, 2],
    values: &[6, 7, 8],
};

/// Whether the lists of a block of three columns are the expected ones.
fn has_columns(alloc: Global) -> Result<bool, SampleFault> {
    let mut block = Block::empty(alloc, shape(4, 1000)?);
    push_columns(&mut block)?;
    Ok(has_lists(&block, &OF_THREE))
}

/// A column is appended after all others; one without rows isn't stored.
#[test]
fn a_column_is_stored_whole(rt: HostRuntime) {
    assert!(rt; has_columns(rt.alloc()) == Ok(true));
}

/// Entries by column and then by row: two in column 3, and the last of them in column 900.
const MANY: &[Entry] = entries![
    (0, 3, 5),
    (2, 3, 6),
    (1, 4, 7),
    (0, 5, 8),
    (3, 5, 9),
    (2, 6, 1),
    (0, 7, 2),
    (1, 7, 3),
    (2, 7, 4),
    (0, 8, 5),
    (1, 9, 6),
    (3, 9, 7),
    (0, 10, 8),
    (2, 10, 9),
    (1, 11, 1),
    (0, 12, 2),
    (2, 12, 3),
    (1, 13, 4),
    (3, 13, 5),
    (0, 14, 6),
    (0, 15, 2),
    (1, 16, 3),
    (0, 900, 7),
    (1, 900, 8),
    (2, 900, 9),
    (3, 900, 1),
];

/// Whether the block of the entries before a place, with the block of the others appended, has all of them. The other
/// block has room for this many more.
fn is_appended(
    alloc: Global,
    entries: &[Entry],
    place: usize,
    room: usize,
) -> Result<bool, SampleFault>
    requires { place ≤ length entries.now }
{
    let whole = block::<PlusTimes>(alloc, 4, 1000, entries)?;
    let _shape = whole.shape();
    let mut front = block(alloc, 4, 1000, &entries[..place])?;
    let mut back = block(alloc, 4, 1000, &entries[place..])?;
    back.reserve(room)?;
    front.append(&mut back)?;
    Ok(are_same(&front, &whole) && back.len() == 0)
}

/// Whether a block is appended to another, wherever the entries are divided between the two.
fn is_appended_everywhere(alloc: Global, entries: &[Entry]) -> Result<bool, SampleFault> {
    for place in 0..entries.len() {
        if !is_appended(alloc, entries, place, 0)? || !is_appended(alloc, entries, place, 9)? {
            return Ok(false);
        }
    }
    is_appended(alloc, entries, entries.len(), 0)
}

/// A short block is put in front of a long one, whose memory has room for it or has none, and a long or a short one behind
/// a long one. They share a column or don't.
#[test]
fn a_block_is_appended_to_one_of_any_length(rt: HostRuntime) {
    assert!(rt; is_right_or_refused(is_appended_everywhere(rt.alloc(), MANY)));
}

/// 3,000 entries, three in each of a thousand columns.
fn long_list(alloc: Global) -> Result<Vec<Entry>, AllocError> {
    let mut entries = Vec::new(alloc);
    for n in 0..3000u32 {
        entries.push(entry(n % 3, n / 3, 1 + u64::from(n)))?;
    }
    Ok(entries)
}

/// Appends a block to another. If memory is refused, which is the answer `false`, both have as many entries as before.
fn is_granted(front: &mut Block<PlusTimes>, back: &mut Block<PlusTimes>) -> bool
    requires shape { back.old.shape ≡ front.old.shape }
    requires matrix { IsMatrix plus_times (with_entries front.old back.old.entries) }
{
    let (own, others) = (front.len(), back.len());
    match front.append(back) {
        Ok(()) => {
            prove_eq!(back.len(), 0);
            true
        }
        Err(_) => {
            prove_eq!(front.len(), own);
            prove_eq!(back.len(), others);
            false
        }
    }
}

/// Whether the block of the entries before a place gets those of the block of the others, which keeps none; or else, both
/// are as they were.
fn gets_all_or_nothing(alloc: Global, entries: &[Entry], place: usize) -> Result<bool, SampleFault>
    requires { place ≤ length entries.now }
{
    let whole = block::<PlusTimes>(alloc, 4, 1000, entries)?;
    let _shape = whole.shape();
    let mut front = block(alloc, 4, 1000, &entries[..place])?;
    let mut back = block(alloc, 4, 1000, &entries[place..])?;
    let (own, others) = (front.try_clone()?, back.try_clone()?);
    if is_granted(&mut front, &mut back) {
        Ok(are_same(&front, &whole) && back.len() == 0)
    } else {
        Ok(are_same(&front, &own) && are_same(&back, &others))
    }
}

/// How many of the 3,000 entries are in the first block. A short one takes over the lists of the other; a long one copies
/// them. Some share a column with the other.
const DIVIDED: &[usize] = &[0, 1, 3, 300, 1499, 1500, 2999, 3000];

/// The same, wherever a long list is divided.
fn gets_all_or_nothing_everywhere(alloc: Global) -> Result<bool, SampleFault> {
    let entries = long_list(alloc)?;
    for place in DIVIDED {
        if *place > entries.len() || !gets_all_or_nothing(alloc, &entries, *place)? {
            return Ok(false);
        }
    }
    Ok(true)
}

/// Passes whichever single allocation is refused: then neither block changes.
#[test]
fn a_refused_append_changes_nothing(rt: HostRuntime) {
    assert!(rt; is_right_or_refused(gets_all_or_nothing_everywhere(rt.alloc())));
}

/// Whether all entries of a block are in columns below a bound.
fn is_before(block: &Block<PlusTimes>, column: u32) -> bool
    ensures { IsTrue result → All (λ e. e.column < column) block.now.entries }
{
    are_below(block.column_numbers(), column)
}

/// Whether a range of columns and all rows of a block fit into another one, with row 0 and the first column at a corner.
fn fits_at(
    block: &Block<PlusTimes>,
    other: &Block<PlusTimes>,
    cols: (u32, u32),
    corner: (u32, u32),
) -> bool
    ensures range { IsTrue result → cols.0 ≤ cols.1 }
    ensures rows { IsTrue result → corner.0 + other.now.shape.rows ≤ block.now.shape.rows }
    ensures cols { IsTrue result → corner.1 + (cols.1 - cols.0) ≤ block.now.shape.cols }
{
    let (inner, outer) = (other.shape(), block.shape());
    cols.0 <= cols.1
        && corner.0 <= outer.rows()
        && inner.rows() <= outer.rows() - corner.0
        && corner.1 <= outer.cols()
        && cols.1 - cols.0 <= outer.cols() - corner.1
}

/// Stores columns of a block behind those of another, in front of which they must not be. If memory is refused, the other
/// has to be as it was.
fn store_columns(
    block: &mut Block<PlusTimes>,
    other: &Block<PlusTimes>,
    cols: (u32, u32),
    corner: (u32, u32),
) -> Result<bool, SampleFault> {
    if !fits_at(block, other, cols, corner) || !is_before(block, corner.1) {
        return Ok(false);
    }
    let own = block.try_clone()?;
    match block.append_columns(other, cols, corner) {
        Ok(()) => Ok(true),
        Err(refused) => {
            if are_same(block, &own) {
                Err(SampleFault::from(refused))
            } else {
                Ok(false)
            }
        }
    }
}

/// A range of columns of a block, and where it goes in another that may have entries already: the sides and the entries of
/// both, the range, the corner, and the entries afterwards.
struct Columns {
    sides: (u32, u32),
    own: &'static [Entry],
    other_sides: (u32, u32),
    other: &'static [Entry],
    cols: (u32, u32),
    corner: (u32, u32),
    wanted: &'static [Entry],
}

/// Entries of four rows and ten columns.
const OF_TEN: &'static [Entry] = entries![
    (0, 0, 1),
    (3, 0, 2),
    (1, 4, 3),
    (0, 5, 4),
    (2, 5, 5),
    (3, 9, 6)
];

/// No columns, and columns without entries, before, between and after those with some; the first, one in the middle, the last,
/// and all, where they were and moved; behind no entries and behind some; a block of one row; and the last place of the
/// largest sides, from the first and from the last.
const COLUMNS: &[Columns] = &[
    Columns {
        sides: (4, 10),
        own: entries![(1, 0, 9)],
        other_sides: (4, 10),
        other: OF_TEN,
        cols: (4, 4),
        corner: (0, 4),
        wanted: entries![(1, 0, 9)],
    },
    Columns {
        sides: (4, 10),
        own: &[],
        other_sides: (4, 10),
        other: OF_TEN,
        cols: (1, 4),
        corner: (0, 1),
        wanted: &[],
    },
    Columns {
        sides: (4, 10),
        own: entries![(1, 0, 9)],
        other_sides: (4, 10),
        other: OF_TEN,
        cols: (0, 1),
        corner: (0, 1),
        wanted: entries![(1, 0, 9), (0, 1, 1), (3, 1, 2)],
    },
    Columns {
        sides: (6, 12),
        own: &[],
        other_sides: (4, 10),
        other: OF_TEN,
        cols: (2, 6),
        corner: (2, 8),
        wanted: entries![(3, 10, 3), (2, 11, 4), (4, 11, 5)],
    },
    Columns {
        sides: (4, 10),
        own: entries![(0, 0, 7), (3, 8, 8)],
        other_sides: (4, 10),
        other: OF_TEN,
        cols: (9, 10),
        corner: (0, 9),
        wanted: entries![(0, 0, 7), (3, 8, 8), (3, 9, 6)],
    },
    Columns {
        sides: (4, 10),
        own: &[],
        other_sides: (4, 10),
        other: OF_TEN,
        cols: (0, 10),
        corner: (0, 0),
        wanted: OF_TEN,
    },
    Columns {
        sides: (1, LIMIT),
        own: entries![(0, 0, 1)],
        other_sides: (1, 2),
        other: entries![(0, 0, 2), (0, 1, 3)],
        cols: (0, 2),
        corner: (0, LIMIT - 2),
        wanted: entries![(0, 0, 1), (0, LIMIT - 2, 2), (0, LAST, 3)],
    },
    Columns {
        sides: (LIMIT, LIMIT),
        own: entries![(LAST, 0, 1)],
        other_sides: (1, 1),
        other: entries![(0, 0, 2)],
        cols: (0, 1),
        corner: (LAST, LAST),
        wanted: entries![(LAST, 0, 1), (LAST, LAST, 2)],
    },
    Columns {
        sides: (LIMIT, 1),
        own: &[],
        other_sides: (LIMIT, LIMIT),
        other: entries![(0, LAST, 1), (LAST, LAST, 2)],
        cols: (LAST, LIMIT),
        corner: (0, 0),
        wanted: entries![(0, 0, 1), (LAST, 0, 2)],
    },
];

/// Whether a block has the wanted entries once it got the columns.
fn gets_columns(alloc: Global, case: &Columns) -> Result<bool, SampleFault> {
    let mut block = block(alloc, case.sides.0, case.sides.1, case.own)?;
    let other = cb_samples::block(alloc, case.other_sides.0, case.other_sides.1, case.other)?;
    let is_stored = store_columns(&mut block, &other, case.cols, case.corner)?;
    Ok(is_stored && has_entries(&block, case.wanted))
}

/// Whether each block gets its columns.
fn all_get_columns(alloc: Global, cases: &[Columns]) -> Result<bool, SampleFault> {
    for case in cases {
        if !gets_columns(alloc, case)? {
            return Ok(false);
        }
    }
    Ok(true)
}

#[test]
fn columns_are_stored_behind_others(rt: HostRuntime) {
    assert!(rt; all_get_columns(rt.alloc(), COLUMNS) == Ok(true));
}

/// Passes whichever single allocation is refused: then the block that would get the columns is unchanged.
#[test]
fn refused_columns_change_nothing(rt: HostRuntime) {
    assert!(rt; is_right_or_refused(all_get_columns(rt.alloc(), COLUMNS)));
}

/// Whether a block that is stored in two parts, in front of a column and from there on, is the whole block again.
fn is_rejoined(alloc: Global, whole: &Block<PlusTimes>, column: u32) -> Result<bool, SampleFault> {
    let shape = whole.shape();
    let mut joined = Block::empty(alloc, shape);
    let has_front = store_columns(&mut joined, whole, (0, column), (0, 0))?;
    let has_back = store_columns(&mut joined, whole, (column, shape.cols()), (0, column))?;
    Ok(has_front && has_back && are_same(&joined, whole))
}

/// Where 3,000 entries in a thousand columns are divided: nowhere, beside the first and the last column, and between.
const COLUMNS_BEFORE: &[u32] = &[0, 1, 2, 333, 500, 998, 999, 1000];

/// The same, wherever a long list is divided.
fn is_rejoined_everywhere(alloc: Global) -> Result<bool, SampleFault> {
    let whole = block(alloc, 4, 1000, &long_list(alloc)?)?;
    for column in COLUMNS_BEFORE {
        if !is_rejoined(alloc, &whole, *column)? {
            return Ok(false);
        }
    }
    Ok(true)
}

/// Passes whichever single allocation is refused.
#[test]
fn thousands_of_columns_are_stored_in_two_parts(rt: HostRuntime) {
    assert!(rt; is_right_or_refused(is_rejoined_everywhere(rt.alloc())));
}

/// A block over or-and is taken as one over min-plus.
fn taken_over(block: Block<OrAnd>) -> Block<MinPlus>
    ensures { result ≡ block }
{
    let _shape = block.shape();
    block.recast()
}

#[test]
fn a_block_is_taken_over_to_another_semiring(rt: HostRuntime) -> Result<(), Fail> {
    let given: &[Entry] = entries![(0, 3, 1), (2, 3, 1), (1, 900, 1)];
    let other = taken_over(block(rt.alloc(), 4, 1000, given)?);
    assert!(rt; has_entries(&other, given) && other.get(0, 0) == u64::MAX);
    Ok(())
}

/// Whether a block is taken apart into these lists.
fn gives(block: Block<PlusTimes>, lists: &Lists) -> bool {
    let (columns, rows, values) = block.into_lists();
    columns.as_slice() == lists.columns
        && rows.as_slice() == lists.rows
        && values.as_slice() == lists.values
}

#[test]
fn a_block_gives_its_lists_away(rt: HostRuntime) -> Result<(), Fail> {
    let block = block(rt.alloc(), 4, 1000, SPREAD)?;
    assert!(rt; gives(block, &OF_SPREAD));
    Ok(())
}

/// Whether a block has this many entries and columns and this value in row 2 of column 3; or, if not `all`, nothing.
fn has_all_or_nothing(block: &Block<PlusTimes>, all: bool, held: (usize, usize, u64)) -> bool {
    let wanted = if all { held } else { (0, 0, 0) };
    (block.len(), block.columns(), block.get(2, 3)) == wanted
}

/// Passes whichever single allocation is refused: if the call that would grow a block is refused, the block is
/// unchanged.
#[test]
fn a_refused_push_stores_nothing(rt: HostRuntime) -> Result<(), Fail> {
    let mut block = Block::<PlusTimes>::empty(rt.alloc(), shape(4, 1000)?);
    let pushed = block.push(entry(2, 3, 6)).is_ok();
    assert!(rt; has_all_or_nothing(&block, pushed, (1, 1, 6)));
    Ok(())
}

/// The same for a whole column.
#[test]
fn a_refused_column_stores_nothing(rt: HostRuntime) -> Result<(), Fail> {
    let mut block = Block::<PlusTimes>::empty(rt.alloc(), shape(4, 1000)?);
    let pushed = block.push_column(3, &[1, 2], &[6, 7]).is_ok();
    assert!(rt; has_all_or_nothing(&block, pushed, (2, 1, 7)));
    Ok(())
}
