//! An index of the left block's columns, built for one product.
//!
//! If the shape has few columns for the entries, the index is the column pointers of compressed sparse columns (CSC): two
//! adjacent numbers tell where a column starts and ends. Otherwise it is an AUX index, as doubly compressed columns have.
//! That of Buluç and Gilbert, On the Representation and Multiplication of Hypersparse Matrices (IPDPS 2008, section 4.1),
//! has a slot for each chunk of columns. Here columns are hashed instead, so clustered columns cost no more than others.
ghost use Rattle.std.specs.Prelude.{◌≡◌, ◌<◌, ◌≤◌, ◌^◌, All, IfOk, length, slice_range};
ghost use Rattle.cb_dcsc.specs.Columns.{in_column};
ghost use Rattle.cb_product.specs.ColumnStarts.{AreColumnStarts, IsNoted, Tells, slot_of};

use crate::columns::range_of_next;
use cb_dcsc::Block;
use cb_semirings::Semiring;
use std::alloc::{AllocError, Global};

/// The content of a slot for whose hash no column has entries.
const NONE: u32 = u32::MAX;

/// An index that tells where the entries of a block's columns are. It is built once, and threads may share it.
#[derive(Drop)]
pub enum ColumnIndex {
    /// Where the entries of each column of the shape start among all, and where the last column ends. A column without
    /// entries starts where it ends.
    Starts(Vec<u32>),
    /// A slot for each hash, and by how many bits a hash is shifted. A slot holds the place of a column with this hash among
    /// the columns that have entries, or `NONE` if there is no such column: then a lookup is done after one look. If another
    /// column is at the place, the column is found by a binary search.
    Hashed { places: Vec<u32>, shift: u32 },
    /// No index: each column is found by a binary search.
    Searched,
}

impl ColumnIndex {
    /// Returns the index of a block for this many lookups. It has a start for each column of the shape if these are at most
    /// four for each column with entries and for each lookup. Otherwise, if the columns with entries are at most four for
    /// each lookup, it has four to eight slots for each of them. Otherwise there is no index. Starts have 32 bits, so a
    /// block of 2^32 entries or more has no starts.
    pub fn new<S: Semiring>(
        alloc: Global,
        block: &Block<S>,
        asked: usize,
    ) -> Result<ColumnIndex, AllocError>
        ensures { IfOk result (λ index. Tells index block.now) }
    {
        let cols = block.shape().cols() as usize;
        let columns = block.columns();
        if cols / 4 < asked.min(columns) && block.len() <= u32::MAX as usize {
            let starts = column_starts(alloc, block)?;
            return Ok(ColumnIndex::Starts(starts));
        }
        if columns / 4 < asked {
            let bits = (columns as u64).saturating_mul(4).leading_zeros();
            let shift = bits.saturating_sub(32).max(1).min(31);
            let places = hashed(alloc, block.column_numbers(), shift)?;
            return Ok(ColumnIndex::Hashed { places, shift });
        }
        Ok(ColumnIndex::Searched)
    }

    /// Returns where the entries of a column of this block start and end among all.
    #[inline(always)]
    pub(crate) fn range<S: Semiring>(&self, block: &Block<S>, column: u32) -> (usize, usize)
        requires told { Tells self.now block.now }
        requires inside { column < block.now.shape.cols }
        ensures order { result.0 ≤ result.1 }
        ensures within { result.1 ≤ length block.now.entries }
        ensures entries { slice_range block.now.entries result.0 result.1 ≡ in_column column block.now.entries }
    {
        match self {
            ColumnIndex::Starts(starts) => {
                let j = column as usize;
                (starts[j] as usize, starts[j + 1] as usize)
            }
            ColumnIndex::Hashed { places, shift } => range_at(block, column, places, *shift),
            ColumnIndex::Searched => searched_range(block, column),
        }
    }

    /// Returns how many products this block's entries have with a right block's entries in these rows. If columns are
    /// hashed, it is estimated from the average column.
    pub fn products<S: Semiring>(&self, block: &Block<S>, rows: &[u32]) -> usize
        requires told { Tells self.now block.now }
        requires inside { All (λ i. i < block.now.shape.cols) rows.now }
    {
        if let ColumnIndex::Hashed { .. } = self {
            return average_products(block, rows.len());
        }
        let mut count = 0usize;
        for row in rows {
            let (at, end) = self.range(block, *row);
            count = count.saturating_add(end - at);
        }
        count
    }
}

/// Returns where the entries of each column of the shape start among all, and where the last column ends.
fn column_starts<S: Semiring>(alloc: Global, block: &Block<S>) -> Result<Vec<u32>, AllocError>
    requires { length block.now.entries < 2 ^ 32 }
    ensures { IfOk result (λ starts. AreColumnStarts block.now starts.items) }
{
    let cols = block.shape().cols() as usize;
    let mut starts = Vec::new(alloc);
    starts.reserve(cols + 1)?;
    let columns = block.column_numbers();
    for n in 0..columns.len() {
        let (start, _) = block.nth_range(n);
        starts.resize(columns[n] as usize + 1, start as u32)?;
    }
    starts.resize(cols + 1, block.len() as u32)?;
    Ok(starts)
}

/// Returns slots that hold the place of each of these columns at its hash.
fn hashed(alloc: Global, columns: &[u32], shift: u32) -> Result<Vec<u32>, AllocError>
    requires { shift < 32 }
    ensures { IfOk result (λ places. All (IsNoted places.items shift) columns.now) }
{
    let mut places = Vec::new(alloc);
    places.resize(1 << (32 - shift), NONE)?;
    let mut place = 0u32;
    for column in columns {
        if let Some(noted) = places.get_mut(slot(*column, shift)) {
            *noted = place.min(NONE - 1);
        }
        place = place.saturating_add(1);
    }
    Ok(places)
}

/// Returns the slot of a column: its hash, shifted by this many bits.
fn slot(column: u32, shift: u32) -> usize
    ensures { result ≡ slot_of column shift }
{
    (column.wrapping_mul(2_654_435_769) >> (shift % 32)) as usize
}

/// Returns where the entries of a column start and end among all: by the place in its slot, or else by a binary search.
fn range_at<S: Semiring>(
    block: &Block<S>,
    column: u32,
    places: &[u32],
    shift: u32,
) -> (usize, usize)
    requires { All (λ e. IsNoted places.now shift e.column) block.now.entries }
    ensures order { result.0 ≤ result.1 }
    ensures within { result.1 ≤ length block.now.entries }
    ensures entries { slice_range block.now.entries result.0 result.1 ≡ in_column column block.now.entries }
{
    if let Some(place) = places.get(slot(column, shift)) {
        if *place == NONE {
            return (0, 0);
        }
        let place = *place as usize;
        if place < block.columns() && block.column_number(place) == column {
            return block.nth_range(place);
        }
    }
    block.range(column)
}

/// Returns where the entries of a column start and end among all: by a search at the place where it should be.
fn searched_range<S: Semiring>(block: &Block<S>, column: u32) -> (usize, usize)
    ensures order { result.0 ≤ result.1 }
    ensures within { result.1 ≤ length block.now.entries }
    ensures entries { slice_range block.now.entries result.0 result.1 ≡ in_column column block.now.entries }
{
    let mut place = likely_place(block.column_numbers(), block.shape().cols(), column);
    range_of_next(block, &mut place, column)
}

/// Returns the place at which a column is to be looked for first among columns that ascend and are below `cols`: how many of
/// them are below it.
///
/// Of all columns below it at most those that aren't there are missing, so as many places are searched, by halving. Which half
/// is next is chosen without a branch, so the processor needn't guess, and searches for several columns overlap.
fn likely_place(columns: &[u32], cols: u32, column: u32) -> usize {
    let missing = (cols as usize).saturating_sub(columns.len());
    let end = columns.len().min(column as usize);
    let mut place = (column as usize).saturating_sub(missing).min(end);
    let mut size = end - place;
    while size > 0 {
        let half = size - size / 2;
        let middle = place + half;
        if columns[middle - 1] < column {
            place = middle;
        }
        size -= half;
    }
    place
}

/// Returns how many products this many entries have with the columns of a block, if they meet average columns.
pub(crate) fn average_products<S: Semiring>(block: &Block<S>, entries: usize) -> usize {
    let average = (block.len() / block.columns().max(1)).saturating_add(1);
    entries.saturating_mul(average)
}
