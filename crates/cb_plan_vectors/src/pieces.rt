//! Vectors spread over all ranks of a grid.
//!
//! A vector is a matrix of one column. Each of its parts (`cb_grid`) is cut again into q pieces in the same way. Rank
//! (t, j) keeps piece t of part j of an input ([`scatter_input`]), and rank (i, t) keeps piece t of part i of a result
//! ([`gather_result`]).
ghost use Rattle.std.specs.Prelude.{◌≡◌, ◌<◌, ◌≤◌, ◌+◌, ◌*◌, ◌/◌, ◌%◌, length, IfOk};
ghost use Rattle.cb_matrix.specs.Sparse.{IsInside};
ghost use Rattle.cb_grid.specs.Blocks.{AreRankMatrices, part_with};
ghost use Rattle.cb_grid.specs.Pieces.{piece_start, piece_shape};
ghost use Rattle.cb_plan_vectors.specs.Vectors.{piece_with, place_in_piece, blank_pieces, glued_input, glued_result, AreInputPieces, AreResultPieces, HavePieceShapes};

use cb_dcsc::Block;
use cb_grid::{Grid, deliver};
use cb_layout::{Segment, append_segment, stored};
use cb_matrix::{Entry, Matrix, Shape};
use cb_semirings::Semiring;
use std::alloc::{AllocError, Global};

/// The piece of an input vector for each rank, in the order of their numbers: rank (t, j) keeps piece t of part j,
/// with rows counted from the piece's first. The cost is that of the stored entries, and of one block for each rank.
pub fn scatter_input<S: Semiring>(
    alloc: Global,
    grid: &Grid,
    vector: &Matrix<S>,
) -> Result<Vec<Block<S>>, AllocError>
    requires { vector.now.shape.cols ≡ 1 }
    ensures count { IfOk result (λ v. length v.items ≡ grid.now.side * grid.now.side) }
    ensures pieces { IfOk result (λ v. AreInputPieces S.arithmetic grid.now.side vector.now v.items) }
    ensures matrices { IfOk result (λ v. AreRankMatrices S.arithmetic grid.now.side v.items) }
    ensures law { IfOk result (λ v. glued_input S.arithmetic grid.now.side vector.now.shape v.items ≡ vector.now) }
{
    prove!(grid.side() > 0);
    let shape = vector.shape();
    let mut blocks = empty_pieces(alloc, grid, shape)?;
    for entry in vector.entries() {
        let (rank, local) = in_piece(grid, shape, *entry);
        deliver(&mut blocks, rank, local)?;
    }
    Ok(blocks)
}

/// A block without entries for each rank's piece of an input vector.
fn empty_pieces<S: Semiring>(
    alloc: Global,
    grid: &Grid,
    shape: Shape,
) -> Result<Vec<Block<S>>, AllocError>
    ensures { IfOk result (λ v. v.items ≡ blank_pieces grid.now.side shape) }
{
    let mut blocks = Vec::with_capacity(alloc, usize::from(grid.ranks()))?;
    for rank in 0..grid.ranks() {
        let piece = input_shape(grid, shape, rank);
        blocks.push_reserved(Block::empty(alloc, piece));
    }
    Ok(blocks)
}

/// The shape of a rank's piece of an input vector.
fn input_shape(grid: &Grid, shape: Shape, rank: u16) -> Shape
    requires { rank < grid.now.side * grid.now.side }
    ensures { result ≡ piece_shape grid.now.side shape (rank % grid.now.side) (rank / grid.now.side) }
{
    let side = grid.side();
    let part = grid.part_length(shape.rows(), u32::from(rank) % side);
    let rows = grid.part_length(part, u32::from(rank) / side);
    Shape::new(rows, shape.cols()).unwrap()
}

/// The rank that keeps an entry of an input vector, and the entry with its place in the rank's piece.
fn in_piece(grid: &Grid, shape: Shape, entry: Entry) -> (usize, Entry)
    requires { IsInside shape entry }
    ensures rank { result.0 ≡ piece_with grid.now.side shape.rows entry.row * grid.now.side + part_with grid.now.side shape.rows entry.row }
    ensures entry { result.1 ≡ record { row = place_in_piece grid.now.side shape.rows entry.row; column = entry.column; value = entry.value } }
{
    let (j, place) = grid.in_part(shape.rows(), entry.row);
    let (t, row) = grid.in_part(grid.part_length(shape.rows(), j), place);
    let local = Entry {
        row,
        column: entry.column,
        value: entry.value,
    };
    (usize::from(grid.rank(t, j)), local)
}

/// The vector of a shape from the pieces of a result, in the order of the ranks' numbers: rank (i, t) keeps piece t
/// of part i, so the pieces follow one another. The cost is that of the stored entries.
pub fn gather_result<S: Semiring>(
    alloc: Global,
    grid: &Grid,
    blocks: &[Block<S>],
    shape: Shape,
) -> Result<Matrix<S>, AllocError>
    requires column { shape.cols ≡ 1 }
    requires count { length blocks.now ≡ grid.now.side * grid.now.side }
    requires shapes { HavePieceShapes grid.now.side shape blocks.now }
    ensures glued { IfOk result (λ m. m ≡ glued_result S.arithmetic grid.now.side shape blocks.now) }
    ensures cuts { IfOk result (λ m. AreResultPieces S.arithmetic grid.now.side m blocks.now) }
{
    let mut entries = Vec::new(alloc);
    entries.reserve(stored(blocks))?;
    for rank in 0..grid.ranks() {
        let block = &blocks[usize::from(rank)];
        let top = result_start(grid, shape.rows(), rank);
        let piece = Segment {
            column: 0,
            top,
            rows: block.row_numbers(),
            values: block.values(),
        };
        append_segment(&mut entries, piece)?;
    }
    let vector = Matrix::collect(shape, entries)?;
    Ok(vector)
}

/// The first row of a rank's piece of a result.
fn result_start(grid: &Grid, rows: u32, rank: u16) -> u32
    requires { rank < grid.now.side * grid.now.side }
    ensures value { result ≡ piece_start grid.now.side rows (rank / grid.now.side) (rank % grid.now.side) }
    ensures limit { result ≤ rows }
{
    let side = grid.side();
    let i = u32::from(rank) / side;
    let (part, _) = grid.range(rows, i);
    let (piece, _) = grid.range(grid.part_length(rows, i), u32::from(rank) % side);
    part + piece
}
