//! The text of a product in panels is that of the whole product.
use crate::market::pages;
use crate::writing::rounds;
use cb_dcsc::Block;
use cb_job_ends::faults::JobFault;
use cb_job_output::rounds::Form;
use cb_layout::{Grid, PanelledMatrix};
use cb_market::{Kind, read_distributed};
use cb_market_pages::TextPages;
use cb_operations::{Computation, ComputeFault, Operation};
use cb_panels::{Panels, compute};
use cb_semirings::PlusTimes;
use std::alloc::{AllocError, Global};
use std::thread::Threads;

/// How many panels a product is made in.
const COUNTS: [u32; 4] = [1, 2, 3, 64];

/// Ones on the diagonal of a matrix of five rows and columns.
const ONE: &[u8] =
    b"%%MatrixMarket matrix coordinate integer general\n5 5 5\n1 1 1\n2 2 1\n3 3 1\n4 4 1\n5 5 1\n";

/// A matrix of five rows, with columns that have no entries, and one without entries.
const FACTORS: [&[u8]; 2] = [
    b"%%MatrixMarket matrix coordinate integer general\n5 9 7\n1 1 7\n5 1 10\n2 2 18446744073709551615\n4 2 3\n1 6 99999\n3 6 1\n4 8 2\n",
    b"%%MatrixMarket matrix coordinate integer general\n5 9 0\n",
];

/// Reads a text as one block.
fn block_of(alloc: Global, given: &[u8]) -> Result<Block<PlusTimes>, Kind> {
    match read_distributed::<PlusTimes>(alloc, &Grid::single(), given) {
        Ok(matrix) => Ok(matrix.into_block()),
        Err(fault) => Err(fault.kind),
    }
}

/// Whether a matrix in panels is written page by page as this text.
fn are_pages(
    alloc: Global,
    matrix: &PanelledMatrix<PlusTimes>,
    wanted: &[u8],
) -> Result<bool, AllocError> {
    let (bytes, _) = pages::joined(alloc, TextPages::of_panels(matrix))?;
    Ok(bytes.as_slice() == wanted)
}

/// Whether it is written by three threads in rounds of four shares of this many lines as this text.
fn are_rounds<R: Threads + Sync>(
    rt: &R,
    alloc: Global,
    lines: usize,
    matrix: &PanelledMatrix<PlusTimes>,
    wanted: &[u8],
) -> Result<bool, JobFault> {
    let form = Form {
        threads: 3,
        shares: 4,
        lines,
    };
    let (bytes, _) = rounds::joined(rt, alloc, form, TextPages::of_panels(matrix))?;
    Ok(bytes.as_slice() == wanted)
}

/// Whether it is written as this text, page by page and in rounds of shares of a few lines.
fn is_text<R: Threads + Sync>(
    rt: &R,
    alloc: Global,
    matrix: &PanelledMatrix<PlusTimes>,
    wanted: &[u8],
) -> Result<bool, JobFault> {
    for lines in [1, 2, 3, 1_000] {
        if !are_rounds(rt, alloc, lines, matrix, wanted)? {
            return Ok(false);
        }
    }
    Ok(are_pages(alloc, matrix, wanted)?)
}

/// One times a block, made in at most this many panels.
fn product_with_one<R: Threads + Sync>(
    rt: &R,
    alloc: Global,
    most: u32,
    right: Block<PlusTimes>,
) -> Result<PanelledMatrix<PlusTimes>, Kind> {
    let left = PanelledMatrix::from_block(alloc, block_of(alloc, ONE)?);
    let right = PanelledMatrix::from_block(alloc, right);
    let panels = Panels { most, least: 1 };
    let product = Computation::Operation(Operation::Multiply);
    match compute(rt, alloc, panels, product, &[&left, &right]) {
        Ok(product) => Ok(product),
        Err(ComputeFault::Memory) => Err(Kind::Memory),
        Err(ComputeFault::Refused(_refusal)) => Err(Kind::TooLarge),
    }
}

/// Whether one times a matrix, made in at most this many panels, is written as the text of the matrix.
fn is_own_text<R: Threads + Sync>(
    rt: &R,
    alloc: Global,
    most: u32,
    given: &[u8],
) -> Result<bool, Kind> {
    let right = block_of(alloc, given)?;
    let product = product_with_one(rt, alloc, most, right)?;
    is_text(rt, alloc, &product, given).map_err(|_| Kind::Memory)
}

/// Whether each matrix is, in as many panels as are tried.
fn are_own_texts<R: Threads + Sync>(rt: &R, alloc: Global) -> bool {
    for most in COUNTS {
        for given in FACTORS {
            if is_own_text(rt, alloc, most, given) != Ok(true) {
                return false;
            }
        }
    }
    true
}

#[test]
fn panels_are_written_as_one_matrix(rt: HostRuntime) {
    assert!(&rt; are_own_texts(&rt, rt.alloc()));
}
