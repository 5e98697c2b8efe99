//! Panels of products: how their columns are divided; under a mask and outside it, two neighbours, one after the other, are
//! the product.
use crate::operands::{Matrix, is_computed, random};
use cb_layout::PanelledMatrix;
use cb_matrix::Entry;
use cb_operations::{Computation, Operation};
use cb_samples::{SampleFault, block, entries};
use cb_shares::ends_of;
use std::alloc::Global;

/// Whether two panels that meet at a column are the product of random matrices under a mask, and outside it.
fn are_panels(alloc: Global, column: u32) -> Result<bool, SampleFault> {
    let left = random(alloc, 60, 6, 2, 7919)?;
    let right = random(alloc, 6, 9, 2, 104729)?;
    let mask = random(alloc, 60, 9, 3, 1299709)?;
    let a = PanelledMatrix::from_block(alloc, left.try_clone()?);
    let b = PanelledMatrix::from_block(alloc, right.try_clone()?);
    let c = PanelledMatrix::from_block(alloc, mask.try_clone()?);
    let (operands, blocks) = ([&a, &b, &c], [&left, &right, &mask]);
    let under = Computation::Operation(Operation::MultiplyMasked);
    Ok(
        is_computed(alloc, under, &operands, &blocks, column)?
            && is_computed(
                alloc,
                Computation::MultiplyOutside,
                &operands,
                &blocks,
                column,
            )?,
    )
}

#[test]
fn neighbouring_panels_are_the_masked_product(rt: HostRuntime) {
    for column in 0..10 {
        assert!(rt;
            are_panels(rt.alloc(), column) == Ok(true),
            "column {column}"
        );
    }
}

/// The columns of the product of these take 3, 1, 1 and 1 products.
const LEFT: &[Entry] = entries![(0, 0, 1), (1, 0, 1), (2, 0, 1), (0, 1, 1)];

const RIGHT: &[Entry] = entries![(0, 0, 1), (1, 1, 1), (1, 2, 1), (1, 3, 1)];

/// Whether the ranges of this product end there.
fn are_ends(
    alloc: Global,
    count: usize,
    least: usize,
    wanted: &[u32],
) -> Result<bool, SampleFault> {
    let left: Matrix = block(alloc, 3, 2, LEFT)?;
    let right: Matrix = block(alloc, 2, 4, RIGHT)?;
    let found = ends_of(alloc, &left, &right, count, least)?;
    Ok(found.as_slice() == wanted)
}

#[test]
fn ranges_end_by_their_products(rt: HostRuntime) {
    assert!(rt; are_ends(rt.alloc(), 2, 1, &[2, 4]) == Ok(true));
    assert!(rt; are_ends(rt.alloc(), 2, 6, &[4, 4]) == Ok(true), "least");
}
