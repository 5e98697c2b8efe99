//! Products.
use crate::printing::show;
use anyhow::bail;
use cb_dcsc::Block;
use cb_dense::add_product;
use cb_masked::{multiply_masked, multiply_outside};
use cb_matrix::Entry;
use cb_product::{multiply, multiply_into};
use cb_samples::{block, entries};
use cb_selections::{kronecker, multiply_turned, power};
use cb_semirings::PlusTimes;

/// 1 2
/// . 3
pub const LEFT: &[Entry] = entries![(0, 0, 1), (0, 1, 2), (1, 1, 3)];

/// . 1
/// 4 .
pub const RIGHT: &[Entry] = entries![(1, 0, 4), (0, 1, 1)];

/// The places (0, 0) and (1, 1).
const MASK: &[Entry] = entries![(0, 0, 1), (1, 1, 1)];

/// 5
/// 7
const VECTOR: &[Entry] = entries![(0, 0, 5), (1, 0, 7)];

/// Products of two matrices, of several, and with a vector.
pub fn products(rt: &HostRuntime) -> anyhow::Result<()> {
    let alloc = rt.alloc();
    let left: Block<PlusTimes> = block(alloc, 2, 2, LEFT)?;
    let right: Block<PlusTimes> = block(alloc, 2, 2, RIGHT)?;
    show(rt, "multiply", &multiply(alloc, &left, &right)?)?;
    let turned = multiply_turned(alloc, &left, true, &right, false)?;
    show(rt, "multiply_turned, left transposed", &turned)?;
    show(rt, "power, 3 factors", &power(alloc, &left, 3)?)?;
    show(rt, "kronecker", &kronecker(alloc, &left, &right)?)?;
    let vector: Block<PlusTimes> = block(alloc, 2, 1, VECTOR)?;
    let mut sums = [100, 0];
    add_product(&mut sums, &left, &vector);
    println!(rt; "add_product, to 100 and 0: {}, {}", sums[0], sums[1])?;
    Ok(())
}

/// Products added to a matrix, and products at some places.
pub fn products_under_masks(rt: &HostRuntime) -> anyhow::Result<()> {
    let alloc = rt.alloc();
    let left: Block<PlusTimes> = block(alloc, 2, 2, LEFT)?;
    let right: Block<PlusTimes> = block(alloc, 2, 2, RIGHT)?;
    let mask: Block<PlusTimes> = block(alloc, 2, 2, MASK)?;
    let Ok(sum) = multiply_into(alloc, &left, &right, right.try_clone()?) else {
        bail!("out of memory");
    };
    show(rt, "multiply_into, to the right", &sum)?;
    show(
        rt,
        "multiply_masked",
        &multiply_masked(alloc, &left, &right, &mask)?,
    )?;
    show(
        rt,
        "multiply_outside",
        &multiply_outside(alloc, &left, &right, &mask)?,
    )?;
    Ok(())
}
