//! A result on a line.
use cb_dcsc::Block;
use cb_matrix::{Entry, Matrix, Shape};
use cb_semirings::Semiring;

/// Prints the name of a kernel, the shape of what it made, and each entry: its row, its column and its value.
fn show_entries(
    rt: &HostRuntime,
    name: &str,
    shape: Shape,
    entries: &[Entry],
) -> anyhow::Result<()> {
    print!(rt; "{name}: {} by {}", shape.rows(), shape.cols())?;
    for entry in entries {
        print!(rt; ", ({}, {}) {}", entry.row, entry.column, entry.value)?;
    }
    println!(rt)?;
    Ok(())
}

/// The same of a block.
pub fn show<S: Semiring>(rt: &HostRuntime, name: &str, made: &Block<S>) -> anyhow::Result<()> {
    show_entries(rt, name, made.shape(), &made.entries()?)
}

/// The same of a list of entries.
pub fn show_numbers<S: Semiring>(
    rt: &HostRuntime,
    name: &str,
    made: &Matrix<S>,
) -> anyhow::Result<()> {
    show_entries(rt, name, made.shape(), made.entries())
}
