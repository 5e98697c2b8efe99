//! Counts the walks of two edges between the vertices of a small graph: the square of its adjacency matrix over
//! plus-times. An example of how a program uses the crates.
#![tactic(auto)]

use anyhow::Context;
use cb_layout::Grid;
use cb_matrix::{Entry, Matrix, Shape};
use cb_operations::{Operands, Operation};
use cb_rank_engines::Engine;
use cb_rank_operations::run_matrices;
use cb_semirings::PlusTimes;

/// An edge is an entry with value 1.
const fn edge(from: u32, to: u32) -> Entry {
    Entry {
        row: from,
        column: to,
        value: 1,
    }
}

fn main(rt: HostRuntime) -> anyhow::Result<()> {
    let alloc = rt.alloc();
    let edges = [edge(0, 1), edge(0, 2), edge(1, 3), edge(2, 3)];
    let shape = Shape::new(4, 4).context("past the limit")?;
    let graph: Matrix<PlusTimes> = Matrix::from_entries(alloc, shape, &edges)?;
    let grid = Grid::new(2)?;
    let operands = Operands::Two(&graph, &graph);
    let engine = Engine::Threads(2);
    let walks = run_matrices(&rt, alloc, engine, &grid, Operation::Multiply, operands)?;
    for walk in walks.entries() {
        println!(rt; "{} to {}: {} walks", walk.row, walk.column, walk.value)?;
    }
    Ok(())
}
