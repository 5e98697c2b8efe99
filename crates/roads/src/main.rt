//! A product, distances, levels and components of a small road map, on one thread. An example of how a program uses the
//! crates without ranks.
#![tactic(auto)]

use anyhow::ensure;
use cb_dcsc::Block;
use cb_market::read;
use cb_operations::{Computation, Operation};
use cb_semirings::{MinPlus, OrAnd};

/// The roads and their lengths: an entry (i, j) is a road from i to j.
const ROADS: &str = "%%MatrixMarket matrix coordinate integer general
5 5 6
1 2 7
1 3 2
3 2 4
2 4 1
3 4 9
5 1 3
";

fn main(rt: HostRuntime) -> anyhow::Result<()> {
    let alloc = rt.alloc();
    let roads: Block<MinPlus> = read(alloc, ROADS.as_bytes())?;
    let edges: Block<OrAnd> = read(alloc, ROADS.as_bytes())?;
    let (by_roads, by_edges) = (roads.shape(), edges.shape());
    ensure!(by_roads.rows() == by_roads.cols(), "not a square");
    ensure!(by_edges.rows() == by_edges.cols(), "not a square");
    ensure!(
        by_roads.rows() == 5 && by_edges.rows() == 5,
        "not five towns"
    );

    let product = Computation::Operation(Operation::Multiply);
    let two = cb_serial::compute(alloc, product, &[&roads, &roads])?;
    println!(rt; "from 1 to 4 by two roads: {}", two.get(0, 3))?;
    let far = cb_searches::distances(alloc, &roads, None, 0)?;
    println!(rt; "from 1 to 4: {}", far.get(3, 0))?;
    let steps = cb_searches::levels(alloc, &edges, None, 0)?;
    println!(rt; "roads from 1 to 4: {}", steps.get(3, 0))?;
    let islands = cb_graphs::components(alloc, &edges)?;
    println!(rt; "island of 5: {}", islands.get(4, 0))?;
    Ok(())
}
