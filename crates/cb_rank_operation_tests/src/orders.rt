//! A worked product in several orders of events, on grids of several sides; and ranks that are starved.
use crate::examples::{AGREEING, Given, PRODUCT, Sample, grid, has, made, matrices, matrix};
use cb_layout::{DistributedMatrix, Grid};
use cb_matrix::Matrix;
use cb_operations::Operation;
use cb_rank_engines::Engine;
use cb_rank_faults::RanksFault;
use cb_rank_operations::{OperationFault, distances, levels};
use cb_rank_world::Event;
use cb_semirings::{MinPlus, Semiring};
use std::alloc::Global;
use std::sync::Wait;
use std::thread::Threads;

const SIDES: [u32; 3] = [1, 2, 3];

/// A hundred rounds, each with an event of every rank, from the last rank to the first. One rank may be starved.
fn backwards(alloc: Global, ranks: u16, starved: Option<u16>) -> Option<Vec<Event>> {
    let mut order = Vec::new(alloc);
    for _ in 0..100 {
        for rank in (0..ranks).rev() {
            let event = if starved == Some(rank) {
                Event::Starve(rank)
            } else {
                Event::Step(rank)
            };
            order.push(event).ok()?;
        }
    }
    Some(order)
}

/// Whether the product is right in an order of events, over lanes for this many letters.
fn makes<R: Threads + Wait + Sync>(
    rt: &R,
    alloc: Global,
    grid: &Grid,
    given: &Given,
    letters: usize,
    order: &[Event],
) -> bool {
    let engine = Engine::InOrder(letters, order);
    match made(rt, alloc, engine, grid, given, Operation::Multiply) {
        Ok(answer) => has(&answer, &PRODUCT),
        Err(_) => false,
    }
}

/// Whether it is right without events, in rounds from the last rank to the first, and if each rank in turn has all events.
fn makes_in_any_order<R: Threads + Wait + Sync>(rt: &R, alloc: Global, side: u32) -> Option<bool> {
    let grid = grid(side)?;
    let given = matrices(alloc, &AGREEING)?;
    let rounds = backwards(alloc, grid.ranks(), None)?;
    let mut as_expected = makes(rt, alloc, &grid, &given, 64, &[]);
    as_expected &= makes(rt, alloc, &grid, &given, 1, &rounds);
    for rank in 0..grid.ranks() {
        as_expected &= makes(rt, alloc, &grid, &given, 2, &[Event::Step(rank); 40]);
    }
    Some(as_expected)
}

#[test]
fn any_order_makes_the_product(rt: HostRuntime) {
    for side in &SIDES {
        assert!(rt;
            makes_in_any_order(&rt, rt.alloc(), *side) == Some(true),
            "{side}"
        );
    }
}

/// A path from vertex 0 to 2 and back, and a loop at 3.
const PATH: Sample = (4, 4, &[(0, 1, 1), (1, 2, 1), (2, 0, 1), (3, 3, 1)]);

/// The path over a grid.
fn path<S: Semiring>(alloc: Global, grid: &Grid) -> Option<DistributedMatrix<S>> {
    let path = matrix(alloc, &PATH)?;
    DistributedMatrix::scatter(alloc, *grid, &path).ok()
}

/// The rank at which a block of an answer is lost.
fn lost_at(made: Result<Matrix<MinPlus>, OperationFault>) -> Option<u16> {
    match made {
        Err(OperationFault::Failed(RanksFault::Lost { rank, .. })) => Some(rank),
        _ => None,
    }
}

/// The ranks at which a block is lost in an order of events: of a product, of the product by a column, and of the levels
/// and the distances of the path.
fn losses<R: Threads + Wait + Sync>(
    rt: &R,
    alloc: Global,
    grid: &Grid,
    given: &Given,
    order: &[Event],
) -> Option<[Option<u16>; 4]> {
    let engine = Engine::InOrder(1, order);
    let product = lost_at(made(rt, alloc, engine, grid, given, Operation::Multiply));
    let vector = lost_at(made(rt, alloc, engine, grid, given, Operation::MultiplyVector));
    let unweighted = path(alloc, grid)?;
    let levels = lost_at(levels(rt, alloc, engine, unweighted, 0));
    let weighted = path(alloc, grid)?;
    let distances = lost_at(distances(rt, alloc, engine, weighted, 0));
    Some([product, vector, levels, distances])
}

/// Whether each rank of the grid of this side is named if it is starved, whatever is made.
fn are_named<R: Threads + Wait + Sync>(rt: &R, alloc: Global, side: u32) -> Option<bool> {
    let grid = grid(side)?;
    let given = matrices(alloc, &AGREEING)?;
    for rank in 0..grid.ranks() {
        let order = backwards(alloc, grid.ranks(), Some(rank))?;
        if losses(rt, alloc, &grid, &given, &order)? != [Some(rank); 4] {
            return Some(false);
        }
    }
    Some(true)
}

#[test]
fn a_starved_rank_is_named(rt: HostRuntime) {
    for side in &SIDES {
        assert!(rt; are_named(&rt, rt.alloc(), *side) == Some(true), "{side}");
    }
}
