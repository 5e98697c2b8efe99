//! How many acts and letters the plans of processes have, on grids of several sides: those for reading a text, for a product and
//! for writing an answer. A line has the plan, the side, the ranks, the acts that the plan stores (without those that shut the
//! lanes), its letters, the most letters that one rank posts, and the most that one takes. An example of how a program makes plans and reads them.
#![tactic(auto)]

use anyhow::Context;
use cb_grid::Grid;
use cb_matrix::Shape;
use cb_plan::{Act, CheckedPlan};
use cb_plan_summa::summa;
use cb_plan_transfers::{panels_plan, pieces_plan};
use std::alloc::{AllocError, Global};

/// The sides that the lines are about.
const SIDES: [u32; 9] = [1, 2, 3, 4, 6, 8, 16, 32, 64];

/// The rows and the columns of the matrices. The plans of others have as many acts.
const LENGTH: u32 = 1_000_000;

/// The letters of a plan: all, the most that one rank posts, and the most that one takes.
#[derive(Clone, Copy)]
struct Letters {
    all: usize,
    posted: u32,
    taken: u32,
}

/// Adds one to the count of a rank, if it has one, and to the greatest of all if that is exceeded.
fn count(counts: &mut [u32], rank: u16, greatest: &mut u32) {
    if let Some(known) = counts.get_mut(rank as usize) {
        *known = known.saturating_add(1);
        *greatest = (*greatest).max(*known);
    }
}

/// The letters of some acts of so many ranks.
fn letters_of(alloc: Global, ranks: u16, acts: &[Act]) -> Result<Letters, AllocError> {
    let mut posts = vec![in alloc; 0u32; ranks as usize]?;
    let mut takes = vec![in alloc; 0u32; ranks as usize]?;
    let all = acts
        .iter()
        .filter(|act| matches!(act, Act::Move { .. }))
        .count();
    let (mut posted, mut taken) = (0, 0);
    for act in acts {
        if let Act::Move { from, to, .. } = *act {
            count(&mut posts, from, &mut posted);
            count(&mut takes, to, &mut taken);
        }
    }
    Ok(Letters { all, posted, taken })
}

/// Prints the line of a plan.
fn show(rt: &HostRuntime, name: &str, side: u32, plan: &CheckedPlan) -> anyhow::Result<()> {
    let (acts, _closes) = plan.stored();
    let letters = letters_of(rt.alloc(), plan.ranks(), acts)?;
    let (all, posted, taken) = (letters.all, letters.posted, letters.taken);
    println!(rt;
        "{name}: side {side}, {} ranks, {} acts, {all} letters, {posted} and {taken}",
        plan.ranks(),
        acts.len()
    )?;
    Ok(())
}

/// Prints the lines of the plans of a side.
fn show_side(rt: &HostRuntime, side: u32) -> anyhow::Result<()> {
    let alloc = rt.alloc();
    let grid = Grid::new(side)?;
    let shape = Shape::new(LENGTH, LENGTH).context("past the limit")?;
    show(rt, "reading", side, &pieces_plan(alloc, &grid, shape)?.0)?;
    show(
        rt,
        "product",
        side,
        &summa(alloc, &grid, shape, shape)?.into_checked().0,
    )?;
    show(rt, "writing", side, &panels_plan(alloc, &grid, shape)?.0)
}

fn main(rt: HostRuntime) -> anyhow::Result<()> {
    for side in SIDES {
        show_side(&rt, side)?;
    }
    Ok(())
}
