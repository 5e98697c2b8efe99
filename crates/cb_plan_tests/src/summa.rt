//! The plans of products over grids.
use crate::kernels::has_acts_or_no_memory;
use crate::samples::grid_of;
use cb_plan::{Act, Op, Planned};
use cb_plan_summa::{summa, summa_masked};
use cb_samples::{SampleFault, shape};
use std::alloc::Global;
use std::test::Fail;

/// The plan of the product of two 2 by 2 matrices on the grid of this side.
fn two_by_two(alloc: Global, side: u32) -> Result<Planned, SampleFault> {
    let grid = grid_of(side)?;
    let shape = shape(2, 2)?;
    match summa(alloc, &grid, shape, shape) {
        Ok(planned) => Ok(planned),
        Err(_) => Err(SampleFault::Shape),
    }
}

/// How many letters a plan has: its Moves and its Shuts.
fn letters(planned: &Planned) -> usize {
    let (acts, _) = planned.plan.stored();
    let works = acts
        .iter()
        .filter(|act| matches!(act, Act::Work { .. }))
        .count();
    planned.plan.len().saturating_sub(works)
}

/// Whether the plan on the grid of this side has this many acts, this many of them letters, and its result in slot 2.
fn has_counts(alloc: Global, side: u32, acts: usize, posted: usize) -> Result<bool, SampleFault> {
    let planned = two_by_two(alloc, side)?;
    let has_acts = planned.plan.len() == acts && planned.result == 2;
    Ok(has_acts && letters(&planned) == posted)
}

/// The side of a grid, and how many acts and letters the plan has there.
const COUNTS: &[(u32, usize, usize)] = &[
    (2, 40, 20),
    (4, 448, 336),
    (5, 1000, 800),
    (6, 1944, 1620),
    (7, 3430, 2940),
    (8, 5632, 4928),
];

#[test]
fn acts_and_letters_on_grids(rt: HostRuntime) {
    for (side, acts, posted) in COUNTS {
        assert!(rt; has_counts(rt.alloc(), *side, *acts, *posted) == Ok(true));
    }
}

/// The Moves of the plan of a product on the grid of side 2: from, to, tag, slot and into.
const MOVES: &[(u16, u16, u32, u16, u16)] = &[
    (0, 1, 0, 0, 3),
    (2, 3, 0, 0, 3),
    (0, 2, 1, 1, 4),
    (1, 3, 1, 1, 4),
    (1, 0, 2, 0, 5),
    (3, 2, 2, 0, 5),
    (2, 0, 3, 1, 6),
    (3, 1, 3, 1, 6),
];

/// Whether these acts have exactly those Moves.
fn has_moves(acts: &[Act]) -> bool {
    let mut count = 0usize;
    for act in acts {
        if let Act::Move {
            from,
            to,
            tag,
            slot,
            into,
        } = act
        {
            let found = (*from, *to, tag.0, *slot, *into);
            if MOVES.get(count) != Some(&found) {
                return false;
            }
            count = count.saturating_add(1);
        }
    }
    count == MOVES.len()
}

/// Whether the plan on the grid of side 2 has those Moves.
fn has_moves_on_four(alloc: Global) -> Result<bool, SampleFault> {
    let planned = two_by_two(alloc, 2)?;
    Ok(has_moves(planned.plan.stored().0))
}

#[test]
fn moves_on_a_grid_of_side_2(rt: HostRuntime) {
    assert!(rt; has_moves_on_four(rt.alloc()) == Ok(true));
}

/// How many of these acts are masks.
fn masks(acts: &[Act]) -> usize {
    let mut masks = 0usize;
    for act in acts {
        if matches!(
            act,
            Act::Work {
                op: Op::Mask {
                    a: 2,
                    m: 7,
                    into: 2
                },
                ..
            }
        ) {
            masks = masks.saturating_add(1);
        }
    }
    masks
}

/// How many acts the plan under a mask has on the grid of side 2, and how many of them are masks.
fn acts_and_masks(alloc: Global) -> Result<(usize, usize), SampleFault> {
    let grid = grid_of(2)?;
    let shape = shape(2, 2)?;
    match summa_masked(alloc, &grid, shape, shape) {
        Ok(planned) => Ok((planned.plan.len(), masks(planned.plan.stored().0))),
        Err(_) => Err(SampleFault::Shape),
    }
}

#[test]
fn acts_under_a_mask(rt: HostRuntime) {
    assert!(rt; acts_and_masks(rt.alloc()) == Ok((44, 4)));
}

/// Passes whichever single allocation is refused (`rt try --test --fail-alloc N`, for each N in turn): the call reports it,
/// or its plan is right.
#[test]
fn refused_memory_is_reported(rt: HostRuntime) -> Result<(), Fail> {
    let grid = grid_of(2)?;
    let shape = shape(2, 2)?;
    let plain = summa(rt.alloc(), &grid, shape, shape);
    assert!(rt; has_acts_or_no_memory(plain, 40));
    let masked = summa_masked(rt.alloc(), &grid, shape, shape);
    assert!(rt; has_acts_or_no_memory(masked, 44));
    Ok(())
}
