//! The products that the next halves of a program add to one slot.
ghost use Rattle.std.specs.Prelude.{◌≤◌, length, IfOk, IfSome};
ghost use Rattle.cb_rank.specs.AddedProducts.{AddsProduct, AddProducts};

use cb_plan::{Half, Op};
use std::alloc::{AllocError, Global};

/// Products that are added to a slot, one after the other, by the slots of their factors.
#[derive(Drop)]
pub(crate) struct NextProducts {
    pub(crate) factors: Vec<(u16, u16)>,
    pub(crate) acc: u16,
}

impl NextProducts {
    /// What the first of these halves add to the same slot: as many as add a product to it, from factors in other slots. None
    /// if these are fewer than two, or if memory is refused.
    pub(crate) fn of(alloc: Global, halves: &[Half]) -> Option<NextProducts>
        ensures products { IfSome result (λ next. AddProducts halves.now next.acc next.factors.items) }
        ensures several { IfSome result (λ next. 2 ≤ length next.factors.items) }
    {
        let [Half::Work(Op::MulAdd { acc, .. }), second, ..] = halves else {
            return None;
        };
        // For a product that is alone no list is made.
        factors_of(second, *acc)?;
        let factors = first_factors(alloc, halves, *acc).ok()?;
        if factors.len() < 2 {
            return None;
        }
        Some(NextProducts { factors, acc: *acc })
    }
}

/// The factors of the products that these halves add to a slot, up to the first half that doesn't.
fn first_factors(alloc: Global, halves: &[Half], acc: u16) -> Result<Vec<(u16, u16)>, AllocError>
    ensures { IfOk result (λ factors. AddProducts halves.now acc factors.items) }
{
    let mut factors = Vec::new(alloc);
    for half in halves {
        let Some(pair) = factors_of(half, acc) else {
            break;
        };
        factors.push(pair)?;
    }
    Ok(factors)
}

/// The slots of the factors of the product that a half adds to a slot. None if it does anything else, or if a factor is in
/// that slot.
fn factors_of(half: &Half, acc: u16) -> Option<(u16, u16)>
    ensures { IfSome result (AddsProduct acc half.now) }
{
    let Half::Work(Op::MulAdd { a, b, acc: sum }) = *half else {
        return None;
    };
    if sum != acc || sum == a || sum == b {
        return None;
    }
    Some((a, b))
}
