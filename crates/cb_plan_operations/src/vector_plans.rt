//! A matrix times a vector that is spread over all ranks.
//!
//! Rank (t, j) has piece t of part j of the vector. The pieces of part j go down column j of ranks, where each rank
//! assembles the part and multiplies its block by it. The products in row i of ranks are the summands of part i of the
//! result. Each is cut into pieces; rank (i, t) receives piece t of each and adds them up.
ghost use Rattle.std.specs.Prelude.{◌≡◌, ◌<◌, ◌≤◌, ◌+◌, ◌-◌, ◌*◌, ◌/◌, ◌%◌, ◌++◌, ℕ, List, map, flat_map, All, AllPairs, IfOk, IfErr, OnOk};
ghost use Rattle.std.specs.List.{range_with_len};
ghost use Rattle.cb_plan.specs.Runnable.{IsRunnable};
ghost use Rattle.cb_plan.specs.Plans.{IsElsewhere};
ghost use Rattle.cb_plan.specs.declared.stores.TheConstants.{SLOTS};
ghost use Rattle.cb_grid.specs.Parts.{part_length};
ghost use Rattle.cb_grid.specs.Pieces.{piece_shape};
ghost use Rattle.cb_plan_parts.specs.declared.TheConstants.{RESULT};
ghost use Rattle.cb_plan_parts.specs.Growth.{IsWithinLimit, Grew, no_memory};
ghost use Rattle.cb_plan_operations.specs.VectorPlans.{column, vector_starts_at, vector_starts, works, each_works, vector_acts, IsVectorPlan};
ghost use Rattle.cb_plan_operations.specs.VectorPlans.{piece_broadcast, part_broadcasts, piece_broadcasts, add_piece, product_ops, products_at};
ghost use Rattle.cb_plan_operations.specs.VectorPlans.{piece_cut, cut_ops, cuts_at, exchange, exchanges, next_summand, sum_ops, spread_product_acts};

use cb_grid::{Grid, LARGEST_SIDE};
use cb_letters::Tag;
use cb_matrix::Shape;
use cb_plan::{Act, Op, Plan, PlanFault, Planned, Start};
use cb_plan_parts::{LEFT, RESULT, RIGHT, all_to_all, broadcast, finish};
use std::alloc::{AllocError, Global};

/// The slot in which a rank assembles its part of the vector.
const PART: u16 = 3;

/// The slot of a piece at its place in the part.
const PLACED: u16 = 4;

/// The slot of the product of a rank's block and its part of the vector.
const PRODUCT: u16 = 5;

/// The first of the slots in which a rank receives the pieces of its part. From this and from each of the next two there are
/// as many slots as the largest grid has rows.
pub(crate) const PIECES: u16 = 10;

/// The first of the slots for the pieces of a rank's product.
const CUTS: u16 = 80;

/// The first of the slots in which a rank receives its summands.
pub(crate) const SUMMANDS: u16 = 150;

/// The plan of a matrix of this shape times a vector. The vector and the result are spread over all ranks: piece t of part
/// j of the vector is in slot 1 of rank (t, j) before the first act, and piece t of part i of the result is in slot 2 of
/// rank (i, t) after the last.
///
/// On a grid of side q each rank sends and receives about 2(q-1) pieces. This is the product of Buluç and Gilbert, The
/// Combinatorial BLAS (IJHPCA 2011), section 4.
pub fn grid_vector(alloc: Global, grid: &Grid, a: Shape) -> Result<Planned, PlanFault>
    ensures ranks { IfOk result (λ p. p.plan.ranks ≡ grid.now.side * grid.now.side) }
    ensures starts { IfOk result (λ p. p.starts.items ≡ vector_starts grid.now.side a) }
    ensures acts { IfOk result (λ p. p.plan.acts ≡ vector_acts grid.now.side a) }
    ensures slot { IfOk result (λ p. p.result ≡ RESULT) }
    ensures runnable { IfOk result (λ p. IsRunnable p) }
    ensures product { IfOk result (λ p. IsVectorPlan p.plan.acts grid.now.side a) }
    ensures fault { IfErr result (λ e. e ≡ no_memory) }
{
    let mut plan = Plan::new(alloc, grid.ranks());
    multiply_spread(&mut plan, alloc, grid, a)?;
    let Ok(starts) = vector_starts(alloc, grid, a) else {
        return Err(PlanFault::from(AllocError));
    };
    finish(grid, plan, starts, RESULT)
}

/// The starts of the plan: rank by rank, its part of the matrix and its piece of the vector.
fn vector_starts(alloc: Global, grid: &Grid, a: Shape) -> Result<Vec<Start>, AllocError>
    ensures starts { IfOk result (λ v. v.items ≡ vector_starts grid.now.side a) }
    ensures exist { IfOk result (λ v. All (λ s. (s.rank < grid.now.side * grid.now.side) × (s.slot < SLOTS)) v.items) }
    ensures once { IfOk result (λ v. AllPairs IsElsewhere v.items) }
{
    let mut starts = Vec::new(alloc);
    for rank in 0..grid.ranks() {
        push_starts(&mut starts, grid, rank, a)?;
    }
    Ok(starts)
}

/// Appends the starts of one rank.
fn push_starts(starts: &mut Vec<Start>, grid: &Grid, rank: u16, a: Shape) -> Result<(), AllocError>
    requires { rank < grid.now.side * grid.now.side }
    ensures { OnOk result (starts.new.items ≡ starts.old.items ++ vector_starts_at grid.now.side a rank) }
{
    starts.push(Start {
        rank,
        slot: LEFT,
        shape: grid.block_shape(a, rank),
    })?;
    starts.push(Start {
        rank,
        slot: RIGHT,
        shape: input_shape(grid, rank, a),
    })?;
    Ok(())
}

/// The shape of a rank's piece of the vector.
fn input_shape(grid: &Grid, rank: u16, a: Shape) -> Shape
    requires { rank < grid.now.side * grid.now.side }
    ensures { result ≡ piece_shape grid.now.side (column a.cols) (rank % grid.now.side) (rank / grid.now.side) }
{
    let side = grid.side();
    let part = grid.part_length(a.cols(), u32::from(rank) % side);
    let rows = grid.part_length(part, u32::from(rank) / side);
    Shape::new(rows, 1).unwrap()
}

/// Leaves in slot 2 of each rank its piece of the product.
fn multiply_spread(plan: &mut Plan, alloc: Global, grid: &Grid, a: Shape) -> Result<(), PlanFault>
    requires { IsWithinLimit plan.now (spread_product_acts grid.now.side a) }
    ensures acts { OnOk result (Grew (spread_product_acts grid.now.side a) plan.old plan.new) }
    ensures fault { IfErr result (λ e. e ≡ no_memory) }
{
    broadcast_pieces(plan, alloc, grid)?;
    multiply_blocks(plan, grid, a)?;
    cut_products(plan, grid, a)?;
    exchange_pieces(plan, alloc, grid)?;
    add_summands(plan, grid)
}

/// Broadcasts each piece of the vector down its column of ranks.
pub(crate) fn broadcast_pieces(plan: &mut Plan, alloc: Global, grid: &Grid) -> Result<(), PlanFault>
    requires { IsWithinLimit plan.now (piece_broadcasts grid.now.side) }
    ensures acts { OnOk result (Grew (piece_broadcasts grid.now.side) plan.old plan.new) }
    ensures fault { IfErr result (λ e. e ≡ no_memory) }
{
    for j in 0..grid.side() {
        broadcast_part(plan, alloc, grid, j)?;
    }
    Ok(())
}

/// Broadcasts each piece of part j down column j of ranks.
fn broadcast_part(plan: &mut Plan, alloc: Global, grid: &Grid, j: u32) -> Result<(), PlanFault>
    requires column { j < grid.now.side }
    requires limit { IsWithinLimit plan.now (part_broadcasts grid.now.side j) }
    ensures acts { OnOk result (Grew (part_broadcasts grid.now.side j) plan.old plan.new) }
    ensures fault { IfErr result (λ e. e ≡ no_memory) }
{
    for t in 0..grid.side() {
        let group = grid.column_group(alloc, j);
        let root = grid.rank(t, j);
        broadcast(
            plan,
            group.as_slice(),
            root,
            Tag(t),
            RIGHT,
            PIECES + t as u16,
        )?;
    }
    Ok(())
}

/// Each rank multiplies its block by its part of the vector.
fn multiply_blocks(plan: &mut Plan, grid: &Grid, a: Shape) -> Result<(), PlanFault>
    requires { IsWithinLimit plan.now (each_works grid.now.side (products_at grid.now.side a)) }
    ensures acts { OnOk result (Grew (each_works grid.now.side (products_at grid.now.side a)) plan.old plan.new) }
    ensures fault { IfErr result (λ e. e ≡ no_memory) }
{
    for rank in 0..grid.ranks() {
        let part = part_of_vector(grid, rank, a);
        multiply_block(plan, grid, rank, part)?;
    }
    Ok(())
}

/// The shape of a rank's part of the vector.
fn part_of_vector(grid: &Grid, rank: u16, a: Shape) -> Shape
    requires { rank < grid.now.side * grid.now.side }
    ensures { result ≡ column (part_length grid.now.side a.cols (rank % grid.now.side)) }
{
    let rows = grid.part_length(a.cols(), u32::from(rank) % grid.side());
    Shape::new(rows, 1).unwrap()
}

/// A rank assembles its part of the vector, of this shape, and multiplies its block by it.
fn multiply_block(plan: &mut Plan, grid: &Grid, rank: u16, part: Shape) -> Result<(), PlanFault>
    requires { IsWithinLimit plan.now (works rank (product_ops grid.now.side part)) }
    ensures acts { OnOk result (Grew (works rank (product_ops grid.now.side part)) plan.old plan.new) }
    ensures fault { IfErr result (λ e. e ≡ no_memory) }
{
    let zero = Op::Zero {
        into: PART,
        shape: part,
    };
    work(plan, rank, &[zero])?;
    add_pieces(plan, grid, rank, part)?;
    let product = Op::MulVec {
        a: LEFT,
        x: PART,
        into: PRODUCT,
    };
    work(plan, rank, &[product])
}

/// A rank adds the pieces to its part of the vector, each at its place.
fn add_pieces(plan: &mut Plan, grid: &Grid, rank: u16, part: Shape) -> Result<(), PlanFault>
    requires { IsWithinLimit plan.now (works rank (flat_map (add_piece grid.now.side part) (range_with_len 0 grid.now.side))) }
    ensures acts { OnOk result (Grew (works rank (flat_map (add_piece grid.now.side part) (range_with_len 0 grid.now.side))) plan.old plan.new) }
    ensures fault { IfErr result (λ e. e ≡ no_memory) }
{
    for t in 0..grid.side() {
        let (start, _) = grid.range(part.rows(), t);
        let place = Op::Place {
            a: PIECES + t as u16,
            shape: part,
            at: (start, 0),
            into: PLACED,
        };
        let add = Op::Add {
            a: PART,
            b: PLACED,
            into: PART,
        };
        work(plan, rank, &[place, add])?;
    }
    Ok(())
}

/// Each rank cuts its product into pieces.
fn cut_products(plan: &mut Plan, grid: &Grid, a: Shape) -> Result<(), PlanFault>
    requires { IsWithinLimit plan.now (each_works grid.now.side (cuts_at grid.now.side a)) }
    ensures acts { OnOk result (Grew (each_works grid.now.side (cuts_at grid.now.side a)) plan.old plan.new) }
    ensures fault { IfErr result (λ e. e ≡ no_memory) }
{
    for rank in 0..grid.ranks() {
        let rows = grid.part_length(a.rows(), u32::from(rank) / grid.side());
        cut_product(plan, grid, rank, rows)?;
    }
    Ok(())
}

/// A rank cuts its product, of this many rows, into pieces.
fn cut_product(plan: &mut Plan, grid: &Grid, rank: u16, rows: u32) -> Result<(), PlanFault>
    requires { IsWithinLimit plan.now (works rank (cut_ops grid.now.side rows)) }
    ensures acts { OnOk result (Grew (works rank (cut_ops grid.now.side rows)) plan.old plan.new) }
    ensures fault { IfErr result (λ e. e ≡ no_memory) }
{
    for t in 0..grid.side() {
        let cut = Op::Cut {
            a: PRODUCT,
            rows: grid.range(rows, t),
            cols: (0, 1),
            into: CUTS + t as u16,
        };
        work(plan, rank, &[cut])?;
    }
    Ok(())
}

/// In each row of ranks, each rank receives its piece of each product.
fn exchange_pieces(plan: &mut Plan, alloc: Global, grid: &Grid) -> Result<(), PlanFault>
    requires { IsWithinLimit plan.now (exchanges grid.now.side) }
    ensures acts { OnOk result (Grew (exchanges grid.now.side) plan.old plan.new) }
    ensures fault { IfErr result (λ e. e ≡ no_memory) }
{
    for i in 0..grid.side() {
        let group = grid.row_group(alloc, i);
        all_to_all(plan, group.as_slice(), Tag(LARGEST_SIDE), CUTS, SUMMANDS)?;
    }
    Ok(())
}

/// Each rank adds up the pieces that it received.
fn add_summands(plan: &mut Plan, grid: &Grid) -> Result<(), PlanFault>
    requires { IsWithinLimit plan.now (each_works grid.now.side (λ _. sum_ops grid.now.side)) }
    ensures acts { OnOk result (Grew (each_works grid.now.side (λ _. sum_ops grid.now.side)) plan.old plan.new) }
    ensures fault { IfErr result (λ e. e ≡ no_memory) }
{
    for rank in 0..grid.ranks() {
        add_up(plan, grid, rank)?;
    }
    Ok(())
}

/// A rank adds up the pieces that it received.
pub(crate) fn add_up(plan: &mut Plan, grid: &Grid, rank: u16) -> Result<(), PlanFault>
    requires { IsWithinLimit plan.now (works rank (sum_ops grid.now.side)) }
    ensures acts { OnOk result (Grew (works rank (sum_ops grid.now.side)) plan.old plan.new) }
    ensures fault { IfErr result (λ e. e ≡ no_memory) }
{
    let first = Op::Copy {
        a: SUMMANDS,
        into: RESULT,
    };
    work(plan, rank, &[first])?;
    add_others(plan, grid, rank)
}

/// A rank adds the other pieces that it received to the first.
fn add_others(plan: &mut Plan, grid: &Grid, rank: u16) -> Result<(), PlanFault>
    requires { IsWithinLimit plan.now (works rank (map next_summand (range_with_len 0 (grid.now.side - 1)))) }
    ensures acts { OnOk result (Grew (works rank (map next_summand (range_with_len 0 (grid.now.side - 1)))) plan.old plan.new) }
    ensures fault { IfErr result (λ e. e ≡ no_memory) }
{
    for s in 0..grid.side() - 1 {
        let add = Op::Add {
            a: RESULT,
            b: SUMMANDS + 1 + s as u16,
            into: RESULT,
        };
        work(plan, rank, &[add])?;
    }
    Ok(())
}

/// A rank does operations, one after the other.
pub(crate) fn work(plan: &mut Plan, rank: u16, ops: &[Op]) -> Result<(), PlanFault>
    requires { IsWithinLimit plan.now (works rank ops.now) }
    ensures acts { OnOk result (Grew (works rank ops.now) plan.old plan.new) }
    ensures fault { IfErr result (λ e. e ≡ no_memory) }
{
    plan.make_room(ops.len())?;
    for op in ops {
        plan.push(Act::Work { rank, op: *op })?;
    }
    Ok(())
}
