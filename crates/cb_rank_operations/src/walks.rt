//! Levels and distances of the vertices of a graph from a source, by ranks.
//!
//! A square matrix is a graph: a stored entry (i, j) is an edge from i to j. Both are one [search](cb_searches::Search);
//! for levels each edge weighs 1.
ghost use Rattle.std.specs.Prelude.{◌≡◌, ℕ, ◌<◌, ◌*◌, [], ◌∷◌, length, slice_get, IfOk, IfErr};
ghost use Rattle.cb_semirings.specs.Tables.{min_plus};
ghost use Rattle.cb_matrix.specs.Sparse.{Sparse};
ghost use Rattle.cb_matrix.specs.Operations.{transposed};
ghost use Rattle.cb_searches.specs.Walks.{AreLevels, AreDistances};
ghost use Rattle.cb_searches.specs.Searches.{HasEdges, IsNextRound, IsSearch, IsWholeSearch};
ghost use Rattle.cb_plan_vectors.specs.SpreadVectors.{MultipliesVectors};
ghost use Rattle.cb_plan_slots.specs.Answers.{over_grid};
ghost use Rattle.cb_rank_engines.specs.EngineRuns.{IsEngineFault, IsNoLoss};
ghost use Rattle.cb_rank_engines.specs.declared.engines.Engine.TheVariants.{Threads};
ghost use Rattle.cb_operations.specs.Graphs.{HasSource};
ghost use Rattle.cb_rank_operations.specs.Outcomes.{IsLossFor};
ghost use Rattle.cb_rank_operations.specs.Searched.{DistancesAreLevels, IsWalkLoss, IsWalkRefusal, OfEachSearch};
ghost use Rattle.cb_rank_operations.specs.VectorOrders.{IsOrderedProductLoss};
ghost use Rattle.cb_rank_operations.specs.declared.operation_faults.OperationFault.TheVariants.{Failed};

use crate::products::multiply_vector_by;
use crate::{OperationFault, run};
use cb_layout::{DistributedMatrix, Grid};
use cb_matrix::{LIMIT, Matrix};
use cb_operations::{Operands, Operation, check_graph};
use cb_plan::CheckedPlan;
use cb_plan_vectors::vector_plan;
use cb_rank_crews::{Crew, Naming, Rings, hire};
use cb_rank_engines::Engine;
use cb_rank_faults::RanksFault;
use cb_rank_runs::NoObserver;
use cb_searches::Search;
use cb_semirings::{MinPlus, OrAnd, Semiring};
use std::alloc::{AllocError, Global};
use std::marker::Brand;
use std::sync::Wait;
use std::thread;
use std::thread::{Scope, Threads};

/// Returns the transpose of a matrix over a grid.
fn transposed<S: Semiring + Send + Sync, R: Threads + Wait + Sync>(
    rt: &R,
    alloc: Global,
    engine: Engine,
    grid: &Grid,
    matrix: DistributedMatrix<S>,
) -> Result<DistributedMatrix<S>, RanksFault>
    requires { matrix.side ≡ grid.now.side }
    ensures ok { IfOk result (λ m. m ≡ over_grid grid.now.side (transposed S.arithmetic matrix.matrix)) }
    ensures fault { IfErr result (IsEngineFault engine.entry (grid.now.side * grid.now.side)) }
    ensures lost { IfErr result (λ e. IsLossFor S.arithmetic engine.entry Operation.Transpose grid.now.side (matrix.matrix ∷ []) (Failed e)) }
{
    match run(
        rt,
        alloc,
        engine,
        grid,
        Operation::Transpose,
        Operands::One(matrix),
    ) {
        Ok(outcome) => Ok(outcome.answer),
        Err(OperationFault::Failed(fault)) => Err(fault),
        Err(OperationFault::Refused(_)) => unreachable!(),
    }
}

/// Returns the least weight of a walk from the source to each vertex.
fn nearest<R: Threads + Wait + Sync>(
    rt: &R,
    alloc: Global,
    engine: Engine,
    graph: DistributedMatrix<MinPlus>,
    source: u32,
) -> Result<Matrix<MinPlus>, RanksFault>
    requires { HasSource graph.matrix.shape source }
    ensures ok { IfOk result (λ column. AreDistances graph.matrix source column) }
    ensures fault { IfErr result (IsEngineFault engine.entry (graph.side * graph.side)) }
    ensures lost { IfErr result (λ e. IsWalkLoss engine.entry graph.side graph.matrix source (Failed e)) }
{
    let grid = graph.grid();
    let shape = graph.shape();
    let begun = Search::begin(alloc, shape, graph.len(), source)?;
    let turned = transposed(rt, alloc, engine, &grid, graph)?;
    let plan = vector_plan(alloc, &grid, turned.shape())?;
    let ended = search_by_ranks(rt, alloc, engine, &grid, &plan, turned, begun)?;
    let column = ended.column(alloc)?;
    Ok(column)
}

/// Makes the rounds of a search by the transposed matrix, until no number falls. If the engine is one of threads without a
/// trace, they are started once.
fn search_by_ranks<R: Threads + Wait + Sync>(
    rt: &R,
    alloc: Global,
    engine: Engine,
    grid: &Grid,
    plan: &CheckedPlan,
    edges: DistributedMatrix<MinPlus>,
    begun: Search,
) -> Result<Search, RanksFault>
    requires side { edges.side ≡ grid.now.side }
    requires plan { MultipliesVectors grid.now.side edges.matrix.shape plan.now }
    requires search { (a : Sparse) × (source : ℕ) × HasEdges edges.matrix a × IsSearch a source 0 begun }
    ensures ended { IfOk result (λ search. OfEachSearch edges.matrix begun (λ a source. (k : ℕ) × IsWholeSearch a source k search)) }
    ensures fault { IfErr result (IsEngineFault engine.entry (grid.now.side * grid.now.side)) }
    ensures lost { IfErr result (λ e. OfEachSearch edges.matrix begun (λ a source. IsWalkLoss engine.entry grid.now.side a source (Failed e))) }
{
    let Engine::Threads(letters) = engine else {
        let mut no_crew: Option<Crew<MinPlus, Brand>> = None;
        return search_on(rt, alloc, engine, &mut no_crew, grid, plan, edges, begun);
    };
    let rings = Rings::open(alloc, plan.ranks())?;
    search_over::<Brand, R>(
        rt,
        alloc,
        letters,
        rings,
        &NoObserver,
        grid,
        plan,
        edges,
        begun,
    )
}

/// The same, by a crew over these rings, and lanes of this many letters.
fn search_over<J: Naming + Send + Sync, R: Threads + Wait + Sync>(
    rt: &R,
    alloc: Global,
    letters: usize,
    rings: Rings<MinPlus>,
    observer: &NoObserver,
    grid: &Grid,
    plan: &CheckedPlan,
    edges: DistributedMatrix<MinPlus>,
    begun: Search,
) -> Result<Search, RanksFault>
    requires names { (k : ℕ) → J.ring k ≡ slice_get rings k }
    requires count { length rings ≡ grid.now.side * grid.now.side }
    requires side { edges.side ≡ grid.now.side }
    requires plan { MultipliesVectors grid.now.side edges.matrix.shape plan.now }
    requires search { (a : Sparse) × (source : ℕ) × HasEdges edges.matrix a × IsSearch a source 0 begun }
    ensures ended { IfOk result (λ search. OfEachSearch edges.matrix begun (λ a source. (k : ℕ) × IsWholeSearch a source k search)) }
    ensures fault { IfErr result (IsEngineFault (Threads letters) (grid.now.side * grid.now.side)) }
    ensures lost { IfErr result (λ e. OfEachSearch edges.matrix begun (λ a source. IsWalkLoss (Threads letters) grid.now.side a source (Failed e))) }
{
    thread::scope(
        thread::scope_env(),
        rt,
        move |scope| -> Result<Search, RanksFault>
            requires names { (k : ℕ) → J.ring k ≡ slice_get rings k }
            requires count { length rings ≡ grid.now.side * grid.now.side }
            requires side { edges.side ≡ grid.now.side }
            requires plan { MultipliesVectors grid.now.side edges.matrix.shape plan.now }
            requires search { (a : Sparse) × (source : ℕ) × HasEdges edges.matrix a × IsSearch a source 0 begun }
            ensures ended { IfOk result (λ search. OfEachSearch edges.matrix begun (λ a source. (k : ℕ) × IsWholeSearch a source k search)) }
            ensures fault { IfErr result (IsEngineFault (Threads letters) (grid.entry.now.side * grid.entry.now.side)) }
            ensures lost { IfErr result (λ e. OfEachSearch edges.matrix begun (λ a s. IsWalkLoss (Threads letters) grid.entry.now.side a s (Failed e))) }
        {
            let mut crew = Some(hired::<_, J, R>(scope, rt, alloc, rings, observer)?);
            let engine = Engine::Threads(letters);
            search_on(rt, alloc, engine, &mut crew, grid, plan, edges, begun)
        },
    )
}

/// Starts a thread for each of these rings.
fn hired<'s, E, J: Naming + Send + Sync + 's, R: Threads + Wait + Sync>(
    scope: &Scope<'s, E>,
    rt: &'s R,
    alloc: Global,
    rings: Rings<MinPlus>,
    observer: &'s NoObserver,
) -> Result<Crew<MinPlus, J>, RanksFault>
    requires names { (k : ℕ) → J.ring k ≡ slice_get rings k }
    ensures fault { IfErr result (λ e. (letters : ℕ) → IsEngineFault (Threads letters) (length rings) e) }
    ensures whole { IfErr result IsNoLoss }
{
    Ok(hire(scope, rt, alloc, rings, observer)?)
}

/// The same, by a crew if there is one.
fn search_on<J: Naming, R: Threads + Wait + Sync>(
    rt: &R,
    alloc: Global,
    engine: Engine,
    crew: &mut Option<Crew<MinPlus, J>>,
    grid: &Grid,
    plan: &CheckedPlan,
    edges: DistributedMatrix<MinPlus>,
    begun: Search,
) -> Result<Search, RanksFault>
    requires side { edges.side ≡ grid.now.side }
    requires plan { MultipliesVectors grid.now.side edges.matrix.shape plan.now }
    requires search { (a : Sparse) × (source : ℕ) × HasEdges edges.matrix a × IsSearch a source 0 begun }
    ensures ended { IfOk result (λ search. OfEachSearch edges.matrix begun (λ a source. (k : ℕ) × IsWholeSearch a source k search)) }
    ensures fault { IfErr result (IsEngineFault engine.entry (grid.now.side * grid.now.side)) }
    ensures lost { IfErr result (λ e. OfEachSearch edges.matrix begun (λ a source. IsWalkLoss engine.entry grid.now.side a source (Failed e))) }
{
    let shape = edges.shape();
    let mut turned = edges;
    let mut search = begun;
    for _round in 0..shape.rows() {
        let fell = search.fell();
        if fell.is_empty() {
            break;
        }
        let (matrix, next) = search_round(rt, alloc, engine, crew, grid, plan, turned, search)?;
        turned = matrix;
        search = next;
    }
    Ok(search)
}

/// Makes one round of a search by the transposed matrix, and returns that matrix too.
fn search_round<J: Naming, R: Threads + Wait + Sync>(
    rt: &R,
    alloc: Global,
    engine: Engine,
    crew: &mut Option<Crew<MinPlus, J>>,
    grid: &Grid,
    plan: &CheckedPlan,
    edges: DistributedMatrix<MinPlus>,
    search: Search,
) -> Result<(DistributedMatrix<MinPlus>, Search), RanksFault>
    requires side { edges.side ≡ grid.now.side }
    requires plan { MultipliesVectors grid.now.side edges.matrix.shape plan.now }
    requires search { (a : Sparse) × (source : ℕ) × (k : ℕ) × HasEdges edges.matrix a × IsSearch a source k search }
    ensures same { IfOk result (λ p. p.0 ≡ edges) }
    ensures next { IfOk result (λ p. IsNextRound (HasEdges edges.matrix) search p.1) }
    ensures fault { IfErr result (IsEngineFault engine.entry (grid.now.side * grid.now.side)) }
    ensures lost { IfErr result (IsOrderedProductLoss min_plus engine.entry grid.now.side plan.now edges.matrix search.fell) }
{
    let fell = search.fell();
    let reached = multiply_vector_by(rt, alloc, engine, crew, grid, plan, edges, fell)?;
    let next = search.advance(alloc, &reached.product)?;
    Ok((reached.matrix, next))
}

/// Returns the matrix as one of weights, in which distances are levels: each stored value is 1 already. No entry is
/// copied.
pub fn weighted(
    alloc: Global,
    graph: DistributedMatrix<OrAnd>,
) -> Result<DistributedMatrix<MinPlus>, AllocError>
    ensures same { IfOk result (λ m. m ≡ graph) }
    ensures levels { IfOk result (λ m. DistancesAreLevels m.matrix graph.matrix) }
{
    prove!(graph.shape().rows() <= LIMIT);
    graph.recast(alloc)
}

/// Returns the distance of each vertex from a source: the least weight of a walk. The weight of a walk is the sum of its
/// entries' values, saturated at 2^64-1. Vertices without a walk, or at an infinite distance, are not stored.
///
/// A shape that isn't square, then a source that isn't a vertex, are refused before memory is requested. The blocks of the
/// matrix are moved to the ranks, and the matrix is transposed once. Each round is one run of the ranks, over the entries
/// of the vertices whose distance fell in the round before. There are at most as many rounds as vertices.
pub fn distances<R: Threads + Wait + Sync>(
    rt: &R,
    alloc: Global,
    engine: Engine,
    graph: DistributedMatrix<MinPlus>,
    source: u32,
) -> Result<Matrix<MinPlus>, OperationFault>
    ensures ok { IfOk result (λ column. AreDistances graph.matrix source column) }
    ensures agree { IfOk result (λ column. HasSource graph.matrix.shape source) }
    ensures fault { IfErr result (IsWalkRefusal engine.entry graph.side graph.matrix.shape source) }
    ensures lost { IfErr result (IsWalkLoss engine.entry graph.side graph.matrix source) }
{
    check_graph(graph.shape(), source)?;
    Ok(nearest(rt, alloc, engine, graph, source)?)
}

/// Returns the level of each vertex from a source: the least number of entries of a walk. Vertices without a walk are not
/// stored.
///
/// Refusals and cost are those of [`distances`]; the level of a vertex is its distance if each entry weighs 1. This is the
/// breadth-first search of Buluç and Gilbert, The Combinatorial BLAS (IJHPCA 2011), section 5.
pub fn levels<R: Threads + Wait + Sync>(
    rt: &R,
    alloc: Global,
    engine: Engine,
    graph: DistributedMatrix<OrAnd>,
    source: u32,
) -> Result<Matrix<MinPlus>, OperationFault>
    ensures ok { IfOk result (λ column. AreLevels graph.matrix source column) }
    ensures agree { IfOk result (λ column. HasSource graph.matrix.shape source) }
    ensures fault { IfErr result (IsWalkRefusal engine.entry graph.side graph.matrix.shape source) }
    ensures lost { IfErr result (IsWalkLoss engine.entry graph.side graph.matrix source) }
{
    check_graph(graph.shape(), source)?;
    let weighted = weighted(alloc, graph)?;
    Ok(nearest(rt, alloc, engine, weighted, source)?)
}
