//! Tasks on graphs, and the matrices that are graphs for them.
ghost use Rattle.std.specs.Prelude.{◌≡◌, ◌≢◌, ◌↔◌, ◌<◌, IfErr, IsTrue, OnOk, All};
ghost use Rattle.cb_operations.specs.Graphs.{AreVertices, HasColumn, HasSource, IsGraphRefusal, IsRefusal, IsSourcesRefusal, IsValuesRefusal, Suits, beside_of, semiring_of};

use crate::Refusal;
use cb_matrix::Shape;
use cb_semirings::SemiringName;

/// A task on the graph of a square matrix, in which a stored entry (i, j) is an edge from i to j. A source is a vertex, counted
/// from 0.
#[derive(Clone, Copy, PartialEq, Eq)]
pub enum GraphTask {
    /// The least number of edges from the source to each vertex.
    Levels { source: u32 },
    /// The least weight of a walk from the source to each vertex.
    Distances { source: u32 },
    /// The levels from each of several sources.
    LevelsFrom,
    /// The distances from each of several sources.
    DistancesFrom,
    /// The levels from initial values that some vertices have.
    LevelsGiven,
    /// The distances from initial values that some vertices have.
    DistancesGiven,
    /// The least parent of each vertex in a breadth-first search from the source.
    Parents { source: u32 },
    /// The least vertex of the connected component of each vertex.
    Components,
    /// The number of triangles.
    Triangles,
    /// The number of triangles that each vertex is part of.
    TriangleCounts,
    /// The number of entries in each row. The matrix may have any shape.
    RowDegrees,
    /// The number of entries in each column. The matrix may have any shape.
    ColumnDegrees,
}

/// What a task takes beside its graph.
#[derive(Clone, Copy, PartialEq, Eq)]
pub enum Beside {
    /// Nothing.
    Nothing,
    /// Several sources.
    Sources,
    /// A column over min-plus, with initial values of vertices.
    Values,
}

impl GraphTask {
    /// The semiring of its graph: min-plus if edges have weights, or else or-and.
    pub fn semiring(self) -> SemiringName
        ensures name { result ≡ semiring_of self }
        ensures two { result ≢ SemiringName.MinPlus → result ≡ SemiringName.OrAnd }
    {
        match self {
            GraphTask::Distances { .. } => SemiringName::MinPlus,
            GraphTask::DistancesFrom => SemiringName::MinPlus,
            GraphTask::DistancesGiven => SemiringName::MinPlus,
            _ => SemiringName::OrAnd,
        }
    }

    /// What it takes beside its graph.
    pub fn beside(self) -> Beside
        ensures { result ≡ beside_of self }
    {
        match self {
            GraphTask::LevelsFrom => Beside::Sources,
            GraphTask::DistancesFrom => Beside::Sources,
            GraphTask::LevelsGiven => Beside::Values,
            GraphTask::DistancesGiven => Beside::Values,
            _ => Beside::Nothing,
        }
    }

    /// Refuses the shape of a matrix that isn't a graph for it: one that isn't square, then one without its source.
    pub fn check(self, shape: Shape) -> Result<(), Refusal>
        ensures ok { OnOk result (Suits self shape) }
        ensures refused { IfErr result (IsRefusal self shape) }
    {
        match self {
            GraphTask::Levels { source } => check_graph(shape, source),
            GraphTask::Distances { source } => check_graph(shape, source),
            GraphTask::Parents { source } => check_graph(shape, source),
            GraphTask::RowDegrees => Ok(()),
            GraphTask::ColumnDegrees => Ok(()),
            _ => check_square(shape),
        }
    }
}

/// Refuses a shape that isn't square.
fn check_square(shape: Shape) -> Result<(), Refusal>
    ensures ok { OnOk result (shape.rows ≡ shape.cols) }
    ensures refused { IfErr result (λ refusal. (refusal ≡ Refusal.NotSquare) × ¬ (shape.rows ≡ shape.cols)) }
{
    if shape.rows() != shape.cols() {
        return Err(Refusal::NotSquare);
    }
    Ok(())
}

/// Refuses a shape that isn't square, then a source that isn't one of its vertices.
pub fn check_graph(shape: Shape, source: u32) -> Result<(), Refusal>
    ensures ok { OnOk result (HasSource shape source) }
    ensures refused { IfErr result (IsGraphRefusal shape source) }
{
    if shape.rows() != shape.cols() {
        return Err(Refusal::NotSquare);
    }
    if source >= shape.rows() {
        return Err(Refusal::Source);
    }
    Ok(())
}

/// Refuses sources that aren't all vertices of the graph of a square matrix.
pub fn check_sources(shape: Shape, sources: &[u32]) -> Result<(), Refusal>
    ensures ok { OnOk result (AreVertices shape sources.now) }
    ensures refused { IfErr result (IsSourcesRefusal shape sources.now) }
{
    if !are_below(shape.rows(), sources) {
        return Err(Refusal::Source);
    }
    Ok(())
}

/// Whether all numbers are below a bound.
fn are_below(bound: u32, numbers: &[u32]) -> bool
    ensures { IsTrue result ↔ All (λ v. v < bound) numbers.now }
{
    numbers.iter().all(|number| *number < bound)
}

/// Refuses initial values, by their shape, that aren't a column with a place for each vertex of the graph of a square matrix.
pub fn check_values(shape: Shape, values: Shape) -> Result<(), Refusal>
    ensures ok { OnOk result (HasColumn shape values) }
    ensures refused { IfErr result (IsValuesRefusal shape values) }
{
    if values.rows() != shape.rows() || values.cols() != 1 {
        return Err(Refusal::Shapes);
    }
    Ok(())
}
