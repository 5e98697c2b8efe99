//! Breadth-first search, in either direction.
//!
//! A round gives the next number to each vertex that has none and to which an edge leads from one that has. From the
//! top down it follows the edges from the vertices that the round before reached. From the bottom up it looks at each
//! vertex without a number: column v of the block lists where the edges to v come from, and it is read up to the first
//! row that a round before reached. While few vertices have numbers, it reads the rows of all entries in order instead,
//! which is faster where nearly all columns would be read to their ends. Each round takes the direction in which it has
//! less to read: up where many vertices were just reached, so that such a row comes soon, and otherwise down. A round
//! down needs the vertices that the last round reached, in a queue, to which it appends those that it reaches. Rounds
//! up need the numbers alone: after the last of them the queue is made from the numbers.
//!
//! This is the search of Beamer, Asanović and Patterson, Direction-Optimizing Breadth-First Search (SC 2012).
ghost use Rattle.std.specs.Prelude.{◌≡◌, ℕ, ◌+◌, ◌<◌, ◌≤◌, [], ◌∷◌, length, slice_index, take, All, Contains, IfNone, IfOk, IfSome, OnOk};
ghost use Rattle.cb_semirings.specs.Tables.{or_and};
ghost use Rattle.cb_matrix.specs.Sparse.{Sparse};
ghost use Rattle.cb_matrix.specs.Operations.{transposed};
ghost use Rattle.cb_searches.specs.Walks.{infinite};
ghost use Rattle.cb_searches.specs.Numbers.{listed_at, number_at, AreNumbers};
ghost use Rattle.cb_searches.specs.BreadthFirst.{AreLevelNumbers, AreLevelsWithin, AreRounds, HasTurned, HaveClaimed, IsReaching};

use crate::dijkstra::edges_of;
use crate::numbers::Numbers;
use cb_dcsc::Block;
use cb_semirings::OrAnd;
use std::alloc::{AllocError, Global};

/// The most columns for each vertex that was just reached with which a round goes up.
const COLUMNS_PER_REACHED: usize = 32;

/// The most entries for each edge from those vertices with which a round goes up.
const ENTRIES_PER_EDGE: usize = 4;

/// The looks for each entry with which rounds up are given up, if the transpose has yet to be made. Those of a round that
/// [grows fast](grows_fast) don't count.
const LOOKS_PER_ENTRY: usize = 5;

/// How often each look of a slow round counts: one by entries that reaches at most twice as many vertices as the one before.
const SLOW_ROUND: usize = 4;

/// The levels of the vertices from a source, in the graph of a square block, given its transpose if the caller has it.
///
/// Otherwise rounds go up at first, as the block is. After five looks for each entry in rounds that don't grow fast enough to
/// reach all vertices in two more, sooner if they grow slowly, or at once if the numbers aren't in a list, the block is
/// transposed, and the other rounds are made as [`breadth_first`] does.
pub(crate) fn level_numbers(
    alloc: Global,
    graph: &Block<OrAnd>,
    turned: Option<&Block<OrAnd>>,
    source: u32,
) -> Result<Numbers, AllocError>
    requires square { graph.now.shape.rows ≡ graph.now.shape.cols }
    requires source { source < graph.now.shape.rows }
    requires turned { IfSome turned (λ t. t.now ≡ transposed or_and graph.now) }
    ensures numbers { IfOk result (AreNumbers graph.now.shape.rows) }
    ensures levels { IfOk result (λ known. AreLevelNumbers graph.now source (number_at known)) }
{
    match turned {
        Some(turned) => breadth_first(alloc, graph, turned, source),
        None => turn_when_it_pays(alloc, graph, source),
    }
}

/// The same without the transpose, which is made when that pays.
fn turn_when_it_pays(
    alloc: Global,
    graph: &Block<OrAnd>,
    source: u32,
) -> Result<Numbers, AllocError>
    requires square { graph.now.shape.rows ≡ graph.now.shape.cols }
    requires source { source < graph.now.shape.rows }
    ensures numbers { IfOk result (AreNumbers graph.now.shape.rows) }
    ensures levels { IfOk result (λ known. AreLevelNumbers graph.now source (number_at known)) }
{
    let shape = graph.shape();
    prove_eq!(shape.rows(), shape.cols());
    let known = Numbers::begin(alloc, shape.rows(), graph.len(), source)?;
    let Numbers::Dense(mut list) = known else {
        let turned = cb_reshape::transpose(alloc, graph)?;
        return breadth_first(alloc, graph, &turned, source);
    };
    let Some(rounds) = rounds_up(&mut list, graph) else {
        return Ok(Numbers::Dense(list));
    };
    let turned = cb_reshape::transpose(alloc, graph)?;
    let mut queue = Vec::with_capacity(alloc, graph.columns())?;
    queue_reached(&mut queue, &list, shape.rows(), rounds)?;
    let mut known = Numbers::Dense(list);
    make_rounds(&mut known, &mut queue, graph, &turned, rounds, 0)?;
    Ok(known)
}

/// Makes rounds up until one reaches no vertex, or until they are given up. Then it returns how many are made. They go by
/// entries until one grows fast.
fn rounds_up(list: &mut [u64], graph: &Block<OrAnd>) -> Option<u32>
    requires square { graph.now.shape.rows ≡ graph.now.shape.cols }
    requires length { length list.old ≡ graph.now.shape.rows }
    ensures length { length list.new ≡ length list.old }
    ensures ended { IfNone result ((source : ℕ) → AreLevelsWithin graph.now source 0 (listed_at list.old) → AreLevelNumbers graph.now source (listed_at list.new)) }
    ensures left { IfSome result (λ k. AreRounds graph.now 0 k list.old list.new) }
{
    let shape = graph.shape();
    let mut looks_left = graph.len().saturating_mul(LOOKS_PER_ENTRY);
    let mut reached_before = 1;
    let mut by_entries = true;
    for rounds in 0..shape.rows() {
        let (reached, looks) = round_up(list, graph, rounds, by_entries);
        if reached == 0 {
            return None;
        }
        if grows_fast(reached_before, reached, graph.columns()) {
            by_entries = false;
        } else {
            let is_slow = by_entries && reached <= reached_before.saturating_mul(2);
            let cost = counted(looks, is_slow);
            if looks_left <= cost {
                return Some(rounds + 1);
            }
            looks_left -= cost;
        }
        reached_before = reached;
    }
    Some(shape.rows())
}

/// How many looks a round counts that made so many.
fn counted(looks: usize, is_slow: bool) -> usize {
    if is_slow {
        looks.saturating_mul(SLOW_ROUND)
    } else {
        looks
    }
}

/// Whether two more rounds reach this many vertices, if each reaches as many times as many as the one before it as the last
/// round did. Only then is it soon worth while to go up: a round up that reaches few vertices reads nearly all entries.
fn grows_fast(before: usize, reached: usize, all: usize) -> bool {
    let rate = reached / before.max(1);
    reached.saturating_mul(rate).saturating_mul(rate) >= all
}

/// The levels of the vertices from a source, in the graph of a square block, given its transpose too.
///
/// A round down costs the edges from the vertices that were just reached, and up a look at each column that has entries,
/// and at the rows of each column without a level, up to the first that a round before reached.
fn breadth_first(
    alloc: Global,
    graph: &Block<OrAnd>,
    turned: &Block<OrAnd>,
    source: u32,
) -> Result<Numbers, AllocError>
    requires square { graph.now.shape.rows ≡ graph.now.shape.cols }
    requires source { source < graph.now.shape.rows }
    requires turned { turned.now ≡ transposed or_and graph.now }
    ensures numbers { IfOk result (AreNumbers graph.now.shape.rows) }
    ensures levels { IfOk result (λ known. AreLevelNumbers graph.now source (number_at known)) }
{
    let shape = graph.shape();
    prove_eq!(shape.rows(), shape.cols());
    let mut known = Numbers::begin(alloc, shape.rows(), graph.len(), source)?;
    let mut queue = Vec::with_capacity(alloc, graph.columns())?;
    queue.push(source)?;
    make_rounds(&mut known, &mut queue, graph, turned, 0, 0)?;
    Ok(known)
}

/// Makes rounds until one reaches no vertex, after so many, of which the last reached the vertices from `start` on in the
/// queue.
fn make_rounds(
    known: &mut Numbers,
    queue: &mut Vec<u32>,
    graph: &Block<OrAnd>,
    turned: &Block<OrAnd>,
    first: u32,
    start: usize,
) -> Result<(), AllocError>
    requires turned { HasTurned turned.now graph.now }
    requires reaching { (source : ℕ) × (source < graph.now.shape.rows) × IsReaching graph.now source first known.old queue.old.items start }
    ensures numbers { OnOk result (AreNumbers graph.now.shape.rows known.new) }
    ensures levels { OnOk result ((source : ℕ) → source < graph.now.shape.rows → IsReaching graph.now source first known.old queue.old.items start → AreLevelNumbers graph.now source (number_at known.new)) }
{
    let shape = graph.shape();
    let (mut rounds, mut start) = (first, start);
    while rounds < shape.rows() && start < queue.len() {
        (rounds, start) = make_round(known, queue, start, graph, turned, rounds)?;
    }
    Ok(())
}

/// Makes a round down after so many, or rounds up as long as it pays. Returns how many are made then, and from where on in
/// the queue the vertices are that the last one reached.
fn make_round(
    known: &mut Numbers,
    queue: &mut Vec<u32>,
    start: usize,
    graph: &Block<OrAnd>,
    turned: &Block<OrAnd>,
    rounds: u32,
) -> Result<(u32, usize), AllocError>
    requires turned { HasTurned turned.now graph.now }
    requires start { start ≤ length queue.old.items }
    requires rounds { rounds < graph.now.shape.rows }
    requires reaching { (source : ℕ) × IsReaching graph.now source rounds known.old queue.old.items start }
    ensures later { IfOk result (λ at. rounds < at.0) }
    ensures reaching { IfOk result (λ at. (source : ℕ) → IsReaching graph.now source rounds known.old queue.old.items start → IsReaching graph.now source at.0 known.new queue.new.items at.1) }
{
    // For the proof alone: the contract of this call bounds the number of rounds.
    let _rows = graph.shape().rows();
    if let Numbers::Dense(list) = known {
        if pays_up(graph, turned, &queue[start..]) {
            let made = up_while_many(list, queue, graph, rounds)?;
            return Ok((made, 0));
        }
    }
    let end = queue.len();
    down(known, queue, start, turned, rounds)?;
    Ok((rounds + 1, end))
}

/// Makes rounds up, after so many, until one reaches few vertices, which are then the queue. Returns how many are made then.
fn up_while_many(
    list: &mut [u64],
    queue: &mut Vec<u32>,
    graph: &Block<OrAnd>,
    rounds: u32,
) -> Result<u32, AllocError>
    requires square { graph.now.shape.rows ≡ graph.now.shape.cols }
    requires length { length list.old ≡ graph.now.shape.rows }
    requires rounds { rounds < graph.now.shape.rows }
    ensures length { length list.new ≡ length list.old }
    ensures later { IfOk result (λ made. rounds < made) }
    ensures rounds { IfOk result (λ made. AreRounds graph.now rounds made list.old list.new) }
    ensures near { IfOk result (λ made. All (λ v. listed_at list.new v ≡ made) queue.new.items) }
    ensures all { IfOk result (λ made. (v : ℕ) → listed_at list.new v ≡ made → Contains queue.new.items v) }
{
    let made = rounds_while_many(list, graph, rounds);
    queue_reached(queue, list, graph.shape().rows(), made)?;
    Ok(made)
}

/// Makes rounds up, after so many, until one reaches few vertices. Returns how many are made then.
fn rounds_while_many(list: &mut [u64], graph: &Block<OrAnd>, rounds: u32) -> u32
    requires square { graph.now.shape.rows ≡ graph.now.shape.cols }
    requires length { length list.old ≡ graph.now.shape.rows }
    requires rounds { rounds < graph.now.shape.rows }
    ensures length { length list.new ≡ length list.old }
    ensures later { rounds < result }
    ensures rounds { AreRounds graph.now rounds result list.old list.new }
{
    let shape = graph.shape();
    let few = graph.columns() / COLUMNS_PER_REACHED;
    for made in rounds..shape.rows() {
        let (reached, _looks) = up(list, graph, made);
        if reached <= few {
            return made + 1;
        }
    }
    shape.rows()
}

/// Makes the vertices that have this number the queue. Costs a few instructions for each place of the list.
fn queue_reached(
    queue: &mut Vec<u32>,
    list: &[u64],
    rows: u32,
    number: u32,
) -> Result<(), AllocError>
    requires { length list.now ≡ rows }
    ensures near { OnOk result (All (λ v. listed_at list.now v ≡ number) queue.new.items) }
    ensures all { OnOk result ((v : ℕ) → listed_at list.now v ≡ number → Contains queue.new.items v) }
{
    queue.clear();
    for vertex in 0..rows {
        if list[vertex as usize] == u64::from(number) {
            queue.push(vertex)?;
        }
    }
    Ok(())
}

/// Whether it pays to go up from vertices that were just reached: they are many, or have many edges.
fn pays_up(graph: &Block<OrAnd>, turned: &Block<OrAnd>, reached: &[u32]) -> bool {
    if reached.len() >= graph.columns() / COLUMNS_PER_REACHED {
        return true;
    }
    let mut edges: usize = 0;
    for vertex in reached {
        let (rows, _ones) = edges_of(turned, *vertex);
        edges = edges.saturating_add(rows.len());
    }
    edges >= graph.len() / ENTRIES_PER_EDGE
}

/// A round from the top down.
fn down(
    known: &mut Numbers,
    queue: &mut Vec<u32>,
    start: usize,
    turned: &Block<OrAnd>,
    rounds: u32,
) -> Result<(), AllocError>
    requires reaching { (a : Sparse) × (source : ℕ) × HasTurned turned.now a × IsReaching a source rounds known.old queue.old.items start }
    ensures { OnOk result ((a : Sparse) (source : ℕ) → HasTurned turned.now a → IsReaching a source rounds known.old queue.old.items start → IsReaching a source (rounds + 1) known.new queue.new.items (length queue.old.items)) }
{
    // For the proof alone: the contract of this call says that the block is a matrix.
    let _shape = turned.shape();
    let end = queue.len();
    for n in start..end {
        let vertex = queue[n];
        let (rows, _ones) = edges_of(turned, vertex);
        claim_all(known, queue, rows, u64::from(rounds) + 1)?;
    }
    Ok(())
}

/// Gives this number to each of some vertices that has none, and appends those to the queue.
fn claim_all(
    known: &mut Numbers,
    queue: &mut Vec<u32>,
    vertices: &[u32],
    number: u64,
) -> Result<(), AllocError>
    requires vertices { (n : ℕ) × AreNumbers n known.old × All (λ v. v < n) vertices.now }
    requires number { number < infinite }
    ensures numbers { OnOk result ((n : ℕ) → AreNumbers n known.old → All (λ v. v < n) vertices.now → AreNumbers n known.new) }
    ensures claimed { OnOk result (HaveClaimed number (number_at known.old) queue.old.items vertices.now (number_at known.new) queue.new.items) }
{
    for vertex in vertices {
        claim(known, queue, *vertex, number)?;
    }
    Ok(())
}

/// If a vertex has no number, gives it this one and appends it to the queue.
#[inline(always)]
fn claim(
    known: &mut Numbers,
    queue: &mut Vec<u32>,
    vertex: u32,
    number: u64,
) -> Result<(), AllocError>
    requires vertex { (n : ℕ) × AreNumbers n known.old × (vertex < n) }
    requires number { number < infinite }
    ensures numbers { OnOk result ((n : ℕ) → AreNumbers n known.old → vertex < n → AreNumbers n known.new) }
    ensures claimed { OnOk result (HaveClaimed number (number_at known.old) queue.old.items (vertex ∷ []) (number_at known.new) queue.new.items) }
{
    if known.number_of(vertex) == u64::MAX {
        known.set(vertex, number)?;
        queue.push(vertex)?;
    }
    Ok(())
}

/// A round from the bottom up, after so many, by entries or by columns. Returns how many vertices it reaches, and at how many
/// numbers it looks.
fn round_up(list: &mut [u64], graph: &Block<OrAnd>, rounds: u32, by_entries: bool) -> (usize, usize)
    requires square { graph.now.shape.rows ≡ graph.now.shape.cols }
    requires length { length list.old ≡ graph.now.shape.rows }
    ensures length { length list.new ≡ length list.old }
    ensures none { result.0 ≡ 0 → list.new ≡ list.old }
    ensures round { AreRounds graph.now rounds (rounds + 1) list.old list.new }
{
    if by_entries {
        up_by_entries(list, graph, rounds)
    } else {
        up(list, graph, rounds)
    }
}

/// A round from the bottom up, after so many, entry by entry. It looks at the number of each entry's row, in one loop, and
/// searches for the column only if there is one: faster than by columns as long as few rows have a number.
fn up_by_entries(list: &mut [u64], graph: &Block<OrAnd>, rounds: u32) -> (usize, usize)
    requires square { graph.now.shape.rows ≡ graph.now.shape.cols }
    requires length { length list.old ≡ graph.now.shape.rows }
    ensures length { length list.new ≡ length list.old }
    ensures none { result.0 ≡ 0 → list.new ≡ list.old }
    ensures round { AreRounds graph.now rounds (rounds + 1) list.old list.new }
{
    let shape = graph.shape();
    prove_eq!(shape.rows(), shape.cols());
    let rows = graph.row_numbers();
    let mut reached = 0;
    for n in 0..rows.len() {
        if list[rows[n] as usize] <= u64::from(rounds) {
            let vertex = graph.entry_at(n).column;
            if list[vertex as usize] == u64::MAX {
                list[vertex as usize] = u64::from(rounds) + 1;
                reached += 1;
            }
        }
    }
    (reached, rows.len())
}

/// A round from the bottom up, after so many, column by column. Returns how many vertices it reaches, and at how many
/// numbers it looks.
fn up(list: &mut [u64], graph: &Block<OrAnd>, rounds: u32) -> (usize, usize)
    requires square { graph.now.shape.rows ≡ graph.now.shape.cols }
    requires length { length list.old ≡ graph.now.shape.rows }
    ensures length { length list.new ≡ length list.old }
    ensures none { result.0 ≡ 0 → list.new ≡ list.old }
    ensures round { AreRounds graph.now rounds (rounds + 1) list.old list.new }
{
    let shape = graph.shape();
    prove_eq!(shape.rows(), shape.cols());
    let columns = graph.column_numbers();
    let (mut reached, mut looks) = (0, columns.len());
    for n in 0..columns.len() {
        let vertex = columns[n];
        if list[vertex as usize] == u64::MAX {
            let (rows, _ones) = graph.nth_column(n);
            let place = first_within(list, rows, rounds);
            looks = looks.saturating_add(place);
            if place < rows.len() {
                list[vertex as usize] = u64::from(rounds) + 1;
                reached += 1;
            }
        }
    }
    (reached, looks)
}

/// The index of the first vertex whose number is at most this, or the length.
fn first_within(list: &[u64], vertices: &[u32], most: u32) -> usize
    requires { All (λ v. v < length list.now) vertices.now }
    ensures found { result < length vertices.now → listed_at list.now (slice_index vertices.now result) ≤ most }
    ensures none { All (λ v. most < listed_at list.now v) (take result vertices.now) }
{
    for n in 0..vertices.len() {
        if list[vertices[n] as usize] <= u64::from(most) {
            return n;
        }
    }
    vertices.len()
}
