//! The kernel for programs in C: computations on kept sparse matrices.
//!
//! A kept matrix ([`OwnedMatrix`], [`LentMatrix`]) is a matrix over one semiring, behind an opaque pointer, in a panel for
//! each thread that made some of it. A call takes kept matrices, reads a single panel where it is and most of several from
//! a copy in one block, and writes a new kept matrix to `out`. It returns 0 if it has written its result. Otherwise it
//! returns the number of the first fault ([`Fault::code`]) and leaves `out` as it was. It looks for all faults before it
//! takes memory, except for those of a text, which it finds while it reads.
//!
//! A kept matrix is made of lists in compressed columns ([`Columns`]), which a call reads and neither changes nor keeps, of
//! triples or of a text. The lists and the text of a kept matrix belong to the caller. Each list that isn't empty is memory
//! of the program's `malloc`; release it with `free`.
//!
//! `semiring` is a number of `cb_semirings::SemiringName`: 0 (plus-times), 1 (min-plus), 2 (or-and), 3 (max-min), and so
//! on.
//!
//! A call whose result is a matrix makes a range of its columns. The range from 0 up to their number, or to any larger one, is the
//! whole result.
//!
//! Each call works on the caller's thread. A program with threads divides the columns of a result ([`cbgrid_kernel_kept_ends`]),
//! makes those of a range in each thread ([`cbgrid_kernel_computation`] and so on), and joins them in order
//! ([`cbgrid_kernel_kept_join`]). Where the result is a sum over the columns of the first matrix, each thread makes a share of
//! the sum ([`cbgrid_kernel_kept_share`], [`cbgrid_kernel_kept_total`]), and the program adds these up in order
//! ([`cbgrid_kernel_kept_add_share`]).
#![tactic(auto)]

ghost use Rattle.std.specs.Prelude.{◌≡◌, ◌≢◌, ◌≤◌, [], ◌∷◌, length, ◌==◌, not, IfSome, IsSome, IfOk, IfErr, option_copied};
ghost use Rattle.cb_semirings.specs.Names.{arithmetic_of, numbered};
ghost use Rattle.cb_matrix.specs.Sparse.{at};
ghost use Rattle.cb_operations.specs.Operands.{lent_in};
ghost use Rattle.cb_lists.specs.Lists.{HasLists};
ghost use Rattle.cb_shares.specs.Sums.{IsSumOfColumns};
ghost use Rattle.cb_kept.specs.KeptSums.{sum_of};
ghost use Rattle.cb_kept.specs.Refusals.{code_of, IsMemory, first_over};
ghost use Rattle.cb_kept.specs.Kept.{matrix_in, semiring_of};
ghost use Rattle.cb_kept.specs.KeptAnswers.{IsSummary};
ghost use Rattle.cb_kept_graphs.specs.KeptGraphs.{graph_task_of};
ghost use Rattle.cb_kept.specs.KeptSums.{IsTotal};
ghost use Rattle.cb_kept.specs.KeptUpdates.{operands_of, write_back_of};
ghost use Rattle.cb_kept.specs.KeptTexts.{IsKeptText};
ghost use Rattle.cb_kept.specs.Misfits.{IsFirst, IsFrom, IsMisfitOfLists, IsMisfitOfTriples};
ghost use Rattle.cb_ffi.specs.Calls.{IsCall, IsLine};
ghost use Rattle.cb_ffi.specs.KeptCalls.{HasHandedOut, HasWritten, IsAddCall, IsChoiceCall, IsColumnCall, IsComputationCall, IsEndsCall, IsEntryEndsCall, IsExtractCall, IsGraphCall, IsJoinCall, IsKeepCall, IsOwnedJoinCall, IsProductEndsCall, IsReadCall, IsShareCall, IsTransposeCall, IsTriplesCall, IsTurnedCall, IsUpdateCall, count_of, if_masked, sum_count_of, unless_all};

mod handles;

use cb_kept::{
    Fault, Kept, KeptMatrix, KeptText, Summary, Sums, Triple, columns_of, first_outside,
    keep_lists, keep_triples, kept_add_share, kept_column_of_sums, kept_computation, kept_ends,
    kept_entry_ends, kept_extract, kept_join, kept_share_of_sum, kept_total, kept_turned_product,
    kept_update, misfit_of_lists, misfit_of_triples, read_kept, sum_of, summary_of, text_of,
    value_at, write_back_of,
};
use cb_kept_graphs::{KeptAnswer, graph_task_of, kept_graph};
use cb_lists::Columns;
use cb_operations::{Choice, Computation, Operation};
pub use handles::{LentMatrix, OwnedMatrix};
use handles::{borrowed, borrowed_with_transpose, hand_out, take_back};
use std::alloc::Global;

/// Writes a result to `out`, or returns the number of the fault.
fn put<T: Copy>(out: &mut T, answer: Result<T, Fault>) -> u32
    ensures ok { IfOk answer (λ x. (result ≡ 0) × (out.new ≡ x)) }
    ensures refused { IfErr answer (λ f. (result ≡ code_of f) × (result ≢ 0) × (out.new ≡ out.old)) }
{
    match answer {
        Ok(made) => {
            *out = made;
            0
        }
        Err(fault) => fault.code(),
    }
}

/// Hands a kept matrix to C, or returns the number of the fault. Takes one allocation.
fn put_kept(alloc: Global, out: &mut OwnedMatrix, answer: Result<Kept, Fault>) -> u32
    ensures ok { IfOk answer (HasHandedOut result out.old out.new) }
    ensures refused { IfErr answer (λ f. (result ≡ code_of f) × (result ≢ 0) × (out.new ≡ out.old)) }
{
    let kept = match answer {
        Ok(kept) => kept,
        Err(fault) => return fault.code(),
    };
    match Box::new(alloc, KeptMatrix::new(kept)) {
        Ok(on_heap) => {
            *out = hand_out(Box::leak(on_heap));
            0
        }
        Err(_) => Fault::Memory.code(),
    }
}

/// Hands the answer of a task on a graph to C: a kept matrix to `out`, which takes one allocation, or a number to `count`; or
/// returns the number of the fault.
fn put_answer(
    alloc: Global,
    out: &mut OwnedMatrix,
    count: &mut u64,
    answer: Result<KeptAnswer, Fault>,
) -> u32
    ensures ok { IfOk answer (HasWritten result (out.old, count.old) (out.new, count.new)) }
    ensures refused { IfErr answer (λ f. (result ≡ code_of f) × (result ≢ 0) × (out.new ≡ out.old) × (count.new ≡ count.old)) }
{
    match answer {
        Ok(KeptAnswer::Matrix(kept)) => put_kept(alloc, out, Ok(kept)),
        Ok(KeptAnswer::Number(number)) => put(count, Ok(number)),
        Err(fault) => fault.code(),
    }
}

/// How many matrices a computation takes. One of an unknown number takes none.
fn count_of(computation: Option<Computation>) -> usize
    ensures { result ≡ count_of computation }
{
    match computation {
        Some(known) => known.operand_count(),
        None => 0,
    }
}

/// How many matrices the operation of a sum takes.
fn sum_count_of(operation: Option<Operation>) -> usize
    ensures { result ≡ sum_count_of operation }
{
    match operation {
        Some(known) => known.operand_count(),
        None => 0,
    }
}

/// Keeps columns of what is computed of the first of some kept matrices, or returns the number of the fault.
fn computation_kept(
    alloc: Global,
    computation: Option<Computation>,
    given: &[&Kept],
    first: u32,
    end: u32,
    out: &mut OwnedMatrix,
) -> u32
    requires { count_of computation ≤ length given.now }
    ensures { IsComputationCall computation first end (lent_in given.now) result out.old out.new }
{
    let operands = &given[..count_of(computation)];
    let answer = kept_computation(alloc, computation, operands, first, end);
    put_kept(alloc, out, answer)
}

/// Writes where ranges of columns end, or returns the number of the fault.
fn put_ends(ends: &mut [u32], answer: Result<Vec<u32>, Fault>) -> u32
    requires { IfOk answer (λ made. length made.items ≡ length ends.old) }
    ensures ok { IfOk answer (λ made. (result ≡ 0) × (ends.new ≡ made.items)) }
    ensures refused { IfErr answer (λ f. (result ≡ code_of f) × (result ≢ 0) × (ends.new ≡ ends.old)) }
{
    match answer {
        Ok(made) => {
            ends.copy_from_slice(&made);
            0
        }
        Err(fault) => fault.code(),
    }
}

/// Lists what some columns of the first of kept matrices add to the result of an operation, or returns the number of the fault.
fn share_kept(
    alloc: Global,
    operation: Option<Operation>,
    given: &[&Kept],
    first: u32,
    end: u32,
    out: &mut Sums,
) -> u32
    requires sum { IfSome operation IsSumOfColumns }
    requires count { sum_count_of operation ≤ length given.now }
    ensures { IsShareCall operation first end (lent_in given.now) result out.old out.new }
{
    let operands = &given[..sum_count_of(operation)];
    let answer = kept_share_of_sum(alloc, operation, operands, first, end);
    put(out, answer)
}

/// Joins two panels where the first of them is, and frees what the second keeps of its lists; or frees the lists of both and
/// returns the number of the fault.
fn join_kept(
    alloc: Global,
    front: &'static mut KeptMatrix,
    back: &'static mut KeptMatrix,
    out: &mut OwnedMatrix,
) -> u32
    ensures { IsJoinCall front.old back.old result out.old out.new }
{
    match kept_join(alloc, front, back) {
        Ok(()) => {
            back.clear(alloc);
            *out = hand_out(front);
            0
        }
        Err(fault) => {
            front.clear(alloc);
            back.clear(alloc);
            fault.code()
        }
    }
}

/// Keeps the transpose of a matrix beside it, where it is, or returns the number of the fault.
fn keep_transpose(alloc: Global, kept: &'static mut KeptMatrix, out: &mut OwnedMatrix) -> u32
    ensures { IsTransposeCall kept.old result out.new }
{
    let done = kept.keep_transpose(alloc);
    *out = hand_out(kept);
    match done {
        Ok(()) => 0,
        Err(fault) => fault.code(),
    }
}

/// Keeps the matrix of lists. The entries are copied once.
#[unsafe(no_mangle)]
pub extern "C" fn cbgrid_kernel_keep(
    alloc: Global,
    semiring: u32,
    a: &Columns,
    out: &mut OwnedMatrix,
) -> u32
    ensures { IsKeepCall semiring a.now result out.old out.new }
{
    put_kept(alloc, out, keep_lists(alloc, semiring, a))
}

/// Keeps the columns from `first` up to, but not including, `end` of what is computed of kept matrices by a choice
/// ([`Computation::chosen`]), in the shape of the whole result; the whole result, if these are all its columns. It reads as many of
/// the matrices as the computation takes; any kept matrix may stand for another.
#[unsafe(no_mangle)]
pub extern "C" fn cbgrid_kernel_computation(
    alloc: Global,
    choice: &Choice,
    a: LentMatrix,
    b: LentMatrix,
    c: LentMatrix,
    first: u32,
    end: u32,
    out: &mut OwnedMatrix,
) -> u32
    ensures { IsChoiceCall choice.now first end (a.kept.now ∷ b.kept.now ∷ c.kept.now ∷ []) result out.old out.new }
{
    let computation = Computation::chosen(choice);
    let given = [borrowed(a), borrowed(b), borrowed(c)];
    computation_kept(alloc, computation, &given, first, end, out)
}

/// A list of numbers, unless all are meant.
fn unless_all(all: u32, numbers: &[u32]) -> Option<&[u32]>
    ensures { option_copied result ≡ unless_all all numbers.now }
{
    if all == 0 { Some(numbers) } else { None }
}

/// Keeps such columns of the matrix of the rows and columns of a kept matrix by their numbers, in any order, with repetitions. With
/// `all_rows` or `all_columns` other than 0, all of them, whatever the list has.
#[unsafe(no_mangle)]
pub extern "C" fn cbgrid_kernel_kept_extract(
    alloc: Global,
    a: LentMatrix,
    all_rows: u32,
    rows: &[u32],
    all_columns: u32,
    columns: &[u32],
    first: u32,
    end: u32,
    out: &mut OwnedMatrix,
) -> u32
    ensures { IsExtractCall (unless_all all_rows rows.now) (unless_all all_columns columns.now) first end a.kept.now result out.old out.new }
{
    let rows = unless_all(all_rows, rows);
    let columns = unless_all(all_columns, columns);
    let answer = kept_extract(alloc, borrowed(a), rows, columns, first, end);
    put_kept(alloc, out, answer)
}

/// Multiplies two kept matrices, of which each is transposed first if its flag isn't 0.
#[unsafe(no_mangle)]
pub extern "C" fn cbgrid_kernel_kept_multiply_turned(
    alloc: Global,
    a: LentMatrix,
    turn_a: u32,
    b: LentMatrix,
    turn_b: u32,
    out: &mut OwnedMatrix,
) -> u32
    ensures { IsTurnedCall (not (turn_a == 0)) (not (turn_b == 0)) a.kept.now b.kept.now result out.old out.new }
{
    let (a, b) = (borrowed(a), borrowed(b));
    let answer = kept_turned_product(alloc, a, turn_a != 0, b, turn_b != 0);
    put_kept(alloc, out, answer)
}

/// A mask, if there is one.
fn if_masked(masked: u32, mask: LentMatrix) -> Option<&'static Kept>
    ensures { option_copied result ≡ if_masked masked mask.kept.now }
{
    if masked == 0 {
        None
    } else {
        Some(borrowed(mask))
    }
}

/// Keeps such columns of a kept matrix that is updated by a new one, at the places that a kept mask allows, or at all places
/// if `masked` is 0. `flags` says how ([`write_back_of`]).
#[unsafe(no_mangle)]
pub extern "C" fn cbgrid_kernel_kept_update(
    alloc: Global,
    a: LentMatrix,
    b: LentMatrix,
    masked: u32,
    mask: LentMatrix,
    flags: u32,
    first: u32,
    end: u32,
    out: &mut OwnedMatrix,
) -> u32
    ensures { IsUpdateCall (write_back_of flags) first end (operands_of a.kept.now b.kept.now (if_masked masked mask.kept.now)) result out.old out.new }
{
    let (how, a, b) = (write_back_of(flags), borrowed(a), borrowed(b));
    let allowed = if_masked(masked, mask);
    let answer = kept_update(alloc, how, a, b, allowed, first, end);
    put_kept(alloc, out, answer)
}

/// The semiring's sum of all values of a kept matrix in the columns from `first` up to, but not including, `end`.
#[unsafe(no_mangle)]
pub extern "C" fn cbgrid_kernel_kept_total(a: LentMatrix, first: u32, end: u32) -> u64
    ensures { IsTotal (arithmetic_of (semiring_of a.kept.now)) (matrix_in a.kept.now) first end result }
{
    kept_total(borrowed(a), first, end)
}

/// Computes the task on a graph that has a number ([`graph_task_of`]), from `source` if it has one source. `sources` are those
/// of a task from several sources, and `values` a column over min-plus with the initial values of a task from these; other
/// tasks take any list and any kept matrix there, and don't read them. The answer is a kept matrix, at `out`, or a number, at
/// `count`; the other one is left as it was ([`kept_graph`]).
#[unsafe(no_mangle)]
pub extern "C" fn cbgrid_kernel_kept_graph(
    alloc: Global,
    task: u32,
    source: u32,
    sources: &[u32],
    values: LentMatrix,
    a: LentMatrix,
    out: &mut OwnedMatrix,
    count: &mut u64,
) -> u32
    ensures { IsGraphCall (graph_task_of task source) a.kept.now sources.now values.kept.now result (out.old, count.old) (out.new, count.new) }
{
    let task = graph_task_of(task, source);
    let graph = borrowed_with_transpose(a);
    let answer = kept_graph(alloc, task, graph, sources, borrowed(values));
    put_answer(alloc, out, count, answer)
}

/// Keeps the matrix of triples in any order. Values at one place are added up.
#[unsafe(no_mangle)]
pub extern "C" fn cbgrid_kernel_keep_triples(
    alloc: Global,
    semiring: u32,
    nrows: u32,
    ncols: u32,
    triples: &[Triple],
    out: &mut OwnedMatrix,
) -> u32
    ensures { IsTriplesCall semiring nrows ncols triples.now result out.old out.new }
{
    let answer = keep_triples(alloc, semiring, nrows, ncols, triples);
    put_kept(alloc, out, answer)
}

/// Reads the matrix of a Matrix Market text, and keeps it. If the text has a fault (code 13), `line` gets its line, counted
/// from 1; otherwise `line` is left as it was.
#[unsafe(no_mangle)]
pub extern "C" fn cbgrid_kernel_kept_read(
    alloc: Global,
    semiring: u32,
    text: &[u8],
    line: &mut u64,
    out: &mut OwnedMatrix,
) -> u32
    ensures call { IsReadCall semiring text.now result out.old out.new }
    ensures line { IsLine (first_over (numbered semiring) text.now) result line.old line.new }
{
    let answer = read_kept(alloc, semiring, text, line);
    put_kept(alloc, out, answer)
}

/// Writes the Matrix Market text of a kept matrix.
#[unsafe(no_mangle)]
pub extern "C" fn cbgrid_kernel_kept_text(alloc: Global, a: LentMatrix, out: &mut KeptText) -> u32
    ensures { IsCall IsMemory (IsKeptText (arithmetic_of (semiring_of a.kept.now)) a.kept.now) result out.old out.new }
{
    put(out, text_of(alloc, borrowed(a)))
}

/// Copies the lists of a kept matrix. The copy belongs to the caller.
#[unsafe(no_mangle)]
pub extern "C" fn cbgrid_kernel_kept_lists(alloc: Global, a: LentMatrix, out: &mut Columns) -> u32
    ensures { IsCall IsMemory (HasLists (matrix_in a.kept.now)) result out.old out.new }
{
    put(out, columns_of(alloc, borrowed(a)))
}

/// The shape of a kept matrix, its semiring and its number of entries.
#[unsafe(no_mangle)]
pub extern "C" fn cbgrid_kernel_kept_summary(a: LentMatrix, out: &mut Summary)
    ensures { IsSummary a.kept.now out.new }
{
    *out = summary_of(borrowed(a));
}

/// The value of a kept matrix at a place: the semiring's zero if the place has no entry or is outside the shape.
#[unsafe(no_mangle)]
pub extern "C" fn cbgrid_kernel_kept_value(a: LentMatrix, row: u32, column: u32) -> u64
    ensures { result ≡ at (arithmetic_of (semiring_of a.kept.now)) (matrix_in a.kept.now) row column }
{
    value_at(borrowed(a), row, column)
}

/// What the fault of lists is about, once a call has returned it: the entry, or the stored column, counted on from the number
/// of entries ([`misfit_of_lists`]).
#[unsafe(no_mangle)]
pub extern "C" fn cbgrid_kernel_misfit_of_lists(semiring: u32, a: &Columns) -> u64
    ensures { IsMisfitOfLists semiring a.now result }
{
    misfit_of_lists(semiring, a) as u64
}

/// The triple that the fault of triples is about, once a call has returned it ([`misfit_of_triples`]).
#[unsafe(no_mangle)]
pub extern "C" fn cbgrid_kernel_misfit_of_triples(
    semiring: u32,
    nrows: u32,
    ncols: u32,
    triples: &[Triple],
) -> u64
    ensures { IsMisfitOfTriples semiring nrows ncols triples.now result }
{
    misfit_of_triples(semiring, nrows, ncols, triples) as u64
}

/// The position of the first number that isn't below a bound, or how many numbers there are.
#[unsafe(no_mangle)]
pub extern "C" fn cbgrid_kernel_first_outside(numbers: &[u32], bound: u32) -> u64
    ensures { IsFirst (IsFrom bound numbers.now) (length numbers.now) result }
{
    first_outside(numbers, bound) as u64
}

/// Parts the columns of two kept matrices, or of their product if `by_products` isn't 0, into ranges that have about as many
/// entries, or take about as many products of two values: as many ranges as `ends` has places. Writes the column at which each
/// range ends and the next begins. Ranges of small matrices may have no columns.
#[unsafe(no_mangle)]
pub extern "C" fn cbgrid_kernel_kept_ends(
    alloc: Global,
    by_products: u32,
    a: LentMatrix,
    b: LentMatrix,
    ends: &mut [u32],
) -> u32
    ensures { IsEndsCall by_products a.kept.now b.kept.now result ends.old ends.new }
{
    let (a, b) = (borrowed(a), borrowed(b));
    if by_products == 0 {
        let by_entries = kept_entry_ends(alloc, a, b, ends.len());
        return put_ends(ends, by_entries);
    }
    let answer = kept_ends(alloc, a, b, ends.len());
    put_ends(ends, answer)
}

/// Lists what the columns of a kept matrix from `first` up to, but not including, `end` add to the result of the operation of a
/// number ([`sum_of`]): to its product with a vector, or to the sums of its rows. A number for each row; the list belongs to the
/// caller.
#[unsafe(no_mangle)]
pub extern "C" fn cbgrid_kernel_kept_share(
    alloc: Global,
    number: u32,
    a: LentMatrix,
    x: LentMatrix,
    first: u32,
    end: u32,
    out: &mut Sums,
) -> u32
    ensures { IsShareCall (sum_of number) first end (a.kept.now ∷ x.kept.now ∷ []) result out.old out.new }
{
    let given = [borrowed(a), borrowed(x)];
    share_kept(alloc, sum_of(number), &given, first, end, out)
}

/// Adds a share of a sum to that of the columns before it, over the semiring of a kept matrix: two lists of one length, or the
/// sums of all values, as lists of a single number. At a fault nothing changes.
#[unsafe(no_mangle)]
pub extern "C" fn cbgrid_kernel_kept_add_share(
    like: LentMatrix,
    sums: &mut [u64],
    more: &[u64],
) -> u32
    ensures { IsAddCall like.kept.now more.now result sums.old sums.new }
{
    match kept_add_share(borrowed(like), sums, more) {
        Ok(()) => 0,
        Err(fault) => fault.code(),
    }
}

/// Keeps the column that has the values of a list, one for each row of a kept matrix, over its semiring.
#[unsafe(no_mangle)]
pub extern "C" fn cbgrid_kernel_kept_column_of_sums(
    alloc: Global,
    like: LentMatrix,
    sums: &[u64],
    out: &mut OwnedMatrix,
) -> u32
    ensures { IsColumnCall like.kept.now sums.now result out.old out.new }
{
    let answer = kept_column_of_sums(alloc, borrowed(like), sums);
    put_kept(alloc, out, answer)
}

/// Joins two panels of a product: puts the entries of a kept matrix behind those of another, whose columns are all before its
/// own. Takes both back, and copies no entry. The result is at the pointer of the first. The caller then
/// frees the memory at the pointer of the second, and at a fault that at the pointer of the first too.
#[unsafe(no_mangle)]
pub extern "C" fn cbgrid_kernel_kept_join(
    alloc: Global,
    front: OwnedMatrix,
    back: OwnedMatrix,
    out: &mut OwnedMatrix,
) -> u32
    requires front { IsSome front.kept }
    requires back { IsSome back.kept }
    ensures { IsOwnedJoinCall front back result out.old out.new }
{
    join_kept(alloc, take_back(front), take_back(back), out)
}

/// Keeps the transpose of a kept matrix beside it, which searches from sources then use. Takes the matrix back and hands it
/// out again, at the same pointer, also if memory for the transpose is refused. No other call may use the matrix meanwhile.
#[unsafe(no_mangle)]
pub extern "C" fn cbgrid_kernel_keep_transpose(
    alloc: Global,
    a: OwnedMatrix,
    out: &mut OwnedMatrix,
) -> u32
    requires { IsSome a.kept }
    ensures { IfSome a.kept (λ k. IsTransposeCall k.now result out.new) }
{
    keep_transpose(alloc, take_back(a), out)
}

/// Frees the lists of a kept matrix. The caller then frees the memory at the pointer.
#[unsafe(no_mangle)]
pub extern "C" fn cbgrid_kernel_release(alloc: Global, kept: OwnedMatrix)
    requires { IsSome kept.kept }
{
    take_back(kept).clear(alloc);
}
