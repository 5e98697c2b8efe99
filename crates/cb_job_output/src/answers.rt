//! Answers: what tasks compute before a text is written.
ghost use Rattle.std.specs.Prelude.{◌≡◌, [], ◌∷◌, false};
ghost use Rattle.cb_market_pages.specs.Text.{number_line};
ghost use Rattle.cb_job_ends.specs.WriteEnds.{IsTextEnd};
ghost use Rattle.cb_job_output.specs.Answers.{text_of_answer};

use crate::output::{put_blocks_and_lines, put_bytes, put_column, put_matrix};
use cb_bases::Based;
use cb_dcsc::Block;
use cb_job_ends::faults::JobFault;
use cb_job_ends::sinks::Sink;
use cb_layout::{DistributedMatrix, PanelledMatrix};
use cb_market_pages::LineForm;
use cb_semirings::{MinPlus, PlusTimes, Semiring};
use std::alloc::Global;
use std::thread::Threads;

/// The answer of a task, of which no text is written yet.
#[derive(Drop)]
pub enum Answer<S: Semiring> {
    /// A matrix.
    Matrix(PanelledMatrix<S>),
    /// A matrix over a grid, and lines that follow its text.
    Blocks(DistributedMatrix<S>, String),
    /// A column with a number or a vertex for each vertex that has one, and the form of its lines.
    Column(Block<MinPlus>, LineForm),
    /// A column with a count for each vertex, row or column that has one. A line has both.
    Counts(Block<PlusTimes>),
    /// A number, which stands on a line.
    Number(u64),
}

/// Writes a number on a line.
fn put_number<K: Sink>(alloc: Global, number: u64, out: &mut K) -> Result<(), JobFault>
    requires { K.has_failed out.old ≡ false }
    ensures { IsTextEnd (number_line (number ∷ [])) (K.written out.old) (K.written out.new) (K.has_failed out.new) result }
{
    match format!(in alloc; "{number}\n") {
        Ok(text) => put_bytes(text.as_bytes(), out),
        Err(_) => Err(JobFault::Memory),
    }
}

/// Writes the text of an answer, a matrix over the base of its semiring, and frees the answer. This many threads make the lines
/// of a matrix or a column, and the caller's writes them; or it does both, if it is alone or the entries are few.
///
/// All memory is taken first: at `Memory` nothing has been written. At `Output` the sink has failed, which it has in no other
/// case, and a beginning of the text has been written.
pub fn put_answer<S: Based + Send + Sync, R: Threads + Sync, K: Sink>(
    rt: &R,
    alloc: Global,
    threads: u32,
    answer: Answer<S>,
    out: &mut K,
) -> Result<(), JobFault>
    requires { K.has_failed out.old ≡ false }
    ensures { IsTextEnd (text_of_answer S.arithmetic answer) (K.written out.old) (K.written out.new) (K.has_failed out.new) result }
{
    match answer {
        Answer::Matrix(matrix) => {
            let _shape = matrix.shape();
            let matrix = matrix.recast::<S::Base>(alloc)?;
            put_matrix(rt, alloc, threads, matrix, out)
        }
        Answer::Blocks(matrix, lines) => {
            let _shape = matrix.shape();
            let matrix = matrix.recast::<S::Base>(alloc)?;
            put_blocks_and_lines(rt, alloc, threads, matrix, lines.as_bytes(), out)
        }
        Answer::Column(column, form) => put_column(rt, alloc, threads, column, form, out),
        Answer::Counts(column) => {
            put_column(rt, alloc, threads, column, LineForm::RowAndValue, out)
        }
        Answer::Number(number) => put_number(alloc, number, out),
    }
}
