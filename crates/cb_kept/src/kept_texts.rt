//! Matrix Market texts, to and from kept matrices.
ghost use Rattle.std.specs.Prelude.{◌≡◌};
ghost use Rattle.cb_semirings.specs.Names.{arithmetic_of, numbered};
ghost use Rattle.cb_market_lines.specs.Faults.{first_fault};
ghost use Rattle.cb_market_pages.specs.Text.{text_of};
ghost use Rattle.cb_kept.specs.Refusals.{IsMemory, first_over, read_faults};
ghost use Rattle.cb_kept.specs.Answers.{IsAnswer, IsFaultLine};
ghost use Rattle.cb_kept.specs.Kept.{semiring_of};
ghost use Rattle.cb_kept.specs.KeptAnswers.{IsKeptAnswerOver};
ghost use Rattle.cb_kept.specs.KeptTexts.{IsKeptText, IsKeptRead};

use crate::faults::Fault;
use crate::kept::{Keep, Kept, keep_block};
use crate::of_matrix;
use cb_layout::PanelledMatrix;
use cb_market::{Kind, read};
use cb_market_pages::text;
use cb_semirings::{Semiring, SemiringName, over_semiring};
use std::alloc::Global;

/// The text of a kept matrix.
#[repr(C)]
#[derive(Clone, Copy)]
pub struct KeptText {
    pub bytes: &'static [u8],
}

/// The text of a matrix.
fn matrix_text<S: Semiring>(alloc: Global, matrix: &PanelledMatrix<S>) -> Result<KeptText, Fault>
    ensures { IsAnswer IsMemory (λ t. t.bytes.now ≡ text_of S.arithmetic matrix.now) result }
{
    let whole = matrix.whole()?;
    let bytes = text(alloc, whole.block())?;
    Ok(KeptText {
        bytes: bytes.leak(),
    })
}

/// Returns the Matrix Market text of a kept matrix. Its bytes belong to the caller.
#[tactic(auto, unfolding(crate::specs::Kept::semiring_of, crate::specs::Kept::matrix_in))]
pub fn text_of(alloc: Global, kept: &Kept) -> Result<KeptText, Fault>
    ensures { IsAnswer IsMemory (IsKeptText (arithmetic_of (semiring_of kept.now)) kept.now) result }
{
    of_matrix!(kept, matrix => matrix_text(alloc, matrix))
}

/// The matrix of a text, kept over a semiring. If the text has a fault, `line` gets its line.
fn read_over<S: Keep>(alloc: Global, text: &[u8], line: &mut u64) -> Result<Kept, Fault>
    ensures answer { IsAnswer (read_faults S.arithmetic text.now) (IsKeptRead S.arithmetic S.name text.now) result }
    ensures line { IsFaultLine (first_fault S.arithmetic text.now) result line.old line.new }
{
    match read::<S>(alloc, text) {
        Ok(block) => Ok(keep_block::<S>(alloc, block)),
        Err(fault) => match fault.kind {
            Kind::Memory => Err(Fault::Memory),
            _ => {
                *line = fault.line;
                Err(Fault::Text)
            }
        },
    }
}

/// Reads a Matrix Market text over the semiring of a number, and keeps its matrix. If the text has a fault, `line` gets its
/// line, counted from 1.
pub fn read_kept(alloc: Global, semiring: u32, text: &[u8], line: &mut u64) -> Result<Kept, Fault>
    ensures answer { IsKeptAnswerOver semiring (λ s. read_faults s text.now) (λ s name. IsKeptRead s name text.now) result }
    ensures line { IsFaultLine (first_over (numbered semiring) text.now) result line.old line.new }
{
    match SemiringName::numbered(semiring) {
        Some(name) => over_semiring!(name, read_over::<_>(alloc, text, line)),
        None => Err(Fault::Semiring),
    }
}
