//! Texts, over a semiring that is chosen by its name.
use cb_bases::Based;
use cb_market::{Kind, Opening, read};
use cb_semirings::{SemiringName, over_semiring};
use std::alloc::Global;

/// The first fault of a text.
#[derive(Clone, Copy)]
pub struct TextFault {
    /// The line, counted from 1.
    pub line: u64,
    /// What is wrong there, in words.
    pub words: &'static str,
    /// Whether memory was refused before a fault was found.
    pub is_memory: bool,
}

/// The length of an opening, over the base of a semiring.
fn length_over<S: Based>(text: &[u8]) -> Option<usize> {
    let Some(opening) = Opening::of::<S::Base>(text) else {
        return None;
    };
    Some(text.len().saturating_sub(opening.entries.len()))
}

/// How many bytes of a text come before its first entry. None if there is no size line in them, or a fault before its end.
///
/// Some first lines of a text do in place of the whole.
pub fn opening_length(semiring: SemiringName, text: &[u8]) -> Option<usize> {
    over_semiring!(semiring, length_over::<_>(text))
}

/// The first fault of a text, over the base of a semiring.
fn fault_over<S: Based>(alloc: Global, text: &[u8]) -> Option<TextFault> {
    match read::<S::Base>(alloc, text) {
        Ok(_matrix) => None,
        Err(fault) => Some(TextFault {
            line: fault.line,
            words: fault.kind.text(),
            is_memory: matches!(fault.kind, Kind::Memory),
        }),
    }
}

/// The first fault of a whole text. None if it is that of a matrix.
pub fn text_fault(alloc: Global, semiring: SemiringName, text: &[u8]) -> Option<TextFault> {
    over_semiring!(semiring, fault_over::<_>(alloc, text))
}
