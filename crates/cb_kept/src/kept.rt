//! A kept matrix: a matrix in panels over any of the semirings, as one type; how a matrix becomes one, and how it gives its panels.
#![tactic(auto, unfolding(crate::specs::Kept::semiring_of, crate::specs::Kept::matrix_in))]

ghost use Rattle.std.specs.Prelude.{◌≡◌, length, Some, IfOk, IfErr};
ghost use Rattle.cb_semirings.specs.Names.{numbered};
ghost use Rattle.cb_semirings.specs.declared.names.SemiringName.TheVariants as name_is;
ghost use Rattle.cb_matrix.specs.Sparse.{IsMatrix};
ghost use Rattle.cb_kept.specs.Kept.{IsMixed, Keeps, nothing, semiring_of, matrix_in};

use crate::faults::Fault;
use cb_dcsc::Block;
use cb_layout::PanelledMatrix;
use cb_matrix::Shape;
use cb_semirings::{
    MaxFirst, MaxMin, MaxPlus, MaxSecond, MinFirst, MinMax, MinPlus, MinSecond, OrAnd, PlusFirst,
    PlusMin, PlusPair, PlusSecond, PlusTimes, Semiring, SemiringName,
};
use std::alloc::Global;
use std::mem::replace;

/// A matrix over one of the semirings, in panels. What one thread makes has one panel.
#[derive(Drop)]
pub enum Kept {
    PlusTimes(PanelledMatrix<PlusTimes>),
    MinPlus(PanelledMatrix<MinPlus>),
    OrAnd(PanelledMatrix<OrAnd>),
    MaxMin(PanelledMatrix<MaxMin>),
    PlusPair(PanelledMatrix<PlusPair>),
    PlusMin(PanelledMatrix<PlusMin>),
    PlusFirst(PanelledMatrix<PlusFirst>),
    PlusSecond(PanelledMatrix<PlusSecond>),
    MinFirst(PanelledMatrix<MinFirst>),
    MinSecond(PanelledMatrix<MinSecond>),
    MaxFirst(PanelledMatrix<MaxFirst>),
    MaxSecond(PanelledMatrix<MaxSecond>),
    MaxPlus(PanelledMatrix<MaxPlus>),
    MinMax(PanelledMatrix<MinMax>),
}

/// What is made of a kept matrix in panels, over any semiring: `of_matrix!(kept, matrix => ..)` has an arm for each.
#[macro_export]
macro_rules! of_matrix {
    ($kept:expr, $matrix:ident => $made:expr) => {
        match $kept {
            $crate::Kept::PlusTimes($matrix) => $made,
            $crate::Kept::MinPlus($matrix) => $made,
            $crate::Kept::OrAnd($matrix) => $made,
            $crate::Kept::MaxMin($matrix) => $made,
            $crate::Kept::PlusPair($matrix) => $made,
            $crate::Kept::PlusMin($matrix) => $made,
            $crate::Kept::PlusFirst($matrix) => $made,
            $crate::Kept::PlusSecond($matrix) => $made,
            $crate::Kept::MinFirst($matrix) => $made,
            $crate::Kept::MinSecond($matrix) => $made,
            $crate::Kept::MaxFirst($matrix) => $made,
            $crate::Kept::MaxSecond($matrix) => $made,
            $crate::Kept::MaxPlus($matrix) => $made,
            $crate::Kept::MinMax($matrix) => $made,
        }
    };
}

/// What is made of two kept matrices over one semiring, or else of other ones.
macro_rules! of_both {
    ($front:expr, $back:expr, $first:ident, $last:ident => $made:expr, $other:expr) => {
        match ($front, $back) {
            (Kept::PlusTimes($first), Kept::PlusTimes($last)) => $made,
            (Kept::MinPlus($first), Kept::MinPlus($last)) => $made,
            (Kept::OrAnd($first), Kept::OrAnd($last)) => $made,
            (Kept::MaxMin($first), Kept::MaxMin($last)) => $made,
            (Kept::PlusPair($first), Kept::PlusPair($last)) => $made,
            (Kept::PlusMin($first), Kept::PlusMin($last)) => $made,
            (Kept::PlusFirst($first), Kept::PlusFirst($last)) => $made,
            (Kept::PlusSecond($first), Kept::PlusSecond($last)) => $made,
            (Kept::MinFirst($first), Kept::MinFirst($last)) => $made,
            (Kept::MinSecond($first), Kept::MinSecond($last)) => $made,
            (Kept::MaxFirst($first), Kept::MaxFirst($last)) => $made,
            (Kept::MaxSecond($first), Kept::MaxSecond($last)) => $made,
            (Kept::MaxPlus($first), Kept::MaxPlus($last)) => $made,
            (Kept::MinMax($first), Kept::MinMax($last)) => $made,
            _ => $other,
        }
    };
}

pub(crate) use of_both;

impl Kept {
    /// The number of the semiring.
    pub(crate) fn number(&self) -> u32
        ensures { numbered result ≡ Some (semiring_of self.now) }
    {
        match self {
            Kept::PlusTimes(_matrix) => 0,
            Kept::MinPlus(_matrix) => 1,
            Kept::OrAnd(_matrix) => 2,
            Kept::MaxMin(_matrix) => 3,
            Kept::PlusPair(_matrix) => 4,
            Kept::PlusMin(_matrix) => 5,
            Kept::PlusFirst(_matrix) => 6,
            Kept::PlusSecond(_matrix) => 7,
            Kept::MinFirst(_matrix) => 8,
            Kept::MinSecond(_matrix) => 9,
            Kept::MaxFirst(_matrix) => 10,
            Kept::MaxSecond(_matrix) => 11,
            Kept::MaxPlus(_matrix) => 12,
            Kept::MinMax(_matrix) => 13,
        }
    }

    /// The shape of the matrix.
    pub(crate) fn shape(&self) -> Shape
        ensures { result ≡ (matrix_in self.now).shape }
    {
        of_matrix!(self, matrix => matrix.shape())
    }

    /// How many entries the matrix has.
    pub(crate) fn len(&self) -> usize
        ensures { result ≡ length (matrix_in self.now).entries }
    {
        of_matrix!(self, matrix => matrix.len())
    }

    /// Frees the matrix, and leaves another in its place.
    pub(crate) fn set(&mut self, kept: Kept)
        ensures { self.new ≡ kept }
    {
        *self = kept;
    }

    /// A matrix without rows, columns and entries.
    pub(crate) fn nothing(alloc: Global) -> Kept
        ensures { result ≡ nothing }
    {
        let nothing = Block::<PlusTimes>::empty(alloc, Shape::new(0, 0).unwrap());
        Kept::PlusTimes(PanelledMatrix::from_block(alloc, nothing))
    }
}

/// A semiring whose matrices can be kept.
pub trait Keep: Semiring {
    ghost use Rattle.cb_semirings.specs.declared.names.SemiringName.{SemiringName};
    ghost use Rattle.cb_kept.specs.Kept.{IsMixed, Keeps};

    /// The name of the semiring.
    ghost name: { SemiringName };

    /// Makes a matrix a kept matrix, and leaves one without entries in its place.
    fn keep(alloc: Global, matrix: &mut PanelledMatrix<Self>) -> Kept
        ensures { Keeps name matrix.old result };

    /// The panels of a kept matrix, which has to be over this semiring.
    fn panels_of(kept: &Kept) -> Result<&PanelledMatrix<Self>, Fault>
        ensures panels { IfOk result (λ m. Keeps name m.now kept.now) }
        ensures fault { IfErr result (IsMixed name kept.now) };
}

/// Takes a matrix, and leaves one of its shape without entries in its place.
fn taken<S: Semiring>(alloc: Global, matrix: &mut PanelledMatrix<S>) -> PanelledMatrix<S>
    ensures { result ≡ matrix.old }
{
    let nothing = Block::empty(alloc, matrix.shape());
    replace(matrix, PanelledMatrix::from_block(alloc, nothing))
}

/// Keeps a block, as a matrix of one panel.
pub fn keep_block<S: Keep>(alloc: Global, block: Block<S>) -> Kept
    ensures keeps { Keeps S.name block result }
    ensures matrix { IsMatrix S.arithmetic block }
{
    let _shape = block.shape();
    S::keep(alloc, &mut PanelledMatrix::from_block(alloc, block))
}

/// The panels of a kept matrix, if it is over this semiring.
macro_rules! panels_over {
    ($kept:expr, $semiring:ident) => {
        match $kept {
            Kept::$semiring(matrix) => Ok(matrix),
            _ => Err(Fault::Mixed),
        }
    };
}

impl Keep for PlusTimes {
    ghost name = { name_is.PlusTimes };

    fn keep(alloc: Global, matrix: &mut PanelledMatrix<PlusTimes>) -> Kept {
        Kept::PlusTimes(taken(alloc, matrix))
    }

    fn panels_of(kept: &Kept) -> Result<&PanelledMatrix<PlusTimes>, Fault> {
        panels_over!(kept, PlusTimes)
    }
}

impl Keep for MinPlus {
    ghost name = { name_is.MinPlus };

    fn keep(alloc: Global, matrix: &mut PanelledMatrix<MinPlus>) -> Kept {
        Kept::MinPlus(taken(alloc, matrix))
    }

    fn panels_of(kept: &Kept) -> Result<&PanelledMatrix<MinPlus>, Fault> {
        panels_over!(kept, MinPlus)
    }
}

impl Keep for OrAnd {
    ghost name = { name_is.OrAnd };

    fn keep(alloc: Global, matrix: &mut PanelledMatrix<OrAnd>) -> Kept {
        Kept::OrAnd(taken(alloc, matrix))
    }

    fn panels_of(kept: &Kept) -> Result<&PanelledMatrix<OrAnd>, Fault> {
        panels_over!(kept, OrAnd)
    }
}

impl Keep for MaxMin {
    ghost name = { name_is.MaxMin };

    fn keep(alloc: Global, matrix: &mut PanelledMatrix<MaxMin>) -> Kept {
        Kept::MaxMin(taken(alloc, matrix))
    }

    fn panels_of(kept: &Kept) -> Result<&PanelledMatrix<MaxMin>, Fault> {
        panels_over!(kept, MaxMin)
    }
}

impl Keep for PlusPair {
    ghost name = { name_is.PlusPair };

    fn keep(alloc: Global, matrix: &mut PanelledMatrix<PlusPair>) -> Kept {
        Kept::PlusPair(taken(alloc, matrix))
    }

    fn panels_of(kept: &Kept) -> Result<&PanelledMatrix<PlusPair>, Fault> {
        panels_over!(kept, PlusPair)
    }
}

impl Keep for PlusMin {
    ghost name = { name_is.PlusMin };

    fn keep(alloc: Global, matrix: &mut PanelledMatrix<PlusMin>) -> Kept {
        Kept::PlusMin(taken(alloc, matrix))
    }

    fn panels_of(kept: &Kept) -> Result<&PanelledMatrix<PlusMin>, Fault> {
        panels_over!(kept, PlusMin)
    }
}

impl Keep for PlusFirst {
    ghost name = { name_is.PlusFirst };

    fn keep(alloc: Global, matrix: &mut PanelledMatrix<PlusFirst>) -> Kept {
        Kept::PlusFirst(taken(alloc, matrix))
    }

    fn panels_of(kept: &Kept) -> Result<&PanelledMatrix<PlusFirst>, Fault> {
        panels_over!(kept, PlusFirst)
    }
}

impl Keep for PlusSecond {
    ghost name = { name_is.PlusSecond };

    fn keep(alloc: Global, matrix: &mut PanelledMatrix<PlusSecond>) -> Kept {
        Kept::PlusSecond(taken(alloc, matrix))
    }

    fn panels_of(kept: &Kept) -> Result<&PanelledMatrix<PlusSecond>, Fault> {
        panels_over!(kept, PlusSecond)
    }
}

impl Keep for MinFirst {
    ghost name = { name_is.MinFirst };

    fn keep(alloc: Global, matrix: &mut PanelledMatrix<MinFirst>) -> Kept {
        Kept::MinFirst(taken(alloc, matrix))
    }

    fn panels_of(kept: &Kept) -> Result<&PanelledMatrix<MinFirst>, Fault> {
        panels_over!(kept, MinFirst)
    }
}

impl Keep for MinSecond {
    ghost name = { name_is.MinSecond };

    fn keep(alloc: Global, matrix: &mut PanelledMatrix<MinSecond>) -> Kept {
        Kept::MinSecond(taken(alloc, matrix))
    }

    fn panels_of(kept: &Kept) -> Result<&PanelledMatrix<MinSecond>, Fault> {
        panels_over!(kept, MinSecond)
    }
}

impl Keep for MaxFirst {
    ghost name = { name_is.MaxFirst };

    fn keep(alloc: Global, matrix: &mut PanelledMatrix<MaxFirst>) -> Kept {
        Kept::MaxFirst(taken(alloc, matrix))
    }

    fn panels_of(kept: &Kept) -> Result<&PanelledMatrix<MaxFirst>, Fault> {
        panels_over!(kept, MaxFirst)
    }
}

impl Keep for MaxSecond {
    ghost name = { name_is.MaxSecond };

    fn keep(alloc: Global, matrix: &mut PanelledMatrix<MaxSecond>) -> Kept {
        Kept::MaxSecond(taken(alloc, matrix))
    }

    fn panels_of(kept: &Kept) -> Result<&PanelledMatrix<MaxSecond>, Fault> {
        panels_over!(kept, MaxSecond)
    }
}

impl Keep for MaxPlus {
    ghost name = { name_is.MaxPlus };

    fn keep(alloc: Global, matrix: &mut PanelledMatrix<MaxPlus>) -> Kept {
        Kept::MaxPlus(taken(alloc, matrix))
    }

    fn panels_of(kept: &Kept) -> Result<&PanelledMatrix<MaxPlus>, Fault> {
        panels_over!(kept, MaxPlus)
    }
}

impl Keep for MinMax {
    ghost name = { name_is.MinMax };

    fn keep(alloc: Global, matrix: &mut PanelledMatrix<MinMax>) -> Kept {
        Kept::MinMax(taken(alloc, matrix))
    }

    fn panels_of(kept: &Kept) -> Result<&PanelledMatrix<MinMax>, Fault> {
        panels_over!(kept, MinMax)
    }
}
