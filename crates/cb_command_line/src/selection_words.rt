//! Reads the selection of a command line.
ghost use Rattle.std.specs.Prelude.{◌≡◌, IfSome, codes};
ghost use Rattle.std.specs.Int.NonZero.{non_zero_u32_get};
ghost use Rattle.cb_command_line.specs.Asked.{AsksForSelection, choice, corner_in, diagonal_at, function_in, kept_in, lists_in, regions};
ghost use Rattle.cb_command_line.specs.Options.{number, rows_in};

use crate::lists::Lists;
use crate::options::{
    has_word, integer_of, is_there, number_of, place_of, small_number_of, word_of,
};
use cb_operations::{Diagonal, Function, Region, Selection};
use clap::ArgMatches;
use std::num::NonZeroU32;

/// The corner of `--row` and `--column`, a row and a column, counted from 0.
fn corner_of(found: &ArgMatches<'_>) -> Option<(u32, u32)>
    ensures { IfSome result (λ corner. corner_in (rows_in found.now) ≡ Some corner) }
{
    let row = place_of(found, "row")?;
    let column = place_of(found, "column")?;
    Some((row, column))
}

/// The lists of `extract`, or None if there is no list.
pub fn lists_of(found: &ArgMatches<'_>) -> Option<Lists>
    ensures { result ≡ lists_in (rows_in found.now) }
{
    match (is_there(found, "rows"), is_there(found, "columns")) {
        (true, true) => Some(Lists::Both),
        (true, false) => Some(Lists::Rows),
        (false, true) => Some(Lists::Columns),
        (false, false) => None,
    }
}

/// The diagonal of a number, by its first place. A positive one is as many columns right of the main diagonal, a negative one
/// as many rows below it.
fn diagonal_of(number: i64) -> Option<Diagonal>
    ensures { IfSome result (λ diagonal. diagonal_at number ≡ diagonal) }
{
    let distance = u32::try_from(number.unsigned_abs()).ok()?;
    if number < 0 {
        Some(Diagonal {
            row: distance,
            column: 0,
        })
    } else {
        Some(Diagonal {
            row: 0,
            column: distance,
        })
    }
}

fn region_of(found: &ArgMatches<'_>, diagonal: Diagonal) -> Option<Region>
    ensures { result ≡ choice (codes "region") (regions diagonal) (rows_in found.now) }
{
    match word_of(found, "region")? {
        "lower" => Some(Region::Lower(diagonal)),
        "upper" => Some(Region::Upper(diagonal)),
        "diagonal" => Some(Region::On(diagonal)),
        "off-diagonal" => Some(Region::Off(diagonal)),
        _ => None,
    }
}

/// The selection of `select`.
fn kept_of(found: &ArgMatches<'_>) -> Option<Selection>
    ensures { IfSome result (λ selection. kept_in (rows_in found.now) ≡ Some selection) }
{
    let diagonal = diagonal_of(integer_of(found, "diagonal")?)?;
    Some(Selection::Select(region_of(found, diagonal)?))
}

/// The function of `apply`. The number of a product is its right factor.
fn function_of(found: &ArgMatches<'_>) -> Option<Function>
    ensures { IfSome result (λ function. function_in (rows_in found.now) ≡ Some function) }
{
    let number = number_of(found, "value");
    match word_of(found, "function")? {
        "constant" => Some(Function::Constant(number?)),
        "plus" => Some(Function::Sum(number?)),
        "times" => Some(Function::RightProduct(number?)),
        "row" => Some(Function::Row),
        "column" => Some(Function::Column),
        _ => None,
    }
}

/// Whether the function of `apply` takes a number.
pub fn takes_number(found: &ArgMatches<'_>) -> bool {
    !matches!(word_of(found, "function"), Some("row" | "column"))
}

/// How many factors the power of `power` has.
fn factors_of(found: &ArgMatches<'_>) -> Option<NonZeroU32>
    ensures { IfSome result (λ factors. number 32 (codes "exponent") (rows_in found.now) ≡ Some (non_zero_u32_get factors)) }
{
    NonZeroU32::new(small_number_of(found, "exponent")?)
}

/// The selection of a command.
pub fn selection_of(command: &str, found: &ArgMatches<'_>) -> Option<Selection>
    ensures { IfSome result (AsksForSelection command.now (rows_in found.now)) }
{
    match command {
        "select" => kept_of(found),
        "apply" => Some(Selection::Apply(function_of(found)?)),
        "diagonal" if has_word(found, "as", "matrix") => Some(Selection::DiagonalMatrix),
        "diagonal" => Some(Selection::Diagonal),
        "power" => Some(Selection::Power(factors_of(found)?)),
        "kron" => Some(Selection::Kronecker),
        "assign" => Some(Selection::Assign(corner_of(found)?)),
        _ => None,
    }
}
