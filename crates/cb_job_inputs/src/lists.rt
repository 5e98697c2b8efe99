//! Lists of numbers of rows, of columns or of vertices, each a column in a text of its own. The numbers count from 1.
ghost use Rattle.std.specs.Prelude.{◌≡◌, ◌↔◌, ◌<◌, ◌≤◌, IsTrue, All, IfOk, IfErr, OnOk, length, map, ◌-◌};
ghost use Rattle.cb_dcsc.specs.Columns.{values_of};
ghost use Rattle.cb_matrix.specs.declared.TheConstants.{LIMIT};
ghost use Rattle.cb_job_inputs.specs.Lists.{AreNumbersTo, IsList, IsListRefusal, IsNumberTo, numbers_in};

use cb_dcsc::Block;
use cb_operations::Refusal;
use cb_semirings::PlusTimes;
use std::alloc::{AllocError, Global};

/// Whether each value is a number from 1 to the limit.
fn are_numbers(values: &[u64], limit: u32) -> bool
    ensures { IsTrue result ↔ All (IsNumberTo limit) values.now }
{
    values
        .iter()
        .all(|value| 1 <= *value && *value <= u64::from(limit))
}

/// Whether each place of a column has a number from 1 to the limit.
fn is_full(column: &Block<PlusTimes>, limit: u32) -> bool
    ensures { IsTrue result ↔ AreNumbersTo limit column.now }
{
    let places = column.shape().rows() as usize;
    column.len() == places && are_numbers(column.values(), limit)
}

/// Refuses a matrix that doesn't list numbers from 1 to the limit: one that isn't a column, then one with a place that has no such
/// number, for which the refusal is `missing`.
pub fn check_list(list: &Block<PlusTimes>, limit: u32, missing: Refusal) -> Result<(), Refusal>
    ensures ok { OnOk result (IsList limit list.now) }
    ensures refused { IfErr result (IsListRefusal missing limit list.now) }
{
    if list.shape().cols() != 1 {
        return Err(Refusal::NotColumn);
    }
    if is_full(list, limit) {
        Ok(())
    } else {
        Err(missing)
    }
}

/// The numbers of a list, counted from 0.
pub fn listed(alloc: Global, column: &Block<PlusTimes>, limit: u32) -> Result<Vec<u32>, AllocError>
    requires { IsList limit column.now }
    ensures numbers { IfOk result (λ v. v.items ≡ numbers_in column.now) }
    ensures below { IfOk result (λ v. All (λ i. i < limit) v.items) }
    ensures count { IfOk result (λ v. length v.items ≤ LIMIT) }
{
    let places = column.shape().rows();
    let numbers = less_one(alloc, column.values(), limit)?;
    prove!(numbers.len() <= places as usize);
    Ok(numbers)
}

/// The numbers, each less 1.
fn less_one(alloc: Global, values: &[u64], limit: u32) -> Result<Vec<u32>, AllocError>
    requires { All (IsNumberTo limit) values.now }
    ensures numbers { IfOk result (λ v. v.items ≡ map (λ x. x - 1) values.now) }
    ensures below { IfOk result (λ v. All (λ i. i < limit) v.items) }
{
    let mut numbers = Vec::with_capacity(alloc, values.len())?;
    for value in values {
        numbers.push_reserved((*value - 1) as u32);
    }
    Ok(numbers)
}
