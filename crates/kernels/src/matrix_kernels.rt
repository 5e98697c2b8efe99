//! Sums and products place by place, sums of rows and columns, parts, and entries by their place or value.
use crate::printing::show;
use crate::product_kernels::{LEFT, RIGHT};
use cb_dcsc::Block;
use cb_elementwise::{add, exclude, mask, prune, times};
use cb_matrix::Test;
use cb_operations::{Diagonal, Function, Region};
use cb_reshape::{
    column_of_list, column_sums, cut, place, row_sums, total, transpose, transpose_rows,
};
use cb_samples::{block, entry, shape};
use cb_selections::{
    WriteBack, apply, assign, diagonal, diagonal_matrix, extract, extract_columns, extract_rows,
    select, update,
};
use cb_semirings::PlusTimes;

/// Two matrices, place by place.
pub fn element_wise(rt: &HostRuntime) -> anyhow::Result<()> {
    let alloc = rt.alloc();
    let left: Block<PlusTimes> = block(alloc, 2, 2, LEFT)?;
    let right: Block<PlusTimes> = block(alloc, 2, 2, RIGHT)?;
    show(rt, "add", &add(alloc, &left, &right)?)?;
    show(rt, "times", &times(alloc, &left, &right)?)?;
    show(rt, "mask", &mask(alloc, &left, &right)?)?;
    show(rt, "exclude", &exclude(alloc, &left, &right)?)?;
    show(rt, "prune, above 2", &prune(alloc, &left, Test::Above(2))?)?;
    let how = WriteBack {
        complement: false,
        accumulate: true,
        replace: true,
    };
    let sum = update(alloc, how, &left, &right, Some(&right))?;
    show(rt, "update, sums where the right has entries", &sum)?;
    Ok(())
}

/// Sums, and the values of a list.
pub fn sums(rt: &HostRuntime) -> anyhow::Result<()> {
    let alloc = rt.alloc();
    let left: Block<PlusTimes> = block(alloc, 2, 2, LEFT)?;
    show(rt, "row_sums", &row_sums(alloc, &left)?)?;
    show(rt, "column_sums", &column_sums(alloc, &left)?)?;
    println!(rt; "total: {}", total(&left))?;
    let listed: Block<PlusTimes> = column_of_list(alloc, shape(3, 1)?, &[6, 0, 8])?;
    show(rt, "column_of_list, 6, 0, 8", &listed)?;
    Ok(())
}

/// Parts of a matrix, and parts put into one.
pub fn parts(rt: &HostRuntime) -> anyhow::Result<()> {
    let alloc = rt.alloc();
    let left: Block<PlusTimes> = block(alloc, 2, 2, LEFT)?;
    let part: Block<PlusTimes> = block(alloc, 1, 1, &[entry(0, 0, 9)])?;
    show(rt, "cut, row 0", &cut(alloc, &left, (0, 1), (0, 2))?)?;
    show(
        rt,
        "place, at (1, 0)",
        &place(alloc, &left, shape(3, 2)?, (1, 0))?,
    )?;
    show(
        rt,
        "assign, at (0, 1)",
        &assign(alloc, &left, (0, 1), &part)?,
    )?;
    let corner = extract(alloc, &left, Some(&[1, 0]), Some(&[1]))?;
    show(rt, "extract, rows 1 and 0 of column 1", &corner)?;
    show(rt, "extract_rows, 1", &extract_rows(alloc, &left, &[1])?)?;
    show(
        rt,
        "extract_columns, 1 and 1",
        &extract_columns(alloc, &left, &[1, 1])?,
    )?;
    Ok(())
}

/// The diagonal from (0, 0) on.
const MAIN: Diagonal = Diagonal { row: 0, column: 0 };

/// Entries by their place or value.
pub fn places(rt: &HostRuntime) -> anyhow::Result<()> {
    let alloc = rt.alloc();
    let left: Block<PlusTimes> = block(alloc, 2, 2, LEFT)?;
    show(rt, "transpose", &transpose(alloc, &left)?)?;
    show(
        rt,
        "transpose_rows, row 1",
        &transpose_rows(alloc, &left, (1, 2))?,
    )?;
    show(
        rt,
        "select, on or below the diagonal",
        &select(alloc, &left, Region::Lower(MAIN))?,
    )?;
    show(
        rt,
        "apply, plus 10",
        &apply(alloc, &left, Function::Sum(10))?,
    )?;
    let column = diagonal(alloc, &left)?;
    show(rt, "diagonal", &column)?;
    let listed: Block<PlusTimes> = column_of_list(alloc, shape(2, 1)?, &[5, 7])?;
    show(
        rt,
        "diagonal_matrix, 5 and 7",
        &diagonal_matrix(alloc, &listed)?,
    )?;
    Ok(())
}
