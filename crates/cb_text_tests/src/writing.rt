//! Texts of matrices over grids and in panels, and of columns, written by several threads.
mod columns;
mod panels;
mod rounds;
mod threads;
