//! Lists of numbers that a command line names files of.

/// Which of the rows and columns of a matrix have a list of numbers. All of those without one are meant.
#[derive(Clone, Copy, PartialEq, Eq)]
pub enum Lists {
    Rows,
    Columns,
    /// First the list of rows, then that of columns.
    Both,
}
