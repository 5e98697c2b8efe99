//! Usage errors that `clap` doesn't find.
use crate::options::{has_word, is_there};
use crate::selection_words::{lists_of, takes_number};
use clap::ArgMatches;

/// A usage error as `clap` writes its own: what is wrong, and the usage of the command.
macro_rules! usage_error {
    ($wrong:literal, $usage:literal) => {
        concat!("error: ", $wrong, "\n\nUsage: cbgrid ", $usage, "\n\nFor more information, try '--help'.\n")
    };
}

/// A word that isn't text.
pub const NOT_UTF8: &str = usage_error!(
    "a word of the command line is not valid UTF-8",
    "<COMMAND>"
);

/// A function that takes a number without `--value`.
const NO_NUMBER: &str = usage_error!(
    "the argument '--value <N>' is required unless '--function' is row or column",
    "apply [OPTIONS] --function <FUNCTION> <A>"
);

/// A function that takes no number with `--value`.
const NUMBER_TOO_MANY: &str = usage_error!(
    "the argument '--value <N>' cannot be used if '--function' is row or column",
    "apply [OPTIONS] --function <FUNCTION> <A>"
);

/// The usage error of `--function` with `--value`, or without it.
fn number_conflict(found: &ArgMatches<'_>) -> Option<&'static str> {
    match (takes_number(found), is_there(found, "value")) {
        (true, false) => Some(NO_NUMBER),
        (false, true) => Some(NUMBER_TOO_MANY),
        _ => None,
    }
}

/// The usage error of `--trace` with `--engine plain`, which runs no ranks.
fn trace_conflict(found: &ArgMatches<'_>) -> Option<&'static str> {
    let is_plain = has_word(found, "trace", "true") && has_word(found, "engine", "plain");
    is_plain.then_some(usage_error!(
        "the argument '--trace' cannot be used with '--engine plain'",
        "multiply [OPTIONS] <A> <B>"
    ))
}

/// The usage error of neither `--rows` nor `--columns`.
fn list_conflict(found: &ArgMatches<'_>) -> Option<&'static str> {
    lists_of(found).is_none().then_some(usage_error!(
        "the argument '--rows <FILE>' or '--columns <FILE>' is required",
        "extract [OPTIONS] <A>"
    ))
}

/// The usage error of options that can't be combined, or that are missing, if there is one.
pub fn conflict_in(matches: &ArgMatches<'_>) -> Option<&'static str> {
    match matches.subcommand()? {
        ("multiply", found) => trace_conflict(found),
        ("apply", found) => number_conflict(found),
        ("extract", found) => list_conflict(found),
        _ => None,
    }
}
