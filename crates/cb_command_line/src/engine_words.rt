//! Reads what computes a job: ranks or none, the side of their grid, and threads.
ghost use Rattle.std.specs.Prelude.{◌≡◌, ◌≤◌, IfSome, max, min};
ghost use Rattle.cb_command_line.specs.Asked.{IsDefaultSide, IsSideOf, asks_for_ranks, engine_in, is_plain, is_traced, lane_in, most_threads};
ghost use Rattle.cb_command_line.specs.Options.{rows_in};

use crate::jobs::EngineName;
use crate::options::{has_word, is_there, small_number_of};
use clap::ArgMatches;

/// The greatest side of a grid of ranks.
const LARGEST_SIDE: u32 = 6;

/// The most threads by default: the number of ranks of the largest grid.
const MOST_THREADS: usize = 36;

/// How many letters a lane has room for.
fn lane_of(found: &ArgMatches<'_>) -> usize
    ensures { result ≡ lane_in (rows_in found.now) }
{
    small_number_of(found, "lane").unwrap_or(2) as usize
}

/// Whether the command line asks for a trace.
fn asks_for_trace(found: &ArgMatches<'_>) -> bool
    ensures { result ≡ is_traced (rows_in found.now) }
{
    has_word(found, "trace", "true")
}

/// Whether the command line asks for ranks, by name or by an option that only ranks need.
fn asks_for_ranks(found: &ArgMatches<'_>) -> bool
    ensures { result ≡ asks_for_ranks (rows_in found.now) }
{
    has_word(found, "engine", "ranks")
        || is_there(found, "grid")
        || is_there(found, "lane")
        || asks_for_trace(found)
}

/// Whether the command line asks for one thread.
fn is_plain(found: &ArgMatches<'_>) -> bool
    ensures { result ≡ is_plain (rows_in found.now) }
{
    has_word(found, "engine", "plain")
}

/// What computes a command. By default no ranks do.
pub fn engine_of(found: &ArgMatches<'_>) -> EngineName
    ensures { result ≡ engine_in (rows_in found.now) }
{
    if is_plain(found) {
        EngineName::Plain
    } else if asks_for_trace(found) {
        EngineName::Traced(lane_of(found))
    } else if asks_for_ranks(found) {
        EngineName::Ranks(lane_of(found))
    } else {
        EngineName::Plain
    }
}

/// The default side of the grid: the largest with no more ranks than processors, and 2 for two or three processors.
fn side_for(processors: usize) -> u32
    ensures { IsDefaultSide processors result }
{
    match processors {
        0..=1 => 1,
        2..=8 => 2,
        9..=15 => 3,
        16..=24 => 4,
        25..=35 => 5,
        _ => 6,
    }
}

/// The side of a command's grid. By default it follows the number of processors; with `--trace` it is 2.
pub fn side_of(found: &ArgMatches<'_>, processors: usize) -> Option<u32>
    ensures some { IfSome result (λ side. 1 ≤ side) }
    ensures few { IfSome result (λ side. side ≤ 6) }
    ensures asked { IfSome result (IsSideOf processors (rows_in found.now)) }
{
    let side = match small_number_of(found, "grid") {
        Some(side) => side,
        None if asks_for_trace(found) => 2,
        None => side_for(processors),
    };
    (1..=LARGEST_SIDE).contains(&side).then_some(side)
}

/// How many threads may read and write for a command, and compute it without ranks: one with `--engine plain`, and otherwise
/// as many as processors, up to as many as ranks if ranks compute it, and else up to `MOST_THREADS`.
pub fn threads_of(found: &ArgMatches<'_>, side: u32, processors: usize) -> u32
    requires { side ≤ 6 }
    ensures { result ≡ max 1 (min processors (most_threads (rows_in found.now) side)) }
{
    let most = if is_plain(found) {
        1
    } else if asks_for_ranks(found) {
        (side * side) as usize
    } else {
        MOST_THREADS
    };
    processors.min(most).max(1) as u32
}
