//! Command lines, and the lines of faults.
use cb_command_line::EngineName::{Plain, Ranks, Traced};
use cb_command_line::Task::{Compute, Extract};
use cb_command_line::{EngineName, Job, Lists, Task, UsageFault, read_job};
use cb_job_ends::faults::JobFault;
use cb_job_runs::fault_lines::fault_line;
use cb_job_runs::statuses::status;
use cb_market::{Kind, ReadFault};
use cb_matrix::Test;
use cb_operations::{
    Computation, Diagonal, Function, GraphTask, Operation, Refusal, Region, Selection,
};
use cb_rank_faults::RanksFault;
use cb_semirings::SemiringName;
use cb_semirings::SemiringName::{MaxMin, MaxPlus, MinPlus, OrAnd, PlusTimes};
use std::alloc::{AllocError, Global};
use std::num::NonZeroU32;
use std::test::Fail;

/// The words of a text.
fn words(alloc: Global, text: &str) -> Result<Vec<String>, AllocError> {
    let mut words = Vec::new(alloc);
    for word in text.split_whitespace() {
        words.push(String::from_str(alloc, word)?)?;
    }
    Ok(words)
}

/// The job of a command line with this many processors, or why there is none.
fn job_by(alloc: Global, line: &str, processors: usize) -> Result<Job, UsageFault> {
    let words = words(alloc, line)?;
    read_job(alloc, words.as_slice(), processors)
}

/// The job of a command line with four processors, or why there is none.
fn job(alloc: Global, line: &str) -> Result<Job, UsageFault> {
    job_by(alloc, line, 4)
}

/// Command lines, written without `cbgrid`, each with what is wanted of those in its row.
macro_rules! lines {
    ($($($line:literal)|+ => $wanted:expr;)+) => {
        [$($((concat!("cbgrid ", $line), $wanted)),+),+]
    };
}

/// Command lines, written without `cbgrid`: a command, and what comes after it in each line.
macro_rules! lines_of {
    ($($command:literal: $($rest:literal)|+;)+) => {
        [$($(concat!("cbgrid ", $command, " ", $rest)),+),+]
    };
}

/// Whether a command line asks for this task on these files, in this order.
fn asks_for(alloc: Global, line: &str, task: Task, files: &str) -> bool {
    match (job(alloc, line), words(alloc, files)) {
        (Ok(job), Ok(files)) => job.task == task && job.files() == files.as_slice(),
        _ => false,
    }
}

/// Command lines that ask for an operation over a semiring, and the files.
const OPERATIONS: &[(&str, (Operation, SemiringName, &str))] = &lines! {
    "multiply left.mtx right.mtx" => (Operation::Multiply, PlusTimes, "left.mtx right.mtx");
    "multiply --mask kept.mtx a.mtx --grid 6 b.mtx --engine plain" =>
        (Operation::MultiplyMasked, PlusTimes, "a.mtx b.mtx kept.mtx");
    "multiply a b --semiring plus-times" | "multiply a b --trace" => (Operation::Multiply, PlusTimes, "a b");
    "multiply --semiring min-plus a b" => (Operation::Multiply, MinPlus, "a b");
    "multiply a --semiring=or-and b" => (Operation::Multiply, OrAnd, "a b");
    "multiply a b --semiring max-min" => (Operation::Multiply, MaxMin, "a b");
    "multiply --trace a b --mask m --lane 7 --engine ranks" => (Operation::MultiplyMasked, PlusTimes, "a b m");
    "spmv a x" => (Operation::MultiplyVector, PlusTimes, "a x");
    "transpose a" => (Operation::Transpose, PlusTimes, "a");
    "reduce a" => (Operation::RowSums, PlusTimes, "a");
    "reduce --by rows a --semiring min-plus" => (Operation::RowSums, MinPlus, "a");
    "reduce a --by=columns" => (Operation::ColumnSums, PlusTimes, "a");
    "add a b" => (Operation::Add, PlusTimes, "a b");
    "times a b" => (Operation::Times, PlusTimes, "a b");
    "prune a --test below --value 0" => (Operation::Prune(Test::Below(0)), PlusTimes, "a");
    "prune --value 18446744073709551615 a --test above" =>
        (Operation::Prune(Test::Above(u64::MAX)), PlusTimes, "a");
    "prune a --test=equal --value=7" => (Operation::Prune(Test::Equal(7)), PlusTimes, "a");
};

#[test]
fn ask_for_operations(rt: HostRuntime) {
    for (line, (operation, semiring, files)) in OPERATIONS {
        let task = Compute(Computation::Operation(*operation), *semiring);
        assert!(rt; asks_for(rt.alloc(), line, task, files), "{line}");
    }
}

/// Command lines that ask for a task on a graph, and the files.
const GRAPHS: &[(&str, (GraphTask, &str))] = &lines! {
    "bfs a --source 1" => (GraphTask::Levels { source: 0 }, "a");
    "bfs --source=2147483647 a" => (GraphTask::Levels { source: 2_147_483_646 }, "a");
    "relax --source 9 a --grid 3" => (GraphTask::Distances { source: 8 }, "a");
    "parents a --source 3" => (GraphTask::Parents { source: 2 }, "a");
    "components a" => (GraphTask::Components, "a");
    "triangles a" | "triangles a --by graph" => (GraphTask::Triangles, "a");
    "triangles --by vertex a" => (GraphTask::TriangleCounts, "a");
    "degrees a" | "degrees --by row a" => (GraphTask::RowDegrees, "a");
    "degrees a --by=column" => (GraphTask::ColumnDegrees, "a");
    "bfs-from a s" => (GraphTask::LevelsFrom, "a s");
    "relax-from s a" => (GraphTask::DistancesFrom, "s a");
    "bfs-given a x" => (GraphTask::LevelsGiven, "a x");
    "relax-given x a" => (GraphTask::DistancesGiven, "x a");
};

#[test]
fn ask_for_tasks_on_graphs(rt: HostRuntime) {
    for (line, (task, files)) in GRAPHS {
        assert!(rt;
            asks_for(rt.alloc(), line, Task::Graph(*task), files),
            "{line}"
        );
    }
}

/// Command lines that ask for the entries of `a` in a region over a semiring.
const REGIONS: &[(&str, (Region, SemiringName))] = &lines! {
    "select a --region lower" => (Region::Lower(Diagonal { row: 0, column: 0 }), PlusTimes);
    "select a --region=upper --diagonal 2147483647 --semiring or-and" => (Region::Upper(Diagonal { row: 0, column: 2_147_483_647 }), OrAnd);
    "select --region diagonal --diagonal -2147483647 a" => (Region::On(Diagonal { row: 2_147_483_647, column: 0 }), PlusTimes);
    "select --diagonal=-1 a --region off-diagonal" => (Region::Off(Diagonal { row: 1, column: 0 }), PlusTimes);
};

#[test]
fn ask_for_regions(rt: HostRuntime) {
    for (line, (region, semiring)) in REGIONS {
        let task = Compute(
            Computation::Selection(Selection::Select(*region)),
            *semiring,
        );
        assert!(rt; asks_for(rt.alloc(), line, task, "a"), "{line}");
    }
}

/// Command lines that ask for a function of the values of `a` over a semiring.
const FUNCTIONS: &[(&str, (Function, SemiringName))] = &lines! {
    "apply a --function constant --value 0" => (Function::Constant(0), PlusTimes);
    "apply --value=18446744073709551615 a --function plus" => (Function::Sum(u64::MAX), PlusTimes);
    "apply a --function=times --value 3 --semiring max-plus" => (Function::RightProduct(3), MaxPlus);
    "apply a --function row" => (Function::Row, PlusTimes);
    "apply --function column a" => (Function::Column, PlusTimes);
};

#[test]
fn ask_for_functions(rt: HostRuntime) {
    for (line, (function, semiring)) in FUNCTIONS {
        let task = Compute(
            Computation::Selection(Selection::Apply(*function)),
            *semiring,
        );
        assert!(rt; asks_for(rt.alloc(), line, task, "a"), "{line}");
    }
}

/// Command lines that ask for any other selection over a semiring, and the files.
const SELECTIONS: [(&str, (Selection, SemiringName, &str)); 7] = lines! {
    "diagonal a" => (Selection::Diagonal, PlusTimes, "a");
    "diagonal --as matrix x --semiring min-plus" => (Selection::DiagonalMatrix, MinPlus, "x");
    "power a --exponent 1" => (Selection::Power(NonZeroU32::MIN), PlusTimes, "a");
    "power --exponent=4294967295 a --semiring or-and" => (Selection::Power(NonZeroU32::MAX), OrAnd, "a");
    "kron a b --semiring max-min" => (Selection::Kronecker, MaxMin, "a b");
    "assign a b --row 1 --column 2147483647" => (Selection::Assign((0, 2_147_483_646)), PlusTimes, "a b");
    "assign --column=3 a --semiring max-min --row 2147483647 b" => (Selection::Assign((2_147_483_646, 2)), MaxMin, "a b");
};

#[test]
fn ask_for_selections(rt: HostRuntime) {
    for (line, (selection, semiring, files)) in &SELECTIONS {
        let task = Compute(Computation::Selection(*selection), *semiring);
        assert!(rt; asks_for(rt.alloc(), line, task, files), "{line}");
    }
}

/// Command lines that ask for rows and columns by lists over a semiring, and the files.
const EXTRACTS: &[(&str, (Lists, SemiringName, &str))] = &lines! {
    "extract a --rows k" => (Lists::Rows, PlusTimes, "a k");
    "extract --columns=l --semiring max-min a" => (Lists::Columns, MaxMin, "a l");
    "extract --columns l a --semiring or-and --rows k" => (Lists::Both, OrAnd, "a k l");
};

#[test]
fn ask_for_extracts(rt: HostRuntime) {
    for (line, (lists, semiring, files)) in EXTRACTS {
        let task = Extract(*lists, *semiring);
        assert!(rt; asks_for(rt.alloc(), line, task, files), "{line}");
    }
}

/// What a command line chooses with this many processors: the engine, the side of the grid, and how many threads may work.
type Choice = (usize, EngineName, u32, u32);

const CHOICES: &[(&str, Choice)] = &lines! {
    "multiply a b" | "triangles a" | "power a --exponent 2" => (1, Plain, 1, 1);
    "multiply a b" => (2, Plain, 2, 2);
    "multiply a b --mask m" => (8, Plain, 2, 8);
    "multiply a b --grid 2" => (8, Ranks(2), 2, 4);
    "multiply a b --lane 3" => (8, Ranks(3), 2, 4);
    "transpose a" | "extract a --rows k" => (9, Plain, 3, 9);
    "spmv a x" | "bfs a --source 1" | "degrees a" | "select a --region lower" => (16, Plain, 4, 16);
    "add a b" => (25, Plain, 5, 25);
    "add a b" | "components a" => (999, Plain, 6, 36);
    "add a b --grid 3" | "relax a --source 1 --grid 3" => (1, Ranks(2), 3, 1);
    "add a b --grid 6" | "bfs a --source 1 --grid 6" => (2, Ranks(2), 6, 2);
    "multiply --mask m a --grid 6 b --engine plain" => (4, Plain, 6, 1);
    "transpose a --engine ranks" => (4, Ranks(2), 2, 4);
    "transpose a --engine ranks" => (999, Ranks(2), 6, 36);
    "transpose a --engine ranks" => (1, Ranks(2), 1, 1);
    "transpose a --lane 1" => (4, Ranks(1), 2, 4);
    "transpose a --engine plain --lane 64" | "bfs a --source 1 --engine plain" => (4, Plain, 2, 1);
    "multiply a b --trace" => (1, Traced(2), 2, 1);
    "multiply a b --trace" => (99, Traced(2), 2, 4);
    "multiply --trace a b --mask m --lane 7 --engine ranks" => (4, Traced(7), 2, 4);
    "relax a --source 1" | "parents a --source 1" | "kron a b" => (4, Plain, 2, 4);
    "relax a --source 1 --lane 5" => (4, Ranks(5), 2, 4);
    "bfs a --lane=64 --source 1 --engine ranks" => (4, Ranks(64), 2, 4);
};

/// Whether a command line makes this choice.
fn chooses(alloc: Global, line: &str, choice: &Choice) -> bool {
    let (processors, engine, side, threads) = *choice;
    match job_by(alloc, line, processors) {
        Ok(job) => job.engine == engine && job.side == side && job.threads == threads,
        Err(_) => false,
    }
}

#[test]
fn choose_the_engine_the_grid_and_the_threads(rt: HostRuntime) {
    for (line, choice) in CHOICES {
        assert!(rt; chooses(rt.alloc(), line, choice), "{line}");
    }
}

/// Command lines that are usage errors.
const REFUSED: &[&str] = &lines_of! {
    "": "--semiring min-plus multiply a b" | "" | "help" | "square a";
    "multiply": "" | "a" | "a b c" | "a b --semiring" | "a b --semiring plus" |
        "a b --semiring min-plus --semiring min-plus" | "a b --grid 0" | "a b --grid 7" |
        "a b --grid two" | "a b --engine" | "a b --engine steam" | "a b --lane 0" |
        "a b --lane 65" | "a b --lane wide" | "a b --lane 1 --lane 2" | "a b --mask" |
        "a b --mask m --mask m" | "a b --colour" | "a b --test above --value 1" | "a b --source 1" |
        "a b --trace --engine plain" | "a b --trace --trace" | "a b --trace=yes";
    "transpose": "a --trace" | "" | "a b" | "a --mask m";
    "spmv": "a x --trace";
    "parents": "a" | "a --source 1 --grid 2";
    "components": "a b" | "a --engine plain";
    "triangles": "" | "a --semiring or-and" | "a --by edge" | "a --by vertex --by vertex";
    "select": "a" | "a --region" | "a --region middle" | "a --diagonal 1" | "a b --region lower" |
        "a --region lower --diagonal" | "a --region lower --diagonal main" |
        "a --region lower --diagonal 2147483648" | "a --region lower --diagonal -2147483648" |
        "a --region lower --region lower" | "a --region lower --engine plain";
    "apply": "a" | "a --value 1" | "a --function square" | "a --function constant" |
        "a --function plus" | "a --function times" | "a --function row --value 1" |
        "a --function column --value 1" | "a --function plus --value -1" |
        "a --function plus --value 18446744073709551616" | "--function row";
    "diagonal": "" | "a b" | "a --as row" | "a --grid 2";
    "kron": "a" | "a b c" | "a b --semiring plus" | "a b --lane 2" | "a b --rows k";
    "power": "a" | "--exponent 2" | "a b --exponent 2" | "a --exponent" | "a --exponent 0" |
        "a --exponent -1" | "a --exponent two" | "a --exponent 4294967296" |
        "a --exponent 2 --exponent 2" | "a --exponent 2 --engine plain";
    "extract": "a" | "--rows k" | "a b --rows k" | "a --rows" | "a --rows k --rows k" |
        "a --columns l --engine plain";
    "assign": "a b --row 1" | "a b --column 1" | "a --row 1 --column 1" |
        "a b c --row 1 --column 1" | "a b --row 0 --column 1" | "a b --row 1 --column 0" |
        "a b --row 2147483648 --column 1" | "a b --row 1 --column 2147483648" |
        "a b --row 1 --column 1 --row 1" | "a b --row 1 --column 1 --engine plain";
    "degrees": "" | "a b" | "a --by rows" | "a --by row --by row" | "a --semiring or-and";
    "bfs": "a" | "--source 1" | "a b --source 1" | "a --source 0" | "a --source 2147483648" |
        "a --source first" | "a --source 1 --source 1" | "a --source 1 --semiring or-and";
    "relax": "a" | "a --source -1" | "a --source 1 --semiring min-plus" | "a --source 1 --mask m";
    "reduce": "a b" | "a --by diagonals" | "a --by rows --by columns";
    "add": "a";
    "times": "a b c";
    "prune": "a" | "a --test above" | "a --value 1" | "a --test over --value 1" |
        "a --test above --value some" | "a --test above --value 18446744073709551616" |
        "a --test above --test below --value 1";
};

fn is_usage(alloc: Global, line: &str) -> bool {
    matches!(job(alloc, line), Err(UsageFault::Usage(_)))
}

#[test]
fn refuse_what_is_not_offered(rt: HostRuntime) {
    for line in REFUSED {
        assert!(rt; is_usage(rt.alloc(), line), "{line}");
    }
}

/// Command lines that ask for help or for the version.
const HELP: &[&str] = &lines_of! {
    "": "--help" | "-h" | "--version" | "-V" | "multiply --help" | "multiply -h" |
        "multiply a b -h" | "multiply a --help" | "transpose --help" | "reduce --help" |
        "add --help" | "times --help" | "prune --help" | "select --help" | "apply -h" |
        "diagonal --help" | "kron --help" | "power --help" | "extract --help" | "assign --help" |
        "bfs --help" | "parents --help" | "components --help" | "triangles -h" | "degrees --help" |
        "relax --help";
};

fn is_help(alloc: Global, line: &str) -> bool {
    matches!(job(alloc, line), Err(UsageFault::Help(_)))
}

#[test]
fn offer_help(rt: HostRuntime) {
    for line in HELP {
        assert!(rt; is_help(rt.alloc(), line), "{line}");
    }
}

/// The text of a usage error: what is wrong, and what the command takes.
macro_rules! usage {
    ($error:literal, $usage:literal) => {
        concat!(
            "error: the argument ",
            $error,
            "\n\nUsage: cbgrid ",
            $usage,
            "\n\nFor more information, try '--help'.\n"
        )
    };
}

/// Command lines whose options can't be combined, and the text of each usage error.
const CONFLICTS: &[(&str, &str)] = &lines! {
    "multiply --engine=plain a b --trace" =>
        usage!("'--trace' cannot be used with '--engine plain'", "multiply [OPTIONS] <A> <B>");
    "apply a --function plus" =>
        usage!("'--value <N>' is required unless '--function' is row or column",
            "apply [OPTIONS] --function <FUNCTION> <A>");
    "apply a --function row --value 5" =>
        usage!("'--value <N>' cannot be used if '--function' is row or column",
            "apply [OPTIONS] --function <FUNCTION> <A>");
    "extract a" =>
        usage!("'--rows <FILE>' or '--columns <FILE>' is required", "extract [OPTIONS] <A>");
};

/// Whether a command line is refused with exactly this text.
fn is_refused_so(alloc: Global, line: &str, wanted: &str) -> bool {
    match job(alloc, line) {
        Err(UsageFault::Usage(text)) => text.as_str() == wanted,
        _ => false,
    }
}

#[test]
fn report_options_that_cannot_be_combined(rt: HostRuntime) {
    for (line, wanted) in CONFLICTS {
        assert!(rt; is_refused_so(rt.alloc(), line, wanted), "{line}");
    }
}

/// Why the file at a position isn't a matrix.
macro_rules! read_fault {
    ($which:literal, $line:literal, $kind:ident) => {
        JobFault::Read {
            which: $which,
            fault: ReadFault {
                line: $line,
                kind: Kind::$kind,
            },
        }
    };
}

/// Faults of jobs, each with the exit status and the line, which is written without `cbgrid: ` and its end.
macro_rules! faults {
    ($($fault:expr => $status:literal, $line:literal;)+) => {
        &[$(($fault, $status, concat!("cbgrid: ", $line, "\n"))),+]
    };
}

const FAULTS: &[(JobFault, u8, &str)] = faults! {
    read_fault!(1, 7, BadNumber) => 4, "b.mtx:7: not a whole number";
    read_fault!(0, 3, Memory) => 6, "a.mtx:3: out of memory";
    JobFault::Refused(Refusal::Shapes) => 5, "shapes don't agree";
    JobFault::Refused(Refusal::NotSquare) => 5, "matrix not square";
    JobFault::Refused(Refusal::Source) => 5, "no such source";
    JobFault::Absent => 69, "not in this program";
    JobFault::Ranks(RanksFault::NotStarted(35)) => 6, "rank 35 not started";
    JobFault::Ranks(RanksFault::Gone(0)) => 6, "rank 0 gone";
    JobFault::Ranks(RanksFault::TraceTorn) => 6, "trace torn";
    JobFault::Ranks(RanksFault::Lost { rank: 7, refusals: 2 }) => 6, "lost at rank 7";
    JobFault::Refused(Refusal::NoValue) => 5, "no value of the semiring";
    JobFault::Refused(Refusal::NotColumn) => 5, "matrix not a column";
    JobFault::Refused(Refusal::TooLarge) => 5, "product too large";
    JobFault::Refused(Refusal::Place) => 5, "part ends beyond the matrix";
    JobFault::Refused(Refusal::NoRow) => 5, "no such row";
    JobFault::Refused(Refusal::NoColumn) => 5, "no such column";
    JobFault::Memory => 6, "out of memory";
    JobFault::Output => 7, "can't write";
};

/// Whether a fault of a job with the files `a.mtx` and `b.mtx` ends with this status, and prints this line.
fn ends_so(alloc: Global, fault: &JobFault, number: u8, line: &str) -> Result<bool, AllocError> {
    let names = words(alloc, "a.mtx b.mtx")?;
    let printed = fault_line(alloc, names.as_slice(), fault)?;
    Ok(status(fault) == number && printed.as_slice() == line.as_bytes())
}

#[test]
fn report_each_fault(rt: HostRuntime) -> Result<(), Fail> {
    for (fault, number, line) in FAULTS {
        assert!(rt; ends_so(rt.alloc(), fault, *number, line)?, "{line}");
    }
    Ok(())
}
