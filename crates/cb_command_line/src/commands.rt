//! The commands of the program and their options, as `clap` builds them.

ghost use Rattle.std.specs.Prelude.{◌≡◌, ◌++◌, IfOk, OnOk, map, [], ◌∷◌};
ghost use Rattle.clap.specs.Walk.{texts};
ghost use Rattle.clap.specs.Simple.{app_of};
ghost use Rattle.cb_command_line.specs.Table.{IsOfTable, all_shapes, arg_rule, choice_rule, command_shape, file, graph_lines};
ghost use Rattle.cb_command_line.specs.Table.{operation_lines, outline_line, rank_options, rules_between, search_lines, selection_lines};
ghost use Rattle.cb_command_line.specs.Table.{semiring_option, shape_of_line, start_shape, version_option};

use cb_semirings::NAMES;
use clap::builder::ValueParser;
use clap::{Arg, ArgAction, Command};
use std::alloc::{AllocError, Global};

/// The version of the program, and of the libraries for C and Python, which take it from here.
const VERSION: &str = "0.1.0";

/// The end of the program's help text.
const AFTER_HELP: &str = "Example:
  cbgrid multiply a.mtx b.mtx > product.mtx

Exit status:
  0  done
  2  usage error
  3  a file can't be read
  4  a file isn't a matrix
  5  the shapes don't agree, a graph's matrix isn't square, or it has no such source
  6  out of memory, or a thread couldn't be started
  7  the answer can't be written";

/// An option of a command. A flag has no name for a value.
#[derive(Clone, Copy)]
struct Choice {
    name: &'static str,
    help: &'static str,
    action: ArgAction,
    value: &'static [&'static str],
    parser: ValueParser<'static>,
    default: &'static [&'static str],
    is_required: bool,
}

/// An option as help shows it: whether it is optional or required, or its default value; what the value has to be; and its
/// help text. A flag has its action in place of a value.
macro_rules! choice {
    (--$name:ident <$value:ident> optional, $parser:expr; $help:literal) => {
        choice!(@ $name [stringify!($value)] Set [] false $parser, $help)
    };
    (--$name:ident <$value:ident> required, $parser:expr; $help:literal) => {
        choice!(@ $name [stringify!($value)] Set [] true $parser, $help)
    };
    (--$name:ident <$value:ident> = $default:literal, $parser:expr; $help:literal) => {
        choice!(@ $name [stringify!($value)] Set [$default] false $parser, $help)
    };
    (--$name:ident $action:ident, $parser:expr; $help:literal) => {
        choice!(@ $name [] $action [] false $parser, $help)
    };
    (@ $name:ident $value:tt $action:ident $default:tt $is_required:literal $parser:expr, $help:literal) => {
        Choice {
            name: stringify!($name),
            help: $help,
            action: ArgAction::$action,
            value: &$value,
            parser: $parser,
            default: &$default,
            is_required: $is_required,
        }
    };
}

/// A whole number of 64 bits.
const NUMBER: ValueParser<'static> = ValueParser::Unsigned(0, u64::MAX);

/// The number of a row, a column or a vertex.
const PLACE: ValueParser<'static> = ValueParser::Unsigned(1, 2_147_483_647);

/// A command: its name, its help texts, the names of its file arguments, and its own options.
struct Outline {
    name: &'static str,
    about: &'static str,
    after_help: &'static str,
    files: &'static [&'static str],
    options: &'static [Choice],
}

/// A command with its files and options, what it does, an example, and if the command has reasons of its own for status 5,
/// these. The help text of the program has the other reasons, and all statuses.
macro_rules! command {
    ($name:literal $files:tt $options:tt: $about:literal; $example:literal) => {
        command!(@ $name $files $options $about, concat!("Example:\n  cbgrid ", $name, " ", $example))
    };
    ($name:literal $files:tt $options:tt: $about:literal; $example:literal; $refused:literal) => {
        command!(@ $name $files $options $about,
            concat!("Example:\n  cbgrid ", $name, " ", $example, "\n\nExit status 5: ", $refused))
    };
    (@ $name:literal $files:tt $options:tt $about:literal, $after_help:expr) => {
        Outline {
            name: $name,
            about: $about,
            after_help: $after_help,
            files: &$files,
            options: &$options,
        }
    };
}

/// The operations, in the order in which help shows them.
const OPERATIONS: &[Outline] = &[
    command!("multiply" ["A", "B"] [MASK, TRACE]: "Write the product of two matrices";
        "--semiring min-plus roads.mtx roads.mtx > two-roads.mtx"),
    command!("spmv" ["A", "x"] []: "Write the product of a matrix and a vector, a matrix of one column";
        "links.mtx ranks.mtx > next-ranks.mtx"),
    command!("transpose" ["A"] []: "Write the transpose of a matrix"; "links.mtx > linked-from.mtx"),
    command!("reduce" ["A"] [BY]: "Write the sum of each row of a matrix, or of each column";
        "links.mtx --by columns > linked.mtx"),
    command!("add" ["A", "B"] []: "Write the sum of two matrices";
        "--semiring min-plus roads.mtx tracks.mtx > ways.mtx"),
    command!("times" ["A", "B"] []: "Write the product of two matrices place by place";
        "--semiring or-and roads.mtx tracks.mtx > both.mtx"),
    command!("prune" ["A"] [TEST, VALUE]: "Write a matrix without the entries whose value passes a test";
        "roads.mtx --test above --value 100 > short-roads.mtx"),
];

const MASK: Choice = choice!(--mask <FILE> optional, ValueParser::String;
    "Keep the entries at the places where this matrix has one");

const TRACE: Choice =
    choice!(--trace SetTrue, ValueParser::Bool; "Print after the product what every rank did");

const BY: Choice = choice!(--by <SIDE> = "rows", ValueParser::Names(&["rows", "columns"]);
    "What to add up: rows or columns");

const TEST: Choice =
    choice!(--test <TEST> required, ValueParser::Names(&["below", "above", "equal"]);
    "How the values that are dropped compare to the number of --value");

const VALUE: Choice =
    choice!(--value <N> required, NUMBER; "The number that values are compared to");

/// The selections, in the order in which help shows them.
const SELECTIONS: &[Outline] = &[
    command!("select" ["A"] [REGION, DIAGONAL]:
        "Write the entries of a matrix on one side of a diagonal, on it, or off it";
        "links.mtx --region lower --diagonal -1 > below.mtx"),
    command!("apply" ["A"] [FUNCTION, OPERAND]: "Apply a function to the value of each entry of a matrix";
        "roads.mtx --semiring min-plus --function times --value 5 > longer-roads.mtx";
        "a number that the function takes isn't a value of the semiring"),
    command!("diagonal" ["A"] [FORM]:
        "Write the diagonal of a matrix as a column, or a column as the diagonal of a matrix";
        "links.mtx > loops.mtx"; "with --as matrix, the matrix isn't a column"),
    command!("kron" ["A", "B"] []: "Write the Kronecker product of two matrices";
        "pattern.mtx tile.mtx > tiles.mtx"; "the product has more than 2147483647 rows or columns"),
    command!("power" ["A"] [EXPONENT]: "Write the power of a square matrix";
        "links.mtx --exponent 3 > three-links.mtx"; "the matrix isn't square"),
    command!("extract" ["A"] [ROWS, COLUMNS]: "Write rows and columns of a matrix by their numbers, in any order";
        "links.mtx --rows people.mtx --columns people.mtx > among-them.mtx";
        "a list isn't a column, or the matrix has no such row or column"),
    command!("assign" ["A", "B"] [ROW, COLUMN]: "Write a matrix with another in place of a part of it";
        "links.mtx corner.mtx --row 1 --column 1 > new-links.mtx"; "the part ends beyond the matrix"),
];

const REGION: Choice =
    choice!(--region <REGION> required, ValueParser::Names(&["lower", "upper", "diagonal", "off-diagonal"]);
    "Which entries to keep, relative to the diagonal of --diagonal");

const DIAGONAL: Choice =
    choice!(--diagonal <K> = "0", ValueParser::Signed(-2_147_483_647, 2_147_483_647);
    "How many columns the diagonal is right of the main one; if negative, left of it");

const FUNCTION: Choice = choice!(--function <FUNCTION> required,
    ValueParser::Names(&["constant", "plus", "times", "row", "column"]);
    "The new value: the number of --value, the sum or product with it, or the number of the row or column");

const OPERAND: Choice =
    choice!(--value <N> optional, NUMBER; "The number that constant, plus and times take");

const FORM: Choice = choice!(--as <FORM> = "column", ValueParser::Names(&["column", "matrix"]);
    "What is written: the diagonal as a column, or a square matrix with the column on its diagonal");

const EXPONENT: Choice = choice!(--exponent <N> required, ValueParser::Unsigned(1, 4_294_967_295);
    "The number of factors, each of them the matrix");

const ROWS: Choice = choice!(--rows <FILE> optional, ValueParser::String;
    "A column that lists the numbers of rows, from 1 [default: all rows]");

const COLUMNS: Choice = choice!(--columns <FILE> optional, ValueParser::String;
    "A column that lists the numbers of columns, from 1 [default: all columns]");

const ROW: Choice =
    choice!(--row <N> required, PLACE; "The row of A where B begins, counted from 1");

const COLUMN: Choice =
    choice!(--column <N> required, PLACE; "The column of A where B begins, counted from 1");

/// The searches that ranks can do, in the order in which help shows them.
const SEARCHES: &[Outline] = &[
    command!("bfs" ["A"] [SOURCE]:
        "Write how many edges lead from a source to each vertex, by breadth-first search";
        "roads.mtx --source 1 > steps.txt"),
    command!("relax" ["A"] [SOURCE]: "Write the distance of each vertex from a source, where edges have lengths";
        "roads.mtx --source 1 > distances.txt"),
];

/// The other tasks on graphs, in the order in which help shows them.
const GRAPHS: &[Outline] = &[
    command!("bfs-from" ["A", "s"] []:
        "Write how many edges lead from each of several sources to each vertex, as a matrix";
        "roads.mtx depots.mtx > steps.mtx";
        "the matrix isn't square, the list of sources isn't a column, or a source is no vertex"),
    command!("relax-from" ["A", "s"] []:
        "Write the distance of each vertex from each of several sources, as a matrix";
        "roads.mtx depots.mtx > distances.mtx";
        "the matrix isn't square, the list of sources isn't a column, or a source is no vertex"),
    command!("bfs-given" ["A", "x"] []: "Write the level of each vertex from initial values of some vertices";
        "roads.mtx starts.mtx > levels.txt";
        "the matrix isn't square, or the initial values aren't a column with a place for each vertex"),
    command!("relax-given" ["A", "x"] []: "Write the distance of each vertex from initial values of some vertices";
        "roads.mtx starts.mtx > distances.txt";
        "the matrix isn't square, or the initial values aren't a column with a place for each vertex"),
    command!("parents" ["A"] [SOURCE]:
        "Write the vertex before each vertex on a shortest path from a source, by breadth-first search";
        "roads.mtx --source 1 > tree.txt"),
    command!("components" ["A"] []: "Write the connected component of each vertex, named by its least vertex";
        "roads.mtx > islands.txt"),
    command!("triangles" ["A"] [COUNTS]:
        "Count the triangles of a graph, or of each vertex; edges count in both directions"; "friends.mtx"),
    command!("degrees" ["A"] [LINES]: "Write how many entries each row of a matrix has, or each column";
        "links.mtx > links-of-each.txt"),
];

const SOURCE: Choice =
    choice!(--source <N> required, PLACE; "The vertex to start from, counted from 1");

const COUNTS: Choice = choice!(--by <WHAT> = "graph", ValueParser::Names(&["graph", "vertex"]);
    "What to count triangles of: the graph, or each vertex");

const LINES: Choice = choice!(--by <SIDE> = "row", ValueParser::Names(&["row", "column"]);
    "What to count the entries of: each row, or each column");

/// The last options of the commands that ranks can compute.
const BY_RANKS: &[Choice] = &[
    choice!(--grid <N> optional, ValueParser::Unsigned(1, 6);
        "The side of the grid of ranks, 1 to 6 [default: by the number of processors]"),
    choice!(--engine <ENGINE> optional, ValueParser::Names(&["plain", "ranks"]);
        "What computes: plain (one thread) or ranks (a thread for each rank) [default: threads that share the matrices]"),
    choice!(--lane <N> optional, ValueParser::Unsigned(1, 64);
        "How many blocks may be in transit from one rank to another, 1 to 64 [default: 2]"),
];

// Each table is read by a function of its own: a proof that has several long texts before it costs more than each alone.
fn operations() -> &'static [Outline]
    ensures { map outline_line result.now ≡ operation_lines }
{
    OPERATIONS
}

fn selections() -> &'static [Outline]
    ensures { map outline_line result.now ≡ selection_lines }
{
    SELECTIONS
}

fn searches() -> &'static [Outline]
    ensures { map outline_line result.now ≡ search_lines }
{
    SEARCHES
}

fn graphs() -> &'static [Outline]
    ensures { map outline_line result.now ≡ graph_lines }
{
    GRAPHS
}

fn by_ranks() -> &'static [Choice]
    ensures { map choice_rule result.now ≡ rank_options }
{
    BY_RANKS
}

/// The first option of the commands over a semiring.
fn semiring() -> Choice
    ensures { choice_rule result ≡ semiring_option }
{
    choice!(--semiring <NAME> = "plus-times", ValueParser::Names(NAMES.as_slice()); "What adds and multiplies values")
}

/// Builds an option.
fn option_of<'a>(alloc: Global, choice: &Choice) -> Arg<'a>
    ensures { arg_rule result ≡ choice_rule choice.now }
{
    Arg::new(alloc, choice.name)
        .long(choice.name)
        .help(choice.help)
        .action(choice.action)
        .value_names(choice.value)
        .value_parser(choice.parser)
        .default_values(choice.default)
        .required(choice.is_required)
}

fn file<'a>(alloc: Global, name: &'a str) -> Arg<'a>
    ensures { arg_rule result ≡ file name.now }
{
    Arg::new(alloc, name)
        .required(true)
        .help("A Matrix Market file")
}

/// `--version`, which help shows after `--help`.
fn version<'a>(alloc: Global) -> Arg<'a>
    ensures { arg_rule result ≡ version_option }
{
    let version = choice!(--version Version, ValueParser::String; "Print the version");
    option_of(alloc, &version).short('V').display_order(1000)
}

/// Appends file arguments to a list.
fn push_files<'a>(
    alloc: Global,
    arguments: &mut Vec<Arg<'a>>,
    files: &[&'a str],
) -> Result<(), AllocError>
    ensures { OnOk result (map arg_rule arguments.new.items ≡ map arg_rule arguments.old.items ++ map (λ name. file name.now) files.now) }
{
    for name in files {
        arguments.push(file(alloc, name))?;
    }
    Ok(())
}

/// Appends options to a list of arguments.
fn push_options<'a>(
    alloc: Global,
    arguments: &mut Vec<Arg<'a>>,
    choices: &[Choice],
) -> Result<(), AllocError>
    ensures { OnOk result (map arg_rule arguments.new.items ≡ map arg_rule arguments.old.items ++ map choice_rule choices.now) }
{
    for choice in choices {
        arguments.push(option_of(alloc, choice))?;
    }
    Ok(())
}

/// Appends the arguments of a command to a list: its files, and its options between those that it shares.
fn push_arguments<'a>(
    alloc: Global,
    arguments: &mut Vec<Arg<'a>>,
    outline: &Outline,
    first: &[Choice],
    last: &[Choice],
) -> Result<(), AllocError>
    ensures { OnOk result (map arg_rule arguments.new.items ≡ map arg_rule arguments.old.items ++ rules_between first.now last.now outline.now) }
{
    push_files(alloc, arguments, outline.files)?;
    push_options(alloc, arguments, first)?;
    push_options(alloc, arguments, outline.options)?;
    push_options(alloc, arguments, last)?;
    Ok(())
}

/// Builds a command from its outline, with options that it shares with others before and after its own.
fn command<'a>(
    alloc: Global,
    outline: &Outline,
    first: &[Choice],
    last: &[Choice],
) -> Result<Command<'a>, AllocError>
    ensures { IfOk result (λ made. command_shape made ≡ shape_of_line (map choice_rule first.now) (map choice_rule last.now) (outline_line outline.now)) }
{
    let mut arguments = Vec::new(alloc);
    push_arguments(alloc, &mut arguments, outline, first, last)?;
    let made = Command::new(alloc, outline.name)
        .about(outline.about)
        .after_help(outline.after_help)
        .args(arguments)?;
    Ok(made)
}

/// Appends the commands with these outlines to a list.
fn push_commands<'a>(
    alloc: Global,
    commands: &mut Vec<Command<'a>>,
    outlines: &[Outline],
    first: &[Choice],
    last: &[Choice],
) -> Result<(), AllocError>
    ensures { let made = map (λ o. shape_of_line (map choice_rule first.now) (map choice_rule last.now) (outline_line o)) outlines.now in
        OnOk result (map command_shape commands.new.items ≡ map command_shape commands.old.items ++ made) }
{
    for outline in outlines {
        let made = command(alloc, outline, first, last)?;
        commands.push(made)?;
    }
    Ok(())
}

/// Appends all commands to a list.
fn push_all_commands<'a>(alloc: Global, commands: &mut Vec<Command<'a>>) -> Result<(), AllocError>
    ensures { OnOk result (map command_shape commands.new.items ≡ map command_shape commands.old.items ++ all_shapes) }
{
    let semiring = [semiring()];
    push_commands(alloc, commands, operations(), &semiring, by_ranks())?;
    push_commands(alloc, commands, selections(), &semiring, &[])?;
    push_commands(alloc, commands, searches(), &[], by_ranks())?;
    push_commands(alloc, commands, graphs(), &[], &[])?;
    Ok(())
}

/// The program, without its option and its commands.
fn program_alone<'a>(alloc: Global) -> Command<'a>
    ensures { app_of result ≡ record { top = start_shape; subs = [] } }
{
    Command::new(alloc, "cbgrid")
        .about("Sparse matrices over semirings, read and written as Matrix Market files")
        .after_help(AFTER_HELP)
        .version(VERSION)
        .subcommand_required(true)
        .disable_version_flag(true)
        .disable_help_subcommand(true)
}

/// Builds the program with all its commands.
pub fn program<'a>(alloc: Global) -> Result<Command<'a>, AllocError>
    ensures { IfOk result (λ made. IsOfTable (app_of made)) }
{
    let mut commands = Vec::new(alloc);
    push_all_commands(alloc, &mut commands)?;
    let program = program_alone(alloc).subcommands(commands)?;
    let whole = program.arg(version(alloc))?;
    Ok(whole)
}
