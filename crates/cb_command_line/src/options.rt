//! Reads one option or file of a command from what `clap` found.
ghost use Rattle.std.specs.Prelude.{◌≡◌, IfSome, option_map};
ghost use Rattle.cb_command_line.specs.Options.{integer, is_there, is_word, number, place, rows_in, word};

use clap::ArgMatches;

/// The word of an option or a file, given or by default.
pub fn word_of<'a>(found: &ArgMatches<'a>, option: &str) -> Option<&'a str>
    ensures { option_map (λ given. given.now) result ≡ word option.now (rows_in found.now) }
{
    found.get_str(option)
}

/// Whether an option has this word. The word of a flag that is given is `true`.
pub fn has_word(found: &ArgMatches<'_>, option: &str, expected: &str) -> bool
    ensures { result ≡ is_word option.now expected.now (rows_in found.now) }
{
    match word_of(found, option) {
        Some(given) => given == expected,
        None => false,
    }
}

/// Whether an option is given, or has a default.
pub fn is_there(found: &ArgMatches<'_>, option: &str) -> bool
    ensures { result ≡ is_there option.now (rows_in found.now) }
{
    found.contains_id(option)
}

/// The number of an option.
pub fn number_of(found: &ArgMatches<'_>, option: &str) -> Option<u64>
    ensures { result ≡ number 64 option.now (rows_in found.now) }
{
    found.get_one::<u64>(option)
}

/// The number of an option that takes no number of more than 32 bits.
pub fn small_number_of(found: &ArgMatches<'_>, option: &str) -> Option<u32>
    ensures { result ≡ number 32 option.now (rows_in found.now) }
{
    found.get_one::<u32>(option)
}

/// The number of an option, which may be negative.
pub fn integer_of(found: &ArgMatches<'_>, option: &str) -> Option<i64>
    ensures { IfSome result (λ z. integer option.now (rows_in found.now) ≡ Some z) }
{
    found.get_one::<i64>(option)
}

/// The row, the column or the vertex that an option names, counted from 0.
pub fn place_of(found: &ArgMatches<'_>, option: &str) -> Option<u32>
    ensures { result ≡ place option.now (rows_in found.now) }
{
    small_number_of(found, option)?.checked_sub(1)
}
