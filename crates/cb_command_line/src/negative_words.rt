//! A negative number after `--diagonal`, which is read as one word with it: otherwise it would be read as an option.
ghost use Rattle.std.specs.Prelude.{◌≡◌, ◌+◌, ◌<◌, ◌++◌, IfSome, OnOk, length, map, string_bytes, true};
ghost use Rattle.std.specs.List.{position};
ghost use Rattle.clap.specs.Walk.{texts};
ghost use Rattle.cb_command_line.specs.Lines.{has_negative_at, is_diagonal_or_end, is_negative, negative_place};

use std::alloc::AllocError;

/// Whether a word begins with a hyphen and a digit.
fn is_negative(word: &str) -> bool
    ensures { result ≡ is_negative word.now }
{
    let bytes = word.as_bytes();
    bytes.len() > 1 && bytes[0] == b'-' && b'0' <= bytes[1] && bytes[1] <= b'9'
}

fn is_diagonal_or_end(word: &str) -> bool
    ensures { result ≡ is_diagonal_or_end word.now }
{
    word == "--diagonal" || word == "--"
}

/// Where the first `--diagonal` or `--` stands.
fn diagonal_or_end(words: &[String]) -> Option<usize>
    ensures within { IfSome result (λ i. i < length words.now) }
    ensures found { result ≡ position is_diagonal_or_end (map string_bytes words.now) }
{
    first_such(words)
}

/// The same, as a fact of the words and not of their texts.
fn first_such(words: &[String]) -> Option<usize>
    ensures within { IfSome result (λ i. i < length words.now) }
    ensures found { result ≡ position (λ word. is_diagonal_or_end (string_bytes word)) words.now }
{
    words
        .iter()
        .position(|word| is_diagonal_or_end(word.as_str()))
}

/// Whether `--diagonal` and a negative number begin at a place.
fn has_negative_at(words: &[String], place: usize) -> bool
    requires { place < length words.now }
    ensures followed { result ≡ true → place + 1 < length words.now }
    ensures found { result ≡ has_negative_at (map string_bytes words.now) place }
{
    place + 1 < words.len()
        && words[place].as_str() == "--diagonal"
        && is_negative(words[place + 1].as_str())
}

/// Where the first `--diagonal` stands, if a negative number follows it and no `--` stands before it.
pub fn negative_place(words: &[String]) -> Option<usize>
    ensures followed { IfSome result (λ i. i + 1 < length words.now) }
    ensures found { result ≡ negative_place (map string_bytes words.now) }
{
    let place = diagonal_or_end(words)?;
    has_negative_at(words, place).then_some(place)
}

/// Appends words to a list.
pub fn push_words<'a>(all: &mut Vec<&'a str>, words: &'a [String]) -> Result<(), AllocError>
    ensures { OnOk result (texts all.new.items ≡ texts all.old.items ++ map string_bytes words.now) }
{
    for word in words {
        all.push(word.as_str())?;
    }
    Ok(())
}
