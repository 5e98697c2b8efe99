//! The texts of a job's files.
ghost use Rattle.std.specs.Prelude.{◌≡◌, ◌≤◌, ◌+◌, ◌++◌, length, IfSome, vec_len, vec_capacity};
ghost use Rattle.cb_job_ends.specs.Texts.{joined};

use std::alloc::Global;
use std::marker::Model;

/// The text of a file, in the parts in which it was loaded. In contracts it is its bytes.
///
/// The first part has room for the bytes of all parts, so they are joined without further memory.
#[derive(Drop)]
pub struct Text {
    first: Vec<u8>,
    rest: Vec<Vec<u8>>,
}

impl Model for Text {
    ghost use Rattle.std.specs.Prelude.{ℕ, ◌≤◌, ◌+◌, List, ◌++◌, length, vec_capacity};
    ghost use Rattle.cb_job_ends.specs.Texts.{joined};

    ghost Value = { List ℕ };

    ghost view = { λ t. t.first.items ++ joined t.rest.items };

    ghost invariant = { λ t. length t.first.items + length (joined t.rest.items) ≤ vec_capacity t.first };
}

impl Text {
    /// The text of these bytes, in one part.
    pub fn whole(alloc: Global, bytes: Vec<u8>) -> Text
        ensures { result ≡ bytes.items }
    {
        Text {
            first: bytes,
            rest: Vec::new(alloc),
        }
    }

    /// The text of these parts, one after the other. None if the first has no room for the bytes of all.
    pub fn of_parts(first: Vec<u8>, rest: Vec<Vec<u8>>) -> Option<Text>
        ensures { IfSome result (λ t. t ≡ first.items ++ joined rest.items) }
    {
        let room = first.capacity() - first.len();
        let Some(_left) = room_after(room, &rest) else {
            return None;
        };
        Some(Text { first, rest })
    }

    /// The parts: the first, and those after it.
    pub fn parts(&self) -> (&[u8], &[Vec<u8>])
        ensures { self.now ≡ result.0.now ++ joined result.1.now }
    {
        (&self.first, &self.rest)
    }

    /// The lists of the parts: the first, and those after it.
    pub fn into_parts(self) -> (Vec<u8>, Vec<Vec<u8>>)
        ensures { self ≡ result.0.items ++ joined result.1.items }
    {
        (self.first, self.rest)
    }

    /// All bytes. It takes no memory.
    pub fn into_bytes(self) -> Vec<u8>
        ensures { result.items ≡ self }
    {
        let mut bytes = self.first;
        append_all(&mut bytes, &self.rest);
        bytes
    }
}

/// How much of this room is left after the bytes of these parts. None if it is too small.
fn room_after(room: usize, parts: &[Vec<u8>]) -> Option<usize>
    ensures { IfSome result (λ left. left + length (joined parts.now) ≡ room) }
{
    let mut left = room;
    for part in parts {
        let Some(less) = left.checked_sub(part.len()) else {
            return None;
        };
        left = less;
    }
    Some(left)
}

/// Appends the bytes of these parts to a list that has room for them.
fn append_all(bytes: &mut Vec<u8>, parts: &[Vec<u8>])
    requires { vec_len bytes.old + length (joined parts.now) ≤ vec_capacity bytes.old }
    ensures { bytes.new.items ≡ bytes.old.items ++ joined parts.now }
{
    for part in parts {
        match bytes.extend_from_slice(part) {
            Ok(()) => {}
            Err(_) => unreachable!(),
        }
    }
}
