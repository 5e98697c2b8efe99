//! The letters that went over a rank's lanes, for contracts alone: only their number is kept in memory.
ghost use Rattle.std.specs.Prelude.{◌≡◌, ◌<◌, [], ◌∷◌, ◌++◌, length, get_or, slice_set, replicate, IfOk, OnOk};
ghost use Rattle.cb_rank_driven.specs.LaneLetters.{HasRoom};

use cb_letters::Letter;
use std::alloc::{AllocError, Global};
use std::marker::Model;
use std::snapshot::Snapshot;

/// The letters to each rank, or from each.
#[derive(Drop)]
pub(crate) struct LaneLetters<P> {
    lists: Vec<Vec<Snapshot<Letter<P>>>>,
}

impl<P> Model for LaneLetters<P> {
    ghost use Rattle.std.specs.Prelude.{map, vec_capacity};
    ghost use Rattle.cb_rank_driven.specs.LaneLetters.{LettersView};

    ghost Value = { LettersView P };

    ghost view = { λ n. record { letters = map (λ v. map (λ s. s.value) v.items) n.lists.items; room = map (λ v. vec_capacity v) n.lists.items } };
}

impl<P> LaneLetters<P> {
    /// No letters, for this many ranks.
    pub(crate) fn new(alloc: Global, ranks: u16) -> Result<LaneLetters<P>, AllocError>
        ensures { IfOk result (λ n. n.letters ≡ replicate ranks []) }
    {
        let mut lists = Vec::new(alloc);
        for _ in 0..ranks {
            lists.push(Vec::new(alloc))?;
        }
        Ok(LaneLetters { lists })
    }

    /// How many letters are noted for a rank.
    pub(crate) fn count(&self, rank: u16) -> usize
        requires { rank < length self.now.letters }
        ensures { result ≡ length (get_or self.now.letters rank []) }
    {
        self.lists[rank as usize].len()
    }

    /// Makes room for one more letter of a rank.
    pub(crate) fn make_room(&mut self, rank: u16) -> Result<(), AllocError>
        requires { rank < length self.old.letters }
        ensures same { self.new.letters ≡ self.old.letters }
        ensures room { OnOk result (HasRoom self.new rank) }
    {
        self.lists[rank as usize].reserve(1)?;
        Ok(())
    }

    /// Notes one more letter of a rank.
    pub(crate) fn note(&mut self, rank: u16, letter: Snapshot<Letter<P>>)
        requires place { rank < length self.old.letters }
        requires room { HasRoom self.old rank }
        ensures { self.new.letters ≡ slice_set self.old.letters rank (get_or self.old.letters rank [] ++ letter.value ∷ []) }
    {
        self.lists[rank as usize].push_reserved(letter);
    }
}
