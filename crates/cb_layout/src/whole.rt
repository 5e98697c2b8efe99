//! A value that is lent where it stands, or was made for its user.
ghost use Rattle.std.specs.Prelude.{◌≡◌};
ghost use Rattle.cb_layout.specs.Panels.{whole_of};

/// A matrix in one block: the only panel of a matrix, or a copy of all panels.
#[derive(Drop)]
pub enum Whole<'a, M> {
    Lent(&'a M),
    Made(M),
}

impl<'a, M> Whole<'a, M> {
    /// The block.
    pub fn block(&self) -> &M
        ensures { result.now ≡ whole_of self.now }
    {
        match self {
            Whole::Lent(block) => block,
            Whole::Made(block) => block,
        }
    }
}
