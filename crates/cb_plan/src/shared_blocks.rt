//! Blocks that several slots and letters may share.
ghost use Rattle.std.specs.Prelude.{◌≡◌, IfOk, IfErr};
ghost use Rattle.cb_plan.specs.SharedBlocks.{shared_block};

use cb_dcsc::Block;
use cb_semirings::Semiring;
use std::alloc::{AllocError, Global};
use std::marker::Model;
use std::mem;
use std::ops::Deref;
use std::sync::Arc;

/// A block of a slot or a letter. A copy of it has the same lists if the block was [lent](SharedBlock::lend), and otherwise
/// lists of its own. In contracts it is the block.
#[derive(Drop)]
pub struct SharedBlock<S: Semiring> {
    held: Held<S>,
}

/// A block, owned or lent.
#[derive(Drop)]
enum Held<S: Semiring> {
    /// The only owner's.
    Own(Block<S>),
    /// That of one owner or several.
    Lent(Arc<Block<S>>),
}

impl<S: Semiring> Model for SharedBlock<S> {
    ghost use Rattle.cb_matrix.specs.Sparse.{Sparse};
    ghost use Rattle.cb_plan.specs.SharedBlocks.{shared_block};

    ghost Value = { Sparse };

    ghost view = { λ b. shared_block b.held };
}

impl<S: Semiring> SharedBlock<S> {
    /// A block with one owner.
    pub fn new(block: Block<S>) -> Self
        ensures { result ≡ block }
    {
        SharedBlock {
            held: Held::Own(block),
        }
    }

    /// Lends the block: from now on its copies share it. If memory is refused, it stays as it was.
    ///
    /// Takes memory for a few words.
    pub fn lend(&mut self, alloc: Global) -> Result<(), AllocError>
        ensures { self.new ≡ self.old }
    {
        if matches!(self.held, Held::Lent(_)) {
            return Ok(());
        }
        let nothing = Held::Own(Block::empty(alloc, self.shape()));
        let (held, lent) = match mem::replace(&mut self.held, nothing) {
            Held::Own(block) => shared(alloc, block),
            held => (held, Ok(())),
        };
        self.held = held;
        lent
    }

    /// A copy. If the block was lent, it shares the block's lists, and takes no memory.
    pub fn try_clone(&self) -> Result<Self, AllocError>
        ensures { IfOk result (λ b. b ≡ self.now) }
    {
        match &self.held {
            Held::Own(block) => Ok(SharedBlock::new(block.try_clone()?)),
            Held::Lent(block) => Ok(SharedBlock {
                held: Held::Lent(Arc::try_clone(block)?),
            }),
        }
    }

    /// The block alone. It is copied only if it has other owners; if memory for that is refused, it comes back.
    pub fn into_block(self) -> Result<Block<S>, (Self, AllocError)>
        ensures ok { IfOk result (λ b. b ≡ self) }
        ensures err { IfErr result (λ e. e.0 ≡ self) }
    {
        let lent = match self.held {
            Held::Own(block) => return Ok(block),
            Held::Lent(block) => block,
        };
        match Arc::try_unwrap(lent) {
            Ok(block) => Ok(block),
            Err(lent) => match lent.try_clone() {
                Ok(block) => Ok(block),
                Err(error) => Err((
                    SharedBlock {
                        held: Held::Lent(lent),
                    },
                    error,
                )),
            },
        }
    }
}

impl<S: Semiring> Deref for SharedBlock<S> {
    type Target = Block<S>;

    ghost deref_gives = { λ shared block. block ≡ shared };

    fn deref(&self) -> &Block<S>
        ensures { result.now ≡ self.now }
    {
        match &self.held {
            Held::Own(block) => block,
            Held::Lent(block) => block,
        }
    }
}

/// The same block, lent. If memory is refused, it is the only owner's.
fn shared<S: Semiring>(alloc: Global, block: Block<S>) -> (Held<S>, Result<(), AllocError>)
    ensures { shared_block result.0 ≡ block }
{
    match Arc::new(alloc, block) {
        Ok(block) => (Held::Lent(block), Ok(())),
        Err(refused) => (Held::Own(refused.value), Err(AllocError)),
    }
}
