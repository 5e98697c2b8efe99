//! The letter of a head and lists that arrived.
ghost use Rattle.std.specs.Prelude.{◌≡◌, ◌↔◌, IsTrue, IfOk, IfErr};
ghost use Rattle.cb_letters.specs.declared.Letter.{Letter as LetterOf};
ghost use Rattle.cb_matrix.specs.Sparse.{Sparse};
ghost use Rattle.cb_lists.specs.Lists.{matrix_of, AreLists};
ghost use Rattle.cb_messages.specs.Messages.{HasSizes, IsHead, IsMessage, IsBodyOf, IsLetterOf, IsSentAs};

use crate::heads::Head;
use cb_letters::{Body, Letter, Tag};
use cb_lists::{Columns, block_of};
use cb_plan::SharedBlock;
use cb_semirings::Semiring;
use std::alloc::{AllocError, Global};

/// Why what arrived makes no letter.
#[derive(Clone, Copy, Drop)]
pub enum MessageFault {
    /// No letter has such a head, or the lists of its sheet aren't those of a matrix over the semiring.
    Broken,
    /// Memory was refused.
    Memory,
}

impl From<AllocError> for MessageFault {
    ghost use Rattle.cb_messages.specs.declared.arrivals.MessageFault.TheVariants.{Memory};

    ghost from_gives = { λ _ fault. fault ≡ Memory };

    fn from(_error: AllocError) -> MessageFault {
        MessageFault::Memory
    }
}

/// The letter of a head and lists. The lists are read only for a sheet; its entries are checked once, and copied once into a
/// block that copies of the letter share.
pub fn letter_of<S: Semiring>(
    alloc: Global,
    head: &Head,
    lists: &Columns,
) -> Result<Letter<SharedBlock<S>>, MessageFault>
    ensures letter { IfOk result (λ letter. IsLetterOf S.arithmetic letter head.now lists.now) }
    ensures sent { IfOk result (λ letter. (x : LetterOf Sparse) → IsSentAs S.arithmetic x head.now lists.now → letter ≡ x) }
    ensures known { IfErr result (λ fault. fault ≡ MessageFault.Broken → (x : LetterOf Sparse) → HasSizes x → IsSentAs S.arithmetic x head.now lists.now → ⊥) }
    ensures broken { IfErr result (λ fault. fault ≡ MessageFault.Broken → ¬ IsMessage S.arithmetic head.now lists.now) }
{
    if !is_message::<S>(head, lists) {
        return Err(MessageFault::Broken);
    }
    let body = body_of::<S>(alloc, head, lists)?;
    Ok(Letter {
        from: head.from as u16,
        to: head.to as u16,
        number: head.number,
        tag: Tag(head.tag),
        body,
    })
}

/// Whether a head is that of a letter, and the lists of its sheet, if it has one, are those of a matrix.
fn is_message<S: Semiring>(head: &Head, lists: &Columns) -> bool
    ensures { IsTrue result ↔ IsMessage S.arithmetic head.now lists.now }
{
    head.is_whole() && (head.kind != 0 || lists.are_well_formed::<S>())
}

/// The body of a head and lists.
fn body_of<S: Semiring>(
    alloc: Global,
    head: &Head,
    lists: &Columns,
) -> Result<Body<SharedBlock<S>>, AllocError>
    requires head { IsHead head.now }
    requires lists { head.now.kind ≡ 0 → AreLists S.arithmetic lists.now }
    ensures { IfOk result (λ body. IsBodyOf S.arithmetic body head.now lists.now) }
{
    match head.kind {
        0 => Ok(Body::Sheet(sheet_of::<S>(alloc, lists)?)),
        1 => Ok(Body::Lost(head.origin as u16)),
        _ => Ok(Body::Close),
    }
}

/// The block of lists, lent.
fn sheet_of<S: Semiring>(alloc: Global, lists: &Columns) -> Result<SharedBlock<S>, AllocError>
    requires { AreLists S.arithmetic lists.now }
    ensures { IfOk result (λ block. block ≡ matrix_of S.arithmetic lists.now) }
{
    let mut shared = SharedBlock::new(block_of::<S>(alloc, lists)?);
    shared.lend(alloc)?;
    Ok(shared)
}
