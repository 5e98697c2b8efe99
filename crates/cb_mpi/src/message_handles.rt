//! A message as C holds it: one opaque pointer.
//!
//! The pointer is that of an [`Outgoing`] on the heap. C may pass it to any number of calls at once, and frees it once, when no
//! call uses it any more. No proof can check that C does so.
ghost use Rattle.std.specs.Prelude.{◌≡◌, Option, Some, IsSome};
ghost use Rattle.std.specs.Borrow.{Bor, MutBor};
ghost use Rattle.cb_rank_process.specs.declared.outgoing.Outgoing.{Outgoing as MessageValue};

use cb_rank_process::Outgoing;
use std::marker::Model;

/// A message that C owns, or a place for one.
#[repr(C)]
#[derive(Drop)]
pub struct OwnedMessage {
    at: *mut u8,
    pub ghost kept: { Option (MutBor MessageValue) },
}

impl Model for OwnedMessage {
    ghost use Rattle.cb_mpi.specs.MessageHandles.{message_owned_at};

    ghost also_owns = { λ h. message_owned_at h.at h.kept };
}

/// A message that C passes to a call: nobody changes or frees it while the call runs.
#[repr(C)]
#[derive(Drop)]
pub struct LentMessage {
    at: *const u8,
    pub ghost kept: { Bor MessageValue },
}

impl Model for LentMessage {
    ghost use Rattle.cb_mpi.specs.MessageHandles.{message_lent_at};

    ghost also_owns = { λ h. message_lent_at h.at h.kept };
}

/// Hands a message to C.
pub(crate) fn hand_message_out(kept: &'static mut Outgoing) -> OwnedMessage
    ensures { result.kept ≡ Some kept.entry }
{
    OwnedMessage {
        at: kept as *mut Outgoing as *mut u8,
    }
}

/// Takes a message back from C.
pub(crate) fn take_message_back(owned: OwnedMessage) -> &'static mut Outgoing
    requires { IsSome owned.kept }
    ensures { owned.kept ≡ Some result }
{
    unsafe { &mut *(owned.at as *mut Outgoing) }
}

/// The message that C passes.
pub(crate) fn borrowed_message(lent: LentMessage) -> &'static Outgoing
    ensures { result ≡ lent.kept }
{
    unsafe { &*(lent.at as *const Outgoing) }
}
