//! A kept matrix as C holds it: one opaque pointer.
//!
//! The pointer is that of a [`KeptMatrix`] on the heap. C may pass it to any number of calls at once, and frees it once, when no
//! call uses it any more. No proof can check that C does so.
ghost use Rattle.std.specs.Prelude.{◌≡◌, Option, Some, IsSome};
ghost use Rattle.std.specs.Borrow.{Bor, MutBor};
ghost use Rattle.cb_kept.specs.declared.kept.Kept.{Kept as KeptValue};

use cb_kept::{Kept, KeptMatrix};
use std::marker::Model;

/// A kept matrix that C owns, or a place for one.
#[repr(C)]
#[derive(Drop)]
pub struct OwnedMatrix {
    at: *mut u8,
    pub ghost kept: { Option (MutBor KeptValue) },
}

impl Model for OwnedMatrix {
    ghost use Rattle.cb_ffi.specs.Handles.{owned_at};

    ghost also_owns = { λ h. owned_at h.at h.kept };
}

/// A kept matrix that C passes to a call: nobody changes or frees it while the call runs.
#[repr(C)]
#[derive(Drop)]
pub struct LentMatrix {
    at: *const u8,
    pub ghost kept: { Bor KeptValue },
}

impl Model for LentMatrix {
    ghost use Rattle.cb_ffi.specs.Handles.{lent_at};

    ghost also_owns = { λ h. lent_at h.at h.kept };
}

/// Hands a kept matrix to C.
pub(crate) fn hand_out(kept: &'static mut KeptMatrix) -> OwnedMatrix
    ensures { result.kept ≡ Some kept.entry }
{
    OwnedMatrix {
        at: kept as *mut KeptMatrix as *mut u8,
    }
}

/// Takes a kept matrix back from C.
pub(crate) fn take_back(owned: OwnedMatrix) -> &'static mut KeptMatrix
    requires { IsSome owned.kept }
    ensures { owned.kept ≡ Some result }
{
    unsafe { &mut *(owned.at as *mut KeptMatrix) }
}

/// The kept matrix that C passes, with its transpose if that is kept.
pub(crate) fn borrowed_with_transpose(lent: LentMatrix) -> &'static KeptMatrix
    ensures { result ≡ lent.kept }
{
    unsafe { &*(lent.at as *const KeptMatrix) }
}

/// The kept matrix that C passes.
pub(crate) fn borrowed(lent: LentMatrix) -> &'static Kept
    ensures { result.now ≡ lent.kept.now }
{
    borrowed_with_transpose(lent).matrix()
}
