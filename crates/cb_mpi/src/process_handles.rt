//! A process as C holds it: one opaque pointer.
//!
//! The pointer is that of an [`AnyProcess`] on the heap. C may pass it to any number of calls at once, and frees it once, when no
//! call uses it any more. No proof can check that C does so.
ghost use Rattle.std.specs.Prelude.{◌≡◌, Option, Some, IsSome};
ghost use Rattle.std.specs.Borrow.{Bor, MutBor};
ghost use Rattle.cb_rank_process.specs.declared.any_process.AnyProcess.{AnyProcess as ProcessValue};

use cb_rank_process::AnyProcess;
use std::marker::Model;

/// A process that C owns, or a place for one.
#[repr(C)]
#[derive(Drop)]
pub struct OwnedProcess {
    at: *mut u8,
    pub ghost kept: { Option (MutBor ProcessValue) },
}

impl Model for OwnedProcess {
    ghost use Rattle.cb_mpi.specs.ProcessHandles.{owned_at};

    ghost also_owns = { λ h. owned_at h.at h.kept };
}

/// A process that C passes to a call: nobody changes or frees it while the call runs.
#[repr(C)]
#[derive(Drop)]
pub struct LentProcess {
    at: *const u8,
    pub ghost kept: { Bor ProcessValue },
}

impl Model for LentProcess {
    ghost use Rattle.cb_mpi.specs.ProcessHandles.{lent_at};

    ghost also_owns = { λ h. lent_at h.at h.kept };
}

/// Hands a process to C.
pub(crate) fn hand_out(kept: &'static mut AnyProcess) -> OwnedProcess
    ensures { result.kept ≡ Some kept.entry }
{
    OwnedProcess {
        at: kept as *mut AnyProcess as *mut u8,
    }
}

/// Takes a process back from C.
pub(crate) fn take_back(owned: OwnedProcess) -> &'static mut AnyProcess
    requires { IsSome owned.kept }
    ensures { owned.kept ≡ Some result }
{
    unsafe { &mut *(owned.at as *mut AnyProcess) }
}

/// The process that C passes.
pub(crate) fn borrowed(lent: LentProcess) -> &'static AnyProcess
    ensures { result ≡ lent.kept }
{
    unsafe { &*(lent.at as *const AnyProcess) }
}
