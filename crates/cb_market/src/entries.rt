//! The entries of a text.
ghost use Rattle.std.specs.Prelude.{◌≡◌, ◌+◌, ◌*◌, ◌/◌, ◌^◌, ◌<◌, ◌++◌, IsTrue, IfOk, IfErr, OnOk, OnErr, length, None};
ghost use mathlib.Core.List.{IsPrefix};
ghost use Rattle.cb_semirings.specs.Arithmetic.{IsValue};
ghost use Rattle.cb_matrix.specs.Sparse.{IsInside};
ghost use Rattle.cb_market_lines.specs.Lines.{lines, kept, past_last, kept_from};
ghost use Rattle.cb_market_lines.specs.Checks.{is_shape, given_by};
ghost use Rattle.cb_market_lines.specs.Faults.{entries_fault_from, given, IsAnswer, IsLineOf};
ghost use Rattle.cb_market.specs.Room.{shortest_line, most_given, room_of};
ghost use Rattle.cb_market.specs.Pieces.{AreFaultless, given_in};

use crate::gathered::Gathered;
use cb_market_lines::entry_lines::{mirrored, negative_of};
use cb_market_lines::scanner::Scanner;
use cb_market_lines::{Field, Header, Kind, ReadFault, Size, Symmetry};
use cb_matrix::Entry;
use cb_semirings::Semiring;
use std::alloc::{AllocError, Global};

/// Adds an entry, and the mirrored one if the symmetry has it. If memory is refused, the entries from before stay, and the
/// first of the two may have been added.
#[inline(always)]
pub fn give<S: Semiring>(
    alloc: Global,
    entries: &mut Gathered<S>,
    symmetry: Symmetry,
    entry: Entry,
) -> Result<(), AllocError>
    requires value { IsValue S.arithmetic entry.value }
    requires inside { IsInside entries.old.shape entry }
    requires shape { IsTrue (is_shape symmetry entries.old.shape) }
    ensures given { OnOk result (entries.new.entries ≡ entries.old.entries ++ given_by S.arithmetic symmetry entry) }
    ensures err { OnErr result (IsPrefix entries.old.entries entries.new.entries) }
    ensures side { entries.new.side ≡ entries.old.side }
    ensures shape { entries.new.shape ≡ entries.old.shape }
{
    entries.push(alloc, entry)?;
    match symmetry {
        Symmetry::General => {}
        Symmetry::Symmetric => {
            if entry.row != entry.column {
                entries.push(alloc, mirrored(entry.value, entry))?;
            }
        }
        Symmetry::SkewSymmetric => {
            entries.push(alloc, mirrored(negative_of::<S>(entry.value), entry))?;
        }
    }
    Ok(())
}

/// Returns the length of the shortest line of an entry, with its line feed.
fn shortest_line(field: Field) -> usize
    ensures { result ≡ shortest_line field }
{
    match field {
        Field::Integer => 6,
        Field::Pattern => 4,
    }
}

/// Returns the most entries that a line gives.
fn most_given(symmetry: Symmetry) -> usize
    ensures { result ≡ most_given symmetry }
{
    match symmetry {
        Symmetry::General => 1,
        Symmetry::Symmetric => 2,
        Symmetry::SkewSymmetric => 2,
    }
}

/// Returns the number of entries to take room for: as many as are announced, but no more than this many bytes can hold. So a
/// short text that announces many entries takes little memory.
pub fn room_for_entries(header: Header, count: u32, bytes: usize) -> usize
    requires { bytes + 1 < 2 ^ 64 }
    ensures { result ≡ room_of header count bytes }
{
    let lines = (bytes + 1) / shortest_line(header.field);
    most_given(header.symmetry) * lines.min(count as usize)
}

/// Reads the entries of a text, from the line after its size line on, and adds them to `entries`. After a fault the entries
/// from before stay, followed by some of those that were read.
pub fn entries_of<S: Semiring>(
    scanner: &mut Scanner<'_>,
    alloc: Global,
    entries: &mut Gathered<S>,
    header: Header,
    size: Size,
) -> Result<(), ReadFault>
    requires lines { past_last scanner.old.line scanner.old.rest.now < 2 ^ 64 }
    requires room { entries.old.room ≡ room_of header size.count (length scanner.old.rest.now) }
    requires same_shape { entries.old.shape ≡ size.shape }
    requires shape { IsTrue (is_shape header.symmetry size.shape) }
    ensures none { OnOk result (entries_fault_from S.arithmetic header size scanner.old.line scanner.old.rest.now ≡ None) }
    ensures given { OnOk result (entries.new.entries ≡ entries.old.entries ++ given S.arithmetic header (kept_from scanner.old.line scanner.old.rest.now)) }
    ensures err { OnErr result (IsPrefix entries.old.entries entries.new.entries) }
    ensures side { entries.new.side ≡ entries.old.side }
    ensures shape { entries.new.shape ≡ size.shape }
    ensures line { OnOk result (scanner.new.line ≡ past_last scanner.old.line scanner.old.rest.now) }
    ensures fault { IfErr result (IsAnswer (entries_fault_from S.arithmetic header size scanner.old.line scanner.old.rest.now)) }
    ensures place { IfErr result (IsLineOf scanner.old.line scanner.old.rest.now) }
{
    let missing = remaining_entries::<S>(scanner, alloc, entries, header, size)?;
    if missing != 0 {
        return Err(scanner.fault(Kind::MissingEntries));
    }
    Ok(())
}

/// Reads the entries of all lines that are left, and adds them to `entries`. Returns how many of those announced are
/// missing, or the first fault of a line. After a fault the entries from before stay, followed by some of those that were
/// read.
pub fn remaining_entries<S: Semiring>(
    scanner: &mut Scanner<'_>,
    alloc: Global,
    entries: &mut Gathered<S>,
    header: Header,
    size: Size,
) -> Result<u32, ReadFault>
    requires lines { past_last scanner.old.line scanner.old.rest.now < 2 ^ 64 }
    requires same_shape { entries.old.shape ≡ size.shape }
    requires shape { IsTrue (is_shape header.symmetry size.shape) }
    ensures faultless { OnOk result (AreFaultless S.arithmetic header size.shape (kept (lines scanner.old.rest.now))) }
    ensures missing { IfOk result (λ missing. missing + length (kept (lines scanner.old.rest.now)) ≡ size.count) }
    ensures given { OnOk result (entries.new.entries ≡ entries.old.entries ++ given_in S.arithmetic header (kept (lines scanner.old.rest.now))) }
    ensures err { OnErr result (IsPrefix entries.old.entries entries.new.entries) }
    ensures side { entries.new.side ≡ entries.old.side }
    ensures shape { entries.new.shape ≡ size.shape }
    ensures line { OnOk result (scanner.new.line ≡ past_last scanner.old.line scanner.old.rest.now) }
    ensures fault { IfErr result (IsAnswer (entries_fault_from S.arithmetic header size scanner.old.line scanner.old.rest.now)) }
    ensures place { IfErr result (IsLineOf scanner.old.line scanner.old.rest.now) }
{
    let mut left = size.count;
    loop {
        let Some((line, found)) = scanner.next_entry::<S>(header, size.shape) else {
            break;
        };
        if left == 0 {
            return Err(ReadFault {
                line,
                kind: Kind::ExtraEntry,
            });
        }
        let entry = match found {
            Ok(entry) => entry,
            Err(kind) => return Err(ReadFault { line, kind }),
        };
        if give::<S>(alloc, entries, header.symmetry, entry).is_err() {
            return Err(ReadFault {
                line,
                kind: Kind::Memory,
            });
        }
        left -= 1;
    }
    Ok(left)
}
