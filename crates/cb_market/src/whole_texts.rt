//! Reading a text.
ghost use Rattle.std.specs.Prelude.{◌≡◌, ◌+◌, ◌^◌, ◌<◌, ◌≤◌, IfOk, IfErr, IsTrue, length, None};
ghost use Rattle.cb_market_lines.specs.Lines.{lines, past_last, kept_from};
ghost use Rattle.cb_matrix.specs.Values.{collected};
ghost use Rattle.cb_market_lines.specs.Checks.{is_shape};
ghost use Rattle.cb_market_lines.specs.Cursor.{after_line};
ghost use Rattle.cb_market_lines.specs.Faults.{entries_fault_from, given, body_fault_from, body_matrix_from, first_fault, IsAnswer, IsLineOf};
ghost use Rattle.cb_market_lines.specs.Reads.{Reads, IsFaultOrMatrix};

use crate::entries::{entries_of, room_for_entries};
use crate::gathered::Gathered;
use cb_dcsc::Block;
use cb_layout::{DistributedMatrix, Grid};
use cb_market_lines::scanner::Scanner;
use cb_market_lines::{Header, Kind, ReadFault, Size};
use cb_semirings::Semiring;
use std::alloc::Global;

/// Reads the size and the entries of a text, from its second line on.
fn body<S: Semiring>(
    scanner: &mut Scanner<'_>,
    alloc: Global,
    grid: Grid,
    header: Header,
) -> Result<Gathered<S>, ReadFault>
    requires { past_last scanner.old.line scanner.old.rest.now < 2 ^ 64 }
    ensures none { IfOk result (λ _. body_fault_from S.arithmetic header scanner.old.line scanner.old.rest.now ≡ None) }
    ensures matrix { IfOk result (λ g. collected S.arithmetic g.shape g.entries ≡ body_matrix_from S.arithmetic header scanner.old.line scanner.old.rest.now) }
    ensures side { IfOk result (λ g. g.side ≡ grid.side) }
    ensures end { IfOk result (λ _. scanner.new.line ≡ past_last scanner.old.line scanner.old.rest.now) }
    ensures fault { IfErr result (IsAnswer (body_fault_from S.arithmetic header scanner.old.line scanner.old.rest.now)) }
    ensures place { IfErr result (IsLineOf scanner.old.line scanner.old.rest.now) }
{
    let Some(first) = scanner.kept_line() else {
        return Err(scanner.fault(Kind::BadSize));
    };
    let size = scanner.size_line(header, &first)?;
    after_size(scanner, alloc, grid, header, size)
}

/// Reads the entries, from the end of the size line on.
fn after_size<S: Semiring>(
    scanner: &mut Scanner<'_>,
    alloc: Global,
    grid: Grid,
    header: Header,
    size: Size,
) -> Result<Gathered<S>, ReadFault>
    requires lines { past_last (scanner.old.line + 1) (after_line scanner.old.rest.now) < 2 ^ 64 }
    requires shape { IsTrue (is_shape header.symmetry size.shape) }
    ensures none { IfOk result (λ _. entries_fault_from S.arithmetic header size (scanner.old.line + 1) (after_line scanner.old.rest.now) ≡ None) }
    ensures shape { IfOk result (λ g. g.shape ≡ size.shape) }
    ensures given { IfOk result (λ g. g.entries ≡ given S.arithmetic header (kept_from (scanner.old.line + 1) (after_line scanner.old.rest.now))) }
    ensures side { IfOk result (λ g. g.side ≡ grid.side) }
    ensures end { IfOk result (λ _. scanner.new.line ≡ past_last (scanner.old.line + 1) (after_line scanner.old.rest.now)) }
    ensures fault { IfErr result (IsAnswer (entries_fault_from S.arithmetic header size (scanner.old.line + 1) (after_line scanner.old.rest.now))) }
    ensures place { IfErr result (λ f. (scanner.old.line ≤ f.line) × (f.line ≤ past_last (scanner.old.line + 1) (after_line scanner.old.rest.now))) }
{
    let refused = scanner.fault(Kind::Memory);
    scanner.next_line();
    let room = room_for_entries(header, size.count, scanner.rest.len());
    let Ok(mut entries) = Gathered::start(alloc, grid, size.shape, room) else {
        return Err(refused);
    };
    entries_of::<S>(scanner, alloc, &mut entries, header, size)?;
    Ok(entries)
}

/// Reads the entries of a text. Returns them and the number of the line past the last, or the first fault.
fn gathered<S: Semiring>(
    alloc: Global,
    grid: Grid,
    text: &[u8],
) -> Result<(Gathered<S>, u64), ReadFault>
    ensures ok { IfOk result (λ p. Reads S.arithmetic text.now (collected S.arithmetic p.0.shape p.0.entries)) }
    ensures side { IfOk result (λ p. p.0.side ≡ grid.side) }
    ensures end { IfOk result (λ p. p.1 ≡ 1 + length (lines text.now)) }
    ensures fault { IfErr result (IsAnswer (first_fault S.arithmetic text.now)) }
    ensures line { IfErr result (IsLineOf 1 text.now) }
{
    if text.is_empty() {
        return Err(ReadFault {
            line: 1,
            kind: Kind::BadHeader,
        });
    }
    let mut scanner = Scanner::new(text);
    let header = match scanner.header::<S>() {
        Ok(header) => header,
        Err(kind) => return Err(ReadFault { line: 1, kind }),
    };
    scanner.next_line();
    let entries = body::<S>(&mut scanner, alloc, grid, header)?;
    Ok((entries, scanner.line))
}

/// Reads a text as a matrix in one block, or returns its first fault, as [`read_distributed`] does.
pub fn read<S: Semiring>(alloc: Global, text: &[u8]) -> Result<Block<S>, ReadFault>
    ensures ok { IfOk result (Reads S.arithmetic text.now) }
    ensures fault { IfErr result (IsAnswer (first_fault S.arithmetic text.now)) }
    ensures line { IfErr result (IsLineOf 1 text.now) }
    ensures law { IsFaultOrMatrix S.arithmetic text.now }
{
    let matrix = read_distributed::<S>(alloc, &Grid::single(), text)?;
    Ok(matrix.into_block())
}

/// Reads a text as a matrix in the blocks of a grid, or returns its first fault. Entries of the same place are added up;
/// sums that are zero aren't stored.
///
/// If memory is refused, the fault names the line that was being read, or the line past the last if all were read. It is
/// returned only if no line up to that one has a fault. The text is read in one pass. If the entries ascend by column and
/// then row and none is zero, they go straight into the blocks. Otherwise they are collected in a list, sorted and added up
/// in place, and then moved to the blocks.
pub fn read_distributed<S: Semiring>(
    alloc: Global,
    grid: &Grid,
    text: &[u8],
) -> Result<DistributedMatrix<S>, ReadFault>
    ensures ok { IfOk result (λ m. Reads S.arithmetic text.now m.matrix) }
    ensures side { IfOk result (λ m. m.side ≡ grid.now.side) }
    ensures fault { IfErr result (IsAnswer (first_fault S.arithmetic text.now)) }
    ensures line { IfErr result (IsLineOf 1 text.now) }
    ensures law { IsFaultOrMatrix S.arithmetic text.now }
{
    let (entries, line) = gathered::<S>(alloc, *grid, text)?;
    match entries.into_blocks(alloc) {
        Ok(blocks) => Ok(blocks),
        Err(_refused) => Err(ReadFault {
            line,
            kind: Kind::Memory,
        }),
    }
}
