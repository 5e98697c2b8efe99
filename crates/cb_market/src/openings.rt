//! The beginning of a text, before its entries.
ghost use Rattle.std.specs.Prelude.{◌^◌, ◌<◌, IsTrue, IfSome};
ghost use Rattle.cb_market_lines.specs.Lines.{past_last};
ghost use Rattle.cb_market_lines.specs.Checks.{is_shape};
ghost use Rattle.cb_market.specs.Pieces.{IsBody, IsOpening};

use cb_market_lines::scanner::Scanner;
use cb_market_lines::{Header, Size};
use cb_semirings::Semiring;

/// The header and the size of a text, the number of the line after the size line, and the bytes from that line on.
#[derive(Clone, Copy)]
pub struct Opening<'a> {
    pub header: Header,
    pub size: Size,
    pub line: u64,
    pub entries: &'a [u8],
}

impl<'a> Opening<'a> {
    /// Reads the opening of a text. None if the header or the size line has a fault.
    pub fn of<S: Semiring>(text: &'a [u8]) -> Option<Opening<'a>>
        ensures { IfSome result (λ o. IsOpening S.arithmetic text.now o.header o.size o.line o.entries.now) }
    {
        if text.is_empty() {
            return None;
        }
        let mut scanner = Scanner::new(text);
        let Ok(header) = scanner.header::<S>() else {
            return None;
        };
        scanner.next_line();
        let Some(size) = size_of_entries::<S>(&mut scanner, header) else {
            return None;
        };
        Some(Opening {
            header,
            size,
            line: scanner.line,
            entries: scanner.rest,
        })
    }
}

/// Reads the size from the next line that isn't skipped, and moves to the line after it. None if there is no such
/// line or it has a fault.
fn size_of_entries<S: Semiring>(scanner: &mut Scanner<'_>, header: Header) -> Option<Size>
    requires { past_last scanner.old.line scanner.old.rest.now < 2 ^ 64 }
    ensures shape { IfSome result (λ z. IsTrue (is_shape header.symmetry z.shape)) }
    ensures body { IfSome result (λ z. IsBody S.arithmetic header scanner.old.line scanner.old.rest.now z scanner.new.line scanner.new.rest.now) }
{
    let Some(first) = scanner.kept_line() else {
        return None;
    };
    let Ok(size) = scanner.size_line(header, &first) else {
        return None;
    };
    scanner.next_line();
    Some(size)
}
