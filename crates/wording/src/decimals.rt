// Bytes written in decimal, with white space between them and around them, as document 01 writes them.
ghost use Rattle.std.specs.Prelude.{◌≡◌, ◌≤◌, Ok};
ghost use Rattle.wording.specs.Page.{page as page_page, write};
ghost use Rattle.wording.specs.Decimals.{white, spaced as decimals_spaced, digit as decimals_digit, other as decimals_other, turn as decimals_turn, next, ended as decimals_ended, ends, unread as decimals_unread, Reads};

use crate::{Fault, Reading, Scan, page};

// Before a text's first character.
pub fn unread() -> Reading
    ensures { result ≡ decimals_unread }
{
    Reading {
        said: Ok(Scan {
            value: 0,
            digits: 0,
            line: 1,
            column: 1,
        }),
        bytes: 0,
    }
}

// A piece of a text, after what was read before: its bytes are written on the page out.
pub fn read(out: &mut [u8], before: Reading, piece: &[u8]) -> Reading
    ensures { Reads piece.now before result out.old out.new }
{
    let mut reading = before;
    for c in piece {
        reading = turn(out, reading, *c);
    }
    reading
}

// What a character does; after a fault nothing more is read.
#[tactic(auto, unfolding(crate::specs::Page::write))]
fn turn(out: &mut [u8], before: Reading, c: u8) -> Reading
    ensures said_value { result.said ≡ next c before.said }
    ensures bytes_after { page_page out.new result.bytes ≡ write (ends c before.said) (page_page out.old before.bytes) }
{
    match before.said {
        Ok(scan) => character(out, before.bytes, scan, c),
        Err(_) => before,
    }
}

// A character where no fault was met: white space ends a number.
#[tactic(auto, unfolding(crate::specs::Page::write))]
fn character(out: &mut [u8], at: usize, scan: Scan, c: u8) -> Reading
    ensures said_value { result.said ≡ decimals_turn scan c }
    ensures bytes_after { page_page out.new result.bytes ≡ write (ends c (Ok scan)) (page_page out.old at) }
{
    if is_white(c) {
        let n = ended(out, at, scan);
        return Reading {
            said: Ok(spaced(scan, c)),
            bytes: n,
        };
    }
    Reading {
        said: other(scan, c),
        bytes: at,
    }
}

// The byte that is complete, where a number is begun.
#[tactic(auto, unfolding(crate::specs::Page::write))]
fn ended(out: &mut [u8], at: usize, scan: Scan) -> usize
    ensures { page_page out.new result ≡ write (decimals_ended scan) (page_page out.old at) }
{
    if scan.digits == 0 {
        return at;
    }
    page::put(out, at, scan.value)
}

// Past white space no number is begun; past a line's end stands the next line.
fn spaced(scan: Scan, c: u8) -> Scan
    ensures { result ≡ decimals_spaced scan c }
{
    if c == b'\n' {
        return Scan {
            value: 0,
            digits: 0,
            line: scan.line.saturating_add(1),
            column: 1,
        };
    }
    Scan {
        value: 0,
        digits: 0,
        line: scan.line,
        column: scan.column.saturating_add(1),
    }
}

// A digit makes the number longer; any other character is wrong.
fn other(scan: Scan, c: u8) -> Result<Scan, Fault>
    ensures { result ≡ decimals_other scan c }
{
    match c {
        b'0'..=b'9' => digit(scan, c),
        _ => Err(Fault::Stray(scan.line, scan.column)),
    }
}

// A digit; a number over 255 is wrong where it begins.
fn digit(scan: Scan, c: u8) -> Result<Scan, Fault>
    requires { (48 ≤ c) × (c ≤ 57) }
    ensures { result ≡ decimals_digit scan c }
{
    let w = 10 * usize::from(scan.value) + usize::from(c - b'0');
    if w <= 255 {
        return Ok(Scan {
            value: w as u8,
            digits: scan.digits.saturating_add(1),
            line: scan.line,
            column: scan.column.saturating_add(1),
        });
    }
    Err(Fault::Over(scan.line, scan.column.saturating_sub(scan.digits)))
}

// A blank, a tab, a line's end.
fn is_white(c: u8) -> bool
    ensures { result ≡ white c }
{
    c == b' ' || c == b'\t' || c == b'\n' || c == b'\r'
}
