// The command's words: every text that it writes, and bytes in decimal that it reads.
// An answer is written on a page, a lent buffer, and the function answers how much of the page is then written; writing past its end changes nothing.
// Each contract is the definition's text (specs/Answers.antt), whatever stood on the page before.
#![tactic(auto)]

ghost use Rattle.std.specs.Prelude.{◌≡◌, ◌-◌, ◌<◌, length};
ghost use Rattle.wording.specs.Page.{page as page_page, write};
ghost use Rattle.wording.specs.Answers.{accepted_text, stands_text, refused_text, dots_text, here_text, around_text, sheet_text, certificate_text, first_at, operand as answers_operand, facts_of, phrase_text, falls_text, fails_text, bytes_text, trouble_text};
ghost use Rattle.wording.specs.Decimals.{unread as decimals_unread, Reads};

use language::{Inferences, Why, Work};
use records::{PhraseKind, rows};

pub mod decimals;
pub mod page;
mod tables;
pub mod template;

// What keeps a request from being answered, by its number.
#[derive(Clone, Copy, PartialEq, Eq)]
pub enum Obstacle {
    // A character in the sheet's text is neither a digit nor white space.
    StrayInSheet = 0,
    // A number in the sheet's text is over 255.
    OverInSheet = 1,
    // A character in the certificate's text is neither a digit nor white space.
    StrayInCertificate = 2,
    // A number in the certificate's text is over 255.
    OverInCertificate = 3,
    // The request is none, or is cut short.
    NoRequest = 4,
    // The certificate can't be kept.
    Unkept = 5,
}

// The refusals whose place is a byte are the numbers from one to the other, and those of a certificate's bytes, which are more.
const BYTES_END: usize = Why::BytesEnd as usize;

const BYTES_AFTER: usize = Why::BytesAfter as usize;

// Where a text is read: the number begun and how many digits it has, and the next character's line and column, counted from 1.
#[derive(Clone, Copy)]
pub struct Scan {
    pub value: u8,
    pub digits: usize,
    pub line: usize,
    pub column: usize,
}

// What is wrong in a text of bytes in decimal, by its line and column: a character that is neither a digit nor white space; or the beginning of a
// number over 255.
#[derive(Clone, Copy)]
pub enum Fault {
    Stray(usize, usize),
    Over(usize, usize),
}

// A text read so far: what it says, bytes or its first fault, and how many bytes are written.
#[derive(Drop)]
pub struct Reading {
    pub said: Result<Scan, Fault>,
    pub bytes: usize,
}

// Before a text's first character.
pub fn unread() -> Reading
    ensures { result ≡ decimals_unread }
{
    decimals::unread()
}

// A piece of a text in decimal, after what was read before; its bytes are written on the page out. White space stands after a text's last piece.
pub fn read_decimal(out: &mut [u8], before: Reading, piece: &[u8]) -> Reading
    ensures { Reads piece.now before result out.old out.new }
{
    decimals::read(out, before, piece)
}

// Bytes as they are, on the page out.
pub fn copy(out: &mut [u8], at: usize, s: &[u8]) -> usize
    ensures { page_page out.new result ≡ write s.now (page_page out.old at) }
{
    page::copy(out, at, s)
}

// An evaluation that is accepted: the certificate's length, the work, the inferences.
pub fn accepted(
    out: &mut [u8],
    at: usize,
    length: usize,
    work: Work,
    inferences: Inferences,
) -> usize
    ensures { page_page out.new result ≡ write (accepted_text length work inferences) (page_page out.old at) }
{
    template::fill(
        out,
        at,
        b"ACCEPTED with a certificate of 1 bytes, work 2, inferences 3\n",
        0,
        &[0, length, work.0, inferences.0],
    )
}

// A check that is accepted: the certificate's length, the conclusion's number, the inferences.
pub fn stands(
    out: &mut [u8],
    at: usize,
    length: usize,
    conclusion: usize,
    inferences: Inferences,
) -> usize
    ensures { page_page out.new result ≡ write (stands_text length conclusion inferences) (page_page out.old at) }
{
    template::fill(
        out,
        at,
        b"ACCEPTED with conclusion 2, inferences 3, in a certificate of 1 bytes\n",
        0,
        &[0, length, conclusion, inferences.0],
    )
}

// A refused check: the refusal, and its place in the bytes that it is about.
pub fn falls(
    out: &mut [u8],
    at: usize,
    sheet: &[u8],
    certificate: &[u8],
    number: usize,
    place: usize,
) -> usize
    ensures { page_page out.new result ≡ write (falls_text sheet.now certificate.now number place) (page_page out.old at) }
{
    let k = refused(out, at, number);
    if BYTES_END <= number {
        if number <= BYTES_AFTER {
            return in_sheet(out, k, sheet, place);
        }
        return in_certificate(out, k, certificate, place);
    }
    k
}

// A refused evaluation: the refusal, and its place where that is in the sheet's bytes.
pub fn fails(out: &mut [u8], at: usize, sheet: &[u8], number: usize, place: usize) -> usize
    ensures { page_page out.new result ≡ write (fails_text sheet.now number place) (page_page out.old at) }
{
    let k = refused(out, at, number);
    if BYTES_END <= number {
        if number <= BYTES_AFTER {
            return in_sheet(out, k, sheet, place);
        }
    }
    k
}

// A phrase as a place: its number, and its row in words. The names are those of the sheet's propositions.
pub fn at_phrase(out: &mut [u8], at: usize, row: &[u32], names: &[u32], k: usize) -> usize
    ensures { page_page out.new result ≡ write (phrase_text row.now names.now k) (page_page out.old at) }
{
    let facts = facts_of(row, names);
    let said = template::fill(out, at, b"at phrase 1: ", 0, &[0, k]);
    let told = template::fill(out, said, &tables::KINDS, words::at(row, 0), &facts);
    page::words(out, told, b"\n", 0)
}

// A certificate's bytes in decimal, on a line.
pub fn in_decimal(out: &mut [u8], at: usize, certificate: &[u8]) -> usize
    ensures { page_page out.new result ≡ write (bytes_text certificate.now) (page_page out.old at) }
{
    if certificate.len() == 0 {
        return page::words(out, at, b"\n", 0);
    }
    let first = page::number(out, at, usize::from(certificate[0]));
    let all = page::bytes(out, first, certificate, 1, certificate.len());
    page::words(out, all, b"\n", 0)
}

// What keeps a request from being answered, by its number, with the line and column of a fault.
pub fn trouble(out: &mut [u8], at: usize, which: usize, line: usize, column: usize) -> usize
    ensures { page_page out.new result ≡ write (trouble_text which line column) (page_page out.old at) }
{
    template::fill(out, at, &tables::TROUBLES, which, &[0, line, column, 255])
}

// A refusal's number and its words.
fn refused(out: &mut [u8], at: usize, number: usize) -> usize
    ensures { page_page out.new result ≡ write (refused_text number) (page_page out.old at) }
{
    template::fill(out, at, b"REFUSED 1: 9\n", 0, &[0, number])
}

// A place in the sheet's bytes.
fn in_sheet(out: &mut [u8], at: usize, s: &[u8], place: usize) -> usize
    ensures { page_page out.new result ≡ write (sheet_text s.now place) (page_page out.old at) }
{
    let said = template::fill(out, at, b"at byte 1 of the sheet:", 0, &[0, place]);
    let shown = around(out, said, s, place);
    page::words(out, shown, b"\n", 0)
}

// A place in a certificate's bytes.
fn in_certificate(out: &mut [u8], at: usize, s: &[u8], place: usize) -> usize
    ensures { page_page out.new result ≡ write (certificate_text s.now place) (page_page out.old at) }
{
    let said = template::fill(out, at, b"at byte 1 of the certificate:", 0, &[0, place]);
    let shown = around(out, said, s, place);
    page::words(out, shown, b"\n", 0)
}

// The bytes around a place, at most eight on either side, the one there marked; past the last byte stands the end.
fn around(out: &mut [u8], at: usize, s: &[u8], place: usize) -> usize
    ensures { page_page out.new result ≡ write (around_text s.now place) (page_page out.old at) }
{
    let from = place.saturating_sub(8);
    let begun = dots(out, at, 8 < place);
    let before = page::bytes(out, begun, s, from, place - from);
    if place < s.len() {
        return here(out, before, s, place);
    }
    page::words(out, before, b" [end]", 0)
}

// The byte at a place, marked, and those after it.
fn here(out: &mut [u8], at: usize, s: &[u8], place: usize) -> usize
    requires { place < length s.now }
    ensures { page_page out.new result ≡ write (here_text s.now place) (page_page out.old at) }
{
    let marked = template::fill(out, at, b" [1]", 0, &[0, usize::from(s[place])]);
    let after = page::bytes(out, marked, s, place + 1, 8);
    dots(out, after, 9 < s.len() - place)
}

// A mark where something is left out.
fn dots(out: &mut [u8], at: usize, more: bool) -> usize
    ensures { page_page out.new result ≡ write (dots_text more) (page_page out.old at) }
{
    if more {
        return page::words(out, at, b" ..", 0);
    }
    at
}

// A phrase's row as facts.
fn facts_of(row: &[u32], names: &[u32]) -> [usize; rows::PHRASE]
    ensures { result ≡ facts_of row.now names.now }
{
    [
        words::at(row, 0),
        operand(row, names),
        words::at(row, 2),
        words::at(row, 3),
        words::at(row, 4),
        words::at(row, 5),
        words::at(row, 6),
        words::at(row, 7),
        words::at(row, 8),
        words::at(row, 9),
        words::at(row, 10),
        words::at(row, 11),
    ]
}

// A row's first operand: a proposition by its number in the sheet, the first of those equal to it; any other as it is.
fn operand(row: &[u32], names: &[u32]) -> usize
    ensures { result ≡ answers_operand row.now names.now }
{
    if words::at(row, 0) == PhraseKind::Proposition as usize {
        return first_at(names, words::at(row, 1));
    }
    words::at(row, 1)
}

// The first place of a number in a list; the list's length where it has none.
#[tactic(auto, using(crate::proofs::Walking::finding))]
fn first_at(s: &[u32], w: usize) -> usize
    ensures { result ≡ first_at s.now w }
{
    for (i, x) in s.iter().enumerate() {
        if *x as usize == w {
            return i;
        }
    }
    s.len()
}
