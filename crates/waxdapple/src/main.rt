// The command's program: requests in, answers in words out. A request is a line and the bytes of the files that it announces, one after another:
//     KIND FORM LENGTH FORM LENGTH BUDGET PRINT KEEP \n SHEET CERTIFICATE
// each field ended by a blank. KIND is E, evaluate, or C, check. A FORM is b, bytes as they are, or t, bytes in decimal; a LENGTH is that of the file.
// An evaluation has a certificate's file of no bytes; a check has budget 0. PRINT is d where an accepted certificate is to be printed in decimal.
// KEEP is b or t where an accepted evaluation's certificate is to be written to descriptor 3, as bytes or in decimal. Any other letter asks for neither.
// A file may be of any length: it is read piece by piece, and its front decides. A text is read to its end, so that a fault in it is found wherever it is.
// A read or a write that fails ends the program with its error; where it is descriptor 3 that can't be written, the answer says so.
// This program only reads, calls and writes; every answer's words are of the crate `wording`.
#![tactic(auto)]

ghost use Rattle.std.specs.Prelude.{◌≤◌, ◌<◌, ◌≡◌, IfOk, IfSome, length};

use language::{Accepted, Refusal, Stands, Why};
use records::rows;
use std::fs::OpenOptions;
use std::io;
use std::io::{Read, Write};
use std::rt::Files;
use wording::{Fault, Obstacle, Reading, Scan};

// The front of a sheet that decides: no sheet that reads is longer than 12,297 bytes (`longest_sheet` of `theorems`), and ten bytes more are shown
// around a place (`around_front` of `wording`).
const SHEET: usize = 12307;

// The front of a certificate: none that reads is longer than 80,388 bytes (`longest_certificate`), none of an evaluation is (`longest_accepted`).
const CERTIFICATE: usize = 80398;

// What is read at once.
const PIECE: usize = 65536;

// A request's line is no longer.
const LINE: usize = 128;

// An answer in words is no longer.
const PAGE: usize = 4096;

// Where a certificate that is to be kept goes, at the end of what is there: descriptor 3, by its name as a file.
const KEPT: &str = "/proc/self/fd/3";

// What is asked.
#[derive(Drop)]
struct Request {
    kind: Option<u8>,
    sheet_form: Option<u8>,
    sheet: usize,
    certificate_form: Option<u8>,
    certificate: usize,
    budget: usize,
    print: Option<u8>,
    keep: Option<u8>,
}

// A file of which so much is left to read.
#[derive(Drop)]
struct Rest {
    reading: Reading,
    left: usize,
}

fn main(rt: HostRuntime) -> io::Result<()> {
    let mut input = rt.reader();
    for _ in 0..u64::MAX {
        if !answer(&rt, &mut input)? {
            return Ok(());
        }
    }
    Ok(())
}

// The next request; whether another may follow.
fn answer(rt: &(impl Files + Print), input: &mut impl Read) -> io::Result<bool> {
    let mut line = [0u8; LINE];
    if read_line(input, &mut line)? {
        return answered(rt, input, asked(&line));
    }
    Ok(false)
}

// A line of the input without its end; whether there is one.
fn read_line(input: &mut impl Read, line: &mut [u8]) -> io::Result<bool> {
    for n in 0..line.len() {
        match next_byte(input)? {
            Some(b'\n') => return Ok(true),
            Some(c) => line[n] = c,
            None => return Ok(0 < n),
        }
    }
    Ok(true)
}

// The next byte; none at the input's end.
fn next_byte(input: &mut impl Read) -> io::Result<Option<u8>> {
    let mut c = [0u8; 1];
    let n = read_full(input, &mut c)?;
    if n == 0 {
        return Ok(None);
    }
    Ok(Some(c[0]))
}

// Reads until the buffer is full or the input ends; how many bytes that gave.
fn read_full(input: &mut impl Read, buffer: &mut [u8]) -> io::Result<usize>
    ensures { IfOk result (λ n. n ≤ length buffer.new) }
{
    let mut done = 0;
    while done < buffer.len() {
        let n = input.read(&mut buffer[done..])?;
        if n == 0 {
            return Ok(done);
        }
        done += n;
    }
    Ok(done)
}

// What a line asks.
fn asked(line: &[u8]) -> Request {
    let mut fields = line.split(|c| *c == b' ');
    Request {
        kind: letter(fields.next()),
        sheet_form: letter(fields.next()),
        sheet: number(fields.next()),
        certificate_form: letter(fields.next()),
        certificate: number(fields.next()),
        budget: number(fields.next()),
        print: letter(fields.next()),
        keep: letter(fields.next()),
    }
}

// A field's letter.
fn letter(field: Option<&[u8]>) -> Option<u8> {
    field?.first().copied()
}

// A field's number; the largest one where it is no number of 64 bits.
fn number(field: Option<&[u8]>) -> usize {
    let digits = field.unwrap_or_default();
    requests::read_decimal(digits, 0, digits.len()).unwrap_or(usize::MAX)
}

// The request with its files, both read before either is looked at; whether another may follow.
fn answered(rt: &(impl Files + Print), input: &mut impl Read, r: Request) -> io::Result<bool> {
    let mut sheet = [0u8; SHEET];
    let mut certificate = [0u8; CERTIFICATE];
    let Some(s) = read_file(input, &mut sheet, r.sheet_form, r.sheet)? else {
        return cut_short(rt);
    };
    let Some(c) = read_file(input, &mut certificate, r.certificate_form, r.certificate)? else {
        return cut_short(rt);
    };
    let in_sheet = s.said;
    if faulty(rt, in_sheet, Obstacle::StrayInSheet, Obstacle::OverInSheet)? {
        return Ok(true);
    }
    let in_certificate = c.said;
    if faulty(
        rt,
        in_certificate,
        Obstacle::StrayInCertificate,
        Obstacle::OverInCertificate,
    )? {
        return Ok(true);
    }
    let n = s.bytes;
    let m = c.bytes;
    if n <= SHEET {
        if m <= CERTIFICATE {
            with_both(rt, &sheet[..n], &certificate[..m], &r)?;
        }
    }
    Ok(true)
}

// A file of so many bytes: its front, as far as out goes; none where the input ends before the file does. White space after it ends a text's last
// number.
fn read_file(
    input: &mut impl Read,
    out: &mut [u8],
    form: Option<u8>,
    long: usize,
) -> io::Result<Option<Reading>> {
    let mut reading = wording::unread();
    let mut left = long;
    while 0 < left {
        let Some(rest) = read_piece(input, out, form, reading, left)? else {
            return Ok(None);
        };
        left = rest.left;
        reading = rest.reading;
    }
    Ok(Some(wording::read_decimal(out, reading, b" ")))
}

// The next piece of a file; none where the input has ended.
fn read_piece(
    input: &mut impl Read,
    out: &mut [u8],
    form: Option<u8>,
    reading: Reading,
    left: usize,
) -> io::Result<Option<Rest>>
    ensures { IfOk result (λ piece. IfSome piece (λ rest. rest.left < left)) }
{
    let mut bytes = [0u8; PIECE];
    let most = left.min(PIECE);
    let n = read_full(input, &mut bytes[..most])?;
    if n == 0 {
        return Ok(None);
    }
    Ok(Some(Rest {
        reading: taken(out, form, reading, &bytes[..n]),
        left: left - n,
    }))
}

// A piece of a file, as bytes or in decimal.
fn taken(out: &mut [u8], form: Option<u8>, reading: Reading, bytes: &[u8]) -> Reading {
    if form == Some(b't') {
        return wording::read_decimal(out, reading, bytes);
    }
    let said = reading.said;
    let n = wording::copy(out, reading.bytes, bytes);
    Reading { said, bytes: n }
}

// Whether a text has a fault, which is then said.
fn faulty(
    rt: &impl Print,
    said: Result<Scan, Fault>,
    stray: Obstacle,
    over: Obstacle,
) -> io::Result<bool> {
    match said {
        Ok(_) => Ok(false),
        Err(Fault::Stray(line, column)) => {
            trouble(rt, stray, line, column)?;
            Ok(true)
        }
        Err(Fault::Over(line, column)) => {
            trouble(rt, over, line, column)?;
            Ok(true)
        }
    }
}

// The request with all its bytes.
fn with_both(
    rt: &(impl Files + Print),
    sheet: &[u8],
    certificate: &[u8],
    r: &Request,
) -> io::Result<()> {
    match r.kind {
        Some(b'E') => evaluate(rt, sheet, r),
        Some(b'C') => check(rt, sheet, certificate, r),
        _ => trouble(rt, Obstacle::NoRequest, 0, 0),
    }
}

// The evaluation of a sheet.
fn evaluate(rt: &(impl Files + Print), sheet: &[u8], r: &Request) -> io::Result<()> {
    let mut listing = [0u32; evaluator::LISTING];
    let mut forms = [0u32; evaluator::FORMS];
    let mut patterns = [0u32; evaluator::PATTERNS];
    let mut phrases = [0u32; evaluator::PHRASES];
    let mut base = [0u32; evaluator::BASE];
    let mut binds = [0u32; evaluator::BINDINGS];
    let mut tokens = [0u32; evaluator::TOKENS];
    let mut out = [0u8; CERTIFICATE];
    let evaluated = evaluator::evaluate(
        sheet,
        r.budget,
        &mut listing,
        &mut forms,
        &mut patterns,
        &mut phrases,
        &mut base,
        &mut binds,
        &mut tokens,
        &mut out,
    );
    told_evaluation(rt, sheet, &out, evaluated, r)
}

// What an evaluation answered, with the certificate that it wrote.
fn told_evaluation(
    rt: &(impl Files + Print),
    sheet: &[u8],
    out: &[u8],
    evaluated: Result<Accepted, Refusal>,
    r: &Request,
) -> io::Result<()> {
    let mut page = [0u8; PAGE];
    match evaluated {
        Ok(a) => {
            let n = wording::accepted(&mut page, 0, a.length, a.work, a.inferences);
            if let Some(certificate) = out.get(..a.length) {
                told_accepted(rt, &page, n, certificate, r)?;
            }
            Ok(())
        }
        Err(refusal) => {
            let n = wording::fails(&mut page, 0, sheet, refusal.0.number(), refusal.1);
            say(&mut io::writer(rt), &page, n)?;
            in_phrase(rt, sheet, refusal)
        }
    }
}

// An accepted evaluation, said where its certificate is kept as asked; and printed as asked.
fn told_accepted(
    rt: &(impl Files + Print),
    page: &[u8],
    n: usize,
    certificate: &[u8],
    r: &Request,
) -> io::Result<()> {
    if is_kept(rt, certificate, r.keep) {
        say(&mut io::writer(rt), page, n)?;
        return printed(rt, certificate, r);
    }
    trouble(rt, Obstacle::Unkept, 0, 0)
}

// An accepted certificate in decimal, as asked.
fn printed(rt: &impl Print, certificate: &[u8], r: &Request) -> io::Result<()> {
    if r.print == Some(b'd') {
        in_decimal(&mut io::writer(rt), certificate)?;
    }
    Ok(())
}

// Whether a certificate is kept, as asked.
fn is_kept(rt: &impl Files, certificate: &[u8], keep: Option<u8>) -> bool {
    match keep {
        Some(b'b') => keep_bytes(rt, certificate).is_ok(),
        Some(b't') => keep_decimal(rt, certificate).unwrap_or(false),
        _ => true,
    }
}

// Keeps a certificate as bytes.
fn keep_bytes(rt: &impl Files, certificate: &[u8]) -> io::Result<()> {
    let mut kept = OpenOptions::new().append(true).open(rt, KEPT)?;
    kept.write_all(certificate)
}

// Keeps a certificate in decimal; whether it could be.
fn keep_decimal(rt: &impl Files, certificate: &[u8]) -> io::Result<bool> {
    let mut kept = OpenOptions::new().append(true).open(rt, KEPT)?;
    in_decimal(&mut kept, certificate)
}

// The phrase that a refusal is about, where it is about one.
fn in_phrase(rt: &impl Print, sheet: &[u8], r: Refusal) -> io::Result<()> {
    let Refusal(why, place) = r;
    let number = why.number();
    if Why::BudgetSpent.number() <= number && number <= Why::NoClause.number() {
        return phrase(rt, sheet, place);
    }
    Ok(())
}

// A phrase of a sheet.
fn phrase(rt: &impl Print, sheet: &[u8], k: usize) -> io::Result<()> {
    let mut names = [0u32; reader::NAMES];
    let mut forms = [0u32; reader::FORMS];
    let mut patterns = [0u32; reader::PATTERNS];
    let mut phrases = [0u32; reader::PHRASES];
    let mut base = [0u32; reader::BASE];
    match reader::read_sheet(
        &mut names,
        &mut forms,
        &mut patterns,
        &mut phrases,
        &mut base,
        sheet,
    ) {
        Ok(c) => row(rt, &names, &phrases, c.props, k),
        Err(_) => Ok(()),
    }
}

// The phrase whose row is the k-th, over so many names.
fn row(rt: &impl Print, names: &[u32], phrases: &[u32], props: usize, k: usize) -> io::Result<()> {
    let mut page = [0u8; PAGE];
    if names.len() < props {
        return Ok(());
    }
    if k < phrases.len() / rows::PHRASE {
        let from = rows::PHRASE * k;
        let to = from + rows::PHRASE;
        let n = wording::at_phrase(&mut page, 0, &phrases[from..to], &names[..props], k);
        say(&mut io::writer(rt), &page, n)?;
    }
    Ok(())
}

// The check of a certificate.
fn check(rt: &impl Print, sheet: &[u8], certificate: &[u8], r: &Request) -> io::Result<()> {
    let mut names = [0u32; checker::NAMES];
    let mut forms = [0u32; checker::FORMS];
    let mut patterns = [0u32; checker::PATTERNS];
    let mut phrases = [0u32; checker::PHRASES];
    let mut base = [0u32; checker::BASE];
    let checked = checker::check(
        sheet,
        certificate,
        &mut names,
        &mut forms,
        &mut patterns,
        &mut phrases,
        &mut base,
    );
    told(rt, sheet, certificate, checked, r)
}

// What a check answered; a certificate that stands is printed as asked.
fn told(
    rt: &impl Print,
    sheet: &[u8],
    certificate: &[u8],
    checked: Result<Stands, Refusal>,
    r: &Request,
) -> io::Result<()> {
    let mut page = [0u8; PAGE];
    match checked {
        Ok(c) => {
            let n = wording::stands(&mut page, 0, certificate.len(), c.conclusion, c.inferences);
            say(&mut io::writer(rt), &page, n)?;
            printed(rt, certificate, r)
        }
        Err(Refusal(why, place)) => {
            let n = wording::falls(&mut page, 0, sheet, certificate, why.number(), place);
            say(&mut io::writer(rt), &page, n)?;
            Ok(())
        }
    }
}

// A certificate's bytes in decimal; whether the page has them whole.
fn in_decimal(to: &mut impl Write, certificate: &[u8]) -> io::Result<bool> {
    let mut page = buffer();
    let n = wording::in_decimal(&mut page, 0, certificate);
    say(to, &page, n)
}

// The input ends within a request; no other follows.
fn cut_short(rt: &impl Print) -> io::Result<bool> {
    trouble(rt, Obstacle::NoRequest, 0, 0)?;
    Ok(false)
}

// What keeps a request from being answered.
fn trouble(rt: &impl Print, which: Obstacle, line: usize, column: usize) -> io::Result<()> {
    let mut page = [0u8; PAGE];
    let n = wording::trouble(&mut page, 0, which as usize, line, column);
    say(&mut io::writer(rt), &page, n)?;
    Ok(())
}

// The first n characters of a page; whether it has as many.
fn say(to: &mut impl Write, page: &[u8], n: usize) -> io::Result<bool> {
    if n <= page.len() {
        to.write_all(&page[..n])?;
        return Ok(true);
    }
    Ok(false)
}

// Zeros, for a certificate in decimal, four characters to a byte. The contract is what lending the array needs.
fn buffer() -> [u8; 321592]
    ensures { 321592 ≡ length result }
{
    [0; 321592]
}
