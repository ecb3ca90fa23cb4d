// Replays requests: each line of standard input is a request, and its answer is a line of standard output.
//     S SHEET                   reads a sheet: S 0 and how many propositions, patterns, phrases and members of the base it has, and its root;
//                               or S NUMBER PLACE
//     V SHEET                   evaluates each expression of a sheet by itself, with a budget of 1,024: a line V PHRASE 0 KIND NUMBER LEFT for each, or
//                               V PHRASE NUMBER PLACE; the kinds are 0 proposition, 1 constructor, 2 rule, 3 function, 4 method; the number is that of the
//                               formed proposition, of the constructor, of the rule, of the phrase; left is what is left of the budget
//     C SHEET CERTIFICATE       checks a certificate: C 0 CONCLUSION INFERENCES; or C NUMBER PLACE
//     E BUDGET ROOM SHEET       evaluates, with ROOM bytes of output: E 0 LENGTH WORK INFERENCES CERTIFICATE; or E NUMBER PLACE
//     T TOKENS BUDGET ROOM SHEET    the same, with a buffer of TOKENS numbers lent for the certificate's tokens
// Bytes are in hexadecimal, numbers in decimal; a dash stands for no bytes. A line that is no request, or is over 140,000 characters long, gets the line ?.
// A read or a write that fails ends the program with its error.
#![tactic(auto)]

ghost use Rattle.std.specs.Prelude.{◌≡◌, ◌<◌, ◌≤◌, IfOk, length};

use bindings::Value;
use expressions::{Machine, State};
use language::{Accepted, Refusal, Remaining};
use records::{PhraseKind, rows};
use std::io;
use std::io::Read;

// A line is shorter.
const LINE: usize = 140001;

// A field says no more bytes.
const FIELD: usize = 70000;

// More room for a certificate changes no answer: none is as long (`longest_accepted` of `theorems`).
const ROOM: usize = 65536;

// What is read at once.
const PIECE: usize = 65536;

// How much of a line is held, and whether the input has ended.
#[derive(Drop)]
struct Taken {
    long: usize,
    ended: bool,
}

fn main(rt: HostRuntime) -> io::Result<()> {
    let mut input = rt.reader();
    let mut line = [0u8; LINE];
    let mut long = 0;
    for _ in 0..u64::MAX {
        let taken = take_in(&rt, &mut input, &mut line, long)?;
        if taken.ended {
            return last(&rt, &line, taken.long);
        }
        long = taken.long;
    }
    Ok(())
}

// Reads on, and answers each line that is then whole; the line that is not is kept.
fn take_in(
    rt: &impl Print,
    input: &mut impl Read,
    line: &mut [u8],
    long: usize,
) -> io::Result<Taken> {
    let mut piece = [0u8; PIECE];
    let n = read_full(input, &mut piece)?;
    Ok(Taken {
        long: lines(rt, line, long, &piece[..n])?,
        ended: n == 0,
    })
}

// Reads until the buffer is full or the input ends; how many bytes that gave.
fn read_full(input: &mut impl Read, buffer: &mut [u8]) -> io::Result<usize>
    ensures { IfOk result (λ n. n ≤ length buffer.new) }
{
    let mut done = 0;
    while done < buffer.len() {
        let n = input.read(&mut buffer[done..])?;
        if n == 0 {
            return Ok(done);
        }
        done += n;
    }
    Ok(done)
}

// The answer to a last line that has no end, where there is one.
fn last(rt: &impl Print, line: &[u8], k: usize) -> io::Result<()> {
    if 0 < k {
        respond(rt, line, k)?;
    }
    Ok(())
}

// Adds characters to the line; the answer is how much of it is then held.
fn lines(rt: &impl Print, line: &mut [u8], long: usize, input: &[u8]) -> io::Result<usize> {
    let mut k = long;
    for c in input {
        k = added(rt, line, k, *c)?;
    }
    Ok(k)
}

// Adds a character; a line's end has the line answered. A line that is too long fills the buffer.
fn added(rt: &impl Print, line: &mut [u8], k: usize, c: u8) -> io::Result<usize> {
    if c == b'\n' {
        respond(rt, line, k)?;
        return Ok(0);
    }
    if k < line.len() {
        line[k] = c;
        return Ok(k + 1);
    }
    Ok(k)
}

// The answer to the first k characters of a line.
fn respond(rt: &impl Print, line: &[u8], k: usize) -> io::Result<()> {
    if k < line.len() {
        if is_answered(rt, &line[..k])? {
            return Ok(());
        }
    }
    rt.write_all(b"?\n")
}

// Whether a line is a request; if so its answer is written.
fn is_answered(rt: &impl Print, line: &[u8]) -> io::Result<bool> {
    if line.len() < 3 {
        return Ok(false);
    }
    if line[1] != b' ' {
        return Ok(false);
    }
    if line[0] == b'S' {
        return is_sheet(rt, line, false);
    }
    if line[0] == b'V' {
        return is_sheet(rt, line, true);
    }
    if line[0] == b'C' {
        return is_check(rt, line);
    }
    if line[0] == b'E' {
        return is_evaluation(rt, line, 2, evaluator::TOKENS);
    }
    if line[0] == b'T' {
        return is_lent(rt, line);
    }
    Ok(false)
}

// V SHEET where values are asked for, else S SHEET.
fn is_sheet(rt: &impl Print, line: &[u8], values: bool) -> io::Result<bool> {
    let mut bytes = [0u8; FIELD];
    let to = requests::field_end(line, 2);
    if to < line.len() {
        return Ok(false);
    }
    match requests::read_hex(&mut bytes, line, 2, to) {
        Some(n) => {
            answer_either(rt, &bytes[..n], values)?;
            Ok(true)
        }
        None => Ok(false),
    }
}

// The answer to V SHEET where values are asked for, else to S SHEET.
fn answer_either(rt: &impl Print, sheet: &[u8], values: bool) -> io::Result<()> {
    if values {
        return answer_values(rt, sheet);
    }
    answer_sheet(rt, sheet)
}

// The answer to S SHEET.
fn answer_sheet(rt: &impl Print, sheet: &[u8]) -> io::Result<()> {
    let mut names = [0u32; reader::NAMES];
    let mut forms = [0u32; reader::FORMS];
    let mut patterns = [0u32; reader::PATTERNS];
    let mut phrases = [0u32; reader::PHRASES];
    let mut base = [0u32; reader::BASE];
    match reader::read_sheet(
        &mut names,
        &mut forms,
        &mut patterns,
        &mut phrases,
        &mut base,
        sheet,
    ) {
        Ok(c) => {
            println!(rt;
                "S 0 {} {} {} {} {}",
                c.props, c.patterns, c.phrases, c.base, c.root
            )
        }
        Err(r) => refused(rt, "S", r),
    }
}

// The answer to V SHEET: the sheet is read anew for each phrase.
fn answer_values(rt: &impl Print, sheet: &[u8]) -> io::Result<()> {
    let mut names = [0u32; reader::NAMES];
    let mut forms = [0u32; evaluator::FORMS];
    let mut patterns = [0u32; reader::PATTERNS];
    let mut phrases = [0u32; reader::PHRASES];
    let mut base = [0u32; reader::BASE];
    let mut binds = [0u32; evaluator::BINDINGS];
    for k in 0..reader::parts::MOST_PHRASES {
        answer_phrase(
            rt,
            &mut names,
            &mut forms,
            &mut patterns,
            &mut phrases,
            &mut base,
            &mut binds,
            sheet,
            k,
        )?;
    }
    Ok(())
}

// The line for phrase k, where the sheet reads and the phrase is an expression.
fn answer_phrase(
    rt: &impl Print,
    names: &mut [u32],
    forms: &mut [u32],
    patterns: &mut [u32],
    phrases: &mut [u32],
    base: &mut [u32],
    binds: &mut [u32],
    sheet: &[u8],
    k: usize,
) -> io::Result<()>
    requires { (length names.old ≡ 512) × (length forms.old ≡ 4610) × (length patterns.old ≡ 640) × (length phrases.old ≡ 6144) × (length base.old ≡ 64) × (length binds.old ≡ 16384) × (k < 512) }
{
    let Ok(c) = reader::read_sheet(names, forms, patterns, phrases, base, sheet) else {
        return Ok(());
    };
    if c.phrases <= k || PhraseKind::MethodCall as usize <= words::at(phrases, rows::PHRASE * k) {
        return Ok(());
    }
    let state = State {
        props: c.words,
        bindings: 0,
        remaining: Remaining(evaluator::BUDGET),
    };
    let mut machine = Machine {
        forms,
        binds,
        state,
        phrases,
        patterns,
    };
    print!(rt; "V {k}")?;
    match machine.evaluate(0, k, evaluator::NESTING) {
        Ok(v) => {
            let (kind, number) = value(v);
            println!(rt; " 0 {kind} {number} {}", machine.state.remaining.0)
        }
        Err(r) => refused(rt, "", r),
    }
}

// A value's kind and number.
fn value(v: Value) -> (usize, usize) {
    match v {
        Value::Prop(p) => (0, p),
        Value::Constructor(c) => (1, c),
        Value::Rule(r) => (2, r),
        Value::Function(f) => (3, f.phrase),
        Value::Method(m) => (4, m.phrase),
    }
}

// C SHEET CERTIFICATE.
fn is_check(rt: &impl Print, line: &[u8]) -> io::Result<bool> {
    let mut sheet = [0u8; FIELD];
    let to = requests::field_end(line, 2);
    if to < line.len() {
        return match requests::read_hex(&mut sheet, line, 2, to) {
            Some(n) => is_certificate(rt, &sheet[..n], line, to + 1),
            None => Ok(false),
        };
    }
    Ok(false)
}

// The certificate of such a line, from a place on.
fn is_certificate(rt: &impl Print, sheet: &[u8], line: &[u8], from: usize) -> io::Result<bool> {
    let mut certificate = [0u8; FIELD];
    let to = requests::field_end(line, from);
    if to < line.len() {
        return Ok(false);
    }
    match requests::read_hex(&mut certificate, line, from, to) {
        Some(n) => {
            answer_check(rt, sheet, &certificate[..n])?;
            Ok(true)
        }
        None => Ok(false),
    }
}

// The answer to C SHEET CERTIFICATE.
fn answer_check(rt: &impl Print, sheet: &[u8], certificate: &[u8]) -> io::Result<()> {
    let mut names = [0u32; checker::NAMES];
    let mut forms = [0u32; checker::FORMS];
    let mut patterns = [0u32; checker::PATTERNS];
    let mut phrases = [0u32; checker::PHRASES];
    let mut base = [0u32; checker::BASE];
    match checker::check(
        sheet,
        certificate,
        &mut names,
        &mut forms,
        &mut patterns,
        &mut phrases,
        &mut base,
    ) {
        Ok(c) => println!(rt; "C 0 {} {}", c.conclusion, c.inferences.0),
        Err(r) => refused(rt, "C", r),
    }
}

// T TOKENS BUDGET ROOM SHEET.
fn is_lent(rt: &impl Print, line: &[u8]) -> io::Result<bool> {
    let to = requests::field_end(line, 2);
    if to < line.len() {
        return match requests::read_decimal(line, 2, to) {
            Some(lent) => is_evaluation(rt, line, to + 1, lent),
            None => Ok(false),
        };
    }
    Ok(false)
}

// BUDGET ROOM SHEET, from a place on, with a buffer of so many tokens.
fn is_evaluation(rt: &impl Print, line: &[u8], from: usize, lent: usize) -> io::Result<bool> {
    let to = requests::field_end(line, from);
    if to < line.len() {
        return match requests::read_decimal(line, from, to) {
            Some(budget) => is_room(rt, line, to + 1, lent, budget),
            None => Ok(false),
        };
    }
    Ok(false)
}

// ROOM SHEET of such a line, from a place on.
fn is_room(
    rt: &impl Print,
    line: &[u8],
    from: usize,
    lent: usize,
    budget: usize,
) -> io::Result<bool> {
    let to = requests::field_end(line, from);
    if to < line.len() {
        return match requests::read_decimal(line, from, to) {
            Some(room) => is_evaluated(rt, line, to + 1, lent, budget, room),
            None => Ok(false),
        };
    }
    Ok(false)
}

// SHEET of such a line, from a place on.
fn is_evaluated(
    rt: &impl Print,
    line: &[u8],
    from: usize,
    lent: usize,
    budget: usize,
    room: usize,
) -> io::Result<bool> {
    let mut sheet = [0u8; FIELD];
    let to = requests::field_end(line, from);
    if to < line.len() {
        return Ok(false);
    }
    match requests::read_hex(&mut sheet, line, from, to) {
        Some(n) => {
            answer_evaluation(rt, &sheet[..n], lent, budget, room)?;
            Ok(true)
        }
        None => Ok(false),
    }
}

// The answer to such a line.
fn answer_evaluation(
    rt: &impl Print,
    sheet: &[u8],
    lent: usize,
    budget: usize,
    room: usize,
) -> io::Result<()> {
    let mut out = [0u8; ROOM];
    if room < ROOM {
        return lend_tokens(rt, &mut out[..room], sheet, lent, budget);
    }
    lend_tokens(rt, &mut out, sheet, lent, budget)
}

// The same, with an output of at most 65,536 bytes. The door asks for 11,264 tokens, so that more of them change nothing.
fn lend_tokens(
    rt: &impl Print,
    out: &mut [u8],
    sheet: &[u8],
    lent: usize,
    budget: usize,
) -> io::Result<()>
    requires { length out.old ≤ 65536 }
{
    let mut tokens = [0u32; evaluator::TOKENS];
    if lent < evaluator::TOKENS {
        return evaluate_into(rt, &mut tokens[..lent], out, sheet, budget);
    }
    evaluate_into(rt, &mut tokens, out, sheet, budget)
}

// The same, with the tokens' buffer.
fn evaluate_into(
    rt: &impl Print,
    tokens: &mut [u32],
    out: &mut [u8],
    sheet: &[u8],
    budget: usize,
) -> io::Result<()>
    requires { length out.old ≤ 65536 }
{
    let mut listing = [0u32; evaluator::LISTING];
    let mut forms = [0u32; evaluator::FORMS];
    let mut patterns = [0u32; evaluator::PATTERNS];
    let mut phrases = [0u32; evaluator::PHRASES];
    let mut base = [0u32; evaluator::BASE];
    let mut binds = [0u32; evaluator::BINDINGS];
    match evaluator::evaluate(
        sheet,
        budget,
        &mut listing,
        &mut forms,
        &mut patterns,
        &mut phrases,
        &mut base,
        &mut binds,
        tokens,
        out,
    ) {
        Ok(a) => accepted(rt, out, a),
        Err(r) => refused(rt, "E", r),
    }
}

// The line for a certificate, which stands at the front of the output.
fn accepted(rt: &impl Print, out: &[u8], a: Accepted) -> io::Result<()>
    requires { (a.length ≤ length out.now) × (length out.now ≤ 65536) }
{
    let mut text = [0u8; 2 * ROOM];
    let n = a.length;
    requests::write_hex(&mut text, &out[..n]);
    print!(rt; "E 0 {n} {} {} ", a.work.0, a.inferences.0)?;
    rt.write_all(&text[..2 * n])?;
    rt.write_all(b"\n")
}

// The line's end for a refusal: its number and place.
fn refused(rt: &impl Print, what: &str, r: Refusal) -> io::Result<()> {
    let Refusal(why, place) = r;
    println!(rt; "{what} {} {place}", why.number())
}
