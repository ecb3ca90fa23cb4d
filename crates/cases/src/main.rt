// The cases on document 01's bench, and each slip that looks harmless, run through the doors. Each sheet is evaluated with a budget and room
// for so many bytes; a certificate is printed in decimal and then checked alone against the sheet. A write that fails ends the program with its error.
#![tactic(auto)]

ghost use Rattle.std.specs.Prelude.{◌≤◌, length};

use language::{Accepted, Refusal};
use std::io;

fn main(rt: HostRuntime) -> io::Result<()> {
    certified(&rt)?;
    refusals(&rt)?;
    nested(&rt)?;
    damaged(&rt)?;
    lemmas(&rt)?;
    slips(&rt)
}

// C1 to C4: a certificate, the budget spent, no room, a method.
fn certified(rt: &impl Print) -> io::Result<()> {
    // Base {A∧B}: the block left-and; right-and; both B A.
    case(
        rt,
        b"C1",
        b"\x03\x00\x00\x00\x01\x04\x00\x01\x00\x0a\x03\x05\x03\x06\x03\x04\x00\x02\x00\x01\x00\x00\x10\x00\x01\x03\x10\x01\x01\x03\x10\x02\x02\x04\x05\x15\x03\x06\x07\x08\x01\x02\x09",
        1024,
        24,
    )?;
    // The same with a budget of 10.
    case(
        rt,
        b"C2",
        b"\x03\x00\x00\x00\x01\x04\x00\x01\x00\x0a\x03\x05\x03\x06\x03\x04\x00\x02\x00\x01\x00\x00\x10\x00\x01\x03\x10\x01\x01\x03\x10\x02\x02\x04\x05\x15\x03\x06\x07\x08\x01\x02\x09",
        10,
        24,
    )?;
    // The same with 23 bytes of output.
    case(
        rt,
        b"C3",
        b"\x03\x00\x00\x00\x01\x04\x00\x01\x00\x0a\x03\x05\x03\x06\x03\x04\x00\x02\x00\x01\x00\x00\x10\x00\x01\x03\x10\x01\x01\x03\x10\x02\x02\x04\x05\x15\x03\x06\x07\x08\x01\x02\x09",
        1024,
        23,
    )?;
    // A method of P that assumes P and supposes ¬P absurd by P and ¬P, called on A∨B; empty base.
    case(
        rt,
        b"C4",
        b"\x03\x00\x00\x00\x01\x05\x00\x01\x00\x0a\x01\x00\x02\x00\x06\x01\x01\x00\x03\x0e\x10\x03\x02\x00\x02\x12\x02\x04\x11\x00\x05\x05\x01\x06\x00\x02\x10\x07\x01\x08\x00\x09",
        1024,
        256,
    )
}

// C5 to C9: each refused for its own reason.
fn refusals(rt: &impl Print) -> io::Result<()> {
    // Claim A, empty base.
    case(
        rt,
        b"C5",
        b"\x01\x00\x00\x00\x03\x03\x00\x00\x00\x10\x00\x01\x01\x00\x02",
        1024,
        256,
    )?;
    // Claim A∨A, base {A}.
    case(
        rt,
        b"C6",
        b"\x02\x00\x00\x05\x00\x00\x00\x03\x03\x00\x00\x01\x10\x00\x01\x01\x01\x00\x02",
        1024,
        256,
    )?;
    // Left-and of A∨B, base {A∨B}.
    case(
        rt,
        b"C7",
        b"\x03\x00\x00\x00\x01\x05\x00\x01\x00\x03\x03\x05\x00\x02\x10\x00\x01\x01\x01\x02\x02",
        1024,
        256,
    )?;
    // B by left-and of A∧B, base {A∧B}.
    case(
        rt,
        b"C8",
        b"\x03\x00\x00\x00\x01\x04\x00\x01\x00\x05\x03\x05\x00\x02\x10\x00\x01\x01\x00\x01\x14\x03\x02\x01\x02\x04",
        1024,
        256,
    )?;
    // The block of (assume A in claim A) and claim A, empty base.
    case(
        rt,
        b"C9",
        b"\x01\x00\x00\x00\x05\x03\x00\x00\x00\x10\x00\x01\x01\x11\x01\x02\x15\x02\x03\x02\x00\x04",
        1024,
        256,
    )
}

// C10 and C11: a deduction as an argument, and one that never ends.
fn nested(rt: &impl Print) -> io::Result<()> {
    // Left-and of the deduction right-and, base {A∧(B∧C)}.
    case(
        rt,
        b"C10",
        b"\x0a\x00\x00\x00\x01\x00\x02\x04\x01\x02\x04\x00\x03\x00\x00\x00\x01\x00\x02\x04\x06\x07\x04\x05\x08\x00\x05\x03\x06\x00\x04\x10\x00\x01\x01\x03\x05\x10\x03\x01\x02\x01\x09\x04",
        1024,
        256,
    )?;
    // A fix of a method without parameters that calls itself, called.
    case(
        rt,
        b"C11 127",
        b"\x00\x00\x05\x01\x00\x10\x00\x00\x05\x00\x01\x08\x02\x10\x03\x00\x00\x04",
        127,
        256,
    )?;
    // The same with a budget of 128.
    case(
        rt,
        b"C11 128",
        b"\x00\x00\x05\x01\x00\x10\x00\x00\x05\x00\x01\x08\x02\x10\x03\x00\x00\x04",
        128,
        256,
    )?;
    // The same with the largest budget.
    case(
        rt,
        b"C11 1024",
        b"\x00\x00\x05\x01\x00\x10\x00\x00\x05\x00\x01\x08\x02\x10\x03\x00\x00\x04",
        1024,
        256,
    )
}

// Sheets that do not read.
fn damaged(rt: &impl Print) -> io::Result<()> {
    // No byte.
    case(rt, b"empty", b"", 1024, 256)?;
    // A number that is not in its shortest form.
    case(rt, b"128 0", b"\x80\x00", 1024, 256)?;
    // A number that ends inside.
    case(rt, b"128", b"\x80", 1024, 256)
}

// Slips about lemmas, each beside a twin that is accepted.
fn lemmas(rt: &impl Print) -> io::Result<()> {
    // Both of (left-and of A∧B) and (claim A), base {A∧B}: no argument sees another's lemma.
    case(
        rt,
        b"next argument",
        b"\x03\x00\x00\x00\x01\x04\x00\x01\x00\x08\x03\x05\x00\x02\x10\x00\x01\x01\x03\x00\x00\x00\x10\x03\x01\x04\x03\x04\x10\x06\x02\x02\x05\x01\x02\x07",
        1024,
        256,
    )?;
    // Both of (left-and of A∧B) and (right-and of A∧B), base {A∧B}.
    case(
        rt,
        b"each argument",
        b"\x03\x00\x00\x00\x01\x04\x00\x01\x00\x07\x03\x05\x00\x02\x10\x00\x01\x01\x03\x06\x10\x03\x01\x01\x03\x04\x10\x05\x02\x02\x04\x01\x02\x06",
        1024,
        256,
    )?;
    // Claim A after a block whose first step derived A: the block's lemmas end with it.
    case(
        rt,
        b"block's lemma",
        b"\x03\x00\x00\x00\x01\x04\x00\x01\x00\x0a\x03\x05\x00\x02\x10\x00\x01\x01\x03\x06\x10\x03\x01\x01\x15\x02\x02\x04\x03\x00\x00\x00\x10\x06\x01\x07\x15\x02\x05\x08\x01\x02\x09",
        1024,
        256,
    )?;
    // Claim B after a block that concluded B.
    case(
        rt,
        b"block's conclusion",
        b"\x03\x00\x00\x00\x01\x04\x00\x01\x00\x0a\x03\x05\x00\x02\x10\x00\x01\x01\x03\x06\x10\x03\x01\x01\x15\x02\x02\x04\x03\x00\x00\x01\x10\x06\x01\x07\x15\x02\x05\x08\x01\x02\x09",
        1024,
        256,
    )
}

// Slips about bases, shapes and what was announced.
fn slips(rt: &impl Print) -> io::Result<()> {
    // A method that claims A, written where A is not assumed and called where it is.
    case(
        rt,
        b"base of the call",
        b"\x01\x00\x00\x00\x08\x03\x00\x00\x00\x10\x00\x01\x01\x05\x00\x02\x01\x00\x10\x04\x00\x11\x01\x05\x13\x03\x06\x00\x07",
        1024,
        256,
    )?;
    // Left-and of A∧B, where the base's A∧B and the argument's are two records of one shape.
    case(
        rt,
        b"equal shapes",
        b"\x06\x00\x00\x00\x01\x04\x00\x01\x00\x00\x00\x01\x04\x03\x04\x00\x03\x03\x05\x00\x05\x10\x00\x01\x01\x01\x02\x02",
        1024,
        256,
    )?;
    // A by (claim A), empty base: nothing is derived, so nothing can equal A.
    case(
        rt,
        b"missing conclusion",
        b"\x01\x00\x00\x00\x04\x03\x00\x00\x00\x10\x00\x01\x01\x14\x01\x02\x00\x03",
        1024,
        256,
    )?;
    // The same, base {A}.
    case(
        rt,
        b"conclusion there",
        b"\x01\x00\x00\x00\x04\x03\x00\x00\x00\x10\x00\x01\x01\x14\x01\x02\x01\x00\x03",
        1024,
        256,
    )
}

// A case with room for so many bytes, at most 256.
fn case(rt: &impl Print, name: &[u8], sheet: &[u8], budget: usize, room: usize) -> io::Result<()> {
    let mut out = [0u8; 256];
    rt.write_all(name)?;
    rt.write_all(b":")?;
    if room < 256 {
        return evaluated(rt, &mut out[..room], sheet, budget);
    }
    evaluated(rt, &mut out, sheet, budget)
}

// The answer of the evaluation, and the check of its certificate.
fn evaluated(rt: &impl Print, out: &mut [u8], sheet: &[u8], budget: usize) -> io::Result<()> {
    let mut listing = [0u32; evaluator::LISTING];
    let mut forms = [0u32; evaluator::FORMS];
    let mut patterns = [0u32; evaluator::PATTERNS];
    let mut phrases = [0u32; evaluator::PHRASES];
    let mut base = [0u32; evaluator::BASE];
    let mut binds = [0u32; evaluator::BINDINGS];
    let mut tokens = [0u32; evaluator::TOKENS];
    match evaluator::evaluate(
        sheet,
        budget,
        &mut listing,
        &mut forms,
        &mut patterns,
        &mut phrases,
        &mut base,
        &mut binds,
        &mut tokens,
        out,
    ) {
        Ok(a) => accepted(rt, sheet, out, a),
        Err(r) => refused(rt, " refused,", r),
    }
}

// A certificate, which stands at the front of the output, and its check.
fn accepted(rt: &impl Print, sheet: &[u8], out: &[u8], a: Accepted) -> io::Result<()>
    requires { a.length ≤ length out.now }
{
    let n = a.length;
    print!(rt;
        " accepted, length {n}, work {}, inferences {}",
        a.work.0, a.inferences.0
    )?;
    certificate(rt, &out[..n])?;
    checked(rt, sheet, &out[..n])
}

// The certificate's bytes in decimal, on a line of their own.
fn certificate(rt: &impl Print, bytes: &[u8]) -> io::Result<()> {
    print!(rt; "\n ")?;
    for b in bytes {
        print!(rt; " {b}")?;
    }
    Ok(())
}

// The check of a certificate alone against the sheet.
fn checked(rt: &impl Print, sheet: &[u8], certificate: &[u8]) -> io::Result<()> {
    let mut names = [0u32; checker::NAMES];
    let mut forms = [0u32; checker::FORMS];
    let mut patterns = [0u32; checker::PATTERNS];
    let mut phrases = [0u32; checker::PHRASES];
    let mut base = [0u32; checker::BASE];
    match checker::check(
        sheet,
        certificate,
        &mut names,
        &mut forms,
        &mut patterns,
        &mut phrases,
        &mut base,
    ) {
        Ok(c) => {
            println!(rt;
                "\n  stands, conclusion {}, inferences {}",
                c.conclusion, c.inferences.0
            )
        }
        Err(r) => refused(rt, "\n  falls,", r),
    }
}

// A refusal's number and place.
fn refused(rt: &impl Print, what: &str, r: Refusal) -> io::Result<()> {
    let Refusal(why, place) = r;
    println!(rt; "{what} number {} at {place}", why.number())
}
