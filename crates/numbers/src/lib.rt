// Numbers in the bytes of a sheet or a certificate: groups of seven bits, low group first, shortest form only, at most 65,535.
// Reading gives the number and the place past it, or the refusal that the definition names, at the number's place.
// A cursor keeps the lent bytes with its place. Its functions are thin, each over one of bytes and a place; `read`, `read_from` and `read_below` make one for a caller that has bytes and a place.
// Writing stores the shortest form straight into the output; proofs/ReadBack.antt shows that reading it there gives the number.
#![tactic(auto)]

ghost use Rattle.std.specs.Prelude.{◌≡◌, ◌+◌, ◌<◌, ◌≤◌, length};
ghost use Rattle.std.proofs.lemmas.List.Edits.{sets};
ghost use Rattle.language.specs.Numbers.{number, second, third, groups, from, below};
ghost use Rattle.numbers.specs.Gotten.{gotten};

use language::{Refusal, Why};

// Lent bytes and a place among them, where a number is to be read.
#[derive(Drop)]
pub struct Cursor<'a> {
    pub src: &'a [u8],
    pub at: usize,
}

// The number at a place.
pub fn read(s: &[u8], at: usize) -> Result<(usize, usize), Refusal>
    ensures { gotten result ≡ number s.now at }
{
    number_at(cursor_at(s, at))
}

// The cursor at a place of the bytes.
pub fn cursor_at<'a>(src: &'a [u8], at: usize) -> Cursor<'a>
    ensures { (result.src ≡ src.entry) × (result.at ≡ at) }
{
    Cursor { src, at }
}

// The cursor's bytes at another place.
pub fn moved<'a>(c: Cursor<'a>, at: usize) -> Cursor<'a>
    ensures { (result.src ≡ c.entry.src) × (result.at ≡ at) }
{
    Cursor { src: c.src, at }
}

// The number at the cursor.
pub fn number_at<'a>(c: Cursor<'a>) -> Result<(usize, usize), Refusal>
    ensures { gotten result ≡ number c.entry.src.now c.entry.at }
{
    first_group(c.src, c.at)
}

// The number at a place, from low to top; any other is out of range.
pub fn read_from(s: &[u8], at: usize, low: usize, top: usize) -> Result<(usize, usize), Refusal>
    ensures { gotten result ≡ from low top s.now at }
{
    number_from(cursor_at(s, at), low, top)
}

// The number at the cursor, from low to top.
pub fn number_from<'a>(c: Cursor<'a>, low: usize, top: usize) -> Result<(usize, usize), Refusal>
    ensures { gotten result ≡ from low top c.entry.src.now c.entry.at }
{
    ranged(c.src, c.at, low, top)
}

// The reference at a place, below n; any other is a wrong reference.
pub fn read_below(s: &[u8], at: usize, n: usize) -> Result<(usize, usize), Refusal>
    ensures { gotten result ≡ below n s.now at }
{
    number_below(cursor_at(s, at), n)
}

// The reference at the cursor, below n.
pub fn number_below<'a>(c: Cursor<'a>, n: usize) -> Result<(usize, usize), Refusal>
    ensures { gotten result ≡ below n c.entry.src.now c.entry.at }
{
    referring(c.src, c.at, n)
}

// How many bytes a number takes.
pub fn length_of(v: usize) -> usize
    ensures { result ≡ length (groups v) }
{
    if v < 128 {
        return 1;
    }
    if v < 16384 { 2 } else { 3 }
}

// A number's bytes at a place, all else as it was; the answer is the place past them.
// There must be room for them, and the number be at most 65,535.
pub fn write(out: &mut [u8], at: usize, v: usize) -> usize
    requires { (at + length (groups v) ≤ length out.old) × (v ≤ 65535) }
    ensures { (result ≡ at + length (groups v)) × (out.new ≡ sets out.old at (groups v)) }
{
    if v < 128 {
        out[at] = v as u8;
        return at + 1;
    }
    if v < 16384 {
        out[at] = (128 + v % 128) as u8;
        out[at + 1] = (v / 128) as u8;
        return at + 2;
    }
    out[at] = (128 + v % 128) as u8;
    out[at + 1] = (128 + v / 128 % 128) as u8;
    out[at + 2] = (v / 16384) as u8;
    at + 3
}

// The number whose first group is at a place.
fn first_group(s: &[u8], at: usize) -> Result<(usize, usize), Refusal>
    ensures { gotten result ≡ number s.now at }
{
    if at < s.len() {
        let b = wide(s[at]);
        if b < 128 {
            return Ok((b, at + 1));
        }
        return second_group(s, at, b - 128);
    }
    Err(Refusal(Why::BytesEnd, at))
}

// The number at a place, held to its range.
fn ranged(s: &[u8], at: usize, low: usize, top: usize) -> Result<(usize, usize), Refusal>
    ensures { gotten result ≡ from low top s.now at }
{
    let (v, next) = first_group(s, at)?;
    if low <= v && v <= top {
        return Ok((v, next));
    }
    Err(Refusal(Why::OutOfRange, at))
}

// The number at a place, held below n.
fn referring(s: &[u8], at: usize, n: usize) -> Result<(usize, usize), Refusal>
    ensures { gotten result ≡ below n s.now at }
{
    let (v, next) = first_group(s, at)?;
    if v < n {
        return Ok((v, next));
    }
    Err(Refusal(Why::WrongReference, at))
}

// What follows a first group at a place that gives low and continues.
fn second_group(s: &[u8], at: usize, low: usize) -> Result<(usize, usize), Refusal>
    requires { (at < length s.now) × (low < 128) }
    ensures { gotten result ≡ second s.now at low }
{
    let i = at + 1;
    if i < s.len() {
        let b = wide(s[i]);
        if b < 128 {
            if 0 < b {
                return Ok((low + 128 * b, at + 2));
            }
            return Err(Refusal(Why::NotShortest, at));
        }
        return third_group(s, at, low + 128 * (b - 128));
    }
    Err(Refusal(Why::BytesEnd, at))
}

// What follows two groups at a place that give low, the second of which continues.
fn third_group(s: &[u8], at: usize, low: usize) -> Result<(usize, usize), Refusal>
    requires { (at + 1 < length s.now) × (low < 16384) }
    ensures { gotten result ≡ third s.now at low }
{
    let i = at + 2;
    if i < s.len() {
        let b = wide(s[i]);
        let v = low + 16384 * b;
        if 0 < b && b < 128 && v <= 65535 {
            return Ok((v, at + 3));
        }
        return Err(Refusal(Why::NotShortest, at));
    }
    Err(Refusal(Why::BytesEnd, at))
}

// A byte's number.
fn wide(b: u8) -> usize
    ensures { (result ≡ b) × (result < 256) }
{
    b as usize
}
