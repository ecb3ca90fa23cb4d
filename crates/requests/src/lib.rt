// Requests as lines of text: fields cut at single blanks, bytes in hexadecimal, a dash for no bytes, numbers in decimal.
// A field that is not of this form says nothing, and so does one that is longer than the buffer it is read into, or a number over 64 bits.
#![tactic(auto)]

ghost use Rattle.std.specs.Prelude.{◌≡◌, ◌+◌, ◌-◌, ◌*◌, ◌^◌, ◌<◌, ◌≤◌, [], eqb, length, get_or, drop};
ghost use Rattle.requests.specs.Decimals.{counted, decimal};
ghost use Rattle.requests.specs.Writing.{digit_of, hex_of};
ghost use Rattle.words.specs.Front.{front};
ghost use Rattle.requests.specs.Fields.{span, nibble, pair_at, field, decoding, told, Reads};

// What cuts a line into fields.
const BLANK: u8 = b' ';

// What says that there are no bytes.
const DASH: u8 = b'-';

// The place of the first blank from a place on; the line's end where there is none.
#[tactic(auto, using(crate::proofs::Spans::spans))]
pub fn field_end(line: &[u8], from: usize) -> usize
    ensures { result ≡ from + span (drop from line.now) }
{
    for i in from..line.len() {
        if line[i] == BLANK {
            return i;
        }
    }
    from.max(line.len())
}

// How many bytes the field from a place to another says; they are then at the front of out.
#[tactic(auto, unfolding(crate::specs::Fields::field))]
pub fn read_hex(out: &mut [u8], line: &[u8], from: usize, to: usize) -> Option<usize>
    ensures { Reads (field line.now (length out.old) from to) result out.old out.new }
{
    match to.saturating_sub(from) {
        0 => None,
        1 => dash(line, from),
        long if long % 2 == 0 => pairs(out, line, from, long / 2),
        _ => None,
    }
}

// The number of the field from a place to another, in decimal digits.
pub fn read_decimal(line: &[u8], from: usize, to: usize) -> Option<usize>
    ensures { result ≡ decimal line.now from to }
{
    if from < to {
        digits(line, from, to)
    } else {
        None
    }
}

// The digits from a place to another, the highest first.
#[tactic(auto, using(crate::proofs::Counting::counting))]
fn digits(line: &[u8], from: usize, to: usize) -> Option<usize>
    requires { from < to }
    ensures { result ≡ counted line.now (to - from) from 0 }
{
    let mut v = 0usize;
    for i in from..to {
        let c = *line.get(i)?;
        let d = digit(c)?;
        if b'9' < c {
            return None;
        }
        if usize::MAX / 10 < v {
            return None;
        }
        v = (10 * v).checked_add(usize::from(d))?;
    }
    Some(v)
}

// The bytes s in hexadecimal, two digits each, at the front of out, which must have room for them.
#[tactic(auto, using(crate::proofs::Hexed::hex_put))]
pub fn write_hex(out: &mut [u8], s: &[u8])
    requires { 2 * length s.now ≤ length out.old }
    ensures { out.new ≡ front (hex_of s.now) out.old }
{
    for (i, b) in s.iter().enumerate() {
        out[2 * i] = written(b / 16);
        out[2 * i + 1] = written(b % 16);
    }
}

// The character of a hexadecimal digit's value.
fn written(v: u8) -> u8
    requires { v < 16 }
    ensures { result ≡ digit_of v }
{
    if v < 10 { v + b'0' } else { v - 10 + b'a' }
}

// A dash, which says no bytes.
fn dash(line: &[u8], at: usize) -> Option<usize>
    ensures { result ≡ told 0 (eqb (get_or line.now at 0) 45) }
{
    if *line.get(at)? == DASH {
        Some(0)
    } else {
        None
    }
}

// So many pairs of digits from a place on, as bytes.
fn pairs(out: &mut [u8], line: &[u8], from: usize, n: usize) -> Option<usize>
    requires { from + 2 * n < 2 ^ 64 }
    ensures { Reads (decoding line.now (length out.old) n from []) result out.old out.new }
{
    for i in 0..n {
        let b = pair(line, from + 2 * i)?;
        if out.len() <= i {
            return None;
        }
        out[i] = b;
    }
    Some(n)
}

// The byte of the two digits at a place.
fn pair(line: &[u8], at: usize) -> Option<u8>
    requires { at + 1 < 2 ^ 64 }
    ensures { result ≡ pair_at line.now at }
{
    let high = digit(*line.get(at)?)?;
    let low = digit(*line.get(at + 1)?)?;
    Some(16 * high + low)
}

// A hexadecimal digit's value, 0 to 9 and a to f.
fn digit(c: u8) -> Option<u8>
    ensures { result ≡ nibble c }
{
    match c {
        b'0'..=b'9' => Some(c - b'0'),
        b'a'..=b'f' => Some(c - b'a' + 10),
        _ => None,
    }
}
