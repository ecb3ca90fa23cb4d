// Writing on a page, a lent buffer of which a front is written: each function adds its text and answers how much is then written.
// Writing past the page's end changes nothing.
ghost use Rattle.std.specs.Prelude.{◌≡◌, ℕ, ◌+◌, ◌≤◌, ◌<◌, length, map, take, drop};
ghost use Rattle.wording.specs.Page.{page, stroke, write};
ghost use Rattle.wording.specs.Text.{digits, decimal, listed as text_listed, after, up_to, piece as text_piece};

// A character.
#[tactic(auto, unfolding(crate::specs::Page::stroke))]
pub fn put(out: &mut [u8], at: usize, c: u8) -> usize
    ensures { page out.new result ≡ stroke c (page out.old at) }
{
    if at < out.len() {
        out[at] = c;
        return at + 1;
    }
    at
}

// Bytes as they are.
#[tactic(auto, using(crate::proofs::Walking::copying))]
pub fn copy(out: &mut [u8], at: usize, s: &[u8]) -> usize
    ensures { page out.new result ≡ write s.now (page out.old at) }
{
    let mut k = at;
    for c in s {
        k = put(out, k, *c);
    }
    k
}

// A number in decimal.
#[tactic(auto, unfolding(crate::specs::Text::decimal))]
pub fn number(out: &mut [u8], at: usize, n: usize) -> usize
    ensures { page out.new result ≡ write (decimal n) (page out.old at) }
{
    last_digits(out, at, n, 20)
}

// The last k digits of a number, with no zeros before its first digit.
fn last_digits(out: &mut [u8], at: usize, n: usize, k: usize) -> usize
    ensures { page out.new result ≡ write (digits k n) (page out.old at) }
{
    if k == 0 {
        return at;
    }
    if n < 10 {
        return put(out, at, digit(n));
    }
    let next = last_digits(out, at, n / 10, k - 1);
    put(out, next, digit(n % 10))
}

// The character of a digit.
fn digit(d: usize) -> u8
    requires { d < 10 }
    ensures { result ≡ d + 48 }
{
    d as u8 + b'0'
}

// Numbers in decimal, each after a blank: n of a list, or fewer where it ends, from a place on.
pub fn list(out: &mut [u8], at: usize, numbers: &[usize], from: usize, n: usize) -> usize
    ensures { page out.new result ≡ write (text_listed (take n (drop from numbers.now))) (page out.old at) }
{
    listed(out, at, part(numbers, from, n))
}

// Bytes in decimal, each after a blank: n of them, or fewer where they end, from a place on.
pub fn bytes(out: &mut [u8], at: usize, s: &[u8], from: usize, n: usize) -> usize
    ensures { page out.new result ≡ write (text_listed (take n (drop from s.now))) (page out.old at) }
{
    listed(out, at, part(s, from, n))
}

// What is written in decimal: a byte or a number.
trait Numeric: Copy {
    ghost number: { Self → ℕ };

    // Its number.
    fn wide(self) -> usize
        ensures { result ≡ number self };
}

impl Numeric for u8 {
    ghost number = { λ c. c };

    fn wide(self) -> usize {
        usize::from(self)
    }
}

impl Numeric for usize {
    ghost number = { λ n. n };

    fn wide(self) -> usize {
        self
    }
}

// So many items of a list, or fewer where it ends, from a place on.
fn part<T>(items: &[T], from: usize, n: usize) -> &[T]
    ensures { result.now ≡ take n (drop from items.now) }
{
    let rest = items.get(from..).unwrap_or_default();
    &rest[..n.min(rest.len())]
}

// Numbers in decimal, each after a blank.
fn listed<T: Numeric>(out: &mut [u8], at: usize, items: &[T]) -> usize
    ensures { page out.new result ≡ write (text_listed (map T.number items.now)) (page out.old at) }
{
    let mut k = at;
    for x in items {
        k = spaced(out, k, x.wide());
    }
    k
}

// A blank and a number.
fn spaced(out: &mut [u8], at: usize, n: usize) -> usize
    ensures { page out.new result ≡ write (decimal n) (stroke 32 (page out.old at)) }
{
    let k = put(out, at, b' ');
    number(out, k, n)
}

// Piece k of a text cut at bars.
pub fn words(out: &mut [u8], at: usize, texts: &[u8], k: usize) -> usize
    ensures { page out.new result ≡ write (text_piece k texts.now) (page out.old at) }
{
    copy(out, at, piece(texts, k))
}

// Piece k of a text cut at bars.
pub(crate) fn piece(texts: &[u8], k: usize) -> &[u8]
    ensures { result.now ≡ text_piece k texts.now }
{
    let rest = &texts[skip(texts, k)..];
    &rest[..bar(rest)]
}

// The place of the first bar; the text's end where there is none.
#[tactic(auto, using(crate::proofs::Walking::cutting))]
fn bar(text: &[u8]) -> usize
    ensures { (take result text.now ≡ up_to text.now) × (result ≤ length text.now) }
{
    for (i, c) in text.iter().enumerate() {
        if *c == b'|' {
            return i;
        }
    }
    text.len()
}

// The place past k bars; the text's end where there are fewer.
#[tactic(auto, using(crate::proofs::Walking::skipping))]
pub fn skip(text: &[u8], k: usize) -> usize
    ensures { (after k text.now ≡ drop result text.now) × (result ≤ length text.now) }
{
    let mut left = k;
    for (i, c) in text.iter().enumerate() {
        if left == 0 {
            return i;
        }
        if *c == b'|' {
            left -= 1;
        }
    }
    text.len()
}

// A character's number.
pub fn wide(c: u8) -> usize
    ensures { (result ≡ c) × (result < 256) }
{
    usize::from(c)
}
