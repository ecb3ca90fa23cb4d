// Templates: a text in which a digit from 1 to 9 stands for facts, numbers that are given with it; any other character stands for itself.
ghost use Rattle.std.specs.Prelude.{◌≡◌, ◌≤◌, get_or};
ghost use Rattle.wording.specs.Page.{page as page_page, write};
ghost use Rattle.wording.specs.Text.{piece};
ghost use Rattle.wording.specs.Templates.{paired as templates_paired, named as templates_named, told as templates_told, part as templates_part, filled};

use crate::{page, tables};

// Piece k of a text cut at bars, filled.
#[tactic(auto, using(crate::proofs::Walking::filling))]
pub fn fill(out: &mut [u8], at: usize, texts: &[u8], k: usize, facts: &[usize]) -> usize
    ensures { page_page out.new result ≡ write (filled facts.now (piece k texts.now)) (page_page out.old at) }
{
    let mut n = at;
    for c in page::piece(texts, k) {
        n = part(out, n, *c, facts);
    }
    n
}

// What a character stands for.
#[tactic(auto, unfolding(crate::specs::Page::write))]
fn part(out: &mut [u8], at: usize, c: u8, facts: &[usize]) -> usize
    ensures { page_page out.new result ≡ write (templates_part facts.now c) (page_page out.old at) }
{
    match c {
        b'1'..=b'9' => told(out, at, c, facts),
        _ => page::put(out, at, c),
    }
}

// What a digit's character stands for: 1, 2 and 3 that fact; 4 and 5 a list of facts, 6 clauses; 7, 8 and 9 a name.
fn told(out: &mut [u8], at: usize, c: u8, facts: &[usize]) -> usize
    requires { 49 ≤ c }
    ensures { page_page out.new result ≡ write (templates_told facts.now c) (page_page out.old at) }
{
    match c {
        ..=b'3' => page::number(out, at, fact(facts, usize::from(c - b'0'))),
        b'4' => page::list(out, at, facts, 3, fact(facts, 2)),
        b'5' => page::list(out, at, facts, 2, fact(facts, 1)),
        b'6' => page::list(out, at, facts, 3, paired(fact(facts, 2))),
        _ => named(out, at, c, fact(facts, 1)),
    }
}

// The words for a number: 7 those of a constructor, 8 of a rule, 9 of a refusal.
fn named(out: &mut [u8], at: usize, c: u8, k: usize) -> usize
    ensures { page_page out.new result ≡ write (templates_named c k) (page_page out.old at) }
{
    match c {
        b'7' => page::words(out, at, &tables::CONSTRUCTORS, k),
        b'8' => page::words(out, at, &tables::RULES, k),
        _ => page::words(out, at, &tables::REFUSALS, k),
    }
}

// How many numbers so many clauses have; there are at most four.
fn paired(n: usize) -> usize
    ensures { result ≡ templates_paired n }
{
    if n <= 4 { 2 * n } else { 8 }
}

// A fact; 0 where there is none.
fn fact(facts: &[usize], k: usize) -> usize
    ensures { result ≡ get_or facts.now k 0 }
{
    facts.get(k).copied().unwrap_or(0)
}
