// The parts of a sheet: a count, and that many records, each read and laid behind those before it.
ghost use Rattle.std.specs.Prelude.{◌≡◌, [], ◌<◌, ◌≤◌, length, take};
ghost use Rattle.numbers.specs.Gotten.{gotten};
ghost use Rattle.records.specs.Reading.{keeping, name_ref, pattern_row, phrase_row, root_at};
ghost use Rattle.reader.specs.Parts.{part_one, part_two, part_three, part_four};
ghost use Rattle.records.specs.Answers.{rows_in};
ghost use Rattle.reader.specs.Laid.{Propositions, Listing, Gathered};

use super::Named;
use language::{Refusal, Why};
use records::{names, patterns};

// How many propositions a sheet has at most.
pub const MOST_PROPOSITIONS: usize = 512;

// How many patterns.
pub const MOST_PATTERNS: usize = 128;

// How many phrases.
pub const MOST_PHRASES: usize = 512;

// How many numbers its base has at most.
pub const MOST_MEMBERS: usize = 64;

// How many records were read, and where that ended.
#[derive(Drop)]
pub struct Listed {
    pub count: usize,
    pub ended: Result<usize, Refusal>,
}

// Part 1: at most 512 propositions, in a table that starts with true and false.
pub fn propositions(names: &mut [u32], forms: &mut [u32], s: &[u8]) -> Named
    requires { (512 ≤ length names.old) × (514 ≤ length forms.old) × (length forms.old ≤ 16384) }
    ensures { Propositions (part_one s.now) result names.old forms.old names.new forms.new }
{
    let words = forms::start(forms);
    match numbers::read_from(s, 0, 0, MOST_PROPOSITIONS) {
        Ok((count, next)) => super::read_propositions(names, forms, s, count, words, next),
        Err(refusal) => Named {
            props: 0,
            words,
            ended: Err(refusal),
        },
    }
}

// Part 2: at most 128 patterns.
pub fn patterns(patterns: &mut [u32], names: &[u32], s: &[u8], at: usize) -> Listed
    requires { 640 ≤ length patterns.old }
    ensures { Listing 5 128 (part_two s.now names.now at) result patterns.old patterns.new }
{
    match numbers::read_from(s, at, 0, MOST_PATTERNS) {
        Ok((count, next)) => pattern_rows(patterns, names, s, count, next),
        Err(refusal) => Listed {
            count: 0,
            ended: Err(refusal),
        },
    }
}

// Part 3: at least one phrase, at most 512.
pub fn phrases(phrases: &mut [u32], names: &[u32], s: &[u8], patterns: usize, at: usize) -> Listed
    requires { (patterns ≤ 128) × (6144 ≤ length phrases.old) }
    ensures { Listing 12 512 (part_three s.now names.now patterns at) result phrases.old phrases.new }
{
    match numbers::read_from(s, at, 1, MOST_PHRASES) {
        Ok((count, next)) => phrase_rows(phrases, names, s, patterns, count, next),
        Err(refusal) => Listed {
            count: 0,
            ended: Err(refusal),
        },
    }
}

// Part 4: at most 64 propositions of the base.
pub fn base(base: &mut [u32], names: &[u32], s: &[u8], at: usize) -> Listed
    requires { 64 ≤ length base.old }
    ensures { Gathered (part_four s.now names.now at) result base.old base.new }
{
    match numbers::read_from(s, at, 0, MOST_MEMBERS) {
        Ok((count, next)) => members(base, names, s, count, next),
        Err(refusal) => Listed {
            count: 0,
            ended: Err(refusal),
        },
    }
}

// Part 5: the root, a deduction, at which the bytes end.
pub fn root(phrases: &[u32], s: &[u8], n: usize, at: usize) -> Result<(usize, usize), Refusal>
    requires { n ≤ 512 }
    ensures { gotten result ≡ root_at s.now (rows_in 12 n phrases.now) at }
{
    let (r, end) = phrases::deduction(phrases, s, n, at)?;
    if end == s.len() {
        return Ok((r, end));
    }
    Err(Refusal(Why::BytesAfter, end))
}

// So many patterns, whose records are at a place.
fn pattern_rows(patterns: &mut [u32], names: &[u32], s: &[u8], count: usize, at: usize) -> Listed
    requires { (count ≤ 128) × (640 ≤ length patterns.old) }
    ensures { Listing 5 128 (keeping (pattern_row s.now names.now) count [] at) result patterns.old patterns.new }
{
    let mut p = at;
    for i in 0..count {
        match patterns::read_pattern(patterns, names, s, i, p) {
            Ok(next) => p = next,
            Err(refusal) => {
                return Listed {
                    count: i,
                    ended: Err(refusal),
                };
            }
        }
    }
    Listed {
        count,
        ended: Ok(p),
    }
}

// So many phrases, whose records are at a place.
fn phrase_rows(
    phrases: &mut [u32],
    names: &[u32],
    s: &[u8],
    patterns: usize,
    count: usize,
    at: usize,
) -> Listed
    requires { (patterns ≤ 128) × (count ≤ 512) × (6144 ≤ length phrases.old) }
    ensures { Listing 12 512 (keeping (phrase_row s.now names.now patterns) count [] at) result phrases.old phrases.new }
{
    let mut p = at;
    for i in 0..count {
        match phrases::read_phrase(phrases, names, s, patterns, i, p) {
            Ok(next) => p = next,
            Err(refusal) => {
                return Listed {
                    count: i,
                    ended: Err(refusal),
                };
            }
        }
    }
    Listed {
        count,
        ended: Ok(p),
    }
}

// So many propositions of the base, whose references are at a place.
fn members(base: &mut [u32], names: &[u32], s: &[u8], count: usize, at: usize) -> Listed
    requires { count ≤ length base.old }
    ensures { Gathered (keeping (λ acc. name_ref s.now names.now) count [] at) result base.old base.new }
{
    let mut p = at;
    for i in 0..count {
        match names::name_ref(names, s, p) {
            Ok((v, next)) => {
                words::put(base, i, v);
                p = next;
            }
            Err(refusal) => {
                return Listed {
                    count: i,
                    ended: Err(refusal),
                };
            }
        }
    }
    Listed {
        count,
        ended: Ok(p),
    }
}
