// Part 2: a pattern's record, read as a row of five numbers: kind, two operands, how many it binds, how many parts it has.
ghost use Rattle.std.specs.Prelude.{◌≡◌, ◌+◌, ◌*◌, ◌<◌, ◌≤◌, ◌^◌, length, take, replicate};
ghost use Rattle.records.specs.Rows.{cell, pattern_cells};
ghost use Rattle.records.specs.PatternNumbers.{pattern_number};
ghost use Rattle.records.specs.Reading.{pattern_row, small_row};
ghost use Rattle.records.specs.Operands.{exactly_row, negation_row, junction_row};
ghost use Rattle.records.specs.Answers.{filled, rows_in, Put};

use super::pattern_kind::PatternKind;
use super::{names, rows};
use language::{Refusal, Why};

// The numbers of a pattern's row.
#[derive(Drop)]
struct Pattern {
    kind: PatternKind,
    left: usize,
    right: usize,
    binds: usize,
    parts: usize,
}

// Where a row says how many propositions its pattern binds.
const BINDS: usize = 3;

// Where it says how many parts its pattern has.
const PARTS: usize = 4;

// Pattern n, whose record is at a place, laid behind the n before it; a refusal lays nothing.
pub fn read_pattern(
    patterns: &mut [u32],
    names: &[u32],
    s: &[u8],
    n: usize,
    at: usize,
) -> Result<usize, Refusal>
    requires { (n < 128) × (640 ≤ length patterns.old) }
    ensures { Put 5 (pattern_row s.now names.now (rows_in 5 n patterns.old) at) result (5 * n) patterns.old patterns.new }
{
    let mut row = [0u32; rows::PATTERN];
    let next = pattern_row(&mut row, patterns, names, s, n, at)?;
    rows::lay(patterns, &row, rows::PATTERN * n);
    Ok(next)
}

// The row of the pattern whose record is at a place, over the names and the n patterns before it.
#[tactic(auto, using(crate::proofs::PatternNumbers::number_is), unfolding(crate::specs::Reading::pattern_row, crate::specs::Reading::pattern_row_kinds, crate::specs::Operands::exactly_row, crate::specs::Operands::negation_row, crate::specs::Operands::junction_row, language::specs::Numbers::record_at, language::specs::Numbers::then))]
fn pattern_row(
    row: &mut [u32],
    patterns: &[u32],
    names: &[u32],
    s: &[u8],
    n: usize,
    at: usize,
) -> Result<usize, Refusal>
    requires row_value { row.old ≡ replicate 5 0 }
    requires n_bound { n < 128 }
    ensures { filled result row.new ≡ pattern_row s.now names.now (rows_in 5 n patterns.now) at }
{
    let (k, next) = numbers::read(s, at)?;
    let kind = PatternKind::of(k).ok_or(Refusal(Why::OutOfRange, at))?;
    match kind {
        PatternKind::Any => any(row, at, next),
        PatternKind::Exactly => exactly(row, names, s, at, next),
        PatternKind::Not => negation(row, patterns, s, n, at, next),
        PatternKind::And | PatternKind::Or | PatternKind::If | PatternKind::Iff => {
            junction(row, patterns, s, n, kind, at, next)
        }
    }
}

// The row of a pattern that fits any proposition.
fn any(row: &mut [u32], start: usize, at: usize) -> Result<usize, Refusal>
    requires { row.old ≡ replicate 5 0 }
    ensures { filled result row.new ≡ small_row start (pattern_cells 0 0 0 1 1) at }
{
    let p = Pattern {
        kind: PatternKind::Any,
        left: 0,
        right: 0,
        binds: 1,
        parts: 1,
    };
    small(row, start, p, at)
}

// The row of a pattern that is a proposition's.
fn exactly(
    row: &mut [u32],
    names: &[u32],
    s: &[u8],
    start: usize,
    at: usize,
) -> Result<usize, Refusal>
    requires row_value { row.old ≡ replicate 5 0 }
    ensures { filled result row.new ≡ exactly_row s.now names.now start at }
{
    let (left, next) = names::name_ref(names, s, at)?;
    let p = Pattern {
        kind: PatternKind::Exactly,
        left,
        right: 0,
        binds: 0,
        parts: 1,
    };
    small(row, start, p, next)
}

// The row of a pattern over one of the n before it.
fn negation(
    row: &mut [u32],
    patterns: &[u32],
    s: &[u8],
    n: usize,
    start: usize,
    at: usize,
) -> Result<usize, Refusal>
    requires row_value { row.old ≡ replicate 5 0 }
    requires n_bound { n < 128 }
    ensures { filled result row.new ≡ negation_row s.now (rows_in 5 n patterns.now) start at }
{
    let (left, next) = numbers::read_below(s, at, n)?;
    let p = Pattern {
        kind: PatternKind::Not,
        left,
        right: 0,
        binds: cell(patterns, n, left, BINDS),
        parts: 1 + cell(patterns, n, left, PARTS),
    };
    small(row, start, p, next)
}

// The row of a pattern of a kind over two of the n before it.
fn junction(
    row: &mut [u32],
    patterns: &[u32],
    s: &[u8],
    n: usize,
    kind: PatternKind,
    start: usize,
    at: usize,
) -> Result<usize, Refusal>
    requires row_value { row.old ≡ replicate 5 0 }
    requires n_bound { n < 128 }
    ensures { filled result row.new ≡ junction_row s.now (rows_in 5 n patterns.now) (pattern_number kind) start at }
{
    let (left, b) = numbers::read_below(s, at, n)?;
    let (right, next) = numbers::read_below(s, b, n)?;
    let p = Pattern {
        kind,
        left,
        right,
        binds: cell(patterns, n, left, BINDS) + cell(patterns, n, right, BINDS),
        parts: 1 + (cell(patterns, n, left, PARTS) + cell(patterns, n, right, PARTS)),
    };
    small(row, start, p, next)
}

// A pattern's row, if it binds at most 4 and has at most 256 parts; else the refusal at its record.
fn small(row: &mut [u32], start: usize, p: Pattern, next: usize) -> Result<usize, Refusal>
    requires row_value { row.old ≡ replicate 5 0 }
    requires parts_bound { (p.left < 2 ^ 32) × (p.right < 2 ^ 32) }
    ensures { filled result row.new ≡ small_row start (pattern_cells (pattern_number p.kind) p.left p.right p.binds p.parts) next }
{
    if 4 < p.binds {
        return Err(Refusal(Why::OutOfRange, start));
    }
    if 256 < p.parts {
        return Err(Refusal(Why::OutOfRange, start));
    }
    words::put(row, 0, p.kind.number());
    words::put(row, 1, p.left);
    words::put(row, 2, p.right);
    words::put(row, BINDS, p.binds);
    words::put(row, PARTS, p.parts);
    Ok(next)
}

// Number j of the row of pattern p, one of the first n.
fn cell(patterns: &[u32], n: usize, p: usize, j: usize) -> usize
    requires { (p < n) × (n < 128) × (j < 5) }
    ensures { (result ≡ cell (rows_in 5 n patterns.now) p j) × (result < 2 ^ 32) }
{
    names::cell(patterns, rows::PATTERN * p + j)
}
