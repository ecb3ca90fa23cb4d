// References to propositions, and the cells of a buffer.
ghost use Rattle.std.specs.Prelude.{◌≡◌, ◌<◌, ◌≤◌, ◌^◌, length, get_or, take};
ghost use Rattle.numbers.specs.Gotten.{gotten};
ghost use Rattle.records.specs.Reading.{name_ref};
ghost use Rattle.records.specs.Answers.{Narrow};

use language::Refusal;

// The number in the table of an earlier proposition, one of the names.
pub fn name_ref(names: &[u32], s: &[u8], at: usize) -> Result<(usize, usize), Refusal>
    ensures { (gotten result ≡ name_ref s.now names.now at) × Narrow result }
{
    let (p, next) = numbers::read_below(s, at, names.len())?;
    Ok((cell(names, p), next))
}

// The number in a cell; 0 past the end.
pub fn cell(t: &[u32], i: usize) -> usize
    ensures { (result ≡ get_or t.now i 0) × (result < 2 ^ 32) }
{
    if i < t.len() { t[i] as usize } else { 0 }
}
