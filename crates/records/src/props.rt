// Part 1: a proposition's record, read as its word in the table.
ghost use Rattle.std.specs.Prelude.{◌≡◌};
ghost use Rattle.numbers.specs.Gotten.{gotten};
ghost use Rattle.forms.specs.KindNumbers.{kind_number};
ghost use Rattle.records.specs.Reading.{word_at};
ghost use Rattle.records.specs.Operands.{atom_word, negation_word, junction_word};
ghost use Rattle.records.specs.Answers.{Narrow, Names};

use super::names;
use forms::Kind;
use language::{Refusal, Why};

// The word of the proposition whose record is at a place, over the names of those before it.
#[tactic(auto, using(forms::proofs::KindNumbers::number_is), unfolding(crate::specs::Reading::word_at, crate::specs::Reading::word_kinds, crate::specs::Operands::atom_word, crate::specs::Operands::negation_word, crate::specs::Operands::junction_word, language::specs::Numbers::record_at, language::specs::Numbers::then))]
pub fn word_at(names: &[u32], s: &[u8], at: usize) -> Result<(usize, usize), Refusal>
    requires { Names names.now }
    ensures { (gotten result ≡ word_at s.now names.now at) × Narrow result }
{
    let (k, next) = numbers::read(s, at)?;
    let kind = Kind::of(k).ok_or(Refusal(Why::OutOfRange, at))?;
    match kind {
        Kind::Atom => atom(s, next),
        Kind::True | Kind::False => Ok((kind.word(0, 0), next)),
        Kind::Not => negation(names, s, next),
        Kind::And | Kind::Or | Kind::If | Kind::Iff => junction(names, s, kind, next),
    }
}

// The word of an atom whose number is at a place.
fn atom(s: &[u8], at: usize) -> Result<(usize, usize), Refusal>
    ensures { (gotten result ≡ atom_word s.now at) × Narrow result }
{
    let (a, next) = numbers::read_from(s, at, 0, 255)?;
    Ok((Kind::Atom.word(a, 0), next))
}

// The word of a negation whose operand is at a place.
fn negation(names: &[u32], s: &[u8], at: usize) -> Result<(usize, usize), Refusal>
    requires { Names names.now }
    ensures { (gotten result ≡ negation_word s.now names.now at) × Narrow result }
{
    let (p, next) = names::name_ref(names, s, at)?;
    Ok((Kind::Not.word(p, 0), next))
}

// The word of a proposition of a kind whose two operands are at a place.
fn junction(names: &[u32], s: &[u8], kind: Kind, at: usize) -> Result<(usize, usize), Refusal>
    requires { Names names.now }
    ensures { (gotten result ≡ junction_word s.now names.now (kind_number kind) at) × Narrow result }
{
    let (p, b) = names::name_ref(names, s, at)?;
    let (q, next) = names::name_ref(names, s, b)?;
    Ok((kind.word(p, q), next))
}
