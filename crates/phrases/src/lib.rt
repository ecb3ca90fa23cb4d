// One phrase of a sheet at a time: its record is read as a row of twelve numbers, the kind, its operands, zeros to the end.
// What follows the kind is told by its shape, one line of a table for each kind (src/shape.rt).
// A reference names an earlier phrase, of the class that its place asks for. A refusal has the number and the place that document 01 gives it.
// Nothing is assumed of the bytes. A refused record leaves the table as it was.
#![tactic(auto)]

ghost use Rattle.std.specs.Prelude.{◌≡◌, [], ◌∷◌, ◌+◌, ◌*◌, ◌<◌, ◌≤◌, length, take, replicate};
ghost use Rattle.std.proofs.lemmas.List.Edits.{sets};
ghost use Rattle.language.specs.Numbers.{got, then, times};
ghost use Rattle.numbers.specs.Gotten.{gotten};
ghost use Rattle.phrases.specs.declared.shape.Operand.TheVariants.{Deduction, Expression};
ghost use Rattle.records.specs.Rows.{cell, flat};
ghost use Rattle.records.specs.Reading.{phrase_row, name_ref, expr_row, dedu_row, one_row, pair_row, several_row, clause_row, clauses_row};
ghost use Rattle.phrases.specs.Shapes.{operand_at, abstraction_row, shape_of, shaped_row, Begun};
ghost use Rattle.records.specs.Answers.{filled, rows_in, Put};

use before::Before;
use language::Refusal;
use records::rows;

mod before;
pub mod shape;

// Phrase n, whose record is at a place, laid behind the n before it; a refusal lays nothing.
pub fn read_phrase(
    phrases: &mut [u32],
    names: &[u32],
    s: &[u8],
    patterns: usize,
    n: usize,
    at: usize,
) -> Result<usize, Refusal>
    requires { (patterns ≤ 128) × (n < 512) × (6144 ≤ length phrases.old) }
    ensures { Put 12 (phrase_row s.now names.now patterns (rows_in 12 n phrases.old) at) result (12 * n) phrases.old phrases.new }
{
    let mut row = [0u32; rows::PHRASE];
    let before = Before {
        s,
        names,
        patterns,
        phrases,
        n,
    };
    let next = before.phrase_row(&mut row, at)?;
    rows::lay(phrases, &row, rows::PHRASE * n);
    Ok(next)
}

// An earlier deduction.
pub fn deduction(phrases: &[u32], s: &[u8], n: usize, at: usize) -> Result<(usize, usize), Refusal>
    requires { n ≤ 512 }
    ensures { gotten result ≡ dedu_row s.now (rows_in 12 n phrases.now) at }
{
    let before = Before {
        s,
        names: &[],
        patterns: 0,
        phrases,
        n,
    };
    before.deduction(at)
}
