// One record of a sheet at a time, over what is read before it: a reference to a proposition, a proposition's word in the table, a pattern's row.
// Each number is judged when it is read, and a refusal has the number and the place that document 01 gives it.
// Nothing is assumed of the bytes. A refused record leaves its table as it was.
// A name is a proposition's number in the table of formed propositions; patterns and phrases are rows of numbers (specs/Rows.antt).
#![tactic(auto)]

pub mod names;
pub mod pattern_kind;
pub mod patterns;
pub mod phrase_kind;
pub mod props;
pub mod rows;

pub use pattern_kind::PatternKind;
pub use phrase_kind::PhraseKind;
