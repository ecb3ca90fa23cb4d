// Patterns tried against propositions, over the table of formed propositions and the patterns' rows, five numbers each.
// A pattern is tried part by part: it binds what each `any` meets, left to right, at most four propositions, or does not fit.
// Propositions are compared by their numbers, as equal numbers are equal shapes. The first clause whose pattern fits is chosen.
// What is bound or chosen is what the language's `fits` and `choose` give at the trees that the numbers stand for.
#![tactic(auto)]

ghost use Rattle.std.specs.Prelude.{◌≡◌, ◌+◌, ◌<◌, ◌≤◌};
ghost use Rattle.forms.specs.KindNumbers.{kind_number};
ghost use Rattle.records.specs.PatternNumbers.{pattern_number};
ghost use Rattle.patterns.specs.Parts.{none_bound, with};
ghost use Rattle.patterns.specs.Fitting.{told, Tried, FitsSo, Offered, ChosenSo};

use forms::Kind;
use records::{PatternKind, rows};

// What a pattern binds, left to right: so many propositions by their numbers, the first ones of four.
#[derive(Clone, Copy)]
pub struct Parts {
    pub count: usize,
    pub all: [usize; 4],
}

// The first of so many clauses that fits the proposition p, if one does: its body, and what its pattern binds.
// A clause is two numbers, a pattern's and its body's, from a place on.
pub fn choose(
    forms: &[u32],
    patterns: &[u32],
    phrases: &[u32],
    from: usize,
    left: usize,
    p: usize,
) -> Option<(usize, Parts)>
    requires { Offered forms.now patterns.now phrases.now from left p }
    ensures { ChosenSo forms.now patterns.now phrases.now from left p result }
{
    if left == 0 {
        return None;
    }
    let q = words::at(phrases, from);
    match tried(forms, patterns, q, p, nothing()) {
        Some(parts) => Some((words::at(phrases, from + 1), parts)),
        None => choose(forms, patterns, phrases, from + 2, left - 1, p),
    }
}

// Pattern q tried against the proposition p: what it binds, after what was bound before, if it fits.
pub fn tried(forms: &[u32], patterns: &[u32], q: usize, p: usize, before: Parts) -> Option<Parts>
    requires { Tried forms.now patterns.now q p before }
    ensures { FitsSo forms.now patterns.now q p before result }
{
    let mut parts = before;
    if fits(forms, patterns, q, p, &mut parts) {
        Some(parts)
    } else {
        None
    }
}

// Whether pattern q fits the proposition p; what it binds is then added to the parts, which are open where it misses. They are lent: an `Option<Parts>`
// handed back from each part of the pattern costs twice the time and twice the stack.
fn fits(forms: &[u32], patterns: &[u32], q: usize, p: usize, parts: &mut Parts) -> bool
    requires { Tried forms.now patterns.now q p parts.old }
    ensures { FitsSo forms.now patterns.now q p parts.old (told result parts.new) }
{
    let Some(kind) = PatternKind::of(words::at(patterns, rows::PATTERN * q)) else {
        return false;
    };
    let one = words::at(patterns, rows::PATTERN * q + 1);
    if kind == PatternKind::Any {
        *parts = extended(*parts, p);
        return true;
    }
    if kind == PatternKind::Exactly {
        return one == p;
    }
    let w = words::at(forms, p);
    if Kind::of_word(w) != over(kind) {
        return false;
    }
    if !fits(forms, patterns, one, forms::left_of(w), parts) {
        return false;
    }
    if kind == PatternKind::Not {
        return true;
    }
    let two = words::at(patterns, rows::PATTERN * q + 2);
    fits(forms, patterns, two, forms::right_of(w), parts)
}

// The kind of proposition over whose parts a pattern's parts are tried: not, and, or, if and iff each over its own; the first two kinds have none.
fn over(pattern: PatternKind) -> Kind
    ensures { 2 ≤ pattern_number pattern → kind_number result ≡ pattern_number pattern + 1 }
{
    match pattern {
        PatternKind::Any | PatternKind::Exactly => Kind::Atom,
        PatternKind::Not => Kind::Not,
        PatternKind::And => Kind::And,
        PatternKind::Or => Kind::Or,
        PatternKind::If => Kind::If,
        PatternKind::Iff => Kind::Iff,
    }
}

// Nothing bound.
pub fn nothing() -> Parts
    ensures { result ≡ none_bound }
{
    Parts {
        count: 0,
        all: [0; 4],
    }
}

// One proposition more, after those before it. There must be fewer than four.
fn extended(b: Parts, p: usize) -> Parts
    requires { b.count < 4 }
    ensures { result ≡ with b p }
{
    let mut all = b.all;
    all[b.count] = p;
    Parts {
        count: b.count + 1,
        all,
    }
}
