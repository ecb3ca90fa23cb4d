// The sixteen rules at numbers of the table of formed propositions, for checker and evaluator alike.
// `apply` answers as document 01's table does at the trees that the numbers stand for: the arguments' shapes first (13),
// then the premises in the base (14), then the conclusion, which is formed where the table does not have it yet.
// The base is a stack of numbers, the last joined on top. An argument that the rule does not take is 0, where true stands.
// What one application may answer and leave is one answer and one table (proofs/Determined.antt).
#![tactic(auto, using(std::proofs::lemmas::Bool::Decides::nat_tests))]

ghost use Rattle.std.specs.Prelude.{◌≡◌, ℕ, ◌<◌, ◌≤◌, get_or};
ghost use Rattle.forms.specs.KindNumbers.{kind_number};
ghost use Rattle.forms.specs.Word.{kind, left, right};
ghost use Rattle.rules.specs.Shapes.{Safe, Narrow, modus_ponens, modus_tollens, double_negation, dilemma, dilemma_end, equivalence, equivalence_end, absurdity, left_part, right_part, left_iff, right_iff, shaped};
ghost use Rattle.rules.specs.Base.{within, premises, asked, grounds};
ghost use Rattle.rules.specs.Applied.{Ready, Ruling};

use forms::{Formed, Kind};
use language::{Rule, Why};

// What a rule gives: a conclusion that is in the table, or the word of one over what is there.
#[derive(Drop)]
enum Conclusion {
    Known(usize),
    New(usize),
}

// For each rule the arguments that are its premises: 1 the first, 2 the second, 4 the third.
const PREMISES: [usize; Rule::COUNT] = [1, 3, 3, 1, 3, 1, 1, 1, 2, 7, 3, 1, 1, 0, 3, 0];

// The rule at arguments x, y and z, in a table of n words and a base of b numbers: the conclusion's number and the count of words then in use.
// Refused are arguments that have not the rule's shapes, and those of a number that is no rule's; then a premise that is not in the base.
pub fn apply(
    t: &mut [u32],
    n: usize,
    base: &[u32],
    b: usize,
    rule: usize,
    x: usize,
    y: usize,
    z: usize,
) -> Result<Formed, Why>
    requires { Ready t.old n base.now b x y z }
    ensures { Ruling t.old n base.now b rule x y z t.new result }
{
    let conclusion = conclude(t, rule, x, y, z).ok_or(Why::WrongShapes)?;
    if !grounded(base, b, rule, x, y, z) {
        return Err(Why::PremiseMissing);
    }
    Ok(match conclusion {
        Conclusion::Known(p) => Formed { at: p, size: n },
        Conclusion::New(w) => forms::intern(t, n, w),
    })
}

// Whether the rule's premises are in the base.
fn grounded(base: &[u32], b: usize, rule: usize, x: usize, y: usize, z: usize) -> bool
    ensures { result ≡ grounds base.now b rule x y z }
{
    let m = premises_of(rule);
    met(base, b, m % 2, x) && met(base, b, m / 2 % 2, y) && met(base, b, m / 4, z)
}

// The arguments that are the rule's premises; none for a number that is no rule's.
fn premises_of(rule: usize) -> usize
    ensures { result ≡ get_or premises rule 0 }
{
    PREMISES.get(rule).copied().unwrap_or(0)
}

// Whether p, where it is asked, is in the base.
fn met(base: &[u32], b: usize, ask: usize, p: usize) -> bool
    ensures { result ≡ asked ask p base.now b }
{
    ask == 0 || member(base, b, p)
}

// Whether p is among the first b numbers, looked for from the last.
fn member(base: &[u32], b: usize, p: usize) -> bool
    ensures { result ≡ within p base.now b }
{
    for j in (0..b).rev() {
        if p == words::at(base, j) {
            return true;
        }
    }
    false
}

// What the rule gives where the arguments have its shapes. A number that is no rule's has none.
#[tactic(auto, using(crate::proofs::Says::no_row, language::proofs::RuleNumbers::number_is), unfolding(crate::specs::Shapes::rows, crate::specs::Shapes::shaped))]
fn conclude(t: &[u32], rule: usize, x: usize, y: usize, z: usize) -> Option<Conclusion>
    requires { Safe t.now x y }
    ensures { result ≡ shaped t.now rule x y z }
{
    match Rule::of(rule)? {
        Rule::Claim => Some(Conclusion::Known(x)),
        Rule::ModusPonens => modus_ponens(t, x, y),
        Rule::ModusTollens => modus_tollens(t, x, y),
        Rule::DoubleNegation => double_negation(t, x),
        Rule::Both => Some(Conclusion::New(Kind::And.word(x, y))),
        Rule::LeftAnd => left_part(t, x),
        Rule::RightAnd => right_part(t, x),
        Rule::LeftEither | Rule::RightEither => Some(Conclusion::New(Kind::Or.word(x, y))),
        Rule::ConstructiveDilemma => dilemma(t, x, y, z),
        Rule::Equivalence => equivalence(t, x, y),
        Rule::LeftIff => left_iff(t, x),
        Rule::RightIff => right_iff(t, x),
        Rule::TrueIntro => Some(Conclusion::Known(forms::TRUE)),
        Rule::Absurd => absurdity(t, x, y),
        Rule::FalseElim => Some(Conclusion::New(Kind::Not.word(forms::FALSE, 0))),
    }
}

// Of p⇒q and p: q.
fn modus_ponens(t: &[u32], x: usize, y: usize) -> Option<Conclusion>
    ensures { result ≡ modus_ponens t.now x y }
{
    if kind(t, x) == Kind::If && left(t, x) == y {
        return Some(Conclusion::Known(right(t, x)));
    }
    None
}

// Of p⇒q and ¬q: ¬p.
fn modus_tollens(t: &[u32], x: usize, y: usize) -> Option<Conclusion>
    ensures { result ≡ modus_tollens t.now x y }
{
    if kind(t, x) == Kind::If && kind(t, y) == Kind::Not && right(t, x) == left(t, y) {
        return Some(Conclusion::New(Kind::Not.word(left(t, x), 0)));
    }
    None
}

// Of ¬¬p: p.
fn double_negation(t: &[u32], x: usize) -> Option<Conclusion>
    ensures { result ≡ double_negation t.now x }
{
    if kind(t, x) == Kind::Not {
        let p = left(t, x);
        if kind(t, p) == Kind::Not {
            return Some(Conclusion::Known(left(t, p)));
        }
    }
    None
}

// Of p∧q: p.
fn left_part(t: &[u32], x: usize) -> Option<Conclusion>
    ensures { result ≡ left_part t.now x }
{
    if kind(t, x) == Kind::And {
        return Some(Conclusion::Known(left(t, x)));
    }
    None
}

// Of p∧q: q.
fn right_part(t: &[u32], x: usize) -> Option<Conclusion>
    ensures { result ≡ right_part t.now x }
{
    if kind(t, x) == Kind::And {
        return Some(Conclusion::Known(right(t, x)));
    }
    None
}

// Of p∨q, p⇒r and q⇒r: r.
fn dilemma(t: &[u32], x: usize, y: usize, z: usize) -> Option<Conclusion>
    ensures { result ≡ dilemma t.now x y z }
{
    if kind(t, x) == Kind::Or && kind(t, y) == Kind::If && left(t, x) == left(t, y) {
        return dilemma_end(t, x, y, z);
    }
    None
}

// The third argument of a dilemma against the first two.
fn dilemma_end(t: &[u32], x: usize, y: usize, z: usize) -> Option<Conclusion>
    ensures { result ≡ dilemma_end t.now x y z }
{
    if kind(t, z) == Kind::If && right(t, x) == left(t, z) && right(t, y) == right(t, z) {
        return Some(Conclusion::Known(right(t, y)));
    }
    None
}

// Of p⇒q and q⇒p: p⇔q.
fn equivalence(t: &[u32], x: usize, y: usize) -> Option<Conclusion>
    requires { Narrow t.now x }
    ensures { result ≡ equivalence t.now x y }
{
    if kind(t, x) == Kind::If && kind(t, y) == Kind::If {
        return equivalence_end(t, x, y);
    }
    None
}

// The parts of two implications against each other, crosswise.
fn equivalence_end(t: &[u32], x: usize, y: usize) -> Option<Conclusion>
    requires { right (get_or t.now x 0) < 16384 }
    ensures { result ≡ equivalence_end t.now x y }
{
    if left(t, x) == right(t, y) && right(t, x) == left(t, y) {
        return Some(Conclusion::New(Kind::Iff.word(left(t, x), right(t, x))));
    }
    None
}

// Of p⇔q: p⇒q.
fn left_iff(t: &[u32], x: usize) -> Option<Conclusion>
    requires { Narrow t.now x }
    ensures { result ≡ left_iff t.now x }
{
    if kind(t, x) == Kind::Iff {
        return Some(Conclusion::New(Kind::If.word(left(t, x), right(t, x))));
    }
    None
}

// Of p⇔q: q⇒p.
fn right_iff(t: &[u32], x: usize) -> Option<Conclusion>
    requires { Narrow t.now x }
    ensures { result ≡ right_iff t.now x }
{
    if kind(t, x) == Kind::Iff {
        return Some(Conclusion::New(Kind::If.word(right(t, x), left(t, x))));
    }
    None
}

// Of p and ¬p: false.
fn absurdity(t: &[u32], x: usize, y: usize) -> Option<Conclusion>
    ensures { result ≡ absurdity t.now x y }
{
    if kind(t, y) == Kind::Not && x == left(t, y) {
        return Some(Conclusion::Known(forms::FALSE));
    }
    None
}

// The kind of the record p.
fn kind(t: &[u32], p: usize) -> Kind
    ensures { kind_number result ≡ kind (get_or t.now p 0) }
{
    Kind::of_word(words::at(t, p))
}

// The left part of the record p.
fn left(t: &[u32], p: usize) -> usize
    ensures { (result ≡ left (get_or t.now p 0)) × (result < 16384) }
{
    forms::left_of(words::at(t, p))
}

// The right part of the record p.
fn right(t: &[u32], p: usize) -> usize
    ensures { result ≡ right (get_or t.now p 0) }
{
    forms::right_of(words::at(t, p))
}
