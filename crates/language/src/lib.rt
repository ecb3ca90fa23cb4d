// What document 01 fixes for evaluator and checker alike: its two currencies, the answers of its doors, the numbers of refusals and rules, and the one
// table of argument counts.
// The definitions themselves are in specs/; contracts of every crate cite them.
#![tactic(auto)]

ghost use Rattle.std.specs.Prelude.{◌≡◌, get_or};
ghost use Rattle.language.specs.Rules.{arity};

pub mod node;
pub mod refusal;
pub mod rule;

pub use node::Node;
pub use refusal::{Refusal, Why};
pub use rule::Rule;

// Evaluations begun.
#[derive(Drop)]
pub struct Work(pub usize);

// What is left of a budget: evaluations that may still begin. It is no work, which is evaluations begun.
#[derive(Clone, Copy)]
pub struct Remaining(pub usize);

// Rules in a certificate. Never added to work.
#[derive(Drop)]
pub struct Inferences(pub usize);

// What an accepted evaluation answers: the certificate's length, the work and the inferences.
#[derive(Drop)]
pub struct Accepted {
    pub length: usize,
    pub work: Work,
    pub inferences: Inferences,
}

// What a check that stands answers: the conclusion's number and the inferences.
#[derive(Drop)]
pub struct Stands {
    pub conclusion: usize,
    pub inferences: Inferences,
}

// Document 01's argument counts, by the rule's number.
const ARGUMENTS: [usize; Rule::COUNT] = [1, 2, 2, 1, 2, 1, 1, 2, 2, 3, 2, 1, 1, 0, 2, 0];

// How many arguments a rule takes; 0 for a number that is no rule's.
pub fn arguments(rule: usize) -> usize
    ensures { result ≡ get_or arity rule 0 }
{
    ARGUMENTS.get(rule).copied().unwrap_or(0)
}
