// The rules, document 01's, each under one name. specs/Rules.antt has what they take and give.
ghost use Rattle.std.specs.Prelude.{◌≡◌};
ghost use Rattle.language.specs.RuleNumbers.{rule_number, rule_of};

// A rule, by its number.
#[derive(Clone, Copy, PartialEq, Eq)]
pub enum Rule {
    // p; gives p.
    Claim = 0,
    // p⇒q and p; gives q.
    ModusPonens = 1,
    // p⇒q and ¬q; gives ¬p.
    ModusTollens = 2,
    // ¬¬p; gives p.
    DoubleNegation = 3,
    // p and q; gives p∧q.
    Both = 4,
    // p∧q; gives p.
    LeftAnd = 5,
    // p∧q; gives q.
    RightAnd = 6,
    // p and q, of which p is the premise; gives p∨q.
    LeftEither = 7,
    // p and q, of which q is the premise; gives p∨q.
    RightEither = 8,
    // p∨q, p⇒r and q⇒r; gives r.
    ConstructiveDilemma = 9,
    // p⇒q and q⇒p; gives p⇔q.
    Equivalence = 10,
    // p⇔q; gives p⇒q.
    LeftIff = 11,
    // p⇔q; gives q⇒p.
    RightIff = 12,
    // No arguments; gives true.
    TrueIntro = 13,
    // p and ¬p; gives false.
    Absurd = 14,
    // No arguments; gives ¬false.
    FalseElim = 15,
}

// The rules in the order of their numbers.
const ALL: [Rule; Rule::COUNT] = [
    Rule::Claim,
    Rule::ModusPonens,
    Rule::ModusTollens,
    Rule::DoubleNegation,
    Rule::Both,
    Rule::LeftAnd,
    Rule::RightAnd,
    Rule::LeftEither,
    Rule::RightEither,
    Rule::ConstructiveDilemma,
    Rule::Equivalence,
    Rule::LeftIff,
    Rule::RightIff,
    Rule::TrueIntro,
    Rule::Absurd,
    Rule::FalseElim,
];

impl Rule {
    // How many there are: their numbers are below it.
    pub const COUNT: usize = 16;

    // The rule of a number, where it is a rule's.
    pub fn of(number: usize) -> Option<Rule>
        ensures { result ≡ rule_of number }
    {
        ALL.get(number).copied()
    }

    // Its number.
    pub fn number(self) -> usize
        ensures { result ≡ rule_number self }
    {
        self as usize
    }
}
