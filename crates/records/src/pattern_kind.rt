// The kinds of a pattern, document 01's.
ghost use Rattle.std.specs.Prelude.{◌≡◌};
ghost use Rattle.records.specs.PatternNumbers.{pattern_number, pattern_kind_of};

// A pattern's kind, by its number.
#[derive(Clone, Copy, PartialEq, Eq)]
pub enum PatternKind {
    // Any proposition, which it binds.
    Any = 0,
    // Exactly one proposition.
    Exactly = 1,
    // Not a pattern.
    Not = 2,
    // Both of two patterns, in a conjunction.
    And = 3,
    // Two patterns in a disjunction.
    Or = 4,
    // Two patterns in a conditional.
    If = 5,
    // Two patterns in a biconditional.
    Iff = 6,
}

// The kinds in the order of their numbers.
const ALL: [PatternKind; 7] = [
    PatternKind::Any,
    PatternKind::Exactly,
    PatternKind::Not,
    PatternKind::And,
    PatternKind::Or,
    PatternKind::If,
    PatternKind::Iff,
];

impl PatternKind {
    // The kind of a number, where it is a kind's.
    pub fn of(number: usize) -> Option<PatternKind>
        ensures { result ≡ pattern_kind_of number }
    {
        ALL.get(number).copied()
    }

    // Its number.
    pub fn number(self) -> usize
        ensures { result ≡ pattern_number self }
    {
        self as usize
    }
}
