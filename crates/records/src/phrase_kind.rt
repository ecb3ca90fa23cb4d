// The kinds of a phrase, document 01's: expressions below 16, deductions from there.
ghost use Rattle.std.specs.Prelude.{◌≡◌};
ghost use Rattle.records.specs.PhraseNumbers.{phrase_number, phrase_kind_of};

// A phrase's kind, by its number.
#[derive(Clone, Copy, PartialEq, Eq)]
pub enum PhraseKind {
    // A proposition.
    Proposition = 0,
    // A variable, by how many bindings are inside it.
    Variable = 1,
    // A constructor.
    Constructor = 2,
    // A rule.
    Rule = 3,
    // A function.
    Function = 4,
    // A method.
    Method = 5,
    // A call.
    Call = 6,
    // A let.
    Let = 7,
    // A fix, over a function or a method.
    Fix = 8,
    // A match.
    Match = 9,
    // The first kind that is a deduction's: a method call.
    MethodCall = 16,
    // An assume.
    Assume = 17,
    // A suppose-absurd.
    Suppose = 18,
    // A dlet.
    DLet = 19,
    // An announced conclusion.
    By = 20,
    // A block of deductions.
    Block = 21,
    // A dmatch.
    DMatch = 22,
}

impl PhraseKind {
    // The kind of a number, where it is a kind's.
    pub fn of(number: usize) -> Option<PhraseKind>
        ensures { result ≡ phrase_kind_of number }
    {
        let kind = match number {
            0 => PhraseKind::Proposition,
            1 => PhraseKind::Variable,
            2 => PhraseKind::Constructor,
            3 => PhraseKind::Rule,
            4 => PhraseKind::Function,
            5 => PhraseKind::Method,
            6 => PhraseKind::Call,
            7 => PhraseKind::Let,
            8 => PhraseKind::Fix,
            9 => PhraseKind::Match,
            16 => PhraseKind::MethodCall,
            17 => PhraseKind::Assume,
            18 => PhraseKind::Suppose,
            19 => PhraseKind::DLet,
            20 => PhraseKind::By,
            21 => PhraseKind::Block,
            22 => PhraseKind::DMatch,
            _ => return None,
        };
        Some(kind)
    }

    // Its number.
    pub fn number(self) -> usize
        ensures { result ≡ phrase_number self }
    {
        self as usize
    }
}
