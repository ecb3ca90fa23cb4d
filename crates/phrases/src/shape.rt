// What follows a phrase's kind in its record.
ghost use Rattle.std.specs.Prelude.{◌≡◌, ◌<◌};
ghost use Rattle.phrases.specs.Shapes.{shape_of};

use records::PhraseKind;

// One operand: a number in its range, or an earlier phrase of a class.
#[derive(Clone, Copy)]
pub enum Operand {
    Variable,
    Constructor,
    Rule,
    Parameters,
    Phrase,
    Expression,
    Deduction,
    Abstraction,
}

// The operands of a kind: a proposition; one; two; an expression and a count of arguments; a count of deductions; a phrase and a count of
// clauses.
#[derive(Drop)]
pub enum Shape {
    Name,
    One(Operand),
    Two(Operand, Operand),
    Call(Operand),
    Block,
    Match(Operand, Operand),
}

// The operands of a kind; none for a number that is no kind.
pub fn shape_of(kind: usize) -> Option<Shape>
    ensures { result ≡ shape_of kind }
{
    let shape = match PhraseKind::of(kind)? {
        PhraseKind::Proposition => Shape::Name,
        PhraseKind::Variable => Shape::One(Operand::Variable),
        PhraseKind::Constructor => Shape::One(Operand::Constructor),
        PhraseKind::Rule => Shape::One(Operand::Rule),
        PhraseKind::Function => Shape::Two(Operand::Parameters, Operand::Expression),
        PhraseKind::Method => Shape::Two(Operand::Parameters, Operand::Deduction),
        PhraseKind::Call => Shape::Call(Operand::Expression),
        PhraseKind::Let => Shape::Two(Operand::Expression, Operand::Expression),
        PhraseKind::Fix => Shape::One(Operand::Abstraction),
        PhraseKind::Match => Shape::Match(Operand::Expression, Operand::Expression),
        PhraseKind::MethodCall => Shape::Call(Operand::Phrase),
        PhraseKind::Assume => Shape::Two(Operand::Expression, Operand::Deduction),
        PhraseKind::Suppose => Shape::Two(Operand::Expression, Operand::Deduction),
        PhraseKind::DLet => Shape::Two(Operand::Phrase, Operand::Deduction),
        PhraseKind::By => Shape::Two(Operand::Expression, Operand::Deduction),
        PhraseKind::Block => Shape::Block,
        PhraseKind::DMatch => Shape::Match(Operand::Phrase, Operand::Deduction),
    };
    Some(shape)
}
