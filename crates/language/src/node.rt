// The nodes of a certificate's proof, document 01's.
ghost use Rattle.std.specs.Prelude.{◌≡◌};
ghost use Rattle.language.specs.RuleNumbers.{node_of};

// A node, by the number of its kind.
#[derive(Clone, Copy, PartialEq, Eq)]
pub enum Node {
    // A rule and the argument propositions.
    Rule = 0,
    // Two proofs, D1 and D2; D2 sees D1's conclusion.
    Sequence = 1,
    // A proposition p and a proof D: assume p in D.
    Hypothesis = 2,
}

impl Node {
    // The node of a kind. A number that is no kind's is taken for a hypothesis's.
    pub fn of(kind: usize) -> Node
        ensures { result ≡ node_of kind }
    {
        match kind {
            0 => Node::Rule,
            1 => Node::Sequence,
            _ => Node::Hypothesis,
        }
    }
}
