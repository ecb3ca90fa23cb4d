// The first reading of a certificate's proof: each number is judged as it is read, within the limits, and nodes and inferences are counted.
ghost use Rattle.std.specs.Prelude.{◌≡◌, List, [], ℕ, ◌<◌, ◌≤◌, length};
ghost use Rattle.language.specs.Numbered.{number_of, numbered};
ghost use Rattle.language.specs.Form.{Form};
ghost use Rattle.language.specs.Numbers.{times};
ghost use Rattle.language.specs.Read.{reference};
ghost use Rattle.language.specs.Check.{rule_node, node};
ghost use Rattle.checker.specs.Walk.{rest_by, two_at, under_at};
ghost use Rattle.records.specs.Answers.{ends, closed};
ghost use Rattle.checker.specs.Tally.{tallied, proof_at, concluded_at, certified, own_number};

use super::{NESTED, NODES};
use language::{Inferences, Node, Refusal, Rule, Why};

// The nodes read so far, the inferences of those read here, and the place past them.
#[derive(Drop)]
struct NodesRead {
    nodes: usize,
    rules: Inferences,
    next: usize,
}

// What a certificate states: its proof's inferences, the number of its conclusion and that number's place.
#[derive(Drop)]
pub(super) struct Stated {
    pub(super) rules: Inferences,
    pub(super) conclusion: usize,
    pub(super) place: usize,
}

// The certificate's bytes, and how many propositions it lists.
#[derive(Clone, Copy)]
pub(super) struct Reading<'a> {
    pub(super) certificate: &'a [u8],
    pub(super) count: usize,
}

impl<'a> Reading<'a> {
    // The proof at `at` and the number of its conclusion, which ends the bytes.
    pub(super) fn proof(self, at: usize) -> Result<Stated, Refusal>
        ensures { (ps : List Form) → length ps ≡ self.entry.count → numbered result ≡ certified (proof_at self.entry.certificate.now ps at) }
    {
        let proof = self.node(NESTED, 0, at)?;
        self.conclusion(proof.rules, proof.next)
    }

    // The number of the conclusion of a proof of so many inferences, at which the bytes end.
    fn conclusion(self, rules: Inferences, at: usize) -> Result<Stated, Refusal>
        ensures { numbered result ≡ concluded_at self.entry.certificate.now self.entry.count rules at }
    {
        let (conclusion, end) = numbers::read_below(self.certificate, at, self.count)?;
        if end == self.certificate.len() {
            return Ok(Stated {
                rules,
                conclusion,
                place: at,
            });
        }
        Err(Refusal(Why::BytesAfter, end))
    }

    // The node at `at`, with so much nesting left, after so many nodes. The limits are looked at once its kind is read.
    #[cycle(node_reading)]
    fn node(self, d: usize, used: usize, at: usize) -> Result<NodesRead, Refusal>
        ensures { (ps : List Form) → length ps ≡ self.entry.count → numbered result ≡ tallied (node d self.entry.certificate.now ps used at) }
    {
        let (kind, a) = numbers::read_from(
            self.certificate,
            at,
            Node::Rule as usize,
            Node::Hypothesis as usize,
        )?;
        if 0 < d && used < NODES {
            return self.rest(d - 1, used, kind, a);
        }
        Err(Refusal(Why::CertificateOver, at))
    }

    // What follows a node's kind.
    #[cycle(node_reading)]
    fn rest(self, d: usize, used: usize, kind: usize, a: usize) -> Result<NodesRead, Refusal>
        requires { (used < 7168) × (kind ≤ 2) }
        ensures { (ps : List Form) (at : ℕ) → length ps ≡ self.entry.count → numbered result ≡ tallied (rest_by (node d self.entry.certificate.now ps) self.entry.certificate.now ps used at kind a) }
    {
        match Node::of(kind) {
            Node::Rule => self.rule(used, a),
            Node::Sequence => self.two(d, used, a),
            Node::Hypothesis => self.under(d, used, a),
        }
    }

    // Two nodes, one after the other.
    #[cycle(node_reading)]
    fn two(self, d: usize, used: usize, a: usize) -> Result<NodesRead, Refusal>
        requires { used < 7168 }
        ensures { (ps : List Form) → length ps ≡ self.entry.count → numbered result ≡ tallied (two_at d self.entry.certificate.now a ps used) }
    {
        let first = self.node(d, used + 1, a)?;
        let second = self.node(d, first.nodes, first.next)?;
        Ok(NodesRead {
            nodes: second.nodes,
            rules: Inferences(first.rules.0 + second.rules.0),
            next: second.next,
        })
    }

    // A hypothesis, then a node.
    #[cycle(node_reading)]
    fn under(self, d: usize, used: usize, a: usize) -> Result<NodesRead, Refusal>
        requires { used < 7168 }
        ensures { (ps : List Form) → length ps ≡ self.entry.count → numbered result ≡ tallied (under_at d self.entry.certificate.now a ps used) }
    {
        let (hypothesis, next) = numbers::read_below(self.certificate, a, self.count)?;
        self.node(d, used + 1, next)
    }

    // A rule and its arguments.
    fn rule(self, used: usize, a: usize) -> Result<NodesRead, Refusal>
        requires { used < 7168 }
        ensures { (ps : List Form) (at : ℕ) → length ps ≡ self.entry.count → numbered result ≡ tallied (rule_node self.entry.certificate.now ps used at a) }
    {
        let (rule, next) = numbers::read_from(
            self.certificate,
            a,
            Rule::Claim as usize,
            Rule::FalseElim as usize,
        )?;
        let end = self.references(language::arguments(rule), next)?;
        Ok(NodesRead {
            nodes: used + 1,
            rules: Inferences(1),
            next: end,
        })
    }

    // k references in a row, and the place past them.
    fn references(self, k: usize, at: usize) -> Result<usize, Refusal>
        ensures { (ps : List Form) → length ps ≡ self.entry.count → ends result ≡ closed (times k (λ acc. reference self.entry.certificate.now ps) [] at) }
    {
        let mut next = at;
        for _ in 0..k {
            next = numbers::read_below(self.certificate, next, self.count)?.1;
        }
        Ok(next)
    }
}

// A refusal where it is met in a certificate's bytes, which have none below 3: 3 to 7 are 35 to 39.
pub(super) fn own(r: Refusal) -> Refusal
    ensures { (3 ≤ number_of r.0 → number_of result.0 ≡ own_number (number_of r.0)) × (result.1 ≡ r.1) }
{
    let why = match r.0 {
        Why::BytesEnd => Why::BytesEndInCertificate,
        Why::NotShortest => Why::NotShortestInCertificate,
        Why::OutOfRange => Why::OutOfRangeInCertificate,
        Why::WrongReference => Why::WrongReferenceInCertificate,
        Why::BytesAfter => Why::BytesAfterInCertificate,
        other => other,
    };
    Refusal(why, r.1)
}
