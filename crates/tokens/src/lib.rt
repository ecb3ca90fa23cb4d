// A plain proof as tokens in a lent buffer, in prefix order: 0, the rule and its arguments; 1 and two proofs; 2, the hypothesis and a proof.
// Propositions are numbers of the table of formed ones, so that what is written stays true while the table grows (proofs/Growth.antt).
// Each function writes from token n on and answers how many tokens there then are.
#![tactic(auto)]

ghost use Rattle.std.specs.Prelude.{◌≡◌, [], ◌∷◌, ◌+◌, ◌<◌, ◌≤◌, ◌^◌, length};
ghost use Rattle.std.proofs.lemmas.List.Edits.{sets};

use language::Node;

// The 1 before two proofs.
pub fn sequence(t: &mut [u32], n: usize) -> usize
    requires { n + 1 ≤ length t.old }
    ensures { (result ≡ n + 1) × (t.new ≡ sets t.old n (1 ∷ [])) }
{
    words::put(t, n, Node::Sequence as usize);
    n + 1
}

// The 2 and the hypothesis p before the proof under it.
pub fn hypothesis(t: &mut [u32], n: usize, p: usize) -> usize
    requires { (n + 2 ≤ length t.old) × (p < 2 ^ 32) }
    ensures { (result ≡ n + 2) × (t.new ≡ sets t.old n (2 ∷ p ∷ [])) }
{
    words::put_all(t, n, &[Node::Hypothesis as usize, p]);
    n + 2
}

// The 0, the rule r and its arguments, the first so many of x, y and z; those that it does not take lie past the tokens.
pub fn rule(t: &mut [u32], n: usize, r: usize, count: usize, x: usize, y: usize, z: usize) -> usize
    requires { (n + 5 ≤ length t.old) × (count ≤ 3) × (r < 2 ^ 32) × (x < 2 ^ 32) × (y < 2 ^ 32) × (z < 2 ^ 32) }
    ensures { (result ≡ n + 2 + count) × (t.new ≡ sets t.old n (0 ∷ r ∷ x ∷ y ∷ z ∷ [])) }
{
    words::put_all(t, n, &[Node::Rule as usize, r, x, y, z]);
    n + 2 + count
}
