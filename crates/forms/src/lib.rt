// The table of formed propositions: one lent buffer, one word a record, kind + 8 · left + 131,072 · right.
// The words in use are the first n; true stands at 0 and false at 1. A part is an earlier record's number.
// No word is appended twice, so two numbers are equal exactly when the propositions have one shape (proofs/Trees.antt).
// Whoever forms a proposition gets its number and the count of words then in use.
#![tactic(auto)]

ghost use Rattle.std.specs.Prelude.{◌≡◌, ◌<◌, ◌^◌, length, take};
ghost use Rattle.std.proofs.lemmas.List.Edits.{sets};
ghost use Rattle.language.specs.Form.{conj, disj, cond, bicond};
ghost use Rattle.forms.specs.Word.{word, kind, left, right, code, atom_r, neg_r, bin_r};
ghost use Rattle.forms.specs.Interned.{position, Interned, first};

pub mod kind;

pub use kind::Kind;

// A proposition's number, and how many words are then in use.
#[derive(Drop)]
pub struct Formed {
    pub at: usize,
    pub size: usize,
}

// The number of true.
pub const TRUE: usize = 0;

// The number of false.
pub const FALSE: usize = 1;

// The table at its start: the words of true and false. The answer is how many words are in use.
pub fn start(t: &mut [u32]) -> usize
    ensures { (result ≡ length first) × (t.new ≡ sets t.old 0 first) }
{
    words::put(t, TRUE, Kind::True as usize);
    words::put(t, FALSE, Kind::False as usize);
    2
}

// The atom a.
pub fn atom(t: &mut [u32], n: usize, a: usize) -> Formed
    requires { (n < length t.old) × (a < 16384) }
    ensures { Interned (code (atom_r a)) n t.old t.new result }
{
    intern(t, n, Kind::Atom.word(a, 0))
}

// Not p.
pub fn negation(t: &mut [u32], n: usize, p: usize) -> Formed
    requires { (n < length t.old) × (p < 16384) }
    ensures { Interned (code (neg_r p)) n t.old t.new result }
{
    intern(t, n, Kind::Not.word(p, 0))
}

// p and q.
pub fn conjunction(t: &mut [u32], n: usize, p: usize, q: usize) -> Formed
    requires { (n < length t.old) × (p < 16384) × (q < 16384) }
    ensures { Interned (code (bin_r conj p q)) n t.old t.new result }
{
    intern(t, n, Kind::And.word(p, q))
}

// p or q.
pub fn disjunction(t: &mut [u32], n: usize, p: usize, q: usize) -> Formed
    requires { (n < length t.old) × (p < 16384) × (q < 16384) }
    ensures { Interned (code (bin_r disj p q)) n t.old t.new result }
{
    intern(t, n, Kind::Or.word(p, q))
}

// p if-then q.
pub fn conditional(t: &mut [u32], n: usize, p: usize, q: usize) -> Formed
    requires { (n < length t.old) × (p < 16384) × (q < 16384) }
    ensures { Interned (code (bin_r cond p q)) n t.old t.new result }
{
    intern(t, n, Kind::If.word(p, q))
}

// p iff q.
pub fn biconditional(t: &mut [u32], n: usize, p: usize, q: usize) -> Formed
    requires { (n < length t.old) × (p < 16384) × (q < 16384) }
    ensures { Interned (code (bin_r bicond p q)) n t.old t.new result }
{
    intern(t, n, Kind::Iff.word(p, q))
}

// The record of a kind and two parts, each of which fits its bits.
pub fn form(t: &mut [u32], n: usize, k: usize, l: usize, r: usize) -> Formed
    requires { (n < length t.old) × (k < 8) × (l < 16384) × (r < 16384) }
    ensures { Interned (word k l r) n t.old t.new result }
{
    intern(t, n, word(k, l, r))
}

// The word's number where it is among the first n, else n, with the word appended. There must be room for it.
pub fn intern(t: &mut [u32], n: usize, w: usize) -> Formed
    requires { (n < length t.old) × (w < 2 ^ 32) }
    ensures { Interned w n t.old t.new result }
{
    let i = find(t, n, w);
    if i < n {
        return Formed { at: i, size: n };
    }
    words::put(t, n, w);
    Formed { at: n, size: n + 1 }
}

// Where the word stands among the first n; their count where it does not.
pub fn find(t: &[u32], n: usize, w: usize) -> usize
    ensures { result ≡ position w (take n t.now) }
{
    let end = n.min(t.len());
    for i in 0..end {
        if words::at(t, i) == w {
            return i;
        }
    }
    end
}

// The word of a kind and two parts. Each must fit its bits.
pub fn word(k: usize, l: usize, r: usize) -> usize
    requires { (k < 8) × (l < 16384) × (r < 16384) }
    ensures { (result ≡ word k l r) × (result < 2 ^ 32) }
{
    k + 8 * l + 131072 * r
}

// A word's kind.
pub fn kind_of(w: usize) -> usize
    ensures { result ≡ kind w }
{
    w % 8
}

// A word's left part: an atom's number, or the number of a proposition.
pub fn left_of(w: usize) -> usize
    ensures { result ≡ left w }
{
    w / 8 % 16384
}

// A word's right part.
pub fn right_of(w: usize) -> usize
    ensures { result ≡ right w }
{
    w / 131072
}
