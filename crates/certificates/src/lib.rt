// A certificate's bytes, from a proof in tokens over the table of formed propositions.
// What the proof needs is listed by first need, parts before the whole, left first, each number once, the conclusion last.
// Then the certificate is measured, and written only where the output has room for all of it.
// What is written is the definitions' `certificate`; the length and the inferences are its length and the proof's rules.
#![tactic(auto)]

ghost use Rattle.std.specs.Prelude.{◌≡◌, ◌+◌, ◌<◌, ◌≤◌, length, get_or, set};
ghost use Rattle.language.specs.Numbers.{groups};
ghost use Rattle.certificates.specs.Marks.{Listable, Lists};
ghost use Rattle.certificates.specs.Emitted.{Fits, Emitted, placed, Placed, word_bytes, PartsPlaced, head_by, head_bytes, HeadFits};
ghost use Rattle.certificates.specs.Told.{Telling, Needs, Recording, Records, Proving, Proofs, Emitting, Emits};
ghost use Rattle.certificates.specs.Certified.{Writing, Orders, Writes};

mod sink;

use forms::Kind;
use language::{Inferences, Node};
use sink::{Measure, Sink, Writer};

// A certificate that is written: its length and its inferences.
#[derive(Drop)]
pub struct Written {
    pub length: usize,
    pub inferences: Inferences,
}

// How many propositions are listed, and the proof's inferences.
#[derive(Drop)]
struct Needed {
    count: usize,
    rules: Inferences,
}

// How a node begins: with so many tokens, which so many propositions follow; and its own inferences, one or none.
#[derive(Drop)]
struct Head {
    width: usize,
    names: usize,
    rules: Inferences,
}

// The certificate of the proof that the first m tokens tell, over the first n words of the table, in front of the output.
// None says that the output is too short for it, and untouched.
// The listing is scratch: what it holds afterwards is not fixed, and its caller wipes it.
pub fn write(
    forms: &[u32],
    n: usize,
    tokens: &[u32],
    m: usize,
    conclusion: usize,
    listing: &mut [u32],
    out: &mut [u8],
) -> Option<Written>
    requires { Writing forms.now n tokens.now m conclusion listing.old }
    ensures { Writes forms.now n tokens.now m conclusion listing.old out.old result out.new }
{
    let needed = order(listing, forms, n, tokens, m, conclusion);
    let mut measure = Measure { length: 0 };
    emit(
        &mut measure,
        listing,
        needed.count,
        forms,
        n,
        tokens,
        m,
        conclusion,
    );
    let length = measure.length;
    if out.len() < length {
        return None;
    }
    let mut writer = Writer { out, at: 0 };
    emit(
        &mut writer,
        listing,
        needed.count,
        forms,
        n,
        tokens,
        m,
        conclusion,
    );
    Some(Written {
        length,
        inferences: needed.rules,
    })
}

// The listing of a proof and its conclusion.
fn order(
    listing: &mut [u32],
    forms: &[u32],
    n: usize,
    tokens: &[u32],
    m: usize,
    conclusion: usize,
) -> Needed
    requires { Writing forms.now n tokens.now m conclusion listing.old }
    ensures { Orders forms.now n tokens.now m conclusion listing.old listing.new result }
{
    words::wipe(listing, n);
    let needed = list_needed(listing, forms, n, tokens, m);
    let count = list(listing, forms, n, needed.count, conclusion);
    Needed {
        count,
        rules: needed.rules,
    }
}

// The listing of what the first m tokens need, in their order. `left` propositions follow before the next node begins.
fn list_needed(listing: &mut [u32], forms: &[u32], n: usize, tokens: &[u32], m: usize) -> Needed
    requires { Telling forms.now n tokens.now m listing.old }
    ensures { Needs forms.now n tokens.now m listing.old listing.new result }
{
    let mut i = 0;
    let mut left = 0;
    let mut count = 0;
    let mut rules = Inferences(0);
    while i < m {
        if 0 < left {
            count = list(listing, forms, n, count, words::at(tokens, i));
            left -= 1;
            i += 1;
        } else {
            let head = head_of(tokens, i);
            left = head.names;
            rules = Inferences(rules.0 + head.rules.0);
            i += head.width;
        }
    }
    Needed { count, rules }
}

// The listing of k propositions grown by p, its parts first, left first, where it is not listed yet. The answer is the count then.
fn list(listing: &mut [u32], forms: &[u32], n: usize, k: usize, p: usize) -> usize
    requires { Listable forms.now n p listing.old k }
    ensures { Lists forms.now n p k listing.old listing.new result }
{
    if 0 < words::at(listing, p) {
        return k;
    }
    let w = words::at(forms, p);
    match Kind::of_word(w) {
        Kind::Atom | Kind::True | Kind::False => enter(listing, n, k, p),
        Kind::Not => {
            let first = list(listing, forms, n, k, forms::left_of(w));
            enter(listing, n, first, p)
        }
        Kind::And | Kind::Or | Kind::If | Kind::Iff => {
            let first = list(listing, forms, n, k, forms::left_of(w));
            let second = list(listing, forms, n, first, forms::right_of(w));
            enter(listing, n, second, p)
        }
    }
}

// The number p in the next place, k.
fn enter(listing: &mut [u32], n: usize, k: usize, p: usize) -> usize
    requires { (k < n) × (n ≤ 16384) × (p < n) }
    ensures { (result ≡ k + 1) × (listing.new ≡ set (set listing.old p (k + 1)) (n + k) p) }
{
    words::put(listing, p, k + 1);
    words::put(listing, n + k, p);
    k + 1
}

// How the node at a place of the tokens begins.
fn head_of(tokens: &[u32], i: usize) -> Head
    requires { i ≤ 16384 }
    ensures { (result ≡ head_by (get_or tokens.now i 0) (get_or tokens.now (i + 1) 0)) × (1 ≤ result.width) × (result.width ≤ 2) × (result.rules.0 ≤ 1) }
{
    match Node::of(words::at(tokens, i)) {
        Node::Rule => Head {
            width: 2,
            names: language::arguments(words::at(tokens, i + 1)),
            rules: Inferences(1),
        },
        Node::Sequence => Head {
            width: 1,
            names: 0,
            rules: Inferences(0),
        },
        Node::Hypothesis => Head {
            width: 1,
            names: 1,
            rules: Inferences(0),
        },
    }
}

// The whole certificate over a listing of k propositions, into a sink at its start.
fn emit<S: Sink>(
    sink: &mut S,
    listing: &[u32],
    k: usize,
    forms: &[u32],
    n: usize,
    tokens: &[u32],
    m: usize,
    conclusion: usize,
)
    requires { Emitting forms.now n tokens.now m conclusion listing.now k S.writes (S.bytes sink.old) × (S.place sink.old ≡ 0) }
    ensures same { S.name sink.new ≡ S.name sink.old }
    ensures emitted { Emits forms.now n tokens.now m conclusion listing.now k S.writes (S.bytes sink.old) (S.bytes sink.new) (S.place sink.new) }
{
    sink.number(k);
    emit_records(sink, listing, k, forms, n);
    emit_proof(sink, listing, tokens, m);
    emit_place(sink, listing, conclusion);
}

// The records of the k propositions listed.
fn emit_records<S: Sink>(sink: &mut S, listing: &[u32], k: usize, forms: &[u32], n: usize)
    requires { Recording forms.now n listing.now k S.writes (S.place sink.old) (S.bytes sink.old) }
    ensures same { S.name sink.new ≡ S.name sink.old }
    ensures emitted { Records forms.now n listing.now k S.writes (S.place sink.old) (S.bytes sink.old) (S.bytes sink.new) (S.place sink.new) }
{
    for i in 0..k {
        let p = words::at(listing, n + i);
        emit_record(sink, listing, words::at(forms, p));
    }
}

// The record that a word says: its kind, then an atom's number or its parts by place.
fn emit_record<S: Sink>(sink: &mut S, listing: &[u32], w: usize)
    requires { PartsPlaced listing.now w × Fits S.writes (S.place sink.old) (word_bytes listing.now w) (S.bytes sink.old) × (S.place sink.old ≤ 1000000) }
    ensures same { S.name sink.new ≡ S.name sink.old }
    ensures emitted { Emitted S.writes (S.bytes sink.old) (S.place sink.old) (word_bytes listing.now w) (S.bytes sink.new) (S.place sink.new) }
{
    let kind = Kind::of_word(w);
    sink.number(kind.number());
    match kind {
        Kind::Atom => sink.number(forms::left_of(w)),
        Kind::True | Kind::False => {}
        Kind::Not => emit_place(sink, listing, forms::left_of(w)),
        Kind::And | Kind::Or | Kind::If | Kind::Iff => {
            emit_place(sink, listing, forms::left_of(w));
            emit_place(sink, listing, forms::right_of(w));
        }
    }
}

// The proof that the first m tokens tell. `left` propositions follow before the next node begins.
fn emit_proof<S: Sink>(sink: &mut S, listing: &[u32], tokens: &[u32], m: usize)
    requires { Proving tokens.now m listing.now S.writes (S.place sink.old) (S.bytes sink.old) }
    ensures same { S.name sink.new ≡ S.name sink.old }
    ensures emitted { Proofs tokens.now m listing.now S.writes (S.place sink.old) (S.bytes sink.old) (S.bytes sink.new) (S.place sink.new) }
{
    let mut i = 0;
    let mut left = 0;
    while i < m {
        if 0 < left {
            emit_place(sink, listing, words::at(tokens, i));
            left -= 1;
            i += 1;
        } else {
            let head = head_of(tokens, i);
            emit_head(sink, tokens, i);
            left = head.names;
            i += head.width;
        }
    }
}

// The beginning of the node at a place of the tokens: its kind, and a rule's number.
fn emit_head<S: Sink>(sink: &mut S, tokens: &[u32], i: usize)
    requires { HeadFits (get_or tokens.now i 0) (get_or tokens.now (i + 1) 0) S.writes (S.place sink.old) (S.bytes sink.old) × (i ≤ 16384) × (S.place sink.old ≤ 1000000) }
    ensures same { S.name sink.new ≡ S.name sink.old }
    ensures emitted { Emitted S.writes (S.bytes sink.old) (S.place sink.old) (head_bytes (get_or tokens.now i 0) (get_or tokens.now (i + 1) 0)) (S.bytes sink.new) (S.place sink.new) }
{
    let token = words::at(tokens, i);
    sink.number(token);
    if token == Node::Rule as usize {
        sink.number(words::at(tokens, i + 1));
    }
}

// The place of the proposition p in the listing.
fn emit_place<S: Sink>(sink: &mut S, listing: &[u32], p: usize)
    requires { Placed listing.now p × Fits S.writes (S.place sink.old) (placed listing.now p) (S.bytes sink.old) × (S.place sink.old ≤ 1000010) }
    ensures same { S.name sink.new ≡ S.name sink.old }
    ensures emitted { Emitted S.writes (S.bytes sink.old) (S.place sink.old) (placed listing.now p) (S.bytes sink.new) (S.place sink.new) }
{
    sink.number(words::at(listing, p) - 1);
}
