// Values and bindings, in one lent buffer of numbers: four numbers a binding, which are its value's kind and two parts, and the next binding.
// Bindings are chains, the innermost first. A chain starts at 0 where nothing is bound, else at one more than a binding's number.
// A function or method keeps the chain where it was written; a fix is a binding whose value is a closure over that binding itself.
// When a value and a chain stand for the language's values and bindings is said in specs/Stands.antt.
#![tactic(auto)]

ghost use Rattle.std.specs.Prelude.{◌≡◌, ℕ, ◌+◌, ◌*◌, ◌<◌, ◌≤◌, ◌^◌, [], ◌∷◌, length};
ghost use Rattle.std.proofs.lemmas.List.Edits.{sets};
ghost use Rattle.bindings.specs.Numbers.{numbers, numbers_of, Small, SmallValue, value_of, binding_at, found};
ghost use Rattle.bindings.specs.Stands.{Linked, under};

mod tag;

// The numbers of a stored binding: its value's kind and two parts, and the next binding.
const WIDTH: usize = 4;

// The phrase of a function or method, and the chain of the bindings where it was written.
#[derive(Clone, Copy)]
pub struct Closure {
    pub phrase: usize,
    pub env: usize,
}

// A proposition by its number in the table, a constructor, a rule, a function or a method.
#[derive(Clone, Copy)]
pub enum Value {
    Prop(usize),
    Constructor(usize),
    Rule(usize),
    Function(Closure),
    Method(Closure),
}

// A value that is bound, and the chain it is bound on.
#[derive(Drop)]
pub struct Binding {
    pub value: Value,
    pub next: usize,
}

// The k-th value along a chain, if so many are bound; the innermost is 0.
pub fn lookup(t: &[u32], env: usize, k: usize) -> Option<Value>
    requires { Linked t.now env }
    ensures { result ≡ found t.now env k }
{
    let mut e = env;
    let mut i = k;
    while 0 < e {
        let b = load(t, e - 1);
        if i == 0 {
            return Some(b.value);
        }
        e = b.next;
        i -= 1;
    }
    None
}

// The binding stored as number n. There must be room for it.
pub fn push(t: &mut [u32], n: usize, b: Binding)
    requires { (4 * n + 4 ≤ length t.old) × Small b }
    ensures { t.new ≡ sets t.old (4 * n) (numbers b) }
{
    let Binding { value, next } = b;
    let (kind, one, two) = parts(value);
    words::put_all(t, WIDTH * n, &[kind, one, two, next]);
}

// Binding number j.
pub fn load(t: &[u32], j: usize) -> Binding
    requires { 4 * j + 4 ≤ length t.now }
    ensures { result ≡ binding_at t.now j }
{
    let kind = words::at(t, WIDTH * j);
    let a = words::at(t, WIDTH * j + 1);
    let b = words::at(t, WIDTH * j + 2);
    let next = words::at(t, WIDTH * j + 3);
    let value = value_of(kind, a, b);
    Binding { value, next }
}

// The chain that a value's arguments are bound on: a closure's own, else the empty one.
pub fn scope(v: Value) -> usize
    ensures { result ≡ under v }
{
    match v {
        Value::Prop(_) | Value::Constructor(_) | Value::Rule(_) => 0,
        Value::Function(f) | Value::Method(f) => f.env,
    }
}

// A value's kind and two parts, which fit a cell.
fn parts(v: Value) -> (usize, usize, usize)
    requires { SmallValue v }
    ensures same { (next : ℕ) → result.0 ∷ result.1 ∷ result.2 ∷ next ∷ [] ≡ numbers_of v next }
    ensures small { (result.0 < 2 ^ 32) × (result.1 < 2 ^ 32) × (result.2 < 2 ^ 32) }
{
    match v {
        Value::Prop(p) => (tag::PROP, p, 0),
        Value::Constructor(c) => (tag::CONSTRUCTOR, c, 0),
        Value::Rule(r) => (tag::RULE, r, 0),
        Value::Function(f) => (tag::FUNCTION, f.phrase, f.env),
        Value::Method(m) => (tag::METHOD, m.phrase, m.env),
    }
}

// The value of a kind and two parts.
fn value_of(kind: usize, a: usize, b: usize) -> Value
    ensures { result ≡ value_of kind a b }
{
    match kind {
        tag::PROP => Value::Prop(a),
        tag::CONSTRUCTOR => Value::Constructor(a),
        tag::RULE => Value::Rule(a),
        tag::FUNCTION => Value::Function(Closure { phrase: a, env: b }),
        _ => Value::Method(Closure { phrase: a, env: b }),
    }
}
