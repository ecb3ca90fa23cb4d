// Expressions evaluated over lent buffers: the table of formed propositions and the bindings change, phrases and patterns are only read.
// On entry the budget is checked first, then the nesting. What an expression gives, with what is left of the budget, is what the language's `evaluate` gives,
// refusals with number and place included. The table and the bindings only grow, by at most four for each evaluation begun, so that nothing is
// refused for want of room (specs/Meets.antt).
#![tactic(auto)]

ghost use Rattle.std.specs.Prelude.{◌≡◌, Err, ℕ, ◌+◌, ◌-◌, ◌*◌, ◌<◌, ◌≤◌, length};
ghost use Rattle.std.proofs.lemmas.List.Edits.{sets};
ghost use Rattle.language.specs.Run.{takes as arity};
ghost use Rattle.records.specs.Rows.{sort_of};
ghost use Rattle.bindings.specs.Numbers.{found, binding_at, numbers_of, closure_of, Small};
ghost use Rattle.bindings.specs.Stands.{closed, Linked};
ghost use Rattle.bindings.specs.declared.Value.TheVariants.{Constructor};
ghost use Rattle.patterns.specs.Parts.{numbers};
ghost use Rattle.patterns.specs.Fitting.{ChosenSo};
ghost use Rattle.expressions.specs.Machine.{reads, machine, Same, out_of, args_of, counters, kind, two, selfed, variable_of, part_of, chained, outermost, Made};
ghost use Rattle.expressions.specs.Asked.{Ready, Arglist, Applicable, Matching, Bindable};
ghost use Rattle.expressions.specs.Meets.{Evaluated, Stepped, Listed, Called, Selected};
ghost use Rattle.language.specs.declared.refusal.Refusal.{Refusal};

use bindings::{Binding, Closure, Value};
use language::{Refusal, Remaining, Why};
use patterns::Parts;
use records::{PhraseKind, rows};

// The constructor not, the one that takes one argument.
const NOT: usize = 0;

// How many propositions are formed, how many bindings are made, and what is left of the budget.
#[derive(Clone, Copy)]
pub struct State {
    pub props: usize,
    pub bindings: usize,
    pub remaining: Remaining,
}

// What an evaluation goes over: the table of formed propositions and the bindings, with how many there are and what is left of the budget; phrases and patterns.
#[derive(Drop)]
pub struct Machine<'a> {
    pub forms: &'a mut [u32],
    pub binds: &'a mut [u32],
    pub state: State,
    pub phrases: &'a [u32],
    pub patterns: &'a [u32],
}

impl<'a> Machine<'a> {
    // The value of expression k in the bindings at env, with so much nesting left; or the refusal, and then the counts are as they were.
    pub fn evaluate(&mut self, env: usize, k: usize, depth: usize) -> Result<Value, Refusal>
        requires { Ready (reads self.old) (machine self.old) env k 0 0 }
        ensures same { Same self.old self.new }
        ensures evaluated { Evaluated (reads self.old) depth env k (machine self.old) (out_of (machine self.new) result) }
        ensures counts { (r : Refusal) → result ≡ Err r → self.new.state ≡ self.old.state }
    {
        let counts = self.state;
        match self.enter(env, k, depth) {
            Ok(v) => Ok(v),
            Err(r) => {
                self.state = counts;
                Err(r)
            }
        }
    }

    // The same, but for the counts after a refusal.
    #[cycle(evaluation)]
    fn enter(&mut self, env: usize, k: usize, depth: usize) -> Result<Value, Refusal>
        requires { Ready (reads self.old) (machine self.old) env k 0 0 }
        ensures same { Same self.old self.new }
        ensures evaluated { Evaluated (reads self.old) depth env k (machine self.old) (out_of (machine self.new) result) }
    {
        let remaining = self.state.remaining.0;
        if remaining == 0 {
            return Err(Refusal(Why::BudgetSpent, k));
        }
        if depth == 0 {
            return Err(Refusal(Why::TooDeep, k));
        }
        self.state.remaining = Remaining(remaining - 1);
        match PhraseKind::of(words::at(self.phrases, rows::PHRASE * k)) {
            Some(PhraseKind::Call) => self.call(env, k, depth - 1),
            Some(PhraseKind::Let) => self.bind(env, k, depth - 1),
            Some(PhraseKind::Match) => self.matched(env, k, depth - 1),
            _ => self.plain(env, k),
        }
    }

    // A call: the operator, the arguments left to right, then what the operator does with them.
    #[cycle(evaluation)]
    fn call(&mut self, env: usize, k: usize, depth: usize) -> Result<Value, Refusal>
        requires { Ready (reads self.old) (machine self.old) env k 4 4 × (kind self.old.phrases.now k ≡ 6) }
        ensures same { Same self.old self.new }
        ensures stepped { Stepped (reads self.old) depth env k (machine self.old) (out_of (machine self.new) result) }
    {
        let operator = words::at(self.phrases, rows::PHRASE * k + 1);
        let count = words::at(self.phrases, rows::PHRASE * k + 2);
        let v = self.enter(env, operator, depth)?;
        let onto = bindings::scope(v);
        let from = rows::PHRASE * k + 3;
        let e = self.arguments(env, onto, from, count, depth)?;
        self.apply(v, e, count, k, depth)
    }

    // The arguments whose phrases stand from a place on, so many of them, each bound on top of those before it: where their chain starts.
    #[cycle(evaluation)]
    fn arguments(
        &mut self,
        env: usize,
        onto: usize,
        from: usize,
        left: usize,
        depth: usize,
    ) -> Result<usize, Refusal>
        requires { Arglist (reads self.old) (machine self.old) env onto from left }
        ensures same { Same self.old self.new }
        ensures listed { Listed (reads self.old) depth env onto from left (machine self.old) (args_of (machine self.new) result) }
    {
        if left == 0 {
            return Ok(onto);
        }
        let k = words::at(self.phrases, from);
        let v = self.enter(env, k, depth)?;
        self.state = bind_value(self.binds, self.state, v, onto);
        let top = self.state.bindings;
        self.arguments(env, top, from + 1, left - 1, depth)
    }

    // What the operator v makes of n arguments that are bound at e.
    #[cycle(evaluation)]
    fn apply(
        &mut self,
        v: Value,
        e: usize,
        n: usize,
        k: usize,
        depth: usize,
    ) -> Result<Value, Refusal>
        requires { Applicable (reads self.old) (machine self.old) v e n }
        ensures same { Same self.old self.new }
        ensures called { Called (reads self.old) depth v e n k (machine self.old) (out_of (machine self.new) result) }
    {
        match v {
            Value::Constructor(c) => self.construct(c, e, n, k),
            Value::Function(f) => {
                let row = rows::PHRASE * f.phrase;
                if words::at(self.phrases, row + 1) != n {
                    return Err(Refusal(Why::WrongCount, k));
                }
                let body = words::at(self.phrases, row + 2);
                self.enter(e, body, depth)
            }
            Value::Prop(_) | Value::Rule(_) | Value::Method(_) => Err(Refusal(Why::WrongKind, k)),
        }
    }

    // A let: the value of the first, then the second with it bound.
    #[cycle(evaluation)]
    fn bind(&mut self, env: usize, k: usize, depth: usize) -> Result<Value, Refusal>
        requires { Ready (reads self.old) (machine self.old) env k 4 4 × (kind self.old.phrases.now k ≡ 7) }
        ensures same { Same self.old self.new }
        ensures stepped { Stepped (reads self.old) depth env k (machine self.old) (out_of (machine self.new) result) }
    {
        let first = words::at(self.phrases, rows::PHRASE * k + 1);
        let second = words::at(self.phrases, rows::PHRASE * k + 2);
        let v = self.enter(env, first, depth)?;
        self.state = bind_value(self.binds, self.state, v, env);
        let top = self.state.bindings;
        self.enter(top, second, depth)
    }

    // A match: the value of the first phrase must be a proposition; the first clause whose pattern fits is run.
    #[cycle(evaluation)]
    fn matched(&mut self, env: usize, k: usize, depth: usize) -> Result<Value, Refusal>
        requires { Ready (reads self.old) (machine self.old) env k 4 4 × (kind self.old.phrases.now k ≡ 9) }
        ensures same { Same self.old self.new }
        ensures stepped { Stepped (reads self.old) depth env k (machine self.old) (out_of (machine self.new) result) }
    {
        let subject = words::at(self.phrases, rows::PHRASE * k + 1);
        let v = self.enter(env, subject, depth)?;
        let Value::Prop(p) = v else {
            return Err(Refusal(Why::WrongKind, k));
        };
        self.clause(env, k, p, depth)
    }

    // The first clause of the match k whose pattern fits the proposition p, run with what the pattern binds.
    #[cycle(evaluation)]
    fn clause(&mut self, env: usize, k: usize, p: usize, depth: usize) -> Result<Value, Refusal>
        requires { Matching (reads self.old) (machine self.old) env k p }
        ensures same { Same self.old self.new }
        ensures selected { Selected (reads self.old) depth env k p (machine self.old) (out_of (machine self.new) result) }
    {
        let Some((body, parts)) = self.chosen(k, p) else {
            return Err(Refusal(Why::NoClause, k));
        };
        let inner = bind_parts(self.binds, self.state.bindings, env, parts);
        self.state.bindings += parts.count;
        self.enter(inner, body, depth)
    }

    // The first clause of the match k whose pattern fits the proposition p: its body and what the pattern binds.
    fn chosen(&self, k: usize, p: usize) -> Option<(usize, Parts)>
        requires { (env : ℕ) × Matching (reads self.now) (machine self.now) env k p }
        ensures { ChosenSo self.now.forms.now self.now.patterns.now self.now.phrases.now (12 * k + 3) (two self.now.phrases.now k) p result }
    {
        let count = words::at(self.phrases, rows::PHRASE * k + 2);
        patterns::choose(
            self.forms,
            self.patterns,
            self.phrases,
            rows::PHRASE * k + 3,
            count,
            p,
        )
    }

    // An expression that runs no other.
    fn plain(&mut self, env: usize, k: usize) -> Result<Value, Refusal>
        requires ready { Ready (reads self.old) (machine self.old) env k 4 4 }
        requires runs_no_other { (kind self.old.phrases.now k ≡ 6 → ⊥) × (kind self.old.phrases.now k ≡ 7 → ⊥) × (kind self.old.phrases.now k ≡ 9 → ⊥) }
        ensures same { Same self.old self.new }
        ensures stepped { (d : ℕ) → Stepped (reads self.old) d env k (machine self.old) (out_of (machine self.new) result) }
    {
        let kind = words::at(self.phrases, rows::PHRASE * k);
        let a = words::at(self.phrases, rows::PHRASE * k + 1);
        match PhraseKind::of(kind) {
            Some(PhraseKind::Proposition) => Ok(Value::Prop(a)),
            Some(PhraseKind::Variable) => self.variable(env, a, k),
            Some(PhraseKind::Constructor) => Ok(Value::Constructor(a)),
            Some(PhraseKind::Rule) => Ok(Value::Rule(a)),
            Some(PhraseKind::Fix) => Ok(self.fix(env, a)),
            _ => Ok(closure(kind, k, env)),
        }
    }

    // The value of variable i in the bindings at env.
    fn variable(&self, env: usize, i: usize, k: usize) -> Result<Value, Refusal>
        requires { Linked self.now.binds.now env }
        ensures { result ≡ variable_of k (found self.now.binds.now env i) }
    {
        bindings::lookup(self.binds, env, i).ok_or(Refusal(Why::NoBinding, k))
    }

    // The closure of phrase a, bound to itself.
    fn fix(&mut self, env: usize, a: usize) -> Value
        requires { (4 * self.old.state.bindings + 4 ≤ length self.old.binds.now) × (length self.old.binds.now ≤ 16384) × (env ≤ self.old.state.bindings) × (a < 16384) }
        ensures same { Same self.old self.new × (self.new.forms.now ≡ self.old.forms.now) }
        ensures bound { let n = self.old.state.bindings in let v = selfed self.old.phrases.now a n in
            (result ≡ v) × (self.new.state ≡ counters self.old.state.props (n + 1) self.old.state.remaining.0) × (self.new.binds.now ≡ sets self.old.binds.now (4 * n) (numbers_of v env)) }
    {
        let kind = words::at(self.phrases, rows::PHRASE * a);
        let value = closure(kind, a, self.state.bindings + 1);
        self.state = bind_value(self.binds, self.state, value, env);
        value
    }

    // What constructor c makes of n arguments that are bound at e.
    fn construct(&mut self, c: usize, e: usize, n: usize, k: usize) -> Result<Value, Refusal>
        requires { Applicable (reads self.old) (machine self.old) (Constructor c) e n }
        ensures same { Same self.old self.new }
        ensures called { (d : ℕ) → Called (reads self.old) d (Constructor c) e n k (machine self.old) (out_of (machine self.new) result) }
    {
        if n != takes(c) {
            return Err(Refusal(Why::WrongCount, k));
        }
        let last = self.binding(e);
        let q = part(last.value).ok_or(Refusal(Why::WrongKind, k))?;
        if c == NOT {
            return Ok(self.formed(c, q, 0));
        }
        let first = self.binding(last.next);
        let p = part(first.value).ok_or(Refusal(Why::WrongKind, k))?;
        Ok(self.formed(c, p, q))
    }

    // The binding at which a chain starts.
    fn binding(&self, e: usize) -> Binding
        requires { (0 < e) × (4 * (e - 1) + 4 ≤ length self.now.binds.now) }
        ensures { result ≡ binding_at self.now.binds.now (e - 1) }
    {
        bindings::load(self.binds, e - 1)
    }

    // The proposition that constructor c makes of p and q.
    fn formed(&mut self, c: usize, p: usize, q: usize) -> Value
        requires { (self.old.state.props < length self.old.forms.now) × (c ≤ 4) × (p < 16384) × (q < 16384) }
        ensures same { Same self.old self.new × (self.new.binds.now ≡ self.old.binds.now) }
        ensures made { Made c p q self.old.state self.old.forms.now self.new.forms.now (result, self.new.state) }
    {
        let made = forms::form(
            self.forms,
            self.state.props,
            forms::Kind::Not as usize + c,
            p,
            q,
        );
        self.state.props = made.size;
        Value::Prop(made.at)
    }
}

// The value v bound on the chain env. The state then has one binding more, at which the chain starts.
pub fn bind_value(binds: &mut [u32], st: State, v: Value, env: usize) -> State
    requires { (4 * st.bindings + 4 ≤ length binds.old) × (length binds.old ≤ 16384) × Small (record { value = v; next = env }) }
    ensures { (result ≡ counters st.props (st.bindings + 1) st.remaining.0) × (binds.new ≡ sets binds.old (4 * st.bindings) (numbers_of v env)) }
{
    let n = st.bindings;
    bindings::push(
        binds,
        n,
        Binding {
            value: v,
            next: env,
        },
    );
    State {
        bindings: n + 1,
        ..st
    }
}

// The propositions that a pattern binds, bound left to right on the chain env from binding n on. The answer is where the chain then starts.
pub fn bind_parts(binds: &mut [u32], n: usize, env: usize, parts: Parts) -> usize
    requires { Bindable binds.old n env parts }
    ensures { (result ≡ outermost n env (numbers parts)) × (binds.new ≡ chained binds.old n env (numbers parts)) }
{
    let mut top = env;
    for (i, p) in parts.all[..parts.count].iter().enumerate() {
        let b = Binding {
            value: Value::Prop(*p),
            next: top,
        };
        bindings::push(binds, n + i, b);
        top = n + i + 1;
    }
    top
}

// The function or method of a phrase of either kind, over the bindings at env.
fn closure(kind: usize, phrase: usize, env: usize) -> Value
    ensures { result ≡ closed (sort_of kind) (closure_of phrase env) }
{
    let c = Closure { phrase, env };
    if kind == PhraseKind::Method as usize {
        Value::Method(c)
    } else {
        Value::Function(c)
    }
}

// How many arguments constructor c takes.
fn takes(c: usize) -> usize
    ensures { result ≡ arity c }
{
    if c == NOT { 1 } else { 2 }
}

// A value as a part of a proposition.
fn part(v: Value) -> Option<usize>
    ensures { result ≡ part_of v }
{
    match v {
        Value::Prop(p) => Some(p),
        _ => None,
    }
}
