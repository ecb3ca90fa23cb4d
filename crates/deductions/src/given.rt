// Deductions under a hypothesis: assume and suppose-absurd.
ghost use Rattle.std.specs.Prelude.{◌≡◌, ◌++◌, ◌+◌, ◌<◌, ◌≤◌, ◌^◌, length, take};
ghost use Rattle.expressions.specs.Machine.{reads, kind};
ghost use Rattle.deductions.specs.Machine.{run, Same, out_of, tollens, Refuted};
ghost use Rattle.deductions.specs.Asked.{In, Ready, Hypothetical};
ghost use Rattle.deductions.specs.Meets.{Stepped, Supposing};

use crate::{Run, Site};
use bindings::Value;
use language::{Refusal, Rule, Why};
use records::rows;

impl<'a> Run<'a> {
    // An assume: the hypothesis' value, then the deduction under it; gives the conditional.
    #[cycle(deduction)]
    pub(crate) fn assume(&mut self, site: Site, k: usize) -> Result<usize, Refusal>
        requires { Ready (In k) (reads self.old.machine) (run self.old) site.env site.base 4 4 11 1 × (kind self.old.machine.phrases.now k ≡ 17) }
        ensures same { Same self.old self.new }
        ensures stepped { Stepped (reads self.old.machine) site.depth site.env site.base k (run self.old) (out_of (run self.new) result) }
    {
        let f = words::at(self.machine.phrases, rows::PHRASE * k + 1);
        let d = words::at(self.machine.phrases, rows::PHRASE * k + 2);
        let v = self.machine.evaluate(site.env, f, site.depth)?;
        let Value::Prop(p) = v else {
            return Err(Refusal(Why::WrongKind, k));
        };
        let q = self.under(site, p, d)?;
        let props = self.machine.state.props;
        let made = forms::conditional(self.machine.forms, props, p, q);
        self.machine.state.props = made.size;
        Ok(made.at)
    }

    // A suppose-absurd: the hypothesis' value, then the deduction under it, which must conclude false; gives the negation.
    #[cycle(deduction)]
    pub(crate) fn suppose(&mut self, site: Site, k: usize) -> Result<usize, Refusal>
        requires { Ready (In k) (reads self.old.machine) (run self.old) site.env site.base 4 4 11 1 × (kind self.old.machine.phrases.now k ≡ 18) }
        ensures same { Same self.old self.new }
        ensures stepped { Stepped (reads self.old.machine) site.depth site.env site.base k (run self.old) (out_of (run self.new) result) }
    {
        let f = words::at(self.machine.phrases, rows::PHRASE * k + 1);
        let d = words::at(self.machine.phrases, rows::PHRASE * k + 2);
        let v = self.machine.evaluate(site.env, f, site.depth)?;
        let Value::Prop(p) = v else {
            return Err(Refusal(Why::WrongKind, k));
        };
        self.written = tokens::sequence(self.tokens, self.written);
        let q = self.under(site, p, d)?;
        self.refute(p, q, k)
    }

    // The deduction k in the base with the hypothesis p, which is written before its proof.
    #[cycle(deduction)]
    fn under(&mut self, site: Site, p: usize, k: usize) -> Result<usize, Refusal>
        requires { Hypothetical (reads self.old.machine) (run self.old) site.env site.base p k }
        ensures same { Same self.old self.new }
        ensures supposing { Supposing (reads self.old.machine) site.depth site.env site.base p k (run self.old) (out_of (run self.new) result) }
    {
        let b = site.base;
        words::put(self.base, b, p);
        self.written = tokens::hypothesis(self.tokens, self.written, p);
        let there = Site {
            base: b + 1,
            ..site
        };
        self.enter(there, k)
    }

    // Not p, where its proof concluded q and q is false; else refusal 16.
    fn refute(&mut self, p: usize, q: usize, k: usize) -> Result<usize, Refusal>
        requires { (self.old.machine.state.props + 3 ≤ length self.old.machine.forms.now) × (length self.old.machine.forms.now ≤ 16384) × (self.old.written + 8 ≤ length self.old.tokens.now) × (length self.old.tokens.now ≤ 16384) × (p < 16384) }
        ensures same { Same self.old self.new × (self.new.machine.binds.now ≡ self.old.machine.binds.now) × (self.new.base.now ≡ self.old.base.now) }
        ensures refuted { Refuted p q k (run self.old).at (run self.new).at self.old.machine.forms.now self.new.machine.forms.now self.old.tokens.now self.new.tokens.now result }
    {
        if q != forms::FALSE {
            return Err(Refusal(Why::NotFalse, k));
        }
        let props = self.machine.state.props;
        let implied = forms::conditional(self.machine.forms, props, p, forms::FALSE);
        let absurd = forms::negation(self.machine.forms, implied.size, forms::FALSE);
        let denied = forms::negation(self.machine.forms, absurd.size, p);
        self.machine.state.props = denied.size;
        self.written = tollens(self.tokens, self.written, implied.at, absurd.at);
        Ok(denied.at)
    }
}

// False-elim, then modus-tollens at x and y, after a 1.
fn tollens(tokens: &mut [u32], n: usize, x: usize, y: usize) -> usize
    requires { (n + 8 ≤ length tokens.old) × (length tokens.old ≤ 16384) × (x < 2 ^ 32) × (y < 2 ^ 32) }
    ensures { (result ≡ n + 7) × (take (n + 7) tokens.new ≡ take n tokens.old ++ tollens x y) }
{
    let n1 = tokens::sequence(tokens, n);
    let n2 = tokens::rule(tokens, n1, Rule::FalseElim as usize, 0, 0, 0, 0);
    tokens::rule(tokens, n2, Rule::ModusTollens as usize, 2, x, y, 0)
}
