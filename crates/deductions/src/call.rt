// Method calls: the operator, the arguments left to right, each in the caller's base, then the rule or the body in that base joined with the
// conclusions of all arguments that are deductions.
ghost use Rattle.std.specs.Prelude.{◌≡◌};
ghost use Rattle.expressions.specs.Machine.{reads, kind};
ghost use Rattle.deductions.specs.Machine.{run, Same, out_of, args_of};
ghost use Rattle.deductions.specs.Asked.{In, Ready, Callable, Arglist, Applicable};
ghost use Rattle.deductions.specs.Meets.{Stepped, Calling, Listed, Applying};

use crate::{Run, Site, operands};
use bindings::Value;
use language::{Refusal, Why};
use records::rows;

impl<'a> Run<'a> {
    // A method call: the operator, the arguments left to right, each in the caller's base, then what the operator does with them.
    #[cycle(deduction)]
    pub(crate) fn call(&mut self, site: Site, k: usize) -> Result<usize, Refusal>
        requires { Ready (In k) (reads self.old.machine) (run self.old) site.env site.base 4 4 11 1 × (kind self.old.machine.phrases.now k ≡ 16) }
        ensures same { Same self.old self.new }
        ensures stepped { Stepped (reads self.old.machine) site.depth site.env site.base k (run self.old) (out_of (run self.new) result) }
    {
        let f = words::at(self.machine.phrases, rows::PHRASE * k + 1);
        let count = words::at(self.machine.phrases, rows::PHRASE * k + 2);
        let v = self.machine.evaluate(site.env, f, site.depth)?;
        self.called(site, v, count, k)
    }

    // The call k of the operator v with n arguments.
    #[cycle(deduction)]
    fn called(&mut self, site: Site, v: Value, n: usize, k: usize) -> Result<usize, Refusal>
        requires { Callable (reads self.old.machine) (run self.old) v site.env site.base n k }
        ensures same { Same self.old self.new }
        ensures calling { Calling (reads self.old.machine) site.depth site.env site.base v n k (run self.old) (out_of (run self.new) result) }
    {
        let onto = bindings::scope(v);
        let from = rows::PHRASE * k + 3;
        let (env, c) = self.arguments(site, onto, from, n)?;
        let there = Site {
            base: c,
            env,
            ..site
        };
        self.apply(there, v, n, k)
    }

    // The arguments whose phrases stand from a place on, so many of them, each bound on top of those before it: where their chain starts, and the
    // base's count with their lemmas. A lemma joins the base once the arguments after it have run.
    #[cycle(deduction)]
    fn arguments(
        &mut self,
        site: Site,
        onto: usize,
        from: usize,
        left: usize,
    ) -> Result<(usize, usize), Refusal>
        requires { Arglist (reads self.old.machine) (run self.old) site.env site.base onto from left }
        ensures same { Same self.old self.new }
        ensures listed { Listed (reads self.old.machine) site.depth site.env site.base onto from left (run self.old) (args_of (run self.new) result) }
    {
        if left == 0 {
            return Ok((onto, site.base));
        }
        let k = words::at(self.machine.phrases, from);
        let (v, l) = self.either(site, k)?;
        let st = self.machine.state;
        self.machine.state = expressions::bind_value(self.machine.binds, st, v, onto);
        let top = self.machine.state.bindings;
        let (env, c) = self.arguments(site, top, from + 1, left - 1)?;
        Ok((env, operands::join(self.base, c, l)))
    }

    // What the operator v makes of n arguments, which are bound where it runs.
    #[cycle(deduction)]
    fn apply(&mut self, site: Site, v: Value, n: usize, k: usize) -> Result<usize, Refusal>
        requires { Applicable (reads self.old.machine) (run self.old) v site.env site.base n }
        ensures same { Same self.old self.new }
        ensures applying { Applying (reads self.old.machine) site.depth v site.env site.base n k (run self.old) (out_of (run self.new) result) }
    {
        match v {
            Value::Rule(r) => self.infer(site, r, n, k),
            Value::Method(m) => {
                let row = rows::PHRASE * m.phrase;
                if words::at(self.machine.phrases, row + 1) != n {
                    return Err(Refusal(Why::WrongCount, k));
                }
                let body = words::at(self.machine.phrases, row + 2);
                self.enter(site, body)
            }
            Value::Prop(_) | Value::Constructor(_) | Value::Function(_) => {
                Err(Refusal(Why::WrongKind, k))
            }
        }
    }
}
