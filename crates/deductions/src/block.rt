// Deductions one after another: a dlet, a by and a block.
ghost use Rattle.std.specs.Prelude.{◌≡◌};
ghost use Rattle.expressions.specs.Machine.{reads, kind};
ghost use Rattle.deductions.specs.Machine.{run, Same, out_of, compared_of};
ghost use Rattle.deductions.specs.Asked.{In, Ready, Steplist};
ghost use Rattle.deductions.specs.Meets.{Stepped, Stepping};

use crate::{Run, Site, operands};
use bindings::Value;
use language::{Refusal, Why};
use records::rows;

impl<'a> Run<'a> {
    // A dlet: the value of the first, whose lemma joins the base, then the second with it bound.
    #[cycle(deduction)]
    pub(crate) fn bind(&mut self, site: Site, k: usize) -> Result<usize, Refusal>
        requires { Ready (In k) (reads self.old.machine) (run self.old) site.env site.base 4 4 11 1 × (kind self.old.machine.phrases.now k ≡ 19) }
        ensures same { Same self.old self.new }
        ensures stepped { Stepped (reads self.old.machine) site.depth site.env site.base k (run self.old) (out_of (run self.new) result) }
    {
        let f = words::at(self.machine.phrases, rows::PHRASE * k + 1);
        let d = words::at(self.machine.phrases, rows::PHRASE * k + 2);
        let (v, l) = self.either(site, f)?;
        let st = self.machine.state;
        self.machine.state = expressions::bind_value(self.machine.binds, st, v, site.env);
        let there = Site {
            base: operands::join(self.base, site.base, l),
            env: self.machine.state.bindings,
            ..site
        };
        self.enter(there, d)
    }

    // A by: the deduction, then the announced proposition, which must be its conclusion.
    #[cycle(deduction)]
    pub(crate) fn announced(&mut self, site: Site, k: usize) -> Result<usize, Refusal>
        requires { Ready (In k) (reads self.old.machine) (run self.old) site.env site.base 4 4 11 1 × (kind self.old.machine.phrases.now k ≡ 20) }
        ensures same { Same self.old self.new }
        ensures stepped { Stepped (reads self.old.machine) site.depth site.env site.base k (run self.old) (out_of (run self.new) result) }
    {
        let f = words::at(self.machine.phrases, rows::PHRASE * k + 1);
        let d = words::at(self.machine.phrases, rows::PHRASE * k + 2);
        let q = self.enter(site, d)?;
        let v = self.machine.evaluate(site.env, f, site.depth)?;
        compare(v, q, k)
    }

    // A block: its steps.
    #[cycle(deduction)]
    pub(crate) fn block(&mut self, site: Site, k: usize) -> Result<usize, Refusal>
        requires { Ready (In k) (reads self.old.machine) (run self.old) site.env site.base 4 4 11 1 × (kind self.old.machine.phrases.now k ≡ 21) }
        ensures same { Same self.old self.new }
        ensures stepped { Stepped (reads self.old.machine) site.depth site.env site.base k (run self.old) (out_of (run self.new) result) }
    {
        let count = words::at(self.machine.phrases, rows::PHRASE * k + 1);
        self.steps(site, rows::PHRASE * k + 2, count)
    }

    // A block's steps, so many of them from a place on: each sees the conclusions of earlier ones.
    #[cycle(deduction)]
    fn steps(&mut self, site: Site, from: usize, left: usize) -> Result<usize, Refusal>
        requires { Steplist (reads self.old.machine) (run self.old) site.env site.base from left }
        ensures same { Same self.old self.new }
        ensures stepping { Stepping (reads self.old.machine) site.depth site.env site.base from left (run self.old) (out_of (run self.new) result) }
    {
        let k = words::at(self.machine.phrases, from);
        if left == 1 {
            return self.enter(site, k);
        }
        let (_, l) = self.either(site, k)?;
        let there = Site {
            base: operands::join(self.base, site.base, l),
            ..site
        };
        self.steps(there, from + 1, left - 1)
    }
}

// The conclusion q, where it is the announced value v, which must be a proposition.
#[tactic(auto, unfolding(crate::specs::Machine::compared_of, crate::specs::Machine::compared_by))]
fn compare(v: Value, q: usize, k: usize) -> Result<usize, Refusal>
    ensures { result ≡ compared_of v q k }
{
    let Value::Prop(p) = v else {
        return Err(Refusal(Why::WrongKind, k));
    };
    if p != q {
        return Err(Refusal(Why::AnnouncedDiffers, k));
    }
    Ok(q)
}
