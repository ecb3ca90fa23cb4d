// Deductions run over lent buffers: the table of formed propositions, the bindings, the base's stack and the tokens of the plain proof change,
// phrases and patterns are only read. On entry the budget is checked first, then the nesting. What a deduction concludes, with its proof and
// what is left of the budget, is what the language's `deduce` gives, refusals with number and place included; the base's numbers below are kept.
// A method call runs in call.rt, an assume and a suppose-absurd in given.rt, a dlet, a by and a block in block.rt, a dmatch in dmatch.rt; what a rule
// makes of its arguments is in inference.rt, what is joined of an operand in operands.rt.
// For each evaluation begun at most four propositions, four bindings, eleven tokens and one number on the base are used, so that nothing is
// refused for want of room (specs/Meets.antt).
#![tactic(auto)]

ghost use Rattle.std.specs.Prelude.{◌≡◌, ◌<◌, ◌≤◌, Err};
ghost use Rattle.language.specs.declared.refusal.Refusal.{Refusal};
ghost use Rattle.expressions.specs.Machine.{reads, kind};
ghost use Rattle.deductions.specs.Machine.{run, Same, out_of, operand_of};
ghost use Rattle.deductions.specs.Asked.{In, Ready};
ghost use Rattle.deductions.specs.Meets.{Deduced, Stepped, Fetched};

use bindings::Value;
use expressions::Machine;
use language::{Refusal, Remaining, Why};
use records::{PhraseKind, rows};

mod block;
mod call;
mod dmatch;
mod given;
mod inference;
mod operands;

// What a deduction goes over: the machine of its expressions, the base's stack, the tokens of the plain proof and how many are written.
#[derive(Drop)]
pub struct Run<'a> {
    pub machine: Machine<'a>,
    pub base: &'a mut [u32],
    pub tokens: &'a mut [u32],
    pub written: usize,
}

// Where a phrase runs: how many numbers of the base's stack it sees, where the chain of its bindings starts, and the nesting left.
#[derive(Clone, Copy)]
pub struct Site {
    pub base: usize,
    pub env: usize,
    pub depth: usize,
}

impl<'a> Run<'a> {
    // The deduction k: its conclusion's number; or the refusal, and then the counts are as they were.
    pub fn deduce(&mut self, site: Site, k: usize) -> Result<usize, Refusal>
        requires { Ready (In k) (reads self.old.machine) (run self.old) site.env site.base 0 0 0 0 × (16 ≤ kind self.old.machine.phrases.now k) }
        ensures same { Same self.old self.new }
        ensures deduced { Deduced (reads self.old.machine) site.depth site.env site.base k (run self.old) (out_of (run self.new) result) }
        ensures counts { (r : Refusal) → result ≡ Err r → (self.new.machine.state ≡ self.old.machine.state) × (self.new.written ≡ self.old.written) }
    {
        let counts = self.machine.state;
        let written = self.written;
        match self.enter(site, k) {
            Ok(p) => Ok(p),
            Err(r) => {
                self.machine.state = counts;
                self.written = written;
                Err(r)
            }
        }
    }

    // The same, but for the counts after a refusal.
    #[cycle(deduction)]
    fn enter(&mut self, site: Site, k: usize) -> Result<usize, Refusal>
        requires { Ready (In k) (reads self.old.machine) (run self.old) site.env site.base 0 0 0 0 × (16 ≤ kind self.old.machine.phrases.now k) }
        ensures same { Same self.old self.new }
        ensures deduced { Deduced (reads self.old.machine) site.depth site.env site.base k (run self.old) (out_of (run self.new) result) }
    {
        let remaining = self.machine.state.remaining.0;
        if remaining == 0 {
            return Err(Refusal(Why::BudgetSpent, k));
        }
        if site.depth == 0 {
            return Err(Refusal(Why::TooDeep, k));
        }
        self.machine.state.remaining = Remaining(remaining - 1);
        let inside = Site {
            depth: site.depth - 1,
            ..site
        };
        self.step(inside, k)
    }

    // The deduction k, once it is entered.
    #[cycle(deduction)]
    fn step(&mut self, site: Site, k: usize) -> Result<usize, Refusal>
        requires { Ready (In k) (reads self.old.machine) (run self.old) site.env site.base 4 4 11 1 × (16 ≤ kind self.old.machine.phrases.now k) }
        ensures same { Same self.old self.new }
        ensures stepped { Stepped (reads self.old.machine) site.depth site.env site.base k (run self.old) (out_of (run self.new) result) }
    {
        match PhraseKind::of(words::at(self.machine.phrases, rows::PHRASE * k)) {
            Some(PhraseKind::MethodCall) => self.call(site, k),
            Some(PhraseKind::Assume) => self.assume(site, k),
            Some(PhraseKind::Suppose) => self.suppose(site, k),
            Some(PhraseKind::DLet) => self.bind(site, k),
            Some(PhraseKind::By) => self.announced(site, k),
            Some(PhraseKind::Block) => self.block(site, k),
            _ => self.matched(site, k),
        }
    }

    // The phrase k, of either class: its value, and its lemma's number where it is a deduction. A deduction's tokens are written after a 1, as
    // something follows them.
    #[cycle(deduction)]
    fn either(&mut self, site: Site, k: usize) -> Result<(Value, Option<usize>), Refusal>
        requires { Ready (In k) (reads self.old.machine) (run self.old) site.env site.base 0 0 1 0 }
        ensures same { Same self.old self.new }
        ensures fetched { Fetched (reads self.old.machine) site.depth site.env site.base k (run self.old) (operand_of (run self.new) result) }
    {
        if words::at(self.machine.phrases, rows::PHRASE * k) < PhraseKind::MethodCall as usize {
            let v = self.machine.evaluate(site.env, k, site.depth)?;
            return Ok((v, None));
        }
        self.written = tokens::sequence(self.tokens, self.written);
        let p = self.enter(site, k)?;
        Ok((Value::Prop(p), Some(p)))
    }
}
