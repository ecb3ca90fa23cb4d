// A rule applied to arguments that are bound: their count and kind, the rule's answer, and its tokens.
ghost use Rattle.std.specs.Prelude.{◌≡◌, ℕ, ◌+◌, ◌≤◌, length};
ghost use Rattle.bindings.specs.declared.Value.TheVariants.{Rule};
ghost use Rattle.rules.specs.Applied.{Ready as RuleReady, Ruling};
ghost use Rattle.expressions.specs.Machine.{reads, Same as SameMachine};
ghost use Rattle.deductions.specs.Machine.{run, Same, out_of, taken_at, Long, Inferred};
ghost use Rattle.deductions.specs.Asked.{Applicable};
ghost use Rattle.deductions.specs.Meets.{Applying};

use crate::{Run, Site};
use bindings::Value;
use expressions::Machine;
use forms::Formed;
use language::{Refusal, Why};

impl<'a> Run<'a> {
    // What rule r makes of n arguments, which are bound where it runs: the count first, then that all are propositions, then the rule itself.
    pub(crate) fn infer(
        &mut self,
        site: Site,
        r: usize,
        n: usize,
        k: usize,
    ) -> Result<usize, Refusal>
        requires { Applicable (reads self.old.machine) (run self.old) (Rule r) site.env site.base n }
        ensures same { Same self.old self.new }
        ensures applying { (d : ℕ) → Applying (reads self.old.machine) d (Rule r) site.env site.base n k (run self.old) (out_of (run self.new) result) }
    {
        if n != language::arguments(r) {
            return Err(Refusal(Why::WrongCount, k));
        }
        let Some((x, y, z)) = self.taken(site.env, n) else {
            return Err(Refusal(Why::WrongKind, k));
        };
        self.conclude(site.base, r, n, x, y, z, k)
    }

    // So many arguments, bound at e; all must be propositions.
    fn taken(&self, e: usize, n: usize) -> Option<(usize, usize, usize)>
        requires { Long self.now.machine.binds.now e n }
        ensures { result ≡ taken_at self.now.machine.binds.now e n 0 0 0 }
    {
        gather(self.machine.binds, e, n, 0, 0, 0)
    }

    // Rule r at its n arguments x, y and z: the conclusion, and the tokens of the rule; or that shapes or premises fail.
    #[tactic(auto, unfolding(crate::specs::Machine::inferred_of))]
    fn conclude(
        &mut self,
        b: usize,
        r: usize,
        n: usize,
        x: usize,
        y: usize,
        z: usize,
        k: usize,
    ) -> Result<usize, Refusal>
        requires { RuleReady self.old.machine.forms.now self.old.machine.state.props self.old.base.now b x y z × (self.old.written + 5 ≤ length self.old.tokens.now) × (length self.old.tokens.now ≤ 16384) × (n ≤ 3) × (r ≤ 15) }
        ensures same { Same self.old self.new × (self.new.machine.binds.now ≡ self.old.machine.binds.now) × (self.new.base.now ≡ self.old.base.now) }
        ensures inferred { Inferred (run self.old).at (run self.new).at b r n x y z k self.old.machine.forms.now self.new.machine.forms.now self.old.base.now self.old.tokens.now self.new.tokens.now result }
    {
        let base = &mut *self.base;
        let machine = &mut self.machine;
        let made = ruled(machine, base, b, r, x, y, z).map_err(|why| Refusal(why, k))?;
        self.machine.state.props = made.size;
        self.written = tokens::rule(self.tokens, self.written, r, n, x, y, z);
        Ok(made.at)
    }
}

// Rule r at the arguments x, y and z in the base's first b numbers.
fn ruled(
    machine: &mut Machine,
    base: &[u32],
    b: usize,
    r: usize,
    x: usize,
    y: usize,
    z: usize,
) -> Result<Formed, Why>
    requires { RuleReady machine.old.forms.now machine.old.state.props base.now b x y z }
    ensures same { SameMachine machine.old machine.new × (machine.new.binds.now ≡ machine.old.binds.now) × (machine.new.state ≡ machine.old.state) }
    ensures ruling { Ruling machine.old.forms.now machine.old.state.props base.now b r x y z machine.new.forms.now result }
{
    let props = machine.state.props;
    rules::apply(machine.forms, props, base, b, r, x, y, z)
}

// So many arguments read off the chain at e, the last first, before x and y and z; all must be propositions.
#[tactic(auto, unfolding(crate::specs::Machine::taken_at, crate::specs::Machine::taken_by, crate::specs::Machine::Long))]
fn gather(
    binds: &[u32],
    e: usize,
    n: usize,
    x: usize,
    y: usize,
    z: usize,
) -> Option<(usize, usize, usize)>
    requires { Long binds.now e n }
    ensures { result ≡ taken_at binds.now e n x y z }
{
    if n == 0 {
        return Some((x, y, z));
    }
    let last = bindings::load(binds, e - 1);
    let Value::Prop(p) = last.value else {
        return None;
    };
    gather(binds, last.next, n - 1, p, x, y)
}
