// Deductions by cases: a dmatch.
ghost use Rattle.std.specs.Prelude.{◌≡◌, ℕ, ◌+◌, ◌*◌};
ghost use Rattle.patterns.specs.Fitting.{ChosenSo};
ghost use Rattle.expressions.specs.Machine.{reads, kind, two};
ghost use Rattle.deductions.specs.Machine.{run, Same, out_of};
ghost use Rattle.deductions.specs.Asked.{In, Ready, Matching};
ghost use Rattle.deductions.specs.Meets.{Stepped, Selected};

use crate::{Run, Site};
use bindings::Value;
use language::{Refusal, Why};
use patterns::Parts;
use records::rows;

impl<'a> Run<'a> {
    // A dmatch: the value of the first phrase must be a proposition, a deduction there gives its value only; the first clause whose pattern
    // fits is run.
    #[cycle(deduction)]
    pub(crate) fn matched(&mut self, site: Site, k: usize) -> Result<usize, Refusal>
        requires { Ready (In k) (reads self.old.machine) (run self.old) site.env site.base 4 4 11 1 × (kind self.old.machine.phrases.now k ≡ 22) }
        ensures same { Same self.old self.new }
        ensures stepped { Stepped (reads self.old.machine) site.depth site.env site.base k (run self.old) (out_of (run self.new) result) }
    {
        let f = words::at(self.machine.phrases, rows::PHRASE * k + 1);
        let before = self.written;
        let (v, _) = self.either(site, f)?;
        let Value::Prop(p) = v else {
            return Err(Refusal(Why::WrongKind, k));
        };
        self.written = before;
        self.clause(site, k, p)
    }

    // The first clause of the dmatch k whose pattern fits the proposition p, run with what the pattern binds.
    #[cycle(deduction)]
    fn clause(&mut self, site: Site, k: usize, p: usize) -> Result<usize, Refusal>
        requires { Matching (reads self.old.machine) (run self.old) site.env site.base k p }
        ensures same { Same self.old self.new }
        ensures selected { Selected (reads self.old.machine) site.depth site.env site.base k p (run self.old) (out_of (run self.new) result) }
    {
        let Some((body, parts)) = self.chosen(k, p) else {
            return Err(Refusal(Why::NoClause, k));
        };
        let n = self.machine.state.bindings;
        let there = Site {
            env: expressions::bind_parts(self.machine.binds, n, site.env, parts),
            ..site
        };
        self.machine.state.bindings = n + parts.count;
        self.enter(there, body)
    }

    // The first clause of the dmatch k whose pattern fits the proposition p: its body and what the pattern binds.
    fn chosen(&self, k: usize, p: usize) -> Option<(usize, Parts)>
        requires { (env b : ℕ) × Matching (reads self.now.machine) (run self.now) env b k p }
        ensures { ChosenSo self.now.machine.forms.now self.now.machine.patterns.now self.now.machine.phrases.now (12 * k + 3) (two self.now.machine.phrases.now k) p result }
    {
        let count = words::at(self.machine.phrases, rows::PHRASE * k + 2);
        patterns::choose(
            self.machine.forms,
            self.machine.patterns,
            self.machine.phrases,
            rows::PHRASE * k + 3,
            count,
            p,
        )
    }
}
