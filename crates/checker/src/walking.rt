// The second reading of a certificate's proof, whose bytes are in order: its nodes in prefix order, each in its base.
ghost use Rattle.std.specs.Prelude.{◌≡◌, ◌+◌};
ghost use Rattle.checker.specs.Places.{value_at, next_at, name_at, arguments_at};
ghost use Rattle.checker.specs.Walk.{node_at, rule_at, two_at, under_at, Awaits, Same, reached, Walks};

use language::{Node, Refusal};

// Three arguments, 0 where the rule takes fewer, and the place past them.
#[derive(Drop)]
struct Arguments {
    x: usize,
    y: usize,
    z: usize,
    next: usize,
}

// The conclusion's number and the place past the node.
#[derive(Drop)]
pub(super) struct Walked {
    pub(super) conclusion: usize,
    pub(super) next: usize,
}

// What a proof is walked over: the table of formed propositions with the count of its words in use, and the base, which change;
// the certificate's bytes and the names of what it lists.
#[derive(Drop)]
pub(super) struct Walk<'a> {
    pub(super) forms: &'a mut [u32],
    pub(super) size: usize,
    pub(super) base: &'a mut [u32],
    pub(super) certificate: &'a [u8],
    pub(super) names: &'a [u32],
}

impl<'a> Walk<'a> {
    // The node at `at`, with so much nesting left, over b numbers of the base.
    #[cycle(node_walk)]
    pub(super) fn node(&mut self, b: usize, d: usize, at: usize) -> Result<Walked, Refusal>
        requires { Awaits (node_at d self.old.certificate.now at) self.old.forms.now self.old.base.now self.old.names.now self.old.size b d }
        ensures same { Same self.old self.new }
        ensures walks { Walks (node_at d self.old.certificate.now at) self.old.forms.now self.old.base.now self.old.names.now self.old.size b d self.new.forms.now self.new.base.now (reached self.new.size result) }
    {
        let (kind, a) = self.taken(at);
        match Node::of(kind) {
            Node::Rule => self.rule(b, at, a),
            Node::Sequence => self.in_turn(b, d - 1, a),
            Node::Hypothesis => self.under(b, d - 1, a),
        }
    }

    // One proof, then another that sees its conclusion.
    #[cycle(node_walk)]
    fn in_turn(&mut self, b: usize, d: usize, a: usize) -> Result<Walked, Refusal>
        requires { Awaits (two_at d self.old.certificate.now a) self.old.forms.now self.old.base.now self.old.names.now self.old.size b (d + 1) }
        ensures same { Same self.old self.new }
        ensures walks { Walks (two_at d self.old.certificate.now a) self.old.forms.now self.old.base.now self.old.names.now self.old.size b (d + 1) self.new.forms.now self.new.base.now (reached self.new.size result) }
    {
        let w = self.node(b, d, a)?;
        words::put(self.base, b, w.conclusion);
        self.node(b + 1, d, w.next)
    }

    // A proof under a hypothesis, which joins the base for it.
    #[cycle(node_walk)]
    fn under(&mut self, b: usize, d: usize, a: usize) -> Result<Walked, Refusal>
        requires { Awaits (under_at d self.old.certificate.now a) self.old.forms.now self.old.base.now self.old.names.now self.old.size b (d + 1) }
        ensures same { Same self.old self.new }
        ensures walks { Walks (under_at d self.old.certificate.now a) self.old.forms.now self.old.base.now self.old.names.now self.old.size b (d + 1) self.new.forms.now self.new.base.now (reached self.new.size result) }
    {
        let (p, h) = self.named(a);
        words::put(self.base, b, p);
        let w = self.node(b + 1, d, h)?;
        let f = forms::conditional(self.forms, self.size, p, w.conclusion);
        self.size = f.size;
        Ok(Walked {
            conclusion: f.at,
            next: w.next,
        })
    }

    // The rule node at `at`, whose kind ends before `a`: the rule at the arguments that follow it.
    fn rule(&mut self, b: usize, at: usize, a: usize) -> Result<Walked, Refusal>
        requires { Awaits (rule_at self.old.certificate.now at a) self.old.forms.now self.old.base.now self.old.names.now self.old.size b 0 }
        ensures same { Same self.old self.new }
        ensures walks { Walks (rule_at self.old.certificate.now at a) self.old.forms.now self.old.base.now self.old.names.now self.old.size b 0 self.new.forms.now self.new.base.now (reached self.new.size result) }
    {
        let (rule, c) = self.taken(a);
        let g = self.given(c, language::arguments(rule));
        let base = &mut *self.base;
        match rules::apply(self.forms, self.size, base, b, rule, g.x, g.y, g.z) {
            Ok(f) => {
                self.size = f.size;
                Ok(Walked {
                    conclusion: f.at,
                    next: g.next,
                })
            }
            Err(why) => Err(Refusal(why, at)),
        }
    }

    // k arguments from a place on, at most three.
    #[tactic(auto, unfolding(crate::specs::Places::arguments_at, crate::specs::Places::name_if, crate::specs::Places::next_if))]
    fn given(&self, at: usize, k: usize) -> Arguments
        ensures { result ≡ arguments_at self.now.names.now self.now.certificate.now k at }
    {
        if k == 0 {
            return Arguments {
                x: 0,
                y: 0,
                z: 0,
                next: at,
            };
        }
        let (x, b) = self.named(at);
        if k == 1 {
            return Arguments {
                x,
                y: 0,
                z: 0,
                next: b,
            };
        }
        let (y, c) = self.named(b);
        if k == 2 {
            return Arguments {
                x,
                y,
                z: 0,
                next: c,
            };
        }
        let (z, next) = self.named(c);
        Arguments { x, y, z, next }
    }

    // The table's number of the proposition whose listing number stands at a place, and the place past it.
    fn named(&self, at: usize) -> (usize, usize)
        ensures { (result.0 ≡ name_at self.now.names.now self.now.certificate.now at) × (result.1 ≡ next_at self.now.certificate.now at) }
    {
        let (k, next) = self.taken(at);
        (words::at(self.names, k), next)
    }

    // The number at a place, and the place past it.
    fn taken(&self, at: usize) -> (usize, usize)
        ensures { (result.0 ≡ value_at self.now.certificate.now at) × (result.1 ≡ next_at self.now.certificate.now at) }
    {
        numbers::read(self.certificate, at).unwrap_or((0, at))
    }
}
