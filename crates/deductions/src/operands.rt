// What joins the base of an operand, a phrase of either class that has run: a deduction's lemma.
ghost use Rattle.std.specs.Prelude.{◌≡◌, ◌+◌, ◌≤◌};
ghost use Rattle.deductions.specs.Machine.{joined_at, joining, LowLemma};

// The base of b numbers with a lemma's conclusion on top, where there is one. The answer is its count.
pub(crate) fn join(base: &mut [u32], b: usize, l: Option<usize>) -> usize
    requires { (b + joining l ≤ 16384) × LowLemma l }
    ensures { (result ≡ b + joining l) × (base.new ≡ joined_at base.old b l) }
{
    match l {
        Some(p) => {
            words::put(base, b, p);
            b + 1
        }
        None => b,
    }
}
