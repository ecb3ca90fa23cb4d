// A sheet evaluated: the door `evaluate`, for every sheet of bytes, budget and buffer length.
// The budget is looked at first, then the scratch; then the sheet is read, its root is run, and the certificate is written where there is room for it.
// Every answer is the definition's, with the output and every buffer of the scratch afterwards (specs/Door.antt).
#![tactic(auto)]

ghost use Rattle.std.specs.Prelude.{◌≡◌, true, not, map, ◌≤◌, length};
ghost use Rattle.language.specs.Answer.{answer};
ghost use Rattle.language.specs.Doors.{evaluation_lengths, enough, wiped};
ghost use Rattle.evaluator.specs.Door.{scratch, Gives, Evaluates};
ghost use Rattle.expressions.specs.Machine.{reads};
ghost use Rattle.deductions.specs.Machine.{run, progress};
ghost use Rattle.evaluator.specs.Parts.{Rooted, Runs, Ending, Certifies};

use deductions::{Run, Site};
use expressions::{Machine, State};
use language::{Accepted, Refusal, Remaining, Why, Work};
use reader::Counts;

// The fixed lengths of the scratch: the listing, in which the sheet's propositions are named while it is read; the table of formed propositions;
// rows of patterns and of phrases; the base; bindings; the proof in tokens.
pub const LISTING: usize = 9220;

pub const FORMS: usize = 4610;

pub const PATTERNS: usize = reader::PATTERNS;

pub const PHRASES: usize = reader::PHRASES;

pub const BASE: usize = 1088;

pub const BINDINGS: usize = 16384;

pub const TOKENS: usize = 11264;

// The largest budget.
pub const BUDGET: usize = 1024;

// How deep evaluations may stand in each other, the outermost counted.
pub const NESTING: usize = 64;

// The evaluation of a sheet. A budget over its limit and a buffer shorter than fixed are refused with everything as it was;
// else each buffer of the scratch ends zero up to its fixed length and untouched past it, and the output is touched only by a certificate.
#[tactic(auto, unfolding(language::specs::Doors::enough))]
pub fn evaluate(
    sheet: &[u8],
    budget: usize,
    listing: &mut [u32],
    forms: &mut [u32],
    patterns: &mut [u32],
    phrases: &mut [u32],
    base: &mut [u32],
    binds: &mut [u32],
    tokens: &mut [u32],
    out: &mut [u8],
) -> Result<Accepted, Refusal>
    ensures { Evaluates sheet.now budget result out.old out.new (scratch listing.old forms.old patterns.old phrases.old base.old binds.old tokens.old) (scratch listing.new forms.new patterns.new phrases.new base.new binds.new tokens.new) }
{
    if BUDGET < budget {
        return Err(Refusal(Why::BudgetOver, 0));
    }
    if is_short(listing, forms, patterns, phrases, base, binds, tokens) {
        return Err(Refusal(Why::ScratchShort, 0));
    }
    let r = answer(
        &mut listing[..LISTING],
        &mut forms[..FORMS],
        &mut patterns[..PATTERNS],
        &mut phrases[..PHRASES],
        &mut base[..BASE],
        &mut binds[..BINDINGS],
        &mut tokens[..TOKENS],
        sheet,
        budget,
        out,
    );
    clear(listing, forms, patterns, phrases, base, binds, tokens);
    r
}

// Whether a buffer is shorter than fixed.
#[tactic(auto, unfolding(language::specs::Doors::enough))]
fn is_short(
    listing: &[u32],
    forms: &[u32],
    patterns: &[u32],
    phrases: &[u32],
    base: &[u32],
    binds: &[u32],
    tokens: &[u32],
) -> bool
    ensures { not result ≡ enough evaluation_lengths (scratch listing.now forms.now patterns.now phrases.now base.now binds.now tokens.now) }
{
    listing.len() < LISTING
        || forms.len() < FORMS
        || patterns.len() < PATTERNS
        || phrases.len() < PHRASES
        || base.len() < BASE
        || binds.len() < BINDINGS
        || tokens.len() < TOKENS
}

// Each buffer zero up to its fixed length.
#[tactic(auto, unfolding(language::specs::Doors::enough))]
fn clear(
    listing: &mut [u32],
    forms: &mut [u32],
    patterns: &mut [u32],
    phrases: &mut [u32],
    base: &mut [u32],
    binds: &mut [u32],
    tokens: &mut [u32],
)
    requires { enough evaluation_lengths (scratch listing.old forms.old patterns.old phrases.old base.old binds.old tokens.old) ≡ true }
    ensures { scratch listing.new forms.new patterns.new phrases.new base.new binds.new tokens.new ≡ wiped evaluation_lengths (scratch listing.old forms.old patterns.old phrases.old base.old binds.old tokens.old) }
{
    words::wipe(listing, LISTING);
    words::wipe(forms, FORMS);
    words::wipe(patterns, PATTERNS);
    words::wipe(phrases, PHRASES);
    words::wipe(base, BASE);
    words::wipe(binds, BINDINGS);
    words::wipe(tokens, TOKENS);
}

// The answer, in buffers of the fixed lengths.
fn answer<'a>(
    listing: &mut [u32],
    forms: &'a mut [u32],
    patterns: &'a mut [u32],
    phrases: &'a mut [u32],
    base: &'a mut [u32],
    binds: &'a mut [u32],
    tokens: &'a mut [u32],
    sheet: &[u8],
    budget: usize,
    out: &mut [u8],
) -> Result<Accepted, Refusal>
    requires { (map length (scratch listing.old forms.old patterns.old phrases.old base.old binds.old tokens.old) ≡ evaluation_lengths) × (budget ≤ 1024) }
    ensures { Gives (answer sheet.now budget (length out.old)) out.old result out.new }
{
    let c = reader::read_sheet(listing, forms, patterns, phrases, base, sheet)?;
    let state = State {
        props: c.words,
        bindings: 0,
        remaining: Remaining(budget),
    };
    let machine = Machine {
        forms,
        binds,
        state,
        phrases,
        patterns,
    };
    let mut root = Run {
        machine,
        base,
        tokens,
        written: 0,
    };
    run(&mut root, c, listing, out)
}

// The root, run in the sheet's base, and its certificate.
fn run(root: &mut Run, c: Counts, listing: &mut [u32], out: &mut [u8]) -> Result<Accepted, Refusal>
    requires { Rooted (reads root.old.machine) (run root.old) c.base c.root listing.old × (root.old.written ≡ 0) }
    ensures { Runs (reads root.old.machine) (run root.old) c.base c.root out.old result out.new }
{
    let budget = root.machine.state.remaining.0;
    let site = Site {
        base: c.base,
        env: 0,
        depth: NESTING,
    };
    let p = root.deduce(site, c.root)?;
    certify(root, listing, p, budget, out)
}

// The certificate of a run that has ended with the conclusion p, where the output has room for it.
fn certify(
    run: &Run,
    listing: &mut [u32],
    p: usize,
    budget: usize,
    out: &mut [u8],
) -> Result<Accepted, Refusal>
    requires { Ending run.now.machine.forms.now run.now.tokens.now listing.old p (progress run.now.machine.state run.now.written) budget }
    ensures { Certifies run.now.machine.forms.now run.now.tokens.now listing.old p (progress run.now.machine.state run.now.written) budget out.old result out.new }
{
    let state = run.machine.state;
    let Some(w) = certificates::write(
        run.machine.forms,
        state.props,
        run.tokens,
        run.written,
        p,
        listing,
        out,
    ) else {
        return Err(Refusal(Why::OutputShort, 0));
    };
    Ok(Accepted {
        length: w.length,
        work: Work(budget - state.remaining.0),
        inferences: w.inferences,
    })
}
