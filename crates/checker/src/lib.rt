// A certificate checked in the base of a sheet. Its bytes are read twice.
// The first reading (reading.rt) judges each number as it is read, within the limits of 7,168 nodes and 512 nested, and counts nodes and inferences.
// The second (walking.rt) walks the nodes in prefix order. The base is a stack of table numbers: a sequence's second proof sees the
// first's conclusion and nothing derived inside it, and a hypothesis is gone after its proof.
// Every answer is the definition's: what is concluded, or the first refusal at its place.
#![tactic(auto)]

ghost use Rattle.std.specs.Prelude.{◌≡◌, true, not, ◌≤◌};
ghost use Rattle.language.specs.Doors.{checked_numbers, verdict_numbers, check_lengths, enough, wiped};
ghost use Rattle.language.specs.Check.{certificate_at, verdict};
ghost use Rattle.checker.specs.Judge.{Stating, Judged};
ghost use Rattle.checker.specs.Verdicts.{scratch, Lengths, Checks, Begun, Answers, Listed, ProofAnswers};

use language::{Refusal, Stands, Why};
use reading::{Reading, Stated};
use walking::Walk;

mod reading;
mod walking;

// The fixed lengths of the scratch: names of propositions, the table of formed ones, rows of patterns and of phrases, the base.
pub const NAMES: usize = 4608;

pub const FORMS: usize = 12290;

pub const PATTERNS: usize = reader::PATTERNS;

pub const PHRASES: usize = reader::PHRASES;

pub const BASE: usize = 576;

// How many propositions a certificate may list.
const LISTED: usize = 4608;

// How many nodes a proof may have.
const NODES: usize = 7168;

// How deep nodes may stand in each other, the outermost counted.
const NESTED: usize = 512;

// The check of a certificate against a sheet, for every input. The scratch is refused where a buffer is shorter than fixed, and is then untouched;
// else each buffer ends zero up to its fixed length and untouched past it.
pub fn check(
    sheet: &[u8],
    certificate: &[u8],
    names: &mut [u32],
    forms: &mut [u32],
    patterns: &mut [u32],
    phrases: &mut [u32],
    base: &mut [u32],
) -> Result<Stands, Refusal>
    ensures { Checks sheet.now certificate.now result names.old forms.old patterns.old phrases.old base.old names.new forms.new patterns.new phrases.new base.new }
{
    if is_short(names, forms, patterns, phrases, base) {
        return Err(Refusal(Why::ScratchShort, 0));
    }
    let r = answer(
        &mut names[..NAMES],
        &mut forms[..FORMS],
        &mut patterns[..PATTERNS],
        &mut phrases[..PHRASES],
        &mut base[..BASE],
        sheet,
        certificate,
    );
    clear(names, forms, patterns, phrases, base);
    r
}

// Whether a buffer is shorter than fixed.
fn is_short(names: &[u32], forms: &[u32], patterns: &[u32], phrases: &[u32], base: &[u32]) -> bool
    ensures { not result ≡ enough check_lengths (scratch names.now forms.now patterns.now phrases.now base.now) }
{
    names.len() < NAMES
        || forms.len() < FORMS
        || patterns.len() < PATTERNS
        || phrases.len() < PHRASES
        || base.len() < BASE
}

// Each buffer zero up to its fixed length.
fn clear(
    names: &mut [u32],
    forms: &mut [u32],
    patterns: &mut [u32],
    phrases: &mut [u32],
    base: &mut [u32],
)
    requires { enough check_lengths (scratch names.old forms.old patterns.old phrases.old base.old) ≡ true }
    ensures { scratch names.new forms.new patterns.new phrases.new base.new ≡ wiped check_lengths (scratch names.old forms.old patterns.old phrases.old base.old) }
{
    words::wipe(names, NAMES);
    words::wipe(forms, FORMS);
    words::wipe(patterns, PATTERNS);
    words::wipe(phrases, PHRASES);
    words::wipe(base, BASE);
}

// The verdict, in buffers of the fixed lengths.
fn answer(
    names: &mut [u32],
    forms: &mut [u32],
    patterns: &mut [u32],
    phrases: &mut [u32],
    base: &mut [u32],
    sheet: &[u8],
    certificate: &[u8],
) -> Result<Stands, Refusal>
    requires { Lengths names.old forms.old patterns.old phrases.old base.old }
    ensures { checked_numbers result ≡ verdict_numbers (verdict sheet.now certificate.now) }
{
    let c = reader::read_sheet(names, forms, patterns, phrases, base, sheet)?;
    against(names, forms, base, certificate, c.words, c.base)
}

// A certificate in the base that the sheet's reading left, the first n words of the table and the first b numbers of the base:
// so many listed propositions, then the proof over them.
fn against(
    names: &mut [u32],
    forms: &mut [u32],
    base: &mut [u32],
    s: &[u8],
    n: usize,
    b: usize,
) -> Result<Stands, Refusal>
    requires { Begun names.old forms.old base.old n b }
    ensures { Answers (certificate_at s.now) forms.old base.old n b result }
{
    let (count, at) = numbers::read_from(s, 0, 0, LISTED).map_err(reading::own)?;
    let listed = reader::read_propositions(names, forms, s, count, n, at);
    let next = listed.ended.map_err(reading::own)?;
    let mut walk = Walk {
        forms,
        size: listed.words,
        base,
        certificate: s,
        names,
    };
    walk.over_proof(b, count, next)
}

impl<'a> Walk<'a> {
    // The proof over a listing of so many propositions, read and then judged.
    fn over_proof(&mut self, b: usize, count: usize, at: usize) -> Result<Stands, Refusal>
        requires { Listed self.old.names.now self.old.forms.now self.old.base.now self.old.size b count }
        ensures { ProofAnswers self.old.certificate.now at self.old.names.now self.old.forms.now self.old.base.now self.old.size b count result }
    {
        let reading = Reading {
            certificate: self.certificate,
            count,
        };
        let stated = reading.proof(at).map_err(reading::own)?;
        self.judge(b, at, stated)
    }

    // The proof at `at`, which was read and found in order, in the base: what it concludes against what is stated.
    fn judge(&mut self, b: usize, at: usize, stated: Stated) -> Result<Stands, Refusal>
        requires { Stating self.old.forms.now self.old.base.now self.old.certificate.now self.old.names.now self.old.size b at stated }
        ensures { Judged self.old.forms.now self.old.base.now self.old.certificate.now self.old.names.now self.old.size b at stated result }
    {
        let w = self.node(b, NESTED, at)?;
        if w.conclusion == words::at(self.names, stated.conclusion) {
            return Ok(Stands {
                conclusion: stated.conclusion,
                inferences: stated.rules,
            });
        }
        Err(Refusal(Why::StatedDiffers, stated.place))
    }
}
