// The two doors as C sees them: `waxdapple_evaluate` and `waxdapple_check`, with the doors' contracts; `omega_c_c` exports them.
// The answer is a number, 0 for acceptance, and values behind pointers (include/waxdapple.h); what a refusal has no value for is 0.
#![tactic(auto)]

ghost use Rattle.std.specs.Prelude.{◌≡◌, [], ◌∷◌};
ghost use Rattle.evaluator.specs.Door.{scratch};
ghost use Rattle.omega_c.specs.Answers.{Evaluation, Check};

use language::Refusal;

// The evaluation of a sheet: 0 and the certificate's length, the work and the inferences; or a refusal's number, and its place for the length.
pub fn waxdapple_evaluate(
    sheet: &[u8],
    budget: usize,
    listing: &mut [u32],
    forms: &mut [u32],
    patterns: &mut [u32],
    phrases: &mut [u32],
    base: &mut [u32],
    bindings: &mut [u32],
    tokens: &mut [u32],
    out: &mut [u8],
    place: &mut usize,
    work: &mut usize,
    inferences: &mut usize,
) -> usize
    ensures { Evaluation sheet.now budget (result ∷ place.new ∷ work.new ∷ inferences.new ∷ []) out.old out.new (scratch listing.old forms.old patterns.old phrases.old base.old bindings.old tokens.old) (scratch listing.new forms.new patterns.new phrases.new base.new bindings.new tokens.new) }
{
    match evaluator::evaluate(
        sheet, budget, listing, forms, patterns, phrases, base, bindings, tokens, out,
    ) {
        Ok(a) => {
            *place = a.length;
            *work = a.work.0;
            *inferences = a.inferences.0;
            0
        }
        Err(Refusal(why, at)) => {
            *place = at;
            *work = 0;
            *inferences = 0;
            why.number()
        }
    }
}

// The check of a certificate against a sheet: 0, the conclusion's number and the inferences; or a refusal's number, and its place for the conclusion.
pub fn waxdapple_check(
    sheet: &[u8],
    certificate: &[u8],
    names: &mut [u32],
    forms: &mut [u32],
    patterns: &mut [u32],
    phrases: &mut [u32],
    base: &mut [u32],
    place: &mut usize,
    inferences: &mut usize,
) -> usize
    ensures { Check sheet.now certificate.now (result ∷ place.new ∷ inferences.new ∷ []) names.old forms.old patterns.old phrases.old base.old names.new forms.new patterns.new phrases.new base.new }
{
    match checker::check(sheet, certificate, names, forms, patterns, phrases, base) {
        Ok(c) => {
            *place = c.conclusion;
            *inferences = c.inferences.0;
            0
        }
        Err(Refusal(why, at)) => {
            *place = at;
            *inferences = 0;
            why.number()
        }
    }
}
