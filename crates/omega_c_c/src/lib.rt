// The static library: `waxdapple_evaluate` and `waxdapple_check` for C, each the function of `omega_c` with its contract. A slice is a pointer and a length.
// The answer is a number, 0 for acceptance, and values behind pointers (include/waxdapple.h); what a refusal has no value for is 0.
#![tactic(auto)]

ghost use Rattle.std.specs.Prelude.{◌≡◌, [], ◌∷◌};
ghost use Rattle.evaluator.specs.Door.{scratch};
ghost use Rattle.omega_c.specs.Answers.{Evaluation, Check};

// The evaluation of a sheet: 0 and the certificate's length, the work and the inferences; or a refusal's number, and its place for the length.
#[unsafe(no_mangle)]
pub extern "C" fn waxdapple_evaluate(
    sheet: &[u8],
    budget: usize,
    listing: &mut [u32],
    forms: &mut [u32],
    patterns: &mut [u32],
    phrases: &mut [u32],
    base: &mut [u32],
    bindings: &mut [u32],
    tokens: &mut [u32],
    out: &mut [u8],
    place: &mut usize,
    work: &mut usize,
    inferences: &mut usize,
) -> usize
    ensures { Evaluation sheet.now budget (result ∷ place.new ∷ work.new ∷ inferences.new ∷ []) out.old out.new (scratch listing.old forms.old patterns.old phrases.old base.old bindings.old tokens.old) (scratch listing.new forms.new patterns.new phrases.new base.new bindings.new tokens.new) }
{
    omega_c::waxdapple_evaluate(
        sheet, budget, listing, forms, patterns, phrases, base, bindings, tokens, out, place, work,
        inferences,
    )
}

// The check of a certificate against a sheet: 0, the conclusion's number and the inferences; or a refusal's number, and its place for the conclusion.
#[unsafe(no_mangle)]
pub extern "C" fn waxdapple_check(
    sheet: &[u8],
    certificate: &[u8],
    names: &mut [u32],
    forms: &mut [u32],
    patterns: &mut [u32],
    phrases: &mut [u32],
    base: &mut [u32],
    place: &mut usize,
    inferences: &mut usize,
) -> usize
    ensures { Check sheet.now certificate.now (result ∷ place.new ∷ inferences.new ∷ []) names.old forms.old patterns.old phrases.old base.old names.new forms.new patterns.new phrases.new base.new }
{
    omega_c::waxdapple_check(
        sheet,
        certificate,
        names,
        forms,
        patterns,
        phrases,
        base,
        place,
        inferences,
    )
}
