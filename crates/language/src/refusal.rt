// Document 01's refusals, in its words. specs/Refusals.antt has their numbers.
ghost use Rattle.std.specs.Prelude.{◌≡◌};
ghost use Rattle.language.specs.Numbered.{number_of};

// Why a sheet or a certificate is refused.
#[derive(Clone, Copy, PartialEq, Eq)]
pub enum Why {
    // Budget over 1,024.
    BudgetOver = 1,
    // A scratch buffer too short.
    ScratchShort = 2,
    // Bytes end before a number, or inside it with under three groups read.
    BytesEnd = 3,
    // Not shortest, over 65,535, or a third group that continues.
    NotShortest = 4,
    // Kind, count, atom, constructor, rule or variable number out of range; a pattern past either limit.
    OutOfRange = 5,
    // Reference not earlier, not in its table, of the wrong class, or a fix not over kind 4 or 5.
    WrongReference = 6,
    // Bytes after the end.
    BytesAfter = 7,
    // Budget spent.
    BudgetSpent = 8,
    // Nested too deep.
    TooDeep = 9,
    // No such binding.
    NoBinding = 10,
    // Value of the wrong kind.
    WrongKind = 11,
    // Wrong number of arguments.
    WrongCount = 12,
    // Arguments don't have the rule's shapes.
    WrongShapes = 13,
    // Premise not in the base.
    PremiseMissing = 14,
    // Announced conclusion differs.
    AnnouncedDiffers = 15,
    // Suppose-absurd body isn't false.
    NotFalse = 16,
    // No clause fits.
    NoClause = 17,
    // Output shorter than the certificate.
    OutputShort = 18,
    // Certificate over its node or nesting limit.
    CertificateOver = 19,
    // Stated conclusion isn't the derived one.
    StatedDiffers = 20,
    // Those of a certificate's bytes, 35 to 39.
    BytesEndInCertificate = 35,
    NotShortestInCertificate = 36,
    OutOfRangeInCertificate = 37,
    WrongReferenceInCertificate = 38,
    BytesAfterInCertificate = 39,
}

// Why it is refused, and where: a byte or a phrase.
#[derive(Clone, Copy, PartialEq, Eq)]
pub struct Refusal(pub Why, pub usize);

impl Why {
    // Document 01's number.
    pub fn number(self) -> usize
        ensures { result ≡ number_of self }
    {
        self as usize
    }
}
