//! What follows from the definitions alone: none of it does anything when it runs.

ghost use Rattle.pg_verify.specs.Judging.{ShowsIsDecided};
ghost use Rattle.pg_verify.specs.Verified.{TakenTextsSpell, TakenTextsTell, ValidTextsAreTaken, MissingFindingsAreAsked};

/// The test of two states is true exactly where they show the kind.
pub fn shows_is_decided()
    ensures { ShowsIsDecided }
{}

/// A text that is not refused is that of a valid certificate, whose marks are kept.
pub fn taken_texts_spell()
    ensures { TakenTextsSpell }
{}

/// So its marks tell of each instruction and each kind that no two states show it, that these two do, or nothing.
pub fn taken_texts_tell()
    ensures { TakenTextsTell }
{}

/// The text of a valid certificate is not refused, where it is not too long, and the marks of its findings are kept.
pub fn valid_texts_are_taken()
    ensures { ValidTextsAreTaken }
{}

/// A finding that is told to be missing is one that is asked for: its instruction exists, and its kind is one of the family.
pub fn missing_findings_are_asked()
    ensures { MissingFindingsAreAsked }
{}
