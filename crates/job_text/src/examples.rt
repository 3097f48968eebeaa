//! Worked examples: each function has an empty body, and its contract says what the definitions give for small texts.

ghost use Rattle.job_text.specs.Examples.{ReadsTexts, FindsFaults, MakesPrograms, PrintsPlans};

/// What texts without a fault say.
pub fn reads_texts()
    ensures { ReadsTexts }
{}

/// The first fault of a text.
pub fn finds_faults()
    ensures { FindsFaults }
{}

/// A plan's text.
pub fn prints_plans()
    ensures { PrintsPlans }
{}

/// The programs of a seed.
pub fn makes_programs()
    ensures { MakesPrograms }
{}
