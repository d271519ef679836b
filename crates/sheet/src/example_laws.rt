//! Worked examples, and a mistake that is easily made. Each theorem stands in the contract of a small function.
ghost use Rattle.sheet.specs.Examples.{AllExamples};
ghost use Rattle.sheet.specs.Mistakes.{KeepingIsMistaken};

/// All worked examples hold: those of plans, and those of readings, amounts and distances.
pub fn all_examples()
    ensures { AllExamples }
{}

/// Where two amounts meet, keeping the first is a mistake: of `+(a:1@2,a:-4@2)`, stamped a, it loses -4.
pub fn keeping_is_mistaken()
    ensures { KeepingIsMistaken }
{}
