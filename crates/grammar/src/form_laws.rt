//! The form of a plan's text, and when a text is refused. Each theorem stands in the contract of a small function.

ghost use Rattle.grammar.specs.Agreements.{BeginningsLive, FirstsAgree, FormsAreAccepted, RefusalsAgree, TakingsAgree};
ghost use Rattle.grammar.specs.FormExamples.{AnswersWorked};
ghost use Rattle.grammar.specs.Readings.{AlwaysDecided};

/// The machine that reads byte by byte accepts exactly the texts of the form.
pub fn forms_are_accepted()
    ensures { FormsAreAccepted }
{}

/// The machine lives on exactly the texts with which some text of the form begins.
pub fn beginnings_live()
    ensures { BeginningsLive }
{}

/// The machine refuses a text for exactly what the grammar refuses it for, with the same places.
pub fn refusals_agree()
    ensures { RefusalsAgree }
{}

/// What the machine refuses first is what the grammar refuses first.
pub fn firsts_agree()
    ensures { FirstsAgree }
{}

/// The machine takes a text exactly if it is of the form and refused for nothing.
pub fn takings_agree()
    ensures { TakingsAgree }
{}

/// Every text is either refused for nothing, and then of the form, or has exactly one first refusal.
pub fn always_decided()
    ensures { AlwaysDecided }
{}

/// Worked texts, with words for names: which are taken, and what the others are refused for first.
pub fn answers_worked()
    ensures { AnswersWorked }
{}
