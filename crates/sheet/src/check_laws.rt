//! What follows from the answer of `check`. The theorems stand in the contract of a small function.
ghost use Rattle.sheet.specs.CheckLaws.{FirstIsChecked, NoneIsChecked, UnevenIsNot, MoreIsNot, UnknownIsNot};

/// `check` says yes to what `reading` gives, and no to every list where there is no reading, where the lists are not of one
/// length, where there are more stamps than leaves, and where a number is no leaf's.
pub fn checked_so()
    ensures first { FirstIsChecked }
    ensures none { NoneIsChecked }
    ensures uneven { UnevenIsNot }
    ensures more { MoreIsNot }
    ensures unknown { UnknownIsNot }
{}
