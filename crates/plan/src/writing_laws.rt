//! The text of a plan. Each theorem stands in the contract of a small function.
ghost use Rattle.plan.specs.WrittenBack.{WrittenBack};
ghost use Rattle.plan.specs.WrittenLaws.{LeavesDecide, NamesDecide, LengthsAreBounded, OneReading, OneLeafReading};

use text::Kind;

/// Two plans of one shape whose leaves have the same texts have the same text.
pub fn texts_of_leaves_decide()
    ensures { LeavesDecide }
{}

/// Of the texts of names, only those of the names that the leaves use count.
pub fn texts_of_names_decide()
    ensures { NamesDecide }
{}

/// The text of a plan within the limits has at most 3,135 bytes, whatever its names.
pub fn lengths_are_bounded()
    ensures { LengthsAreBounded }
{}

/// A text has one reading: well-formed plans with the same text have the same shape, and their leaves the same texts.
pub fn texts_have_one_reading()
    ensures { OneReading }
{}

/// The text of a leaf has one reading: leaves with names and the same text have names of the same text, and the same marks.
pub fn leaves_have_one_reading()
    ensures { OneLeafReading }
{}

/// What `read` reads is written back: under the names that were read with it, `write` gives the text that was read.
pub fn texts_are_written_back<K: Kind>()
    ensures { WrittenBack K.text K.has }
{}
