//! That tokens spell at most one script, by the shape of their kinds alone, and have one answer.

ghost use Rattle.sgl_parser.specs.Readings.{HasOneReading, ShapesAreSpelled, HasOneAnswer};

/// A law, and no work: what one list of tokens spells is one script.
///
/// So the script of `parse` is the only one.
pub fn one_reading()
    ensures { HasOneReading }
{}

/// A law, and no work: tokens spell a script exactly where their kinds have the shape of one.
pub fn shapes_are_spelled()
    ensures { ShapesAreSpelled }
{}

/// A law, and no work: the tokens of a text have one answer. They spell a script and none is too deep, or they have one
/// fault.
///
/// So `parse` answers each of these exactly where it is due, but for want of memory.
pub fn one_answer()
    ensures { HasOneAnswer }
{}
