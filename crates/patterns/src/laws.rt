//! Laws of the definitions, each the contract of a function that does nothing.

ghost use Rattle.patterns.specs.Laws as spec;

/// A range that is written is read as itself.
pub fn printed_ranges_are_read()
    ensures { spec.RangesAreRead }
{}

/// A pattern that is written is read as itself, and only such trees are read as can be written but
/// for their terms.
pub fn printed_patterns_are_read()
    ensures read { spec.PatternsAreRead }
    ensures placed { spec.ReadPatternsArePlaced }
{}
