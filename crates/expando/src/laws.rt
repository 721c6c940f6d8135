//! Laws of the definitions, each the contract of a function that does nothing.

ghost use Rattle.expando.specs.Laws as spec;

/// A format that is written is read as itself.
pub fn printed_formats_are_read()
    ensures { spec.FormatsAreRead }
{}

/// A gap is filled exactly, so that what follows it ends at the last column.
pub fn gaps_are_filled()
    ensures filled { spec.FilledTakes }
    ensures ends { spec.EndsAtTheLast }
{}
