//! Laws of what is read: what was written so is read back.

ghost use Rattle.mime_tree.specs.Laws as spec;

/// Each byte that is written as `=` and two digits is read back.
pub fn quoted_bytes_are_read()
    ensures { spec.QuotedBytesAreRead }
{}

/// A parameter that is written in quotes is read back.
pub fn written_parameter_is_read()
    ensures { spec.WrittenParameterIsRead }
{}

/// Texts that are written between delimiter lines are cut apart again.
pub fn written_sections_are_cut()
    ensures { spec.WrittenSectionsAreCut }
{}
