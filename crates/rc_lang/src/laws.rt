//! Laws of the definitions, each the contract of a function that does nothing.

ghost use Rattle.rc_lang.specs.Laws as spec;

/// What a query prints of a text variable, behind `set `, is read as a command, stays when its
/// variables are put in, and sets
/// that text again. The text is UTF-8 without quotes, backslashes, dollar signs and line ends.
pub fn printed_texts_are_set()
    ensures read { spec.PrintedIsRead }
    ensures stays { spec.TextStays }
    ensures sets { spec.AssignmentSets }
{}

/// `reset` gives each variable its default, and changes no other.
pub fn reset_gives_defaults()
    ensures { spec.ResetGivesDefault }
{}
