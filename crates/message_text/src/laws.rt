//! What is so of every message that is shown.

ghost use Rattle.message_text.specs.Laws as spec;

/// With no weeding a message begins with a line for each of its fields, in their order.
pub fn unweeded_fields_are_all_shown()
    ensures { spec.UnweededFieldsAreAllShown }
{}

/// Each field that is not left out is shown once, whatever the order.
pub fn kept_fields_are_shown_once()
    ensures { spec.KeptFieldsAreShownOnce }
{}

/// No part is left out for want of levels.
pub fn levels_are_enough()
    ensures { spec.LevelsAreEnough }
{}
