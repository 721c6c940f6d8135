//! Laws of the definitions, each the contract of a function that does nothing.

ghost use Rattle.maildir_names.specs.Laws as spec;

/// A name that is made is read as its base and its letters, whatever they are.
pub fn made_names_are_split()
    ensures { spec.MadeIsSplit }
{}
