//! Laws of the definitions, each the contract of a function that does nothing.

ghost use Rattle.keymap.specs.Laws as spec;

/// The bytes by which a key is typed are that key: those of a character, but for the line feed, and
/// those that a terminal sends. What tells a key tells it whatever follows.
pub fn typed_keys_are_read()
    ensures chars { spec.CharsAreRead }
    ensures forms { spec.FormsAreRead }
    ensures closed { spec.ClosedTells }
{}

/// The name of a key or of a function is read back.
pub fn names_are_read()
    ensures keys { spec.NamesAreRead }
    ensures functions { spec.FunctionIsFound }
    ensures calls { spec.CallIsRead }
{}

/// The last binding of a sequence counts and changes no other, and a text that is put before
/// waiting keys comes first.
pub fn last_binding_counts()
    ensures bound { spec.BoundCounts }
    ensures others { spec.OthersStay }
    ensures text { spec.TextIsFirst }
{}
