//! Laws of the definitions, each the contract of a function that does nothing.

ghost use Rattle.mbox_writes.specs.Laws as spec;

/// What is known of a mailbox is right again once changes stand in it.
pub fn known_stays_right()
    ensures { spec.KnownStaysRight }
{}

/// Changes of a mailbox leave of each message what does not change with its status, but for those
/// that are discarded.
pub fn cores_stay()
    ensures { spec.CoresStay }
{}

/// Changes of a mailbox make no message more.
pub fn few_messages()
    ensures { spec.FewMessages }
{}
