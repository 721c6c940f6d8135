//! Laws of the definitions, each the contract of a function that does nothing.

ghost use Rattle.mbox_items.specs.Appended as spec;

/// A mailbox to which a message was added has this one behind all others, which tell what they did.
pub fn appended_mailboxes_read()
    ensures { spec.AppendedMailboxesRead }
{}
