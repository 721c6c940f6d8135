//! Laws of the definitions, each the contract of a function that does nothing.

ghost use Rattle.mbox_text.specs.Rewriting as spec;

/// A mailbox of which messages changed holds the changed messages and all others, in their order.
pub fn rewritten_mailboxes_read()
    ensures { spec.RewrittenMailboxesRead }
{}

/// A file of which messages changed begins with all that stood before the first of them.
pub fn fronts_stay()
    ensures { spec.FrontsStay }
{}
