//! Laws of drafts and their bytes.

ghost use Rattle.drafts.specs.Laws as spec;

/// A draft whose bytes are read back is the one that was written.
pub fn written_drafts_are_read()
    ensures { spec.WrittenDraftsAreRead }
{}

/// Two drafts never have the same bytes.
pub fn drafts_differ()
    ensures { spec.DraftsDiffer }
{}
