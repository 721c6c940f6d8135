//! Laws of the definitions, each the contract of a function that does nothing.

ghost use Rattle.mh_sequences.specs.Laws as spec;

/// A number that is put into a sequence or taken out changes there alone.
pub fn put_changes_one()
    ensures { spec.PutChangesOne }
{}

/// A number that is dropped goes from all sequences, and no other does.
pub fn drop_takes_one()
    ensures { spec.DropTakesOne }
{}

/// No range that is read is upside down, and no change makes one so.
pub fn ranges_stay_upright()
    ensures { spec.StaysUpright }
{}

/// A number is in a sequence that is read exactly where a range of the file writes it there.
pub fn sequences_hold_what_is_written()
    ensures { spec.HoldsWritten }
{}
