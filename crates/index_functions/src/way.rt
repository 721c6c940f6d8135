//! Where a motion leads.

ghost use Rattle.std.specs.Prelude.{◌≡◌};
ghost use Rattle.index_functions.specs.Ways as spec;

use crate::notice::Notice;
use mail_base::Id;

/// Where a motion leads, or why the cursor stays.
#[derive(Clone, Copy, Debug, PartialEq, Eq)]
pub enum Way {
    To(Id),
    Stays(Notice),
}

/// To a message, or a notice why not.
pub fn way_or(notice: Notice, to: Option<Id>) -> Way
    ensures { result ≡ spec.way_or notice to }
{
    match to {
        Some(id) => Way::To(id),
        None => Way::Stays(notice),
    }
}
