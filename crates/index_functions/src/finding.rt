//! What was found of a folder.

ghost use Rattle.std.specs.Prelude.{◌≡◌, [], IfOk};
ghost use Rattle.index_functions.specs.Finding as spec;

use crate::notice::Notice;
use folder_letters::{Found, Listing};
use mail_base::{Ids, NoMemory};
use std::alloc::Global;

/// What was found where these messages came.
pub fn first_found(alloc: Global, came: &Listing) -> Result<Found, NoMemory>
    ensures gone { IfOk result (λ found. found.gone.items ≡ []) }
    ensures reflagged { IfOk result (λ found. found.reflagged.items ≡ []) }
    ensures came { IfOk result (λ found. found.came.items ≡ came.now.items) }
{
    Ok(Found {
        gone: Ids::new(alloc),
        reflagged: Listing::new(alloc),
        came: Listing::from_vec(came.as_slice().to_vec(alloc)?),
    })
}

/// What is told of what a check found.
pub fn found_notice(found: &Found) -> Option<Notice>
    ensures { result ≡ spec.found_notice found.now.gone.items found.now.came.items }
{
    match (found.gone.as_slice(), found.came.as_slice()) {
        ([], []) => None,
        ([], _) => Some(Notice::NewMail),
        (_, _) => Some(Notice::Modified),
    }
}
