//! The known messages of a folder by their bases.

ghost use Rattle.std.specs.Prelude.{◌≡◌, ◌<◌, length, map, option_map};
ghost use Rattle.folder_core.specs.Keeping.{keyed, mail_of, mails_of};
ghost use Rattle.folder_core.specs.MaildirNames.{order_of};
ghost use Rattle.folder_letters.specs.Letters.{plain_letter};
ghost use Rattle.maildir_folder.specs.KnownBase as spec;

use folder_core::{Letter, Listed};
use mail_base::Id;
use std::cmp::Ordering;

/// The id of the known message with a base, whose number is `order`.
pub fn known_id(listing: &[Listed], archive: &[Letter], order: u64, base: &[u8]) -> Option<Id>
    requires known { spec.CanSearch (map plain_letter archive.now) listing.now }
    requires order { order ≡ order_of base.now }
    ensures { option_map (λ id. id.0) result
        ≡ keyed (mails_of (map plain_letter archive.now) listing.now) base.now }
{
    let mut left = listing;
    while !left.is_empty() {
        let (front, behind) = left.split_at(left.len() / 2);
        let [listed, rest @ ..] = behind else {
            unreachable!()
        };
        match compare(archive, listed.id, order, base) {
            Ordering::Equal => return Some(listed.id),
            Ordering::Less => left = rest,
            Ordering::Greater => left = front,
        }
    }
    None
}

// Where a letter stands to a base, whose number is `order`.
fn compare(archive: &[Letter], id: Id, order: u64, base: &[u8]) -> Ordering
    requires { id.0 < length archive.now }
    ensures { result ≡ spec.base_cmp (mail_of (map plain_letter archive.now) id.0) order base.now }
{
    let letter = &archive[id.0 as usize];
    letter
        .order
        .cmp(&order)
        .then(letter.key.as_slice().cmp(base))
}

/// How many bytes the core of a letter has.
pub fn core_size(archive: &[Letter], id: Id) -> u64
    requires { id.0 < length archive.now }
    ensures { result ≡ length (mail_of (map plain_letter archive.now) id.0).core }
{
    archive[id.0 as usize].core.len() as u64
}
