//! The files of messages, by their bases.

ghost use Rattle.std.specs.Prelude.{◌≡◌, IfSome, map, option_map, slice_get};
ghost use Rattle.std.specs.List.{All};
ghost use Rattle.std.specs.Option.{option_copied};
ghost use Rattle.folder_core.specs.MaildirNames.{order_of};
ghost use Rattle.maildir_folder.specs.Candidates.{IsCandidate, Rises, plain_file};
ghost use Rattle.maildir_folder.specs.NamedFile as spec;

use crate::candidates::Candidate;

// Whether a file stands before those of a base, whose number is `order`.
fn is_before(file: &Candidate, order: u64, base: &[u8]) -> bool
    ensures { result ≡ spec.is_before file.now order base.now }
{
    file.order
        .cmp(&order)
        .then(file.base.as_slice().cmp(base))
        .is_lt()
}

// The place of the first file that does not stand before those of a base, by a search in halves.
fn place_of(files: &[Candidate], order: u64, base: &[u8]) -> usize
    requires each { All IsCandidate files.now }
    requires rises { Rises None (map plain_file files.now) }
    requires order { order ≡ order_of base.now }
    ensures { spec.file_named (map plain_file files.now) base.now
        ≡ option_map plain_file (spec.file_if base.now (slice_get files.now result)) }
{
    files.partition_point(|file: &Candidate| is_before(file, order, base))
}

/// The first file of a base, whose number is `order`. It takes time by the logarithm of the number
/// of files.
pub fn find_file<'a>(files: &'a [Candidate], order: u64, base: &[u8]) -> Option<&'a Candidate>
    requires each { All IsCandidate files.now }
    requires rises { Rises None (map plain_file files.now) }
    requires order { order ≡ order_of base.now }
    ensures file { option_map plain_file (option_copied result)
        ≡ spec.file_named (map plain_file files.now) base.now }
    ensures each { IfSome (option_copied result) IsCandidate }
{
    match files.get(place_of(files, order, base)) {
        Some(file) if file.base.as_slice() == base => Some(file),
        _ => None,
    }
}
