//! The names that files get where flags of their messages change.

ghost use Rattle.std.specs.Prelude.{◌≡◌, IfOk};
ghost use Rattle.mail_base.specs.Flags.{applied, stored};
ghost use Rattle.mail_base.specs.declared.kind.Kind.TheVariants.{Maildir};
ghost use Rattle.folder_changes.specs.Maildir.{flags_named};
ghost use Rattle.folder_core.specs.Maildir.{base_of};
ghost use Rattle.maildir_folder.specs.Candidates.{IsCandidate, plain_file};
ghost use Rattle.folder_drivers.specs.MaildirSync.{file_with};

use crate::candidates::Candidate;
use mail_base::{Bytes, Delta, Flags, Kind, NoMemory};
use maildir_names::{MaildirName, flags_of, make_name, other_letters, split_name};
use std::alloc::Global;

/// A file under the name that it gets where flags of its message change: its base, the flags with
/// the change, and all letters that stand for no flag.
pub fn renamed(alloc: Global, file: &Candidate, delta: Delta) -> Result<Candidate, NoMemory>
    requires { IsCandidate file.now }
    ensures name { IfOk result (λ c. plain_file c ≡ file_with (stored Maildir
        (applied (flags_named (plain_file file.now)) delta.added delta.cleared))
        (plain_file file.now)) }
    ensures flags { IfOk result (λ c. flags_named (plain_file c) ≡ stored Maildir
        (applied (flags_named (plain_file file.now)) delta.added delta.cleared)) }
    ensures base { IfOk result (λ c. base_of (plain_file c) ≡ base_of (plain_file file.now)) }
    ensures each { IfOk result IsCandidate }
{
    let (_, letters) = split_name(&file.name);
    let flags = flags_of(!file.is_new, letters).apply(delta);
    let made = with_flags(alloc, file, flags.stored(Kind::Maildir))?;
    Ok(made)
}

// A file under the name that tells these flags.
fn with_flags(alloc: Global, file: &Candidate, flags: Flags) -> Result<Candidate, NoMemory>
    ensures name { IfOk result (λ c. plain_file c ≡ file_with flags (plain_file file.now)) }
    ensures same { IfOk result (λ c. (c.order ≡ file.now.order)
        × (c.base.items ≡ file.now.base.items)) }
{
    let (base, letters) = split_name(&file.name);
    let name = MaildirName {
        base: Bytes::copy_of(alloc, base)?,
        flags,
        others: other_letters(alloc, letters)?,
    };
    let made = make_name(alloc, &name)?;
    Ok(Candidate {
        order: file.order,
        base: file.base.to_vec(alloc)?,
        is_new: flags.is_new(),
        name: made.as_slice().to_vec(alloc)?,
    })
}
