//! The ids of the messages that a message may answer (RFC 5322, section 3.6.4).

ghost use Rattle.std.specs.Prelude.{◌≡◌, ◌++◌, map, reverse, option_map, option_to_list, IfOk};
ghost use Rattle.std.specs.Prelude.{OnOk};
ghost use Rattle.std.specs.List.{list_any};
ghost use Rattle.std.specs.Str.{bytes_eq};
ghost use Rattle.mail_base.specs.Series.{plain_texts};
ghost use Rattle.headers.specs.Candidates as spec;
ghost use Rattle.headers.specs.Candidates.{texts};
ghost use Rattle.headers.specs.FoldedField.{plain_folded};

use crate::folded_field::FoldedField;
use crate::references::last_references;
use crate::values::id_in;
use mail_base::{Bytes, Names, NoMemory};
use std::alloc::Global;

fn is_among(names: &[Bytes], id: &[u8]) -> bool
    ensures { result ≡ list_any (λ n. bytes_eq id.now n.items) names.now }
{
    names.iter().any(|name| id == name.as_slice())
}

fn add_new(alloc: Global, names: &mut Vec<Bytes>, id: &[u8]) -> Result<(), NoMemory>
    ensures { OnOk result (texts names.new.items ≡ spec.with_id (texts names.old.items) id.now) }
{
    if is_among(names.as_slice(), id) {
        return Ok(());
    }
    names.push(Bytes::copy_of(alloc, id)?)?;
    Ok(())
}

// A list with room for the id, if there is one, and so many more.
fn names_of(alloc: Global, id: Option<Bytes>, more: usize) -> Result<Vec<Bytes>, NoMemory>
    ensures { IfOk result
        (λ n. texts n.items ≡ option_to_list (option_map (λ i. i.items) id)) }
{
    let Some(id) = id else {
        return Ok(Vec::with_capacity(alloc, more)?);
    };
    let mut names = Vec::with_capacity(alloc, more.saturating_add(1))?;
    names.push(id)?;
    Ok(names)
}

// Adds ids from last to first, each unless it is there already.
fn add_backwards(alloc: Global, names: &mut Vec<Bytes>, ids: &[Bytes]) -> Result<(), NoMemory>
    ensures { OnOk result (texts names.new.items
        ≡ texts names.old.items
        ++ spec.new_ids (texts names.old.items) (reverse (texts ids.now))) }
{
    let mut left = ids;
    while let Some((last, rest)) = left.split_last() {
        add_new(alloc, names, last.as_slice())?;
        left = rest;
    }
    Ok(())
}

/// The ids of the messages that this one may answer, the most likely first: the first id of
/// In-Reply-To, then the last 64 of References (RFC 5322, section 3.6.4).
pub fn candidates_of(alloc: Global, fields: &[FoldedField<'_>]) -> Result<Names, NoMemory>
    ensures { IfOk result (λ n. plain_texts n ≡ spec.candidates (map plain_folded fields.now)) }
{
    let references = last_references(alloc, fields)?;
    let replied = id_in(alloc, fields, b"in-reply-to")?;
    let mut names = names_of(alloc, replied, references.len())?;
    add_backwards(alloc, &mut names, references.as_slice())?;
    names.shrink_to_fit();
    Ok(Names::from_vec(names))
}
