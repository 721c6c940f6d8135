//! Which header fields are shown, and in which order.

ghost use Rattle.std.specs.Prelude.{◌≡◌, filter, map, not, IfOk};
ghost use Rattle.headers.specs.Field.{plain_field};
ghost use Rattle.headers.specs.Values.{is_named};
ghost use Rattle.message_text.specs.Weeding as spec;

use headers::Field;
use mail_base::{Bytes, Names, NoMemory, is_same_name};
use std::alloc::Global;

/// Which header fields are shown, and in which order (Mutt's manual, "ignore", "hdr_order").
#[derive(Drop)]
pub struct Weeding {
    /// With what the names of fields begin that are shown all the same (`unignore`).
    pub shown: Names,
    /// With what the names of fields begin that are left out (`ignore`).
    pub hidden: Names,
    /// The names of the fields that come first (`hdr_order`).
    pub order: Names,
    /// Whether fields are left out and put in order at all.
    pub weed: bool,
}

// Whether the name begins with the entry; `*` stands for all names.
fn stands_for(name: &[u8], entry: &[u8]) -> bool
    ensures { result ≡ spec.stands_for name.now entry.now }
{
    let (front, _) = name.split_at(entry.len().min(name.len()));
    entry == b"*".as_slice() || is_same_name(front, entry)
}

fn is_listed(name: &[u8], entries: &[Bytes]) -> bool
    ensures { result ≡ spec.is_listed name.now (map (λ e. e.items) entries.now) }
{
    let mut left = entries;
    while let [first, rest @ ..] = left {
        if stands_for(name, first.as_slice()) {
            return true;
        }
        left = rest;
    }
    false
}

impl Weeding {
    /// All fields as they stand.
    pub fn none(alloc: Global) -> Self
        ensures { spec.plain_weeding result ≡ spec.unweeded }
    {
        Weeding {
            shown: Names::new(alloc),
            hidden: Names::new(alloc),
            order: Names::new(alloc),
            weed: false,
        }
    }

    fn keeps(&self, field: &Field) -> bool
        ensures { result ≡ spec.is_kept (spec.plain_weeding self.now) (plain_field field.now) }
    {
        let name = field.name.as_slice();
        !self.weed
            || !is_listed(name, self.hidden.as_slice())
            || is_listed(name, self.shown.as_slice())
    }

    /// The names of the fields that come first.
    pub(crate) fn names(&self) -> &[Bytes]
        ensures { map (λ n. n.items) result.now ≡ spec.names_of (spec.plain_weeding self.now) }
    {
        if self.weed {
            self.order.as_slice()
        } else {
            &[]
        }
    }

    /// The fields that are not left out.
    pub(crate) fn kept<'a>(
        &self,
        alloc: Global,
        fields: &'a [Field],
    ) -> Result<Vec<&'a Field>, NoMemory>
        ensures { IfOk result (λ v. map (λ f. plain_field f.now) v.items
            ≡ filter (spec.is_kept (spec.plain_weeding self.now))
            (map plain_field fields.entry.now)) }
    {
        let mut kept = Vec::new(alloc);
        let mut left = fields;
        while let [first, rest @ ..] = left {
            if self.keeps(first) {
                kept.push(first)?;
            }
            left = rest;
        }
        Ok(kept)
    }
}

/// The fields of other names.
pub fn others<'a>(
    alloc: Global,
    fields: &[&'a Field],
    name: &[u8],
) -> Result<Vec<&'a Field>, NoMemory>
    ensures { IfOk result (λ v. map (λ f. plain_field f.now) v.items
        ≡ filter (λ f. not (is_named name.now f)) (map (λ f. plain_field f.now) fields.entry.now)) }
{
    let mut others = Vec::new(alloc);
    let mut left = fields;
    while let [first, rest @ ..] = left {
        if !is_same_name(first.name.as_slice(), name) {
            others.push(*first)?;
        }
        left = rest;
    }
    Ok(others)
}
