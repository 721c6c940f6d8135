//! What is told of syncs.

ghost use Rattle.std.specs.Prelude.{◌≡◌};
ghost use Rattle.index_functions.specs.Syncs as spec;
ghost use Rattle.index_items.specs.Changes.{plain_changes};

use folder_letters::{Change, Changed1};

/// How many messages these changes take away.
pub fn count_discards(changes: &[Changed1]) -> usize
    ensures { result ≡ spec.count_discards (plain_changes changes.now) }
{
    let mut left = changes;
    let mut count = 0;
    while let [first, rest @ ..] = left {
        if let Change::Discard = first.change {
            count += 1;
        }
        left = rest;
    }
    count
}
