//! Which messages satisfy the limit.

ghost use Rattle.std.specs.Prelude.{◌≡◌, option_map, IfOk};
ghost use Rattle.index_view.specs.Limit as spec;
ghost use Rattle.index_view.specs.Tables.{seen_of};
ghost use Rattle.patterns_match.specs.Pattern.{plain_pattern};

use crate::messages::Messages;
use mail_base::NoMemory;
use patterns_match::{Pattern, Table, all_matches};
use people::People;
use std::alloc::Global;

/// Which messages satisfy the limit, if there is one. What that asks of other messages is asked
/// once of each.
pub fn all_within(
    alloc: Global,
    limit: &mut Option<Pattern>,
    people: &mut People,
    messages: &Messages<'_>,
) -> Result<Vec<bool>, NoMemory>
    ensures value { IfOk result (λ within. within.items ≡ spec.all_within people.old
        (option_map plain_pattern limit.old) (seen_of messages.now)) }
    ensures same { (limit.new ≡ limit.old) × (people.new ≡ people.old) }
{
    match &*limit {
        Some(pattern) => {
            let within = all_matches(alloc, pattern, messages, people)?;
            Ok(within)
        }
        None => Ok(vec![in alloc; true; messages.len()]?),
    }
}
