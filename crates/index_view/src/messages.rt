//! The listed messages with what patterns see of them.

ghost use Rattle.std.specs.Prelude.{◌≡◌, length};
ghost use Rattle.index_listed.specs.Threading.{AllWithin};

use index_listed::{Links, Listed};
use patterns_match::Row;

/// The listed messages, of which patterns are asked: each stands at one place of the three lists.
#[derive(Clone, Copy)]
pub struct Messages<'a> {
    pub listed: &'a [Listed<'a>],
    pub rows: &'a [Row],
    pub links: &'a [Links],
    ghost rows_long: { length rows.now ≡ length listed.now },
    ghost links_long: { length links.now ≡ length listed.now },
    ghost within: { AllWithin (length listed.now) links.now },
}
