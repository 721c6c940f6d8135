//! How the index stands in threads and in order.

use crate::options::{Sort, SortOptions};
use threads::ThreadOptions;

/// How the index stands in threads and in order (Mutt's manual, "sort" and "sort_aux").
#[derive(Clone, Copy, Debug, PartialEq, Eq)]
pub struct ViewOptions {
    pub threads: ThreadOptions,
    pub sort: Sort,
    /// Different keys stand in turned order; of threads those of the roots alone.
    pub reverse: bool,
    /// By what roots and siblings stand in threads; for `Threads` it is the date sent.
    pub aux: Sort,
    /// Their different keys stand in turned order.
    pub aux_reverse: bool,
    /// The key of a thread is the greatest among its messages.
    pub aux_last: bool,
}

impl ViewOptions {
    ghost use Rattle.std.specs.Prelude.{◌≡◌};
    ghost use Rattle.index_order.specs.Options.{sort_options};

    /// How the order is sorted.
    pub fn sorting(self) -> SortOptions
        ensures { result ≡ sort_options self }
    {
        SortOptions {
            sort: self.sort,
            reverse: self.reverse,
            aux: self.aux,
            aux_reverse: self.aux_reverse,
            aux_last: self.aux_last,
        }
    }
}
