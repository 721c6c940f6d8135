//! How the index is sorted (Mutt's manual, "sort" and "sort_aux").

ghost use Rattle.std.specs.Prelude.{◌≡◌};
ghost use Rattle.index_order.specs.Order as spec;

/// What messages are sorted by.
#[derive(Clone, Copy, Debug, PartialEq, Eq)]
pub enum Sort {
    DateSent,
    DateReceived,
    From,
    MailboxOrder,
    Score,
    Size,
    Subject,
    Threads,
    To,
}

impl Sort {
    /// Whether messages stand in threads.
    pub fn is_threads(self) -> bool
        ensures { result ≡ spec.is_threads self }
    {
        matches!(self, Sort::Threads)
    }
}

/// How the index is sorted.
#[derive(Clone, Copy, Debug, PartialEq, Eq)]
pub struct SortOptions {
    pub sort: Sort,
    /// Different keys stand in turned order; of threads those of the roots alone.
    pub reverse: bool,
    /// By what roots and siblings stand in threads; for `Threads` it is the date sent.
    pub aux: Sort,
    /// Their different keys stand in turned order.
    pub aux_reverse: bool,
    /// The key of a thread is the greatest among its messages.
    pub aux_last: bool,
}
