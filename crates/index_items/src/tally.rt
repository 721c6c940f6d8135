//! How many of the listed messages are new, deleted and so on.

ghost use Rattle.std.specs.Prelude.{◌≡◌, ◌<◌, ◌+◌, ◌^◌, true, length, slice_set};
ghost use Rattle.index_items.specs.Items.{plain_item, plain_items};
ghost use Rattle.index_items.specs.Tally as spec;

use crate::change::change_of;
use crate::item::Item;
use mail_base::Kind;

/// Of each kind of folder, with how many of the listed messages a sync that purges has something to
/// do.
#[derive(Clone, Copy)]
pub struct Unsynced {
    pub mbox: u64,
    pub maildir: u64,
    pub mh: u64,
    pub mmdf: u64,
}

/// How many of the listed messages are new, old and unread, unread, marked deleted, flagged and
/// tagged, hidden ones counted, and with how many a sync that purges has something to do.
#[derive(Clone, Copy)]
pub struct Tally {
    pub new: u64,
    pub old: u64,
    pub unread: u64,
    pub deleted: u64,
    pub flagged: u64,
    pub tagged: u64,
    pub unsynced: Unsynced,
}

const NONE: Tally = Tally {
    new: 0,
    old: 0,
    unread: 0,
    deleted: 0,
    flagged: 0,
    tagged: 0,
    unsynced: Unsynced {
        mbox: 0,
        maildir: 0,
        mh: 0,
        mmdf: 0,
    },
};

impl Unsynced {
    // With how many messages in a folder of the kind.
    fn of_kind(self, kind: Kind) -> u64
        ensures { result ≡ spec.of_kind kind self }
    {
        match kind {
            Kind::Mbox => self.mbox,
            Kind::Maildir => self.maildir,
            Kind::Mh => self.mh,
            Kind::Mmdf => self.mmdf,
        }
    }
}

impl Tally {
    ghost use Rattle.std.specs.Prelude.{◌≡◌, List};
    ghost use Rattle.index_items.specs.Items.{PlainItem};
    ghost use Rattle.index_items.specs.Tally.{is_changed, tally_of};

    /// Whether a sync that purges has something to do in a folder of the kind.
    pub fn is_changed(self, kind: Kind) -> bool
        ensures { (items : List PlainItem) → self ≡ tally_of items
            → result ≡ is_changed kind items }
    {
        self.unsynced.of_kind(kind) != 0
    }
}

// Whether a sync that purges has something to do with a message.
fn has_change(kind: Kind, item: Item) -> bool
    ensures { result ≡ spec.has_change kind (plain_item item) }
{
    change_of(kind, true, item).is_some()
}

// One more, where it is so.
fn raised(count: u64, is_so: bool) -> u64
    requires { count + 1 < 2 ^ 64 }
    ensures { result ≡ spec.raised count is_so }
{
    if is_so { count + 1 } else { count }
}

// One less, where it was so.
fn lowered(count: u64, was_so: bool) -> u64
    requires { was_so ≡ true → 0 < count }
    ensures { result ≡ spec.lowered count was_so }
{
    if was_so { count - 1 } else { count }
}

// A tally with one more message.
fn with_item(tally: Tally, item: Item) -> Tally
    requires { spec.HasRoom 1 tally }
    ensures { result ≡ spec.with_item tally (plain_item item) }
{
    let flags = item.shown();
    let unsynced = tally.unsynced;
    Tally {
        new: raised(tally.new, flags.is_new()),
        old: raised(tally.old, flags.is_old()),
        unread: raised(tally.unread, !flags.seen),
        deleted: raised(tally.deleted, item.pending.deleted),
        flagged: raised(tally.flagged, flags.flagged),
        tagged: raised(tally.tagged, item.tagged),
        unsynced: Unsynced {
            mbox: raised(unsynced.mbox, has_change(Kind::Mbox, item)),
            maildir: raised(unsynced.maildir, has_change(Kind::Maildir, item)),
            mh: raised(unsynced.mh, has_change(Kind::Mh, item)),
            mmdf: raised(unsynced.mmdf, has_change(Kind::Mmdf, item)),
        },
    }
}

// A tally with one message less.
fn without_item(tally: Tally, item: Item) -> Tally
    requires { spec.Counts tally (plain_item item) }
    ensures { result ≡ spec.without_item tally (plain_item item) }
{
    let flags = item.shown();
    let unsynced = tally.unsynced;
    Tally {
        new: lowered(tally.new, flags.is_new()),
        old: lowered(tally.old, flags.is_old()),
        unread: lowered(tally.unread, !flags.seen),
        deleted: lowered(tally.deleted, item.pending.deleted),
        flagged: lowered(tally.flagged, flags.flagged),
        tagged: lowered(tally.tagged, item.tagged),
        unsynced: Unsynced {
            mbox: lowered(unsynced.mbox, has_change(Kind::Mbox, item)),
            maildir: lowered(unsynced.maildir, has_change(Kind::Maildir, item)),
            mh: lowered(unsynced.mh, has_change(Kind::Mh, item)),
            mmdf: lowered(unsynced.mmdf, has_change(Kind::Mmdf, item)),
        },
    }
}

// A tally where the second message stands in place of the first.
fn exchanged(tally: Tally, was: Item, is: Item) -> Tally
    requires counted { spec.Counts tally (plain_item was) }
    requires room { spec.HasRoom 1 (spec.without_item tally (plain_item was)) }
    ensures { result ≡ spec.exchanged tally (plain_item was) (plain_item is) }
{
    with_item(without_item(tally, was), is)
}

/// The tally of messages with this one put at a place, by the tally that they have.
pub(crate) fn tally_with(tally: Tally, items: &[Item], place: usize, item: Item) -> Tally
    requires place { place < length items.now }
    requires tally { tally ≡ spec.tally_of (plain_items items.now) }
    ensures { result
        ≡ spec.tally_of (slice_set (plain_items items.now) place (plain_item item)) }
{
    exchanged(tally, items[place], item)
}

/// The tally of messages.
pub fn tally_of(items: &[Item]) -> Tally
    ensures { result ≡ spec.tally_of (plain_items items.now) }
{
    let mut tally = NONE;
    let mut left = items;
    while let Some((first, rest)) = left.split_first() {
        tally = with_item(tally, *first);
        left = rest;
    }
    tally
}
