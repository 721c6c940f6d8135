//! Which header fields muttrc names to be shown.

ghost use Rattle.std.specs.Prelude.{◌≡◌, ◌++◌, ◌∷◌, [], OnOk};
ghost use Rattle.mail_base.specs.Series.{plain_texts};
ghost use Rattle.rc_lang.specs.Settings.{plain_names};

use mail_base::{Bytes, Names, NoMemory};
use message_text::Weeding;
use std::alloc::Global;
use std::marker::Model;

/// A list of names of fields.
#[derive(Clone, Copy, Debug, PartialEq, Eq)]
pub enum WeedList {
    /// Those that `unignore` names.
    Shown,
    /// Those that `ignore` names.
    Hidden,
    /// Those that `hdr_order` names.
    Order,
}

/// The names that `ignore`, `unignore` and `hdr_order` have given.
#[derive(Drop)]
pub struct Weeds {
    shown: Names,
    hidden: Names,
    order: Names,
}

impl Model for Weeds {
    ghost use Rattle.mail_base.specs.Series.{plain_texts};
    ghost use Rattle.hook_requests.specs.Weeds.{PlainWeeds};

    ghost Value = { PlainWeeds };

    ghost view = { λ w. record {
      shown = plain_texts w.shown;
      hidden = plain_texts w.hidden;
      order = plain_texts w.order;
    } };
}

fn add_name(alloc: Global, names: &mut Names, name: &[u8]) -> Result<(), NoMemory>
    ensures { OnOk result (plain_texts names.new ≡ plain_texts names.old ++ name.now ∷ []) }
{
    names.push(Bytes::copy_of(alloc, name)?)
}

fn add_names(alloc: Global, names: &mut Names, more: &[Bytes]) -> Result<(), NoMemory>
    ensures { OnOk result
        (plain_texts names.new ≡ plain_texts names.old ++ plain_names more.now) }
{
    let mut left = more;
    while let Some((name, rest)) = left.split_first() {
        add_name(alloc, names, name.as_slice())?;
        left = rest;
    }
    Ok(())
}

impl Weeds {
    ghost use Rattle.std.specs.Prelude.{◌≡◌, IfOk, OnOk};
    ghost use Rattle.message_text.specs.Weeding.{plain_weeding};
    ghost use Rattle.rc_lang.specs.Settings.{plain_names};
    ghost use Rattle.hook_requests.specs.Weeds as spec;

    /// The names before a muttrc is read.
    pub fn new(alloc: Global) -> Result<Weeds, NoMemory>
        ensures { IfOk result (λ w. w ≡ spec.first_weeds) }
    {
        let mut weeds = Weeds {
            shown: Names::new(alloc),
            hidden: Names::new(alloc),
            order: Names::new(alloc),
        };
        add_name(alloc, &mut weeds.hidden, b"*")?;
        add_name(alloc, &mut weeds.shown, b"from")?;
        add_name(alloc, &mut weeds.shown, b"date")?;
        add_name(alloc, &mut weeds.shown, b"subject")?;
        add_name(alloc, &mut weeds.shown, b"to")?;
        add_name(alloc, &mut weeds.shown, b"cc")?;
        Ok(weeds)
    }

    /// Adds words at the end of a list.
    pub fn add(&mut self, alloc: Global, list: WeedList, words: &[Bytes]) -> Result<(), NoMemory>
        ensures { OnOk result
            (self.new ≡ spec.with_words list (plain_names words.now) self.old) }
    {
        match list {
            WeedList::Shown => add_names(alloc, &mut self.shown, words),
            WeedList::Hidden => add_names(alloc, &mut self.hidden, words),
            WeedList::Order => add_names(alloc, &mut self.order, words),
        }
    }

    /// A copy, by which fields are left out where `weed` says so.
    pub fn weeding(&self, alloc: Global, weed: bool) -> Result<Weeding, NoMemory>
        ensures { IfOk result (λ w. plain_weeding w ≡ spec.weeding_by weed self.now) }
    {
        let mut weeding = Weeding::none(alloc);
        add_names(alloc, &mut weeding.shown, self.shown.as_slice())?;
        add_names(alloc, &mut weeding.hidden, self.hidden.as_slice())?;
        add_names(alloc, &mut weeding.order, self.order.as_slice())?;
        weeding.weed = weed;
        Ok(weeding)
    }
}
