//! The bindings of all menus.

ghost use Rattle.std.specs.Prelude.{◌≡◌, fold, option_map, IfOk, OnOk, OnErr};
ghost use Rattle.keymap.specs.Bindings.{Run, Replace, plain_action, plain_found};
ghost use Rattle.keymap.specs.Functions.{plain_row};
ghost use Rattle.keymap.specs.Keymap as spec;
ghost use Rattle.keymap.specs.Pieces.{pieces};

use crate::bindings::{Action, Bindings, Found};
use crate::function::{Function, MenuKeys, Row, rows};
use crate::key::{Key, Keys};
use crate::key_word::read_keys;
use crate::menu::Menu;
use crate::piece::behind_piece;
use mail_base::{NoMemory, first_word};
use std::alloc::Global;
use std::marker::Model;

/// The bindings of all menus, with the keys of a begun sequence.
pub struct Keymap {
    pub(crate) alloc: Global,
    index: Bindings,
    pager: Bindings,
    attach: Bindings,
    generic: Bindings,
    pub(crate) begun: Vec<Key>,
}

impl Model for Keymap {
    ghost use Rattle.keymap.specs.Keymap.{PlainKeymap};

    ghost Value = { PlainKeymap };

    ghost view = { λ k. record {
      index = k.index;
      pager = k.pager;
      attach = k.attach;
      generic = k.generic;
      begun = k.begun.items;
    } };
}

impl Drop for Keymap {
    fn drop(self) {
        let Keymap {
            alloc: _,
            index: _,
            pager: _,
            attach: _,
            generic: _,
            begun: _,
        } = self;
    }
}

impl Keymap {
    /// The default keys of all functions.
    #[tactic(auto, unfolding(crate::specs::Keymap::default_keymap))]
    pub fn new(alloc: Global) -> Result<Keymap, NoMemory>
        ensures { IfOk result (λ k. k ≡ spec.default_keymap) }
    {
        let mut keymap = Keymap {
            alloc,
            index: Bindings::new(alloc),
            pager: Bindings::new(alloc),
            attach: Bindings::new(alloc),
            generic: Bindings::new(alloc),
            begun: Vec::new(alloc),
        };
        let mut left = rows();
        while let [row, rest @ ..] = left {
            keymap.bind_row(row)?;
            left = rest;
        }
        Ok(keymap)
    }

    fn bind_row(&mut self, row: &Row) -> Result<(), NoMemory>
        ensures { OnOk result (self.new ≡ spec.with_row self.old (plain_row row.now)) }
    {
        bind_keys(self.alloc, &mut self.index, row.1, row.2)?;
        bind_keys(self.alloc, &mut self.pager, row.1, row.3)?;
        bind_keys(self.alloc, &mut self.attach, row.1, row.4)
    }

    /// Whether keys of a bound sequence were pressed that wait for its rest.
    pub fn has_begun(&self) -> bool
        ensures { result ≡ spec.has_begun self.now.begun }
    {
        match self.begun.as_slice() {
            [] => false,
            _ => true,
        }
    }

    /// Binds keys to a function.
    pub fn bind(&mut self, menu: Menu, keys: &Keys, function: Function) -> Result<(), NoMemory>
        requires { spec.IsSequence keys.now.items }
        ensures ok { OnOk result (self.new
            ≡ spec.bound_in self.old menu keys.now.items (Run function)) }
        ensures err { OnErr result (self.new ≡ self.old) }
    {
        self.bind_action(menu, keys.as_slice(), Action::Run(function))
    }

    /// Binds keys to a text that replaces them.
    pub fn macro_key(&mut self, menu: Menu, keys: &Keys, text: &Keys) -> Result<(), NoMemory>
        requires { spec.IsSequence keys.now.items }
        ensures ok { OnOk result (self.new
            ≡ spec.bound_in self.old menu keys.now.items (Replace text.now.items)) }
        ensures err { OnErr result (self.new ≡ self.old) }
    {
        let text = Keys::from_vec(Vec::from_slice(self.alloc, text.as_slice())?);
        self.bind_action(menu, keys.as_slice(), Action::Replace(text))
    }

    fn bind_action(&mut self, menu: Menu, keys: &[Key], action: Action) -> Result<(), NoMemory>
        ensures ok { OnOk result (self.new
            ≡ spec.bound_in self.old menu keys.now (plain_action action)) }
        ensures err { OnErr result (self.new ≡ self.old) }
    {
        match menu {
            Menu::Index => self.index.bind(self.alloc, keys, action),
            Menu::Pager => self.pager.bind(self.alloc, keys, action),
            Menu::Attach => self.attach.bind(self.alloc, keys, action),
            Menu::Generic => self.generic.bind(self.alloc, keys, action),
        }
    }

    fn bindings(&self, menu: Menu) -> &Bindings
        ensures { result.now ≡ spec.bindings_of self.now menu }
    {
        match menu {
            Menu::Index => &self.index,
            Menu::Pager => &self.pager,
            Menu::Attach => &self.attach,
            Menu::Generic => &self.generic,
        }
    }

    /// What the keys are in a menu: bound there, or, but for the pager, as a fallback.
    pub(crate) fn find(&self, menu: Menu, keys: &[Key]) -> Found<'_>
        ensures { plain_found result ≡ spec.found_in self.now menu keys.now }
    {
        match self.bindings(menu).find(keys) {
            Found::Unbound if menu != Menu::Pager => self.generic.find(keys),
            found => found,
        }
    }
}

// Binds a function's default keys in a menu.
fn bind_keys(
    alloc: Global,
    bindings: &mut Bindings,
    function: Function,
    keys: MenuKeys,
) -> Result<(), NoMemory>
    ensures { OnOk result (bindings.new
        ≡ spec.bound_keys function bindings.old (option_map (λ k. k.now) keys.entry)) }
{
    match keys {
        Some(words) => bind_words(alloc, bindings, function, words),
        None => Ok(()),
    }
}

fn bind_words(
    alloc: Global,
    bindings: &mut Bindings,
    function: Function,
    words: &[u8],
) -> Result<(), NoMemory>
    ensures { OnOk result (bindings.new
        ≡ fold (spec.bound_word function) bindings.old (pieces spec.one_word words.now)) }
{
    let mut left = words;
    while !left.is_empty() {
        let word = first_word(left);
        let keys = read_keys(alloc, word, false)?;
        bindings.bind(alloc, keys.as_slice(), Action::Run(function))?;
        left = behind_piece(left, word.len());
    }
    Ok(())
}
