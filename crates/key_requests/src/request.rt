//! What the words of a command ask for.

ghost use Rattle.std.specs.Prelude.{◌≡◌, ◌∷◌, [], IfOk};
ghost use Rattle.std.specs.List.{list_all};
ghost use Rattle.mail_base.specs.Series.{plain_texts};
ghost use Rattle.keymap.specs.Keymap.{IsSequence};
ghost use Rattle.keymap.specs.Menus.{has as menu_has};
ghost use Rattle.rc_lang.specs.Settings.{Answers, plain_names};
ghost use Rattle.key_requests.specs.Requests as spec;

use keymap::{Function, Key, Keys, Menu, function_named, read_keys};
use mail_base::{Bytes, Words, split_once};
use rc_lang::{RcError, RcFault};
use std::alloc::Global;

/// Keys that are to run a function in these menus.
#[derive(Drop)]
pub struct BindRequest {
    pub menus: Vec<Menu>,
    pub keys: Keys,
    pub function: Function,
}

/// Keys that are to be replaced by a text in these menus.
#[derive(Drop)]
pub struct MacroRequest {
    pub menus: Vec<Menu>,
    pub keys: Keys,
    pub text: Keys,
}

impl BindRequest {
    /// Reads menus, keys and the name of a function.
    pub fn read(alloc: Global, words: &Words) -> Result<BindRequest, RcError>
        ensures value { Answers spec.plain_bind result (spec.bind_of (plain_texts words.now)) }
        ensures sequence { IfOk result (λ b. IsSequence b.keys.items) }
    {
        let keys = key_sequence(alloc, word_at(words, 2))?;
        let menus = menus_of(alloc, word_at(words, 1))?;
        let function = function_of(alloc, menus.as_slice(), word_at(words, 3))?;
        Ok(BindRequest {
            menus,
            keys,
            function,
        })
    }
}

impl MacroRequest {
    /// Reads menus, keys and their text.
    pub fn read(alloc: Global, words: &Words) -> Result<MacroRequest, RcError>
        ensures value { Answers spec.plain_macro result (spec.macro_of (plain_texts words.now)) }
        ensures sequence { IfOk result (λ m. IsSequence m.keys.items) }
    {
        let keys = key_sequence(alloc, word_at(words, 2))?;
        let text = key_text(alloc, word_at(words, 3))?;
        let menus = menus_of(alloc, word_at(words, 1))?;
        Ok(MacroRequest { menus, keys, text })
    }
}

/// A word of a command; one that is not there is empty.
pub fn word_at(words: &Words, place: usize) -> &[u8]
    ensures { result.now ≡ spec.word_at (plain_texts words.now) place }
{
    match words.get(place) {
        Some(word) => word.as_slice(),
        None => b"",
    }
}

// The keys of a word, of which a binding has one to eight.
fn key_sequence(alloc: Global, word: &[u8]) -> Result<Keys, RcError>
    ensures value { Answers (λ k. k.items) result (spec.sequence_of word.now) }
    ensures sequence { IfOk result (λ k. IsSequence k.items) }
{
    let Ok(keys) = read_keys(alloc, word, false) else {
        return Err(RcError::no_memory(alloc));
    };
    if keys.len() > 0 && keys.len() <= 8 {
        Ok(keys)
    } else {
        Err(RcError::new(alloc, RcFault::BadKey, word))
    }
}

/// The keys of a text, in which functions may be called.
pub fn key_text(alloc: Global, word: &[u8]) -> Result<Keys, RcError>
    ensures { Answers (λ k. k.items) result (spec.text_of word.now) }
{
    let Ok(keys) = read_keys(alloc, word, true) else {
        return Err(RcError::no_memory(alloc));
    };
    if keys.len() > 0 {
        Ok(keys)
    } else {
        Err(RcError::new(alloc, RcFault::BadKey, word))
    }
}

fn menu_named(name: &[u8]) -> Option<Menu>
    ensures { result ≡ spec.menu_named name.now }
{
    if name == b"index".as_slice() {
        Some(Menu::Index)
    } else if name == b"pager".as_slice() {
        Some(Menu::Pager)
    } else if name == b"attach".as_slice() {
        Some(Menu::Attach)
    } else if name == b"generic".as_slice() {
        Some(Menu::Generic)
    } else {
        None
    }
}

// The menu with the name, which stands in the word.
#[tactic(auto, unfolding(crate::specs::Requests::menu_of))]
fn menu_of(alloc: Global, word: &[u8], name: &[u8]) -> Result<Menu, RcError>
    ensures { Answers (λ menu. menu ∷ []) result (spec.menu_of word.now name.now) }
{
    match menu_named(name) {
        Some(menu) => Ok(menu),
        None => Err(RcError::new(alloc, RcFault::UnknownMenu, word)),
    }
}

// The menus that the word names, with commas between them.
fn menus_of(alloc: Global, word: &[u8]) -> Result<Vec<Menu>, RcError>
    ensures { Answers (λ menus. menus.items) result (spec.menus_of word.now) }
{
    let mut menus = Vec::new(alloc);
    let mut left = word;
    while let Some((name, rest)) = split_once(b',', left) {
        let menu = menu_of(alloc, word, name)?;
        let Ok(()) = menus.push(menu) else {
            return Err(RcError::no_memory(alloc));
        };
        left = rest;
    }
    let last = menu_of(alloc, word, left)?;
    let Ok(()) = menus.push(last) else {
        return Err(RcError::no_memory(alloc));
    };
    Ok(menus)
}

fn all_have(menus: &[Menu], function: Function) -> bool
    ensures { result ≡ list_all (λ menu. menu_has menu function) menus.now }
{
    menus.iter().all(|menu| menu.has(function))
}

// The function with the name, which each of the menus has.
fn function_of(alloc: Global, menus: &[Menu], name: &[u8]) -> Result<Function, RcError>
    ensures { Answers (λ f. f) result (spec.function_of menus.now name.now) }
{
    match function_named(name) {
        Some(function) if all_have(menus, function) => Ok(function),
        _ => Err(RcError::new(alloc, RcFault::UnknownFunction, name)),
    }
}

#[tactic(auto, unfolding(crate::specs::Requests::call_of))]
fn call_of(alloc: Global, name: &[u8]) -> Result<Key, RcError>
    ensures { Answers (λ key. key ∷ []) result (spec.call_of name.now) }
{
    match function_named(name) {
        Some(function) => Ok(Key::Call(function)),
        None => Err(RcError::new(alloc, RcFault::UnknownFunction, name)),
    }
}

/// The functions with these names, as keys that call them.
pub fn calls_of(alloc: Global, names: &[Bytes]) -> Result<Keys, RcError>
    ensures { Answers (λ keys. keys.items) result (spec.calls_of (plain_names names.now)) }
{
    let mut calls = Keys::new(alloc);
    let mut left = names;
    while let Some((name, rest)) = left.split_first() {
        let call = call_of(alloc, name.as_slice())?;
        let Ok(()) = calls.push(call) else {
            return Err(RcError::no_memory(alloc));
        };
        left = rest;
    }
    Ok(calls)
}
