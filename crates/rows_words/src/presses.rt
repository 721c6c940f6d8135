//! Cases of keys that are pressed in a menu.

use crate::key_texts::{menu_named, need_function};
use case_files::{Answer, Case, CaseFault, Entry, Subject};
use keymap::{Key, KeyQueue, Keymap, Menu, Press, read_keys};
use mail_base::NoMemory;
use std::alloc::Global;

/// The lines are done in their order. `bind MENU FUNCTION` binds the keys of its word to a function
/// and `macro MENU KEYS` to its text; `menu` is the menu that is shown from then on. The keys of
/// `typed` are typed one by one, and after each those that wait are pressed, up to one that
/// waits for more; `put` puts its keys before all others, to be pressed then. Each `press` is an
/// answer, `presses` their number and `last` the last of them; `waiting` is how many keys wait.
pub struct Presses;

impl Subject for Presses {
    fn inputs(&self) -> &[&[u8]] {
        &[b"bind", b"macro", b"menu", b"typed", b"put"]
    }

    fn answer(&self, alloc: Global, case: &Case, answer: &mut Answer) -> Result<(), CaseFault> {
        let mut table = Table::new(alloc)?;
        table.run_all(case, answer)
    }
}

/// A keymap with the keys that wait, and what was pressed so far.
#[derive(Drop)]
struct Table {
    alloc: Global,
    menu: Menu,
    keymap: Keymap,
    queue: KeyQueue,
    presses: usize,
    last: &'static [u8],
}

impl Table {
    // The index with the default keys.
    fn new(alloc: Global) -> Result<Table, CaseFault> {
        let keymap = default_keys(alloc)?;
        Ok(Table {
            alloc,
            menu: Menu::Index,
            keymap,
            queue: KeyQueue::new(alloc),
            presses: 0,
            last: b"",
        })
    }

    // Does what each line says, and puts how they ended.
    fn run_all(&mut self, case: &Case, answer: &mut Answer) -> Result<(), CaseFault> {
        for entry in case.entries.as_slice() {
            self.run(entry, answer)?;
        }
        self.put_end(answer)
    }

    // Does what a line says.
    fn run(&mut self, entry: &Entry, answer: &mut Answer) -> Result<(), CaseFault> {
        let value = entry.value.as_slice();
        match entry.role() {
            b"menu" => self.menu = menu_named(value)?,
            b"bind" => self.bind(entry.about(), value)?,
            b"macro" => self.macro_key(entry.about(), value)?,
            b"typed" => self.typed(value, answer)?,
            b"put" => self.put(value, answer)?,
            _ => {}
        }
        Ok(())
    }

    fn bind(&mut self, about: &[u8], word: &[u8]) -> Result<(), CaseFault> {
        let (menu, name) = two_words(about)?;
        let keys = read_keys(self.alloc, word, false)?;
        let count = keys.len();
        if count == 0 || count > 8 {
            return Err(CaseFault::BadInput);
        }
        self.keymap
            .bind(menu_named(menu)?, &keys, need_function(name)?)?;
        Ok(())
    }

    fn macro_key(&mut self, about: &[u8], text: &[u8]) -> Result<(), CaseFault> {
        let (menu, word) = two_words(about)?;
        let keys = read_keys(self.alloc, word, false)?;
        let count = keys.len();
        if count == 0 || count > 8 {
            return Err(CaseFault::BadInput);
        }
        let text = read_keys(self.alloc, text, true)?;
        self.keymap.macro_key(menu_named(menu)?, &keys, &text)?;
        Ok(())
    }

    fn typed(&mut self, word: &[u8], answer: &mut Answer) -> Result<(), CaseFault> {
        let keys = read_keys(self.alloc, word, false)?;
        self.type_all(keys.as_slice(), answer)
    }

    fn type_all(&mut self, keys: &[Key], answer: &mut Answer) -> Result<(), CaseFault> {
        for key in keys {
            self.queue.typed(*key)?;
            self.press_all(answer)?;
        }
        Ok(())
    }

    fn put(&mut self, word: &[u8], answer: &mut Answer) -> Result<(), CaseFault> {
        let keys = read_keys(self.alloc, word, true)?;
        self.queue.put_before(&keys)?;
        self.press_all(answer)
    }

    // Presses the keys that wait; each press takes at least one of them.
    fn press_all(&mut self, answer: &mut Answer) -> Result<(), CaseFault> {
        let menu = self.menu;
        if menu == Menu::Generic {
            return Err(CaseFault::BadInput);
        }
        for _turn in 0..10_000 {
            if self.queue.len() == 0 {
                break;
            }
            let press = self.keymap.press(menu, &mut self.queue)?;
            self.last = shown_press(press);
            self.presses = self.presses.saturating_add(1);
            answer.put(b"press", self.last)?;
        }
        Ok(())
    }

    // Puts how the lines ended.
    fn put_end(&self, answer: &mut Answer) -> Result<(), CaseFault> {
        answer.put_count(b"presses", self.presses)?;
        answer.put(b"last", self.last)?;
        answer.put_count(b"waiting", self.queue.len())
    }
}

// A call of its own, so that no other proof has the table of default keys before it.
fn default_keys(alloc: Global) -> Result<Keymap, NoMemory> {
    Keymap::new(alloc)
}

fn shown_press(press: Press) -> &'static [u8] {
    match press {
        Press::Wait => b"wait",
        Press::Unbound => b"unbound",
        Press::Loop => b"loop",
        Press::Function(function) => function.name(),
    }
}

fn two_words(text: &[u8]) -> Result<(&[u8], &[u8]), CaseFault> {
    match text.iter().position(|byte| *byte == b' ') {
        Some(blank) => {
            let (first, rest) = text.split_at(blank);
            Ok((first, rest.get(1..).unwrap_or(b"")))
        }
        None => Err(CaseFault::BadInput),
    }
}
