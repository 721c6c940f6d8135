//! What waiting keys do.

ghost use Rattle.std.specs.Prelude.{◌≡◌, ◌≢◌, ◌<◌, ◌≤◌, ◌+◌, ◌-◌, ◌++◌, [], length, option_map};
ghost use Rattle.std.specs.Prelude.{IfOk, OnOk, OnErr};
ghost use Rattle.keymap.specs.Keymap.{found_in};
ghost use Rattle.keymap.specs.Press as spec;
ghost use Rattle.keymap.specs.Queue.{IsAsBefore, TakesFirst, most_replacements};
ghost use Rattle.keymap.specs.Walk.{IsWithin, waiting_on};
ghost use Rattle.keymap.specs.declared.menu.Menu.TheVariants as menus;

use crate::bindings::{Action, Found};
use crate::function::Function;
use crate::key::{Key, Keys};
use crate::key_queue::{KeyQueue, MOST_REPLACEMENTS};
use crate::keymap::Keymap;
use crate::menu::Menu;
use crate::walk::Walk;
use mail_base::NoMemory;

/// What waiting keys come to.
#[derive(Clone, Copy, Debug, PartialEq, Eq)]
pub enum Press {
    /// No key waits; those that were taken begin a bound sequence, or there were none.
    Wait,
    /// The keys that were taken are bound to nothing.
    Unbound,
    /// They run this function, which the menu need not have.
    Function(Function),
    /// A further replacement was due where 1,024 were made; all waiting keys are dropped.
    Loop,
}

/// What keys come to before the next replacement.
pub enum Reached<'a> {
    Answer(Press),
    Text(&'a Keys),
}

impl Keymap {
    // What a key that is no call comes to behind a begun sequence; nothing where that goes on.
    fn answer(&self, menu: Menu, begun: &[Key]) -> Option<Reached<'_>>
        ensures { option_map spec.plain_answer result
            ≡ spec.answer_of (found_in self.now menu begun.now) }
    {
        match self.find(menu, begun) {
            Found::Bound(Action::Run(function)) => {
                Some(Reached::Answer(Press::Function(*function)))
            }
            Found::Bound(Action::Replace(text)) => Some(Reached::Text(text)),
            Found::Begun => None,
            Found::Unbound => Some(Reached::Answer(Press::Unbound)),
        }
    }

    // Goes on along a queue up to an answer or a replacement.
    fn reach(&self, menu: Menu, queue: &KeyQueue, walk: &mut Walk) -> Result<Reached<'_>, NoMemory>
        requires { walk.old.taken ≤ length queue.now.items }
        ensures reached { IfOk result (λ r. spec.plain_reached r walk.new queue.now
            ≡ spec.reached self.now menu walk.old.begun.items
            (waiting_on walk.old queue.now)) }
        ensures kept { IsWithin walk.old walk.new queue.now }
    {
        while let Some(key) = walk.next(queue) {
            if let Key::Call(function) = key {
                walk.begun.clear();
                return Ok(Reached::Answer(Press::Function(function)));
            }
            walk.begun.push(key)?;
            if let Some(reached) = self.answer(menu, walk.begun.as_slice()) {
                walk.begun.clear();
                return Ok(reached);
            }
        }
        Ok(Reached::Answer(Press::Wait))
    }

    // Goes on along a queue up to an answer, over at most as many replacements as are left.
    fn walk_on(&self, menu: Menu, queue: &KeyQueue, walk: &mut Walk) -> Result<Press, NoMemory>
        requires { walk.old.taken ≤ length queue.now.items }
        ensures pressed { IfOk result (λ p. spec.pressed_on p walk.new queue.now
            ≡ spec.pressed self.now menu (most_replacements - walk.old.ahead.replaced)
            walk.old.ahead.replaced walk.old.begun.items (waiting_on walk.old queue.now)) }
        ensures taken { walk.new.taken ≤ length queue.now.items }
    {
        for _turn in walk.ahead.replaced()..MOST_REPLACEMENTS {
            match self.reach(menu, queue, walk)? {
                Reached::Answer(press) => return Ok(press),
                Reached::Text(text) => walk.replace(text)?,
            }
        }
        match self.reach(menu, queue, walk)? {
            Reached::Answer(press) => Ok(press),
            Reached::Text(_) => {
                walk.drop_all(queue);
                Ok(Press::Loop)
            }
        }
    }

    /// Takes waiting keys up to an answer. They are compared, behind the keys of a begun sequence,
    /// with the bindings of the menu and then, but for the pager, with those of `Generic`: an equal
    /// one runs, the beginning of one goes on, anything else is unbound. A called function runs at
    /// once, and a macro's text takes the place of its keys.
    pub fn press(&mut self, menu: Menu, queue: &mut KeyQueue) -> Result<Press, NoMemory>
        requires { menu ≢ menus.Generic }
        ensures pressed { IfOk result (λ p. spec.Presses p menu self.old self.new
            queue.old queue.new) }
        ensures err { OnErr result (self.new ≡ self.old) }
        ensures queue { OnErr result (IsAsBefore queue.old queue.new) }
    {
        let mut walk = Walk::start(self.alloc, self.begun.as_slice(), queue)?;
        let press = self.walk_on(menu, queue, &mut walk)?;
        let Walk {
            begun,
            ahead,
            taken,
        } = walk;
        queue.replace_first(taken, ahead)?;
        self.begun = begun;
        Ok(press)
    }
}
