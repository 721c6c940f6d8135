//! The menus.

ghost use Rattle.std.specs.Prelude.{◌≡◌};
ghost use Rattle.keymap.specs.Menus as spec;

use crate::function::{Function, Row};

/// A menu. `Generic` is never shown: its bindings are a fallback for all others but the pager.
#[derive(Clone, Copy, Debug, PartialEq, Eq)]
pub enum Menu {
    Index,
    Pager,
    Attach,
    Generic,
}

impl Menu {
    /// Whether the menu has the function; `Generic` has those of all menus but the pager.
    pub fn has(self, function: Function) -> bool
        ensures { result ≡ spec.has self function }
    {
        let Row(_, _, index, pager, attach) = function.row();
        match self {
            Menu::Index => index.is_some(),
            Menu::Pager => pager.is_some(),
            Menu::Attach => attach.is_some(),
            Menu::Generic => index.is_some() || attach.is_some(),
        }
    }
}
