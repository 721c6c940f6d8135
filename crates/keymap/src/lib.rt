//! Keys, bindings and macros: a `KeyReader` makes keys of bytes and `read_keys` of key words, and
//! `function_named` finds a function by its name. A `Keymap` holds the bindings of all menus
//! (`bind`, `macro_key`), a `KeyQueue` the keys that wait; `Keymap::press` says what these do.
#![tactic(auto)]

mod bindings;
mod escape;
mod function;
mod key;
mod key_queue;
mod key_reader;
mod key_word;
mod keymap;
mod laws;
mod menu;
mod piece;
mod press;
mod stream;
mod walk;

pub use function::{Function, function_named};
pub use key::{Key, Keys};
pub use key_queue::KeyQueue;
pub use key_reader::{KeyFault, KeyReader};
pub use key_word::read_keys;
pub use keymap::Keymap;
pub use laws::{last_binding_counts, names_are_read, typed_keys_are_read};
pub use menu::Menu;
pub use press::Press;
