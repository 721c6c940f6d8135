//! What keys act on.

use index_functions::{Message, Wanted};
use index_view::View;
use patterns_match::Pattern;
use prompts::Prompt;
use std::alloc::Global;

/// What keys act on: a view of the folder's messages, the last line, a prompt, a search.
pub struct Desk {
    pub alloc: Global,
    pub view: View,
    pub message: Message,
    pub prompt: Option<Prompt>,
    pub search: Option<Pattern>,
    /// The next function works on the tagged messages.
    pub prefix: bool,
    pub read_only: bool,
    pub wanted: Wanted,
}

impl Drop for Desk {
    fn drop(self) {
        let Desk {
            alloc: _,
            view: _,
            message: _,
            prompt: _,
            search: _,
            prefix: _,
            read_only: _,
            wanted: _,
        } = self;
    }
}
