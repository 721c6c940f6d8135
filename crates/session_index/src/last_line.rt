//! The last line of a screen.

use crate::desk::Desk;
use expando::cut;
use mail_base::{Line, NoMemory};
use std::alloc::Global;

impl Desk {
    ghost use Rattle.std.specs.Prelude.{◌≡◌, IfOk};
    ghost use Rattle.session_index.specs.Desk.{plain_desk};
    ghost use Rattle.session_index.specs.LastLine as spec;

    /// The prompt that stands, or what was said, in so many columns.
    pub fn last_line(&self, alloc: Global, cols: usize) -> Result<Line, NoMemory>
        ensures { IfOk result
            (λ line. line.items ≡ spec.last_line cols (plain_desk self.now)) }
    {
        let mut line = Line::new(alloc);
        match &self.prompt {
            Some(prompt) => prompt.append_shown(alloc, &mut line)?,
            None => self.message.append_text(alloc, &mut line)?,
        }
        cut(alloc, line.as_str(), cols)
    }
}
