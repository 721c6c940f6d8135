//! The status line of the pager.

ghost use Rattle.std.specs.Prelude.{◌≡◌, map, IfOk};
ghost use Rattle.folder_letters.specs.Letters.{plain_letter};
ghost use Rattle.index_view.specs.View.{IsOf};
ghost use Rattle.session_screen.specs.PagerStatus as spec;

use crate::formats::format_in;
use crate::window::Window;
use folder_letters::Archive;
use index_view::View;
use mail_base::{Id, Line, NoMemory};
use rc_lang::{ROW_LETTERS, Settings, Variable};
use std::alloc::Global;

/// The status line of the pager for a message, by `$pager_format`, in all columns of the window;
/// an empty line where the message is not listed.
pub fn pager_line(
    alloc: Global,
    archive: &Archive,
    view: &View,
    settings: &Settings,
    window: Window,
    id: Id,
) -> Result<Line, NoMemory>
    requires { IsOf (map plain_letter archive.now.items) view.now }
    ensures { IfOk result (λ line. line.items ≡ spec.pager_line
        (map plain_letter archive.now.items) settings.now window view.now id) }
{
    let format = format_in(alloc, ROW_LETTERS, settings, Variable::PagerFormat)?;
    let to_chars = settings.text(Variable::ToChars);
    let Window { cols, offset, .. } = window;
    match view.line(alloc, archive, id, &format, to_chars, offset, cols)? {
        Some(line) => Ok(line),
        None => Ok(Line::new(alloc)),
    }
}
