//! The lines of the index.

ghost use Rattle.std.specs.Prelude.{◌≡◌, map, IfOk};
ghost use Rattle.folder_letters.specs.Letters.{plain_letter};
ghost use Rattle.index_view.specs.View.{IsOf};
ghost use Rattle.mail_base.specs.Series.{plain_texts};
ghost use Rattle.session_screen.specs.Screen as spec;
ghost use Rattle.session_screen.specs.Window.{IsWindow};

use crate::formats::format_in;
use crate::window::Window;
use folder_letters::Archive;
use index_view::View;
use mail_base::{Lines, NoMemory};
use rc_lang::{ROW_LETTERS, Settings, Variable};
use std::alloc::Global;

/// The lines of the page that holds the cursor, exactly as many as the window has beside its last
/// two.
pub fn page_lines(
    alloc: Global,
    archive: &Archive,
    view: &View,
    settings: &Settings,
    window: Window,
) -> Result<Lines, NoMemory>
    requires window { IsWindow window }
    requires is_of { IsOf (map plain_letter archive.now.items) view.now }
    ensures { IfOk result (λ lines. plain_texts lines ≡ spec.page_lines
        (map plain_letter archive.now.items) settings.now window view.now) }
{
    let format = format_in(alloc, ROW_LETTERS, settings, Variable::IndexFormat)?;
    let to_chars = settings.text(Variable::ToChars);
    let Window { rows, cols, offset } = window;
    view.lines(alloc, archive, &format, to_chars, offset, rows - 2, cols)
}
