//! The screen: the page of the index that holds the cursor, of the message that is shown, or of the
//! list of its parts; the status line and the last line.

ghost use Rattle.std.specs.Prelude.{◌≡◌, length, map, IfOk};
ghost use Rattle.folder_letters.specs.Letters.{plain_letter};
ghost use Rattle.mail_base.specs.Series.{plain_texts};
ghost use Rattle.session.specs.Core.{IsOver, plain_core};
ghost use Rattle.session.specs.Screen as spec;
ghost use Rattle.session_screen.specs.Window.{IsWindow};

use crate::core_state::Core;
use folder_core::Archive;
use keymap::Menu;
use mail_base::{Line, Lines, NoMemory};
use session_screen::{Banner, Place, Window, page_lines, pager_line, status_line};
use std::alloc::Global;

impl Core {
    ghost use Rattle.std.specs.Prelude.{◌≡◌, option_map};
    ghost use Rattle.session.specs.Core.{plain_core};
    ghost use Rattle.session.specs.Screen as spec;
    ghost use Rattle.session_screen.specs.Status.{plain_banner};

    // What the status line shows beside the index and the settings.
    fn banner<'a>(&'a self, place: Place<'a>) -> Banner<'a>
        ensures { plain_banner result
            ≡ spec.banner_of (spec.plain_place place.entry) (plain_core self.now) }
    {
        Banner {
            place,
            read_only: self.desk.read_only,
            limit: match &self.limit {
                Some(text) => Some(text.as_slice()),
                None => None,
            },
        }
    }
}

// The lines of the page, exactly as many as the window has beside its last two.
fn body_lines(
    alloc: Global,
    archive: &Archive,
    core: &Core,
    window: Window,
) -> Result<Lines, NoMemory>
    requires window { IsWindow window }
    requires over { IsOver (map plain_letter archive.now.items) window core.now }
    ensures { IfOk result (λ lines. plain_texts lines ≡ spec.page_lines
        (map plain_letter archive.now.items) window (plain_core core.now)) }
{
    match core.reader.menu() {
        Menu::Pager => core.reader.page_lines(alloc, window.rows - 2),
        Menu::Attach => core.reader.part_lines(alloc, window.rows - 2, window.cols),
        _ => page_lines(
            alloc,
            archive,
            &core.desk.view,
            core.rules.settings(),
            window,
        ),
    }
}

// The status line: that of a message where one is shown.
fn state_line(
    alloc: Global,
    archive: &Archive,
    core: &Core,
    window: Window,
    place: Place<'_>,
) -> Result<Line, NoMemory>
    requires window { IsWindow window }
    requires over { IsOver (map plain_letter archive.now.items) window core.now }
    ensures { IfOk result (λ line. line.items ≡ spec.status_line
        (map plain_letter archive.now.items) window (spec.plain_place place.entry)
        (plain_core core.now)) }
{
    let view = &core.desk.view;
    let settings = core.rules.settings();
    match core.reader.shown_id() {
        Some(id) => pager_line(alloc, archive, view, settings, window, id),
        None => status_line(alloc, view, settings, window, core.banner(place)),
    }
}

/// The lines of a screen, exactly as many as the window has rows.
#[tactic(auto, using(crate::proofs::ShownLemmas::screen_rows))]
pub fn screen_lines(
    alloc: Global,
    archive: &Archive,
    core: &Core,
    window: Window,
    place: Place<'_>,
) -> Result<Lines, NoMemory>
    requires window { IsWindow window }
    requires over { IsOver (map plain_letter archive.now.items) window core.now }
    ensures lines { IfOk result (λ lines. plain_texts lines ≡ spec.screen
        (map plain_letter archive.now.items) window (spec.plain_place place.entry)
        (plain_core core.now)) }
    ensures rows { length (spec.screen (map plain_letter archive.now.items) window
        (spec.plain_place place.entry) (plain_core core.now)) ≡ window.rows }
{
    let mut lines = body_lines(alloc, archive, core, window)?;
    lines.push(state_line(alloc, archive, core, window, place)?)?;
    lines.push(core.desk.last_line(alloc, window.cols as usize)?)?;
    Ok(lines)
}
