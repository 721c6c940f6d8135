//! The status line of the index.

ghost use Rattle.std.specs.Prelude.{◌≡◌, ◌<◌, IfOk};
ghost use Rattle.index_rows.specs.Summary.{plain_summary};
ghost use Rattle.session_screen.specs.Status as spec;
ghost use Rattle.session_screen.specs.Window.{IsWindow};

use crate::formats::format_in;
use crate::window::Window;
use index_rows::{Summary, status_line as status_row};
use index_view::View;
use mail_base::{Kind, Line, NoMemory};
use rc_lang::{STATUS_LETTERS, Settings, Variable};
use std::alloc::Global;

/// The folder that is open.
#[derive(Clone, Copy)]
pub struct Place<'a> {
    pub path: &'a [u8],
    pub kind: Kind,
}

/// What the status line shows beside a view and the settings.
#[derive(Clone, Copy)]
pub struct Banner<'a> {
    pub place: Place<'a>,
    pub read_only: bool,
    /// The text of the limit.
    pub limit: Option<&'a [u8]>,
}

// What the status line shows of a view, whose pages have so many rows.
fn summary<'a>(view: &View, settings: &'a Settings, rows: usize, banner: Banner<'a>) -> Summary<'a>
    requires { 0 < rows }
    ensures { plain_summary result
        ≡ spec.summary_of rows settings.now (spec.plain_banner banner.entry) view.now }
{
    let tally = view.tally();
    let visible = view.visible().len();
    let start = view.cursor_place() / rows * rows;
    let left = visible.saturating_sub(start);
    Summary {
        path: banner.place.path,
        read_only: banner.read_only,
        changed: tally.is_changed(banner.place.kind),
        count: view.ordered().len() as u64,
        new: tally.new,
        old: tally.old,
        unread: tally.unread,
        deleted: tally.deleted,
        flagged: tally.flagged,
        tagged: tally.tagged,
        limit: banner.limit,
        visible: visible as u64,
        before: start as u64,
        last: (visible - left + left.min(rows)) as u64,
        sort: settings.text(Variable::Sort),
        sort_aux: settings.text(Variable::SortAux),
    }
}

/// The status line of a view, in the columns of the window.
pub fn status_line(
    alloc: Global,
    view: &View,
    settings: &Settings,
    window: Window,
    banner: Banner<'_>,
) -> Result<Line, NoMemory>
    requires { IsWindow window }
    ensures { IfOk result (λ line. line.items ≡ spec.status_line window settings.now
        (spec.plain_banner banner.entry) view.now) }
{
    let format = format_in(alloc, STATUS_LETTERS, settings, Variable::StatusFormat)?;
    let summary = summary(view, settings, window.rows as usize - 2, banner);
    status_row(alloc, &format, &summary, window.cols)
}
