//! Searches among the messages that are seen.

ghost use Rattle.std.specs.Prelude.{◌≡◌, ◌<◌, length, map, IfOk, IfSome, OnErr, OnOk};
ghost use Rattle.folder_letters.specs.Letters.{plain_letter};
ghost use Rattle.patterns_match.specs.Pattern.{plain_pattern};
ghost use Rattle.index_view.specs.View.{IsOf};
ghost use Rattle.session_index.specs.Motions.{gone, notice_of};
ghost use Rattle.session_index.specs.Searching as spec;
ghost use Rattle.session_index.specs.Shown.{seen};

use folder_letters::Archive;
use index_functions::{Notice, place_of};
use index_view::View;
use mail_base::NoMemory;
use patterns_match::Pattern;
use std::alloc::Global;

// Where the cursor stands among the messages that are seen.
fn cursor_place(view: &View) -> Option<usize>
    ensures place { result ≡ spec.place_of (seen view.now.answers) view.now.cursor }
    ensures within { IfSome result (λ p. p < length (seen view.now.answers)) }
{
    place_of(view.visible().as_slice(), view.cursor()?)
}

/// Moves the cursor to the next message that satisfies a pattern, going round to its own one last,
/// or tells why it stays.
pub fn search(
    alloc: Global,
    view: &mut View,
    archive: &Archive,
    pattern: &mut Pattern,
) -> Result<Option<Notice>, NoMemory>
    requires { IsOf (map plain_letter archive.now.items) view.old }
    ensures way { IfOk result (λ notice. notice ≡ notice_of (spec.search_way
        (map plain_letter archive.now.items) (plain_pattern pattern.old) view.old)) }
    ensures gone { OnOk result (view.new ≡ gone
        (spec.search_way
        (map plain_letter archive.now.items) (plain_pattern pattern.old) view.old) view.old) }
    ensures pattern { pattern.new ≡ pattern.old }
    ensures err { OnErr result (view.new ≡ view.old) }
{
    let Some(place) = cursor_place(view) else {
        return Ok(Some(Notice::NoMessages));
    };
    match view.find_from(alloc, archive, pattern, place)? {
        Some(id) => {
            view.move_to(id);
            Ok(None)
        }
        None => Ok(Some(Notice::NotFound)),
    }
}
