//! Cases of a view of the index.

ghost use Rattle.std.specs.Prelude.{map};
ghost use Rattle.folder_letters.specs.Letters.{plain_letter};
ghost use Rattle.index_view.specs.View.{IsOf};

use crate::mailbox::view_of;
use crate::scene::Scene;
use crate::settings::options_of;
use crate::steps::play;
use case_files::{Answer, Case, CaseFault, Subject};
use folder_core::Archive;
use index_view::View;
use std::alloc::Global;

/// A case is of the messages of its `mbox`, or else of those of a mailbox that all cases of a file
/// share; they have `names`, or are numbered from 1. The view begins with the words of `settings`,
/// and each other entry is a step in its turn: a change of the view, or a question with the answer
/// that is expected. docs/ROWS.md lists them.
#[derive(Drop)]
pub struct ViewCases {
    pub mailbox: Vec<u8>,
}

impl Subject for ViewCases {
    fn inputs(&self) -> &[&[u8]] {
        &[
            b"mbox",
            b"names",
            b"settings",
            b"options",
            b"limit",
            b"alter",
            b"tag",
            b"untag",
            b"shut",
            b"open",
            b"settle",
            b"person",
            b"alias",
            b"score",
            b"noscores",
        ]
    }

    fn answer(&self, alloc: Global, case: &Case, answer: &mut Answer) -> Result<(), CaseFault> {
        let options = options_of(case.find(b"settings").unwrap_or(b""))?;
        let mbox = case.find(b"mbox").unwrap_or(self.mailbox.as_slice());
        let mut archive = Archive::new(alloc);
        let mut view = view_of(alloc, options, mbox, &mut archive)?;
        let scene = Scene {
            alloc,
            archive: &archive,
            names: case.find(b"names").unwrap_or(b""),
        };
        play_all(scene, case, &mut view, answer)
    }
}

fn play_all(
    scene: Scene<'_>,
    case: &Case,
    view: &mut View,
    answer: &mut Answer,
) -> Result<(), CaseFault>
    requires { IsOf (map plain_letter scene.archive.now.items) view.old }
{
    for entry in case.entries.as_slice() {
        play(scene, entry, view, answer)?;
    }
    Ok(())
}
