//! How the index learns what commands tell it.

ghost use Rattle.std.specs.Prelude.{map, OnOk};
ghost use Rattle.folder_letters.specs.Letters.{plain_letter};
ghost use Rattle.index_view.specs.View.{IsOf};
ghost use Rattle.patterns_match.specs.ScoreEntries.{held_entry};
ghost use Rattle.session.specs.Answers as spec;
ghost use Rattle.session_index.specs.Index.{Shows, index_of};
ghost use Rattle.session_state.specs.Lessons.{Scored};

use crate::core_state::Core;
use folder_core::Archive;
use index_view::View;
use mail_base::NoMemory;
use patterns_match::ScoreEntry;
use session_state::Lesson;

// Adds an entry, for which the command that tells it has seen that there is room.
fn add_score(view: &mut View, archive: &Archive, entry: ScoreEntry) -> Result<(), NoMemory>
    requires { IsOf (map plain_letter archive.now.items) view.old }
    ensures { OnOk result (Shows (map plain_letter archive.now.items)
        (spec.with_lesson (map plain_letter archive.now.items) (Scored (held_entry entry))
        (index_of view.old)) view.new) }
{
    match view.add_score(archive, entry.pattern, entry.value, entry.last) {
        Ok(()) => Ok(()),
        Err(_) => Err(NoMemory),
    }
}

impl Core {
    ghost use Rattle.std.specs.Prelude.{◌≡◌, map, OnOk};
    ghost use Rattle.folder_letters.specs.Letters.{plain_letter};
    ghost use Rattle.index_view.specs.View.{IsOf};
    ghost use Rattle.session.specs.Answers as spec;
    ghost use Rattle.session.specs.Core.{Stands, plain_core};
    ghost use Rattle.session_index.specs.Index.{Shows, index_of};
    ghost use Rattle.session_state.specs.Lessons.{plain_lesson};

    // Learns what one command tells.
    fn take_lesson(&mut self, archive: &Archive, lesson: Lesson) -> Result<(), NoMemory>
        requires { IsOf (map plain_letter archive.now.items) self.old.desk.view }
        ensures index { OnOk result (Shows (map plain_letter archive.now.items)
            (spec.with_lesson (map plain_letter archive.now.items) (plain_lesson lesson)
            (index_of self.old.desk.view)) self.new.desk.view) }
        ensures same { self.new ≡ record self.old {
          desk = record self.old.desk { view = self.new.desk.view };
        } }
    {
        let view = &mut self.desk.view;
        match lesson {
            Lesson::Person(table, expr) => view.add_person(archive, table, expr),
            Lesson::Named(name, value) => view.add_alias(name.as_slice(), value.as_slice()),
            Lesson::Scored(entry) => add_score(view, archive, entry),
            Lesson::Kept(keeps) => view.keep_scores(archive, keeps.as_slice()),
        }
    }

    /// The index learns what commands have told it.
    pub fn learn(&mut self, archive: &Archive) -> Result<(), NoMemory>
        requires { IsOf (map plain_letter archive.now.items) self.old.desk.view }
        ensures { OnOk result (Stands (map plain_letter archive.now.items)
            (spec.learnt (map plain_letter archive.now.items) (plain_core self.old)) self.new) }
    {
        while let Some(lesson) = self.rules.take_lesson() {
            self.take_lesson(archive, lesson)?;
        }
        Ok(())
    }
}
