//! The reading of a file of commands, with its event.

ghost use Rattle.std.specs.Prelude.{◌≡◌};
ghost use Rattle.session_events.specs.Events.{plain_event};
ghost use Rattle.session_events.specs.Telling.{TellsFile};
ghost use Rattle.session_events.specs.Wishes.{Source, answered};

use crate::event::{Event, Marks};
use disk_model::Device;
use mail_base::Bytes;
use std::alloc::Global;

/// The most bytes of a file of commands.
const MOST_COMMANDS: u64 = 1_048_576;

/// Reads the whole file, and tells what happened. The name is that of the path.
pub fn source_event(alloc: Global, dev: &mut Device, path: &str, name: Bytes) -> Event
    requires { name.items ≡ path.now }
    ensures tells { TellsFile (plain_event result) (seen (dev.old.disk.vtable, dev.old.disk.value))
        (seen (dev.new.disk.vtable, dev.new.disk.value)) }
    ensures answers { answered (plain_event result) ≡ Source name.items }
{
    let mark_before = dev.mark();
    let faults_before = dev.faults();
    let answer = dev.read_all(alloc, path, MOST_COMMANDS);
    let marks = Marks {
        mark_before,
        mark_after: dev.mark(),
        faults_before,
        faults_after: dev.faults(),
    };
    match answer {
        Ok(file) => Event::Sourced {
            path: name,
            text: file.bytes,
            marks,
        },
        Err(why) => Event::NotSourced {
            path: name,
            why,
            marks,
        },
    }
}
