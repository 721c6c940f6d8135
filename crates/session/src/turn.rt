//! The keys that wait, one after the other.

ghost use Rattle.std.specs.Prelude.{◌≡◌, ◌≢◌, ◌≤◌, ◌<◌, ◌^◌, ◌+◌, ℤ, None, List, [], nat_lt};
ghost use Rattle.std.specs.Prelude.{IfOk, MatchOption, OnOk, length, map};
ghost use Rattle.folder_letters.specs.Letters.{Mail, plain_letter};
ghost use Rattle.keymap.specs.Queue.{most_replacements};
ghost use Rattle.people.specs.Judged.{PlainJudged};
ghost use Rattle.session.specs.Answers.{granted};
ghost use Rattle.session.specs.Core.{Ground, IsOver, ground_of, plain_core};
ghost use Rattle.session_screen.specs.Window.{IsWindow};
ghost use Rattle.session_state.specs.Instants.{IsMoment};
ghost use Rattle.patterns.specs.Causes.{Keeps};
ghost use Rattle.session.specs.Keys.{Steps, Stops, fuel, settled, turn_of};
ghost use Rattle.session.specs.Keys.{stage_after, stage_wanted};
ghost use Rattle.session_state.specs.declared.stage.Stage.TheVariants.{Idle, Reading};

use crate::core_state::Core;
use folder_core::Archive;
use keymap::{KeyQueue, Press};
use mail_base::NoMemory;
use people::Verdicts;
use session_index::{Notice, Wanted};
use session_screen::Window;
use session_state::{Moment, Stage};

/// Lets the keys that wait act, until none waits or something is wanted, and tells what comes then.
pub fn settle(
    core: &mut Core,
    queue: &mut KeyQueue,
    window: Window,
    moment: Moment,
    archive: &Archive,
    verdicts: &mut Verdicts,
) -> Result<Stage, NoMemory>
    requires window { IsWindow window }
    requires moment { IsMoment moment.0 }
    requires over { IsOver (map plain_letter archive.now.items) window core.old }
    requires few { queue.old.replaced ≤ most_replacements }
    ensures keeps { Keeps verdicts.old.kept verdicts.new.kept }
    ensures over { OnOk result (IsOver (map plain_letter archive.now.items) window core.new) }
    ensures few { OnOk result (queue.new.replaced ≤ most_replacements) }
    ensures settled { IfOk result (λ stage. (later : List PlainJudged)
        → Keeps verdicts.new.kept later
        → turn_of stage (plain_core core.new) queue.new ≡ settled
        (ground_of (map plain_letter archive.now.items) later window moment.0)
        (plain_core core.old) queue.old) }
{
    let mut waiting = is_waiting(core, queue);
    while waiting {
        match go_on(core, queue, window, moment, archive, verdicts)? {
            None => {}
            Some(stage) => return Ok(stage),
        }
        waiting = is_waiting(core, queue);
    }
    let _ = core.take_wanted();
    Ok(Stage::Idle)
}

// Whether there are keys that wait or that commands have put.
fn is_waiting(core: &Core, queue: &KeyQueue) -> bool
    ensures some { result
        ≡ nat_lt 0 (length (plain_core core.now).rules.put + length queue.now.items) }
    ensures short { length queue.now.items < 2 ^ 64 }
{
    let waiting = queue.len();
    waiting > 0 || core.rules.puts() > 0
}

// Lets the keys stand first that a command has put; else lets the first key act, and where no
// prompt stands the keys behind it up to an answer.
fn go_on(
    core: &mut Core,
    queue: &mut KeyQueue,
    window: Window,
    moment: Moment,
    archive: &Archive,
    verdicts: &mut Verdicts,
) -> Result<Option<Stage>, NoMemory>
    requires window { IsWindow window }
    requires moment { IsMoment moment.0 }
    requires over { IsOver (map plain_letter archive.now.items) window core.old }
    requires some { 0 < length (plain_core core.old).rules.put + length queue.old.items }
    requires few { queue.old.replaced ≤ most_replacements }
    ensures keeps { Keeps verdicts.old.kept verdicts.new.kept }
    ensures over { OnOk result (IsOver (map plain_letter archive.now.items) window core.new) }
    ensures steps { IfOk result (λ stopped. (later : List PlainJudged)
        → Keeps verdicts.new.kept later → Steps stopped
        (ground_of (map plain_letter archive.now.items) later window moment.0)
        (plain_core core.old) (plain_core core.new) queue.old queue.new) }
    ensures few { OnOk result (queue.new.replaced ≤ most_replacements) }
    ensures falls { IfOk result (λ stopped. stopped ≡ None → length queue.new.items < 2 ^ 64
        → fuel queue.new < fuel queue.old) }
{
    if core.rules.puts() > 0 {
        return put_next(core, queue);
    }
    if core.desk.prompt.is_some() {
        return type_next(core, queue, window, moment, archive, verdicts);
    }
    press_next(core, queue, window, moment, archive, verdicts)
}

// The keys that a command has put stand first, or are one replacement too many.
fn put_next(core: &mut Core, queue: &mut KeyQueue) -> Result<Option<Stage>, NoMemory>
    requires some { (plain_core core.old).rules.put ≢ [] }
    requires few { queue.old.replaced ≤ most_replacements }
    ensures over { OnOk result ((mails : List Mail) → (window : Window)
        → IsOver mails window core.old → IsOver mails window core.new) }
    ensures steps { IfOk result (λ stopped. (g : Ground) → Steps stopped g
        (plain_core core.old) (plain_core core.new) queue.old queue.new) }
    ensures few { OnOk result (queue.new.replaced ≤ most_replacements) }
    ensures falls { IfOk result (λ stopped. stopped ≡ None → length queue.new.items < 2 ^ 64
        → fuel queue.new < fuel queue.old) }
{
    if !queue.count_one() {
        drop_keys(core, queue);
        return Ok(Some(Stage::Idle));
    }
    match core.rules.take_put() {
        None => Ok(None),
        Some(keys) => {
            queue.put_before(&keys)?;
            Ok(None)
        }
    }
}

// Drops all keys where a further replacement would be one too many.
fn drop_keys(core: &mut Core, queue: &mut KeyQueue)
    requires some { (plain_core core.old).rules.put ≢ [] }
    requires full { queue.old.replaced ≡ most_replacements }
    ensures over { (mails : List Mail) → (window : Window) → IsOver mails window core.old
        → IsOver mails window core.new }
    ensures dropped { (g : Ground) → turn_of Idle (plain_core core.new) queue.new
        ≡ settled g (plain_core core.old) queue.old }
    ensures few { queue.new.replaced ≡ queue.old.replaced }
{
    core.rules.drop_puts();
    queue.clear();
    core.desk.say(Notice::MacroLoop);
    let _ = core.take_wanted();
}

// The keys wait where a file is still to be read that commands have named.
fn wait_for_file(core: &mut Core) -> Option<Stage>
    ensures waits { MatchOption result
        ((plain_core core.new ≡ plain_core core.old) × ((plain_core core.old).frames ≡ []))
        (λ stage. (stage ≡ Reading) × ((plain_core core.old).frames ≢ [])
        × (plain_core core.new ≡ granted (plain_core core.old))) }
    ensures view { core.new.desk.view ≡ core.old.desk.view }
    ensures rest { core.new ≡ record core.old { desk = core.new.desk } }
{
    if core.frames.is_empty() {
        return None;
    }
    let _ = core.take_wanted();
    Some(Stage::Reading)
}

// The prompt that stands takes the first key.
fn type_next(
    core: &mut Core,
    queue: &mut KeyQueue,
    window: Window,
    moment: Moment,
    archive: &Archive,
    verdicts: &mut Verdicts,
) -> Result<Option<Stage>, NoMemory>
    requires window { IsWindow window }
    requires moment { IsMoment moment.0 }
    requires over { IsOver (map plain_letter archive.now.items) window core.old }
    requires put { (plain_core core.old).rules.put ≡ [] }
    requires prompt { (plain_core core.old).desk.prompt ≢ None }
    requires some { 0 < length queue.old.items }
    requires few { queue.old.replaced ≤ most_replacements }
    ensures keeps { Keeps verdicts.old.kept verdicts.new.kept }
    ensures over { OnOk result (IsOver (map plain_letter archive.now.items) window core.new) }
    ensures steps { IfOk result (λ stopped. (later : List PlainJudged)
        → Keeps verdicts.new.kept later → Steps stopped
        (ground_of (map plain_letter archive.now.items) later window moment.0)
        (plain_core core.old) (plain_core core.new) queue.old queue.new) }
    ensures few { queue.new.replaced ≤ most_replacements }
    ensures falls { IfOk result (λ stopped. fuel queue.new < fuel queue.old) }
{
    match queue.take_first() {
        None => Ok(None),
        Some(key) => {
            core.type_key(window, moment, archive, verdicts, key)?;
            Ok(stop_wanted(core))
        }
    }
}

// Presses keys up to an answer, and acts on it.
fn press_next(
    core: &mut Core,
    queue: &mut KeyQueue,
    window: Window,
    moment: Moment,
    archive: &Archive,
    verdicts: &mut Verdicts,
) -> Result<Option<Stage>, NoMemory>
    requires window { IsWindow window }
    requires moment { IsMoment moment.0 }
    requires over { IsOver (map plain_letter archive.now.items) window core.old }
    requires put { (plain_core core.old).rules.put ≡ [] }
    requires prompt { (plain_core core.old).desk.prompt ≡ None }
    requires few { queue.old.replaced ≤ most_replacements }
    ensures keeps { Keeps verdicts.old.kept verdicts.new.kept }
    ensures over { OnOk result (IsOver (map plain_letter archive.now.items) window core.new) }
    ensures steps { IfOk result (λ stopped. (later : List PlainJudged)
        → Keeps verdicts.new.kept later → Steps stopped
        (ground_of (map plain_letter archive.now.items) later window moment.0)
        (plain_core core.old) (plain_core core.new) queue.old queue.new) }
    ensures few { OnOk result (queue.new.replaced ≤ most_replacements) }
    ensures falls { IfOk result (λ stopped. stopped ≡ None → length queue.new.items < 2 ^ 64
        → fuel queue.new < fuel queue.old) }
{
    let shown = core.reader.menu();
    let press = core.rules.press(shown, queue)?;
    core.act(window, moment, archive, verdicts, press)?;
    Ok(stop_behind(core, press))
}

// Stops the keys where something is wanted: the end, a sync, or a file that is to be read.
fn stop_wanted(core: &mut Core) -> Option<Stage>
    ensures stops { Stops (stage_wanted (plain_core core.old).desk.wanted) result
        (plain_core core.old) (plain_core core.new) }
    ensures rest { core.new ≡ record core.old { desk = core.new.desk } }
    ensures view { core.new.desk.view ≡ core.old.desk.view }
{
    let stage = match core.desk.wanted {
        Wanted::ToEnd => Stage::Over,
        Wanted::ToSync { purge, quits } => Stage::Syncing { purge, quits },
        _ => return wait_for_file(core),
    };
    let _ = core.take_wanted();
    Some(stage)
}

// Stops the keys behind an answer, if something does: it ends them, or something is wanted.
fn stop_behind(core: &mut Core, press: Press) -> Option<Stage>
    ensures stops { Stops (stage_after press (plain_core core.old).desk.wanted) result
        (plain_core core.old) (plain_core core.new) }
    ensures rest { core.new ≡ record core.old { desk = core.new.desk } }
    ensures view { core.new.desk.view ≡ core.old.desk.view }
{
    match press {
        Press::Wait | Press::Loop => {
            let _ = core.take_wanted();
            Some(Stage::Idle)
        }
        _ => stop_wanted(core),
    }
}
