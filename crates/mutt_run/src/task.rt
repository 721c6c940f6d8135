//! The tasks of a run: to read a folder, and to print the values of variables.

ghost use Rattle.std.specs.Prelude.{◌≡◌, ◌≤◌, ℕ, ℤ, Ok, true, false, [], List, Any, Option, length};
ghost use Rattle.std.specs.Prelude.{map};
ghost use Rattle.mail_base.specs.Series.{plain_texts};
ghost use Rattle.disk_model.specs.Seen.{Seen};
ghost use Rattle.folder_letters.specs.Letters.{plain_letter};
ghost use Rattle.mutt_words.specs.Options.{PlainOptions};
ghost use Rattle.session.specs.Beginning.{Starts};
ghost use Rattle.session_events.specs.Events.{AreFiles, plain_events};
ghost use Rattle.session_events.specs.Happened.{AllMet};
ghost use Rattle.session.specs.Calls.{IsOpenIn};
ghost use Rattle.session.specs.Steps.{StaysMet};
ghost use Rattle.session_screen.specs.Window.{IsWindow};
ghost use Rattle.session_state.specs.Instants.{IsMoment};
ghost use Rattle.session.specs.Fitting.{FitsRun};
ghost use Rattle.session.specs.Given.{Given, IsGivenOn, given_of};
ghost use Rattle.session.specs.Runs.{plain_session};
ghost use Rattle.session.specs.Starting.{plain_setup};
ghost use Rattle.session.specs.Telling.{Driverless};
ghost use Rattle.mutt_run.specs.Choice.{ReadFolder, TellValues, first_of, setup_of, task_of};
ghost use Rattle.mutt_run.specs.Going.{CountsStreams};
ghost use Rattle.mutt_run.specs.Reading.{ReadsOver, TellsRefused, outside};
ghost use Rattle.mutt_run.specs.Screens.{printed_lines};

use crate::printing::{print, put_lines};
use crate::status::Status;
use crate::told::tell_notes;
use crate::turning::go;
use disk_model::Device;
use folder_core::Listed;
use folder_drivers::Drivers;
use mail_base::{Bytes, Clock, Lines, Sink, Source, Words};
use session::Session;
use session_events::{Setup, StartError, Trace};
use std::alloc::Global;

/// Opens the folder, lets the keys act that commands have put, and goes on by keys. The line of the
/// end is not told.
pub fn read<K: Source, O: Sink, E: Sink, C: Clock>(
    alloc: Global,
    setup: Setup,
    skip_empty: bool,
    moment: i64,
    keys: &mut K,
    out: &mut O,
    errs: &mut E,
    dev: &mut Device,
    drivers: &Drivers,
    clock: &mut C,
    trace: &mut Trace,
) -> Status
    requires archive { trace.old.archive.items ≡ [] }
    requires events { trace.old.events.items ≡ [] }
    requires notes { trace.old.notes.items ≡ [] }
    requires window { IsWindow (plain_setup setup).window }
    requires moment { IsMoment moment }
    ensures reads { (o : PlainOptions) → plain_setup setup ≡ setup_of o
        → o.skip_empty ≡ skip_empty → task_of o ≡ ReadFolder → ReadsOver (Ok o) moment
        (λ kind. Any (λ d. sort (d.vtable, d.value) ≡ kind) drivers.now.list.items)
        (given_of (map plain_letter trace.new.archive.items) trace.new.verdicts.kept)
        result (plain_events trace.new.events.items)
        (outside (O.written out.old) (E.written errs.old) (E.faults errs.old) (K.left keys.old)
        (C.moments clock.old) (seen (dev.old.disk.vtable, dev.old.disk.value)))
        (outside (O.written out.new) (E.written errs.new) (E.faults errs.new) (K.left keys.new)
        (C.moments clock.new) (seen (dev.new.disk.vtable, dev.new.disk.value))) }
    ensures met { AllMet (length (map plain_letter trace.new.archive.items)) 0
        (plain_events trace.new.events.items) }
    ensures faults { CountsStreams result (K.faults keys.old) (K.faults keys.new)
        (O.faults out.old) (O.faults out.new) (E.faults errs.old) (E.faults errs.new) }
{
    match Session::start(alloc, setup, dev, drivers, moment, trace) {
        Ok(mut session) => read_on(
            alloc,
            skip_empty,
            keys,
            out,
            errs,
            dev,
            drivers,
            clock,
            &mut session,
            trace,
        ),
        Err(StartError::NotOpened(why)) => {
            refuse(alloc, errs, Status::NotOpened(why), &trace.notes)
        }
        Err(StartError::DiskFault) => refuse(alloc, errs, Status::DiskFault, &trace.notes),
        Err(StartError::NoMemory) => Status::NoMemory,
    }
}

// Tells of faulty commands, and shows the folder, unless it is empty and is not to be shown then.
fn read_on<K: Source, O: Sink, E: Sink, C: Clock>(
    alloc: Global,
    skip_empty: bool,
    keys: &mut K,
    out: &mut O,
    errs: &mut E,
    dev: &mut Device,
    drivers: &Drivers,
    clock: &mut C,
    session: &mut Session,
    trace: &mut Trace,
) -> Status
    requires fits { FitsRun (map plain_letter trace.old.archive.items) session.old }
    requires known { IsOpenIn (λ kind. Any (λ d. sort (d.vtable, d.value) ≡ kind)
        drivers.now.list.items) session.old trace.old
        (seen (dev.old.disk.vtable, dev.old.disk.value)) }
    ensures met { StaysMet (map plain_letter trace.old.archive.items)
        (plain_events trace.old.events.items) (map plain_letter trace.new.archive.items)
        (plain_events trace.new.events.items) }
    ensures reads { (o : PlainOptions) → o.skip_empty ≡ skip_empty → task_of o ≡ ReadFolder
        → (start : ℤ) → (before : Seen) → ((given : Given)
        → IsGivenOn (map plain_letter trace.old.archive.items) trace.old.verdicts.kept given
        → Starts
        (λ kind. Any (λ d. sort (d.vtable, d.value) ≡ kind) drivers.now.list.items)
        given (first_of o start) start (plain_events trace.old.events.items)
        (plain_session session.old trace.old.notes) session.old.folder.known.listing before
        (seen (dev.old.disk.vtable, dev.old.disk.value)))
        → ReadsOver (Ok o) start
        (λ kind. Any (λ d. sort (d.vtable, d.value) ≡ kind) drivers.now.list.items)
        (given_of (map plain_letter trace.new.archive.items) trace.new.verdicts.kept)
        result (plain_events trace.new.events.items)
        (outside (O.written out.old) (E.written errs.old) (E.faults errs.old) (K.left keys.old)
        (C.moments clock.old) before)
        (outside (O.written out.new) (E.written errs.new) (E.faults errs.new) (K.left keys.new)
        (C.moments clock.new) (seen (dev.new.disk.vtable, dev.new.disk.value))) }
    ensures faults { CountsStreams result (K.faults keys.old) (K.faults keys.new)
        (O.faults out.old) (O.faults out.new) (E.faults errs.old) (E.faults errs.new) }
{
    if let Err(status) = tell_notes(alloc, errs, &trace.notes) {
        return status;
    }
    if is_hidden(skip_empty, session.folder.known.listing().as_slice()) {
        return Status::Empty;
    }
    go(alloc, keys, out, errs, dev, drivers, clock, session, trace)
}

// Whether a folder with these messages is not shown.
fn is_hidden(skip_empty: bool, listing: &[Listed]) -> bool
    ensures hidden { result ≡ true → (skip_empty ≡ true) × (listing.now ≡ []) }
    ensures shown { result ≡ false → skip_empty ≡ true → listing.now ≡ [] → ⊥ }
{
    match listing {
        [] => skip_empty,
        _ => false,
    }
}

// Tells of faulty commands where no folder was opened.
fn refuse<E: Sink>(alloc: Global, errs: &mut E, status: Status, notes: &Lines) -> Status
    ensures told { TellsRefused status result (printed_lines (plain_texts notes.now))
        (E.written errs.old) (E.written errs.new) (E.faults errs.old) (E.faults errs.new) }
    ensures later { E.faults errs.old ≤ E.faults errs.new }
{
    match tell_notes(alloc, errs, notes) {
        Ok(()) => status,
        Err(fault) => fault,
    }
}

/// Prints the values of variables, behind the files of commands. No folder is opened.
pub fn answer<O: Sink, E: Sink>(
    alloc: Global,
    setup: Setup,
    names: &Words,
    moment: i64,
    out: &mut O,
    errs: &mut E,
    dev: &mut Device,
    trace: &mut Trace,
) -> Status
    requires archive { trace.old.archive.items ≡ [] }
    requires events { trace.old.events.items ≡ [] }
    requires notes { trace.old.notes.items ≡ [] }
    requires window { IsWindow (plain_setup setup).window }
    requires moment { IsMoment moment }
    ensures reads { (o : PlainOptions) → plain_setup setup ≡ setup_of o
        → task_of o ≡ TellValues (plain_texts names.now)
        → (left : Option (List ℕ)) → (moments : Option (List ℤ))
        → ReadsOver (Ok o) moment Driverless
        (given_of (map plain_letter trace.new.archive.items) trace.new.verdicts.kept)
        result (plain_events trace.new.events.items)
        (outside (O.written out.old) (E.written errs.old) (E.faults errs.old) left moments
        (seen (dev.old.disk.vtable, dev.old.disk.value)))
        (outside (O.written out.new) (E.written errs.new) (E.faults errs.new) left moments
        (seen (dev.new.disk.vtable, dev.new.disk.value))) }
    ensures files { AreFiles (plain_events trace.new.events.items) }
    ensures met { AllMet (length (map plain_letter trace.new.archive.items)) 0
        (plain_events trace.new.events.items) }
    ensures faults { (before after : ℕ) → CountsStreams result before after
        (O.faults out.old) (O.faults out.new) (E.faults errs.old) (E.faults errs.new) }
{
    let Ok(lines) = Session::answers(alloc, setup, names, moment, dev, trace) else {
        return Status::NoMemory;
    };
    if let Err(status) = tell_notes(alloc, errs, &trace.notes) {
        return status;
    }
    let mut text = Bytes::new(alloc);
    if put_lines(&mut text, &lines).is_err() {
        return Status::NoMemory;
    }
    match print(out, text.as_slice()) {
        Ok(()) => Status::Done,
        Err(status) => status,
    }
}
