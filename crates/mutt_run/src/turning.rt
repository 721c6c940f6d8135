//! The keys of a run, one after the other.

ghost use Rattle.std.specs.Prelude.{◌≡◌, ◌≤◌, ◌<◌, ◌⊎◌, ℕ, List, Any};
ghost use Rattle.std.specs.Prelude.{OnOk, IsErrOf, length, map, take};
ghost use Rattle.mail_base.specs.Faults.{Rose};
ghost use Rattle.folder_letters.specs.Letters.{plain_letter};
ghost use Rattle.session_events.specs.Events.{plain_events};
ghost use Rattle.session_state.specs.Instants.{IsMoment};
ghost use Rattle.session.specs.Fitting.{FitsRun};
ghost use Rattle.session.specs.Given.{Given, IsGivenOn};
ghost use Rattle.session.specs.Calls.{IsOpenIn, KeepsGiven};
ghost use Rattle.session.specs.Runs.{State, after_events, plain_session, screen_in};
ghost use Rattle.session.specs.Steps.{GoesOn, IsNext, Stands, StaysMet, StaysToldFrom};
ghost use Rattle.session_state.specs.declared.stage.Stage.TheVariants.{Idle};
ghost use Rattle.mutt_run.specs.Going.{BeginsOut, CountsStreams, Ended, GoesOut, GoesSo, GoesToEnd};
ghost use Rattle.mutt_run.specs.Going.{IsTurnedTo, Shows, Streams, Turned, TurnsKey, streams};
ghost use Rattle.mutt_run.specs.Screens.{screen_text};

use crate::clock::now;
use crate::printing::{print, screen_bytes};
use crate::status::Status;
use crate::told::tell_later;
use disk_model::Device;
use folder_drivers::Drivers;
use keymap::{Key, KeyFault, KeyReader};
use mail_base::{Clock, NoMemory, Sink, Source};
use session::Session;
use session_events::{Next, Trace};
use std::alloc::Global;

/// The most key bytes that are taken.
const MOST_KEYS: u32 = 16_777_216;

/// Lets the keys act that commands have put, prints the first screen, and goes on by keys until one
/// ends the run, they end, or a stream fails.
pub fn go<K: Source, O: Sink, E: Sink, C: Clock>(
    alloc: Global,
    keys: &mut K,
    out: &mut O,
    errs: &mut E,
    dev: &mut Device,
    drivers: &Drivers,
    clock: &mut C,
    session: &mut Session,
    trace: &mut Trace,
) -> Status
    requires fits { FitsRun (map plain_letter trace.old.archive.items) session.old }
    requires known { IsOpenIn (λ kind. Any (λ d. sort (d.vtable, d.value) ≡ kind)
        drivers.now.list.items) session.old trace.old
        (seen (dev.old.disk.vtable, dev.old.disk.value)) }
    ensures ended { (given : Given)
        → IsGivenOn (map plain_letter trace.new.archive.items) trace.new.verdicts.kept given
        → (first : State) → (start : Streams) → BeginsOut given first
        (plain_events trace.old.events.items) (plain_session session.old trace.old.notes) start
        (streams (O.written out.old) (E.written errs.old) (E.faults errs.old))
        → Ended given result first (plain_events trace.new.events.items)
        (plain_session session.new trace.new.notes) start
        (streams (O.written out.new) (E.written errs.new) (E.faults errs.new)) }
    ensures pressed { GoesToEnd result (plain_events trace.old.events.items)
        (plain_events trace.new.events.items) session.new.stage (K.left keys.old)
        (K.left keys.new) (C.moments clock.old) (C.moments clock.new) }
    ensures told { (given : Given)
        → IsGivenOn (map plain_letter trace.new.archive.items) trace.new.verdicts.kept given
        → (first : State) → (start : Streams) → BeginsOut given first
        (plain_events trace.old.events.items) (plain_session session.old trace.old.notes) start
        (streams (O.written out.old) (E.written errs.old) (E.faults errs.old))
        → StaysToldFrom (λ kind. Any (λ d. sort (d.vtable, d.value) ≡ kind) drivers.now.list.items)
        given first (plain_events trace.old.events.items) (plain_events trace.new.events.items)
        (seen (dev.old.disk.vtable, dev.old.disk.value))
        (seen (dev.new.disk.vtable, dev.new.disk.value)) }
    ensures met { StaysMet (map plain_letter trace.old.archive.items)
        (plain_events trace.old.events.items) (map plain_letter trace.new.archive.items)
        (plain_events trace.new.events.items) }
    ensures kept { KeepsGiven trace.old trace.new }
    ensures faults { CountsStreams result (K.faults keys.old) (K.faults keys.new)
        (O.faults out.old) (O.faults out.new) (E.faults errs.old) (E.faults errs.new) }
{
    let told = trace.notes.len();
    let Ok(next) = session.pushed(dev, drivers, trace) else {
        return Status::NoMemory;
    };
    match tell_and_show(alloc, next, told, out, errs, session, trace) {
        Ok(Next::Go) => press_all(alloc, keys, out, errs, dev, drivers, clock, session, trace),
        Ok(Next::Quit) => Status::Done,
        Err(status) => status,
    }
}

/// Goes on by keys from a screen.
fn press_all<K: Source, O: Sink, E: Sink, C: Clock>(
    alloc: Global,
    keys: &mut K,
    out: &mut O,
    errs: &mut E,
    dev: &mut Device,
    drivers: &Drivers,
    clock: &mut C,
    session: &mut Session,
    trace: &mut Trace,
) -> Status
    requires idle { session.old.stage ≡ Idle }
    requires fits { FitsRun (map plain_letter trace.old.archive.items) session.old }
    requires known { IsOpenIn (λ kind. Any (λ d. sort (d.vtable, d.value) ≡ kind)
        drivers.now.list.items) session.old trace.old
        (seen (dev.old.disk.vtable, dev.old.disk.value)) }
    ensures ended { (given : Given)
        → IsGivenOn (map plain_letter trace.new.archive.items) trace.new.verdicts.kept given
        → (first : State) → (start : Streams) → GoesOut given first
        (plain_events trace.old.events.items) (plain_session session.old trace.old.notes) start
        (streams (O.written out.old) (E.written errs.old) (E.faults errs.old))
        → Ended given result first (plain_events trace.new.events.items)
        (plain_session session.new trace.new.notes) start
        (streams (O.written out.new) (E.written errs.new) (E.faults errs.new)) }
    ensures pressed { GoesToEnd result (plain_events trace.old.events.items)
        (plain_events trace.new.events.items) session.new.stage (K.left keys.old)
        (K.left keys.new) (C.moments clock.old) (C.moments clock.new) }
    ensures told { (given : Given)
        → IsGivenOn (map plain_letter trace.new.archive.items) trace.new.verdicts.kept given
        → (first : State) → (start : Streams) → GoesOut given first
        (plain_events trace.old.events.items) (plain_session session.old trace.old.notes) start
        (streams (O.written out.old) (E.written errs.old) (E.faults errs.old))
        → StaysToldFrom (λ kind. Any (λ d. sort (d.vtable, d.value) ≡ kind) drivers.now.list.items)
        given first (plain_events trace.old.events.items) (plain_events trace.new.events.items)
        (seen (dev.old.disk.vtable, dev.old.disk.value))
        (seen (dev.new.disk.vtable, dev.new.disk.value)) }
    ensures met { StaysMet (map plain_letter trace.old.archive.items)
        (plain_events trace.old.events.items) (map plain_letter trace.new.archive.items)
        (plain_events trace.new.events.items) }
    ensures kept { KeepsGiven trace.old trace.new }
    ensures faults { CountsStreams result (K.faults keys.old) (K.faults keys.new)
        (O.faults out.old) (O.faults out.new) (E.faults errs.old) (E.faults errs.new) }
{
    let mut reader = KeyReader::new();
    for _turn in 0..MOST_KEYS {
        if trace.events.reserve(2).is_err() {
            return Status::NoMemory;
        }
        let key = match reader.next_key(keys) {
            Ok(Some(key)) => key,
            Ok(None) => return Status::Done,
            Err(KeyFault::ReadFault) => return Status::KeysFault,
            Err(KeyFault::TooManyKeys) => return Status::TooManyKeys,
        };
        let moment = now(clock);
        match turn(alloc, key, moment, out, errs, dev, drivers, session, trace) {
            Ok(Next::Go) => {}
            Ok(Next::Quit) => return Status::Done,
            Err(status) => return status,
        }
    }
    Status::TooManyKeys
}

/// Looks what changed in the folder where that is due, does what a key is bound to, and prints the
/// next screen.
fn turn<O: Sink, E: Sink>(
    alloc: Global,
    key: Key,
    moment: i64,
    out: &mut O,
    errs: &mut E,
    dev: &mut Device,
    drivers: &Drivers,
    session: &mut Session,
    trace: &mut Trace,
) -> Result<Next, Status>
    requires idle { session.old.stage ≡ Idle }
    requires fits { FitsRun (map plain_letter trace.old.archive.items) session.old }
    requires known { IsOpenIn (λ kind. Any (λ d. sort (d.vtable, d.value) ≡ kind)
        drivers.now.list.items) session.old trace.old
        (seen (dev.old.disk.vtable, dev.old.disk.value)) }
    requires moment { IsMoment moment }
    requires room { 1 < trace.old.events.room }
    ensures turned { (given : Given)
        → IsGivenOn (map plain_letter trace.new.archive.items) trace.new.verdicts.kept given
        → (first : State) → (start : Streams) → GoesOut given first
        (plain_events trace.old.events.items) (plain_session session.old trace.old.notes) start
        (streams (O.written out.old) (E.written errs.old) (E.faults errs.old))
        → Turned given result first (plain_events trace.new.events.items)
        (plain_session session.new trace.new.notes) start
        (streams (O.written out.new) (E.written errs.new) (E.faults errs.new)) }
    ensures to { IsTurnedTo result session.new.stage }
    ensures fits { OnOk result (FitsRun (map plain_letter trace.new.archive.items) session.new) }
    ensures known { IsOpenIn (λ kind. Any (λ d. sort (d.vtable, d.value) ≡ kind)
        drivers.now.list.items) session.new trace.new
        (seen (dev.new.disk.vtable, dev.new.disk.value)) }
    ensures pressed { TurnsKey key moment (plain_events trace.old.events.items)
        (plain_events trace.new.events.items) }
    ensures told { (given : Given)
        → IsGivenOn (map plain_letter trace.new.archive.items) trace.new.verdicts.kept given
        → (first : State) → (screens : List (List (List ℕ)))
        → Stands given first (plain_events trace.old.events.items)
        (plain_session session.old trace.old.notes) screens
        → StaysToldFrom (λ kind. Any (λ d. sort (d.vtable, d.value) ≡ kind) drivers.now.list.items)
        given first (plain_events trace.old.events.items) (plain_events trace.new.events.items)
        (seen (dev.old.disk.vtable, dev.old.disk.value))
        (seen (dev.new.disk.vtable, dev.new.disk.value)) }
    ensures met { StaysMet (map plain_letter trace.old.archive.items)
        (plain_events trace.old.events.items) (map plain_letter trace.new.archive.items)
        (plain_events trace.new.events.items) }
    ensures kept { KeepsGiven trace.old trace.new }
    ensures cause { IsErrOf result Status.OutFault → Rose (O.faults out.old) (O.faults out.new)
        ⊎ Rose (E.faults errs.old) (E.faults errs.new) }
    ensures later { (O.faults out.old ≤ O.faults out.new)
        × (E.faults errs.old ≤ E.faults errs.new) }
{
    session.check(dev, drivers, moment, trace);
    let told = trace.notes.len();
    match session.key(key, moment, dev, drivers, trace) {
        Err(NoMemory) => Err(Status::NoMemory),
        Ok(next) => tell_and_show(alloc, next, told, out, errs, session, trace),
    }
}

/// Tells of faulty commands behind the first so many, and prints the screen, unless the run is
/// over.
fn tell_and_show<O: Sink, E: Sink>(
    alloc: Global,
    next: Next,
    told: usize,
    out: &mut O,
    errs: &mut E,
    session: &Session,
    trace: &Trace,
) -> Result<Next, Status>
    requires fits { FitsRun (map plain_letter trace.now.archive.items) session.now }
    requires next { IsNext next session.now.stage }
    ensures answered { (given : Given) → take (length (map plain_letter trace.now.archive.items))
        given.mails ≡ map plain_letter trace.now.archive.items
        → (first : State) → (screens : List (List (List ℕ))) → (notes : List (List ℕ))
        → GoesOn given first (plain_events trace.now.events.items) screens notes
        → after_events given first (plain_events trace.now.events.items)
        ≡ plain_session session.now trace.now.notes
        → told ≡ length notes → (start : Streams) → GoesSo start
        (streams (O.written out.old) (E.written errs.old) (E.faults errs.old)) screens notes
        → Turned given result first (plain_events trace.now.events.items)
        (plain_session session.now trace.now.notes) start
        (streams (O.written out.new) (E.written errs.new) (E.faults errs.new)) }
    ensures to { IsTurnedTo result session.now.stage }
    ensures cause { IsErrOf result Status.OutFault → Rose (O.faults out.old) (O.faults out.new)
        ⊎ Rose (E.faults errs.old) (E.faults errs.new) }
    ensures later { (O.faults out.old ≤ O.faults out.new)
        × (E.faults errs.old ≤ E.faults errs.new) }
{
    tell_later(alloc, errs, &trace.notes, told)?;
    match next {
        Next::Quit => Ok(Next::Quit),
        Next::Go => {
            show(alloc, out, session, trace)?;
            Ok(Next::Go)
        }
    }
}

/// Prints the screen in one write.
fn show<O: Sink>(alloc: Global, out: &mut O, session: &Session, trace: &Trace) -> Result<(), Status>
    requires { FitsRun (map plain_letter trace.now.archive.items) session.now }
    ensures { Shows result (screen_text (screen_in (map plain_letter trace.now.archive.items)
        (plain_session session.now trace.now.notes))) (O.written out.old) (O.written out.new)
        (O.faults out.old) (O.faults out.new) }
{
    let Ok(lines) = session.screen(alloc, trace) else {
        return Err(Status::NoMemory);
    };
    let Ok(bytes) = screen_bytes(alloc, &lines) else {
        return Err(Status::NoMemory);
    };
    print(out, bytes.as_slice())
}
