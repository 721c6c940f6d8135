//! A whole run, from the words of a command line to its end.

ghost use Rattle.std.specs.Prelude.{◌≡◌, ◌⊎◌, ℤ, true, false, [], Ok, Any, IfErr, length, map};
ghost use Rattle.std.specs.List.{All};
ghost use Rattle.mail_base.specs.Faults.{Rose};
ghost use Rattle.mail_base.specs.Series.{plain_texts};
ghost use Rattle.folder_letters.specs.Letters.{plain_letter};
ghost use Rattle.people.specs.Judged.{IsCaused};
ghost use Rattle.mutt_words.specs.Options.{IsUsable, plain_options};
ghost use Rattle.mutt_words.specs.Words.{options_of};
ghost use Rattle.session_events.specs.Events.{plain_events};
ghost use Rattle.session_state.specs.Instants.{IsMoment};
ghost use Rattle.session.specs.Given.{given_of};
ghost use Rattle.mutt_run.specs.Ending.{IsChosen};
ghost use Rattle.session_events.specs.Happened.{AllMet};
ghost use Rattle.mutt_run.specs.Notes.{folder_in};
ghost use Rattle.mutt_run.specs.Printed.{TellsVersion};
ghost use Rattle.mutt_run.specs.Going.{CountsStreams};
ghost use Rattle.mutt_run.specs.Reading.{ReadsOver, RunsOver, outside};
ghost use Rattle.mutt_run.specs.Taken.{TakesSome};
ghost use Rattle.mutt_run.specs.declared.status.Status.TheVariants.{DiskFault, KeysFault, OutFault};

use crate::clock::now;
use crate::printing::print;
use crate::status::Status;
use crate::task::{answer, read};
use crate::told::tell_end;
use disk_model::Device;
use folder_drivers::Drivers;
use mail_base::{Bytes, Clock, Sink, Source, Words};
use mutt_words::{Options, WordsError, read_words};
use session_events::{Event, Setup, Trace};
use std::alloc::Global;

/// Runs the reader on the words of a command line.
pub fn run<K: Source, O: Sink, E: Sink, C: Clock>(
    alloc: Global,
    words: &Words,
    keys: &mut K,
    out: &mut O,
    errs: &mut E,
    dev: &mut Device,
    drivers: &mut Drivers,
    clock: &mut C,
    trace: &mut Trace,
) -> Status
    requires archive { trace.old.archive.items ≡ [] }
    requires events { trace.old.events.items ≡ [] }
    requires notes { trace.old.notes.items ≡ [] }
    requires verdicts { trace.old.verdicts.kept ≡ [] }

    // What the words decide.
    ensures words { IsChosen (options_of (plain_texts words.now)) result }
    // Words that are no command line do nothing.
    ensures unopened { IfErr (options_of (plain_texts words.now))
        (λ word. plain_events trace.new.events.items ≡ []) }

    // A run from the moment that the clock gave first, by each list of verdicts that keeps these.
    ensures runs { (start : ℤ) × RunsOver (options_of (plain_texts words.now)) start
        (λ kind. Any (λ d. sort (d.vtable, d.value) ≡ kind) drivers.old.list.items)
        (given_of (map plain_letter trace.new.archive.items) trace.new.verdicts.kept)
        result (plain_events trace.new.events.items)
        (outside (O.written out.old) (E.written errs.old) (E.faults errs.old) (K.left keys.old)
        (C.moments clock.old) (seen (dev.old.disk.vtable, dev.old.disk.value)))
        (outside (O.written out.new) (E.written errs.new) (E.faults errs.new) (K.left keys.new)
        (C.moments clock.new) (seen (dev.new.disk.vtable, dev.new.disk.value)))
        (¬ (Rose (seen (dev.old.disk.vtable, dev.old.disk.value)).faults
        (seen (dev.new.disk.vtable, dev.new.disk.value)).faults)
        × ¬ (Rose (K.faults keys.old) (K.faults keys.new))
        × ¬ (Rose (O.faults out.old) (O.faults out.new))
        × ¬ (Rose (E.faults errs.old) (E.faults errs.new))) }
    // The bytes of its keys were taken.
    ensures keys { TakesSome (plain_events trace.new.events.items) (K.left keys.old)
        (K.left keys.new) }

    // Nothing is changed on the disk.
    // The letters are those of what came, one behind the other, whatever the disk tells.
    ensures listed { AllMet (length (map plain_letter trace.new.archive.items)) 0
        (plain_events trace.new.events.items) }
    ensures drivers { drivers.new.list.items ≡ drivers.old.list.items }

    // Each verdict on an expression has its cause: one of size came where the builder's refusals
    // rose.
    ensures verdicts { All IsCaused trace.new.verdicts.kept }

    // A fault is answered only where its count rose.
    ensures disk_cause { result ≡ DiskFault → Rose
        (seen (dev.old.disk.vtable, dev.old.disk.value)).faults
        (seen (dev.new.disk.vtable, dev.new.disk.value)).faults }
    ensures keys_cause { result ≡ KeysFault → Rose (K.faults keys.old) (K.faults keys.new) }
    ensures out_cause { result ≡ OutFault
        → Rose (O.faults out.old) (O.faults out.new)
        ⊎ Rose (E.faults errs.old) (E.faults errs.new) }
{
    let moment = now(clock);
    let status = obey_words(
        alloc, words, moment, keys, out, errs, dev, drivers, clock, trace,
    );
    trace.verdicts.causes();
    tell_end(alloc, errs, looked_for(trace), status)
}

// Does what the words ask for, without the line of the end.
fn obey_words<K: Source, O: Sink, E: Sink, C: Clock>(
    alloc: Global,
    words: &Words,
    moment: i64,
    keys: &mut K,
    out: &mut O,
    errs: &mut E,
    dev: &mut Device,
    drivers: &Drivers,
    clock: &mut C,
    trace: &mut Trace,
) -> Status
    requires archive { trace.old.archive.items ≡ [] }
    requires events { trace.old.events.items ≡ [] }
    requires notes { trace.old.notes.items ≡ [] }
    requires moment { IsMoment moment }
    ensures reads { ReadsOver (options_of (plain_texts words.now)) moment
        (λ kind. Any (λ d. sort (d.vtable, d.value) ≡ kind) drivers.now.list.items)
        (given_of (map plain_letter trace.new.archive.items) trace.new.verdicts.kept)
        result (plain_events trace.new.events.items)
        (outside (O.written out.old) (E.written errs.old) (E.faults errs.old) (K.left keys.old)
        (C.moments clock.old) (seen (dev.old.disk.vtable, dev.old.disk.value)))
        (outside (O.written out.new) (E.written errs.new) (E.faults errs.new) (K.left keys.new)
        (C.moments clock.new) (seen (dev.new.disk.vtable, dev.new.disk.value))) }
    ensures unopened { IfErr (options_of (plain_texts words.now))
        (λ word. plain_events trace.new.events.items ≡ []) }
    ensures met { AllMet (length (map plain_letter trace.new.archive.items)) 0
        (plain_events trace.new.events.items) }
    ensures faults { CountsStreams result (K.faults keys.old) (K.faults keys.new)
        (O.faults out.old) (O.faults out.new) (E.faults errs.old) (E.faults errs.new) }
{
    match read_words(alloc, words) {
        Ok(options) => obey(
            alloc, options, moment, keys, out, errs, dev, drivers, clock, trace,
        ),
        Err(WordsError::Usage(word)) => Status::Usage(word),
        Err(WordsError::NoMemory) => Status::NoMemory,
    }
}

// Does what the options ask for.
fn obey<K: Source, O: Sink, E: Sink, C: Clock>(
    alloc: Global,
    options: Options,
    moment: i64,
    keys: &mut K,
    out: &mut O,
    errs: &mut E,
    dev: &mut Device,
    drivers: &Drivers,
    clock: &mut C,
    trace: &mut Trace,
) -> Status
    requires archive { trace.old.archive.items ≡ [] }
    requires events { trace.old.events.items ≡ [] }
    requires notes { trace.old.notes.items ≡ [] }
    requires usable { IsUsable options }
    requires moment { IsMoment moment }
    ensures reads { ReadsOver (Ok (plain_options options)) moment
        (λ kind. Any (λ d. sort (d.vtable, d.value) ≡ kind) drivers.now.list.items)
        (given_of (map plain_letter trace.new.archive.items) trace.new.verdicts.kept)
        result (plain_events trace.new.events.items)
        (outside (O.written out.old) (E.written errs.old) (E.faults errs.old) (K.left keys.old)
        (C.moments clock.old) (seen (dev.old.disk.vtable, dev.old.disk.value)))
        (outside (O.written out.new) (E.written errs.new) (E.faults errs.new) (K.left keys.new)
        (C.moments clock.new) (seen (dev.new.disk.vtable, dev.new.disk.value))) }
    ensures met { AllMet (length (map plain_letter trace.new.archive.items)) 0
        (plain_events trace.new.events.items) }
    ensures faults { CountsStreams result (K.faults keys.old) (K.faults keys.new)
        (O.faults out.old) (O.faults out.new) (E.faults errs.old) (E.faults errs.new) }
{
    if options.version {
        return tell_version(out);
    }
    let Options {
        folder,
        rc,
        commands,
        query,
        read_only,
        skip_empty,
        kind,
        rows,
        cols,
        offset,
        owner,
        ..
    } = options;
    let setup = Setup {
        path: folder,
        rc,
        commands,
        kind,
        owner,
        read_only,
        rows,
        cols,
        offset,
    };
    if are_asked(query.as_slice()) {
        return answer(alloc, setup, &query, moment, out, errs, dev, trace);
    }
    read(
        alloc, setup, skip_empty, moment, keys, out, errs, dev, drivers, clock, trace,
    )
}

// Whether variables are asked for.
fn are_asked(names: &[Bytes]) -> bool
    ensures some { result ≡ true → names.now ≡ [] → ⊥ }
    ensures none { result ≡ false → names.now ≡ [] }
{
    !names.is_empty()
}

fn tell_version<O: Sink>(out: &mut O) -> Status
    ensures { TellsVersion result (O.written out.old) (O.written out.new) (O.faults out.old)
        (O.faults out.new) }
{
    match print(out, b"mutt_main 1.0\n") {
        Ok(()) => Status::Done,
        Err(status) => status,
    }
}

// The path of the folder that was looked for, where one was.
fn looked_for(trace: &Trace) -> &[u8]
    ensures { result.now ≡ folder_in (plain_events trace.now.events.items) }
{
    let mut left = trace.events.as_slice();
    while let Some((event, rest)) = left.split_first() {
        if let Event::Opened { path, .. } | Event::NotOpened { path, .. } = event {
            return path.as_slice();
        }
        left = rest;
    }
    b""
}
