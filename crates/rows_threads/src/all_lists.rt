//! Cases of all short lists of messages, each compared with a plain program.

ghost use Rattle.std.specs.Prelude.{◌≡◌, false, true, OnOk};

use crate::plain::{Above, Sketch, parent, root};
use crate::threads_calls::options_of;
use case_files::{Answer, Case, CaseFault, Subject};
use headers::{Header, read_header};
use mail_base::{Id, NoMemory};
use std::alloc::Global;
use threads::{Parent, ThreadOptions, Threads};

/// All lists of so many `messages` are put into threads with these `options`. Each message has one
/// of three ids, refers to none of them or to one, and has the subject `t` or `Re: t`. `lists` is
/// how many lists there are, and `wrong` how many messages have another parent or root than the
/// plain program finds.
pub struct AllLists;

impl Subject for AllLists {
    fn inputs(&self) -> &[&[u8]] {
        &[b"options", b"messages"]
    }

    fn answer(&self, alloc: Global, case: &Case, answer: &mut Answer) -> Result<(), CaseFault> {
        let length = case.number(b"messages")?.unwrap_or(0);
        let count = list_count(length);
        answer.put_number(b"lists", i64::from(count))?;
        let mut headers = Vec::new(alloc);
        push_headers(alloc, &mut headers)?;
        let lists = Lists {
            options: options_of(case),
            headers: headers.as_slice(),
        };
        answer.put_count(b"wrong", lists.wrong_count(alloc, length, count)?)
    }
}

const KINDS: u32 = 24;

// The message of each number below 24.
fn sketch_of(number: u32) -> Sketch {
    let reference = number / 3 % 4;
    Sketch {
        id: number % 3,
        reference: if reference < 3 { Some(reference) } else { None },
        is_reply: number / 12 == 1,
    }
}

fn header_of(alloc: Global, sketch: Sketch) -> Result<Header, NoMemory> {
    let id = sketch.id;
    let prefix = if sketch.is_reply { "Re: " } else { "" };
    let text = match sketch.reference {
        Some(above) => format!(in alloc;
            "Message-ID: <{id}@x>\nReferences: <{above}@x>\nSubject: {prefix}t\n\n"
        )?,
        None => format!(in alloc; "Message-ID: <{id}@x>\nSubject: {prefix}t\n\n")?,
    };
    read_header(alloc, text.as_bytes())
}

fn push_headers(alloc: Global, headers: &mut Vec<Header>) -> Result<(), NoMemory> {
    for number in 0..KINDS {
        headers.push(header_of(alloc, sketch_of(number))?)?;
    }
    Ok(())
}

fn list_count(length: u64) -> u32 {
    let mut count = 1u32;
    for _message in 0..length {
        count = count.saturating_mul(KINDS);
    }
    count
}

// The numbers of the messages of a list.
fn numbers_of(alloc: Global, length: u64, list: u32) -> Result<Vec<u32>, NoMemory> {
    let mut numbers = Vec::new(alloc);
    let mut left = list;
    for _message in 0..length {
        numbers.push(left % KINDS)?;
        left /= KINDS;
    }
    Ok(numbers)
}

fn sketches_of(alloc: Global, numbers: &[u32]) -> Result<Vec<Sketch>, NoMemory> {
    let mut sketches = Vec::new(alloc);
    for number in numbers {
        sketches.push(sketch_of(*number))?;
    }
    Ok(sketches)
}

/// What all lists share.
#[derive(Clone, Copy)]
struct Lists<'a> {
    options: ThreadOptions,
    headers: &'a [Header],
}

impl Lists<'_> {
    fn wrong_count(self, alloc: Global, length: u64, count: u32) -> Result<usize, CaseFault> {
        let mut wrong = 0usize;
        for list in 0..count {
            let numbers = numbers_of(alloc, length, list)?;
            wrong = wrong.saturating_add(self.wrong_in(alloc, &numbers)?);
        }
        Ok(wrong)
    }

    fn wrong_in(self, alloc: Global, numbers: &[u32]) -> Result<usize, CaseFault> {
        let sketches = sketches_of(alloc, numbers)?;
        let mut threads = Threads::new(alloc, self.options);
        self.finish(&mut threads, numbers)?;
        Ok(wrong_messages(self.options, &sketches, &threads))
    }

    fn finish(self, threads: &mut Threads, numbers: &[u32]) -> Result<(), CaseFault>
        requires { threads.old.is_finished ≡ false }
        ensures { OnOk result (threads.new.is_finished ≡ true) }
    {
        self.add_all(threads, numbers)?;
        threads.finish()?;
        Ok(())
    }

    fn add_all(self, threads: &mut Threads, numbers: &[u32]) -> Result<(), CaseFault>
        requires { threads.old.is_finished ≡ false }
        ensures { OnOk result (threads.new.is_finished ≡ false) }
    {
        let mut place = 0u32;
        for number in numbers {
            self.add(threads, place, *number)?;
            place = place.saturating_add(1);
        }
        Ok(())
    }

    fn add(self, threads: &mut Threads, place: u32, number: u32) -> Result<(), CaseFault>
        requires { threads.old.is_finished ≡ false }
        ensures { OnOk result (threads.new.is_finished ≡ false) }
    {
        let Some(header) = usize::try_from(number)
            .ok()
            .and_then(|n| self.headers.get(n))
        else {
            return Err(CaseFault::BadInput);
        };
        if threads.holds(Id(place)) {
            return Err(CaseFault::BadInput);
        }
        let received = -i64::from(place);
        threads.add(Id(place), u64::from(place), b"", received, header)?;
        Ok(())
    }
}

fn wrong_messages(options: ThreadOptions, list: &[Sketch], threads: &Threads) -> usize
    requires { threads.now.is_finished ≡ true }
{
    let mut wrong = 0usize;
    for place in 0..list.len() {
        if !is_right(options, list, threads, place) {
            wrong = wrong.saturating_add(1);
        }
    }
    wrong
}

fn is_right(options: ThreadOptions, list: &[Sketch], threads: &Threads, place: usize) -> bool
    requires { threads.now.is_finished ≡ true }
{
    let Some(id) = id_at(place) else {
        return false;
    };
    threads.holds(id)
        && is_same(threads.parent(id), parent(options, list, place))
        && Some(threads.thread_of(id)) == id_at(root(options, list, place))
}

fn id_at(place: usize) -> Option<Id> {
    Some(Id(u32::try_from(place).ok()?))
}

fn is_same(found: Option<Parent>, above: Option<Above>) -> bool {
    match (found, above) {
        (Some(found), Some(above)) => {
            Some(found.id) == id_at(above.place) && found.link == above.link
        }
        (None, None) => true,
        _ => false,
    }
}
