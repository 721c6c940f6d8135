//! Cases of messages put into threads.

ghost use Rattle.std.specs.Prelude.{◌≡◌, false, true, nat_lt, IfOk, OnOk};
ghost use Rattle.threads.specs.Order.{order_from};

use case_files::{Answer, Case, CaseFault, Entry, Subject, read_number};
use headers::read_header;
use mail_base::{Id, Ids, NoMemory};
use std::alloc::Global;
use threads::{Link, Parent, ThreadOptions, Threads};

/// `options` are words of `strict`, `reply_only` and `duplicates`. Each `message ID` is a header,
/// and stands in the listing by the number behind its id, or else by its id; it was received at
/// that second. `parent` is the parent of each message, in the order of the case, and `root` its
/// root; `order` are the ids in the order of threads, where roots and siblings rise by their ids,
/// or fall where `siblings` is `falling`.
pub struct ThreadCalls;

impl Subject for ThreadCalls {
    fn inputs(&self) -> &[&[u8]] {
        &[b"options", b"message", b"siblings"]
    }

    fn answer(&self, alloc: Global, case: &Case, answer: &mut Answer) -> Result<(), CaseFault> {
        let mut threads = Threads::new(alloc, options_of(case));
        put_threads(alloc, case, &mut threads, answer)
    }
}

// Puts the messages of a case into threads, and tells how they stand there.
fn put_threads(
    alloc: Global,
    case: &Case,
    threads: &mut Threads,
    answer: &mut Answer,
) -> Result<(), CaseFault>
    requires { threads.old.is_finished ≡ false }
{
    add_all(alloc, threads, case)?;
    threads.finish()?;
    tell(alloc, case, threads, answer)?;
    tell_order(alloc, case, threads, answer)
}

fn has_word(case: &Case, word: &[u8]) -> bool {
    let words = case.find(b"options").unwrap_or(b"");
    words.split(|byte| *byte == b' ').any(|w| w == word)
}

/// The options that a case asks for, by their names.
pub fn options_of(case: &Case) -> ThreadOptions {
    ThreadOptions {
        strict: has_word(case, b"strict"),
        reply_only: has_word(case, b"reply_only"),
        duplicates: has_word(case, b"duplicates"),
    }
}

fn add_all(alloc: Global, threads: &mut Threads, case: &Case) -> Result<(), CaseFault>
    requires { threads.old.is_finished ≡ false }
    ensures { OnOk result (threads.new.is_finished ≡ false) }
{
    for entry in case.entries.as_slice() {
        add(alloc, threads, entry)?;
    }
    Ok(())
}

fn first_number(entry: &Entry) -> Result<u64, CaseFault> {
    let words = entry.about();
    read_number(words.split(|byte| *byte == b' ').next().unwrap_or(b""))
}

fn last_number(entry: &Entry) -> Result<u64, CaseFault> {
    let words = entry.about();
    read_number(words.split(|byte| *byte == b' ').last().unwrap_or(b""))
}

fn id_of(entry: &Entry) -> Result<Id, CaseFault> {
    match u32::try_from(first_number(entry)?) {
        Ok(number) => Ok(Id(number)),
        Err(_) => Err(CaseFault::BadInput),
    }
}

fn add(alloc: Global, threads: &mut Threads, entry: &Entry) -> Result<(), CaseFault>
    requires { threads.old.is_finished ≡ false }
    ensures { OnOk result (threads.new.is_finished ≡ false) }
{
    if entry.role() != b"message".as_slice() {
        return Ok(());
    }
    let id = id_of(entry)?;
    let order = last_number(entry)?;
    if threads.holds(id) {
        return Err(CaseFault::BadInput);
    }
    let received = i64::try_from(order).unwrap_or(0);
    let header = read_header(alloc, entry.value.as_slice())?;
    match threads.add(id, order, b"", received, &header) {
        Ok(()) => Ok(()),
        Err(NoMemory) => Err(CaseFault::NoMemory),
    }
}

fn tell(alloc: Global, case: &Case, threads: &Threads, answer: &mut Answer) -> Result<(), CaseFault>
    requires { threads.now.is_finished ≡ true }
{
    for entry in case.entries.as_slice() {
        if entry.role() == b"message".as_slice() {
            tell_one(alloc, threads, id_of(entry)?, answer)?;
        }
    }
    Ok(())
}

fn tell_one(alloc: Global, threads: &Threads, id: Id, answer: &mut Answer) -> Result<(), CaseFault>
    requires { threads.now.is_finished ≡ true }
{
    if !threads.holds(id) {
        return Err(CaseFault::BadInput);
    }
    match threads.parent(id) {
        Some(parent) => put_parent(alloc, parent, answer)?,
        None => answer.put_text(b"parent", "none")?,
    }
    answer.put_number(b"root", i64::from(threads.thread_of(id).0))
}

// The ids in the order of threads, where roots and siblings rise.
fn rising(alloc: Global, threads: &Threads) -> Result<Ids, NoMemory>
    requires { threads.now.is_finished ≡ true }
    ensures { IfOk result (λ ids. ids.items ≡ order_from (λ a b. nat_lt a.0 b.0) threads.now) }
{
    threads.order_from(alloc, &|a: Id, b: Id| a.0 < b.0)
}

fn falling(alloc: Global, threads: &Threads) -> Result<Ids, NoMemory>
    requires { threads.now.is_finished ≡ true }
{
    threads.order_from(alloc, &|a: Id, b: Id| b.0 < a.0)
}

fn tell_order(
    alloc: Global,
    case: &Case,
    threads: &Threads,
    answer: &mut Answer,
) -> Result<(), CaseFault>
    requires { threads.now.is_finished ≡ true }
{
    let ids = if case.find(b"siblings").unwrap_or(b"") == b"falling".as_slice() {
        falling(alloc, threads)?
    } else {
        rising(alloc, threads)?
    };
    for id in ids.as_slice() {
        answer.put_number(b"order", i64::from(id.0))?;
    }
    Ok(())
}

fn put_parent(alloc: Global, parent: Parent, answer: &mut Answer) -> Result<(), CaseFault> {
    let number = parent.id.0;
    let by = match parent.link {
        Link::Reference => "reference",
        Link::Duplicate => "duplicate",
        Link::Subject => "subject",
    };
    let text = format!(in alloc; "{number} {by}")?;
    answer.put_text(b"parent", text.as_str())
}
