//! Cases of very many messages.

ghost use Rattle.std.specs.Prelude.{◌≡◌, false, true, OnOk};

use case_files::{Answer, Case, CaseFault, Subject};
use headers::{Header, read_header};
use mail_base::{Id, NoMemory};
use std::alloc::Global;
use threads::{ThreadOptions, Threads};

/// So many messages are added, with strict threads: message i has the id `<i@x>` and refers to that
/// of i / 2, rounded down, in a `shape` of `chain` to that of i - 1, and in one of `star` to that
/// of 1. `wrong` is how many have another parent than that, or a root other than the first message.
pub struct Many;

/// Whom each message refers to.
#[derive(Clone, Copy)]
enum Shape {
    Tree,
    Chain,
    Star,
}

impl Shape {
    fn of_case(case: &Case) -> Result<Shape, CaseFault> {
        match case.find(b"shape").unwrap_or(b"tree") {
            b"tree" => Ok(Shape::Tree),
            b"chain" => Ok(Shape::Chain),
            b"star" => Ok(Shape::Star),
            _ => Err(CaseFault::BadInput),
        }
    }

    fn above(self, number: u32) -> u32 {
        match self {
            Shape::Tree => number / 2,
            Shape::Chain => number.saturating_sub(1),
            Shape::Star => number.min(2).saturating_sub(1),
        }
    }
}

impl Subject for Many {
    fn inputs(&self) -> &[&[u8]] {
        &[b"messages", b"shape"]
    }

    fn answer(&self, alloc: Global, case: &Case, answer: &mut Answer) -> Result<(), CaseFault> {
        let Ok(count) = u32::try_from(case.number(b"messages")?.unwrap_or(0)) else {
            return Err(CaseFault::BadInput);
        };
        let shape = Shape::of_case(case)?;
        let mut threads = Threads::new(
            alloc,
            ThreadOptions {
                strict: true,
                reply_only: true,
                duplicates: true,
            },
        );
        answer.put_count(b"wrong", wrong_parents(alloc, &mut threads, shape, count)?)
    }
}

fn wrong_parents(
    alloc: Global,
    threads: &mut Threads,
    shape: Shape,
    count: u32,
) -> Result<usize, CaseFault>
    requires { threads.old.is_finished ≡ false }
{
    for number in 1..count {
        add(alloc, threads, shape, number)?;
    }
    threads.finish()?;
    let mut wrong = 0usize;
    for number in 1..count {
        if !is_right(threads, shape, number) {
            wrong = wrong.saturating_add(1);
        }
    }
    Ok(wrong)
}

fn add(alloc: Global, threads: &mut Threads, shape: Shape, number: u32) -> Result<(), CaseFault>
    requires { threads.old.is_finished ≡ false }
    ensures { OnOk result (threads.new.is_finished ≡ false) }
{
    let id = Id(number);
    if threads.holds(id) {
        return Err(CaseFault::BadInput);
    }
    let header = header_of(alloc, number, shape.above(number))?;
    match threads.add(id, u64::from(number), b"", 0, &header) {
        Ok(()) => Ok(()),
        Err(NoMemory) => Err(CaseFault::NoMemory),
    }
}

fn header_of(alloc: Global, number: u32, above: u32) -> Result<Header, NoMemory> {
    let text = format!(in alloc; "Message-ID: <{number}@x>\nReferences: <{above}@x>\n\n")?;
    read_header(alloc, text.as_bytes())
}

fn is_right(threads: &Threads, shape: Shape, number: u32) -> bool
    requires { threads.now.is_finished ≡ true }
{
    let id = Id(number);
    if !threads.holds(id) {
        return false;
    }
    let is_parent_right = match threads.parent(id) {
        Some(parent) => parent.id.0 == shape.above(number),
        None => number < 2,
    };
    is_parent_right && threads.thread_of(id).0 == 1
}
