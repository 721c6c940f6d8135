//! Parents by subject, through a table of the first message of each.

ghost use Rattle.std.specs.Prelude.{◌≡◌, ◌+◌, ◌<◌, length, IfOk, OnOk};
ghost use Rattle.threads.specs.Firsts.{place_in};
ghost use Rattle.std.specs.Option.{option_or};
ghost use Rattle.threads.specs.Inner.{SubjectsBelow};
ghost use Rattle.threads.specs.Message.{plain_message, plain_messages};
ghost use Rattle.threads.specs.Subjects as spec;

use crate::firsts::{Firsts, add_first};
use crate::message::{Message, Order};
use crate::options::{Link, ThreadOptions};
use crate::step::Step;
use mail_base::NoMemory;
use std::alloc::Global;

// Takes in the next message, unless it has a parent.
fn add_subject<'a>(
    messages: &'a [Message],
    parents: &[Option<Step>],
    firsts: &mut Firsts<'a>,
    place: usize,
) -> Result<(), NoMemory>
    requires within { place < length messages.now }
    requires long { length parents.now ≡ length messages.now }
    requires before { SubjectsBelow messages.now parents.now firsts.old place }
    ensures { OnOk result (SubjectsBelow messages.now parents.now firsts.new (place + 1)) }
{
    if parents[place].is_some() {
        return Ok(());
    }
    let subject = messages[place].base_subject.as_slice();
    add_first(Order::Sent, messages, firsts, subject, place)?;
    Ok(())
}

fn firsts_of<'a>(
    alloc: Global,
    messages: &'a [Message],
    parents: &[Option<Step>],
) -> Result<Firsts<'a>, NoMemory>
    requires { length parents.now ≡ length messages.now }
    ensures { IfOk result
        (λ f. place_in f ≡ spec.first_with (plain_messages messages.now) parents.now) }
{
    let mut firsts = Firsts::with_room(alloc, 0)?;
    for place in 0..messages.len() {
        add_subject(messages, parents, &mut firsts, place)?;
    }
    Ok(firsts)
}

fn may_follow(options: ThreadOptions, message: &Message) -> bool
    ensures { result ≡ spec.may_follow options (plain_message message.now) }
{
    !options.strict
        && message.base_subject.len() != 0
        && (!options.reply_only || message.reply_prefix)
}

fn followed(
    options: ThreadOptions,
    firsts: &Firsts,
    message: &Message,
    place: usize,
) -> Option<Step>
    ensures { result
        ≡ spec.followed (place_in firsts.now) options (plain_message message.now) place }
{
    if !may_follow(options, message) {
        return None;
    }
    match firsts.find(message.base_subject.as_slice()) {
        Some(first) if first != place => Some(Step {
            place: first,
            link: Link::Subject,
        }),
        _ => None,
    }
}

fn parent_of(
    options: ThreadOptions,
    firsts: &Firsts,
    message: &Message,
    place: usize,
    parent: Option<Step>,
) -> Option<Step>
    ensures { result ≡ option_or parent
        (spec.followed (place_in firsts.now) options (plain_message message.now) place) }
{
    match parent {
        Some(step) => Some(step),
        None => followed(options, firsts, message, place),
    }
}

/// Each message's parent, given those by the ids of headers.
pub fn with_subjects(
    alloc: Global,
    options: ThreadOptions,
    messages: &[Message],
    parents: &[Option<Step>],
) -> Result<Vec<Option<Step>>, NoMemory>
    requires { length parents.now ≡ length messages.now }
    ensures { IfOk result (λ p. p.items
        ≡ spec.with_subjects options (plain_messages messages.now) parents.now) }
{
    let firsts = firsts_of(alloc, messages, parents)?;
    let mut all = Vec::with_capacity(alloc, messages.len())?;
    for (place, message) in messages.iter().enumerate() {
        all.push(parent_of(options, &firsts, message, place, parents[place]))?;
    }
    Ok(all)
}
