//! Cases of keys that wait to be pressed.

use crate::key_texts::{append_key, shown_keys};
use case_files::{Answer, Case, CaseFault, Entry, Subject, read_number};
use keymap::{Key, KeyQueue, read_keys};
use mail_base::Bytes;
use std::alloc::Global;

/// The lines are done in their order: `push`, `typed` and `put` bring the keys of a word, `take`
/// takes a key and `count` counts a replacement so many times, and `clear` drops all. `taken` is
/// each taken key, or `none`; `counted` the last count's answer; `waiting` what waits at the end,
/// and `replaced` the count.
pub struct KeyQueues;

impl Subject for KeyQueues {
    fn inputs(&self) -> &[&[u8]] {
        &[b"push", b"typed", b"put", b"take", b"count", b"clear"]
    }

    fn answer(&self, alloc: Global, case: &Case, answer: &mut Answer) -> Result<(), CaseFault> {
        let mut queue = KeyQueue::new(alloc);
        run_all(alloc, &mut queue, answer, case)
    }
}

fn run_all(
    alloc: Global,
    queue: &mut KeyQueue,
    answer: &mut Answer,
    case: &Case,
) -> Result<(), CaseFault> {
    for entry in case.entries.as_slice() {
        run(alloc, queue, answer, entry)?;
    }
    answer.put(b"waiting", waiting_keys(alloc, queue)?.as_slice())?;
    answer.put_count(b"replaced", usize::from(queue.replaced()))
}

fn run(
    alloc: Global,
    queue: &mut KeyQueue,
    answer: &mut Answer,
    entry: &Entry,
) -> Result<(), CaseFault> {
    let value = entry.value.as_slice();
    match entry.role() {
        b"push" => push(alloc, queue, value),
        b"typed" => typed(alloc, queue, value),
        b"put" => put(alloc, queue, value),
        b"take" => take(alloc, queue, answer, value),
        b"count" => count(queue, answer, value),
        b"clear" => {
            queue.clear();
            Ok(())
        }
        _ => Ok(()),
    }
}

fn push(alloc: Global, queue: &mut KeyQueue, word: &[u8]) -> Result<(), CaseFault> {
    let keys = read_keys(alloc, word, true)?;
    queue.reserve(keys.len())?;
    for key in keys.as_slice() {
        queue.push(*key)?;
    }
    Ok(())
}

fn put(alloc: Global, queue: &mut KeyQueue, word: &[u8]) -> Result<(), CaseFault> {
    let keys = read_keys(alloc, word, true)?;
    queue.put_before(&keys)?;
    Ok(())
}

fn typed(alloc: Global, queue: &mut KeyQueue, word: &[u8]) -> Result<(), CaseFault> {
    for key in read_keys(alloc, word, false)?.as_slice() {
        queue.typed(*key)?;
    }
    Ok(())
}

fn take(
    alloc: Global,
    queue: &mut KeyQueue,
    answer: &mut Answer,
    times: &[u8],
) -> Result<(), CaseFault> {
    for _time in 0..read_number(times)? {
        let mut shown = Bytes::new(alloc);
        append_taken(&mut shown, queue.take_first())?;
        answer.put(b"taken", shown.as_slice())?;
    }
    Ok(())
}

fn append_taken(shown: &mut Bytes, taken: Option<Key>) -> Result<(), CaseFault> {
    match taken {
        Some(key) => append_key(shown, key),
        None => Ok(shown.append(b"none")?),
    }
}

fn count(queue: &mut KeyQueue, answer: &mut Answer, times: &[u8]) -> Result<(), CaseFault> {
    let mut counted = true;
    for _time in 0..read_number(times)? {
        counted = queue.count_one();
    }
    answer.put_flag(b"counted", counted)
}

fn waiting_keys(alloc: Global, queue: &KeyQueue) -> Result<Bytes, CaseFault> {
    let mut keys: Vec<Key> = Vec::new(alloc);
    for place in 0..queue.len() {
        if let Some(key) = queue.get(place) {
            keys.push(*key)?;
        }
    }
    shown_keys(alloc, keys.as_slice())
}
