//! The threads of the listed messages.

ghost use Rattle.std.specs.Prelude.{◌≡◌, map, IfOk, OnOk};
ghost use Rattle.index_listed.specs.Listed.{plain_listed};
ghost use Rattle.index_listed.specs.Threading as spec;
ghost use Rattle.threads.specs.Forest.{IsForest};
ghost use Rattle.threads.specs.Subjects.{parents};

use crate::listed::Listed;
use mail_base::NoMemory;
use std::alloc::Global;
use threads::{ThreadOptions, Threads};

fn add_all(threads: &mut Threads, listed: &[Listed<'_>]) -> Result<(), NoMemory>
    requires open { spec.IsOpen threads.old }
    requires apart { spec.AreApart (map plain_listed listed.now) }
    ensures { OnOk result (threads.new ≡ record threads.old {
      messages = map spec.thread_message (map plain_listed listed.now);
    }) }
{
    let mut left = listed;
    while let [first, rest @ ..] = left {
        let letter = first.letter;
        let key = letter.key.as_slice();
        threads.add(first.id, letter.order, key, letter.received, first.header)?;
        left = rest;
    }
    Ok(())
}

/// The threads of the messages.
pub fn threads_of(
    alloc: Global,
    options: ThreadOptions,
    listed: &[Listed<'_>],
) -> Result<Threads, NoMemory>
    requires { spec.AreApart (map plain_listed listed.now) }
    ensures threads { IfOk result
        (λ t. t ≡ spec.threads options (map plain_listed listed.now)) }
    ensures forest { IfOk result (λ t. IsForest (parents t.options t.messages)) }
{
    let mut threads = Threads::new(alloc, options);
    add_all(&mut threads, listed)?;
    threads.finish()?;
    Ok(threads)
}
