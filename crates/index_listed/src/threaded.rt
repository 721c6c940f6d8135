//! The listed messages in threads, where they stand, and what each follows.

ghost use Rattle.std.specs.Prelude.{◌≡◌, map, true, IfOk};
ghost use Rattle.index_listed.specs.Listed.{ids, plain_listed};
ghost use Rattle.index_listed.specs.Places.{numbers};
ghost use Rattle.index_listed.specs.Threaded as spec;
ghost use Rattle.index_listed.specs.Threading.{AreApart};
ghost use Rattle.threads.specs.Threads.{parent};

use crate::links::{Links, all_links};
use crate::listed::Listed;
use crate::places::{Places, places_of};
use crate::threading::threads_of;
use mail_base::{Id, NoMemory};
use std::alloc::Global;
use threads::{Parent, ThreadOptions, Threads};

/// The listed messages in threads, where they stand, and what each follows.
#[derive(Drop)]
pub struct Threaded {
    pub threads: Threads,
    pub places: Places,
    pub links: Vec<Links>,
    pub parents: Vec<Option<Parent>>,
}

fn ids_of(alloc: Global, listed: &[Listed<'_>]) -> Result<Vec<Id>, NoMemory>
    ensures { IfOk result (λ all. numbers all.items ≡ ids (map plain_listed listed.now)) }
{
    let mut all = Vec::with_capacity(alloc, listed.len())?;
    let mut left = listed;
    while let [first, rest @ ..] = left {
        all.push(first.id)?;
        left = rest;
    }
    Ok(all)
}

fn parent_of(threads: &Threads, id: Id) -> Option<Parent>
    requires { threads.now.is_finished ≡ true }
    ensures { result ≡ parent threads.now id }
{
    if !threads.holds(id) {
        return None;
    }
    threads.parent(id)
}

// The parent of each message.
fn all_parents(
    alloc: Global,
    threads: &Threads,
    listed: &[Listed<'_>],
) -> Result<Vec<Option<Parent>>, NoMemory>
    requires { threads.now.is_finished ≡ true }
    ensures { IfOk result
        (λ all. all.items ≡ spec.parents_of threads.now (map plain_listed listed.now)) }
{
    let mut all = Vec::with_capacity(alloc, listed.len())?;
    let mut left = listed;
    while let [first, rest @ ..] = left {
        all.push(parent_of(threads, first.id))?;
        left = rest;
    }
    Ok(all)
}

/// The messages in threads.
pub fn in_threads(
    alloc: Global,
    options: ThreadOptions,
    listed: &[Listed<'_>],
) -> Result<Threaded, NoMemory>
    requires { AreApart (map plain_listed listed.now) }
    ensures { IfOk result (spec.AreThreaded options (map plain_listed listed.now)) }
{
    let threads = threads_of(alloc, options, listed)?;
    let places = places_of(alloc, &ids_of(alloc, listed)?)?;
    let links = all_links(alloc, &threads, &places, listed)?;
    let parents = all_parents(alloc, &threads, listed)?;
    Ok(Threaded {
        threads,
        places,
        links,
        parents,
    })
}
