//! How all threads are shut or opened.

ghost use Rattle.std.specs.Prelude.{◌≡◌, IfOk};
ghost use Rattle.index_items.specs.Items.{plain_item, plain_items};
ghost use Rattle.index_view.specs.Shutting as spec;

use crate::answers::Answers;
use index_items::Item;
use mail_base::NoMemory;
use std::alloc::Global;

// A message, whose thread is shut or open now where it is the root.
fn shut_where(answers: &Answers, shut: bool, item: Item) -> Item
    ensures { plain_item result ≡ spec.shut_where shut answers.now (plain_item item) }
{
    match answers.thread_of(item.id) {
        Some(root) if root == item.id => Item { shut, ..item },
        _ => item,
    }
}

/// The messages, with all threads shut or open.
pub fn all_shut(
    alloc: Global,
    answers: &Answers,
    shut: bool,
    items: &[Item],
) -> Result<Vec<Item>, NoMemory>
    ensures { IfOk result (λ all. plain_items all.items
        ≡ spec.all_shut shut answers.now (plain_items items.now)) }
{
    let mut all = Vec::with_capacity(alloc, items.len())?;
    let mut left = items;
    while let [first, rest @ ..] = left {
        all.push(shut_where(answers, shut, *first))?;
        left = rest;
    }
    Ok(all)
}
