//! The orders that keys name (Mutt's manual, "sort-mailbox").

ghost use Rattle.std.specs.Prelude.{◌≡◌, IfOk};
ghost use Rattle.mail_base.specs.Series.{plain_texts};
ghost use Rattle.session_screen.specs.Sorting as spec;

use mail_base::{Bytes, NoMemory, Words};
use std::alloc::Global;

// The order that a key names.
fn order_of_key(key: char) -> &'static [u8]
    ensures { result.now ≡ spec.order_of_key key }
{
    match key {
        'f' => b"from",
        'r' => b"date-received",
        's' => b"subject",
        'o' => b"to",
        't' => b"threads",
        'u' => b"mailbox-order",
        'z' => b"size",
        'c' => b"score",
        _ => b"date-sent",
    }
}

/// The words of the command that sets `$sort` by the key that answered its prompt.
pub fn sort_words(alloc: Global, reversed: bool, key: char) -> Result<Words, NoMemory>
    ensures { IfOk result (λ words. plain_texts words ≡ spec.sort_words reversed key) }
{
    let mut value = Bytes::copy_of(alloc, b"sort=")?;
    if reversed {
        value.append(b"reverse-")?;
    }
    value.append(order_of_key(key))?;
    let mut words = Words::new(alloc);
    words.push(Bytes::copy_of(alloc, b"set")?)?;
    words.push(value)?;
    Ok(words)
}
