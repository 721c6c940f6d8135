//! Words that are one text.

ghost use Rattle.std.specs.Prelude.{◌≡◌, IfOk};
ghost use Rattle.rc_lang.specs.Settings.{plain_names};
ghost use Rattle.hook_requests.specs.Words as spec;

use mail_base::{Bytes, NoMemory};
use std::alloc::Global;

/// Words, with a blank between them.
pub fn joined(alloc: Global, words: &[Bytes]) -> Result<Bytes, NoMemory>
    ensures { IfOk result (λ text. text.items ≡ spec.joined (plain_names words.now)) }
{
    let mut text = Bytes::new(alloc);
    let Some((first, rest)) = words.split_first() else {
        return Ok(text);
    };
    text.append(first.as_slice())?;
    let mut left = rest;
    while let Some((word, more)) = left.split_first() {
        text.append(b" ")?;
        text.append(word.as_slice())?;
        left = more;
    }
    Ok(text)
}
