//! The words of the command that turns a variable over (Mutt's manual, "toggle").

ghost use Rattle.std.specs.Prelude.{◌≡◌, IfOk};
ghost use Rattle.mail_base.specs.Series.{plain_texts};
ghost use Rattle.session_screen.specs.Toggling as spec;

use mail_base::{Bytes, NoMemory, Words};
use std::alloc::Global;

/// The words of the command that turns the variable with the name over.
pub fn toggle_words(alloc: Global, name: &[u8]) -> Result<Words, NoMemory>
    ensures { IfOk result (λ words. plain_texts words ≡ spec.toggle_words name.now) }
{
    let mut words = Words::new(alloc);
    words.push(Bytes::copy_of(alloc, b"toggle")?)?;
    words.push(Bytes::copy_of(alloc, name)?)?;
    Ok(words)
}
