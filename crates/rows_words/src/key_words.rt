//! Cases of key words (Mutt's manual, "Changing the Default Key Bindings").

use crate::key_texts::append_key;
use case_files::{Answer, Case, CaseFault, Subject};
use keymap::{Key, read_keys};
use mail_base::Bytes;
use std::alloc::Global;

/// `word` is a key word, `functions` is `yes` where names of functions count. Each `key` is a
/// character or a name in brackets.
pub struct KeyWords;

impl Subject for KeyWords {
    fn inputs(&self) -> &[&[u8]] {
        &[b"word", b"functions"]
    }

    fn answer(&self, alloc: Global, case: &Case, answer: &mut Answer) -> Result<(), CaseFault> {
        let functions = case.find(b"functions") == Some(b"yes".as_slice());
        let keys = read_keys(alloc, case.need(b"word")?, functions)?;
        put_keys(alloc, keys.as_slice(), answer)
    }
}

fn put_keys(alloc: Global, keys: &[Key], answer: &mut Answer) -> Result<(), CaseFault> {
    answer.put_count(b"keys", keys.len())?;
    for key in keys {
        let mut shown = Bytes::new(alloc);
        append_key(&mut shown, *key)?;
        answer.put(b"key", shown.as_slice())?;
    }
    Ok(())
}
