//! Cases of the names of files in a Maildir (maildir(5)).

use crate::flags::put_flags;
use case_files::{Answer, Case, CaseFault, Subject};
use maildir_names::{MaildirName, make_name, order_of, read_name};
use std::alloc::Global;

/// `name` is the name of a file, `in` its folder, `cur` or `new`; `base` is `none` where the name
/// is of no message. `made` is the name that is made of what was read.
pub struct MaildirNames;

impl Subject for MaildirNames {
    fn inputs(&self) -> &[&[u8]] {
        &[b"name", b"in"]
    }

    fn answer(&self, alloc: Global, case: &Case, answer: &mut Answer) -> Result<(), CaseFault> {
        let Ok(name) = str::from_utf8(case.need(b"name")?) else {
            return Err(CaseFault::BadInput);
        };
        let in_cur = case.need(b"in")? == b"cur".as_slice();
        match read_name(alloc, name, in_cur)? {
            Some(read) => put_name(alloc, answer, &read),
            None => answer.put(b"base", b"none"),
        }
    }
}

// What a name says, the name that is made of it, and what it is sorted by.
fn put_name(alloc: Global, answer: &mut Answer, read: &MaildirName) -> Result<(), CaseFault> {
    answer.put(b"base", read.base.as_slice())?;
    put_flags(answer, b"flags", read.flags)?;
    answer.put(b"others", read.others.as_slice())?;
    answer.put(b"made", make_name(alloc, read)?.as_slice())?;
    let order = order_of(read.base.as_slice());
    answer.put(b"order", format!(in alloc; "{order}")?.as_bytes())
}
