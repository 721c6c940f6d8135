//! The headers of letters, which are kept.

ghost use Rattle.std.specs.Prelude.{◌≡◌, length, map, take, IfOk, OnOk};
ghost use Rattle.folder_letters.specs.Letters.{plain_letter};
ghost use Rattle.headers.specs.Header.{plain_header};
ghost use Rattle.index_listed.specs.Heads.{AreHeads};
ghost use Rattle.index_listed.specs.Listed.{header_of};

use crate::listed::text_of;
use folder_letters::Letter;
use headers::{Header, read_brief_header};
use mail_base::NoMemory;
use std::alloc::Global;

fn header_of(alloc: Global, letter: &Letter) -> Result<Header, NoMemory>
    ensures { IfOk result (λ h. plain_header h ≡ header_of (plain_letter letter.now)) }
{
    read_brief_header(alloc, text_of(letter))
}

/// Reads the headers of the letters behind those whose headers are kept. A refusal leaves some of
/// them there.
pub fn read_heads(
    alloc: Global,
    heads: &mut Vec<Header>,
    letters: &[Letter],
) -> Result<(), NoMemory>
    requires { AreHeads (map plain_header heads.old.items) (map plain_letter letters.now) }
    ensures all { OnOk result (length heads.new.items ≡ length letters.now) }
    ensures heads { AreHeads (map plain_header heads.new.items) (map plain_letter letters.now) }
    ensures kept { take (length heads.old.items) heads.new.items ≡ heads.old.items }
{
    while heads.len() < letters.len() {
        let next = header_of(alloc, &letters[heads.len()])?;
        heads.push(next)?;
    }
    Ok(())
}
