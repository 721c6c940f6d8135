//! The postmarks of messages that are added (mbox(5)).

ghost use Rattle.std.specs.Prelude.{◌≡◌, ◌++◌, OnOk};
ghost use Rattle.std.specs.List.{filter};
ghost use Rattle.folder_letters.specs.Moments.{IsClockMoment};
ghost use Rattle.folder_drivers.specs.MboxPostmark as spec;

use crate::stamp::stamp_text;
use mail_base::{Bytes, NoMemory};

fn is_sender_byte(byte: u8) -> bool
    ensures { result ≡ spec.is_sender_byte byte }
{
    33 <= byte && byte <= 126
}

// Adds those bytes of an address that may stand in a postmark.
fn append_address(text: &mut Bytes, address: &[u8]) -> Result<(), NoMemory>
    ensures { OnOk result (text.new.items
        ≡ text.old.items ++ filter spec.is_sender_byte address.now) }
{
    for byte in address {
        if is_sender_byte(*byte) {
            text.push(*byte)?;
        }
    }
    Ok(())
}

// Adds the sender with that address.
fn append_sender(text: &mut Bytes, address: &[u8]) -> Result<(), NoMemory>
    ensures { OnOk result (text.new.items ≡ text.old.items ++ spec.sender address.now) }
{
    let before = text.len();
    append_address(text, address)?;
    if text.len() == before {
        text.append(b"MAILER-DAEMON")?;
    }
    Ok(())
}

/// Adds the postmark of a message from an address, which was received at a moment.
pub fn append_postmark(text: &mut Bytes, address: &[u8], moment: i64) -> Result<(), NoMemory>
    requires { IsClockMoment moment }
    ensures { OnOk result (text.new.items
        ≡ text.old.items ++ spec.postmark_line address.now moment) }
{
    text.append(b"From ")?;
    append_sender(text, address)?;
    text.push(b' ')?;
    text.append(&stamp_text(moment))?;
    text.push(b'\n')
}
