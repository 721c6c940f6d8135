//! What goes in front of a message that is added to a mailbox (mbox(5)).

ghost use Rattle.std.specs.Prelude.{◌≡◌};
ghost use Rattle.folder_drivers.specs.MboxFeeds as spec;

use bstr::ByteSlice;
use mail_base::{is_empty_line, without_feed};

/// As many LF as make the bytes of a file end with an empty line; none for those of an empty file.
pub fn feeds_before(bytes: &[u8]) -> &'static [u8]
    ensures { result.now ≡ spec.feeds_before bytes.now }
{
    let Some(last) = bytes.lines_with_terminator().next_back() else {
        return b"";
    };
    if is_empty_line(last) {
        b""
    } else if without_feed(last).len() < last.len() {
        b"\n"
    } else if last == b"\r".as_slice() {
        // It becomes CR LF, which is an empty line.
        b"\n"
    } else {
        b"\n\n"
    }
}
