//! How many lines stand in the body of a message.

ghost use Rattle.std.specs.Prelude.{◌≡◌, ◌≤◌, length};
ghost use Rattle.bstr.specs.Text.{lines_of};
ghost use Rattle.mail_base.specs.Lines as lines;
ghost use Rattle.headers.specs.BodyLines as spec;

use bstr::ByteSlice;
use mail_base::behind_line;

fn line_count(text: &[u8]) -> u64
    ensures { result ≡ length (lines_of text.now) }
{
    text.lines_with_terminator().count() as u64
}

/// How many lines stand behind the empty line that ends the header block, which is at the place.
pub fn body_lines(raw: &[u8], body_at: usize) -> u64
    requires place { body_at ≡ lines.body_at raw.now }
    requires within { body_at ≤ length raw.now }
    ensures { result ≡ spec.body_lines raw.now }
{
    let (_, rest) = raw.split_at(body_at);
    line_count(behind_line(rest))
}
