//! How a part is shown, by its content type.

ghost use Rattle.std.specs.Prelude.{◌≡◌};
ghost use Rattle.message_text.specs.Look as spec;

use mail_base::behind_text;

/// How a part is shown.
#[derive(Clone, Copy, Debug, PartialEq, Eq)]
pub enum Look {
    /// A text, decoded.
    Text,
    /// The one of its parts that is chosen.
    Alternative,
    /// Its parts, one behind the other.
    Mixed,
    /// The header and the body of a message.
    Message,
    /// A line that stands for it.
    Unsupported,
}

/// Whether the type is one of text (RFC 2046, section 4.1).
pub fn is_text(content: &[u8]) -> bool
    ensures { result ≡ spec.is_text content.now }
{
    behind_text(b"text/", content).is_some()
}

impl Look {
    ghost use Rattle.std.specs.Prelude.{◌≡◌};
    ghost use Rattle.message_text.specs.Look as spec;

    /// How a part of the type is shown.
    pub fn of(content: &[u8]) -> Look
        ensures { result ≡ spec.look_of content.now }
    {
        if is_text(content) {
            Look::Text
        } else if content == b"message/rfc822".as_slice() {
            Look::Message
        } else if content == b"multipart/alternative".as_slice() {
            Look::Alternative
        } else if content == b"multipart/encrypted".as_slice() {
            Look::Unsupported
        } else if behind_text(b"multipart/", content).is_some() {
            Look::Mixed
        } else {
            Look::Unsupported
        }
    }
}
