//! How the body of a part is written (RFC 2045, section 6.1).

ghost use Rattle.std.specs.Prelude.{◌≡◌};
ghost use Rattle.mime_tree.specs.Encoding as spec;

use mail_base::{is_same_name, trimmed};

/// How the body of a part is written (RFC 2045, section 6.1).
#[derive(Clone, Copy, Debug, PartialEq, Eq)]
pub enum Encoding {
    Plain,
    Base64,
    Quoted,
}

impl Encoding {
    /// The encoding that the value of a Content-Transfer-Encoding names; any other name is plain.
    pub fn from_value(value: &[u8]) -> Encoding
        ensures { result ≡ spec.encoding_of value.now }
    {
        let name = trimmed(value);
        if is_same_name(name, b"base64") {
            Encoding::Base64
        } else if is_same_name(name, b"quoted-printable") {
            Encoding::Quoted
        } else {
            Encoding::Plain
        }
    }
}
