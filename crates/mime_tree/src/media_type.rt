//! The type with which the value of a Content-Type begins (RFC 2045, section 5.1).

ghost use Rattle.std.specs.Prelude.{◌≡◌, option_map};
ghost use Rattle.mime_tree.specs.MediaType as spec;

use mail_base::{behind, token_len};

/// The `type/subtype` with which the value of a Content-Type begins.
pub fn media_type(value: &[u8]) -> Option<&[u8]>
    ensures { option_map (λ r. r.now) result ≡ spec.media_type value.now }
{
    let len = token_len(value);
    let (_, tail) = value.split_at(len);
    let subtype = behind(b'/', tail)?;
    let more = token_len(subtype);
    if len == 0 || more == 0 {
        return None;
    }
    Some(&value[..len + 1 + more])
}
