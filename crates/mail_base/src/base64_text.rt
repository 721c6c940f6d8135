//! Text in base64 (RFC 4648, section 4).

ghost use Rattle.std.specs.Prelude.{◌≡◌, option_map, IfOk};
ghost use Rattle.mail_base.specs.Base64Text as spec;

use crate::{Bytes, NoMemory};
use base64::DecodeAllocError;
use base64::engine::general_purpose::STANDARD;
use std::alloc::Global;

/// The bytes of a text in base64 (RFC 4648, section 4), unless it is malformed.
pub fn decode_base64(alloc: Global, text: &[u8]) -> Result<Option<Bytes>, NoMemory>
    ensures { IfOk result (λ o. option_map (λ b. b.items) o ≡ spec.base64_bytes text.now) }
{
    match STANDARD.decode(alloc, text) {
        Ok(bytes) => Ok(Some(Bytes::from_vec(bytes))),
        Err(DecodeAllocError::DecodeError(_)) => Ok(None),
        Err(DecodeAllocError::OutOfMemory) => Err(NoMemory),
    }
}
