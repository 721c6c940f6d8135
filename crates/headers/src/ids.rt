//! Message ids (RFC 5322, section 3.6.4).

ghost use Rattle.std.specs.Prelude.{◌≡◌, ◌<◌, IfOk, IfSome, option_map, length};
ghost use Rattle.headers.specs.Ids as spec;

use mail_base::{Bytes, NoMemory, split_once};
use std::alloc::Global;

/// What stands in the brackets of a message id, and behind it.
#[derive(Clone, Copy)]
pub struct FoundId<'a> {
    pub inside: &'a [u8],
    pub rest: &'a [u8],
}

impl<'a> FoundId<'a> {
    /// The first message id of a text: from the first `<` up to the next `>`.
    pub fn find(text: &'a [u8]) -> Option<FoundId<'a>>
        ensures value { option_map spec.plain_found_id result ≡ spec.first_id text.now }
        ensures shorter { IfSome result (λ f. length f.rest.now < length text.now) }
    {
        let (_, tail) = split_once(b'<', text)?;
        let (inside, rest) = split_once(b'>', tail)?;
        Some(FoundId { inside, rest })
    }
}

/// The id with its brackets.
pub fn bracketed(alloc: Global, inside: &[u8]) -> Result<Bytes, NoMemory>
    ensures { IfOk result (λ b. b.items ≡ spec.id_of inside.now) }
{
    let mut id = Vec::with_capacity(alloc, inside.len() + 2)?;
    id.push(b'<')?;
    id.extend_from_slice(inside)?;
    id.push(b'>')?;
    Ok(Bytes::from_vec(id))
}
