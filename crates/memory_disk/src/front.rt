//! The first bytes of a file, as a read puts them.

ghost use Rattle.std.specs.Prelude.{◌≡◌, length, min, take, drop};

/// Puts the first bytes into a slice, as many as there are and it holds, and tells how many these
/// are.
pub(crate) fn put_front(bytes: &[u8], into: &mut [u8]) -> usize
    ensures count { result ≡ min (length into.old) (length bytes.now) }
    ensures front { take result into.new ≡ take (length into.old) bytes.now }
    ensures behind { drop result into.new ≡ drop result into.old }
{
    let count = into.len().min(bytes.len());
    into[..count].copy_from_slice(&bytes[..count]);
    count
}
