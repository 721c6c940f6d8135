//! Pieces of bytes.

ghost use Rattle.std.specs.Prelude.{◌≡◌, ◌++◌, ◌∷◌, ◌<◌, take, drop, replicate, vec_len};
ghost use Rattle.std.specs.Prelude.{vec_capacity};
ghost use Rattle.std.specs.Prelude.{IfOk, OnOk, OnErr};
ghost use Rattle.disk_model.specs.State.{of_length};

use mail_base::{Bytes, NoMemory};
use std::alloc::Global;

/// The first so many bytes.
pub(crate) fn front(bytes: &[u8], count: usize) -> &[u8]
    ensures { result.now ≡ take count bytes.now }
{
    match bytes.split_at_checked(count) {
        Some((front, _)) => front,
        None => bytes,
    }
}

/// The bytes behind the first so many.
pub(crate) fn behind(bytes: &[u8], count: usize) -> &[u8]
    ensures { result.now ≡ drop count bytes.now }
{
    match bytes.split_at_checked(count) {
        Some((_, behind)) => behind,
        None => b"",
    }
}

/// The first so many bytes, and zero bytes where there are fewer.
pub(crate) fn of_length(alloc: Global, bytes: &[u8], count: usize) -> Result<Bytes, NoMemory>
    ensures { IfOk result (λ b. b.items ≡ of_length count bytes.now) }
{
    let mut made = Bytes::copy_of(alloc, front(bytes, count))?;
    if count > made.len() {
        let missing = count - made.len();
        append_zeros(&mut made, missing)?;
    }
    Ok(made)
}

fn append_zeros(bytes: &mut Bytes, count: usize) -> Result<(), NoMemory>
    ensures { OnOk result (bytes.new.items ≡ bytes.old.items ++ replicate count 0) }
{
    bytes.reserve(count)?;
    for _ in 0..count {
        bytes.push(0)?;
    }
    Ok(())
}

/// Puts an item before those of a list that has room for it.
pub(crate) fn put_first<T: Drop>(list: &mut Vec<T>, item: T)
    requires { vec_len list.old < vec_capacity list.old }
    ensures { list.new.items ≡ item ∷ list.old.items }
{
    let _ = list.insert(0, item);
}
