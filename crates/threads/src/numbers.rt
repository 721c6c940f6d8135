//! A hash of the numbers of ids, under which numbers that follow each other stand close together.

ghost use Rattle.std.specs.Prelude.{◌≡◌, fold};
ghost use Rattle.threads.specs.Numbers as spec;

use std::hash::{BuildHasherDefault, Hasher};

/// Makes the hashers of a table of numbers.
pub type BuildNumberHasher = BuildHasherDefault<NumberHasher>;

/// The number that was written, of which the lowest byte comes first.
#[derive(Clone, Copy)]
pub struct NumberHasher(u32);

impl Default for NumberHasher {
    ghost is_default = { λ h. h.0 ≡ 0 };

    fn default() -> NumberHasher {
        NumberHasher(0)
    }
}

impl Hasher for NumberHasher {
    ghost write = { λ h bytes. record { 0 = fold spec.with_byte h.0 bytes } };

    ghost finish = { λ h. spec.hash h.0 };

    // The place is that of the number, and the highest byte tells apart numbers that share it.
    fn finish(&self) -> u64 {
        u64::from((self.0 / 4) ^ (self.0.wrapping_mul(0x9E37_79B1) & 0xFF00_0000))
    }

    fn write(&mut self, bytes: &[u8]) {
        for b in bytes {
            self.0 = self.0 / 256 + u32::from(*b) * 0x100_0000;
        }
    }
}
