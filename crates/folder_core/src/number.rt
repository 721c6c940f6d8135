//! Numbers of messages (mh-mail(5)).

ghost use Rattle.std.specs.Prelude.{◌≡◌};
ghost use Rattle.folder_core.specs.MhNumbers as spec;

use mail_base::read_decimal;

/// The number from 1 to 4,294,967,295 that a name writes in decimal digits alone, without zeros in
/// front.
pub fn read_number(name: &[u8]) -> Option<u32>
    ensures { result ≡ spec.number_of name.now }
{
    if let Some(b'0') = name.first() {
        return None;
    }
    read_decimal(name, 1, u32::MAX)
}
