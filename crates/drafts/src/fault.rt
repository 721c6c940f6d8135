//! Why a reader of drafts stops.

ghost use Rattle.std.specs.Prelude.{◌≡◌};

use mail_base::NoMemory;

/// Why a reader of drafts stops.
#[derive(Clone, Copy)]
pub enum Fault {
    /// No draft goes on at the place from which so many bytes are left.
    Left(usize),
    NoMemory,
}

impl From<usize> for Fault {
    ghost use Rattle.drafts.specs.declared.fault.Fault.TheVariants as Fault;

    ghost from_gives = { λ left e. e ≡ Fault.Left left };

    fn from(left: usize) -> Self {
        Fault::Left(left)
    }
}

impl From<NoMemory> for Fault {
    ghost use Rattle.drafts.specs.declared.fault.Fault.TheVariants as Fault;

    ghost from_gives = { λ _ e. e ≡ Fault.NoMemory };

    fn from(_: NoMemory) -> Self {
        Fault::NoMemory
    }
}
