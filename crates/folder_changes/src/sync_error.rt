//! Why a folder was not written.

use disk_model::DiskError;
use mail_base::{Bytes, NoMemory};

/// What in a folder is not as it is known.
#[derive(Drop)]
pub enum Spot {
    /// A file, or a folder of files, at this path.
    Name(Bytes),
    /// The folder's file, from this place on.
    At(u64),
}

/// Why a folder was not written.
#[derive(Drop)]
pub enum SyncError {
    /// The folder's lock is that of others.
    Locked,
    /// A write to the folder was begun and not finished, and is not ours to finish.
    Unfinished,
    /// The folder is not as it is known.
    Changed(Spot),
    /// The folder holds so many messages, or would, more than are listed.
    TooMany(u64),
    /// The folder holds so many bytes, or would, more than are read.
    TooLarge(u64),
    /// The disk failed, and has counted it.
    Fault,
    /// Memory ran out.
    NoMemory,
    /// What stands at the path is no folder.
    NotFolder,
}

impl From<NoMemory> for SyncError {
    ghost use Rattle.std.specs.Prelude.{◌≡◌};
    ghost use Rattle.folder_changes.specs.declared.sync_error.SyncError.TheVariants.{NoMemory};

    ghost from_gives = { λ _ e. e ≡ NoMemory };

    fn from(_: NoMemory) -> Self {
        SyncError::NoMemory
    }
}

/// What a refused call makes of a folder that is made or added to: one that is none, where a step
/// does not find it as it needs it.
impl From<DiskError> for SyncError {
    ghost use Rattle.std.specs.Prelude.{◌≡◌};
    ghost use Rattle.folder_changes.specs.Refused.{refused_by};

    ghost from_gives = { λ why e. e ≡ refused_by why };

    fn from(why: DiskError) -> Self {
        match why {
            DiskError::Missing | DiskError::WrongNode | DiskError::Exists | DiskError::Long(_) =>
                SyncError::NotFolder,
            DiskError::Fault => SyncError::Fault,
            DiskError::NoMemory => SyncError::NoMemory,
        }
    }
}
