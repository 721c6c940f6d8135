//! The paths of a message that is added.

ghost use Rattle.std.specs.Prelude.{◌≡◌, IfOk};
ghost use Rattle.std.specs.String.{string_bytes};
ghost use Rattle.folder_drivers.specs.MhAppend as spec;
ghost use Rattle.mh_appends.specs.Placing.{AreOf};

use folder_core::path_in;
use mail_base::NoMemory;
use std::alloc::Global;

/// The number of a message, its path, where it is written first, and the paths of the sequences and
/// of new ones.
#[derive(Drop)]
pub struct Places {
    pub number: u32,
    pub held: String,
    pub beside: String,
    pub sequences: String,
    pub side: String,
}

// The path of a number.
fn number_path(alloc: Global, path: &str, number: u32) -> Result<String, NoMemory>
    ensures { IfOk result (λ held. string_bytes held ≡ spec.number_path path.now number) }
{
    let name = format!(in alloc; "{number}")?;
    path_in(alloc, path, name.as_str())
}

/// The paths of a message of this number.
pub fn places_of(alloc: Global, path: &str, number: u32) -> Result<Places, NoMemory>
    ensures number { IfOk result (λ places. places.number ≡ number) }
    ensures paths { IfOk result (AreOf path.now) }
{
    Ok(Places {
        number,
        held: number_path(alloc, path, number)?,
        beside: path_in(alloc, path, ".mutt_append")?,
        sequences: path_in(alloc, path, ".mh_sequences")?,
        side: path_in(alloc, path, ".mh_sequences.new")?,
    })
}
