//! What a visit of the open folder answers.

use crate::event::Marks;
use folder_core::{Found, ScanError};

/// What a visit of the open folder answered, and where the device stood before and after it.
#[derive(Drop)]
pub struct Scanned {
    pub answer: Result<Found, ScanError>,
    pub marks: Marks,
}
