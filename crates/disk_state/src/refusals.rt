//! Why a state refuses a call.

ghost use Rattle.std.specs.Prelude.{◌≡◌};
ghost use Rattle.disk_model.specs.Refusals as spec;
ghost use Rattle.disk_model.specs.State.{tree_of};
ghost use Rattle.disk_model.specs.Tree.{node_at};
ghost use Rattle.disk_state.specs.Plain.{plain_state};

use crate::state::State;
use disk_model::{DiskError, folder_of};

impl State {
    /// Something must stand at the path.
    pub(crate) fn missing_refusal(&self, path: &[u8]) -> Option<DiskError>
        ensures { result ≡ spec.missing_refusal
            (node_at (tree_of (plain_state self.now)) path.now) }
    {
        match self.name_at(path) {
            None => Some(DiskError::Missing),
            Some(_) => None,
        }
    }

    /// A file must stand at the path.
    pub(crate) fn file_refusal(&self, path: &[u8]) -> Option<DiskError>
        ensures { result ≡ spec.file_refusal (node_at (tree_of (plain_state self.now)) path.now) }
    {
        match self.name_at(path) {
            None => Some(DiskError::Missing),
            Some(None) => Some(DiskError::WrongNode),
            Some(Some(_)) => None,
        }
    }

    /// A folder must stand at the path.
    pub(crate) fn folder_refusal(&self, path: &[u8]) -> Option<DiskError>
        ensures { result ≡ spec.folder_refusal (node_at (tree_of (plain_state self.now)) path.now) }
    {
        match self.name_at(path) {
            None => Some(DiskError::Missing),
            Some(None) => None,
            Some(Some(_)) => Some(DiskError::WrongNode),
        }
    }

    /// The folder of what is to be made must be there: below a file all is missing.
    fn below_refusal(&self, path: &[u8]) -> Option<DiskError>
        ensures { result ≡ spec.below_refusal (node_at (tree_of (plain_state self.now)) path.now) }
    {
        match self.name_at(path) {
            None => Some(DiskError::Missing),
            Some(None) => None,
            Some(Some(_)) => Some(DiskError::Missing),
        }
    }

    /// Nothing may stand at the path, and its folder must be there.
    pub(crate) fn make_refusal(&self, path: &[u8]) -> Option<DiskError>
        ensures { result ≡ spec.make_refusal (tree_of (plain_state self.now)) path.now }
    {
        if let Some(why) = self.below_refusal(folder_of(path)) {
            return Some(why);
        }
        self.free_refusal(path)
    }

    fn free_refusal(&self, path: &[u8]) -> Option<DiskError>
        ensures { result ≡ spec.free_refusal (node_at (tree_of (plain_state self.now)) path.now) }
    {
        match self.name_at(path) {
            None => None,
            Some(_) => Some(DiskError::Exists),
        }
    }

    fn target_refusal(&self, path: &[u8]) -> Option<DiskError>
        ensures { result ≡ spec.target_refusal (node_at (tree_of (plain_state self.now)) path.now) }
    {
        match self.name_at(path) {
            None => None,
            Some(None) => Some(DiskError::WrongNode),
            Some(Some(_)) => None,
        }
    }

    /// A file is to be moved.
    pub(crate) fn rename_refusal(&self, from: &[u8], to: &[u8]) -> Option<DiskError>
        ensures { result ≡ spec.rename_refusal (tree_of (plain_state self.now)) from.now to.now }
    {
        if let Some(why) = self.missing_refusal(from) {
            return Some(why);
        }
        if let Some(why) = self.below_refusal(folder_of(to)) {
            return Some(why);
        }
        if let Some(why) = self.file_refusal(from) {
            return Some(why);
        }
        self.target_refusal(to)
    }
}
