//! Laws of the definitions, each the contract of a function that does nothing.

ghost use Rattle.folder_shapes.specs.Laws as spec;

/// Whatever tree stands there, a Maildir reads as its files tell by their names, each base once and
/// in order.
pub fn maildirs_are_folders()
    ensures { spec.MaildirsAreFolders }
{}

/// Whatever tree stands there, an MH folder reads as its numbered files tell, each number once and
/// in order.
pub fn mh_folders_are_folders()
    ensures { spec.MhFoldersAreFolders }
{}
