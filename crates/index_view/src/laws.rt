//! Laws of the definitions, each the contract of a function that does nothing.

ghost use Rattle.index_view.specs.Laws.{FirstFolderIsTaken};

/// What the first scan of a folder found may be taken into a view of no messages.
pub fn first_folder_is_taken()
    ensures { FirstFolderIsTaken }
{}
