//! Laws of the definitions, each the contract of a function that does nothing.

ghost use Rattle.folder_changes.specs.Laws as spec;

/// Where nobody else acts, steps that do what is due at each of them leave what is wanted.
pub fn steps_alone_do_what_is_wanted()
    ensures { spec.StepsAloneDoWhatIsWanted }
{}

/// What did not stand at a mark, and what no call of ours makes, was made by others.
pub fn causes_are_found_or_made_by_others()
    ensures { spec.CausesAreOthers }
{}

/// A Maildir of which one file went reads as before but for its message.
pub fn taken_files_take_one_message()
    ensures { spec.TakenFilesTakeOneMessage }
{}

/// A Maildir of which one file has another name reads as before but for the flags of its message.
pub fn renamed_files_change_one_message()
    ensures { spec.RenamedFilesChangeOneMessage }
{}

/// An own rename of a file to a name of the same base renames the file of that base.
pub fn own_renames_rename_files()
    ensures { spec.OwnRenamesRenameFiles }
{}

/// An own removal of a file takes the file of its base.
pub fn own_removals_take_files()
    ensures { spec.OwnRemovalsTakeFiles }
{}
