//! What holds of every folder with one file a message, by the definitions alone.

ghost use Rattle.folder_stops.specs.Laws as spec;

/// What is kept of some messages are all of them in order, but for some that may go.
pub fn what_is_kept_is_all_but_some()
    ensures kept { spec.KeptIsRest }
    ensures rest { spec.RestIsKept }
{}

/// A folder that holds its messages name by name is read as these in each image that a stop may
/// leave, but for some that may go.
pub fn what_is_held_stands()
    ensures { spec.HoldsStands }
{}

/// Where a disk begins with a tree in which no two files have one key, each image at the first mark
/// is read as all messages of the tree.
pub fn a_folder_stands_at_first()
    ensures { spec.FirstStands }
{}

/// Calls that change nothing, or nothing in the folder, keep its messages at each mark, with what
/// others bring.
pub fn calls_elsewhere_keep_the_messages()
    ensures elsewhere { spec.ElsewhereKeeps }
    ensures looks { spec.LooksKeep }
{}

/// Calls that move files within the folder, remove some, and keep names keep the messages at each
/// mark, whatever they answer; those whose files they take away may go from the first mark on.
pub fn a_sync_keeps_the_messages()
    ensures { spec.SyncKeeps }
{}

/// A message that is written beside its place, synced, moved there, and whose name is kept is one
/// of the messages from its first file on, and stands in each image in the end; and so is one for
/// which an empty file holds the place before.
pub fn an_append_adds_its_item()
    ensures item { spec.AppendStands }
    ensures numbered { spec.NumberedStands }
{}
