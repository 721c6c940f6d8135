//! What holds of every past, by the definitions alone.

ghost use Rattle.disk_model.specs.Laws as spec;

/// At each mark of a lawful past the nodes are those of a tree.
pub fn each_mark_has_a_tree()
    ensures { spec.EachMarkHasATree }
{}

/// At each mark of a past that began with a tree each name of a file has a file of its own, and
/// each file a stamp of its own.
pub fn each_name_has_its_file()
    ensures { spec.EachNameHasItsFile }
{}

/// The tree now is an image: a stop may lose nothing.
pub fn a_stop_may_lose_nothing()
    ensures { spec.NowIsImage }
{}

/// What a disk shows as an image is one.
pub fn what_is_shown_is_an_image()
    ensures { spec.ShownIsImage }
{}

/// Where all names and all files are on the disk, the only image is the tree now, but for stamps.
pub fn what_is_synced_stands()
    ensures { spec.SyncedStands }
{}

/// A rename stands in an image wholly, or not at all.
pub fn a_rename_stands_wholly_or_not_at_all()
    ensures { spec.RenameIsWhole }
{}

/// An action of others, and a folder that was synced, leave one row of names.
pub fn a_barrier_leaves_one_row_of_names()
    ensures others { spec.OthersAreBarrier }
    ensures synced { spec.SyncDirIsBarrier }
{}

/// What others write stands in each image.
pub fn what_others_write_stands()
    ensures { spec.WrittenByOthersStands }
{}

/// What we put at the end of a file that is on the disk may be torn by a stop: the bytes of before
/// are left, and behind them any bytes, no more than were given, until the file is synced.
pub fn an_appended_piece_may_be_torn_until_it_is_synced()
    ensures torn { spec.AppendedIsTorn }
    ensures any { spec.AppendedMayBeTorn }
    ensures synced { spec.SyncedAppendStands }
    ensures named { spec.NamesAreOfFiles }
{}
