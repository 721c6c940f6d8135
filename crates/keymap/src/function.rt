//! The functions that keys run: names, menus and default keys (Mutt's manual, "Functions").

ghost use Rattle.std.specs.Prelude.{◌≡◌, ◌<◌, Some, find, length, map, option_map};
ghost use Rattle.std.specs.Str.{bytes_eq};
ghost use Rattle.keymap.specs.Functions as spec;

/// A function that a key can run.
#[derive(Clone, Copy, Debug, PartialEq, Eq, Hash)]
pub enum Function {
    NextUndeleted,
    PreviousUndeleted,
    NextEntry,
    PreviousEntry,
    FirstEntry,
    LastEntry,
    NextPage,
    PreviousPage,
    NextNewThenUnread,
    NextThread,
    PreviousThread,
    ParentMessage,
    DeleteMessage,
    UndeleteMessage,
    DeleteThread,
    UndeleteThread,
    DeletePattern,
    UndeletePattern,
    TagEntry,
    TagPattern,
    UntagPattern,
    TagThread,
    TagPrefix,
    Limit,
    SortMailbox,
    SortReverse,
    Search,
    SearchNext,
    FlagMessage,
    ToggleNew,
    SetFlag,
    ClearFlag,
    CollapseThread,
    CollapseAll,
    DisplayMessage,
    ViewAttachments,
    DisplayToggleWeed,
    SaveMessage,
    CopyMessage,
    ChangeFolder,
    Mail,
    Reply,
    RecallMessage,
    EnterCommand,
    ToggleWrite,
    SyncMailbox,
    Quit,
    Exit,
    Noop,
    NextLine,
    PreviousLine,
    Top,
    Bottom,
    ToggleQuoted,
}

/// The default keys of a function in a menu, as key words with a blank between them; none where
/// the menu does not have the function.
pub type MenuKeys = Option<&'static [u8]>;

/// A function's name, and its default keys in the index, the pager and the attachment screen.
#[derive(Clone, Copy, Debug)]
pub struct Row(
    pub &'static [u8],
    pub Function,
    pub MenuKeys,
    pub MenuKeys,
    pub MenuKeys,
);

/// How many functions there are.
pub const COUNT: usize = 54;

// In the order of `Function`, a line each.
#[rattlefmt::skip]
static ROWS: [Row; COUNT] = [
    Row(b"next-undeleted", Function::NextUndeleted, Some(b"j <Down>"), Some(b"j"), None),
    Row(b"previous-undeleted", Function::PreviousUndeleted, Some(b"k <Up>"), Some(b"k"), None),
    Row(b"next-entry", Function::NextEntry, Some(b"J"), Some(b"J"), Some(b"j J <Down>")),
    Row(b"previous-entry", Function::PreviousEntry, Some(b"K"), Some(b"K"), Some(b"k K <Up>")),
    Row(b"first-entry", Function::FirstEntry, Some(b"= <Home>"), None, None),
    Row(b"last-entry", Function::LastEntry, Some(b"* <End>"), None, None),
    Row(b"next-page", Function::NextPage,
        Some(b"z <PageDown> <Right>"), Some(b"<Space> <PageDown>"), None),
    Row(b"previous-page", Function::PreviousPage,
        Some(b"Z <PageUp> <Left>"), Some(b"- <PageUp>"), None),
    Row(b"next-new-then-unread", Function::NextNewThenUnread, Some(b"<Tab>"), None, None),
    Row(b"next-thread", Function::NextThread, Some(b"\x0e"), None, None),
    Row(b"previous-thread", Function::PreviousThread, Some(b"\x10"), None, None),
    Row(b"parent-message", Function::ParentMessage, Some(b"P"), None, None),
    Row(b"delete-message", Function::DeleteMessage, Some(b"d"), Some(b"d"), None),
    Row(b"undelete-message", Function::UndeleteMessage, Some(b"u"), Some(b"u"), None),
    Row(b"delete-thread", Function::DeleteThread, Some(b"\x04"), None, None),
    Row(b"undelete-thread", Function::UndeleteThread, Some(b"\x15"), None, None),
    Row(b"delete-pattern", Function::DeletePattern, Some(b"D"), None, None),
    Row(b"undelete-pattern", Function::UndeletePattern, Some(b"U"), None, None),
    Row(b"tag-entry", Function::TagEntry, Some(b"t"), None, None),
    Row(b"tag-pattern", Function::TagPattern, Some(b"T"), None, None),
    Row(b"untag-pattern", Function::UntagPattern, Some(b"\x14"), None, None),
    Row(b"tag-thread", Function::TagThread, Some(b"<Esc>t"), None, None),
    Row(b"tag-prefix", Function::TagPrefix, Some(b";"), None, None),
    Row(b"limit", Function::Limit, Some(b"l"), None, None),
    Row(b"sort-mailbox", Function::SortMailbox, Some(b"o"), None, None),
    Row(b"sort-reverse", Function::SortReverse, Some(b"O"), None, None),
    Row(b"search", Function::Search, Some(b"/"), Some(b"/"), None),
    Row(b"search-next", Function::SearchNext, Some(b"n"), Some(b"n"), None),
    Row(b"flag-message", Function::FlagMessage, Some(b"F"), Some(b"F"), None),
    Row(b"toggle-new", Function::ToggleNew, Some(b"N"), None, None),
    Row(b"set-flag", Function::SetFlag, Some(b"w"), None, None),
    Row(b"clear-flag", Function::ClearFlag, Some(b"W"), None, None),
    Row(b"collapse-thread", Function::CollapseThread, Some(b"<Esc>v"), None, None),
    Row(b"collapse-all", Function::CollapseAll, Some(b"<Esc>V"), None, None),
    Row(b"display-message", Function::DisplayMessage, Some(b"<Enter>"), None, Some(b"<Enter>")),
    Row(b"view-attachments", Function::ViewAttachments, Some(b"v"), Some(b"v"), None),
    Row(b"display-toggle-weed", Function::DisplayToggleWeed, Some(b"h"), Some(b"h"), None),
    Row(b"save-message", Function::SaveMessage, Some(b"s"), None, None),
    Row(b"copy-message", Function::CopyMessage, Some(b"C"), None, None),
    Row(b"change-folder", Function::ChangeFolder, Some(b"c"), None, None),
    Row(b"mail", Function::Mail, Some(b"m"), None, None),
    Row(b"reply", Function::Reply, Some(b"r"), None, None),
    Row(b"recall-message", Function::RecallMessage, Some(b"R"), None, None),
    Row(b"enter-command", Function::EnterCommand, Some(b":"), Some(b":"), None),
    Row(b"toggle-write", Function::ToggleWrite, Some(b"%"), None, None),
    Row(b"sync-mailbox", Function::SyncMailbox, Some(b"$"), None, None),
    Row(b"quit", Function::Quit, Some(b"q"), None, None),
    Row(b"exit", Function::Exit, Some(b"x"), Some(b"q x i"), Some(b"q x")),
    Row(b"noop", Function::Noop, Some(b""), None, None),
    Row(b"next-line", Function::NextLine, None, Some(b"<Enter> <Down>"), None),
    Row(b"previous-line", Function::PreviousLine, None, Some(b"<BackSpace> <Up>"), None),
    Row(b"top", Function::Top, None, Some(b"^ <Home>"), None),
    Row(b"bottom", Function::Bottom, None, Some(b"$ <End>"), None),
    Row(b"toggle-quoted", Function::ToggleQuoted, None, Some(b"T"), None),
];

/// The table of all functions.
pub fn rows() -> &'static [Row]
    ensures table { map spec.plain_row result.now ≡ spec.rows }
    ensures count { length result.now ≡ COUNT }
{
    &ROWS
}

impl Function {
    fn place(self) -> usize
        ensures value { result ≡ spec.place_of self }
        ensures within { result < COUNT }
    {
        self as usize
    }

    /// The name by which muttrc knows the function.
    pub fn name(self) -> &'static [u8]
        ensures { result.now ≡ (spec.row_of self).name }
    {
        self.row().0
    }

    /// The function's row of the table.
    pub(crate) fn row(self) -> Row
        ensures { spec.plain_row result ≡ spec.row_of self }
    {
        rows()[self.place()]
    }
}

impl Row {
    // The row of a function's name.
    fn find(name: &[u8]) -> Option<Row>
        ensures { option_map spec.plain_row result ≡ spec.row_named name.now }
    {
        row_named(rows(), name)
    }
}

fn row_named(rows: &[Row], name: &[u8]) -> Option<Row>
    ensures { result ≡ find (λ r. bytes_eq r.0.now name.now) rows.now }
{
    rows.iter().copied().find(|row| row.0 == name)
}

/// The function with the name.
pub fn function_named(name: &[u8]) -> Option<Function>
    ensures { result ≡ spec.function_named name.now }
{
    let row = Row::find(name)?;
    Some(row.1)
}
