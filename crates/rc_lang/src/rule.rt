//! Which texts a variable takes.

ghost use Rattle.std.specs.Prelude.{◌≡◌, IfOk};
ghost use Rattle.std.specs.List.{list_all};
ghost use Rattle.rc_lang.specs.Rules as spec;

use expando::{FormatError, read_format};
use mail_base::{Kind, NoMemory};
use rc_lang_words::RcFault;
use std::alloc::Global;

/// The letters of a row of the index (Mutt's manual, "index_format").
pub const ROW_LETTERS: &[u8] = b"CmZS{[anFLtiscNly";

/// The letters of the status line (Mutt's manual, "status_format").
pub const STATUS_LETTERS: &[u8] = b"frmMnoudFtVsSP";

/// What the text of a variable has to be.
#[derive(Clone, Copy, Debug, PartialEq, Eq)]
pub enum Rule {
    Any,
    /// The name of a kind of folder.
    FolderKind,
    /// Six ASCII characters.
    SixAscii,
    /// An order, perhaps with `reverse-` before it.
    Sort,
    /// An order, perhaps with `reverse-` and then `last-` before it.
    SortAux,
    /// A format of a row of the index.
    RowFormat,
    /// A format of the status line.
    StatusFormat,
}

impl Rule {
    // Whether a variable takes the text.
    fn allows(self, alloc: Global, text: &[u8]) -> Result<bool, NoMemory>
        ensures { IfOk result (λ allowed. allowed ≡ spec.allows self text.now) }
    {
        match self {
            Rule::Any => Ok(true),
            Rule::FolderKind => Ok(is_folder_kind(text)),
            Rule::SixAscii => Ok(text.len() == 6 && is_ascii(text)),
            Rule::Sort => Ok(is_order(behind_front(b"reverse-", text))),
            Rule::SortAux => Ok(is_order(behind_front(b"last-", behind_front(b"reverse-", text)))),
            Rule::RowFormat => is_format(alloc, ROW_LETTERS, text),
            Rule::StatusFormat => is_format(alloc, STATUS_LETTERS, text),
        }
    }

    fn refusal(self) -> RcFault
        ensures { result ≡ spec.refusal_of self }
    {
        match self {
            Rule::RowFormat | Rule::StatusFormat => RcFault::BadFormat,
            _ => RcFault::BadValue,
        }
    }

    /// Refuses a text that a variable does not take.
    pub fn judge(self, alloc: Global, text: &[u8]) -> Result<(), RcFault>
        ensures { spec.IsJudged self text.now result }
    {
        if self.allows(alloc, text)? {
            return Ok(());
        }
        Err(self.refusal())
    }
}

fn is_format(alloc: Global, letters: &[u8], text: &[u8]) -> Result<bool, NoMemory>
    ensures { IfOk result (λ is. is ≡ spec.is_format letters.now text.now) }
{
    match read_format(alloc, text, letters) {
        Ok(_) => Ok(true),
        Err(FormatError::BadFormat(_)) => Ok(false),
        Err(FormatError::NoMemory) => Err(NoMemory),
    }
}

fn is_ascii(text: &[u8]) -> bool
    ensures { result ≡ list_all spec.is_ascii_byte text.now }
{
    text.iter().all(|b| *b < 128)
}

// The text without the front, where it begins with it.
fn behind_front<'a>(front: &[u8], text: &'a [u8]) -> &'a [u8]
    ensures { result.now ≡ spec.behind_front front.now text.now }
{
    if !text.starts_with(front) {
        return text;
    }
    text.split_at(front.len()).1
}

fn is_folder_kind(text: &[u8]) -> bool
    ensures { result ≡ spec.is_folder_kind text.now }
{
    Kind::named(text).is_some()
}

fn is_order(text: &[u8]) -> bool
    ensures { result ≡ spec.is_order text.now }
{
    text == b"date".as_slice()
        || text == b"date-sent".as_slice()
        || text == b"date-received".as_slice()
        || text == b"from".as_slice()
        || text == b"mailbox-order".as_slice()
        || text == b"score".as_slice()
        || text == b"size".as_slice()
        || text == b"subject".as_slice()
        || text == b"threads".as_slice()
        || text == b"to".as_slice()
}
