//! The variables of muttrc: names, types, defaults and ranges.

ghost use Rattle.std.specs.Prelude.{◌≡◌, ◌<◌, Some, length, map, position, IfSome};
ghost use Rattle.std.specs.Str.{bytes_eq};
ghost use Rattle.rc_lang.specs.Variables as spec;

use crate::kind::Kind;
use crate::quad::Quad;
use crate::rule::Rule;

/// A variable. Those from `Editor` on have no effect.
#[derive(Clone, Copy, Debug, PartialEq, Eq)]
pub enum Variable {
    MarkOld,
    Resolve,
    SortRe,
    Weed,
    DuplicateThreads,
    StrictThreads,
    MhPurge,
    MailCheck,
    Delete,
    Quit,
    Folder,
    Mbox,
    MboxType,
    Spoolfile,
    Postponed,
    Sort,
    SortAux,
    ToChars,
    IndentString,
    IndexFormat,
    PagerFormat,
    StatusFormat,
    Editor,
    Sendmail,
    Realname,
    From,
    Signature,
    Charset,
    SendCharset,
    Tmpdir,
    Pager,
    Record,
    CertificateFile,
    HeaderCache,
    SmtpUrl,
    UseFrom,
    EditHeaders,
    Beep,
    ArrowCursor,
    Help,
    Markers,
    Confirmappend,
    WaitKey,
    Move,
}

/// A variable's name and type.
#[derive(Clone, Copy, Debug)]
pub struct Row(pub &'static [u8], pub Kind);

/// How many variables there are.
pub const COUNT: usize = 44;

const INDEX_FORMAT: &[u8] = b"%4C %Z %{%b %d} %-15.15L (%?l?%4l&%4c?) %s";

const PAGER_FORMAT: &[u8] = b"-%Z- %C/%m: %-20.20n   %s";

const STATUS_FORMAT: &[u8] = b"-%r-Mutt: %f [Msgs:%?M?%M/?%m%?n? New:%n?%?o? Old:%o?\
    %?d? Del:%d?%?F? Flag:%F?%?t? Tag:%t?]---(%s/%S)-%>-(%P)---";

// In the order of `Variable`.
static ROWS: [Row; COUNT] = [
    Row(b"mark_old", Kind::Flag(true)),
    Row(b"resolve", Kind::Flag(true)),
    Row(b"sort_re", Kind::Flag(true)),
    Row(b"weed", Kind::Flag(true)),
    Row(b"duplicate_threads", Kind::Flag(true)),
    Row(b"strict_threads", Kind::Flag(false)),
    Row(b"mh_purge", Kind::Flag(false)),
    Row(b"mail_check", Kind::Number(5, 86_400)),
    Row(b"delete", Kind::Quad(Quad::AskYes)),
    Row(b"quit", Kind::Quad(Quad::Yes)),
    Row(b"folder", Kind::Text(Rule::Any, b"mail")),
    Row(b"mbox", Kind::Text(Rule::Any, b"mbox")),
    Row(b"mbox_type", Kind::Text(Rule::FolderKind, b"mbox")),
    Row(b"spoolfile", Kind::Text(Rule::Any, b"mbox")),
    Row(b"postponed", Kind::Text(Rule::Any, b"postponed")),
    Row(b"sort", Kind::Text(Rule::Sort, b"date-sent")),
    Row(b"sort_aux", Kind::Text(Rule::SortAux, b"date-sent")),
    Row(b"to_chars", Kind::Text(Rule::SixAscii, b" +TCFL")),
    Row(b"indent_string", Kind::Text(Rule::Any, b"> ")),
    Row(b"index_format", Kind::Text(Rule::RowFormat, INDEX_FORMAT)),
    Row(b"pager_format", Kind::Text(Rule::RowFormat, PAGER_FORMAT)),
    Row(
        b"status_format",
        Kind::Text(Rule::StatusFormat, STATUS_FORMAT),
    ),
    Row(b"editor", Kind::Text(Rule::Any, b"")),
    Row(b"sendmail", Kind::Text(Rule::Any, b"")),
    Row(b"realname", Kind::Text(Rule::Any, b"")),
    Row(b"from", Kind::Text(Rule::Any, b"")),
    Row(b"signature", Kind::Text(Rule::Any, b"")),
    Row(b"charset", Kind::Text(Rule::Any, b"")),
    Row(b"send_charset", Kind::Text(Rule::Any, b"")),
    Row(b"tmpdir", Kind::Text(Rule::Any, b"")),
    Row(b"pager", Kind::Text(Rule::Any, b"")),
    Row(b"record", Kind::Text(Rule::Any, b"")),
    Row(b"certificate_file", Kind::Text(Rule::Any, b"")),
    Row(b"header_cache", Kind::Text(Rule::Any, b"")),
    Row(b"smtp_url", Kind::Text(Rule::Any, b"")),
    Row(b"use_from", Kind::Flag(false)),
    Row(b"edit_headers", Kind::Flag(false)),
    Row(b"beep", Kind::Flag(false)),
    Row(b"arrow_cursor", Kind::Flag(false)),
    Row(b"help", Kind::Flag(false)),
    Row(b"markers", Kind::Flag(false)),
    Row(b"confirmappend", Kind::Flag(false)),
    Row(b"wait_key", Kind::Flag(false)),
    Row(b"move", Kind::Quad(Quad::No)),
];

impl Variable {
    /// The variable's place in the table.
    pub fn place(self) -> usize
        ensures value { result ≡ (spec.row_of self).place }
        ensures within { result < COUNT }
    {
        self as usize
    }
}

fn table() -> &'static [Row]
    ensures table { map spec.plain_row result.now ≡ map spec.without_place spec.rows }
    ensures count { length result.now ≡ COUNT }
{
    &ROWS
}

/// The place in the table of the variable with the name.
pub fn find_variable(name: &[u8]) -> Option<usize>
    ensures value { result ≡ spec.place_of name.now }
    ensures within { IfSome result (λ place. place < COUNT) }
{
    position_of(table(), name)
}

/// Whether a variable has the name.
pub fn is_variable(name: &[u8]) -> bool
    ensures { result ≡ spec.is_variable name.now }
{
    find_variable(name).is_some()
}

fn position_of(rows: &[Row], name: &[u8]) -> Option<usize>
    ensures value { result ≡ position (λ r. bytes_eq r.0.now name.now) rows.now }
    ensures within { IfSome result (λ place. place < length rows.now) }
{
    rows.iter().position(|row| row.0 == name)
}

/// The row of the table at a place.
pub fn row_at(place: usize) -> Row
    requires { place < COUNT }
    ensures { Some (spec.plain_row result) ≡ spec.named_at place }
{
    table()[place]
}
