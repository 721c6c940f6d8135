//! The flags that the status fields of a message tell.

ghost use Rattle.std.specs.Prelude.{◌≡◌, [], ◌∷◌, ◌&&◌, ◌||◌, List, ℕ, codes, not, if◌then◌else◌};
ghost use Rattle.std.specs.Str.{str_eq_ignore_ascii_case};
ghost use Rattle.bstr.specs.Text.{lines_of};
ghost use Rattle.mail_base.specs.Lines.{behind_first, fields_of, header_block};
ghost use Rattle.folder_core.specs.Mbox as spec;
ghost use Rattle.mbox_text.specs.Status.{has, starts_status, told_by};

use bstr::ByteSlice;
use mail_base::{Flags, Kind, colon_of, is_continuation, is_empty_line, is_same_name};

// A field, as far as it holds flags.
#[derive(Clone, Copy)]
pub(crate) enum StatusField {
    Status,
    XStatus,
    Other,
}

impl StatusField {
    ghost use Rattle.mbox_text.specs.Status.{is_status, is_x_status};

    fn named(name: &[u8]) -> Self
        ensures status { is_status result ≡ str_eq_ignore_ascii_case name.now (codes "Status") }
        ensures x_status { is_x_status result
            ≡ str_eq_ignore_ascii_case name.now (codes "X-Status") }
    {
        if is_same_name(name, b"Status") {
            StatusField::Status
        } else if is_same_name(name, b"X-Status") {
            StatusField::XStatus
        } else {
            StatusField::Other
        }
    }

    // Whether it stays where flags change.
    fn stays(self) -> bool
        ensures { result ≡ not (is_status self || is_x_status self) }
    {
        match self {
            StatusField::Other => true,
            _ => false,
        }
    }
}

// Whether a status field may begin with the line, by its first byte.
fn may_be_status(line: &[u8]) -> bool
    ensures { result ≡ starts_status line.now }
{
    match line {
        [] => false,
        [first, ..] => matches!(*first, b'S' | b's' | b'X' | b'x'),
    }
}

// The flags that lines of a header block told, and the field that the next line may continue.
#[derive(Clone, Copy)]
pub(crate) struct Told {
    field: StatusField,
    pub(crate) flags: Flags,
}

impl Told {
    pub(crate) const NOTHING: Told = Told {
        field: StatusField::Other,
        flags: Flags {
            seen: false,
            aged: false,
            replied: false,
            flagged: false,
            passed: false,
            draft: false,
            trashed: false,
        },
    };

    ghost use Rattle.mbox_text.specs.Status.{is_status, is_x_status, drops};

    // What is told with a further line of the block, and whether the line stays where flags change.
    pub(crate) fn past(self, line: &[u8]) -> (Told, bool)
        ensures told { (rest : List (List ℕ)) → told_by result.0 rest
            ≡ told_by self (line.now ∷ rest) }
        ensures stays { (rest : List (List ℕ)) → spec.without_status (drops self) (line.now ∷ rest)
            ≡ (if result.1 then line.now ∷ spec.without_status (drops result.0) rest
            else spec.without_status (drops result.0) rest) }
    {
        if self.field.stays() && !may_be_status(line) {
            return (self, true);
        }
        self.past_line(line)
    }

    // The same by the name that the line may have.
    fn past_line(self, line: &[u8]) -> (Told, bool)
        ensures told { (rest : List (List ℕ)) → told_by result.0 rest
            ≡ told_by self (line.now ∷ rest) }
        ensures stays { (rest : List (List ℕ)) → spec.without_status (drops self) (line.now ∷ rest)
            ≡ (if result.1 then line.now ∷ spec.without_status (drops result.0) rest
            else spec.without_status (drops result.0) rest) }
    {
        match colon_of(line) {
            Some(at) => self.past_field(StatusField::named(&line[..at]), &line[at + 1..]),
            None if is_continuation(line) => self.past_field(self.field, line),
            None => (self, true),
        }
    }

    // The same with more text of that field.
    fn past_field(self, field: StatusField, text: &[u8]) -> (Told, bool)
        ensures field { result.0.field ≡ field }
        ensures flags { result.0.flags ≡ record self.flags {
          seen = self.flags.seen || (is_status field && has 82 text.now);
          aged = self.flags.aged || (is_status field && has 79 text.now);
          replied = self.flags.replied || (is_x_status field && has 65 text.now);
          flagged = self.flags.flagged || (is_x_status field && has 70 text.now);
        } }
        ensures stays { result.1 ≡ not (is_status field || is_x_status field) }
    {
        (self.with_text(field, text), field.stays())
    }

    // What is told with more text of that field.
    fn with_text(self, field: StatusField, text: &[u8]) -> Told
        ensures field { result.field ≡ field }
        ensures flags { result.flags ≡ record self.flags {
          seen = self.flags.seen || (is_status field && has 82 text.now);
          aged = self.flags.aged || (is_status field && has 79 text.now);
          replied = self.flags.replied || (is_x_status field && has 65 text.now);
          flagged = self.flags.flagged || (is_x_status field && has 70 text.now);
        } }
    {
        let mut flags = self.flags;
        match field {
            StatusField::Status => {
                flags.seen = flags.seen || holds(text, b'R');
                flags.aged = flags.aged || holds(text, b'O');
            }
            StatusField::XStatus => {
                flags.replied = flags.replied || holds(text, b'A');
                flags.flagged = flags.flagged || holds(text, b'F');
            }
            StatusField::Other => {}
        }
        Told { field, flags }
    }
}

fn holds(text: &[u8], letter: u8) -> bool
    ensures { result ≡ has letter text.now }
{
    text.iter().any(|b| *b == letter)
}

// What the header block tells that stands behind the first line.
fn read_block(region: &[u8]) -> Told
    ensures { told_by result [] ≡ spec.told_flags (fields_of
        (header_block (behind_first (lines_of region.now)))) }
{
    let mut lines = region.lines_with_terminator();
    let _ = lines.next();
    let mut told = Told::NOTHING;
    for line in lines {
        if is_empty_line(line) {
            return told;
        }
        told = told.past(line).0;
    }
    told
}

/// The flags of a message by the fields Status and X-Status of its header block, made normal.
#[tactic(auto, unfolding(folder_core::specs::Mbox::status))]
pub fn read_status(region: &[u8]) -> Flags
    ensures { result ≡ spec.status region.now }
{
    read_block(region).flags.stored(Kind::Mbox)
}
