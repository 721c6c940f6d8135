//! How the lines of a draft are read byte by byte: texts as UTF-8 (the Unicode Standard, Table
//! 3-7), ids as bytes that are no blanks.

ghost use Rattle.std.specs.Prelude.{◌≡◌, ◌<◌};
ghost use Rattle.bstr.specs.Utf8 as utf8;
ghost use Rattle.mail_base.specs.Written as written;
ghost use Rattle.drafts.specs.LineState as spec;
ghost use Rattle.drafts.specs.PlainDraft.{is_id_byte as is_byte_of_id};

/// Where a line stands behind some of its bytes.
#[derive(Clone, Copy)]
pub enum LineState {
    /// Between the characters of a text.
    Text,
    /// Behind the first byte of a character that has more.
    Second(u8),
    /// In a character of which so many bytes are to come.
    More(u8),
    /// Before an id.
    NoId,
    Id,
    /// Before one of several ids.
    NextId,
    /// In one of several ids.
    Ids,
}

/// Whether the byte may stand in a line: neither LF nor CR.
pub fn is_line_byte(byte: u8) -> bool
    ensures { result ≡ written.is_line_byte byte }
{
    byte != b'\n' && byte != b'\r'
}

/// Whether the byte may stand in an id.
pub fn is_id_byte(byte: u8) -> bool
    ensures { result ≡ is_byte_of_id byte }
{
    byte > b' '
}

// How many bytes a character has that begins with the byte; 0 where none does.
fn lead_len(byte: u8) -> u8
    ensures { result ≡ utf8.lead_len byte }
{
    match byte {
        0..=0x7F => 1,
        0xC2..=0xDF => 2,
        0xE0..=0xEF => 3,
        0xF0..=0xF4 => 4,
        _ => 0,
    }
}

// Whether the byte may stand in a character behind the second.
fn continues(byte: u8) -> bool
    ensures { result ≡ utf8.continues byte }
{
    0x7F < byte && byte < 0xC0
}

// Whether the byte may stand second behind the first.
fn is_second(first: u8, byte: u8) -> bool
    ensures { result ≡ utf8.second first byte }
{
    match first {
        0xE0 => 0x9F < byte && byte < 0xC0,
        0xED => 0x7F < byte && byte < 0xA0,
        0xF0 => 0x8F < byte && byte < 0xC0,
        0xF4 => 0x7F < byte && byte < 0x90,
        _ => continues(byte),
    }
}

// The state where the test passed.
fn only_if(passes: bool, state: LineState) -> Option<LineState>
    ensures { result ≡ spec.only_if passes state }
{
    if passes { Some(state) } else { None }
}

fn with_more(count: u8) -> LineState
    ensures { result ≡ spec.with_more count }
{
    if count == 0 {
        LineState::Text
    } else {
        LineState::More(count)
    }
}

fn text_behind(byte: u8) -> Option<LineState>
    ensures { result ≡ spec.text_behind byte }
{
    if byte < 128 {
        return only_if(is_line_byte(byte), LineState::Text);
    }
    only_if(lead_len(byte) != 0, LineState::Second(byte))
}

fn ids_behind(byte: u8) -> Option<LineState>
    ensures { result ≡ spec.ids_behind byte }
{
    if byte == b' ' {
        return Some(LineState::NextId);
    }
    only_if(is_id_byte(byte), LineState::Ids)
}

impl LineState {
    /// The state behind one more byte, unless the line cannot go on with it.
    pub fn step(self, byte: u8) -> Option<LineState>
        ensures { result ≡ spec.step self byte }
    {
        match self {
            LineState::Text => text_behind(byte),
            LineState::Second(first) => only_if(
                is_second(first, byte),
                with_more(lead_len(first).saturating_sub(2)),
            ),
            LineState::More(count) => only_if(continues(byte), with_more(count.saturating_sub(1))),
            LineState::NoId | LineState::Id => only_if(is_id_byte(byte), LineState::Id),
            LineState::NextId => only_if(is_id_byte(byte), LineState::Ids),
            LineState::Ids => ids_behind(byte),
        }
    }

    /// Whether the line may end.
    pub fn may_end(self) -> bool
        ensures { result ≡ spec.may_end self }
    {
        matches!(self, LineState::Text | LineState::Id | LineState::Ids)
    }
}
