//! A character of muttrc text with how it is quoted.

ghost use Rattle.std.specs.Prelude.{◌≡◌};
ghost use Rattle.rc_lang_words.specs.Signs as spec;

/// What a byte is in its line.
#[derive(Clone, Copy, Debug, PartialEq, Eq)]
pub enum Role {
    /// A space or a tab outside quotes, or the `#` that begins a comment.
    Blank,
    /// A line end or a semicolon: the command ends.
    CommandEnd,
    /// The line or the text ends in quotes, and so does the command.
    OpenQuote,
    /// A quote, which begins a word and gives nothing.
    Quote,
    /// Outside quotes.
    Plain(u8),
    /// In double quotes.
    InQuotes(u8),
    /// In single quotes or behind a backslash, where it stands for itself.
    Literal(u8),
}

/// A role, and the line on which it stands, counted from 1. All lines past 4,294,967,295 have that
/// number.
#[derive(Clone, Copy, Debug, PartialEq, Eq)]
pub struct Sign {
    pub line: u32,
    pub role: Role,
}

impl Sign {
    pub fn is_blank(self) -> bool
        ensures { result ≡ spec.is_blank self }
    {
        matches!(self.role, Role::Blank)
    }

    pub fn is_end(self) -> bool
        ensures { result ≡ spec.is_end self }
    {
        matches!(self.role, Role::CommandEnd | Role::OpenQuote)
    }

    pub fn is_open_quote(self) -> bool
        ensures { result ≡ spec.is_open_quote self }
    {
        matches!(self.role, Role::OpenQuote)
    }

    /// Whether it is this byte outside quotes, without a backslash before it.
    pub fn is_plain(self, byte: u8) -> bool
        ensures { result ≡ spec.is_plain byte self }
    {
        match self.role {
            Role::Plain(b) => b == byte,
            _ => false,
        }
    }

    /// Whether it is this byte, neither in single quotes nor behind a backslash.
    pub fn is_active(self, byte: u8) -> bool
        ensures { result ≡ spec.is_active byte self }
    {
        match self.role {
            Role::Plain(b) | Role::InQuotes(b) => b == byte,
            _ => false,
        }
    }

    /// Whether a variable's name may hold it.
    pub fn is_in_name(self) -> bool
        ensures { result ≡ spec.is_in_name self }
    {
        match self.role {
            Role::Plain(b) | Role::InQuotes(b) => b.is_ascii_alphanumeric() || b == b'_',
            _ => false,
        }
    }

    /// The byte that it stands for.
    pub fn byte(self) -> Option<u8>
        ensures { result ≡ spec.byte_of self }
    {
        match self.role {
            Role::Plain(b) | Role::InQuotes(b) | Role::Literal(b) => Some(b),
            _ => None,
        }
    }
}
