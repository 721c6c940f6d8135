//! The bytes of an address list, each with what it is there (RFC 5322, sections 3.2 and 3.4).

ghost use Rattle.std.specs.Prelude.{◌≡◌};
ghost use Rattle.headers.specs.AddressByte as spec;

/// What a byte of an address list is there.
#[derive(Clone, Copy, PartialEq, Eq)]
pub enum Role {
    Text,
    /// A quote, or a backslash in quotes.
    Quote,
    /// The parenthesis that begins a comment.
    CommentStart,
    CommentText,
    /// The parenthesis that ends a comment.
    CommentEnd,
    AngleStart,
    AngleEnd,
    /// The colon behind the name of a group.
    GroupEnd,
    /// A comma or a semicolon between two persons.
    Separator,
}

/// A byte of an address list with what it is.
#[derive(Clone, Copy)]
pub struct AddressByte {
    pub byte: u8,
    pub role: Role,
}

impl AddressByte {
    pub fn has(&self, role: Role) -> bool
        ensures { result ≡ spec.has role self.now }
    {
        self.role == role
    }

    /// Whether it is of a comment, be it a parenthesis round it.
    pub fn is_comment(&self) -> bool
        ensures { result ≡ spec.is_comment self.now }
    {
        matches!(
            self.role,
            Role::CommentStart | Role::CommentText | Role::CommentEnd
        )
    }
}
