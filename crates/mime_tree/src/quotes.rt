//! Quotes in a structured field (RFC 2045, section 5.1).

ghost use Rattle.std.specs.Prelude.{◌≡◌, ◌<◌, IfSome, length, option_map};
ghost use Rattle.mime_tree.specs.Quotes as spec;
ghost use Rattle.mime_tree.specs.declared.quotes.Quotes.TheVariants as Quotes;

/// Whether a byte of a structured field stands in quotes.
#[derive(Clone, Copy, Debug, PartialEq, Eq)]
pub enum Quotes {
    Outside,
    Inside,
    /// Behind a backslash in quotes.
    Escaped,
}

impl Quotes {
    fn is_outside(self) -> bool
        ensures { result ≡ spec.is_outside self }
    {
        matches!(self, Quotes::Outside)
    }

    fn behind(self, byte: u8) -> Quotes
        ensures { result ≡ spec.quotes_behind self byte }
    {
        match (self, byte) {
            (Quotes::Outside, b'"') | (Quotes::Escaped, _) => Quotes::Inside,
            (Quotes::Inside, b'\\') => Quotes::Escaped,
            (Quotes::Inside, b'"') => Quotes::Outside,
            (quotes, _) => quotes,
        }
    }
}

/// What stands behind the next semicolon outside quotes.
pub fn behind_semicolon(text: &[u8]) -> Option<&[u8]>
    ensures value { option_map (λ r. r.now) result ≡ spec.behind_semicolon Quotes.Outside text.now }
    ensures shorter { IfSome result (λ r. length r.now < length text.now) }
{
    let mut quotes = Quotes::Outside;
    let mut left = text;
    while let [first, rest @ ..] = left {
        if quotes.is_outside() && *first == b';' {
            return Some(rest);
        }
        quotes = quotes.behind(*first);
        left = rest;
    }
    None
}
