//! What a line is to a boundary (RFC 2046, section 5.1.1).

ghost use Rattle.std.specs.Prelude.{◌≡◌, codes};
ghost use Rattle.mail_base.specs.Fronts.{behind_text};
ghost use Rattle.mime_tree.specs.Delimiter as spec;

use mail_base::{behind_text, is_all_blank, without_line_end};

/// What a line is to a boundary (RFC 2046, section 5.1.1).
#[derive(Clone, Copy, Debug, PartialEq, Eq)]
pub enum LineKind {
    Text,
    Delimiter,
    /// The delimiter that ends the multipart.
    Closing,
}

impl LineKind {
    fn of_closing(tail: &[u8]) -> LineKind
        ensures { result ≡ spec.closing_behind (behind_text (codes "--") tail.now) }
    {
        match behind_text(b"--", tail) {
            Some(rest) if is_all_blank(rest) => LineKind::Closing,
            _ => LineKind::Text,
        }
    }

    /// What a line is in a multipart of the boundary.
    pub fn of_line(boundary: &[u8], line: &[u8]) -> LineKind
        ensures { result ≡ spec.kind_of boundary.now line.now }
    {
        let Some(text) = behind_text(b"--", without_line_end(line)) else {
            return LineKind::Text;
        };
        let Some(tail) = behind_text(boundary, text) else {
            return LineKind::Text;
        };
        if is_all_blank(tail) {
            return LineKind::Delimiter;
        }
        LineKind::of_closing(tail)
    }

    pub fn is_delimiter(self) -> bool
        ensures { result ≡ spec.is_delimiter self }
    {
        matches!(self, LineKind::Delimiter | LineKind::Closing)
    }

    pub fn is_closing(self) -> bool
        ensures { result ≡ spec.is_closing self }
    {
        matches!(self, LineKind::Closing)
    }
}
