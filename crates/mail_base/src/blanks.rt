//! Blanks, and texts without the blanks at their ends.

ghost use Rattle.std.specs.Prelude.{◌≡◌, ◌≤◌, ◌<◌, length, not, position, IfSome};
ghost use Rattle.mail_base.specs.Blanks as spec;
ghost use Rattle.mail_base.specs.Places.{IsLastPlace};

/// Whether the byte is a space or a tab.
pub fn is_blank(byte: u8) -> bool
    ensures { result ≡ spec.is_blank byte }
{
    byte == b' ' || byte == b'\t'
}

/// Whether the text has no byte but blanks.
pub fn is_all_blank(text: &[u8]) -> bool
    ensures { result ≡ spec.is_all_blank text.now }
{
    text.iter().all(|b| is_blank(*b))
}

// The place of the first byte that is no blank.
fn first_solid(text: &[u8]) -> Option<usize>
    ensures value { result ≡ position (λ b. not (spec.is_blank b)) text.now }
    ensures within { IfSome result (λ at. at < length text.now) }
{
    text.iter().position(|b| !is_blank(*b))
}

// The place of the last byte that is no blank.
fn last_solid(text: &[u8]) -> Option<usize>
    ensures value { IsLastPlace (λ b. not (spec.is_blank b)) text.now result }
    ensures within { IfSome result (λ at. at < length text.now) }
{
    text.iter().rposition(|b| !is_blank(*b))
}

/// The text without the blanks at its front.
pub fn without_blanks(text: &[u8]) -> &[u8]
    ensures value { result.now ≡ spec.without_blanks text.now }
    ensures shorter { length result.now ≤ length text.now }
{
    match first_solid(text) {
        Some(at) => &text[at..],
        None => &[],
    }
}

/// The text without the blanks at its end.
pub fn without_last_blanks(text: &[u8]) -> &[u8]
    ensures value { result.now ≡ spec.without_last_blanks text.now }
    ensures shorter { length result.now ≤ length text.now }
{
    match last_solid(text) {
        Some(at) => &text[..at + 1],
        None => &[],
    }
}

/// The text without the blanks at both ends.
pub fn trimmed(text: &[u8]) -> &[u8]
    ensures value { result.now ≡ spec.trimmed text.now }
    ensures shorter { length result.now ≤ length text.now }
{
    without_last_blanks(without_blanks(text))
}
