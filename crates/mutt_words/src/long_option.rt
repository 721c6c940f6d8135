//! Options of a name with a value behind an equals sign.

ghost use Rattle.std.specs.Prelude.{◌≡◌, option_map};
ghost use Rattle.mutt_words.specs.LongOption as spec;

use mail_base::behind_text;

/// An option of a name with a value.
#[derive(Clone, Copy, Debug, PartialEq, Eq)]
pub enum LongOption {
    /// `--rows`: the lines of a screen.
    Rows,
    /// `--cols`: the columns of a line.
    Cols,
    /// `--offset`: the offset of the user's time zone.
    Offset,
    /// `--owner`: what the reader's locks hold.
    Owner,
}

/// The option with which a word begins, and the value behind it.
pub fn read_long(word: &[u8]) -> Option<(LongOption, &[u8])>
    ensures { option_map (λ p. (p.0, p.1.now)) result ≡ spec.read_long word.now }
{
    if let Some(value) = behind_text(b"--rows=", word) {
        return Some((LongOption::Rows, value));
    }
    if let Some(value) = behind_text(b"--cols=", word) {
        return Some((LongOption::Cols, value));
    }
    if let Some(value) = behind_text(b"--offset=", word) {
        return Some((LongOption::Offset, value));
    }
    let value = behind_text(b"--owner=", word)?;
    Some((LongOption::Owner, value))
}

/// Whether a text can be an owner's word: letters and digits, at most 64.
pub fn is_owner(text: &[u8]) -> bool
    ensures { result ≡ spec.is_owner text.now }
{
    text.len() <= 64 && are_letters_or_digits(text)
}

fn are_letters_or_digits(text: &[u8]) -> bool
    ensures { result ≡ spec.are_letters_or_digits text.now }
{
    text.iter().all(|b| b.is_ascii_alphanumeric())
}
