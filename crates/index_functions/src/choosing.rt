//! What answers to prompts mean.

ghost use Rattle.std.specs.Prelude.{◌≡◌};
ghost use Rattle.index_functions.specs.Choosing as spec;

use index_items::Mark;

/// Whether a text takes the limit away.
pub fn is_no_limit(text: &[u8]) -> bool
    ensures { result ≡ spec.is_no_limit text.now }
{
    text.is_empty() || text == b"all".as_slice()
}

/// The mark that a key names.
pub fn mark_of(key: char) -> Option<Mark>
    ensures { result ≡ spec.mark_of key }
{
    match key {
        'D' => Some(Mark::Deleted),
        'N' => Some(Mark::New),
        'O' => Some(Mark::Old),
        'r' => Some(Mark::Replied),
        '*' => Some(Mark::Tagged),
        '!' => Some(Mark::Flagged),
        _ => None,
    }
}
