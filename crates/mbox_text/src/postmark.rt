//! Postmark lines (mbox(5)).

ghost use Rattle.std.specs.Prelude.{◌≡◌, ◌<◌, IfSome, MatchOption, length};
ghost use Rattle.folder_core.specs.Mbox as spec;

use crate::stamp::read_stamp;
use mail_base::without_feed;
use memchr::memchr2;

/// The moment of a postmark line (mbox(5)), in seconds since 1970 UTC from 0 to 253,000,000,000;
/// none for another line. The line stands with the LF that ends it, or without.
#[tactic(auto, unfolding(folder_core::specs::Mbox::postmark))]
pub fn read_postmark(line: &[u8]) -> Option<i64>
    ensures value { result ≡ spec.postmark line.now }
    ensures range { IfSome result spec.IsClockMoment }
{
    let text = line.strip_prefix(b"From ".as_slice())?;
    stamp_behind(without_feed(text))
}

/// Whether the line is a postmark.
pub fn is_postmark(line: &[u8]) -> bool
    ensures { result ≡ spec.is_postmark line.now }
{
    read_postmark(line).is_some()
}

// What stands behind the first blank.
fn behind_blank(text: &[u8]) -> Option<&[u8]>
    ensures blank { MatchOption result (spec.stamp_behind text.now ≡ None)
        (λ rest. spec.stamp_behind text.now ≡ spec.first_some (spec.stamp rest.now)
        (spec.stamp_behind rest.now)) }
    ensures shorter { IfSome result (λ rest. length rest.now < length text.now) }
{
    match memchr2(b' ', b'\t', text) {
        Some(at) => Some(&text[at + 1..]),
        None => None,
    }
}

// The moment of a stamp that stands behind a blank at the end of the text.
fn stamp_behind(text: &[u8]) -> Option<i64>
    ensures value { result ≡ spec.stamp_behind text.now }
    ensures range { IfSome result spec.IsClockMoment }
{
    let mut left = text;
    while let Some(rest) = behind_blank(left) {
        if let Some(moment) = read_stamp(rest) {
            return Some(moment);
        }
        left = rest;
    }
    None
}
