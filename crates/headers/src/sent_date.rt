//! When a message was sent (RFC 5322, section 3.3, as jiff reads it).

ghost use Rattle.std.specs.Prelude.{◌≡◌};

use jiff::Timestamp;
use jiff::fmt::rfc2822::DateTimeParser;

/// When a message was sent: seconds since 1970 in UTC, and the offset of the sender's clock in
/// seconds.
#[derive(Clone, Copy, Debug, PartialEq, Eq)]
pub struct SentDate {
    pub seconds: i64,
    pub offset: i32,
}

impl SentDate {
    ghost use Rattle.headers.specs.SentDate.{sent_date};

    /// The date of a field's value, unless jiff refuses it.
    pub fn read(value: &[u8]) -> Option<SentDate>
        ensures { result ≡ sent_date value.now }
    {
        match DateTimeParser::new().parse_timestamp_with_offset(value) {
            Ok((timestamp, offset)) => Some(SentDate {
                seconds: Timestamp::from_plain(timestamp).as_second(),
                offset: offset.seconds,
            }),
            Err(_) => None,
        }
    }
}
