//! Laws of what is read: what was written so is read back.

ghost use Rattle.headers_laws.specs.Laws as spec;

/// A value without encoded words is read as UTF-8, with a `?` for each malformed byte.
pub fn plain_text_stays()
    ensures text { spec.PlainTextStays }
    ensures utf8 { spec.Utf8Stays }
{}

/// Persons written as `NAME <ADDRESS>,` without specials are read back.
pub fn written_people_are_read()
    ensures { spec.WrittenPeopleAreRead }
{}

/// A person with a phrase in quotes before the brackets is read back.
pub fn quoted_phrase_is_read()
    ensures { spec.QuotedPhraseIsRead }
{}

/// A group gives its members.
pub fn group_is_read()
    ensures { spec.GroupIsRead }
{}

/// A name in a comment behind an address is read back.
pub fn comment_is_the_name()
    ensures { spec.CommentIsTheName }
{}

/// Fields written one a line are read back, and the body is found behind them.
pub fn written_fields_are_read()
    ensures fields { spec.WrittenFieldsAreRead }
    ensures body { spec.WrittenBodyIsFound }
{}
