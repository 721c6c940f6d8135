//! Laws of the definitions, each the contract of a function that does nothing.

ghost use Rattle.rc_lang_words.specs.Laws as spec;

/// A word of UTF-8 in double quotes is read back.
pub fn quoted_words_are_read()
    ensures { spec.QuotedIsRead }
{}
