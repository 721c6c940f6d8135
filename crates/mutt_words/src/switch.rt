//! Options without a value.

ghost use Rattle.std.specs.Prelude.{◌≡◌};
ghost use Rattle.mutt_words.specs.Switch as spec;

/// An option without a value.
#[derive(Clone, Copy, Debug, PartialEq, Eq)]
pub enum Switch {
    /// `-n`: no file of the system is read, of which there is none.
    NoSystemFile,
    /// `-R`: the folder is only read.
    ReadOnly,
    /// `-z`: an empty folder is not shown.
    SkipEmpty,
    /// `-v`: the version is printed.
    Version,
}

impl Switch {
    /// The option that a word is.
    pub fn from_word(word: &[u8]) -> Option<Switch>
        ensures { result ≡ spec.switch_of word.now }
    {
        if word == b"-n".as_slice() {
            Some(Switch::NoSystemFile)
        } else if word == b"-R".as_slice() {
            Some(Switch::ReadOnly)
        } else if word == b"-z".as_slice() {
            Some(Switch::SkipEmpty)
        } else if word == b"-v".as_slice() {
            Some(Switch::Version)
        } else {
            None
        }
    }
}
