//! Options of a letter with a value, which stands in the next word or behind the letter.

ghost use Rattle.std.specs.Prelude.{◌≡◌, option_map};
ghost use Rattle.mutt_words.specs.ShortOption as spec;

use mail_base::behind;

/// An option of a letter with a value.
#[derive(Clone, Copy, Debug, PartialEq, Eq)]
pub enum ShortOption {
    /// `-f`: the folder.
    Folder,
    /// `-F`: the file of commands.
    RcFile,
    /// `-e`: a command.
    Command,
    /// `-m`: the kind of new folders.
    FolderKind,
    /// `-Q`: a variable that is printed.
    Query,
}

impl ShortOption {
    /// The option of a letter.
    pub fn from_letter(letter: u8) -> Option<ShortOption>
        ensures { result ≡ spec.option_of letter }
    {
        match letter {
            b'f' => Some(ShortOption::Folder),
            b'F' => Some(ShortOption::RcFile),
            b'e' => Some(ShortOption::Command),
            b'm' => Some(ShortOption::FolderKind),
            b'Q' => Some(ShortOption::Query),
            _ => None,
        }
    }
}

/// The option with which a word begins, and what stands behind its letter.
pub fn read_short(word: &[u8]) -> Option<(ShortOption, &[u8])>
    ensures { option_map (λ p. (p.0, p.1.now)) result ≡ spec.read_short word.now }
{
    let [letter, value @ ..] = behind(b'-', word)? else {
        return None;
    };
    Some((ShortOption::from_letter(*letter)?, value))
}
