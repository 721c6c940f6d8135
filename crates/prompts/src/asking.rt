//! What a prompt asks.

ghost use Rattle.std.specs.Prelude.{◌≡◌, ◌++◌, OnOk};
ghost use Rattle.prompts.specs.Prompts as spec;

use crate::reply::Reply;
use mail_base::{Line, NoMemory};
use std::alloc::Global;

/// The key that ends a prompt.
pub const ENTER: char = '\r';
/// The key that takes the last character away.
pub const BACKSPACE: char = '\x7f';
/// The key that ends a prompt without effect: Ctrl-G.
pub const GIVE_UP: char = '\x07';

/// What a prompt asks.
#[derive(Clone, Copy, Debug, PartialEq, Eq)]
pub enum Asking {
    Delete,
    Undelete,
    Tag,
    Untag,
    Limit,
    Search,
    Command,
    Sort,
    ReverseSort,
    SetFlag,
    ClearFlag,
    /// Whether so many messages that are marked deleted go; Enter says so where `yes`. The run is
    /// to end behind that where `quits`.
    Purge {
        count: usize,
        yes: bool,
        quits: bool,
    },
    /// Whether the run is left; Enter says so where `yes`.
    Quit {
        yes: bool,
    },
}

// The answers of which one is the default.
fn ways(yes: bool) -> &'static str
    ensures { result.now ≡ spec.ways yes }
{
    if yes { "([yes]/no): " } else { "(yes/[no]): " }
}

// The key of an answer.
fn key_of(yes: bool) -> char
    ensures { result ≡ spec.key_of yes }
{
    if yes { 'y' } else { 'n' }
}

// Adds how many messages are meant.
fn append_count(alloc: Global, line: &mut Line, count: usize) -> Result<(), NoMemory>
    ensures { OnOk result (line.new.items ≡ line.old.items ++ spec.counted count) }
{
    line.append(count.to_string(alloc)?.as_str())?;
    if count == 1 {
        line.append(" deleted message? ")
    } else {
        line.append(" deleted messages? ")
    }
}

// Adds the question whether messages go.
fn append_purge(alloc: Global, line: &mut Line, count: usize, yes: bool) -> Result<(), NoMemory>
    ensures { OnOk result (line.new.items ≡ line.old.items ++ spec.purge_text count yes) }
{
    line.append("Purge ")?;
    append_count(alloc, line, count)?;
    line.append(ways(yes))
}

// Adds the question whether the run is left.
fn append_quit(line: &mut Line, yes: bool) -> Result<(), NoMemory>
    ensures { OnOk result (line.new.items ≡ line.old.items ++ spec.quit_text yes) }
{
    line.append("Quit Mutt? ")?;
    line.append(ways(yes))
}

impl Asking {
    ghost use Rattle.std.specs.Prelude.{◌≡◌, ◌++◌, OnOk};
    ghost use Rattle.prompts.specs.Prompts as spec;

    /// Adds the text of the prompt.
    pub fn append_text(self, alloc: Global, line: &mut Line) -> Result<(), NoMemory>
        ensures { OnOk result (line.new.items ≡ line.old.items ++ spec.asking_text self) }
    {
        match self {
            Asking::Purge { count, yes, .. } => append_purge(alloc, line, count, yes),
            Asking::Quit { yes } => append_quit(line, yes),
            _ => line.append(self.plain_text()),
        }
    }

    // The text of a prompt that asks always the same.
    fn plain_text(self) -> &'static str
        ensures { result.now ≡ spec.plain_text self }
    {
        match self {
            Asking::Delete => "Delete messages matching: ",
            Asking::Undelete => "Undelete messages matching: ",
            Asking::Tag => "Tag messages matching: ",
            Asking::Untag => "Untag messages matching: ",
            Asking::Limit => "Limit to messages matching: ",
            Asking::Search => "Search for: ",
            Asking::Command => ":",
            Asking::Sort => "Sort (d/f/r/s/o/t/u/z/c): ",
            Asking::ReverseSort => "Reverse sort (d/f/r/s/o/t/u/z/c): ",
            Asking::SetFlag => "Set flag? (D/N/O/r/*/!): ",
            Asking::ClearFlag => "Clear flag? (D/N/O/r/*/!): ",
            _ => "",
        }
    }

    // The keys of which one is the answer; a prompt without any takes a text.
    fn choices(self) -> &'static [u8]
        ensures { result.now ≡ spec.choices self }
    {
        match self {
            Asking::Sort | Asking::ReverseSort => b"dfrsotuzc",
            Asking::SetFlag | Asking::ClearFlag => b"DNOr*!",
            Asking::Purge { .. } | Asking::Quit { .. } => b"yn",
            _ => b"",
        }
    }

    /// Whether one key is the answer.
    pub fn is_of_one_key(self) -> bool
        ensures { result ≡ spec.is_of_one_key self }
    {
        !self.choices().is_empty()
    }

    // Whether a character is one of the keys that answer.
    fn has_choice(self, c: char) -> bool
        ensures { result ≡ spec.has_choice self c }
    {
        self.choices().iter().any(|choice| char::from(*choice) == c)
    }

    // What Enter says to the prompt.
    fn reply_to_enter(self) -> Reply
        ensures { result ≡ spec.reply_to_enter self }
    {
        match self {
            Asking::Purge { yes, .. } | Asking::Quit { yes } => Reply::Chosen(key_of(yes)),
            _ if self.is_of_one_key() => Reply::GivenUp,
            _ => Reply::Answered,
        }
    }

    /// What a character says to the prompt.
    pub fn reply(self, c: char) -> Reply
        ensures { result ≡ spec.reply_to_char self c }
    {
        if c == GIVE_UP {
            return Reply::GivenUp;
        }
        if c == ENTER {
            return self.reply_to_enter();
        }
        if self.has_choice(c) {
            Reply::Chosen(c)
        } else {
            Reply::More
        }
    }
}
