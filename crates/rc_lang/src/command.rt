//! The commands of muttrc, and how many words they take.

ghost use Rattle.std.specs.Prelude.{◌≡◌, ◌++◌, map, find, option_map, IfOk, OnOk};
ghost use Rattle.std.specs.Str.{bytes_eq};
ghost use Rattle.rc_lang.specs.Commands as spec;
ghost use Rattle.rc_lang_words.specs.Faults.{IsError};
ghost use Rattle.rc_lang.specs.Settings.{Answers};
ghost use Rattle.rc_lang_words.specs.declared.fault.RcFault.TheVariants as fault;
ghost use Rattle.rc_lang_words.specs.Words.{plain_piece, plain_word, plain_words};

use crate::settings::Settings;
use mail_base::{Bytes, NoMemory};
use rc_lang_words::{RcError, RcFault, RcPiece, RcWord, RcWords};
use std::alloc::Global;

/// A command.
#[derive(Clone, Copy, Debug, PartialEq, Eq)]
pub enum Command {
    Set,
    Unset,
    Toggle,
    Reset,
    Bind,
    Macro,
    Push,
    Exec,
    Source,
    FolderHook,
    MessageHook,
    SaveHook,
    Score,
    Unscore,
    Lists,
    Subscribe,
    Alternates,
    Alias,
    Ignore,
    Unignore,
    HdrOrder,
    Mailboxes,
    /// A command of Mutt that is read and does nothing.
    Idle,
}

/// A command with its name, and the least and the greatest number of words behind its own.
#[derive(Clone, Copy, Debug)]
pub struct CommandRow(pub &'static [u8], pub Command, pub usize, pub Option<usize>);

static COMMANDS: [CommandRow; 33] = [
    CommandRow(b"set", Command::Set, 0, None),
    CommandRow(b"unset", Command::Unset, 0, None),
    CommandRow(b"toggle", Command::Toggle, 0, None),
    CommandRow(b"reset", Command::Reset, 0, None),
    CommandRow(b"bind", Command::Bind, 3, Some(3)),
    CommandRow(b"macro", Command::Macro, 3, Some(4)),
    CommandRow(b"push", Command::Push, 1, Some(1)),
    CommandRow(b"exec", Command::Exec, 1, None),
    CommandRow(b"source", Command::Source, 1, Some(1)),
    CommandRow(b"folder-hook", Command::FolderHook, 2, None),
    CommandRow(b"message-hook", Command::MessageHook, 2, None),
    CommandRow(b"save-hook", Command::SaveHook, 2, Some(2)),
    CommandRow(b"score", Command::Score, 2, Some(2)),
    CommandRow(b"unscore", Command::Unscore, 1, None),
    CommandRow(b"lists", Command::Lists, 1, None),
    CommandRow(b"subscribe", Command::Subscribe, 1, None),
    CommandRow(b"alternates", Command::Alternates, 1, None),
    CommandRow(b"alias", Command::Alias, 2, None),
    CommandRow(b"ignore", Command::Ignore, 1, None),
    CommandRow(b"unignore", Command::Unignore, 1, None),
    CommandRow(b"hdr_order", Command::HdrOrder, 1, None),
    CommandRow(b"mailboxes", Command::Mailboxes, 1, None),
    CommandRow(b"color", Command::Idle, 0, None),
    CommandRow(b"uncolor", Command::Idle, 0, None),
    CommandRow(b"mono", Command::Idle, 0, None),
    CommandRow(b"auto_view", Command::Idle, 0, None),
    CommandRow(b"alternative_order", Command::Idle, 0, None),
    CommandRow(b"my_hdr", Command::Idle, 0, None),
    CommandRow(b"mime_lookup", Command::Idle, 0, None),
    CommandRow(b"charset-hook", Command::Idle, 0, None),
    CommandRow(b"send-hook", Command::Idle, 0, None),
    CommandRow(b"fcc-hook", Command::Idle, 0, None),
    CommandRow(b"reply-hook", Command::Idle, 0, None),
];

fn commands() -> &'static [CommandRow]
    ensures { map spec.plain_row result.now ≡ spec.rows }
{
    &COMMANDS
}

impl Command {
    /// Whether a `!` alone, before an expression or a pattern, is not counted as a word.
    pub fn is_hook(self) -> bool
        ensures { result ≡ spec.is_hook self }
    {
        matches!(
            self,
            Command::FolderHook | Command::MessageHook | Command::SaveHook
        )
    }
}

impl CommandRow {
    /// The command with the name.
    pub fn find(name: &[u8]) -> Option<CommandRow>
        ensures { option_map spec.plain_row result ≡ spec.row_of name.now }
    {
        find_in(commands(), name)
    }
}

fn find_in(rows: &[CommandRow], name: &[u8]) -> Option<CommandRow>
    ensures { result ≡ find (λ r. bytes_eq r.0.now name.now) rows.now }
{
    rows.iter().copied().find(|row| row.0 == name)
}

// The word as it is written, with `$name` for a variable.
fn written_word(alloc: Global, word: &RcWord) -> Result<Bytes, NoMemory>
    ensures { IfOk result (λ b. b.items ≡ spec.written_word (plain_word word.now)) }
{
    let mut text = Bytes::new(alloc);
    let mut left = word.pieces.as_slice();
    while let Some((piece, rest)) = left.split_first() {
        append_written(&mut text, piece)?;
        left = rest;
    }
    Ok(text)
}

fn append_written(text: &mut Bytes, piece: &RcPiece) -> Result<(), NoMemory>
    ensures { OnOk result
        (text.new.items ≡ text.old.items ++ spec.written_piece (plain_piece piece.now)) }
{
    match piece {
        RcPiece::Text(part) => text.append(part.as_slice()),
        RcPiece::Variable(name) => {
            text.push(b'$')?;
            text.append(name.as_slice())
        }
    }
}

// Whether the words begin with a `!` alone.
fn begins_negated(alloc: Global, words: &[RcWord]) -> Result<bool, NoMemory>
    ensures { IfOk result (λ b. b ≡ spec.begins_negated (map plain_word words.now)) }
{
    match words {
        [] => Ok(false),
        [first, ..] => Ok(written_word(alloc, first)?.as_slice() == b"!".as_slice()),
    }
}

// The words that are counted.
fn counted_words(alloc: Global, command: Command, words: &[RcWord]) -> Result<&[RcWord], NoMemory>
    ensures { IfOk result
        (λ w. map plain_word w.now ≡ spec.counted_words command (map plain_word words.now)) }
{
    match words {
        [_, rest @ ..] if command.is_hook() && begins_negated(alloc, words)? => Ok(rest),
        _ => Ok(words),
    }
}

// The first word too many, if there is one.
fn extra_word(most: Option<usize>, words: &[RcWord]) -> Option<&RcWord>
    ensures { option_map (λ w. plain_word w.now) result
        ≡ spec.extra_word most (map plain_word words.now) }
{
    words.get(most?)
}

fn extra_error(alloc: Global, word: &RcWord) -> RcError
    ensures { IsError fault.ExtraWord (spec.written_word (plain_word word.now)) result }
{
    match written_word(alloc, word) {
        Ok(text) => RcError::new(alloc, RcFault::ExtraWord, text.as_slice()),
        Err(NoMemory) => RcError::no_memory(alloc),
    }
}

impl CommandRow {
    // The command, if the number of these words is right.
    fn judge(self, alloc: Global, words: &[RcWord]) -> Result<Command, RcError>
        ensures { Answers (λ c. c) result (spec.command_if_right (spec.plain_row self)
            (spec.counted_words self.1 (map plain_word words.now))) }
    {
        let Ok(words) = counted_words(alloc, self.1, words) else {
            return Err(RcError::no_memory(alloc));
        };
        if words.len() < self.2 {
            return Err(RcError::new(alloc, RcFault::MissingWord, b""));
        }
        match extra_word(self.3, words) {
            Some(word) => Err(extra_error(alloc, word)),
            None => Ok(self.1),
        }
    }
}

impl Settings {
    /// The command that the first word names, if the number of the others is right. Only the
    /// variables of the first word
    /// are looked up, so `expand` comes behind this call. A word too many is told with `$name` for
    /// its variables.
    pub fn read_command(&self, alloc: Global, words: &RcWords) -> Result<Command, RcError>
        ensures { Answers (λ c. c) result (spec.command_of self.now (plain_words words.now)) }
    {
        let Some((first, rest)) = words.as_slice().split_first() else {
            return Err(RcError::new(alloc, RcFault::UnknownCommand, b""));
        };
        let name = self.word_text(alloc, first.pieces.as_slice())?;
        match CommandRow::find(name.as_slice()) {
            Some(row) => row.judge(alloc, rest),
            None => Err(RcError::new(alloc, RcFault::UnknownCommand, name.as_slice())),
        }
    }
}
