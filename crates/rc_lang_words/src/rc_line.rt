//! Commands of muttrc, and how they are read from text.

ghost use Rattle.std.specs.Prelude.{◌≡◌, ◌++◌, [], OnOk, IfOk, map, option_map, option_to_list};
ghost use Rattle.rc_lang_words.specs.Words as spec;

use crate::fault::RcFault;
use crate::sign::Sign;
use crate::split::{join_words, split_words};
use crate::state::read_signs;
use crate::word::{RcWord, RcWords};
use mail_base::{Line, NoMemory, Series, append_utf8};
use std::alloc::Global;

/// A command, with the line on which its first word begins, counted from 1. Joined lines count
/// each.
#[derive(Drop)]
pub struct RcLine {
    pub line: u32,
    /// Empty where there is a fault.
    pub words: RcWords,
    /// A quote that is not closed; no other fault is found without the settings.
    pub fault: Option<RcFault>,
}

/// A list of commands.
pub type RcLines = Series<RcLine>;

fn first_line(word: &[Sign]) -> u32
    ensures { result ≡ spec.first_line word.now }
{
    match word {
        [] => 1,
        [first, ..] => first.line,
    }
}

fn read_words(alloc: Global, words: &[Vec<Sign>]) -> Result<RcWords, NoMemory>
    ensures { IfOk result
        (λ w. spec.plain_words w ≡ map spec.pieces_of (spec.written_words words.now)) }
{
    let mut read = RcWords::new(alloc);
    let mut left = words;
    while let [word, rest @ ..] = left {
        read.push(RcWord::read(alloc, word.as_slice())?)?;
        left = rest;
    }
    Ok(read)
}

// The command of which these are the words.
fn read_line(
    alloc: Global,
    words: Vec<Vec<Sign>>,
    is_open: bool,
) -> Result<Option<RcLine>, NoMemory>
    ensures { IfOk result
        (λ o. option_map spec.plain_line o
        ≡ spec.line_of is_open (spec.written_words words.items)) }
{
    let line = match words.as_slice() {
        [] => return Ok(None),
        [first, ..] => first_line(first.as_slice()),
    };
    if is_open {
        return Ok(Some(RcLine {
            line,
            words: RcWords::new(alloc),
            fault: Some(RcFault::OpenQuote),
        }));
    }
    let words = join_words(alloc, words)?;
    Ok(Some(RcLine {
        line,
        words: read_words(alloc, words.as_slice())?,
        fault: None,
    }))
}

// Adds the command of which these are the characters, if it has words.
fn add_line(
    alloc: Global,
    lines: &mut RcLines,
    signs: &[Sign],
    is_open: bool,
) -> Result<(), NoMemory>
    ensures { OnOk result (spec.plain_lines lines.new
        ≡ spec.plain_lines lines.old
        ++ option_to_list (spec.line_of is_open (spec.words_from [] signs.now))) }
{
    let words = split_words(alloc, signs)?;
    if let Some(line) = read_line(alloc, words, is_open)? {
        lines.push(line)?;
    }
    Ok(())
}

/// The commands of muttrc text, read once from front to back (Mutt's manual, "Syntax of
/// Initialization Files").
/// Malformed UTF-8 is read as a `?` for each byte. Variables are not looked up.
pub fn read_rc(alloc: Global, text: &[u8]) -> Result<RcLines, NoMemory>
    ensures { IfOk result (λ lines. spec.plain_lines lines ≡ spec.lines_of text.now) }
{
    let mut shown = Line::new(alloc);
    append_utf8(&mut shown, text)?;
    let signs = read_signs(alloc, shown.as_slice())?;
    let mut lines = RcLines::new(alloc);
    let mut command = Vec::new(alloc);
    let mut left = signs.as_slice();
    while let [sign, rest @ ..] = left {
        if sign.is_end() {
            add_line(alloc, &mut lines, command.as_slice(), sign.is_open_quote())?;
            command = Vec::new(alloc);
        } else {
            command.push(*sign)?;
        }
        left = rest;
    }
    add_line(alloc, &mut lines, command.as_slice(), false)?;
    Ok(lines)
}
