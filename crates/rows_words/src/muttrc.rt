//! Cases of muttrc text as commands (Mutt's manual, "Syntax of Initialization Files").

use case_files::{Answer, Case, CaseFault, Subject};
use mail_base::{Bytes, NoMemory};
use rc_lang::{RcLine, RcPiece, RcWord, read_rc};
use std::alloc::Global;

/// `text` is muttrc. Each `line` is the number of a command's line with its words in brackets, or
/// with its fault; a variable stands in braces behind a `$`.
pub struct MuttrcLines;

impl Subject for MuttrcLines {
    fn inputs(&self) -> &[&[u8]] {
        &[b"text"]
    }

    fn answer(&self, alloc: Global, case: &Case, answer: &mut Answer) -> Result<(), CaseFault> {
        let lines = read_rc(alloc, case.need(b"text")?)?;
        put_lines(alloc, lines.as_slice(), answer)
    }
}

fn put_lines(alloc: Global, lines: &[RcLine], answer: &mut Answer) -> Result<(), CaseFault> {
    answer.put_count(b"lines", lines.len())?;
    for line in lines {
        answer.put(b"line", shown_line(alloc, line)?.as_slice())?;
    }
    Ok(())
}

fn shown_line(alloc: Global, line: &RcLine) -> Result<Bytes, CaseFault> {
    let mut shown = Bytes::copy_of(alloc, line.line.to_string(alloc)?.as_bytes())?;
    append_line(&mut shown, line)?;
    Ok(shown)
}

fn append_line(shown: &mut Bytes, line: &RcLine) -> Result<(), NoMemory> {
    if line.fault.is_some() {
        shown.append(b" unclosed quote")?;
    }
    for word in line.words.as_slice() {
        shown.append(b" [")?;
        append_word(shown, word)?;
        shown.append(b"]")?;
    }
    Ok(())
}

fn append_word(shown: &mut Bytes, word: &RcWord) -> Result<(), NoMemory> {
    for piece in word.pieces.as_slice() {
        match piece {
            RcPiece::Text(text) => shown.append(text.as_slice())?,
            RcPiece::Variable(name) => {
                shown.append(b"${")?;
                shown.append(name.as_slice())?;
                shown.append(b"}")?;
            }
        }
    }
    Ok(())
}
