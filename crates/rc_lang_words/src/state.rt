//! Reads muttrc text character by character (Mutt's manual, "Syntax of Initialization Files").

ghost use Rattle.std.specs.Prelude.{◌≡◌, ◌++◌, true, OnOk, IfOk};
ghost use Rattle.rc_lang_words.specs.Signs as spec;

use crate::sign::{Role, Sign};
use mail_base::NoMemory;
use std::alloc::Global;

/// The quotes in which a byte stands.
#[derive(Clone, Copy, Debug, PartialEq, Eq)]
pub enum Quoting {
    Plain,
    Single,
    Double,
    Comment,
}

/// What stands before a byte.
#[derive(Clone, Copy, Debug, PartialEq, Eq)]
pub enum Escape {
    Absent,
    Backslash,
    /// A backslash and this letter, `c` or `C`.
    Control(u8),
}

/// Where the next byte stands.
#[derive(Clone, Copy, Debug, PartialEq, Eq)]
pub struct State {
    pub line: u32,
    pub quoting: Quoting,
    pub escape: Escape,
}

impl State {
    fn new(line: u32, quoting: Quoting, escape: Escape) -> State
        ensures { result ≡ spec.state line quoting escape }
    {
        State {
            line,
            quoting,
            escape,
        }
    }

    fn next_line(line: u32, quoting: Quoting) -> State
        ensures { result ≡ spec.next_line line quoting }
    {
        State::new(line.saturating_add(1), quoting, Escape::Absent)
    }

    // The letter behind a backslash that the byte does not make a control character.
    fn letter_before(self, byte: u8) -> Option<u8>
        ensures { result ≡ spec.letter_before self.escape byte }
    {
        match self.escape {
            Escape::Control(letter) if !has_control(byte) => Some(letter),
            _ => None,
        }
    }

    // What the byte is, if it gives or ends something, and the state behind it.
    fn step(self, byte: u8) -> (Option<Role>, State)
        ensures { result ≡ spec.step self byte }
    {
        let State { line, quoting, .. } = self;
        match self.escape {
            Escape::Backslash => backslash_step(line, quoting, byte),
            Escape::Control(_) if has_control(byte) => {
                let plain = State::new(line, quoting, Escape::Absent);
                (Some(Role::Literal(control_of(byte))), plain)
            }
            _ => match quoting {
                Quoting::Plain => plain_step(line, byte),
                Quoting::Single => single_step(line, byte),
                Quoting::Double => double_step(line, byte),
                Quoting::Comment => comment_step(line, byte),
            },
        }
    }

    // The letter that the end of the text leaves without a control character.
    fn last_letter(self) -> Option<u8>
        ensures { result ≡ spec.last_letter self.escape }
    {
        match self.escape {
            Escape::Control(letter) => Some(letter),
            _ => None,
        }
    }

    fn is_quoted(self) -> bool
        ensures { result ≡ spec.is_quoted self.quoting }
    {
        matches!(self.quoting, Quoting::Single | Quoting::Double)
    }
}

fn plain_step(line: u32, byte: u8) -> (Option<Role>, State)
    ensures { result ≡ spec.plain_step line byte }
{
    let plain = State::new(line, Quoting::Plain, Escape::Absent);
    match byte {
        b' ' | b'\t' => (Some(Role::Blank), plain),
        b'\n' => (
            Some(Role::CommandEnd),
            State::next_line(line, Quoting::Plain),
        ),
        b';' => (Some(Role::CommandEnd), plain),
        b'#' => (
            Some(Role::Blank),
            State::new(line, Quoting::Comment, Escape::Absent),
        ),
        b'\'' => (
            Some(Role::Quote),
            State::new(line, Quoting::Single, Escape::Absent),
        ),
        b'"' => (
            Some(Role::Quote),
            State::new(line, Quoting::Double, Escape::Absent),
        ),
        b'\\' => (None, State::new(line, Quoting::Plain, Escape::Backslash)),
        _ => (Some(Role::Plain(byte)), plain),
    }
}

fn single_step(line: u32, byte: u8) -> (Option<Role>, State)
    ensures { result ≡ spec.single_step line byte }
{
    match byte {
        b'\'' => (
            Some(Role::Quote),
            State::new(line, Quoting::Plain, Escape::Absent),
        ),
        b'\n' => (
            Some(Role::OpenQuote),
            State::next_line(line, Quoting::Plain),
        ),
        _ => (
            Some(Role::Literal(byte)),
            State::new(line, Quoting::Single, Escape::Absent),
        ),
    }
}

fn double_step(line: u32, byte: u8) -> (Option<Role>, State)
    ensures { result ≡ spec.double_step line byte }
{
    match byte {
        b'"' => (
            Some(Role::Quote),
            State::new(line, Quoting::Plain, Escape::Absent),
        ),
        b'\n' => (
            Some(Role::OpenQuote),
            State::next_line(line, Quoting::Plain),
        ),
        b'\\' => (None, State::new(line, Quoting::Double, Escape::Backslash)),
        _ => (
            Some(Role::InQuotes(byte)),
            State::new(line, Quoting::Double, Escape::Absent),
        ),
    }
}

fn comment_step(line: u32, byte: u8) -> (Option<Role>, State)
    ensures { result ≡ spec.comment_step line byte }
{
    match byte {
        b'\n' => (
            Some(Role::CommandEnd),
            State::next_line(line, Quoting::Plain),
        ),
        b'\\' => (None, State::new(line, Quoting::Comment, Escape::Backslash)),
        _ => (None, State::new(line, Quoting::Comment, Escape::Absent)),
    }
}

// Behind a backslash; before a line end it joins lines, in a comment it gives nothing else.
fn backslash_step(line: u32, quoting: Quoting, byte: u8) -> (Option<Role>, State)
    ensures { result ≡ spec.backslash_step line quoting byte }
{
    let behind = State::new(line, quoting, Escape::Absent);
    match byte {
        b'\n' => (None, State::next_line(line, quoting)),
        _ if quoting == Quoting::Comment => (None, behind),
        b'c' | b'C' => (None, State::new(line, quoting, Escape::Control(byte))),
        _ => (Some(Role::Literal(escaped_byte(byte))), behind),
    }
}

// What a backslash and the byte give.
fn escaped_byte(byte: u8) -> u8
    ensures { result ≡ spec.escaped_byte byte }
{
    match byte {
        b'n' => b'\n',
        b'r' => b'\r',
        b't' => b'\t',
        b'e' => 27,
        _ => byte,
    }
}

// Whether the byte has a control character: it is ASCII, and no line end.
fn has_control(byte: u8) -> bool
    ensures { result ≡ spec.has_control byte }
{
    byte < 128 && byte != b'\n'
}

fn control_of(byte: u8) -> u8
    requires { spec.has_control byte ≡ true }
    ensures { result ≡ spec.control_of byte }
{
    (byte.to_ascii_uppercase() + 64) % 128
}

fn push_literal(signs: &mut Vec<Sign>, line: u32, letter: Option<u8>) -> Result<(), NoMemory>
    ensures { OnOk result (signs.new.items ≡ signs.old.items ++ spec.literal_sign line letter) }
{
    if let Some(letter) = letter {
        signs.push(Sign {
            line,
            role: Role::Literal(letter),
        })?;
    }
    Ok(())
}

fn push_role(signs: &mut Vec<Sign>, line: u32, role: Option<Role>) -> Result<(), NoMemory>
    ensures { OnOk result (signs.new.items ≡ signs.old.items ++ spec.role_sign line role) }
{
    if let Some(role) = role {
        signs.push(Sign { line, role })?;
    }
    Ok(())
}

/// The characters of a text with how they are quoted, read once from front to back.
pub fn read_signs(alloc: Global, text: &[u8]) -> Result<Vec<Sign>, NoMemory>
    ensures { IfOk result (λ v. v.items ≡ spec.signs_of text.now) }
{
    let mut signs = Vec::with_capacity(alloc, text.len())?;
    let mut state = State::new(1, Quoting::Plain, Escape::Absent);
    let mut left = text;
    while let [first, rest @ ..] = left {
        push_literal(&mut signs, state.line, state.letter_before(*first))?;
        let (role, next) = state.step(*first);
        push_role(&mut signs, state.line, role)?;
        state = next;
        left = rest;
    }
    push_literal(&mut signs, state.line, state.last_letter())?;
    if state.is_quoted() {
        push_role(&mut signs, state.line, Some(Role::OpenQuote))?;
    }
    Ok(signs)
}
