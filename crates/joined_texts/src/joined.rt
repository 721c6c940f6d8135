//! Texts in several pieces, in which a literal is searched for without joining them.

ghost use Rattle.std.specs.Prelude.{◌≡◌, ◌∷◌, ◌<◌, [], Some, IfSome, IfNone, IfOk, length};
ghost use Rattle.std.specs.Prelude.{option_map, if◌then◌else◌};
ghost use Rattle.std.specs.Char.{to_ascii_lowercase};
ghost use Rattle.std.specs.List.{list_any};
ghost use Rattle.std.specs.Char.{is_ascii_uppercase};
ghost use Rattle.headers.specs.FoldedField.{plain_folded};
ghost use Rattle.headers.specs.Ids.{ids};
ghost use Rattle.joined_texts.specs.Joined as spec;

use headers::{FoldedField, next_continuation};
use mail_base::{Bytes, NoMemory};
use std::alloc::Global;

/// A text that begins with a piece, which others follow, and then the lines of a message that
/// continue a field. A byte may end it before all of them do.
#[derive(Clone, Copy)]
pub struct Joined<'a> {
    pub first: &'a [u8],
    pub rest: &'a [&'a [u8]],
    pub lines: &'a [u8],
    /// The first such byte is the last one of the text, if it has one.
    pub last: Option<u8>,
}

/// Which bytes are equal in a search.
#[derive(Clone, Copy)]
pub enum Case {
    Regarded,
    Folded,
}

impl Case {
    fn are_equal(self, byte: u8, other: u8) -> bool
        ensures { result ≡ spec.are_equal self byte other }
    {
        match self {
            Case::Regarded => byte == other,
            Case::Folded => byte.to_ascii_lowercase() == other.to_ascii_lowercase(),
        }
    }

    // The case that a search for a literal regards.
    fn of(literal: &[u8]) -> Case
        ensures { result ≡ spec.case_of literal.now }
    {
        if has_capital(literal) {
            Case::Regarded
        } else {
            Case::Folded
        }
    }
}

fn is_capital(byte: u8) -> bool
    ensures { result ≡ is_ascii_uppercase byte }
{
    byte.is_ascii_uppercase()
}

fn has_capital(text: &[u8]) -> bool
    ensures { result ≡ list_any is_ascii_uppercase text.now }
{
    text.iter().any(|byte| is_capital(*byte))
}

impl<'a> Joined<'a> {
    /// The value of a field.
    pub fn of(field: FoldedField<'a>) -> Joined<'a>
        ensures joined { spec.joined result ≡ (plain_folded field.entry).value }
        ensures whole { spec.whole result ≡ (plain_folded field.entry).value }
    {
        Joined {
            first: field.value,
            rest: &[],
            lines: field.lines,
            last: None,
        }
    }

    // The first byte of the pieces, and what follows it.
    fn next_byte(self) -> Option<(u8, Joined<'a>)>
        ensures some { IfSome result (λ p. spec.whole self.entry ≡ p.0 ∷ spec.whole p.1) }
        ensures last { IfSome result (λ p. p.1.last ≡ self.entry.last) }
        ensures none { IfNone result (spec.whole self.entry ≡ []) }
    {
        let Joined {
            mut first,
            mut rest,
            lines,
            last,
        } = self;
        while let [next, behind @ ..] = rest {
            if !first.is_empty() {
                break;
            }
            first = next;
            rest = behind;
        }
        if let [byte, first @ ..] = first {
            let behind = Joined {
                first,
                rest,
                lines,
                last,
            };
            return Some((*byte, behind));
        }
        let (first, lines) = next_continuation(lines)?;
        let behind = Joined {
            first,
            rest,
            lines,
            last,
        };
        Some((b' ', behind))
    }

    // What is left of the text behind a byte: nothing, where that is its last one.
    #[tactic(auto, using(crate::proofs::JoinedLemmas::no_lines))]
    fn behind(self, byte: u8) -> Joined<'a>
        ensures { spec.joined result
            ≡ (if spec.ends self.entry.last byte then [] else spec.joined self.entry) }
    {
        let Some(last) = self.last else {
            return self;
        };
        if byte != last {
            return self;
        }
        Joined {
            first: &[],
            rest: &[],
            lines: &[],
            last: None,
        }
    }

    // The first byte of the text, and what follows it.
    fn split(self) -> Option<(u8, Joined<'a>)>
        ensures some { IfSome result (λ p. spec.joined self.entry ≡ p.0 ∷ spec.joined p.1) }
        ensures none { IfNone result (spec.joined self.entry ≡ []) }
    {
        let (byte, rest) = self.next_byte()?;
        Some((byte, rest.behind(byte)))
    }

    // What stands behind the first such byte of the pieces.
    fn behind_first(self, byte: u8) -> Option<Joined<'a>>
        ensures { option_map spec.whole result
            ≡ spec.behind_first byte (spec.whole self.entry) }
    {
        let mut text = self;
        while let Some((first, rest)) = text.next_byte() {
            if first == byte {
                return Some(rest);
            }
            text = rest;
        }
        None
    }

    // The text of the pieces up to the first such byte.
    fn up_to(self, byte: u8) -> Joined<'a>
        ensures { spec.joined result ≡ spec.up_to (Some byte) (spec.whole self.entry) }
    {
        Joined {
            first: self.first,
            rest: self.rest,
            lines: self.lines,
            last: Some(byte),
        }
    }

    /// The first message id of the pieces, and what follows it.
    pub fn next_id(self) -> Option<(Joined<'a>, Joined<'a>)>
        ensures some { IfSome result (λ p. ids (spec.whole self.entry)
            ≡ spec.joined p.0 ∷ ids (spec.whole p.1)) }
        ensures none { IfNone result (ids (spec.whole self.entry) ≡ []) }
        ensures shorter { IfSome result
            (λ p. length (spec.whole p.1) < length (spec.whole self.entry)) }
    {
        let mut text = self;
        while let Some((first, rest)) = text.next_byte() {
            if first == b'<' {
                let Some(behind) = rest.behind_first(b'>') else {
                    return None;
                };
                return Some((text.up_to(b'>'), behind));
            }
            text = rest;
        }
        None
    }

    // Whether the literal stands at the front.
    fn begins(self, case: Case, literal: &[u8]) -> bool
        ensures { result ≡ spec.begins case (spec.joined self.entry) literal.now }
    {
        let mut text = self;
        let mut left = literal;
        while let [wanted, rest @ ..] = left {
            let Some((byte, behind)) = text.split() else {
                return false;
            };
            if !case.are_equal(byte, *wanted) {
                return false;
            }
            text = behind;
            left = rest;
        }
        true
    }

    /// Whether the literal stands in the text; one without capital letters is found whatever the
    /// case of the text's letters.
    pub fn holds(self, literal: &[u8]) -> bool
        ensures { result ≡ spec.is_there literal.now (spec.joined self.entry) }
    {
        let case = Case::of(literal);
        let mut text = self;
        loop {
            if text.begins(case, literal) {
                return true;
            }
            let Some((_, behind)) = text.split() else {
                return false;
            };
            text = behind;
        }
    }

    /// The text in one piece.
    pub fn copy(self, alloc: Global) -> Result<Bytes, NoMemory>
        ensures { IfOk result (λ b. b.items ≡ spec.joined self.entry) }
    {
        match self.last {
            Some(_) => self.copy_bytes(alloc),
            None => self.copy_whole(alloc),
        }
    }

    fn copy_bytes(self, alloc: Global) -> Result<Bytes, NoMemory>
        ensures { IfOk result (λ b. b.items ≡ spec.joined self.entry) }
    {
        let mut text = Bytes::new(alloc);
        let mut left = self;
        while let Some((byte, behind)) = left.split() {
            text.push(byte)?;
            left = behind;
        }
        Ok(text)
    }

    // All pieces in one.
    fn copy_whole(self, alloc: Global) -> Result<Bytes, NoMemory>
        ensures { IfOk result (λ b. b.items ≡ spec.whole self.entry) }
    {
        let mut text = Bytes::copy_of(alloc, self.first)?;
        let mut left = self.rest;
        while let [next, rest @ ..] = left {
            text.append(next)?;
            left = rest;
        }
        let mut lines = self.lines;
        while let Some((more, rest)) = next_continuation(lines) {
            text.push(b' ')?;
            text.append(more)?;
            lines = rest;
        }
        Ok(text)
    }
}
