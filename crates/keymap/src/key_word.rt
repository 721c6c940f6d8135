//! Key words, as muttrc writes keys (Mutt's manual, "Changing the Default Key Bindings").

ghost use Rattle.std.specs.Prelude.{◌≡◌, ◌<◌, ◌≤◌, find, length, map, option_map, IfOk, IfSome};
ghost use Rattle.keymap.specs.Functions.{plain_row};
ghost use Rattle.keymap.specs.Pieces.{plain_piece};
ghost use Rattle.keymap.specs.KeyWords as spec;
ghost use Rattle.std.specs.Prelude.{is_some};
ghost use Rattle.std.specs.Prelude.{min, take};

use crate::function::{Row, rows};
use crate::key::{Key, Keys};
use crate::piece::{KeyPiece, behind_piece};
use mail_base::{NoMemory, behind, behind_text, is_same_name};
use std::alloc::Global;

/// A key's name, in the brackets in which it is written.
#[derive(Clone, Copy, Debug)]
pub struct KeyName(pub &'static [u8], pub Key);

static NAMES: [KeyName; 20] = [
    KeyName(b"<Up>", Key::Up),
    KeyName(b"<Down>", Key::Down),
    KeyName(b"<Left>", Key::Left),
    KeyName(b"<Right>", Key::Right),
    KeyName(b"<Home>", Key::Home),
    KeyName(b"<End>", Key::End),
    KeyName(b"<PageUp>", Key::PageUp),
    KeyName(b"<PageDown>", Key::PageDown),
    KeyName(b"<Insert>", Key::Insert),
    KeyName(b"<Delete>", Key::Delete),
    KeyName(b"<F1>", Key::F1),
    KeyName(b"<F2>", Key::F2),
    KeyName(b"<F3>", Key::F3),
    KeyName(b"<F4>", Key::F4),
    KeyName(b"<Enter>", Key::Char('\r')),
    KeyName(b"<Return>", Key::Char('\r')),
    KeyName(b"<Tab>", Key::Char('\t')),
    KeyName(b"<Esc>", Key::Char('\x1b')),
    KeyName(b"<Space>", Key::Char(' ')),
    KeyName(b"<BackSpace>", Key::Char('\x7f')),
];

fn names() -> &'static [KeyName]
    ensures { map spec.plain_name result.now ≡ spec.key_names }
{
    &NAMES
}

// Whether the name stands at the front of the text, in any case of ASCII letters.
fn begins_alike(text: &[u8], name: &[u8]) -> bool
    ensures { result ≡ spec.begins_alike text.now name.now }
{
    let (front, _) = text.split_at(text.len().min(name.len()));
    is_same_name(front, name)
}

fn name_in(names: &[KeyName], text: &[u8]) -> Option<KeyName>
    ensures { result ≡ find (λ n. spec.begins_alike text.now n.0.now) names.now }
{
    names
        .iter()
        .copied()
        .find(|name| begins_alike(text, name.0))
}

fn name_at(text: &[u8]) -> Option<KeyName>
    ensures { option_map spec.plain_name result ≡ spec.name_at text.now }
{
    name_in(names(), text)
}

// The key whose name stands at the front.
fn named_key(text: &[u8]) -> Option<KeyPiece>
    ensures { option_map plain_piece result ≡ spec.named_key text.now }
{
    let KeyName(name, key) = name_at(text)?;
    Some(KeyPiece {
        key,
        more: name.len().saturating_sub(1),
    })
}

// What follows the function's name in brackets, where that stands at the front.
fn behind_name<'a>(name: &[u8], text: &'a [u8]) -> Option<&'a [u8]>
    ensures value { option_map (λ r. r.now) result ≡ spec.behind_name name.now text.now }
{
    let inside = behind(b'<', text)?;
    let closing = behind_text(name, inside)?;
    behind(b'>', closing)
}

fn is_called(name: &[u8], text: &[u8]) -> bool
    ensures { result ≡ is_some (spec.behind_name name.now text.now) }
{
    behind_name(name, text).is_some()
}

fn row_in(rows: &[Row], text: &[u8]) -> Option<Row>
    ensures { result ≡ find (λ r. is_some (spec.behind_name r.0.now text.now)) rows.now }
{
    rows.iter().copied().find(|row| is_called(row.0, text))
}

fn row_at(text: &[u8]) -> Option<Row>
    ensures { option_map plain_row result ≡ spec.row_at text.now }
{
    row_in(rows(), text)
}

// The function whose name in brackets stands at the front.
fn called_key(text: &[u8]) -> Option<KeyPiece>
    ensures { option_map plain_piece result ≡ spec.called_key text.now }
{
    let row = row_at(text)?;
    Some(KeyPiece {
        key: Key::Call(row.1),
        more: row.0.len().saturating_add(1),
    })
}

fn called_if(functions: bool, text: &[u8]) -> Option<KeyPiece>
    ensures { option_map plain_piece result ≡ spec.called_if functions text.now }
{
    if functions { called_key(text) } else { None }
}

// The first key of a text: a name in brackets or a character.
fn first_word_key(functions: bool, text: &[u8]) -> KeyPiece
    requires { 0 < length text.now }
    ensures { plain_piece result ≡ spec.first_word_key functions text.now }
{
    if let Some(piece) = named_key(text) {
        return piece;
    }
    match called_if(functions, text) {
        Some(piece) => piece,
        None => KeyPiece::read_char(text),
    }
}

/// The keys of a key word. A function's name in brackets is one key where `functions` holds, as in
/// the text of a macro; any other `<` is itself, and a line feed is the key Enter.
pub fn read_keys(alloc: Global, word: &[u8], functions: bool) -> Result<Keys, NoMemory>
    ensures { IfOk result (λ keys. keys.items ≡ spec.word_keys functions word.now) }
{
    let mut keys = Keys::new(alloc);
    let mut left = word;
    while !left.is_empty() {
        let piece = first_word_key(functions, left);
        keys.push(piece.key)?;
        left = behind_piece(left, piece.more);
    }
    Ok(keys)
}
