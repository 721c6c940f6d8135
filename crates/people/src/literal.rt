//! Literals, and where they stand.

ghost use Rattle.std.specs.Prelude.{◌≡◌, ◌≤◌, length};
ghost use Rattle.std.specs.Char.{is_ascii_uppercase};
ghost use Rattle.std.specs.List.{list_any};
ghost use Rattle.std.specs.Str.{str_to_ascii_lowercase};
ghost use Rattle.memchr.specs.Find.{occurs_at};
ghost use Rattle.people.specs.Expr as spec;

use mail_base::is_same_name;
use memchr::memmem;

#[tactic(auto, unfolding(crate::specs::Expr::is_special))]
fn is_special(byte: u8) -> bool
    ensures { result ≡ spec.is_special byte }
{
    b"\\.+*?()[]{}|^$".contains(&byte)
}

fn has_special(text: &[u8]) -> bool
    ensures { result ≡ list_any spec.is_special text.now }
{
    text.iter().any(|byte| is_special(*byte))
}

/// Whether the text is searched for as it stands.
pub fn is_literal(text: &[u8]) -> bool
    ensures { result ≡ spec.is_literal text.now }
{
    !has_special(text)
}

fn is_capital(byte: u8) -> bool
    ensures { result ≡ is_ascii_uppercase byte }
{
    byte.is_ascii_uppercase()
}

fn has_capital(text: &[u8]) -> bool
    ensures { result ≡ list_any is_ascii_uppercase text.now }
{
    text.iter().any(|byte| is_capital(*byte))
}

/// Whether a search for the text does not regard case.
pub fn is_folded(text: &[u8]) -> bool
    ensures { result ≡ spec.is_folded text.now }
{
    !has_capital(text)
}

fn stands_in(literal: &[u8], text: &[u8]) -> bool
    ensures { result ≡ spec.stands_in literal.now text.now }
{
    memmem::find(text, literal).is_some()
}

// Whether the literal stands at the place, but for ASCII case.
fn stands_folded_at(literal: &[u8], text: &[u8], at: usize) -> bool
    requires { at ≤ length text.now }
    ensures { result ≡ occurs_at (str_to_ascii_lowercase text.now)
        (str_to_ascii_lowercase literal.now) at }
{
    let (_, rest) = text.split_at(at);
    if rest.len() < literal.len() {
        return false;
    }
    let (front, _) = rest.split_at(literal.len());
    is_same_name(front, literal)
}

fn stands_folded(literal: &[u8], text: &[u8]) -> bool
    ensures { result
        ≡ spec.stands_in (str_to_ascii_lowercase literal.now) (str_to_ascii_lowercase text.now) }
{
    for at in 0..text.len() + 1 {
        if stands_folded_at(literal, text, at) {
            return true;
        }
    }
    false
}

/// Whether the literal stands in the text.
pub fn literal_found(literal: &[u8], text: &[u8]) -> bool
    ensures { result ≡ spec.literal_found literal.now text.now }
{
    if is_folded(literal) {
        stands_folded(literal, text)
    } else {
        stands_in(literal, text)
    }
}
