//! Escape forms, which terminals send for keys without a character (ECMA-48, section 5.4).

ghost use Rattle.std.specs.Prelude.{◌≡◌, ◌<◌, ◌&&◌, find, length, map, nat_lt, option_map};
ghost use Rattle.std.specs.List.{list_any};
ghost use Rattle.keymap.specs.Stream as spec;

use crate::key::Key;

/// The bytes of an escape form, and its key.
#[derive(Clone, Copy, Debug)]
pub struct Form(pub &'static [u8], pub Key);

static FORMS: [Form; 14] = [
    Form(b"\x1b[A", Key::Up),
    Form(b"\x1b[B", Key::Down),
    Form(b"\x1b[C", Key::Right),
    Form(b"\x1b[D", Key::Left),
    Form(b"\x1b[H", Key::Home),
    Form(b"\x1b[F", Key::End),
    Form(b"\x1b[2~", Key::Insert),
    Form(b"\x1b[3~", Key::Delete),
    Form(b"\x1b[5~", Key::PageUp),
    Form(b"\x1b[6~", Key::PageDown),
    Form(b"\x1bOP", Key::F1),
    Form(b"\x1bOQ", Key::F2),
    Form(b"\x1bOR", Key::F3),
    Form(b"\x1bOS", Key::F4),
];

fn forms() -> &'static [Form]
    ensures { map spec.plain_form result.now ≡ spec.forms }
{
    &FORMS
}

impl Form {
    /// The escape form at the front of the bytes.
    pub fn find(bytes: &[u8]) -> Option<Form>
        ensures { option_map spec.plain_form result ≡ spec.form_at bytes.now }
    {
        form_in(forms(), bytes)
    }

    // Whether the form begins with the bytes and goes on.
    fn goes_on(&self, bytes: &[u8]) -> bool
        ensures { result ≡ (nat_lt (length bytes.now) (length self.now.0.now)
            && spec.begins self.now.0.now bytes.now) }
    {
        bytes.len() < self.0.len() && self.0.starts_with(bytes)
    }
}

fn form_in(forms: &[Form], bytes: &[u8]) -> Option<Form>
    ensures { result ≡ find (λ f. spec.begins bytes.now f.0.now) forms.now }
{
    forms.iter().copied().find(|form| bytes.starts_with(form.0))
}

fn some_goes_on(forms: &[Form], bytes: &[u8]) -> bool
    ensures { result ≡ list_any (λ f. nat_lt (length bytes.now) (length f.0.now)
        && spec.begins f.0.now bytes.now) forms.now }
{
    forms.iter().any(|form| form.goes_on(bytes))
}

/// Whether some escape form begins with the bytes and goes on.
pub fn is_in_form(bytes: &[u8]) -> bool
    ensures { result ≡ spec.is_in_form bytes.now }
{
    some_goes_on(forms(), bytes)
}
