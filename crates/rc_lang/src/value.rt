//! Values of variables.

ghost use Rattle.std.specs.Prelude.{◌≡◌, IfOk};
ghost use Rattle.rc_lang.specs.Values as spec;

use crate::quad::Quad;
use mail_base::{Bytes, Line, NoMemory, append_utf8};
use std::alloc::Global;

/// The value of a variable.
#[derive(Drop)]
pub enum Value {
    Flag(bool),
    Number(i64),
    Text(Bytes),
    Quad(Quad),
}

impl Value {
    /// The same value.
    pub fn copy(&self, alloc: Global) -> Result<Value, NoMemory>
        ensures { IfOk result (λ v. spec.plain_value v ≡ spec.plain_value self.now) }
    {
        Ok(match self {
            Value::Flag(flag) => Value::Flag(*flag),
            Value::Number(number) => Value::Number(*number),
            Value::Text(text) => Value::Text(Bytes::copy_of(alloc, text.as_slice())?),
            Value::Quad(quad) => Value::Quad(*quad),
        })
    }

    /// The text that `$name` gives.
    pub fn text(&self, alloc: Global) -> Result<Bytes, NoMemory>
        ensures { IfOk result (λ b. b.items ≡ spec.value_text (spec.plain_value self.now)) }
    {
        match self {
            Value::Flag(true) => Bytes::copy_of(alloc, b"yes"),
            Value::Flag(false) => Bytes::copy_of(alloc, b"no"),
            Value::Number(number) => Bytes::copy_of(alloc, number.to_string(alloc)?.as_bytes()),
            Value::Text(text) => Bytes::copy_of(alloc, text.as_slice()),
            Value::Quad(quad) => Bytes::copy_of(alloc, quad.text()),
        }
    }

    /// The line `name=value` that a query of the variable prints; a text stands in double quotes.
    pub fn line(&self, alloc: Global, name: &[u8]) -> Result<Line, NoMemory>
        ensures { IfOk result
            (λ l. l.items ≡ spec.shown_line name.now (spec.plain_value self.now)) }
    {
        let quote = self.quote();
        let mut line = Bytes::copy_of(alloc, name)?;
        line.push(b'=')?;
        line.append(quote)?;
        line.append(self.text(alloc)?.as_slice())?;
        line.append(quote)?;
        let mut shown = Line::new(alloc);
        append_utf8(&mut shown, line.as_slice())?;
        Ok(shown)
    }

    // What stands on both sides of the value where it is printed.
    fn quote(&self) -> &'static [u8]
        ensures { result.now ≡ spec.quote_of (spec.plain_value self.now) }
    {
        match self {
            Value::Text(_) => b"\"",
            Value::Flag(_) | Value::Number(_) | Value::Quad(_) => b"",
        }
    }
}
