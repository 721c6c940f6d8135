//! The types of variables, with their defaults.

ghost use Rattle.std.specs.Prelude.{◌≡◌, IfOk};
ghost use Rattle.rc_lang.specs.Changes as spec;
ghost use Rattle.rc_lang.specs.Values.{plain_value};
ghost use Rattle.rc_lang.specs.Variables.{plain_kind};

use crate::number::number_within;
use crate::quad::Quad;
use crate::rule::Rule;
use crate::value::Value;
use mail_base::{Bytes, NoMemory};
use rc_lang_words::RcFault;
use std::alloc::Global;

/// The type of a variable, with its default.
#[derive(Clone, Copy, Debug)]
pub enum Kind {
    Flag(bool),
    /// The default, and the greatest value; the least is 0.
    Number(u32, u32),
    Quad(Quad),
    Text(Rule, &'static [u8]),
}

impl Kind {
    /// The default value.
    pub fn default_value(self, alloc: Global) -> Result<Value, NoMemory>
        ensures { IfOk result (λ v. plain_value v ≡ spec.default_of (plain_kind self)) }
    {
        Ok(match self {
            Kind::Flag(flag) => Value::Flag(flag),
            Kind::Number(number, _) => Value::Number(i64::from(number)),
            Kind::Quad(quad) => Value::Quad(quad),
            Kind::Text(_, text) => Value::Text(Bytes::copy_of(alloc, text)?),
        })
    }

    /// The value that a text names.
    pub fn read(self, alloc: Global, text: &[u8]) -> Result<Value, RcFault>
        ensures { spec.Gives result (spec.value_named (plain_kind self) text.now) }
    {
        match self {
            Kind::Flag(_) => Err(RcFault::WrongKind),
            Kind::Number(_, most) => match number_within(most, text) {
                Some(number) => Ok(Value::Number(i64::from(number))),
                None => Err(RcFault::BadValue),
            },
            Kind::Quad(_) => match Quad::from_text(text) {
                Some(quad) => Ok(Value::Quad(quad)),
                None => Err(RcFault::BadValue),
            },
            Kind::Text(rule, _) => {
                rule.judge(alloc, text)?;
                Ok(Value::Text(Bytes::copy_of(alloc, text)?))
            }
        }
    }
}
