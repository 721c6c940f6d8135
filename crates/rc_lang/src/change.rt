//! What a change makes of a value.

ghost use Rattle.std.specs.Prelude.{◌≡◌, ok_or, option_map};
ghost use Rattle.rc_lang_words.specs.declared.fault.RcFault.TheVariants as fault;
ghost use Rattle.rc_lang.specs.Changes as spec;
ghost use Rattle.rc_lang.specs.Requests.{plain_change};
ghost use Rattle.rc_lang.specs.Values.{plain_value};
ghost use Rattle.rc_lang.specs.Variables.{plain_kind};

use crate::kind::Kind;
use crate::quad::Quad;
use crate::request::Change;
use crate::value::Value;
use rc_lang_words::RcFault;
use std::alloc::Global;

// What `set` without a value makes of it.
fn set_value(value: &Value) -> Option<Value>
    ensures { option_map plain_value result ≡ spec.set_value (plain_value value.now) }
{
    match value {
        Value::Flag(_) => Some(Value::Flag(true)),
        Value::Quad(_) => Some(Value::Quad(Quad::Yes)),
        Value::Number(_) | Value::Text(_) => None,
    }
}

fn unset_value(value: &Value) -> Option<Value>
    ensures { option_map plain_value result ≡ spec.unset_value (plain_value value.now) }
{
    match value {
        Value::Flag(_) => Some(Value::Flag(false)),
        Value::Quad(_) => Some(Value::Quad(Quad::No)),
        Value::Number(_) | Value::Text(_) => None,
    }
}

fn toggled_value(value: &Value) -> Option<Value>
    ensures { option_map plain_value result ≡ spec.toggled_value (plain_value value.now) }
{
    match value {
        Value::Flag(flag) => Some(Value::Flag(!*flag)),
        Value::Quad(quad) => Some(Value::Quad(quad.opposite())),
        Value::Number(_) | Value::Text(_) => None,
    }
}

fn value_or_fault(value: Option<Value>) -> Result<Value, RcFault>
    ensures { spec.Gives result (ok_or (option_map plain_value value) fault.WrongKind) }
{
    match value {
        Some(value) => Ok(value),
        None => Err(RcFault::WrongKind),
    }
}

/// What the change makes of a value of the kind.
pub fn changed_value(
    alloc: Global,
    kind: Kind,
    change: Change<'_>,
    value: &Value,
) -> Result<Value, RcFault>
    ensures { spec.Gives result
        (spec.changed_value (plain_kind kind) (plain_change change.entry) (plain_value value.now)) }
{
    match change {
        Change::Set => value_or_fault(set_value(value)),
        Change::Unset => value_or_fault(unset_value(value)),
        Change::Toggle => value_or_fault(toggled_value(value)),
        Change::Reset => Ok(kind.default_value(alloc)?),
        Change::Assign(text) => kind.read(alloc, text),
    }
}
