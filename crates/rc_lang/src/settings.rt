//! The values of the variables, and the commands that change them.

ghost use Rattle.std.specs.Prelude.{◌≡◌, ◌⊎◌, Some, true, option_map, IfOk, IfErr};
ghost use Rattle.mail_base.specs.Series.{plain_texts};
ghost use Rattle.rc_lang.specs.Requests.{bare_name, plain_request, request_of};
ghost use Rattle.rc_lang.specs.Settings as spec;
ghost use Rattle.rc_lang.specs.Fits as fit;
ghost use Rattle.rc_lang.specs.Values as value;
ghost use Rattle.rc_lang.specs.Values.{plain_value};
ghost use Rattle.rc_lang.specs.Variables.{place_of, row_of};

use crate::change::changed_value;
use crate::quad::Quad;
use crate::request::{Request, SetCommand, bare_name};
use crate::value::Value;
use crate::variable::{COUNT, Row, Variable, find_variable, row_at};
use mail_base::{Bytes, Line, NoMemory, Words};
use rc_lang_words::{RcError, RcFault};
use std::alloc::Global;
use std::marker::Model;

/// The values of all variables, which contracts see in the order of `Variable`.
#[derive(Drop)]
pub struct Settings {
    alloc: Global,
    values: Vec<Value>,
}

impl Model for Settings {
    ghost use Rattle.std.specs.Prelude.{◌≡◌, true, List, map, vec_len};
    ghost use Rattle.rc_lang.specs.Fits.{all_fit};
    ghost use Rattle.rc_lang.specs.Values.{PlainValue, plain_value};
    ghost use Rattle.rc_lang.specs.Variables.{rows};

    ghost Value = { List PlainValue };

    ghost view = { λ s. map plain_value s.values.items };

    ghost invariant = { λ s. (vec_len s.values ≡ 44)
        × (all_fit rows (map plain_value s.values.items) ≡ true) };
}

impl Settings {
    /// Every variable has its default.
    pub fn new(alloc: Global) -> Result<Settings, NoMemory>
        ensures { IfOk result (λ s. s ≡ spec.defaults) }
    {
        let mut values = Vec::with_capacity(alloc, COUNT)?;
        for place in 0..COUNT {
            let Row(_, kind) = row_at(place);
            values.push(kind.default_value(alloc)?)?;
        }
        Ok(Settings { alloc, values })
    }

    /// The value of a variable, without a search.
    pub fn value(&self, variable: Variable) -> &Value
        ensures value { Some (plain_value result.now) ≡ spec.value_of self.now variable }
        ensures fits { fit.fits (row_of variable).kind (plain_value result.now) ≡ true }
    {
        &self.values[variable.place()]
    }

    /// Whether a boolean variable is set.
    pub fn is_set(&self, variable: Variable) -> bool
        requires { fit.is_flag (row_of variable).kind ≡ true }
        ensures { Some (value.Flag result) ≡ spec.value_of self.now variable }
    {
        match self.value(variable) {
            Value::Flag(flag) => *flag,
            _ => unreachable!(),
        }
    }

    /// The value of a number variable, from 0 on.
    pub fn number(&self, variable: Variable) -> i64
        requires { fit.is_number (row_of variable).kind ≡ true }
        ensures value { Some (value.Number result) ≡ spec.value_of self.now variable }
        ensures within { fit.is_within (fit.most_of (row_of variable).kind) result ≡ true }
    {
        match self.value(variable) {
            Value::Number(number) => *number,
            _ => unreachable!(),
        }
    }

    /// The value of a variable that says yes or no, or asks.
    pub fn quad(&self, variable: Variable) -> Quad
        requires { fit.is_quad (row_of variable).kind ≡ true }
        ensures { Some (value.Quad result) ≡ spec.value_of self.now variable }
    {
        match self.value(variable) {
            Value::Quad(quad) => *quad,
            _ => unreachable!(),
        }
    }

    /// The value of a text variable.
    pub fn text(&self, variable: Variable) -> &[u8]
        requires { fit.is_text (row_of variable).kind ≡ true }
        ensures { Some (value.Text result.now) ≡ spec.value_of self.now variable }
    {
        match self.value(variable) {
            Value::Text(text) => text.as_slice(),
            _ => unreachable!(),
        }
    }

    // Changes or shows the variable.
    fn answer(&mut self, request: Request<'_>) -> Result<Option<Line>, RcFault>
        ensures { spec.IsAnswered self.old self.new result
            (spec.answer_of self.old (plain_request request.entry)) }
    {
        let Some(place) = find_variable(request.name) else {
            return Err(RcFault::UnknownVariable);
        };
        let Row(name, kind) = row_at(place);
        match request.change {
            None => Ok(Some(self.values[place].line(self.alloc, name)?)),
            Some(change) => {
                let value = changed_value(self.alloc, kind, change, &self.values[place])?;
                self.values[place] = value;
                Ok(None)
            }
        }
    }

    // Does what one word asks for.
    fn take_word(&mut self, command: SetCommand, word: &[u8]) -> Result<Option<Line>, RcError>
        ensures { spec.IsTaken self.old self.new result
            (spec.answer_of self.old (request_of command word.now)) (bare_name word.now) }
    {
        let fault = match self.answer(Request::read(command, word)) {
            Ok(shown) => return Ok(shown),
            Err(fault) => fault,
        };
        Err(RcError::new(self.alloc, fault, bare_name(word)))
    }

    // Does what the words ask for in turn, up to a faulty one.
    fn take_words(&mut self, command: SetCommand, words: &[Bytes]) -> Result<Option<Line>, RcError>
        ensures { spec.IsRun command self.old self.new result (spec.plain_names words.now) }
    {
        let mut shown = None;
        let mut left = words;
        while let Some((word, rest)) = left.split_first() {
            let line = self.take_word(command, word.as_slice())?;
            shown = later_line(shown, line);
            left = rest;
        }
        Ok(shown)
    }

    /// Runs a command of `set`, `unset`, `toggle` or `reset`, and gives the line of the last
    /// `?name`. The words before a
    /// faulty one stay applied, and nothing else changes; want of memory may come at any word. No
    /// words are no command.
    pub fn apply(&mut self, words: &Words) -> Result<Option<Line>, RcError>
        ensures answer { spec.Answers spec.plain_shown result
            (spec.outcome self.old (plain_texts words.now)).answer }
        ensures settings { spec.IsWant result
            ⊎ (self.new ≡ (spec.outcome self.old (plain_texts words.now)).values) }
        ensures kept { IfErr result
            (λ e. spec.TakesFront self.old (plain_texts words.now) self.new) }
    {
        let Some((first, rest)) = words.as_slice().split_first() else {
            return Ok(None);
        };
        let Some(command) = SetCommand::from_word(first.as_slice()) else {
            return Err(RcError::new(self.alloc, RcFault::UnknownCommand, first.as_slice()));
        };
        self.take_words(command, rest)
    }

    /// The value of the variable with the name.
    pub(crate) fn find_value(&self, name: &[u8]) -> Option<&Value>
        ensures { option_map (λ v. plain_value v.now) result
            ≡ spec.value_at self.now (place_of name.now) }
    {
        match find_variable(name) {
            Some(place) => Some(&self.values[place]),
            None => None,
        }
    }

    /// A copy of the value of the variable with the name.
    pub fn query(&self, alloc: Global, name: &[u8]) -> Result<Value, RcError>
        ensures { spec.Answers plain_value result (spec.queried_value self.now name.now) }
    {
        let Some(value) = self.find_value(name) else {
            return Err(RcError::new(alloc, RcFault::UnknownVariable, name));
        };
        match value.copy(alloc) {
            Ok(value) => Ok(value),
            Err(NoMemory) => Err(RcError::no_memory(alloc)),
        }
    }
}

// The later line, if there is one.
fn later_line(shown: Option<Line>, line: Option<Line>) -> Option<Line>
    ensures { spec.plain_shown result
        ≡ spec.later_line (spec.plain_shown shown) (spec.plain_shown line) }
{
    match line {
        Some(line) => Some(line),
        None => shown,
    }
}
