//! What is typed at prompts.

ghost use Rattle.std.specs.Prelude.{◌≡◌, ◌++◌, OnOk};
ghost use Rattle.std.specs.Str.{encode_utf8_all};

use crate::asking::{Asking, BACKSPACE, ENTER, GIVE_UP};
use crate::reply::Reply;
use keymap::Key;
use mail_base::{Line, NoMemory};
use std::alloc::Global;
use std::marker::Model;

/// A prompt, and what was typed at it so far.
#[derive(Drop)]
pub struct Prompt {
    asking: Asking,
    typed: Vec<char>,
}

impl Model for Prompt {
    ghost use Rattle.prompts.specs.Prompts.{PlainPrompt};

    ghost Value = { PlainPrompt };

    ghost view = { λ p. record { asking = p.asking; typed = p.typed.items } };
}

fn append_chars(line: &mut Line, chars: &[char]) -> Result<(), NoMemory>
    ensures { OnOk result (line.new.items ≡ line.old.items ++ encode_utf8_all chars.now) }
{
    let mut left = chars;
    while let [first, rest @ ..] = left {
        line.push_char(*first)?;
        left = rest;
    }
    Ok(())
}

impl Prompt {
    ghost use Rattle.std.specs.Prelude.{◌≡◌, ◌++◌, [], IfOk, OnErr, OnOk};
    ghost use Rattle.prompts.specs.Prompts as spec;

    /// A prompt at which nothing was typed yet.
    pub fn new(alloc: Global, asking: Asking) -> Prompt
        ensures { result ≡ record { asking = asking; typed = [] } }
    {
        Prompt {
            asking,
            typed: Vec::new(alloc),
        }
    }

    /// What the prompt asks.
    pub fn asking(&self) -> Asking
        ensures { result ≡ self.now.asking }
    {
        self.asking
    }

    /// Takes a key.
    pub fn take_key(&mut self, key: Key) -> Result<Reply, NoMemory>
        ensures reply { IfOk result (λ reply. reply ≡ spec.reply_to self.old.asking key) }
        ensures typed { OnOk result
            (self.new ≡ record self.old { typed = spec.typed_with self.old key }) }
        ensures err { OnErr result (self.new ≡ self.old) }
    {
        match key {
            Key::Char(c) => self.take_char(c),
            _ => Ok(Reply::More),
        }
    }

    fn take_char(&mut self, c: char) -> Result<Reply, NoMemory>
        ensures reply { IfOk result (λ reply. reply ≡ spec.reply_to_char self.old.asking c) }
        ensures typed { OnOk result
            (self.new ≡ record self.old { typed = spec.typed_with_char self.old c }) }
        ensures err { OnErr result (self.new ≡ self.old) }
    {
        if self.asking.is_of_one_key() || c == ENTER || c == GIVE_UP {
            return Ok(self.asking.reply(c));
        }
        if c == BACKSPACE {
            self.typed.pop();
        } else {
            self.typed.push(c)?;
        }
        Ok(Reply::More)
    }

    /// What was typed.
    pub fn text(&self, alloc: Global) -> Result<Line, NoMemory>
        ensures { IfOk result (λ line. line.items ≡ spec.text_of self.now) }
    {
        let mut line = Line::new(alloc);
        append_chars(&mut line, &self.typed)?;
        Ok(line)
    }

    /// Adds the prompt as it is shown, with what was typed.
    pub fn append_shown(&self, alloc: Global, line: &mut Line) -> Result<(), NoMemory>
        ensures { OnOk result (line.new.items ≡ line.old.items ++ spec.shown self.now) }
    {
        self.asking.append_text(alloc, line)?;
        append_chars(line, &self.typed)
    }
}
