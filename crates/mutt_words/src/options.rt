//! What the command line chooses.

ghost use Rattle.std.specs.Prelude.{◌≡◌, ◌≤◌, IfOk};
ghost use Rattle.std.specs.Str.{IsUtf8, is_utf8 as is_utf8_lem};
ghost use Rattle.mail_base.specs.Decimal.{decimal_in};
ghost use Rattle.mail_base.specs.Zone.{IsOffset, numeric_zone};
ghost use Rattle.rc_lang.specs.Variables.{is_variable as is_variable_lem};
ghost use Rattle.mutt_words.specs.LongOption.{is_owner as is_owner_lem};
ghost use Rattle.mutt_words.specs.Options as spec;
ghost use Rattle.mail_base.specs.Kind.{kind_named};

use crate::error::ValueError;
use crate::long_option::{LongOption, is_owner};
use crate::short_option::ShortOption;
use crate::switch::Switch;
use mail_base::{Bytes, Kind, Words, is_utf8, read_decimal, read_zone};
use rc_lang::is_variable;
use std::alloc::Global;

/// What the command line chooses. Texts are UTF-8.
#[derive(Drop)]
pub struct Options {
    /// The folder; that of the variable `spoolfile` where there is none.
    pub folder: Option<Bytes>,
    /// The file of commands; `.muttrc`, if it is there, where there is none.
    pub rc: Option<Bytes>,
    /// Commands that are read behind the file.
    pub commands: Words,
    /// Names of variables that are printed.
    pub query: Words,
    /// The folder is only read.
    pub read_only: bool,
    /// An empty folder is not shown.
    pub skip_empty: bool,
    /// The version is printed, and nothing else is done.
    pub version: bool,
    /// The kind of new folders.
    pub kind: Option<Kind>,
    /// Lines of a screen, 6 to 200.
    pub rows: u16,
    /// Columns of a line, 20 to 500.
    pub cols: u16,
    /// Seconds east of Greenwich, of less than a day.
    pub offset: i32,
    /// What the reader's locks hold: letters and digits, at most 64.
    pub owner: Bytes,
}

impl Options {
    /// What no words choose.
    pub fn new(alloc: Global) -> Options
        ensures value { spec.plain_options result ≡ spec.no_words }
        ensures usable { spec.IsUsable result }
    {
        Options {
            folder: None,
            rc: None,
            commands: Words::new(alloc),
            query: Words::new(alloc),
            read_only: false,
            skip_empty: false,
            version: false,
            kind: None,
            rows: 24,
            cols: 80,
            offset: 0,
            owner: Bytes::new(alloc),
        }
    }

    pub fn turn_on(&mut self, switch: Switch)
        requires usable { spec.IsUsable self.old }
        ensures value { spec.plain_options self.new
            ≡ spec.turned_on (spec.plain_options self.old) switch }
        ensures usable { spec.IsUsable self.new }
    {
        match switch {
            Switch::NoSystemFile => {}
            Switch::ReadOnly => self.read_only = true,
            Switch::SkipEmpty => self.skip_empty = true,
            Switch::Version => self.version = true,
        }
    }

    /// Takes the value of an option of a letter.
    pub fn take_short(
        &mut self,
        alloc: Global,
        option: ShortOption,
        value: &[u8],
    ) -> Result<(), ValueError>
        requires usable { spec.IsUsable self.old }
        ensures takes { spec.Takes result
            (spec.with_short (spec.plain_options self.old) option value.now)
            (spec.plain_options self.new) }
        ensures usable { spec.IsUsable self.new }
    {
        match option {
            ShortOption::Folder => self.folder = Some(text(alloc, value)?),
            ShortOption::RcFile => self.rc = Some(text(alloc, value)?),
            ShortOption::Command => self.commands.push(text(alloc, value)?)?,
            ShortOption::FolderKind => self.kind = Some(known_kind(value)?),
            ShortOption::Query => self.query.push(variable_name(alloc, value)?)?,
        }
        Ok(())
    }

    /// Takes the value of an option of a name.
    pub fn take_long(
        &mut self,
        alloc: Global,
        option: LongOption,
        value: &[u8],
    ) -> Result<(), ValueError>
        requires usable { spec.IsUsable self.old }
        ensures takes { spec.Takes result
            (spec.with_long (spec.plain_options self.old) option value.now)
            (spec.plain_options self.new) }
        ensures usable { spec.IsUsable self.new }
    {
        match option {
            LongOption::Rows => self.rows = number(value, 6, 200)?,
            LongOption::Cols => self.cols = number(value, 20, 500)?,
            LongOption::Offset => self.offset = offset(value)?,
            LongOption::Owner => self.owner = owner(alloc, value)?,
        }
        Ok(())
    }
}

fn text(alloc: Global, value: &[u8]) -> Result<Bytes, ValueError>
    ensures value { spec.Gives (λ copy. copy.items) result
        (spec.if_passes is_utf8_lem value.now) }
    ensures utf8 { IfOk result (λ copy. IsUtf8 copy.items) }
{
    if !is_utf8(value) {
        return Err(ValueError::Bad);
    }
    Ok(Bytes::copy_of(alloc, value)?)
}

fn known_kind(name: &[u8]) -> Result<Kind, ValueError>
    ensures { spec.Gives (λ kind. kind) result (kind_named name.now) }
{
    match Kind::named(name) {
        Some(kind) => Ok(kind),
        None => Err(ValueError::Bad),
    }
}

fn variable_name(alloc: Global, name: &[u8]) -> Result<Bytes, ValueError>
    ensures { spec.Gives (λ copy. copy.items) result (spec.if_passes is_variable_lem name.now) }
{
    if !is_variable(name) {
        return Err(ValueError::Bad);
    }
    Ok(Bytes::copy_of(alloc, name)?)
}

fn owner(alloc: Global, word: &[u8]) -> Result<Bytes, ValueError>
    ensures { spec.Gives (λ copy. copy.items) result (spec.if_passes is_owner_lem word.now) }
{
    if !is_owner(word) {
        return Err(ValueError::Bad);
    }
    Ok(Bytes::copy_of(alloc, word)?)
}

// A number of decimal digits alone, from `low` to `high`.
fn number(text: &[u8], low: u16, high: u16) -> Result<u16, ValueError>
    ensures value { spec.Gives (λ number. number) result (decimal_in low high text.now) }
    ensures low { IfOk result (λ number. low ≤ number) }
    ensures high { IfOk result (λ number. number ≤ high) }
{
    match read_decimal(text, u32::from(low), u32::from(high)) {
        Some(number) => Ok(number as u16),
        None => Err(ValueError::Bad),
    }
}

fn offset(text: &[u8]) -> Result<i32, ValueError>
    ensures value { spec.Gives (λ offset. offset) result (numeric_zone text.now) }
    ensures bound { IfOk result IsOffset }
{
    match read_zone(text) {
        Some(offset) => Ok(offset),
        None => Err(ValueError::Bad),
    }
}
