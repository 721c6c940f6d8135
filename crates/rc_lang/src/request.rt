//! What a word of `set`, `unset`, `toggle` or `reset` asks for.

ghost use Rattle.std.specs.Prelude.{◌≡◌, ◌==◌, ◌<◌, length, position, IfSome};
ghost use Rattle.rc_lang.specs.Requests as spec;

/// A command that changes variables.
#[derive(Clone, Copy, Debug, PartialEq, Eq)]
pub enum SetCommand {
    Set,
    Unset,
    Toggle,
    Reset,
}

/// What becomes of a variable.
#[derive(Clone, Copy, Debug)]
pub enum Change<'a> {
    Set,
    Unset,
    Toggle,
    Reset,
    Assign(&'a [u8]),
}

/// A change of the variable with the name; without a change it is shown.
#[derive(Clone, Copy, Debug)]
pub struct Request<'a> {
    pub name: &'a [u8],
    pub change: Option<Change<'a>>,
}

impl SetCommand {
    pub fn from_word(word: &[u8]) -> Option<SetCommand>
        ensures { result ≡ spec.set_command_of word.now }
    {
        if word == b"set".as_slice() {
            return Some(SetCommand::Set);
        }
        if word == b"unset".as_slice() {
            return Some(SetCommand::Unset);
        }
        if word == b"toggle".as_slice() {
            return Some(SetCommand::Toggle);
        }
        if word == b"reset".as_slice() {
            return Some(SetCommand::Reset);
        }
        None
    }
}

fn equals_at(word: &[u8]) -> Option<usize>
    ensures value { result ≡ position (λ b. b == 61) word.now }
    ensures within { IfSome result (λ at. at < length word.now) }
{
    word.iter().position(|b| *b == b'=')
}

fn without_value(word: &[u8]) -> &[u8]
    ensures { result.now ≡ spec.without_value word.now }
{
    match equals_at(word) {
        Some(at) => word.split_at(at).0,
        None => word,
    }
}

/// The variable's name without `no`, `inv`, `&`, `?` and value, as faults tell it.
pub fn bare_name(word: &[u8]) -> &[u8]
    ensures { result.now ≡ spec.bare_name word.now }
{
    Request::with_prefix(without_value(word)).name
}

impl<'a> Request<'a> {
    fn new(name: &'a [u8], change: Change<'a>) -> Request<'a>
        ensures { spec.plain_request result
            ≡ spec.request name.now (spec.plain_change change.entry) }
    {
        Request {
            name,
            change: Some(change),
        }
    }

    // What a word of `set` without a value asks for.
    fn with_prefix(word: &'a [u8]) -> Request<'a>
        ensures { spec.plain_request result ≡ spec.prefix_request word.now }
    {
        if word.starts_with(b"no") {
            return Request::new(&word[2..], Change::Unset);
        }
        if word.starts_with(b"inv") {
            return Request::new(&word[3..], Change::Toggle);
        }
        if word.starts_with(b"&") {
            return Request::new(&word[1..], Change::Reset);
        }
        if word.starts_with(b"?") {
            return Request {
                name: &word[1..],
                change: None,
            };
        }
        Request::new(word, Change::Set)
    }

    // What a word of `set` asks for.
    fn of_set(word: &'a [u8]) -> Request<'a>
        ensures { spec.plain_request result ≡ spec.set_request word.now }
    {
        match equals_at(word) {
            Some(at) => Request::new(&word[..at], Change::Assign(&word[at + 1..])),
            None => Request::with_prefix(word),
        }
    }

    /// What a word of the command asks for.
    pub fn read(command: SetCommand, word: &'a [u8]) -> Request<'a>
        ensures { spec.plain_request result ≡ spec.request_of command word.now }
    {
        match command {
            SetCommand::Set => Request::of_set(word),
            SetCommand::Unset => Request::new(word, Change::Unset),
            SetCommand::Toggle => Request::new(word, Change::Toggle),
            SetCommand::Reset => Request::new(word, Change::Reset),
        }
    }
}
