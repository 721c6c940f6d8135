//! The formats that variables have.

ghost use Rattle.std.specs.Prelude.{◌≡◌, [], IfOk, true};
ghost use Rattle.rc_lang.specs.Fits.{is_text};
ghost use Rattle.rc_lang.specs.Variables.{row_of};
ghost use Rattle.session_screen.specs.Formats as spec;

use expando::{Format, FormatError, read_format};
use mail_base::NoMemory;
use rc_lang::{ROW_LETTERS, Settings, Variable};
use std::alloc::Global;

/// The format that a variable has; one that is none shows nothing.
pub fn format_in(
    alloc: Global,
    letters: &[u8],
    settings: &Settings,
    variable: Variable,
) -> Result<Format, NoMemory>
    requires { is_text (row_of variable).kind ≡ true }
    ensures { IfOk result
        (λ format. format ≡ spec.format_in letters.now settings.now variable) }
{
    match read_format(alloc, settings.text(variable), letters) {
        Ok(format) => Ok(format),
        Err(FormatError::NoMemory) => Err(NoMemory),
        Err(FormatError::BadFormat(_)) => no_format(alloc),
    }
}

fn no_format(alloc: Global) -> Result<Format, NoMemory>
    ensures { IfOk result (λ format. format ≡ []) }
{
    match read_format(alloc, b"", ROW_LETTERS) {
        Ok(format) => Ok(format),
        Err(_) => Err(NoMemory),
    }
}
