//! Cases of names of functions and the menus that have them.

use case_files::{Answer, Case, CaseFault, Subject};
use keymap::{Menu, function_named};
use std::alloc::Global;

/// `name` is a name; `found` says whether it is that of a function, and each menu whether it has
/// the function.
pub struct KeyFunctions;

impl Subject for KeyFunctions {
    fn inputs(&self) -> &[&[u8]] {
        &[b"name"]
    }

    fn answer(&self, alloc: Global, case: &Case, answer: &mut Answer) -> Result<(), CaseFault> {
        let Some(function) = function_named(case.need(b"name")?) else {
            answer.put_flag(b"found", false)?;
            return Ok(());
        };
        answer.put_flag(b"found", true)?;
        answer.put(b"name_of", function.name())?;
        answer.put_flag(b"index", Menu::Index.has(function))?;
        answer.put_flag(b"pager", Menu::Pager.has(function))?;
        answer.put_flag(b"attach", Menu::Attach.has(function))?;
        answer.put_flag(b"generic", Menu::Generic.has(function))
    }
}
