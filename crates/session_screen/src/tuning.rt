//! What the variables say of the index.

ghost use Rattle.std.specs.Prelude.{◌≡◌, true};
ghost use Rattle.rc_lang.specs.Fits.{is_flag, is_quad};
ghost use Rattle.rc_lang.specs.Variables.{row_of};
ghost use Rattle.session_screen.specs.Tuning as spec;

use index_order::{Sort, ViewOptions};
use rc_lang::{Quad, Settings, Variable};
use threads::ThreadOptions;

/// Whether a boolean variable is set.
pub fn is_set(settings: &Settings, variable: Variable) -> bool
    requires { is_flag (row_of variable).kind ≡ true }
    ensures { result ≡ spec.is_set settings.now variable }
{
    settings.is_set(variable)
}

/// What a variable has that says yes or no, or asks.
pub fn quad_of(settings: &Settings, variable: Variable) -> Quad
    requires { is_quad (row_of variable).kind ≡ true }
    ensures { result ≡ spec.quad_of settings.now variable }
{
    settings.quad(variable)
}

// The order with a name.
fn order_named(name: &[u8]) -> Sort
    ensures { result ≡ spec.order_named name.now }
{
    if name == b"date-received".as_slice() {
        Sort::DateReceived
    } else if name == b"from".as_slice() {
        Sort::From
    } else if name == b"mailbox-order".as_slice() {
        Sort::MailboxOrder
    } else if name == b"score".as_slice() {
        Sort::Score
    } else if name == b"size".as_slice() {
        Sort::Size
    } else if name == b"subject".as_slice() {
        Sort::Subject
    } else if name == b"threads".as_slice() {
        Sort::Threads
    } else if name == b"to".as_slice() {
        Sort::To
    } else {
        Sort::DateSent
    }
}

// Threads are sorted by no threads.
fn aux_of(sort: Sort) -> Sort
    ensures { result ≡ spec.aux_of sort }
{
    match sort {
        Sort::Threads => Sort::DateSent,
        sort => sort,
    }
}

fn behind_reverse(name: &[u8]) -> &[u8]
    ensures { result.now ≡ spec.behind_reverse name.now }
{
    name.strip_prefix(b"reverse-".as_slice()).unwrap_or(name)
}

fn behind_last(name: &[u8]) -> &[u8]
    ensures { result.now ≡ spec.behind_last name.now }
{
    name.strip_prefix(b"last-".as_slice()).unwrap_or(name)
}

fn is_reversed(name: &[u8]) -> bool
    ensures { result ≡ spec.is_reversed name.now }
{
    name.starts_with(b"reverse-")
}

fn is_last(name: &[u8]) -> bool
    ensures { result ≡ spec.is_last name.now }
{
    name.starts_with(b"last-")
}

fn thread_options(settings: &Settings) -> ThreadOptions
    ensures { result ≡ (spec.options_of settings.now).threads }
{
    ThreadOptions {
        strict: is_set(settings, Variable::StrictThreads),
        reply_only: is_set(settings, Variable::SortRe),
        duplicates: is_set(settings, Variable::DuplicateThreads),
    }
}

/// How the index stands in threads and in order (Mutt's manual, "sort" and "sort_aux").
pub fn options_of(settings: &Settings) -> ViewOptions
    ensures { result ≡ spec.options_of settings.now }
{
    let sort = settings.text(Variable::Sort);
    let aux = settings.text(Variable::SortAux);
    let aux_order = behind_reverse(aux);
    ViewOptions {
        threads: thread_options(settings),
        sort: order_named(behind_reverse(sort)),
        reverse: is_reversed(sort),
        aux: aux_of(order_named(behind_last(aux_order))),
        aux_reverse: is_reversed(aux),
        aux_last: is_last(aux_order),
    }
}
