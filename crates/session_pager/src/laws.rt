//! Laws of what functions do and of last pages, each the contract of a function that does nothing.

ghost use Rattle.session_pager.specs.Laws as spec;

/// A function does something in the pager exactly where the pager's menu has it.
pub fn pager_functions_act()
    ensures { spec.PagerFunctionsAct }
{}

/// A function does something in the list of parts exactly where that menu has it.
pub fn attach_functions_act()
    ensures { spec.AttachFunctionsAct }
{}

/// The last page ends with the last line, or begins with the first.
pub fn last_page_ends_the_text()
    ensures { spec.LastPageEndsTheText }
{}
