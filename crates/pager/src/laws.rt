//! Laws of lines that are broken, each the contract of a function that does nothing.

ghost use Rattle.pager.specs.Laws as spec;

/// The pieces of a line, joined, are the line as it is written out; each piece but the last could
/// not take the next character; no piece is wider than the columns or has a control character; and
/// a tab ends at a multiple of eight.
pub fn lines_are_broken()
    ensures line { spec.PiecesAreTheLine }
    ensures full { spec.PiecesAreFull }
    ensures shown { spec.PiecesAreShown }
    ensures tabs { spec.TabsEndAtEights }
{}
