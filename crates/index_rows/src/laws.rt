//! Laws of the definitions, each the contract of a function that does nothing.

ghost use Rattle.index_rows.specs.Laws.{ClocksSayTheirParts, FormatsAreShown};

/// What a clock says at the moment of a date and a time of day is that date and that time.
#[tactic(auto, using(crate::proofs::ClockLemmas::parts_at_moment))]
pub fn clocks_say_their_parts()
    ensures { ClocksSayTheirParts }
{}

/// Every format of a date is shown; none is refused.
#[tactic(auto, using(crate::proofs::ShownLemmas::formats_shown))]
pub fn formats_are_shown()
    ensures { FormatsAreShown }
{}
