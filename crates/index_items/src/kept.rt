//! Lists of which some are kept.

ghost use Rattle.std.specs.Prelude.{◌≡◌};
ghost use Rattle.index_items.specs.Kept as spec;

/// Keeps those that are marked, and those that no mark stands for.
pub fn keep<T: Drop>(items: &mut Vec<T>, marks: &[bool])
    ensures { items.new.items ≡ spec.kept marks.now items.old.items }
{
    let mut place = 0;
    let mut left = marks;
    while let Some((mark, rest)) = left.split_first() {
        if place >= items.len() {
            return;
        }
        if *mark {
            place += 1;
        } else {
            items.remove(place);
        }
        left = rest;
    }
}
