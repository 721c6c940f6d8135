//! What an act can change of a message.

ghost use Rattle.std.specs.Prelude.{◌≡◌};
ghost use Rattle.index_view.specs.Staying as spec;
ghost use Rattle.session_index.specs.Touched.{plain_touched};

use index_items::{Act, Mark};

/// What an act can change of a message: its flags, its mark of deletion, its tag.
#[derive(Clone, Copy)]
pub struct Touched {
    pub flags: bool,
    pub deleted: bool,
    pub tagged: bool,
}

/// All of them.
pub const EVERYTHING: Touched = Touched {
    flags: true,
    deleted: true,
    tagged: true,
};

fn touched_by(mark: Mark) -> Touched
    ensures { plain_touched result ≡ spec.touched_by mark }
{
    let deleted = matches!(mark, Mark::Deleted);
    let tagged = matches!(mark, Mark::Tagged);
    Touched {
        flags: !deleted && !tagged,
        deleted,
        tagged,
    }
}

impl Touched {
    ghost use Rattle.std.specs.Prelude.{◌≡◌};
    ghost use Rattle.index_view.specs.Staying.{touched};
    ghost use Rattle.session_index.specs.Touched.{plain_touched};

    /// What an act can change.
    pub fn by(act: Act) -> Touched
        ensures { plain_touched result ≡ touched act }
    {
        match act {
            Act::Set(mark) | Act::Clear(mark) => touched_by(mark),
            Act::TurnFlagged => touched_by(Mark::Flagged),
            Act::TurnNew => touched_by(Mark::New),
            Act::Age => touched_by(Mark::Old),
            Act::TurnTag => touched_by(Mark::Tagged),
        }
    }
}
