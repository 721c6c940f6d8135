//! The letters of patterns (Mutt's manual, "Pattern Modifier").

ghost use Rattle.std.specs.Prelude.{◌≡◌};
ghost use Rattle.patterns_match.specs.Letters.{letter_of};

/// What a letter without an argument asks of a message.
#[derive(Clone, Copy, Debug, PartialEq, Eq)]
pub enum Mark {
    All,
    Deleted,
    Flagged,
    New,
    /// Old and unread.
    Old,
    Replied,
    Read,
    Tagged,
    Unread,
    /// To a known list.
    KnownList,
    /// To a list that the reader subscribes to.
    Subscribed,
    ToMe,
    FromMe,
    /// In a thread that is shut.
    Collapsed,
    /// With the id of an earlier message.
    Duplicate,
    Childless,
}

/// Where an expression is searched for.
#[derive(Clone, Copy, Debug, PartialEq, Eq)]
pub enum Field {
    Body,
    /// Header and body.
    Whole,
    /// Each header line.
    Header,
    Cc,
    /// To and Cc.
    Recipients,
    To,
    From,
    Sender,
    /// From, Sender, To and Cc.
    Anyone,
    Id,
    Subject,
    References,
    Label,
    ContentType,
}

/// Which date lies in a range of days.
#[derive(Clone, Copy, Debug, PartialEq, Eq)]
pub enum Day {
    Sent,
    Received,
}

/// Which number lies in a range.
#[derive(Clone, Copy, Debug, PartialEq, Eq)]
pub enum Number {
    /// The number of the message.
    Place,
    Score,
    Attachments,
    Bytes,
}

/// What a letter stands for, by the argument that it takes.
#[derive(Clone, Copy, Debug, PartialEq, Eq)]
pub enum Letter {
    /// No argument.
    Tells(Mark),
    /// An expression.
    Searches(Field),
    /// A range of days.
    Dated(Day),
    /// A range of numbers.
    Counts(Number),
}

/// What a letter stands for, if it is one.
#[tactic(auto, unfolding(crate::specs::Letters::letter_of, crate::specs::Letters::rows))]
pub fn read_letter(sign: u8) -> Option<Letter>
    ensures { result ≡ letter_of sign }
{
    match sign {
        b'A' => Some(Letter::Tells(Mark::All)),
        b'b' => Some(Letter::Searches(Field::Body)),
        b'B' => Some(Letter::Searches(Field::Whole)),
        b'h' => Some(Letter::Searches(Field::Header)),
        b'c' => Some(Letter::Searches(Field::Cc)),
        b'C' => Some(Letter::Searches(Field::Recipients)),
        b't' => Some(Letter::Searches(Field::To)),
        b'f' => Some(Letter::Searches(Field::From)),
        b'e' => Some(Letter::Searches(Field::Sender)),
        b'L' => Some(Letter::Searches(Field::Anyone)),
        b'd' => Some(Letter::Dated(Day::Sent)),
        b'r' => Some(Letter::Dated(Day::Received)),
        b'D' => Some(Letter::Tells(Mark::Deleted)),
        b'F' => Some(Letter::Tells(Mark::Flagged)),
        b'N' => Some(Letter::Tells(Mark::New)),
        b'O' => Some(Letter::Tells(Mark::Old)),
        b'Q' => Some(Letter::Tells(Mark::Replied)),
        b'R' => Some(Letter::Tells(Mark::Read)),
        b'T' => Some(Letter::Tells(Mark::Tagged)),
        b'U' => Some(Letter::Tells(Mark::Unread)),
        b'i' => Some(Letter::Searches(Field::Id)),
        b's' => Some(Letter::Searches(Field::Subject)),
        b'x' => Some(Letter::Searches(Field::References)),
        b'y' => Some(Letter::Searches(Field::Label)),
        b'l' => Some(Letter::Tells(Mark::KnownList)),
        b'u' => Some(Letter::Tells(Mark::Subscribed)),
        b'p' => Some(Letter::Tells(Mark::ToMe)),
        b'P' => Some(Letter::Tells(Mark::FromMe)),
        b'm' => Some(Letter::Counts(Number::Place)),
        b'n' => Some(Letter::Counts(Number::Score)),
        b'X' => Some(Letter::Counts(Number::Attachments)),
        b'z' => Some(Letter::Counts(Number::Bytes)),
        b'M' => Some(Letter::Searches(Field::ContentType)),
        b'v' => Some(Letter::Tells(Mark::Collapsed)),
        b'=' => Some(Letter::Tells(Mark::Duplicate)),
        b'$' => Some(Letter::Tells(Mark::Childless)),
        _ => None,
    }
}
