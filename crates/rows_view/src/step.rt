//! The steps of a case, by the roles of its entries.

/// A step of a case.
#[derive(Clone, Copy)]
pub enum Step {
    /// What the view began with.
    Nothing,
    Options,
    Limit,
    Alter,
    Tag(bool),
    Collapse(bool),
    Settle,
    Person,
    Alias,
    Score,
    DropScores,
    /// A question with the answer that is expected.
    Ask,
}

/// The step that an entry of this role is.
pub fn step_of(role: &[u8]) -> Step {
    match role {
        b"case" | b"source" | b"mbox" | b"names" | b"settings" => Step::Nothing,
        b"options" => Step::Options,
        b"limit" => Step::Limit,
        b"alter" => Step::Alter,
        b"tag" => Step::Tag(true),
        b"untag" => Step::Tag(false),
        b"shut" => Step::Collapse(true),
        b"open" => Step::Collapse(false),
        b"settle" => Step::Settle,
        b"person" => Step::Person,
        b"alias" => Step::Alias,
        b"score" => Step::Score,
        b"noscores" => Step::DropScores,
        _ => Step::Ask,
    }
}

/// A question of a case.
#[derive(Clone, Copy)]
pub enum Question {
    Move,
    Pick,
    Cursor,
    Ordered,
    Visible,
    Row,
    Parent,
    Thread,
    Changes,
    Expand,
    Line,
    Lines,
    Unknown,
}

/// The question that an entry of this role asks.
pub fn question_of(role: &[u8]) -> Question {
    match role {
        b"cursor" => Question::Move,
        b"pick" => Question::Pick,
        b"cursor?" => Question::Cursor,
        b"ordered" => Question::Ordered,
        b"visible" => Question::Visible,
        b"row" => Question::Row,
        b"parent" => Question::Parent,
        b"thread" => Question::Thread,
        b"changes" => Question::Changes,
        b"expand" => Question::Expand,
        b"line" => Question::Line,
        b"lines" => Question::Lines,
        _ => Question::Unknown,
    }
}
