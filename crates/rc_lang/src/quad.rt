//! Values that say yes or no, or ask.

ghost use Rattle.std.specs.Prelude.{◌≡◌};
ghost use Rattle.rc_lang.specs.Quads as spec;

/// Yes, no, or a question with the answer that Enter gives.
#[derive(Clone, Copy, Debug, PartialEq, Eq)]
pub enum Quad {
    Yes,
    No,
    AskYes,
    AskNo,
}

impl Quad {
    pub fn text(self) -> &'static [u8]
        ensures { result.now ≡ spec.quad_text self }
    {
        match self {
            Quad::Yes => b"yes",
            Quad::No => b"no",
            Quad::AskYes => b"ask-yes",
            Quad::AskNo => b"ask-no",
        }
    }

    pub fn from_text(text: &[u8]) -> Option<Quad>
        ensures { result ≡ spec.quad_of text.now }
    {
        if text == b"yes".as_slice() {
            return Some(Quad::Yes);
        }
        if text == b"no".as_slice() {
            return Some(Quad::No);
        }
        if text == b"ask-yes".as_slice() {
            return Some(Quad::AskYes);
        }
        if text == b"ask-no".as_slice() {
            return Some(Quad::AskNo);
        }
        None
    }

    /// Yes and no exchanged; a question stays one.
    pub fn opposite(self) -> Quad
        ensures { result ≡ spec.opposite_quad self }
    {
        match self {
            Quad::Yes => Quad::No,
            Quad::No => Quad::Yes,
            Quad::AskYes => Quad::AskNo,
            Quad::AskNo => Quad::AskYes,
        }
    }
}
