//! Whether what is searched for is found in a text.

ghost use Rattle.std.specs.Prelude.{◌≡◌, true, IfOk, IsOk};
ghost use Rattle.joined_texts.specs.Joined.{joined};
ghost use Rattle.people.specs.Expr.{literal_found};
ghost use Rattle.patterns_match.specs.Sought.{is_sought_literal, sought_found};

use crate::asked::Sought;
use joined_texts::Joined;
use mail_base::NoMemory;
use people::literal_found;
use std::alloc::Global;

// Whether a literal stands in a text.
#[tactic(auto, using(crate::proofs::LiteralLemmas::found_by_case))]
fn literal_in(text: Joined<'_>, literal: &[u8]) -> bool
    ensures { result ≡ literal_found literal.now (joined text.entry) }
{
    text.holds(literal)
}

impl Sought {
    /// Whether it is found in a text.
    pub fn is_found(&self, text: &[u8]) -> Result<bool, NoMemory>
        ensures value { IfOk result (λ found. found ≡ sought_found self.now text.now) }
        ensures memory { is_sought_literal self.now ≡ true → IsOk result }
    {
        match self {
            Sought::Plain(literal) => Ok(literal_found(literal.as_slice(), text)),
            Sought::Expression(expr) => expr.search(text),
        }
    }

    /// The same in a text of several pieces, which are joined where it is no literal.
    pub fn is_found_in(&self, alloc: Global, text: Joined<'_>) -> Result<bool, NoMemory>
        ensures value { IfOk result (λ found. found ≡ sought_found self.now (joined text.entry)) }
        ensures memory { is_sought_literal self.now ≡ true → IsOk result }
    {
        match self {
            Sought::Plain(literal) => Ok(literal_in(text, literal.as_slice())),
            Sought::Expression(expr) => match expr.literal() {
                Some(literal) => Ok(literal_in(text, literal)),
                None => expr.search(text.copy(alloc)?.as_slice()),
            },
        }
    }
}
