//! Texts in several pieces, in which literals and message ids are looked for without joining them:
//! put the pieces into a `Joined`.
#![tactic(auto)]

mod joined;

pub use joined::{Case, Joined};
