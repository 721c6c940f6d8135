//! What a scan makes of a listing, and that this is what it listed: a law as the contract of a
//! function that does nothing, with the lemmas on which the session stands.
#![tactic(auto)]

mod laws;

pub use laws::listing_is_scanned;
