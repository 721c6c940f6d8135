//! What no case file can say of the libraries below, as tests.
#![tactic(auto)]

#[cfg(test)]
mod tests;
