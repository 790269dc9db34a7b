//! The house file: what its fields are, and what is reported of the first one that is bad or cut.
#![tactic(auto)]

pub mod bad;
pub mod theorem;
mod words;
