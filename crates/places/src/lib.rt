//! Lent memory with a count of the places in use, in place of a growing list.
#![tactic(auto)]

pub mod places;
#[cfg(test)]
mod tests;
