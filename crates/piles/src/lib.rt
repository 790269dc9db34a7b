//! Laws of layers that lie on one another, for every kind of id, name and value.
#![tactic(auto)]

pub mod clocks;
pub mod exchanged;
pub mod windows;
