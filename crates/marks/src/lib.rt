//! The marks that are open at a point of a text, and what set they give.
#![tactic(auto)]

pub mod machine;
pub mod mark;
pub mod search;
pub mod set;
