//! What ids, names and values of marks are: the interfaces, the document kind and the detector kind.
#![tactic(auto)]

mod channel;
mod content;
pub mod detector;
pub mod document;
pub mod equality;
mod float;
mod grade;
pub mod interfaces;
pub mod kind;
mod name;
pub mod padded;
mod place;
pub mod refusal;
mod short;
#[cfg(test)]
mod tests;
mod text;
pub mod unknown;
mod value;
