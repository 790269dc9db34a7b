//! Well-formed text by RFC 3629, and how wide a text is: in code points, in bytes, in code units of UTF-16, or by a measure of one's own.
#![tactic(auto)]

pub mod code_points;
pub mod counts;
pub mod judge;
pub mod measure;
pub mod strings;
#[cfg(test)]
mod tests;
pub mod utf16;
pub mod utf8;
pub mod width;
