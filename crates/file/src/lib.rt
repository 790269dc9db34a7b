//! House files: the check of a file, and the questions that a good one answers.
#![tactic(auto)]

mod check;
mod contents;
mod decode;
mod field;
pub mod fields;
mod frame;
pub mod house_file;
mod index;
mod item;
mod judge;
mod names;
mod number;
mod place;
mod questions;
mod record;
mod records;
mod rules;
mod section;
mod seen;
mod values;
