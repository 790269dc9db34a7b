//! Sources of records: the interface, the table, and the layers over any source.
#![tactic(auto)]

pub mod clock;
pub mod clocked;
mod covers;
pub mod fault;
pub mod record;
pub mod source;
pub mod table;
pub mod window;
