//! The detector kind: numbered places are its ids, channels its names, grades its values.
pub use crate::channel::Channel;
pub use crate::grade::Grade;
pub use crate::place::DetectorId;
