//! Faults: refusals with the place where they arose.
use kinds::refusal::Refusal;

/// Why a list of records ends early, at which row, and how high in the pile of sources that arose.
#[derive(Clone, Copy, PartialEq, Debug)]
pub struct Fault {
    pub refusal: Refusal,
    pub row: u64,
    pub height: u32,
}
