//! Open marks on examples: for documents, for detectors, and for a kind with orders and an equality of its own.
#![tactic(auto)]

#[cfg(test)]
mod countdown;
#[cfg(test)]
mod detector;
#[cfg(test)]
mod document;
#[cfg(test)]
mod scenes;
