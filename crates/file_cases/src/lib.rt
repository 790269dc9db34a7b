//! House files on examples: good ones, every cut, every field spoilt, and a file under layers.
#![tactic(auto)]

#[cfg(test)]
mod cuts;
#[cfg(test)]
mod indexed;
#[cfg(test)]
mod piled;
#[cfg(test)]
mod small;
#[cfg(test)]
mod spoilt;
