//! Reads a house file from standard input, and prints what it holds or what is wrong with it.
#![tactic(auto)]

mod contents;
#[cfg(test)]
mod tests;

use crate::contents::Contents;
use file::house_file::HouseFile;
use std::io::Read;

fn run(rt: &HostRuntime) -> anyhow::Result<()> {
    let mut input = Vec::new(rt.alloc());
    let _count = rt.stdin().read_to_end(&mut input)?;
    let bytes = input.as_slice();
    let mut file = HouseFile::empty();
    match file.read(bytes) {
        Ok(()) => Contents { rt, file: &file }.print()?,
        Err(bad) => {
            let number = bad.refusal().number();
            println!(rt; "refused with {number} at {bad}")?;
        }
    }
    Ok(())
}

fn main(rt: HostRuntime) -> anyhow::Result<()> {
    run(&rt)
}
