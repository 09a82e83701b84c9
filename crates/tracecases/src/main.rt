//! Reads texts from files and writes of each how many lines it has and its trace, or why it is refused.
#![tactic(auto)]

use reading::program::Program;
use std::{env, fs};
use tracelist::telling;

/// Reads the text in a file and tells what came of it.
fn tell(rt: &HostRuntime, name: &str) -> anyhow::Result<()> {
    let text = fs::read(rt, name)?;
    let mut program = Program::new(rt.alloc())?;
    match program.read(text.as_slice()) {
        Ok(()) => {
            let count = program.count();
            println!(rt; "{name}: {count} lines")?;
            telling::tell(rt, text.as_slice())?;
        }
        Err(refusal) => println!(rt; "{name}: {refusal}")?,
    }
    Ok(())
}

fn run(rt: &HostRuntime) -> anyhow::Result<()> {
    for name in env::args(rt)?.skip(1) {
        tell(rt, name.as_str())?;
    }
    Ok(())
}

fn main(rt: HostRuntime) -> anyhow::Result<()> {
    run(&rt)
}
