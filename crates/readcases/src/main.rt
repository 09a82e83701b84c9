//! Reads texts from files and tells of each how many lines it has, or why it is refused. Of a file whose name ends in
//! `.lines` each line is a text of its own.
#![tactic(auto)]

use reading::program::Program;
use std::{env, fs};

/// Reads the text in a file and tells what came of it.
fn tell(rt: &HostRuntime, name: &str) -> anyhow::Result<()> {
    let text = fs::read(rt, name)?;
    let mut program = Program::new(rt.alloc())?;
    match program.read(text.as_slice()) {
        Ok(()) => {
            let count = program.count();
            println!(rt; "{name}: {count} lines")?;
        }
        Err(refusal) => println!(rt; "{name}: {refusal}")?,
    }
    Ok(())
}

/// Reads each line of a file as a text of its own and tells how many of them have a form.
fn tell_lines(rt: &HostRuntime, name: &str) -> anyhow::Result<()> {
    let text = fs::read(rt, name)?;
    let mut program = Program::new(rt.alloc())?;
    let all = text.split_inclusive(|byte| *byte == b'\n').count();
    let read = text
        .split_inclusive(|byte| *byte == b'\n')
        .filter(|line| program.read(line).is_ok())
        .count();
    let refused = all.saturating_sub(read);
    println!(rt; "{name}: {read} lines of a form, {refused} of none")?;
    Ok(())
}

fn run(rt: &HostRuntime) -> anyhow::Result<()> {
    for name in env::args(rt)?.skip(1) {
        if name.as_str().ends_with(".lines") {
            tell_lines(rt, name.as_str())?;
        } else {
            tell(rt, name.as_str())?;
        }
    }
    Ok(())
}

fn main(rt: HostRuntime) -> anyhow::Result<()> {
    run(&rt)
}
