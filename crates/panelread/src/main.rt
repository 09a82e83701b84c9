//! Shows a part program from standard input as it was understood, a canonical line for each line, or why it is refused.
#![tactic(auto)]

mod pieces;
mod statement;
mod sum;
mod words;

use pieces::Shown;
use reading::lines::ENOUGH;
use reading::program::{Held, Program};
use std::io::Read;

/// Writes the canonical form of a line.
fn show(rt: &HostRuntime, program: &Program<'_>, held: Held) -> anyhow::Result<()> {
    let line = Shown {
        text: program.up_to(held),
        said: held.line,
    };
    println!(rt; "{line}")?;
    Ok(())
}

/// Writes the canonical form of every line of a read program.
fn list(rt: &HostRuntime, program: &Program<'_>) -> anyhow::Result<()> {
    for held in program.lines() {
        show(rt, program, *held)?;
    }
    Ok(())
}

fn run(rt: &HostRuntime) -> anyhow::Result<()> {
    let heap = rt.alloc();
    let mut text = Vec::new(heap);
    rt.stdin().take(ENOUGH).read_to_end(&mut text)?;
    let mut program = Program::new(heap)?;
    if let Err(refusal) = program.read(text.as_slice()) {
        println!(rt; "{refusal}")?;
        return Ok(());
    }
    list(rt, &program)
}

fn main(rt: HostRuntime) -> anyhow::Result<()> {
    run(&rt)
}
