//! Writes the trace of a part program from standard input, as the rules make it in the sample shop. No area is asked, so nothing is judged here.
#![tactic(auto)]

use reading::lines::ENOUGH;
use std::io::Read;
use tracelist::telling::tell;

fn run(rt: &HostRuntime) -> anyhow::Result<()> {
    let mut text = Vec::new(rt.alloc());
    rt.stdin().take(ENOUGH).read_to_end(&mut text)?;
    tell(rt, text.as_slice())
}

fn main(rt: HostRuntime) -> anyhow::Result<()> {
    run(&rt)
}
