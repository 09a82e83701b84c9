//! Judges motions, one a line of standard input, by the sample shop's fixed area.
#![tactic(auto)]

mod field;
mod judging;
mod line;

use judging::{Verdict, judge};
use shop::{fixed_area, home};
use std::io;
use std::io::{BufRead, BufReader};

fn main(rt: HostRuntime) -> io::Result<()> {
    let area = fixed_area();
    let mut position = home().position();
    // Both counts are printed after the loop too, and stay at the greatest number rather than wrap, so no `enumerate`.
    let mut motions: u64 = 0;
    let mut inside: u64 = 0;
    for line in BufReader::new(rt.alloc(), rt.stdin())?.split(rt.alloc(), b'\n') {
        let answer = judge(&area, &position, line?.as_slice());
        position = answer.position;
        motions = motions.saturating_add(1);
        if answer.verdict == Ok(Verdict::Inside) {
            inside = inside.saturating_add(1);
        }
        println!(rt; "{motions} {answer}")?;
    }
    println!(rt; "{motions} motions, {inside} inside")
}
