//! Writes the trace of a text.
ghost use Rattle.language.specs.Indexing.{free};
ghost use Rattle.reading.specs.Reading.{held_lines};
ghost use Rattle.tracelist.specs.Told.{Told};

use crate::listing::Listed;
use crate::setup::setup;
use forms::said::Place;
use index::entry::Entry;
use index::index::Index;
use language::indexed::Indexed;
use language::targets::Targets;
use motions::refusal::Refusal;
use reading::program::{MOST_LINES, Program};
use traces::journal::Journal;

/// Runs a program and records what it makes.
// The two rooms are lent here, and make the targets, which hold both from then on.
fn run(
    program: &Program<'_>,
    numbers: &mut [Entry<u32>],
    labels: &mut [Entry<Place>],
    journal: &mut Journal,
) -> Result<(), Refusal>
    ensures value { Told (held_lines program.now) (free numbers.old) (free labels.old) journal.new result }
{
    let mut targets = Targets {
        numbers: Index::new(numbers),
        labels: Index::new(labels),
    };
    targets.enter(program)?;
    let source = Indexed {
        program,
        targets: &targets,
    };
    journal.record(&source, &setup())
}

/// Writes the trace of a text: each motion that it makes, and then how the run ends; or why the text is refused.
pub fn tell(rt: &HostRuntime, text: &[u8]) -> anyhow::Result<()> {
    let heap = rt.alloc();
    let mut program = Program::new(heap)?;
    if let Err(refusal) = program.read(text) {
        println!(rt; "{refusal}")?;
        return Ok(());
    }
    // A program has no more N numbers or labels than lines
    let mut numbers = vec![in heap; Entry { key: 0u32, line: 0 }; MOST_LINES]?;
    let nowhere = Place { from: 0, length: 0 };
    let mut labels = vec![in heap; Entry {
        key: nowhere,
        line: 0
    }; MOST_LINES]?;
    let mut journal = Journal::new(heap)?;
    let end = run(&program, &mut numbers, &mut labels, &mut journal);
    for made in journal.motions() {
        let listed = Listed::of(made);
        println!(rt; "{listed}")?;
    }
    match end {
        Ok(()) => println!(rt; "end")?,
        Err(refusal) => println!(rt; "{refusal}")?,
    }
    Ok(())
}
