// The bench's records and lines: whole records of a block go through the bridge, and what it answers is printed.
#![tactic(auto)]

ghost use Rattle.std.specs.Prelude.{◌≡◌, ◌≤◌, length};
ghost use Rattle.rules.specs.Held.{world};
ghost use Rattle.records.specs.Runs.{run_left, run_leaves};

mod events;
mod lines;
mod reading;

use events::{Bench, Turned};
use lines::Printer;
use rules::Bridge;

// The bridge as the events leave it, the bytes used and written, and whether a torn record ended the stream; with one that did, the others hold too. The
// fields stand one by one, as `run_left` and the clause `used_in_bounds` name them.
#[derive(Clone, Copy)]
pub struct Ran {
    pub bridge: Bridge,
    pub used: usize,
    pub written: usize,
    pub torn: bool,
}

// Takes whole records from the front of a block, as long as there is room for the longest line. `last`: the stream ends with the block.
// What is lent comes one by one, as `run_left` tells what is left of each.
#[tactic(auto, using(crate::proofs::Running::starts, crate::proofs::Running::goes))]
pub fn run(
    b: Bridge,
    bytes: &mut [u8; 16],
    input: &[u8],
    last: bool,
    memory: &mut [u8],
    output: &mut [u8],
) -> Ran
    ensures output_after { run_left result bytes.new memory.new output.new ≡ run_leaves last (world b bytes.old memory.old) input.now output.old }
    ensures used_in_bounds { (result.used ≤ length input.now) × (result.written ≤ length output.new) }
{
    let mut bench = Bench::new(b, bytes, memory);
    let mut printer = Printer::new(output);
    let mut used = 0;
    let torn = loop {
        match bench.turn(&input[used..], last, &mut printer) {
            Turned::Taken(n) => used += n,
            Turned::Torn => break true,
            Turned::Rests => break false,
        }
    };
    Ran {
        bridge: bench.bridge,
        used,
        written: printer.written(),
        torn,
    }
}
