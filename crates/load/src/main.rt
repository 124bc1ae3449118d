// A load that can be repeated: reads lines as the line program does, executes them with the draws of one generator from seed 1, and writes
// an output line for each; then a last line, the generator's state in decimal. Arguments name files to read instead, each a load of its own.
#![tactic(auto)]

ghost use Rattle.std.specs.Prelude.{◌≡◌};
ghost use Rattle.load.specs.Theorems.{load_seed};

use generator::make_generator;
use line_input::answer_inputs;
use std::io;

const SEED: u32 = 1;

// The state of the load's generator before the first line.
fn first_state() -> u32
    ensures { result ≡ load_seed }
{
    make_generator(SEED).unwrap().state
}

fn main(rt: HostRuntime) -> io::Result<()> {
    answer_inputs(&rt, first_state())
}
