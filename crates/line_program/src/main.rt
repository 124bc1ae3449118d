// Answers lines: reads standard input to its end, and writes an output line for each line of it. Arguments name files to read instead,
// each an input of its own. Its draws are all zero: it has no generator.
#![tactic(auto)]

ghost use Rattle.std.specs.Prelude.{◌≡◌};
ghost use Rattle.line_program.specs.Theorems.{no_generator};

use line_input::answer_inputs;
use std::io;

// The state that stands for no generator.
fn no_generator() -> u32
    ensures { result ≡ no_generator }
{
    0
}

fn main(rt: HostRuntime) -> io::Result<()> {
    answer_inputs(&rt, no_generator())
}
