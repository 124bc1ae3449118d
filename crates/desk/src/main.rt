// Makes calls: reads standard input to its end, a call in each line, and writes an output line for each. Arguments name files to read
// instead, each an input of its own. Memory does not grow with the input.
//
// A line, decimal words with one blank between: `parts SET W`, `verdict SET B W..`,
// `choose SET KIND N LAST COUNT FIRST.. SECOND..`, where COUNT numbers belong to the first stock and the rest to the second, or
// `draw SEED SET KIND N`. Its output line is high and low part, the verdict, the chosen book's numbers, or the draw's numbers and the
// generator's state after it; or `!` and the refusal; `!12` for a malformed line.
//
// Proved: the bytes that wait to be written are the answers to the lines that have ended, and a part leaves the input where the calls of
// theorem DeskAnswersEachLine leave it (crate stream, at `Desk`'s handler). Reading and writing are proved safe, and no more: a contract
// cannot say what the system read or wrote.
#![tactic(auto)]

mod calls;
mod line;
mod words;

ghost use Rattle.std.specs.Prelude.{[]};
ghost use Rattle.desk.specs.Desk.{desk_handler, longest_answer};
ghost use Rattle.desk.specs.Kept.{looks_at_kept};
ghost use Rattle.std.proofs.Common.{rules};

use line::{LONGEST_ANSWER, answer_line};
use std::io;
use stream::{LineAnswerer, answer_inputs};
use text::TextBuffer;

// One byte more than a line may have, so that one that is too long is seen to be.
const KEPT: usize = 1048577;

// The most numbers of a line: each has a digit at least, and a blank before it.
const MOST_NUMBERS: usize = 524288;

// Room for answers that wait to be written: one more may come behind 65,536 bytes.
const OUT: usize = 65536 + LONGEST_ANSWER;

// Places for a line's numbers.
#[derive(Drop)]
struct Desk {
    numbers: [u32; MOST_NUMBERS],
}

impl LineAnswerer<KEPT, OUT> for Desk {
    type Carried = ();

    ghost handler = { desk_handler };

    ghost carried = { λ s. tt };

    ghost last_line = { λ c. [] };

    ghost LONGEST_ANSWER = { longest_answer };

    ghost LONGEST_LAST = { 0 };

    ghost looks_at = { looks_at_kept };

    ghost has_room = { Prim.search rules };

    const LONGEST_ANSWER: usize = LONGEST_ANSWER;

    const LONGEST_LAST: usize = 0;

    fn start(&mut self, _from: ()) {}

    fn answer_line(&mut self, text: &mut TextBuffer, _number: u64, line: &[u8]) {
        answer_line(text, line, &mut self.numbers);
    }

    fn put_last_line(&self, _text: &mut TextBuffer) {}
}

fn new_desk() -> Desk {
    Desk {
        numbers: [0; MOST_NUMBERS],
    }
}

fn main(rt: HostRuntime) -> io::Result<()> {
    answer_inputs::<KEPT, OUT, HostRuntime, Desk>(&rt, &mut new_desk(), ())
}
