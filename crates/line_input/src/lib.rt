// Whole inputs of the line program and the load program: each line is answered, and a generator goes from line to line as its state. State 0,
// which no seed leads to, is that of the line program: its draws are all zero, and no last line tells it.
//
// Proved: the bytes that wait to be written are the answers to the lines that have ended, and a part leaves the input and the state where
// the calls of theorem AnswersEachLine leave them (crate stream, at `LineInput`'s handler). Reading and writing are proved safe, and no more:
// a contract cannot say what the system read or wrote.
#![tactic(auto)]

ghost use Rattle.line_input.specs.Answers.{line_handler, state_line};
ghost use Rattle.line_input.specs.Kept.{looks_at_kept};
ghost use Rattle.std.proofs.Common.{rules};

use lines::LineRunner;
use std::io;
use std::rt::{Env, Files};
use stream::LineAnswerer;
use text::TextBuffer;

// One byte more than a line may have, so that one that is too long is seen to be.
const KEPT: usize = 1025;

// Room for the bytes that wait to be written.
const OUT: usize = 65536;

// Answers the lines of an input, and carries the generator's state from line to line.
#[derive(Drop)]
struct LineInput {
    runner: LineRunner,
}

impl LineAnswerer<KEPT, OUT> for LineInput {
    type Carried = u32;

    ghost handler = { line_handler };

    ghost carried = { λ s. s.runner.state };

    ghost last_line = { state_line };

    ghost LONGEST_ANSWER = { 112 };

    ghost LONGEST_LAST = { 11 };

    ghost looks_at = { looks_at_kept };

    ghost has_room = { Prim.search rules };

    const LONGEST_ANSWER: usize = 112;

    const LONGEST_LAST: usize = 11;

    fn start(&mut self, from: u32) {
        self.runner.state = from;
    }

    fn answer_line(&mut self, text: &mut TextBuffer, number: u64, line: &[u8]) {
        self.runner.answer_line(text, number, line);
    }

    // The generator's state in decimal. State 0 is no generator's: nothing is put.
    fn put_last_line(&self, text: &mut TextBuffer) {
        if self.runner.state == 0 {
            return;
        }
        text.put_number(self.runner.state as u64);
        text.put_byte(b'\n');
    }
}

// Answers standard input, or, where there are arguments, the files that they name, each an input of its own from the same state.
pub fn answer_inputs<R: Env + Files + Input + Print + Eprint>(
    rt: &R,
    state: u32,
) -> io::Result<()> {
    let mut lines = LineInput {
        runner: LineRunner::new(state),
    };
    stream::answer_inputs::<KEPT, OUT, R, LineInput>(rt, &mut lines, state)
}
