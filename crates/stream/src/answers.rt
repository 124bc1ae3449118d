// Answers to the lines of a part, put one behind another into a slice that waits to be written.
ghost use Rattle.std.specs.Prelude.{◌≡◌, ℕ, List, [], ◌+◌, ◌≤◌, ◌<◌, length, take, drop};
ghost use Rattle.stream.specs.Stream.{next_line};
ghost use Rattle.stream.specs.Theorems.{Handler, LooksAt, after_call, after_end};
ghost use Rattle.stream.specs.Waiting.{standing, all_calls, closed_by};
ghost use Rattle.text.specs.Text.{text_at, puts, Puts};

use crate::{Stream, is_left, next_line};
use text::TextBuffer;

// What a program does with the lines of an input, by the first KEPT bytes of each at most; answers wait in OUT bytes.
pub trait LineAnswerer<const KEPT: usize, const OUT: usize> {
    // What it carries from each line to the next.
    type Carried: Copy;

    ghost handler: { Handler Self.Carried };

    ghost carried: { Self → Self.Carried };

    ghost last_line: { Self.Carried → List ℕ };

    ghost LONGEST_ANSWER: { ℕ };

    ghost LONGEST_LAST: { ℕ };

    // No output line is longer.
    const LONGEST_ANSWER: usize;

    // Nor is what stands behind the output lines.
    const LONGEST_LAST: usize;

    // Before an input: what is carried to its first line.
    fn start(&mut self, from: Self::Carried)
        ensures { carried self.new ≡ from };

    // Puts the output line for a line without its line end.
    fn answer_line(&mut self, text: &mut TextBuffer, number: u64, line: &[u8])
        ensures text_after { Puts text.old text.new (handler.answer number line.now) }
        ensures answer_len_bound { length (handler.answer number line.now) ≤ LONGEST_ANSWER }
        ensures carried_after { carried self.new ≡ handler.carry number line.now (carried self.old) };

    // Behind the last output line: what tells that which is carried at the end of an input.
    fn put_last_line(&self, text: &mut TextBuffer)
        ensures text_after { Puts text.old text.new (last_line (carried self.now)) }
        ensures last_len_bound { length (last_line (carried self.now)) ≤ LONGEST_LAST };

    ghost looks_at: { LooksAt Self.Carried KEPT handler };

    ghost has_room: { LONGEST_ANSWER + LONGEST_LAST ≤ OUT };
}

// How many bytes of a part have been used, where the input stands after them, and how many bytes wait to be written.
#[derive(Clone, Copy)]
pub struct Answered {
    pub used: usize,
    pub stream: Stream,
    pub waiting: usize,
}

// The output line for a line, put at a place of `out`: the place behind it.
fn answer_at<const KEPT: usize, const OUT: usize, A: LineAnswerer<KEPT, OUT>>(
    answerer: &mut A,
    out: &mut [u8],
    at: usize,
    number: u64,
    line: &[u8],
) -> usize
    ensures result_after { text_at out.new result ≡ puts (text_at out.old at) (A.handler.answer number line.now) }
    ensures answer_len_bound { length (A.handler.answer number line.now) ≤ A.LONGEST_ANSWER }
    ensures carried_after { A.carried answerer.new ≡ A.handler.carry number line.now (A.carried answerer.old) }
{
    let mut text = TextBuffer::new(out, at);
    answerer.answer_line(&mut text, number, line);
    text.at()
}

// What stands behind the answers, put at a place of `out`: the place behind it.
fn last_line_at<const KEPT: usize, const OUT: usize, A: LineAnswerer<KEPT, OUT>>(
    answerer: &A,
    out: &mut [u8],
    at: usize,
) -> usize
    ensures result_after { text_at out.new result ≡ puts (text_at out.old at) (A.last_line (A.carried answerer.now)) }
    ensures last_len_bound { length (A.last_line (A.carried answerer.now)) ≤ A.LONGEST_LAST }
{
    let mut text = TextBuffer::new(out, at);
    answerer.put_last_line(&mut text);
    text.at()
}

// One call of next_line. A line that has ended is answered behind the bytes that wait.
fn answer_call<const KEPT: usize, const OUT: usize, A: LineAnswerer<KEPT, OUT>>(
    answerer: &mut A,
    stream: Stream,
    kept: &mut [u8],
    bytes: &[u8],
    out: &mut [u8; OUT],
    waiting: usize,
) -> Answered
    requires { waiting + A.LONGEST_ANSWER ≤ OUT }
    ensures state_after { standing result.stream kept.new out.new result.waiting (A.carried answerer.new)
        ≡ after_call A.handler (standing stream kept.old out.old waiting (A.carried answerer.old)) bytes.now }
    ensures used_value { result.used ≡ (next_line stream kept.old bytes.now).used }
    ensures waiting_in_bounds { result.waiting ≤ OUT }
{
    let step = next_line(stream, kept, bytes);
    let here = step.stream;
    if !here.ended {
        return Answered {
            used: step.used,
            stream: here,
            waiting,
        };
    }
    let end = answer_at(answerer, out, waiting, here.number, &kept[..here.held]);
    Answered {
        used: step.used,
        stream: here,
        waiting: end,
    }
}

// Answers the lines that end in a part until it is used up or the slice may lack room for one more.
pub fn answer_some<const KEPT: usize, const OUT: usize, A: LineAnswerer<KEPT, OUT>>(
    answerer: &mut A,
    stream: Stream,
    kept: &mut [u8],
    bytes: &[u8],
    out: &mut [u8; OUT],
) -> Answered
    ensures bytes_after { all_calls A.handler (standing result.stream kept.new out.new result.waiting (A.carried answerer.new)) (drop result.used bytes.now)
        ≡ all_calls A.handler (standing stream kept.old out.old 0 (A.carried answerer.old)) bytes.now }
    ensures used_in_bounds { result.used ≤ length bytes.now }
    ensures used_nonzero { 0 < length bytes.now → 0 < result.used }
    ensures waiting_in_bounds { result.waiting ≤ OUT }
{
    let most = OUT - A::LONGEST_ANSWER;
    let mut used = 0;
    let mut here = stream;
    let mut waiting = 0;
    while used < bytes.len() && waiting <= most {
        let call = answer_call(answerer, here, kept, &bytes[used..], out, waiting);
        used += call.used;
        here = call.stream;
        waiting = call.waiting;
    }
    Answered {
        used,
        stream: here,
        waiting,
    }
}

// ---- The end of an input

// The answer to the last line, if that lacks its line end. How many bytes wait to be written.
fn answer_left<const KEPT: usize, const OUT: usize, A: LineAnswerer<KEPT, OUT>>(
    answerer: &mut A,
    stream: Stream,
    kept: &[u8],
    out: &mut [u8; OUT],
) -> usize
    ensures state_after { record { written = take result out.new; carried = A.carried answerer.new } ≡ after_end A.handler (standing stream kept.now [] 0 (A.carried answerer.old)) }
    ensures at_bound { result ≤ A.LONGEST_ANSWER }
{
    if !is_left(stream) {
        return 0;
    }
    let n = stream.held.min(kept.len());
    answer_at(answerer, out, 0, stream.number, &kept[..n])
}

// When the input has ended: the answer to its last line, if that lacks its line end; and what stands behind the answers. How many bytes
// wait to be written.
pub fn put_last<const KEPT: usize, const OUT: usize, A: LineAnswerer<KEPT, OUT>>(
    answerer: &mut A,
    stream: Stream,
    kept: &[u8],
    out: &mut [u8; OUT],
) -> usize
    ensures out_after { take result out.new ≡ closed_by A.last_line (after_end A.handler (standing stream kept.now [] 0 (A.carried answerer.old))) }
    ensures upper_bound { result ≤ OUT }
{
    let end = answer_left(answerer, stream, kept, out);
    last_line_at(answerer, out, end)
}
