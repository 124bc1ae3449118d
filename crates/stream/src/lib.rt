// Lines of an input that is read one part after another: a part may end anywhere in a line.
#![tactic(auto)]

mod answers;
mod reading;

ghost use Rattle.std.specs.Prelude.{◌≡◌, length};
ghost use Rattle.lists.specs.Lists.{in_front};
ghost use Rattle.stream.specs.Stream.{at_start, at_line, with_bytes, kept_after, next_line, is_left};

pub use answers::LineAnswerer;
use lists::{copy_part, length_before_by_blocks};
pub use reading::answer_inputs;

// Where an input stands: the number of the line that is being read, from 1; how many of its bytes are held; whether it has ended.
#[derive(Clone, Copy)]
pub struct Stream {
    pub number: u64,
    pub held: usize,
    pub ended: bool,
}

// How many bytes a call took in, and where the input stands after them.
#[derive(Clone, Copy)]
pub struct Step {
    pub used: usize,
    pub stream: Stream,
}

const LINE_END: u8 = 10;

// Before the first byte.
pub fn start_stream() -> Stream
    ensures { result ≡ at_start }
{
    Stream {
        number: 1,
        held: 0,
        ended: false,
    }
}

// The line to be read: the next one, if the last has ended.
fn at_line(stream: Stream) -> Stream
    ensures { result ≡ at_line stream }
{
    if stream.ended {
        return Stream {
            number: stream.number.saturating_add(1),
            held: 0,
            ended: false,
        };
    }
    stream
}

// Puts as many bytes as have room behind the first `held` of `kept`, and says how many are held then.
pub fn hold(kept: &mut [u8], held: usize, bytes: &[u8]) -> usize
    ensures value { result ≡ length (with_bytes kept.old held bytes.now) }
    ensures kept_after { kept.new ≡ in_front (with_bytes kept.old held bytes.now) kept.old }
{
    let from = held.min(kept.len());
    let n = bytes.len().min(kept.len() - from);
    copy_part(kept, from, &bytes[..n]);
    from + n
}

// Takes in the bytes up to the first line end, and it too; if the line has ended, it is the first `held` bytes of `kept`. A line longer
// than `kept` is cut: its first bytes are kept.
pub fn next_line(stream: Stream, kept: &mut [u8], bytes: &[u8]) -> Step
    ensures value { result ≡ next_line stream kept.old bytes.now }
    ensures kept_after { kept.new ≡ kept_after stream kept.old bytes.now }
{
    let line = at_line(stream);
    let n = length_before_by_blocks(bytes, LINE_END);
    let held = hold(kept, line.held, &bytes[..n]);
    if n < bytes.len() {
        return Step {
            used: n + 1,
            stream: Stream {
                number: line.number,
                held,
                ended: true,
            },
        };
    }
    Step {
        used: n,
        stream: Stream {
            number: line.number,
            held,
            ended: false,
        },
    }
}

// When the input has ended: is there a last line, which lacks its line end?
pub fn is_left(stream: Stream) -> bool
    ensures { result ≡ is_left stream }
{
    if stream.ended {
        return false;
    }
    0 < stream.held
}
