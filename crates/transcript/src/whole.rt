// The whole text for an input: its terms, the run, and all lines of the transcript.
ghost use Rattle.std.specs.Prelude.{◌≡◌, ◌+◌, ◌≤◌, length, take, drop};
ghost use Rattle.settings.specs.Sizes.{key_count};
ghost use Rattle.text.specs.Text.{Puts};
ghost use Rattle.execution.specs.Execution.{told};
ghost use Rattle.transcript.specs.Transcript.{head_length, run_terms_in, result_text, run_text, transcript_of, text_for, out_length};

use crate::lines::{put_answers, put_malformed, put_messages, put_openings, put_refusal_line};
use execution::{
    BOOK_LENGTH, Execution, Party, RUN_BYTES, RefusedCall, RunSpace, RunTerms, execute_in,
};
use settings::{KEYS, Settings, Shape, WIDTH};
use state::Side;
use text::TextBuffer;

// Where the server's keys stand in an input, and the phone's; and how many numbers stand before the inputs and the draw, or the books.
const KEYS0: usize = 5;

const KEYS1: usize = KEYS0 + KEYS;

const HEAD_LENGTH: usize = KEYS1 + KEYS;

// The most numbers of an input: one more than both sides' inputs and books have, so that question 5 can refuse one too many.
pub const MOST_NUMBERS: usize = HEAD_LENGTH + 2 * (8 * WIDTH + BOOK_LENGTH) + 1;

// No text is longer: two digits for each byte of a message, and room for all else.
pub const OUT_LENGTH: usize = 2 * RUN_BYTES + 2048;

// ---- The terms of an input

// The keys from a place on. The caller knows that there are so many.
fn keys_in(numbers: &[u32], at: usize) -> [u32; KEYS]
    requires { at + key_count ≤ length numbers.now }
    ensures { result ≡ take key_count (drop at numbers.now) }
{
    let mut keys = [0u32; KEYS];
    keys.copy_from_slice(&numbers[at..at + KEYS]);
    keys
}

// What stands before the inputs.
fn run_terms_in(numbers: &[u32]) -> RunTerms
    requires { head_length ≤ length numbers.now }
    ensures { result ≡ run_terms_in numbers.now }
{
    let settings = Settings {
        shape: Shape {
            set: numbers[0],
            kind: numbers[1],
            n: numbers[2],
        },
        bound: numbers[3],
    };
    let keys0 = keys_in(numbers, KEYS0);
    let keys1 = keys_in(numbers, KEYS1);
    RunTerms {
        settings,
        serial: numbers[4],
        keys0,
        keys1,
    }
}

// ---- The text

// Both answers, or the refusal of a call before them.
#[tactic(auto, unfolding(crate::specs::Transcript::result_text))]
fn put_end(text: &mut TextBuffer, refused: Option<RefusedCall>, server: Side, phone: Side)
    ensures { Puts text.old text.new (result_text (told refused) server phone) }
{
    match refused {
        Some(call) => put_refusal_line(text, call),
        None => put_answers(text, server, phone),
    }
}

// A run with its messages.
fn put_run(text: &mut TextBuffer, shape: Shape, x: Execution, messages: &[u8])
    ensures { Puts text.old text.new (run_text shape (told x.refused) x.server.side x.phone.side messages.now) }
{
    let server = x.server.side;
    let phone = x.phone.side;
    put_messages(text, shape, messages);
    put_end(text, x.refused, server, phone);
    put_openings(text, Party::Server, server);
    put_openings(text, Party::Phone, phone);
}

// The transcript of an input's numbers.
fn put_transcript(text: &mut TextBuffer, numbers: &[u32])
    ensures text_after { Puts text.old text.new (transcript_of numbers.now) }
    ensures len_bound { length (transcript_of numbers.now) ≤ out_length }
{
    if numbers.len() < HEAD_LENGTH {
        put_malformed(text);
        return;
    }
    let terms = run_terms_in(numbers);
    let mut space = RunSpace::new();
    let x = execute_in(terms, &numbers[HEAD_LENGTH..], &mut space);
    let length = x.length;
    put_run(
        text,
        terms.settings.shape,
        x,
        &space.work.messages[..length],
    );
}

// The text for an input of so many numbers, or for one that has not its form.
fn put_text(text: &mut TextBuffer, count: Option<usize>, numbers: &[u32])
    ensures text_after { Puts text.old text.new (text_for count numbers.now) }
    ensures len_bound { length (text_for count numbers.now) ≤ out_length }
{
    match count {
        Some(count) => put_transcript(text, &numbers[..count.min(numbers.len())]),
        None => put_malformed(text),
    }
}

// The same in front of `out`: how many bytes it has. The caller lends OUT_LENGTH bytes.
pub fn text_for(count: Option<usize>, numbers: &[u32], out: &mut [u8]) -> usize
    requires { out_length ≤ length out.old }
    ensures { (take result out.new ≡ text_for count numbers.now) × (result ≤ length out.new) }
{
    let mut text = TextBuffer::new(out, 0);
    put_text(&mut text, count, numbers);
    text.at()
}
