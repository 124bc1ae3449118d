// One line: its output line, put into a buffer.
ghost use Rattle.std.specs.Prelude.{◌≤◌, length};
ghost use Rattle.text.specs.Text.{Puts};
ghost use Rattle.desk.specs.Desk.{line_result, desk_answer, most_numbers, longest_result, longest_answer};

use crate::calls::{MOST_DRAW, put_call, put_malformed};
use crate::words::{call_named, read_numbers};
use lists::length_before;
use text::TextBuffer;

// No output line is longer: a draw and a state, ten digits and a blank for each number, and the line end.
pub const LONGEST_ANSWER: usize = 11 * (MOST_DRAW + 1) + 1;

// The most bytes of a line, without its line end.
const LONGEST_LINE: usize = 1 << 20;

// What stands before the line end. The caller lends a place for every second byte of a line.
fn put_result(text: &mut TextBuffer, line: &[u8], numbers: &mut [u32])
    requires { most_numbers ≤ length numbers.old }
    ensures text_after { Puts text.old text.new (line_result line.now) }
    ensures line_len_bound { length (line_result line.now) ≤ longest_result }
{
    if line.len() > LONGEST_LINE {
        put_malformed(text);
        return;
    }
    let n = length_before(line, b' ');
    if n == line.len() {
        put_malformed(text);
        return;
    }
    let Some(call) = call_named(&line[..n]) else {
        put_malformed(text);
        return;
    };
    let from = n + 1;
    let Some(count) = read_numbers(&line[from..], numbers) else {
        put_malformed(text);
        return;
    };
    put_call(text, call, &numbers[..count]);
}

// The output line for an input line without its line end. `Desk` lends the numbers.
pub fn answer_line(text: &mut TextBuffer, line: &[u8], numbers: &mut [u32])
    requires { most_numbers ≤ length numbers.old }
    ensures text_after { Puts text.old text.new (desk_answer line.now) }
    ensures line_len_bound { length (desk_answer line.now) ≤ longest_answer }
{
    put_result(text, line, numbers);
    text.put_byte(b'\n');
}
