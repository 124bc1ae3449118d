// The form of lines: what an input line asks for, and the text of an output line.
#![tactic(auto)]

ghost use Rattle.std.specs.Prelude.{◌≡◌, ◌≤◌, length, set, IfSome};
ghost use Rattle.text.specs.Text.{Puts};
ghost use Rattle.syntax.specs.Line.{kind_in, set_in, field_at, words, requested, line_of};
ghost use Rattle.syntax.specs.Reading.{start_words, with_words, finish};
ghost use Rattle.syntax.specs.Answer.{refusal_text, answer_part, answer_text};

use text::{TextBuffer, number_in};

// The most bytes of an input line, without its line end.
pub const LONGEST_INPUT_LINE: usize = 1024;

// What a line asks for: kind 0 HIGH or 1 BOUND, set, B, how many coefficients, and the first 8 of them.
#[derive(Clone, Copy)]
pub struct Request {
    pub kind: u32,
    pub set: u32,
    pub bound: u32,
    pub count: u32,
    pub numbers: [u32; 8],
}

// How far a line has been read: how many words there were, and the numbers of the first 11: kind, set, B and eight coefficients.
#[derive(Clone, Copy)]
struct WordsRead {
    count: usize,
    values: [u32; 11],
}

// ---- Words

#[tactic(auto, unfolding(crate::specs::Line::kind_in, crate::specs::Line::is_byte))]
fn kind_in(word: &[u8]) -> Option<u32>
    ensures { result ≡ kind_in word.now }
{
    match word {
        [b'H'] => Some(0),
        [b'B'] => Some(1),
        _ => None,
    }
}

#[tactic(auto, unfolding(crate::specs::Line::set_in, crate::specs::Line::is_byte))]
fn set_in(word: &[u8]) -> Option<u32>
    ensures { result ≡ set_in word.now }
{
    match word {
        [b'-'] => Some(0),
        _ => number_in(word),
    }
}

// The word at a place of the line.
#[tactic(auto, unfolding(crate::specs::Line::field_at))]
fn field_at(place: usize, word: &[u8]) -> Option<u32>
    ensures { result ≡ field_at place word.now }
{
    match place {
        0 => kind_in(word),
        1 => set_in(word),
        _ => number_in(word),
    }
}

// ---- A line

// Stores one value more, if it has a place.
fn place(values: &mut [u32], at: usize, value: u32)
    ensures { values.new ≡ set values.old at value }
{
    if at < values.len() {
        values[at] = value;
    }
}

// The words of a line; nothing, where one has not its form.
fn read_words(line: &[u8]) -> Option<WordsRead>
    requires { length line.now ≤ 1024 }
    ensures value { result ≡ with_words start_words (words line.now) }
    ensures count_bound { IfSome result (λ read. read.count ≤ 1025) }
{
    let mut values = [0u32; 11];
    let mut count = 0;
    for word in line.split(|byte| *byte == b' ') {
        let value = field_at(count, word)?;
        place(&mut values, count, value);
        count += 1;
    }
    Some(WordsRead { count, values })
}

// The request of so many words with these values.
fn request_of(count: usize, v: [u32; 11]) -> Request
    requires le_count { 3 ≤ count }
    requires count_bound { count ≤ 1025 }
    ensures { result ≡ requested count v }
{
    Request {
        kind: v[0],
        set: v[1],
        bound: v[2],
        count: (count - 3) as u32,
        numbers: [v[3], v[4], v[5], v[6], v[7], v[8], v[9], v[10]],
    }
}

// The request of a line that has been read: it has three words at least.
#[tactic(auto, unfolding(crate::specs::Reading::finish))]
fn end_words(read: WordsRead) -> Option<Request>
    requires { read.count ≤ 1025 }
    ensures { result ≡ finish read }
{
    if read.count < 3 {
        return None;
    }
    let values = read.values;
    Some(request_of(read.count, values))
}

// What a line, without its line end, asks for; nothing, where it is malformed.
#[tactic(auto, unfolding(crate::specs::Line::line_of))]
pub fn read_line(line: &[u8]) -> Option<Request>
    ensures { result ≡ line_of line.now }
{
    if line.len() > LONGEST_INPUT_LINE {
        return None;
    }
    end_words(read_words(line)?)
}

// ---- An output line

// A blank, `!` and the refusal.
fn put_refusal(text: &mut TextBuffer, refused: u32)
    ensures { Puts text.old text.new (refusal_text refused) }
{
    text.put_bytes(b" !");
    text.put_number(refused as u64);
}

// What stands behind the line number: the numbers, or the refusal where it is not 0.
#[tactic(auto, unfolding(crate::specs::Answer::answer_part))]
fn put_result(text: &mut TextBuffer, refused: u32, numbers: &[u32])
    ensures { Puts text.old text.new (answer_part refused numbers.now) }
{
    if refused == 0 {
        text.put_numbers(numbers);
    } else {
        put_refusal(text, refused);
    }
}

// The output line for a line number. It is cut where there is no room for all of it.
pub fn put_answer(text: &mut TextBuffer, number: u64, refused: u32, numbers: &[u32])
    ensures { Puts text.old text.new (answer_text number refused numbers.now) }
{
    text.put_number(number);
    put_result(text, refused, numbers);
    text.put_byte(b'\n');
}
