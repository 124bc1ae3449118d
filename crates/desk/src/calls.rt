// The calls of a line, and the text of what they give: put into a buffer.
ghost use Rattle.std.specs.Prelude.{◌≡◌, nat_abs, replicate};
ghost use Rattle.text.specs.Text.{Puts};
ghost use Rattle.settings.specs.Sizes.{key_count, draw_size};
ghost use Rattle.settings.specs.Refusals.{number_of};
ghost use Rattle.generator.specs.Calls.{draw_call};
ghost use Rattle.desk.specs.Desk.{refusal_text, malformed_text, signed_text, high_low_text, parts_result, verdict_result, part_text, choose_text, stocks_text, choose_result, drawn_text, draw_result, call_result};

use crate::words::CallName;
use generator::{Generator, draw, make_generator};
use rounding::{HighLow, bound_verdict, parts};
use settings::{Refusal, Shape, WIDTH, draw_size};
use stock::{choose, choose_no};
use text::TextBuffer;

// The most numbers of a draw: those of 1,320 shared numbers, and 144 drawn ones.
pub const MOST_DRAW: usize = 1320 * WIDTH + 144;

// ---- Results

// `!` and the refusal.
fn put_refusal(text: &mut TextBuffer, no: Refusal)
    ensures { Puts text.old text.new (refusal_text (number_of no)) }
{
    text.put_byte(b'!');
    text.put_number(no.number() as u64);
}

// The result of a malformed line.
pub fn put_malformed(text: &mut TextBuffer)
    ensures { Puts text.old text.new malformed_text }
{
    put_refusal(text, Refusal::Fields);
}

// A signed number: `-` in front of a negative one.
fn put_signed(text: &mut TextBuffer, value: i32)
    ensures { Puts text.old text.new (signed_text value) }
{
    let size = u64::from(value.unsigned_abs());
    if value < 0 {
        text.put_byte(b'-');
    }
    text.put_number(size);
}

// A high part, a blank, and a low part.
fn put_high_low(text: &mut TextBuffer, pair: HighLow)
    ensures { Puts text.old text.new (high_low_text pair) }
{
    text.put_number(pair.high as u64);
    text.put_byte(b' ');
    put_signed(text, pair.low);
}

// The numbers of a part, one blank between.
fn put_part(text: &mut TextBuffer, part: &[u32])
    ensures { Puts text.old text.new (part_text part.now) }
{
    if part.len() == 0 {
        return;
    }
    text.put_number(part[0] as u64);
    text.put_numbers(&part[1..]);
}

// ---- Calls

// `parts SET W`
fn put_parts(text: &mut TextBuffer, numbers: &[u32])
    ensures { Puts text.old text.new (parts_result numbers.now) }
{
    if numbers.len() != 2 {
        put_malformed(text);
        return;
    }
    match parts(numbers[0], numbers[1]) {
        Ok(pair) => put_high_low(text, pair),
        Err(no) => put_refusal(text, no),
    }
}

// `verdict SET B W..`
fn put_verdict(text: &mut TextBuffer, numbers: &[u32])
    ensures { Puts text.old text.new (verdict_result numbers.now) }
{
    if numbers.len() < 2 {
        put_malformed(text);
        return;
    }
    match bound_verdict(numbers[0], numbers[1], &numbers[2..]) {
        Ok(inside) => text.put_number(u64::from(inside)),
        Err(no) => put_refusal(text, no),
    }
}

// The choice from two stocks.
fn put_choice<'a>(
    text: &mut TextBuffer,
    shape: Shape,
    first: &'a [u32],
    second: &'a [u32],
    last: u32,
)
    ensures { Puts text.old text.new (choose_text shape first.now second.now last) }
{
    if let Err(no) = choose_no(shape, first, second, last) {
        put_refusal(text, no);
        return;
    }
    put_part(text, choose(shape, first, second, last));
}

// The choice from stocks that stand one behind the other, the first of `count` numbers.
fn put_stocks(text: &mut TextBuffer, shape: Shape, last: u32, count: usize, stocks: &[u32])
    ensures { Puts text.old text.new (stocks_text shape last count stocks.now) }
{
    if count > stocks.len() {
        put_malformed(text);
        return;
    }
    put_choice(text, shape, &stocks[..count], &stocks[count..], last);
}

// `choose SET KIND N LAST COUNT FIRST.. SECOND..`
fn put_choose(text: &mut TextBuffer, numbers: &[u32])
    ensures { Puts text.old text.new (choose_result numbers.now) }
{
    if numbers.len() < 5 {
        put_malformed(text);
        return;
    }
    let shape = Shape {
        set: numbers[0],
        kind: numbers[1],
        n: numbers[2],
    };
    put_stocks(text, shape, numbers[3], numbers[4] as usize, &numbers[5..]);
}

// The numbers of a generator's draw, made in a lent slice, and the state after it; or its refusal.
fn put_draw_in(text: &mut TextBuffer, generator: &mut Generator, shape: Shape, numbers: &mut [u32])
    ensures { Puts text.old text.new (drawn_text (draw_call key_count generator.old.state shape numbers.old)) }
{
    if let Err(no) = draw(generator, shape, numbers) {
        put_refusal(text, no);
        return;
    }
    put_part(text, numbers);
    text.put_byte(b' ');
    text.put_number(generator.state as u64);
}

// The same in a slice of the draw's size.
fn put_draw_of(text: &mut TextBuffer, mut generator: Generator, shape: Shape)
    ensures { Puts text.old text.new (drawn_text (draw_call key_count generator.state shape (replicate (draw_size shape) 0))) }
{
    let mut numbers = [0u32; MOST_DRAW];
    let n = draw_size(shape);
    put_draw_in(text, &mut generator, shape, &mut numbers[..n]);
}

// `draw SEED SET KIND N`
fn put_draw(text: &mut TextBuffer, numbers: &[u32])
    ensures { Puts text.old text.new (draw_result numbers.now) }
{
    if numbers.len() != 4 {
        put_malformed(text);
        return;
    }
    let shape = Shape {
        set: numbers[1],
        kind: numbers[2],
        n: numbers[3],
    };
    match make_generator(numbers[0]) {
        Ok(generator) => put_draw_of(text, generator, shape),
        Err(no) => put_refusal(text, no),
    }
}

// The call that is named, made with the numbers.
pub fn put_call(text: &mut TextBuffer, call: CallName, numbers: &[u32])
    ensures { Puts text.old text.new (call_result call numbers.now) }
{
    match call {
        CallName::Parts => put_parts(text, numbers),
        CallName::BoundVerdict => put_verdict(text, numbers),
        CallName::Choose => put_choose(text, numbers),
        CallName::Draw => put_draw(text, numbers),
    }
}
