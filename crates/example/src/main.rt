// The listings of the README as a program: the dealer makes two books from one draw, the server chooses its book out of a stock, and
// the two sides carry a run through. It writes both answers. The draw is all zero, so nothing here is secret.
#![tactic(auto)]

use dealer::deal;
use settings::{KEYS, MOST_BYTES, ROUNDS, Refusal, Settings, Shape, WIDTH, WORK_LENGTH};
use side::{Run, begin, send, take};
use state::{Side, answer, fresh};
use std::io;
use stock::{choose, choose_no};
use text::TextBuffer;

// Set 0, HIGH, N = 8: what book_size, draw_size and input_size of crate settings give.
const SHAPE: Shape = Shape {
    set: 0,
    kind: 0,
    n: 8,
};

const BOOK_LENGTH: usize = 1320 * WIDTH;

const DRAW_LENGTH: usize = BOOK_LENGTH + 144;

const INPUT_LENGTH: usize = 8 * WIDTH;

// Room for the line of an answer.
const SHOWN: usize = 4096;

// What a device keeps for its run: its side and its working slice.
#[derive(Drop)]
struct Device {
    side: Side,
    work: [u32; WORK_LENGTH],
}

// ---- Level Two

// A device begins, with its own keys, inputs and book. All its inputs are one number.
fn begin_run(
    device: &mut Device,
    number: u32,
    serial: u32,
    input: u32,
    book: &[u32],
) -> Result<(), Refusal> {
    let run = Run {
        number,
        settings: Settings {
            shape: SHAPE,
            bound: 0,
        },
        keys: [1u32; KEYS],
        serial,
    };
    let inputs = [input; INPUT_LENGTH];
    begin(&mut device.side, run, &inputs, book, &mut device.work)
}

// One message: a side sends, the other takes.
fn pass(sender: &mut Device, receiver: &mut Device, bytes: &mut [u8]) -> Result<(), Refusal> {
    let length = send(&mut sender.side, &sender.work, bytes)?;
    let length = length.min(bytes.len());
    take(&mut receiver.side, &mut receiver.work, &bytes[..length])
}

// The seven rounds: in each the server sends and the phone takes; then the phone sends and the server takes.
fn run_rounds(server: &mut Device, phone: &mut Device) -> Result<(), Refusal> {
    let mut bytes = [0u8; MOST_BYTES];
    for _ in 0..ROUNDS {
        pass(server, phone, &mut bytes)?;
        pass(phone, server, &mut bytes)?;
    }
    Ok(())
}

// The answer of a side after its run.
fn show_answer(rt: &impl Print, side: Side) -> io::Result<()> {
    let mut numbers = [0u32; 8];
    let length = answer(side, &mut numbers).unwrap_or(0).min(numbers.len());
    let mut out = [0u8; SHOWN];
    let mut text = TextBuffer::new(&mut out, 0);
    text.put_bytes(b"answer");
    text.put_numbers(&numbers[..length]);
    text.put_byte(b'\n');
    let end = text.at().min(SHOWN);
    rt.write_all(&out[..end])
}

// ---- Level Three

// Two books from one draw, behind the serials of two stocks.
fn deal_books(draw: &[u32], stock0: &mut [u32], stock1: &mut [u32]) -> Result<(), Refusal> {
    if stock0.is_empty() || stock1.is_empty() {
        return Err(Refusal::Length);
    }
    deal(
        SHAPE,
        [1u32; KEYS],
        [1u32; KEYS],
        draw,
        &mut stock0[1..],
        &mut stock1[1..],
    )
}

// The book that a device uses next, out of its two stocks, and its serial.
fn next_book<'a>(
    rt: &impl Eprint,
    shape: Shape,
    first: &'a [u32],
    second: &'a [u32],
    last_serial: u32,
) -> &'a [u32] {
    if let Err(no) = choose_no(shape, first, second, last_serial) {
        let _ = eprintln!(rt; "choose: {}", no.number());
    }
    choose(shape, first, second, last_serial)
}

// ---- Both

// Both devices begin with their books, and go through the rounds.
fn run_both(
    server: &mut Device,
    phone: &mut Device,
    serial: u32,
    book0: &[u32],
    book1: &[u32],
) -> Result<(), Refusal> {
    begin_run(server, 0, serial, 95233, book0)?;
    begin_run(phone, 1, serial, 0, book1)?;
    run_rounds(server, phone)
}

// A whole run with a book for each side, in which the serial stands first.
fn run(rt: &(impl Print + Eprint), book0: &[u32], book1: &[u32]) -> io::Result<()> {
    if book0.is_empty() || book1.is_empty() {
        return Ok(());
    }
    let mut server = Device {
        side: fresh(),
        work: [0u32; WORK_LENGTH],
    };
    let mut phone = Device {
        side: fresh(),
        work: [0u32; WORK_LENGTH],
    };
    if let Err(no) = run_both(&mut server, &mut phone, book0[0], &book0[1..], &book1[1..]) {
        let _ = eprintln!(rt; "run: {}", no.number());
    }
    show_answer(rt, server.side)?;
    show_answer(rt, phone.side)
}

// A run with the next book of each side. Its first stock is empty, and no serial has been used.
fn run_next(rt: &(impl Print + Eprint), stock0: &[u32], stock1: &[u32]) -> io::Result<()> {
    let book0 = next_book(rt, SHAPE, &stock0[..0], stock0, 0);
    let book1 = next_book(rt, SHAPE, &stock1[..0], stock1, 0);
    run(rt, book0, book1)
}

// A stock of one book at each side, with serial 1.
fn main(rt: HostRuntime) -> io::Result<()> {
    let draw = [0u32; DRAW_LENGTH];
    let mut stock0 = [1u32; 1 + BOOK_LENGTH];
    let mut stock1 = [1u32; 1 + BOOK_LENGTH];
    if let Err(no) = deal_books(&draw, &mut stock0, &mut stock1) {
        let _ = eprintln!(rt; "deal: {}", no.number());
    }
    run_next(&rt, &stock0, &stock1)
}
