// The lines of a transcript, each put into a buffer.
ghost use Rattle.std.specs.Prelude.{◌≡◌, ◌*◌};
ghost use Rattle.settings.specs.Schedule.{rounds};
ghost use Rattle.settings.specs.Refusals.{refused};
ghost use Rattle.state.specs.State.{written};
ghost use Rattle.text.specs.Text.{Puts};
ghost use Rattle.execution.specs.Execution.{told_call};
ghost use Rattle.transcript.specs.Transcript.{call_name, malformed_line, message_line, message_lines, party_text, refusal_line, numbers_line, answer_or_refusal, answers_text, openings_line};

use execution::{CallKind, Party, RefusedCall};
use settings::{ROUNDS, Refusal, Shape, message_size};
use state::{Side, answer, opening_count};
use text::TextBuffer;

// The most numbers of an answer.
const ANSWER_LENGTH: usize = 8;

// The one line for an input that has not its form.
pub fn put_malformed(text: &mut TextBuffer)
    ensures { Puts text.old text.new malformed_line }
{
    text.put_bytes(b"malformed\n");
}

// ---- Messages

// A message: sender, round and bytes.
fn put_message_line(text: &mut TextBuffer, sender: u32, round: u32, bytes: &[u8])
    ensures { Puts text.old text.new (message_line sender round bytes.now) }
{
    text.put_number(sender as u64);
    text.put_byte(b' ');
    text.put_number(round as u64);
    text.put_byte(b' ');
    text.put_hex(bytes);
    text.put_byte(b'\n');
}

// All messages of a run, which stand one behind the other: server and phone in turn, two in each round.
pub fn put_messages(text: &mut TextBuffer, shape: Shape, messages: &[u8])
    ensures { Puts text.old text.new (message_lines shape (2 * rounds) 0 messages.now) }
{
    let mut from = 0;
    for i in 0..2 * ROUNDS {
        if from >= messages.len() {
            return;
        }
        let round = i / 2 + 1;
        let to = from + message_size(shape, round).min(messages.len() - from);
        put_message_line(text, i % 2, round, &messages[from..to]);
        from = to;
    }
}

// ---- Refusals

fn put_call(text: &mut TextBuffer, call: CallKind)
    ensures { Puts text.old text.new (call_name call) }
{
    match call {
        CallKind::Deal => text.put_bytes(b"deal"),
        CallKind::Begin => text.put_bytes(b"begin"),
        CallKind::Send => text.put_bytes(b"send"),
        CallKind::Take => text.put_bytes(b"take"),
        CallKind::Answer => text.put_bytes(b"answer"),
    }
}

// The party of a refused call.
fn put_party(text: &mut TextBuffer, call: CallKind, party: Party)
    ensures { Puts text.old text.new (party_text call party) }
{
    match call {
        CallKind::Deal => text.put_byte(b'-'),
        CallKind::Begin | CallKind::Send | CallKind::Take | CallKind::Answer => {
            text.put_number(party.number() as u64);
        }
    }
}

// The first refusal.
pub fn put_refusal_line(text: &mut TextBuffer, refused: RefusedCall)
    ensures { Puts text.old text.new (refusal_line (told_call refused)) }
{
    let call = refused.call;
    text.put_bytes(b"refused ");
    put_call(text, call);
    text.put_byte(b' ');
    put_party(text, call, refused.party);
    text.put_byte(b' ');
    text.put_number(refused.refusal.number() as u64);
    text.put_byte(b'\n');
}

// ---- Answers and opening counts

// The answer of a party that was not refused.
fn put_numbers_line(text: &mut TextBuffer, party: Party, numbers: &[u32])
    ensures { Puts text.old text.new (numbers_line party numbers.now) }
{
    text.put_bytes(b"answer ");
    text.put_number(party.number() as u64);
    text.put_numbers(numbers);
    text.put_byte(b'\n');
}

// What a party's answer call gave.
fn put_answer_line(
    text: &mut TextBuffer,
    party: Party,
    res: Result<usize, Refusal>,
    numbers: &[u32],
)
    ensures { Puts text.old text.new (answer_or_refusal party (record { result = record { refused = refused res; length = written res }; out = numbers.now })) }
{
    match res {
        Ok(length) => {
            let length = length.min(numbers.len());
            put_numbers_line(text, party, &numbers[..length]);
        }
        Err(refusal) => {
            let refused = RefusedCall {
                call: CallKind::Answer,
                party,
                refusal,
            };
            put_refusal_line(text, refused);
        }
    }
}

// What both answer calls give, the server's first.
pub fn put_answers(text: &mut TextBuffer, server: Side, phone: Side)
    ensures { Puts text.old text.new (answers_text server phone) }
{
    let mut numbers0 = [0u32; ANSWER_LENGTH];
    let mut numbers1 = [0u32; ANSWER_LENGTH];
    let result0 = answer(server, &mut numbers0);
    let result1 = answer(phone, &mut numbers1);
    put_answer_line(text, Party::Server, result0, &numbers0);
    put_answer_line(text, Party::Phone, result1, &numbers1);
}

// How many openings a side has accepted.
pub fn put_openings(text: &mut TextBuffer, party: Party, side: Side)
    ensures { Puts text.old text.new (openings_line party side) }
{
    let count = opening_count(side);
    text.put_bytes(b"openings ");
    text.put_number(party.number() as u64);
    text.put_byte(b' ');
    text.put_number(count as u64);
    text.put_byte(b'\n');
}
