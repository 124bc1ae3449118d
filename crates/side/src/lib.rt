// The calls that move a run on: begin, send and take. A refusal leaves the side as it was, but that a failed check stops it.
#![tactic(auto)]

ghost use Rattle.std.specs.Prelude.{◌≡◌, ◌≤◌, ◌<◌, length, OnOk};
ghost use Rattle.settings.specs.Sizes.{key_count, most_openings, most_fields};
ghost use Rattle.settings.specs.Questions.{Ready};
ghost use Rattle.settings.specs.Refusals.{refused};
ghost use Rattle.message.specs.Fields.{fields_read};
ghost use Rattle.opening.specs.Opening.{due_header};
ghost use Rattle.state.specs.State.{Whole, written};
ghost use Rattle.side.specs.Work.{ask_work, take_door, front_of};
ghost use Rattle.side.specs.Side.{handed_no, begin_no, begun_side, begin_call, send_no, sent_side, send_call, answer_after, taken_side, take_call};

use column::take_work;
use field::all_below_q;
use message::{Header, ask_form};
use opening::{OWN_LENGTH, checks_pass, context_in, join_shares, prepare_columns, write_message};
use settings::{
    KEYS, MOST_FIELDS, MOST_OPENINGS, ROUNDS, Refusal, Settings, WIDTH, WORK_LENGTH, ask_settings,
    keys_ok, message_length, openings_in, round_after, shared_of,
};
use slice::{begin_work, weights_of};
use state::{Phase, Side, at_step, in_phase, phase_after, send_due, step_of, take_due, under_way};

// What a run begins with at a side: its number, 0 server and 1 phone, the settings, its own keys, and the run's serial.
#[derive(Clone, Copy)]
pub struct Run {
    pub number: u32,
    pub settings: Settings,
    pub keys: [u32; KEYS],
    pub serial: u32,
}

// ---- Questions of send and of take

// Questions 8, 5 and 6.
fn ask_work(due: bool, work: &[u32]) -> Result<(), Refusal>
    ensures { refused result ≡ ask_work key_count due work.now 0 }
{
    if !due {
        return Err(Refusal::NotDue);
    }
    if work.len() != WORK_LENGTH {
        return Err(Refusal::Length);
    }
    if !all_below_q(work) {
        return Err(Refusal::NotBelowQ);
    }
    Ok(())
}

// ---- Begin

// Questions 4 to 7 of begin. (Begin has asked 1 to 3.)
fn ask_handed(
    side: Side,
    run: Run,
    inputs: &[u32],
    book: &[u32],
    work: &[u32],
) -> Result<(), Refusal>
    requires { Ready run.settings }
    ensures { refused result ≡ handed_no key_count side run inputs.now book.now work.now }
{
    if !keys_ok(run.keys) {
        return Err(Refusal::Key);
    }
    let shape = run.settings.shape;
    if inputs.len() != shape.n as usize * WIDTH {
        return Err(Refusal::Length);
    }
    if book.len() != shared_of(shape) * WIDTH {
        return Err(Refusal::Length);
    }
    if work.len() != WORK_LENGTH {
        return Err(Refusal::Length);
    }
    if !all_below_q(inputs) {
        return Err(Refusal::NotBelowQ);
    }
    if !all_below_q(book) {
        return Err(Refusal::NotBelowQ);
    }
    if run.serial <= side.serial {
        return Err(Refusal::Serial);
    }
    Ok(())
}

// The questions of begin.
fn ask_begin(
    side: Side,
    run: Run,
    inputs: &[u32],
    book: &[u32],
    work: &[u32],
) -> Result<(), Refusal>
    ensures { refused result ≡ begin_no key_count side run inputs.now book.now work.now }
{
    if under_way(side) {
        return Err(Refusal::NotDue);
    }
    ask_settings(run.number, run.settings)?;
    ask_handed(side, run, inputs, book, work)
}

// A side that has just begun.
fn begun(run: Run) -> Side
    ensures { result ≡ begun_side run }
{
    let keys = run.keys;
    Side {
        number: run.number,
        settings: run.settings,
        keys,
        serial: run.serial,
        round: round_after(0),
        phase: phase_after(run.number, 0),
        answer: [0; 8],
    }
}

// Begins a run.
pub fn begin(
    side: &mut Side,
    run: Run,
    inputs: &[u32],
    book: &[u32],
    work: &mut [u32],
) -> Result<(), Refusal>
    ensures { record { done = record { refused = refused result; side = side.new }; work = work.new }
        ≡ begin_call key_count side.old run inputs.now book.now work.old }
{
    ask_begin(*side, run, inputs, book, work)?;
    begin_work(work, run.settings.shape, inputs, book);
    *side = begun(run);
    Ok(())
}

// ---- Send

// The questions of send.
fn ask_send(side: Side, work: &[u32], out: &[u8]) -> Result<(), Refusal>
    ensures { refused result ≡ send_no key_count side work.now out.now }
{
    ask_work(send_due(side), work)?;
    if out.len() < message_length(side.settings.shape, side.round) {
        return Err(Refusal::NoRoom);
    }
    Ok(())
}

// The side after it has sent: one step more. `send` has asked for whole fields.
fn sent_side(side: Side) -> Side
    requires { Whole side }
    ensures { result ≡ sent_side side }
{
    at_step(side, step_of(side) + 1, side.answer)
}

// Sends the round's message: writes it in front of `out`, and gives its length.
pub fn send(side: &mut Side, work: &[u32], out: &mut [u8]) -> Result<usize, Refusal>
    ensures { record { sent = record { refused = refused result; length = written result; side = side.new }; out = out.new }
        ≡ send_call key_count side.old work.now out.old }
{
    ask_send(*side, work, out)?;
    let length = write_message(*side, work, out);
    *side = sent_side(*side);
    Ok(length)
}

// ---- Take

// The header that the other side's message must have. `ask_take` has asked whether a take is due.
fn due_header(side: Side) -> Header
    requires { side.number < 2 }
    ensures { result ≡ due_header side }
{
    Header::new(1 - side.number, side.settings, side.round, side.serial)
}

// Questions 8, 5, 6 and 10 to 12 of take. A message that passes leaves its fields in `fields`, which `take` lends.
fn ask_take(side: Side, work: &[u32], message: &[u8], fields: &mut [u32]) -> Result<(), Refusal>
    requires { length fields.old ≡ most_fields key_count }
    ensures { (refused result ≡ take_door key_count side work.now message.now)
        × OnOk result (fields.new ≡ fields_read key_count (due_header side) message.now fields.old) }
{
    ask_work(take_due(side), work)?;
    ask_form(due_header(side), message, fields)
}

// The answer that a side keeps: the last round opens it.
fn kept_answer(side: Side, opened: &[u32]) -> [u32; 8]
    requires whole { Whole side }
    requires opened_len { length opened.now ≡ most_openings }
    ensures { result ≡ answer_after side (front_of side opened.now) }
{
    let mut answer = side.answer;
    if side.round == ROUNDS {
        let count = openings_in(side.settings.shape, side.round) as usize;
        answer[..count].copy_from_slice(&opened[..count]);
    }
    answer
}

// The side after it has taken a round: one step more. `take` has asked for whole fields.
fn taken_side(side: Side, opened: &[u32]) -> Side
    requires whole { Whole side }
    requires opened_len { length opened.now ≡ most_openings }
    ensures { result ≡ taken_side side (front_of side opened.now) }
{
    let kept = kept_answer(side, opened);
    at_step(side, step_of(side) + 1, kept)
}

// Takes the other side's message of the round. Only a failed check stops the run.
pub fn take(side: &mut Side, work: &mut [u32], message: &[u8]) -> Result<(), Refusal>
    ensures { record { done = record { refused = refused result; side = side.new }; work = work.new }
        ≡ take_call key_count side.old work.old message.now }
{
    let mut fields = [0u32; MOST_FIELDS];
    ask_take(*side, work, message, &mut fields)?;
    let mut own = [0u32; OWN_LENGTH];
    let known = context_in(*side, work);
    prepare_columns(&mut own, work, *side, known);
    let mut opened = [0u32; MOST_OPENINGS];
    join_shares(&mut opened, &own, *side, &fields);
    if !checks_pass(&opened, &own, *side, &fields) {
        *side = in_phase(*side, Phase::Stopped);
        return Err(Refusal::FailedCheck);
    }
    let weights = weights_of(side.number, side.keys);
    take_work(work, known, &opened, &own, &weights);
    *side = taken_side(*side, &opened);
    Ok(())
}
