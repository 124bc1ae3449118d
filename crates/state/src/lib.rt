// A side of a run, server or phone: its kept fields, what is due, its steps, its opening count and its answer.
#![tactic(auto)]

ghost use Rattle.std.specs.Prelude.{◌≡◌, ◌≤◌, ◌<◌};
ghost use Rattle.settings.specs.Schedule.{rounds, steps};
ghost use Rattle.settings.specs.Settings.{params_of};
ghost use Rattle.settings.specs.Refusals.{refused};
ghost use Rattle.settings.specs.Sizes.{openings_up_to};
ghost use Rattle.state.specs.State.{whole, stands, send_due, take_due, under_way, Whole, fresh_side, in_phase, step_of};
ghost use Rattle.state.specs.State.{phase_after, at_step, places_of, answer_limit, in_range, answer_no, written, answer_call, rounds_taken, count_call};

use lists::all_below;
use settings::{
    KEYS, ROUNDS, Refusal, STEPS, Settings, Shape, answer_places, ask_settings, keys_ok,
    openings_in, parts_of, round_after, sends_after, steps_in, taken_by,
};

// Where a side stands in its round.
#[derive(Clone, Copy, Debug, PartialEq, Eq)]
pub enum Phase {
    Sending,
    Taking,
    Stopped,
    Finished,
}

// What a side keeps: its number, 0 server and 1 phone, and settings; its keys; the serial of its latest run; where that run
// stands; and the opened answer.
#[derive(Clone, Copy)]
pub struct Side {
    pub number: u32,
    pub settings: Settings,
    pub keys: [u32; KEYS],
    pub serial: u32,
    pub round: u32,
    pub phase: Phase,
    pub answer: [u32; 8],
}

// ---- States

// A side at first.
pub fn fresh() -> Side
    ensures { result ≡ fresh_side }
{
    Side {
        number: 0,
        settings: Settings {
            shape: Shape {
                set: 0,
                kind: 0,
                n: 0,
            },
            bound: 0,
        },
        keys: [0; KEYS],
        serial: 0,
        round: 0,
        phase: Phase::Stopped,
        answer: [0; 8],
    }
}

// Are the kept fields whole? Broken ones count as stopped, whatever the phase says.
#[tactic(auto, using(crate::proofs::States::whole_is, settings::proofs::Refused::is_ok_refused))]
fn is_whole(side: Side) -> bool
    ensures { result ≡ whole side }
{
    ask_settings(side.number, side.settings).is_ok()
        && keys_ok(side.keys)
        && side.serial >= 1
        && side.round >= 1
        && side.round <= ROUNDS
}

// Are the kept fields whole, and the run in this phase?
fn stands(side: Side, phase: Phase) -> bool
    ensures { result ≡ stands side phase }
{
    is_whole(side) && side.phase == phase
}

pub fn send_due(side: Side) -> bool
    ensures { result ≡ send_due side }
{
    stands(side, Phase::Sending)
}

pub fn take_due(side: Side) -> bool
    ensures { result ≡ take_due side }
{
    stands(side, Phase::Taking)
}

pub fn under_way(side: Side) -> bool
    ensures { result ≡ under_way side }
{
    send_due(side) || take_due(side)
}

// The side in another phase.
pub fn in_phase(side: Side, phase: Phase) -> Side
    ensures { result ≡ in_phase side phase }
{
    Side { phase, ..side }
}

// ---- Steps

// The steps that the side has made in its latest run. The caller has asked for whole fields.
pub fn step_of(side: Side) -> u32
    requires { Whole side }
    ensures { (result ≡ step_of side) × (result ≤ steps) }
{
    if side.phase == Phase::Finished {
        return STEPS;
    }
    steps_in(side.number, side.round, side.phase == Phase::Sending)
}

// The phase of side `number` after `m` steps.
pub fn phase_after(number: u32, m: u32) -> Phase
    ensures { result ≡ phase_after number m }
{
    if m >= STEPS {
        return Phase::Finished;
    }
    if sends_after(number, m) {
        return Phase::Sending;
    }
    Phase::Taking
}

// The side after `m` steps, with another answer.
pub fn at_step(side: Side, m: u32, answer: [u32; 8]) -> Side
    ensures { result ≡ at_step side m answer }
{
    Side {
        round: round_after(m),
        phase: phase_after(side.number, m),
        answer,
        ..side
    }
}

// ---- Opening count

// The openings of the first `count` rounds; `opening_count` asks it of whole fields.
fn openings_up_to(shape: Shape, count: u32) -> u32
    requires { (shape.n ≤ 8) × (count ≤ rounds) }
    ensures { result ≡ openings_up_to (params_of shape) count }
{
    let mut total = 0;
    for round in 0..count {
        total += openings_in(shape, round + 1);
    }
    total
}

// The rounds whose openings the latest run has accepted. `opening_count` has asked for whole fields.
fn rounds_taken(side: Side) -> u32
    requires { Whole side }
    ensures { (result ≡ rounds_taken side) × (result ≤ rounds) }
{
    taken_by(side.number, step_of(side))
}

// How many openings the side has accepted in its latest run; 0 if none has begun or kept fields are broken.
pub fn opening_count(side: Side) -> u32
    ensures { result ≡ count_call side }
{
    if !is_whole(side) {
        return 0;
    }
    openings_up_to(side.settings.shape, rounds_taken(side))
}

// ---- Answer

// How many places the side's answer has.
fn places_of(side: Side) -> usize
    ensures { result ≡ places_of side }
{
    answer_places(side.settings.shape)
}

// What the numbers of an answer are below. `in_range` asks it of whole fields.
fn answer_limit(shape: Shape) -> u32
    requires { shape.set < 2 }
    ensures { result ≡ answer_limit (params_of shape) }
{
    if shape.kind == 0 {
        return parts_of(shape.set as usize);
    }
    2
}

// Question 15: is every number of the opened answer in range? `ask_answer` has asked for whole fields.
fn in_range(side: Side) -> bool
    requires { Whole side }
    ensures { result ≡ in_range side }
{
    let limit = answer_limit(side.settings.shape);
    let count = places_of(side);
    all_below(&side.answer[..count], limit)
}

// The questions of answer.
fn ask_answer(side: Side, out: &[u32]) -> Result<(), Refusal>
    ensures { refused result ≡ answer_no side out.now }
{
    if !stands(side, Phase::Finished) {
        return Err(Refusal::NotDue);
    }
    if !in_range(side) {
        return Err(Refusal::OutOfRange);
    }
    if out.len() < places_of(side) {
        return Err(Refusal::NoRoom);
    }
    Ok(())
}

// Writes the opened answer of a finished run in front of `out`, and gives its length.
pub fn answer(side: Side, out: &mut [u32]) -> Result<usize, Refusal>
    ensures { record { result = record { refused = refused result; length = written result }; out = out.new } ≡ answer_call side out.old }
{
    ask_answer(side, out)?;
    let count = places_of(side);
    let kept = &side.answer[..count];
    out[..count].copy_from_slice(kept);
    Ok(count)
}
