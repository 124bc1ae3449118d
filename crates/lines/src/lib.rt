// One line of the line program or the load program, but for moving bytes: the run that it asks for, executed, and its output line.
#![tactic(auto)]

ghost use Rattle.std.specs.Prelude.{◌≡◌, true, ◌-◌, ◌*◌, ◌≤◌, length, drop, replicate};
ghost use Rattle.field.specs.Field.{q};
ghost use Rattle.settings.specs.Settings.{params_of};
ghost use Rattle.settings.specs.Questions.{shape_ok};
ghost use Rattle.settings.specs.Refusals.{refused};
ghost use Rattle.settings.specs.Sizes.{width, draw_length};
ghost use Rattle.generator.specs.Step.{stepped, outputs};
ghost use Rattle.text.specs.Text.{Puts};
ghost use Rattle.execution.specs.Held.{zero_space};
ghost use Rattle.lines.specs.Plain.{settings_of, request_no, result_for, result_answer, line_result, line_answer, drawn_for, line_state};
ghost use Rattle.lines.specs.Run.{terms_for, in_columns, count_for, numbers_for, numbers_in, answered_by, most_numbers, RoomForRun, LentToLine};

use execution::{RunSpace, RunTerms, execute};
use field::all_below_q;
use generator::{Generator, draw};
use settings::{KEYS, Refusal, Settings, Shape, WIDTH, ask_settings, draw_length};
use state::{Side, answer};
use syntax::{Request, put_answer, read_line};
use text::{TOO_LARGE, TextBuffer};

// The most places of an answer.
const ANSWER_PLACES: usize = 8;

// The most numbers of a run: the inputs of both sides, and the draw.
pub const RUN_NUMBERS: usize = 2 * 8 * WIDTH + 1320 * WIDTH + 144;

// What a line that asks for no run is refused with.
const MALFORMED: Refusal = Refusal::Fields;

// The numbers of an answer: how many, and the numbers, with zeros behind.
#[derive(Clone, Copy)]
struct LineAnswer {
    length: usize,
    numbers: [u32; ANSWER_PLACES],
}

// ---- The questions

// The settings of a line.
fn settings_of(request: Request) -> Settings
    ensures { result ≡ settings_of request }
{
    Settings {
        shape: Shape {
            set: request.set,
            kind: request.kind,
            n: request.count,
        },
        bound: request.bound,
    }
}

// The questions of the deal and the begins, in their order.
fn ask_request(serial: u32, request: Request) -> Result<(), Refusal>
    ensures { refused result ≡ request_no serial request }
{
    ask_settings(0, settings_of(request))?;
    if !all_below_q(&request.numbers[..request.count as usize]) {
        return Err(Refusal::NotBelowQ);
    }
    if serial < 1 {
        return Err(Refusal::Serial);
    }
    Ok(())
}

// ---- The run

// What both sides and the dealer agree on.
fn terms_of(serial: u32, request: Request) -> RunTerms
    ensures { result ≡ terms_for serial request }
{
    let settings = settings_of(request);
    RunTerms {
        settings,
        serial,
        keys0: [1; KEYS],
        keys1: [1; KEYS],
    }
}

// Each number in every column.
fn spread(out: &mut [u32], numbers: &[u32])
    requires { length out.old ≡ length numbers.now * width }
    ensures { out.new ≡ in_columns numbers.now }
{
    for (i, place) in out.iter_mut().enumerate() {
        *place = numbers[i / WIDTH];
    }
}

// What the side's answer says.
fn answered_by(side: Side) -> Result<LineAnswer, Refusal>
    ensures { numbers_in result ≡ answered_by side }
{
    let mut numbers = [0u32; ANSWER_PLACES];
    let length = answer(side, &mut numbers)?;
    Ok(LineAnswer { length, numbers })
}

// The draw of a run, into zeros; the state behind it. State 0, which no seed leads to, gives zeros: they are left as they are.
fn draw_run(state: u32, shape: Shape, out: &mut [u32]) -> u32
    requires shape_value { shape_ok shape ≡ true }
    requires out_value { out.old ≡ replicate (draw_length (params_of shape) width) 0 }
    ensures value { result ≡ stepped (draw_length (params_of shape) width) state }
    ensures out_after { out.new ≡ outputs q state (draw_length (params_of shape) width) }
{
    if state == 0 {
        return 0;
    }
    let mut generator = Generator { state };
    let _ = draw(&mut generator, shape, out);
    generator.state
}

// The numbers of a run, into zeros; the state behind its draw.
fn fill_run(state: u32, request: Request, numbers: &mut [u32]) -> u32
    requires request_value { shape_ok (settings_of request).shape ≡ true }
    requires numbers_value { numbers.old ≡ replicate (count_for request) 0 }
    ensures value { result ≡ stepped (drawn_for request) state }
    ensures numbers_after { numbers.new ≡ numbers_for state request }
{
    let coefficients = request.numbers;
    let count = request.count as usize;
    let inputs = count * WIDTH;
    spread(&mut numbers[..inputs], &coefficients[..count]);
    draw_run(
        state,
        settings_of(request).shape,
        &mut numbers[2 * inputs..],
    )
}

// Zeros again behind a run. With state 0 all behind the server's inputs has stayed zero.
fn clear_run(state: u32, inputs: usize, numbers: &mut [u32])
    requires inputs_in_bounds { inputs ≤ length numbers.old }
    requires numbers_value { state ≡ 0 → drop inputs numbers.old ≡ replicate (length numbers.old - inputs) 0 }
    ensures { numbers.new ≡ replicate (length numbers.old) 0 }
{
    if state == 0 {
        numbers[..inputs].fill(0);
        return;
    }
    numbers.fill(0);
}

// The run of a request that no question refuses, and the server's answer. The numbers are lent as zeros and left so.
fn run_in(
    state: &mut u32,
    serial: u32,
    request: Request,
    numbers: &mut [u32],
    book0: &mut [u32],
    book1: &mut [u32],
    work0: &mut [u32],
    work1: &mut [u32],
    messages: &mut [u8],
) -> Result<LineAnswer, Refusal>
    requires request_value { request_no serial request ≡ 0 }
    requires numbers_value { numbers.old ≡ replicate (count_for request) 0 }
    requires room_for_run { RoomForRun book0.old book1.old work0.old work1.old messages.old }
    ensures result_value { numbers_in result ≡ result_for serial request }
    ensures state_value { state.new ≡ stepped (drawn_for request) state.old }
    ensures numbers_unchanged { numbers.new ≡ numbers.old }
    ensures room_for_run_2 { RoomForRun book0.new book1.new work0.new work1.new messages.new }
{
    let before = *state;
    *state = fill_run(before, request, numbers);
    let terms = terms_of(serial, request);
    let end = execute(terms, numbers, book0, book1, work0, work1, messages);
    clear_run(before, request.count as usize * WIDTH, numbers);
    answered_by(end.server.side)
}

// The same in the front of as many zeros as any run needs.
fn run_request(
    state: &mut u32,
    serial: u32,
    request: Request,
    numbers: &mut [u32],
    book0: &mut [u32],
    book1: &mut [u32],
    work0: &mut [u32],
    work1: &mut [u32],
    messages: &mut [u8],
) -> Result<LineAnswer, Refusal>
    requires request_value { request_no serial request ≡ 0 }
    requires lent_to_line { LentToLine numbers.old book0.old book1.old work0.old work1.old messages.old }
    ensures result_value { numbers_in result ≡ result_for serial request }
    ensures state_value { state.new ≡ stepped (drawn_for request) state.old }
    ensures lent_to_line_2 { LentToLine numbers.new book0.new book1.new work0.new work1.new messages.new }
{
    let drawn = draw_length(settings_of(request).shape);
    let size = 2 * (request.count as usize * WIDTH) + drawn;
    run_in(
        state,
        serial,
        request,
        &mut numbers[..size],
        book0,
        book1,
        work0,
        work1,
        messages,
    )
}

// ---- The whole line

// What a line gives. A refused one draws nothing.
fn line_result(
    state: &mut u32,
    number: u64,
    line: &[u8],
    numbers: &mut [u32],
    book0: &mut [u32],
    book1: &mut [u32],
    work0: &mut [u32],
    work1: &mut [u32],
    messages: &mut [u8],
) -> Result<LineAnswer, Refusal>
    requires { LentToLine numbers.old book0.old book1.old work0.old work1.old messages.old }
    ensures result_value { numbers_in result ≡ line_result number line.now }
    ensures state_value { state.new ≡ line_state number line.now state.old }
    ensures lent_to_line { LentToLine numbers.new book0.new book1.new work0.new work1.new messages.new }
{
    if number >= TOO_LARGE {
        return Err(MALFORMED);
    }
    let Some(request) = read_line(line) else {
        return Err(MALFORMED);
    };
    let serial = number as u32;
    ask_request(serial, request)?;
    run_request(
        state, serial, request, numbers, book0, book1, work0, work1, messages,
    )
}

// The output line of a line that gives this.
fn put_result(text: &mut TextBuffer, number: u64, res: Result<LineAnswer, Refusal>)
    ensures text_after { Puts text.old text.new (result_answer number (numbers_in res)) }
    ensures res_len_bound { length (result_answer number (numbers_in res)) ≤ 112 }
{
    match res {
        Ok(answer) => {
            let count = answer.length.min(ANSWER_PLACES);
            put_answer(text, number, 0, &answer.numbers[..count]);
        }
        Err(refusal) => put_answer(text, number, refusal.number(), &[]),
    }
}

// Puts the output line for an input line without its line end. Its number is the serial of its run; a line beyond the last serial is malformed.
// Its draw is that of a generator in the state handed in; state 0 is the all-zero draw.
//
// Lent for the run, so that none of it is made anew for each line: RUN_NUMBERS zeros, which are left as zeros; and the slices of crate
// execution, whatever they hold. Each is a parameter of its own for the reason given at `execute`: two slices that a struct holds by `&mut`
// cannot be lent at a time.
pub fn answer_line(
    state: &mut u32,
    text: &mut TextBuffer,
    number: u64,
    line: &[u8],
    numbers: &mut [u32],
    book0: &mut [u32],
    book1: &mut [u32],
    work0: &mut [u32],
    work1: &mut [u32],
    messages: &mut [u8],
)
    requires { LentToLine numbers.old book0.old book1.old work0.old work1.old messages.old }
    ensures text_after { Puts text.old text.new (line_answer number line.now) }
    ensures line_len_bound { length (line_answer number line.now) ≤ 112 }
    ensures state_value { state.new ≡ line_state number line.now state.old }
    ensures lent_to_line { LentToLine numbers.new book0.new book1.new work0.new work1.new messages.new }
{
    let result = line_result(
        state, number, line, numbers, book0, book1, work0, work1, messages,
    );
    put_result(text, number, result);
}

// What goes from line to line: a generator's state, where 0 is the all-zero draw; and what a line's run needs, which is made once. The numbers
// of a run are lent as zeros and left so.
#[derive(Drop)]
pub struct LineRunner {
    pub state: u32,
    numbers: [u32; RUN_NUMBERS],
    space: RunSpace,
    ghost zeros: { numbers ≡ replicate most_numbers 0 },
}

impl LineRunner {
    pub fn new(state: u32) -> LineRunner
        ensures state_value { result.state ≡ state }
        ensures numbers_value { result.numbers ≡ replicate most_numbers 0 }
        ensures space_value { result.space ≡ zero_space }
    {
        LineRunner {
            state,
            numbers: [0; RUN_NUMBERS],
            space: RunSpace::new(),
        }
    }

    // Puts the output line for an input line without its line end.
    pub fn answer_line(&mut self, text: &mut TextBuffer, number: u64, line: &[u8])
        ensures text_after { Puts text.old text.new (line_answer number line.now) }
        ensures line_len_bound { length (line_answer number line.now) ≤ 112 }
        ensures state_value { self.new.state ≡ line_state number line.now self.old.state }
    {
        answer_line(
            &mut self.state,
            text,
            number,
            line,
            &mut self.numbers,
            &mut self.space.books.server,
            &mut self.space.books.phone,
            &mut self.space.work.server,
            &mut self.space.work.phone,
            &mut self.space.work.messages,
        );
    }
}
