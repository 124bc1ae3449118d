// A run carried through in one process: dealt, or with books handed in, begun by both sides and carried from round to round, up to the first
// refusal. It gives back every message, both sides and the refusal.
#![tactic(auto)]

ghost use Rattle.std.specs.Prelude.{◌≡◌, ◌+◌, ◌*◌, ◌≤◌, length, slice_range};
ghost use Rattle.std.specs.Result.{result_err};
ghost use Rattle.settings.specs.Sizes.{key_count, most_bytes, work_length, book_size};
ghost use Rattle.settings.specs.Schedule.{rounds};
ghost use Rattle.side.specs.Side.{begin_call, take_call};
ghost use Rattle.execution.specs.Execution.{side_number, told, draw_in, books_given, dealt_run, given_run, executed};
ghost use Rattle.execution.specs.Held.{Stands, Fits, held_in, run_at, before_begin, answer_at, LeftBy, SendsAt, RoundsRun, Plays, run_bytes, book_length, zero_space, CutsAt, Deals, EndsAs, Executes};

use dealer::deal;
use settings::{
    KEYS, MOST_BYTES, ROUNDS, Refusal, Settings, Shape, WIDTH, WORK_LENGTH, ask_shape, book_size,
    input_size,
};
use side::{Run, begin, send, take};
use state::{Side, fresh};

// The bytes of all messages of a run, at most; and the most numbers of a book.
pub const RUN_BYTES: usize = 2 * ROUNDS as usize * MOST_BYTES;

pub const BOOK_LENGTH: usize = 1320 * WIDTH;

// What both sides and the dealer agree on before a run.
#[derive(Clone, Copy)]
pub struct RunTerms {
    pub settings: Settings,
    pub serial: u32,
    pub keys0: [u32; KEYS],
    pub keys1: [u32; KEYS],
}

// The calls that can refuse.
#[derive(Clone, Copy, Debug, PartialEq, Eq)]
pub enum CallKind {
    Deal,
    Begin,
    Send,
    Take,
    Answer,
}

// The server, which stands for the dealer too, and the phone.
#[derive(Clone, Copy, Debug, PartialEq, Eq)]
pub enum Party {
    Server,
    Phone,
}

// A call that refused, its party, and its refusal.
#[derive(Clone, Copy, Debug, PartialEq, Eq)]
pub struct RefusedCall {
    pub call: CallKind,
    pub party: Party,
    pub refusal: Refusal,
}

// A side, and where its latest message stands among the messages.
#[derive(Clone, Copy)]
pub struct Endpoint {
    pub side: Side,
    pub from: usize,
    pub to: usize,
}

// How far a run has come: both sides, and how many bytes all messages have so far; at its end, the first refusal.
#[derive(Clone, Copy)]
pub struct Execution {
    pub refused: Option<RefusedCall>,
    pub server: Endpoint,
    pub phone: Endpoint,
    pub length: usize,
}

// ---- What is lent to a run

// The two books of a deal, each in front of its array.
#[derive(Drop)]
pub struct Books {
    pub server: [u32; BOOK_LENGTH],
    pub phone: [u32; BOOK_LENGTH],
}

// What each side works in, and all messages, one behind the other.
#[derive(Drop)]
pub struct WorkSpace {
    pub server: [u32; WORK_LENGTH],
    pub phone: [u32; WORK_LENGTH],
    pub messages: [u8; RUN_BYTES],
}

// Both. It may hold anything before a run: what a run reads of it it has written. So a caller makes one and lends it to one run after another;
// of what books and working slices hold afterwards it is told nothing.
#[derive(Drop)]
pub struct RunSpace {
    pub books: Books,
    pub work: WorkSpace,
}

impl RunSpace {
    pub fn new() -> RunSpace
        ensures { result ≡ zero_space }
    {
        RunSpace {
            books: Books {
                server: [0; BOOK_LENGTH],
                phone: [0; BOOK_LENGTH],
            },
            work: WorkSpace {
                server: [0; WORK_LENGTH],
                phone: [0; WORK_LENGTH],
                messages: [0; RUN_BYTES],
            },
        }
    }
}

// ---- Parties and refusals

impl Party {
    // As the sides are numbered.
    pub fn number(self) -> u32
        ensures { result ≡ side_number self }
    {
        match self {
            Party::Server => 0,
            Party::Phone => 1,
        }
    }
}

// A call's answer, with the call and its party where it was refused.
fn answer_at<T: Drop>(
    call: CallKind,
    party: Party,
    answer: Result<T, Refusal>,
) -> Result<T, RefusedCall>
    ensures { result ≡ answer_at call party answer }
{
    match answer {
        Ok(value) => Ok(value),
        Err(refusal) => Err(RefusedCall {
            call,
            party,
            refusal,
        }),
    }
}

// ---- The calls of one side

// The run that a party begins.
fn run_at(terms: RunTerms, party: Party) -> Run
    ensures { result ≡ run_at terms party }
{
    let keys = match party {
        Party::Server => terms.keys0,
        Party::Phone => terms.keys1,
    };
    Run {
        number: party.number(),
        settings: terms.settings,
        keys,
        serial: terms.serial,
    }
}

// A party's side begins.
fn begin_at(
    e: &mut Endpoint,
    party: Party,
    run: Run,
    inputs: &[u32],
    book: &[u32],
    work: &mut [u32],
) -> Result<(), RefusedCall>
    ensures { LeftBy CallKind.Begin party (begin_call key_count e.old.side run inputs.now book.now work.old) e.old (told (result_err result)) e.new work.new }
{
    let done = begin(&mut e.side, run, inputs, book, work);
    answer_at(CallKind::Begin, party, done)
}

// It sends, behind the messages so far, of which there are `total` bytes.
fn send_at(
    e: &mut Endpoint,
    party: Party,
    work: &[u32],
    messages: &mut [u8],
    total: &mut usize,
) -> Result<(), RefusedCall>
    requires { Stands e.old.from e.old.to total.old × (total.old + most_bytes key_count ≤ length messages.old) }
    ensures { SendsAt party e.old work.now messages.old total.old (told (result_err result)) e.new total.new messages.new }
{
    let at = *total;
    let sent = send(&mut e.side, work, &mut messages[at..]);
    let length = answer_at(CallKind::Send, party, sent)?;
    e.from = at;
    e.to = at + length;
    *total = at + length;
    Ok(())
}

// It takes the latest message of the other party.
fn take_at(
    e: &mut Endpoint,
    party: Party,
    work: &mut [u32],
    heard: Endpoint,
    messages: &[u8],
) -> Result<(), RefusedCall>
    requires { Stands heard.from heard.to (length messages.now) }
    ensures { LeftBy CallKind.Take party (take_call key_count e.old.side work.old (slice_range messages.now heard.from heard.to)) e.old (told (result_err result)) e.new work.new }
{
    let done = take(&mut e.side, work, &messages[heard.from..heard.to]);
    answer_at(CallKind::Take, party, done)
}

// ---- The whole run

// Where the phone's inputs begin among the numbers, and where the draw does, or the books in its place.
#[derive(Clone, Copy)]
struct Cuts {
    phone: usize,
    draw: usize,
}

// The server's inputs come first, then the phone's, then the draw, as far as there are so many numbers.
fn cuts_of(shape: Shape, count: usize) -> Cuts
    ensures { CutsAt shape count result }
{
    let size = input_size(shape);
    let phone = size.min(count);
    Cuts {
        phone,
        draw: phone + size.min(count - phone),
    }
}

// Deals into the front of two lent books.
fn deal_at(
    terms: RunTerms,
    draw: &[u32],
    book0: &mut [u32],
    book1: &mut [u32],
) -> Result<(), RefusedCall>
    requires { (book_length ≤ length book0.old) × (book_length ≤ length book1.old) }
    ensures { Deals terms draw.now (told (result_err result)) book0.new book1.new }
{
    let shape = terms.settings.shape;
    let size = book_size(shape);
    let dealt = deal(
        shape,
        terms.keys0,
        terms.keys1,
        draw,
        &mut book0[..size],
        &mut book1[..size],
    );
    answer_at(CallKind::Deal, Party::Server, dealt)
}

impl Execution {
    // Before the first begin.
    fn new() -> Execution
        ensures { result ≡ before_begin }
    {
        let silent = Endpoint {
            side: fresh(),
            from: 0,
            to: 0,
        };
        Execution {
            refused: None,
            server: silent,
            phone: silent,
            length: 0,
        }
    }

    // One round: the server sends and the phone takes, then the phone sends and the server takes.
    fn run_round(
        &mut self,
        server: &mut [u32],
        phone: &mut [u32],
        messages: &mut [u8],
    ) -> Result<(), RefusedCall>
        requires { Fits self.old messages.old 2 }
        ensures { RoundsRun 1 self.old (held_in server.old phone.old messages.old) (told (result_err result)) self.new (held_in server.new phone.new messages.new) }
    {
        send_at(
            &mut self.server,
            Party::Server,
            server,
            messages,
            &mut self.length,
        )?;
        let heard = self.server;
        take_at(&mut self.phone, Party::Phone, phone, heard, messages)?;
        send_at(
            &mut self.phone,
            Party::Phone,
            phone,
            messages,
            &mut self.length,
        )?;
        let answered = self.phone;
        take_at(&mut self.server, Party::Server, server, answered, messages)
    }

    // The seven rounds.
    fn run_rounds(
        &mut self,
        server: &mut [u32],
        phone: &mut [u32],
        messages: &mut [u8],
    ) -> Result<(), RefusedCall>
        requires { Fits self.old messages.old (2 * rounds) }
        ensures { RoundsRun rounds self.old (held_in server.old phone.old messages.old) (told (result_err result)) self.new (held_in server.new phone.new messages.new) }
    {
        for _ in 0..ROUNDS {
            self.run_round(server, phone, messages)?;
        }
        Ok(())
    }

    // Both sides begin with their parts of the numbers and their books, and go through the rounds.
    fn play(
        &mut self,
        terms: RunTerms,
        numbers: &[u32],
        book0: &[u32],
        book1: &[u32],
        server: &mut [u32],
        phone: &mut [u32],
        messages: &mut [u8],
    ) -> Result<(), RefusedCall>
        requires { Fits self.old messages.old (2 * rounds) }
        ensures { Plays terms numbers.now book0.now book1.now self.old (held_in server.old phone.old messages.old) (told (result_err result)) self.new (held_in server.new phone.new messages.new) }
    {
        let cuts = cuts_of(terms.settings.shape, numbers.len());
        let first = cuts.phone;
        let second = cuts.draw;
        begin_at(
            &mut self.server,
            Party::Server,
            run_at(terms, Party::Server),
            &numbers[..first],
            book0,
            server,
        )?;
        begin_at(
            &mut self.phone,
            Party::Phone,
            run_at(terms, Party::Phone),
            &numbers[first..second],
            book1,
            phone,
        )?;
        self.run_rounds(server, phone, messages)
    }

    // The deal, and the run with its books.
    fn deal_and_play(
        &mut self,
        terms: RunTerms,
        numbers: &[u32],
        book0: &mut [u32],
        book1: &mut [u32],
        server: &mut [u32],
        phone: &mut [u32],
        messages: &mut [u8],
    ) -> Result<(), RefusedCall>
        requires books { (book_length ≤ length book0.old) × (book_length ≤ length book1.old) }
        requires room { (self.old ≡ before_begin) × (run_bytes ≤ length messages.old) }
        ensures { EndsAs (dealt_run terms numbers.now server.old phone.old) (told (result_err result)) self.new messages.old messages.new }
    {
        let shape = terms.settings.shape;
        let size = book_size(shape);
        let draw = cuts_of(shape, numbers.len()).draw;
        deal_at(terms, &numbers[draw..], book0, book1)?;
        self.play(
            terms,
            numbers,
            &book0[..size],
            &book1[..size],
            server,
            phone,
            messages,
        )
    }
}

// The run with a deal.
fn execute_dealt(
    terms: RunTerms,
    numbers: &[u32],
    book0: &mut [u32],
    book1: &mut [u32],
    work0: &mut [u32],
    work1: &mut [u32],
    messages: &mut [u8],
) -> Execution
    requires { (book_length ≤ length book0.old) × (book_length ≤ length book1.old) × (run_bytes ≤ length messages.old) }
    ensures { Executes (dealt_run terms numbers.now work0.old work1.old) result messages.old messages.new }
{
    let mut x = Execution::new();
    x.refused = x
        .deal_and_play(terms, numbers, book0, book1, work0, work1, messages)
        .err();
    x
}

// ---- Books in place of a draw

// Are exactly as many numbers left behind the inputs as two books have? Where the shape is refused there are no books, and the deal says so.
fn books_given(shape: Shape, numbers: &[u32]) -> bool
    ensures { result ≡ books_given shape numbers.now }
{
    if ask_shape(shape).is_err() {
        return false;
    }
    let cuts = cuts_of(shape, numbers.len());
    numbers.len() - cuts.draw == 2 * book_size(shape)
}

// The run with the books that stand among the numbers.
fn execute_given(
    terms: RunTerms,
    numbers: &[u32],
    work0: &mut [u32],
    work1: &mut [u32],
    messages: &mut [u8],
) -> Execution
    requires { (length (draw_in terms.settings.shape numbers.now) ≡ 2 * book_size terms.settings.shape) × (run_bytes ≤ length messages.old) }
    ensures { Executes (given_run terms numbers.now work0.old work1.old) result messages.old messages.new }
{
    let shape = terms.settings.shape;
    let first = cuts_of(shape, numbers.len()).draw;
    let second = first + book_size(shape);
    let book0 = &numbers[first..second];
    let book1 = &numbers[second..];
    let mut x = Execution::new();
    x.refused = x
        .play(terms, numbers, book0, book1, work0, work1, messages)
        .err();
    x
}

// ---- Either

// The run of these terms. The numbers are the server's inputs, the phone's inputs and the draw; where exactly as many are left as two books
// have, the server's book and the phone's, and nothing is dealt. Where some are missing, the calls are handed what there is. At the end all
// messages stand in front of `messages`, one behind the other; the caller lends RUN_BYTES bytes.
//
// The books are dealt into the front of two lent slices of BOOK_LENGTH numbers, and each side works in a lent slice of WORK_LENGTH (its begin
// refuses any other length). All may hold anything before, as in a `RunSpace`. (Two slices that a struct holds by `&mut` cannot be lent at a
// time: hence a parameter for each.)
pub fn execute(
    terms: RunTerms,
    numbers: &[u32],
    book0: &mut [u32],
    book1: &mut [u32],
    work0: &mut [u32],
    work1: &mut [u32],
    messages: &mut [u8],
) -> Execution
    requires { (book_length ≤ length book0.old) × (book_length ≤ length book1.old) × (run_bytes ≤ length messages.old) }
    ensures { Executes (executed terms numbers.now work0.old work1.old) result messages.old messages.new }
{
    if books_given(terms.settings.shape, numbers) {
        return execute_given(terms, numbers, work0, work1, messages);
    }
    execute_dealt(terms, numbers, book0, book1, work0, work1, messages)
}

// The same in a space of the lengths that a run needs: at the end all messages stand in front of `space.work.messages`.
pub fn execute_in(terms: RunTerms, numbers: &[u32], space: &mut RunSpace) -> Execution
    ensures run { Executes (executed terms numbers.now space.old.work.server space.old.work.phone) result space.old.work.messages space.new.work.messages }
    ensures work_size { (length space.old.work.server ≡ work_length key_count) × (length space.old.work.phone ≡ work_length key_count) }
{
    execute(
        terms,
        numbers,
        &mut space.books.server,
        &mut space.books.phone,
        &mut space.work.server,
        &mut space.work.phone,
        &mut space.work.messages,
    )
}
