// What a run is agreed on: the settings, the refusal numbers, the number of keys, the constants of the sets, the questions about settings
// and keys, a number for each column, the order of a run, and every size that follows. Functions that require a set, a count or a round in
// its range are for the crates above, which have asked questions 1 and 2 before; a caller sizes its slices by the `.._size` functions.
#![tactic(auto)]

ghost use Rattle.std.specs.Prelude.{◌≡◌, ◌∷◌, ◌++◌, ◌+◌, ◌*◌, ◌≤◌, ◌<◌, get_or};
ghost use Rattle.field.specs.Sums.{sum_to};
ghost use Rattle.settings.specs.Sets.{scale_of, base, top_digits};
ghost use Rattle.settings.specs.Settings.{params_of};
ghost use Rattle.settings.specs.Questions.{bound_ok, key_ok, keys_ok, ask_shape, ask_settings, shape_ok};
ghost use Rattle.settings.specs.Refusals.{number_of, refused};
ghost use Rattle.settings.specs.Schedule.{rounds, steps, round_after, sends_after, taken_by, steps_in};
ghost use Rattle.settings.specs.Sizes.{key_count, width, most_openings, most_fields, openings, field_count, message_bits, bytes_for, message_length, stride, shared};
ghost use Rattle.settings.specs.Sizes.{draw_length, answer_places, message_size, book_size, draw_size, input_size, answer_size};

use field::Q;

// ---- Settings

// What a book is for: the set, the kind (0 HIGH, 1 BOUND) and N.
#[derive(Clone, Copy)]
pub struct Shape {
    pub set: u32,
    pub kind: u32,
    pub n: u32,
}

// What a run is for: the shape of its books, and the bound B.
#[derive(Clone, Copy)]
pub struct Settings {
    pub shape: Shape,
    pub bound: u32,
}

// ---- Refusals

// What a call refuses by: the first question, in its order, whose answer is no.
#[derive(Clone, Copy, Debug, PartialEq, Eq)]
pub enum Refusal {
    SideSetOrKind,
    Count,
    Bound,
    Key,
    Length,
    NotBelowQ,
    Serial,
    NotDue,
    NoRoom,
    MessageLength,
    Header,
    Fields,
    FailedCheck,
    NoBook,
    OutOfRange,
    Seed,
}

impl Refusal {
    // The number of the question.
    pub fn number(self) -> u32
        ensures { (result ≡ number_of self) × (1 ≤ result) × (result ≤ 16) }
    {
        match self {
            Refusal::SideSetOrKind => 1,
            Refusal::Count => 2,
            Refusal::Bound => 3,
            Refusal::Key => 4,
            Refusal::Length => 5,
            Refusal::NotBelowQ => 6,
            Refusal::Serial => 7,
            Refusal::NotDue => 8,
            Refusal::NoRoom => 9,
            Refusal::MessageLength => 10,
            Refusal::Header => 11,
            Refusal::Fields => 12,
            Refusal::FailedCheck => 13,
            Refusal::NoBook => 14,
            Refusal::OutOfRange => 15,
            Refusal::Seed => 16,
        }
    }
}

// ---- The number of keys a side, and what follows from it alone

// Each of the server and the phone has four keys.
pub const KEYS: usize = 4;

// Numbers of a shared number on one side: the share, and a part under each key of either side.
pub const WIDTH: usize = 1 + 2 * KEYS;

// Fields of an opening in a message: a share, and a check part under each of the receiver's keys.
pub const FIELDS_PER_OPENING: usize = 1 + KEYS;

// Places of a column, and numbers of a working slice: a column for each number of a shared number.
pub const PLACES: usize = 1536;

pub const WORK_LENGTH: usize = WIDTH * PLACES;

// Bits of a message's header (as crate message lays it out) and of a field.
const HEADER_BITS: usize = 64;

pub const FIELD_BITS: usize = 23;

// The most openings of a round, and fields of a message.
pub const MOST_OPENINGS: usize = 32;

pub const MOST_FIELDS: usize = MOST_OPENINGS * FIELDS_PER_OPENING;

// The most bytes of a message.
pub const MOST_BYTES: usize = (HEADER_BITS + FIELD_BITS * MOST_FIELDS + 7) / 8;

// ---- Constants of the sets, for the crates above, which ask question 1 first

// Set by digit: how many values each digit has.
const BASES: [[u32; 5]; 2] = [[16, 16, 24, 31, 45], [16, 32, 31, 33, 17]];

// By set: the step α, and s.
const ALPHAS: [u32; 2] = [190464, 523776];

const PARTS: [u32; 2] = [44, 16];

// By set: t(d), with d behind each entry, from 0 to 2 s + 1.
const TOP_DIGITS_0: [u32; 90] = [
    0, // 0
    1, // 1
    2, // 2
    3, // 3
    4, // 4
    5, // 5
    6, // 6
    7, // 7
    8, // 8
    9, // 9
    10, // 10
    11, // 11
    12, // 12
    13, // 13
    14, // 14
    15, // 15
    16, // 16
    17, // 17
    18, // 18
    19, // 19
    20, // 20
    21, // 21
    22, // 22
    23, // 23
    24, // 24
    25, // 25
    26, // 26
    27, // 27
    28, // 28
    29, // 29
    30, // 30
    31, // 31
    32, // 32
    33, // 33
    34, // 34
    35, // 35
    36, // 36
    37, // 37
    38, // 38
    39, // 39
    40, // 40
    41, // 41
    42, // 42
    43, // 43
    0, // 44
    1, // 45
    2, // 46
    3, // 47
    4, // 48
    5, // 49
    6, // 50
    7, // 51
    8, // 52
    9, // 53
    10, // 54
    11, // 55
    12, // 56
    13, // 57
    14, // 58
    15, // 59
    16, // 60
    17, // 61
    18, // 62
    19, // 63
    20, // 64
    21, // 65
    22, // 66
    23, // 67
    24, // 68
    25, // 69
    26, // 70
    27, // 71
    28, // 72
    29, // 73
    30, // 74
    31, // 75
    32, // 76
    33, // 77
    34, // 78
    35, // 79
    36, // 80
    37, // 81
    38, // 82
    39, // 83
    40, // 84
    41, // 85
    42, // 86
    43, // 87
    44, // 88
    45, // 89
];

const TOP_DIGITS_1: [u32; 34] = [
    0, // 0
    1, // 1
    2, // 2
    3, // 3
    4, // 4
    5, // 5
    6, // 6
    7, // 7
    8, // 8
    9, // 9
    10, // 10
    11, // 11
    12, // 12
    13, // 13
    14, // 14
    15, // 15
    0, // 16
    1, // 17
    2, // 18
    3, // 19
    4, // 20
    5, // 21
    6, // 22
    7, // 23
    8, // 24
    9, // 25
    10, // 26
    11, // 27
    12, // 28
    13, // 29
    14, // 30
    15, // 31
    16, // 32
    17, // 33
];

// How many values a digit has.
pub fn base_of(set: usize, digit: usize) -> u32
    requires { (set < 2) × (digit < 5) }
    ensures { (result ≡ base (scale_of set) digit) × (1 ≤ result) × (result ≤ 45) }
{
    BASES[set][digit]
}

// The step α.
pub fn alpha_of(set: usize) -> u32
    requires { set < 2 }
    ensures { (result ≡ (scale_of set).alpha) × (2 ≤ result) × (result ≤ 523776) }
{
    ALPHAS[set]
}

// The parts s.
pub fn parts_of(set: usize) -> u32
    requires { set < 2 }
    ensures { (result ≡ (scale_of set).parts) × (1 ≤ result) × (result ≤ 44) }
{
    PARTS[set]
}

// The list of t(d) of a set, which is not copied.
pub fn top_digits(set: usize) -> &'static [u32]
    requires { set < 2 }
    ensures { result.now ≡ top_digits (scale_of set).parts }
{
    if set == 0 {
        return &TOP_DIGITS_0;
    }
    &TOP_DIGITS_1
}

// ---- Questions that several calls ask

// Question 3.
pub fn bound_ok(kind: u32, bound: u32) -> bool
    ensures { result ≡ bound_ok kind bound }
{
    if kind == 0 {
        return bound == 0;
    }
    1 <= bound && bound <= 4190208
}

// Question 4, of one key.
fn key_ok(key: u32) -> bool
    ensures { result ≡ key_ok key }
{
    1 <= key && key < Q
}

// Question 4, of a side's keys.
pub fn keys_ok(keys: [u32; KEYS]) -> bool
    ensures { result ≡ keys_ok keys }
{
    keys.iter().all(|key| key_ok(*key))
}

// Questions 1 and 2.
pub fn ask_shape(shape: Shape) -> Result<(), Refusal>
    ensures { refused result ≡ ask_shape shape 0 }
{
    if shape.set >= 2 || shape.kind >= 2 {
        return Err(Refusal::SideSetOrKind);
    }
    if shape.n < 1 || shape.n > 8 {
        return Err(Refusal::Count);
    }
    Ok(())
}

// Questions 1 to 3 of a side's number and its settings.
pub fn ask_settings(number: u32, settings: Settings) -> Result<(), Refusal>
    ensures { refused result ≡ ask_settings number settings 0 }
{
    if number >= 2 {
        return Err(Refusal::SideSetOrKind);
    }
    let shape = settings.shape;
    ask_shape(shape)?;
    if !bound_ok(shape.kind, settings.bound) {
        return Err(Refusal::Bound);
    }
    Ok(())
}

// ---- A number for each column

// One number for the share, and those for the parts under the server's keys and under the phone's.
pub fn for_columns(share: u32, keys0: [u32; KEYS], keys1: [u32; KEYS]) -> [u32; WIDTH]
    ensures { result ≡ share ∷ keys0 ++ keys1 }
{
    let mut columns = [share; WIDTH];
    columns[1..1 + KEYS].copy_from_slice(&keys0);
    columns[1 + KEYS..].copy_from_slice(&keys1);
    columns
}

// ---- The order of a run. A step of a side is a send or a take; `m` is how many it has made.

pub const ROUNDS: u32 = 7;

pub const STEPS: u32 = 2 * ROUNDS;

// The round in which a side stands after `m` steps.
pub fn round_after(m: u32) -> u32
    ensures { result ≡ round_after m }
{
    if m < STEPS {
        return m / 2 + 1;
    }
    ROUNDS
}

// Does side `number` send after `m` steps? Else it takes.
pub fn sends_after(number: u32, m: u32) -> bool
    ensures { result ≡ sends_after number m }
{
    m % 2 == number
}

// The rounds that side `number` has taken after `m` steps. Crate state asks it of a side whose kept fields are whole.
pub fn taken_by(number: u32, m: u32) -> u32
    requires { (number < 2) × (m ≤ steps) }
    ensures { result ≡ taken_by number m }
{
    (m + number) / 2
}

// The steps that side `number` has made which stands in a round, to send or to take; asked as `taken_by` is.
pub fn steps_in(number: u32, round: u32, sending: bool) -> u32
    requires { (number < 2) × (1 ≤ round) × (round ≤ rounds) }
    ensures { result ≡ steps_in number round sending }
{
    if sending {
        return 2 * (round - 1) + number;
    }
    2 * (round - 1) + (1 - number)
}

// ---- Sizes, for the crates above, which ask questions 1 and 2 first

// How many openings a round has.
pub fn openings_in(shape: Shape, round: u32) -> u32
    requires { shape.n ≤ 8 }
    ensures { (result ≡ openings (params_of shape) round) × (result ≤ most_openings) }
{
    if round == 1 {
        return shape.n;
    }
    if round <= 5 {
        return 4 * shape.n;
    }
    if shape.kind == 0 {
        return shape.n;
    }
    1
}

// How many fields a round's message has.
pub fn field_count(shape: Shape, round: u32) -> usize
    requires { shape.n ≤ 8 }
    ensures { (result ≡ field_count key_count (params_of shape) round) × (result ≤ most_fields key_count) }
{
    FIELDS_PER_OPENING * openings_in(shape, round) as usize
}

// The length in bytes of a message with so many fields; crate message has them counted by `field_count`.
pub fn length_of(fields: usize) -> usize
    requires { fields ≤ most_fields key_count }
    ensures { result ≡ bytes_for (message_bits fields) }
{
    (HEADER_BITS + FIELD_BITS * fields + 7) / 8
}

// The length in bytes of a round's message.
pub fn message_length(shape: Shape, round: u32) -> usize
    requires { shape.n ≤ 8 }
    ensures { result ≡ message_length key_count (params_of shape) round }
{
    length_of(field_count(shape, round))
}

// The numbers of the five digits' vectors, together.
fn vectors_length(set: u32) -> usize
    requires { set < 2 }
    ensures { (result ≡ sum_to 5 (base (scale_of set))) × (result ≤ 132) }
{
    if set == 0 {
        return 132;
    }
    129
}

// How many shared numbers stand in a book for one coefficient.
pub fn stride_of(shape: Shape) -> usize
    requires { shape.set < 2 }
    ensures { (result ≡ stride (params_of shape)) × (result ≤ 165) }
{
    let coefficient = 1 + vectors_length(shape.set) + 24;
    if shape.kind == 0 {
        return coefficient + 8;
    }
    coefficient
}

// How many shared numbers a book holds.
pub fn shared_of(shape: Shape) -> usize
    requires { (shape.set < 2) × (shape.n ≤ 8) }
    ensures { (result ≡ shared (params_of shape)) × (result ≤ 1320) }
{
    let n = shape.n as usize;
    let end = n * stride_of(shape);
    if shape.kind == 0 {
        return end;
    }
    end + n + 3
}

// How many numbers a draw has.
pub fn draw_length(shape: Shape) -> usize
    requires { (shape.set < 2) × (shape.n ≤ 8) }
    ensures { (result ≡ draw_length (params_of shape) width) × (result ≤ 1320 * width + 144) }
{
    let size = shared_of(shape) * WIDTH;
    let n = shape.n as usize;
    if shape.kind == 0 {
        return size + 18 * n;
    }
    size + 17 * n + 1
}

// How many places an answer has.
pub fn answer_places(shape: Shape) -> usize
    ensures { result ≡ answer_places (params_of shape) }
{
    if shape.kind == 0 {
        return shape.n as usize;
    }
    1
}

// ---- Sizes for whoever lends slices: 0 where question 1 or 2 says no

// Do set, kind and N pass questions 1 and 2?
fn shape_ok(shape: Shape) -> bool
    ensures { result ≡ shape_ok shape }
{
    ask_shape(shape).is_ok()
}

// A message's bytes; 0 also where there is no such round.
pub fn message_size(shape: Shape, round: u32) -> usize
    ensures { result ≡ message_size shape round }
{
    if !shape_ok(shape) {
        return 0;
    }
    if round < 1 || round > ROUNDS {
        return 0;
    }
    message_length(shape, round)
}

// A book's numbers.
pub fn book_size(shape: Shape) -> usize
    ensures { result ≡ book_size shape }
{
    if !shape_ok(shape) {
        return 0;
    }
    shared_of(shape) * WIDTH
}

// A draw's numbers.
pub fn draw_size(shape: Shape) -> usize
    ensures { result ≡ draw_size shape }
{
    if !shape_ok(shape) {
        return 0;
    }
    draw_length(shape)
}

// The numbers of a side's inputs.
pub fn input_size(shape: Shape) -> usize
    ensures { result ≡ input_size shape }
{
    if !shape_ok(shape) {
        return 0;
    }
    shape.n as usize * WIDTH
}

// The places of an answer.
pub fn answer_size(shape: Shape) -> usize
    ensures { result ≡ answer_size shape }
{
    if !shape_ok(shape) {
        return 0;
    }
    answer_places(shape)
}
