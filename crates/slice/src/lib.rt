// A side's working slice: where its numbers stand, how it is set at the begin, what a public 1 adds to each of its columns, reads of the
// numbers kept in it, and weighted sums over a digit's vector in one of its columns. Who calls has asked the questions first, and
// knows each place and digit to be in its range.
#![tactic(auto)]

ghost use Rattle.std.specs.Prelude.{◌≡◌, cond, List, MatchOption, ◌⊎◌, ℕ, ◌+◌, ◌*◌, ◌-◌, ◌%◌, ◌≤◌, ◌<◌, leb, ltb, length, get_or};
ghost use Rattle.lists.specs.Lists.{fill, list_to};
ghost use Rattle.field.specs.Field.{q};
ghost use Rattle.field.specs.Forms.{value, sum, ◌⊟◌};
ghost use Rattle.field.specs.Sums.{sum_to};
ghost use Rattle.settings.specs.Questions.{ShapeReady};
ghost use Rattle.settings.specs.Sets.{top_digits};
ghost use Rattle.settings.specs.Settings.{params_of};
ghost use Rattle.settings.specs.Sizes.{key_count, width, most_openings, shared, places, work_length};
ghost use Rattle.slice.specs.Layout.{own_at, registers, own_in, masked_in, begun_place, begun_work, with_batch, weights};
ghost use Rattle.slice.specs.Weights.{weigh, top_rises, TopFits};
ghost use Rattle.slice.specs.declared.Rule.TheVariants.{Zero, Top};

use field::{Q, Q64, sub_mod};
use settings::{KEYS, PLACES, Shape, WIDTH, for_columns, shared_of};

// Where in a column stand the inputs, the two running registers of each coefficient, this side's
// own numbers for the openings, and (in column 0 alone) the masked numbers.
pub const INPUT: usize = 1320;

pub const FIRST: usize = 1328;

pub const SECOND: usize = 1336;

pub const OWN: usize = 1344;

pub const MASKED: usize = 1376;

// How the entries of a digit's vector are summed: data of a gate, which the specification reads too.
#[derive(Clone, Copy)]
pub enum Rule {
    Carry,
    Zero,
    Top,
    Over,
    Below,
}

// A weighted sum over the n entries of a digit's vector at a place: their weights are by the rule, its limit and the public digit.
#[derive(Clone, Copy)]
pub struct Weighted {
    pub place: usize,
    pub n: usize,
    pub rule: Rule,
    pub limit: u32,
    pub digit: u32,
}

// ---- Begin

// How many numbers one block of zeros has: `fill` is compiled to a call of memset. Up to these 2,048 bytes memset
// stores many bytes at a time; for more it uses one instruction that is counted once for each byte, and takes as long.
const BLOCK: usize = 512;

// How many shared numbers of a book are put into the columns at a time.
const BATCH: usize = 64;

// Sets numbers to 0, in blocks.
fn clear(numbers: &mut [u32])
    ensures { (k : ℕ) → get_or numbers.new k 0 ≡ 0 }
{
    let n = numbers.len();
    for at in (0..n).step_by(BLOCK) {
        numbers[at..at + BLOCK.min(n - at)].fill(0);
    }
}

// One number of each of the first `count` shared numbers of `from`, from a place on.
fn load(work: &mut [u32], at: usize, from: &[u32], column: usize, count: usize)
    requires { (at + count ≤ length work.old) × (column < width) × (count * width ≤ length from.now) }
    ensures { work.new ≡ fill work.old at count (λ (i : ℕ). get_or from.now (i * width + column) 0) }
{
    for i in 0..count {
        work[at + i] = from[i * WIDTH + column];
    }
}

// A batch: n shared numbers of a book, from number `first` on, into all columns.
fn load_batch(work: &mut [u32], book: &[u32], first: usize, n: usize)
    requires { (length work.old ≡ work_length key_count) × (first + n ≤ 1320) × ((first + n) * width ≤ length book.now) }
    ensures { work.new ≡ with_batch book.now first n work.old }
{
    let from = first * WIDTH;
    for c in 0..WIDTH {
        load(work, c * PLACES + first, &book[from..], c, n);
    }
}

// The first `count` shared numbers of a book, a batch at a time: a batch stays in the processor's cache while each column takes its own.
fn load_book(work: &mut [u32], book: &[u32], count: usize)
    requires { (length work.old ≡ work_length key_count) × (count ≤ 1320) × (count * width ≤ length book.now) }
    ensures { work.new ≡ with_batch book.now 0 count work.old }
{
    for first in (0..count).step_by(BATCH) {
        load_batch(work, book, first, BATCH.min(count - first));
    }
}

// A column behind the book's numbers: zeros, the inputs, zeros. Each place is written once.
fn finish_column(work: &mut [u32], column: usize, count: usize, inputs: &[u32], n: usize)
    requires { (column < width) × (length work.old ≡ work_length key_count) × (count ≤ 1320) × (n ≤ 8) × (n * width ≤ length inputs.now) }
    ensures { (book : List ℕ) → work.new ≡ fill work.old (column * places + count) (places - count)
        (λ (k : ℕ). begun_place count n width inputs.now book column (count + k)) }
{
    let at = column * PLACES;
    clear(&mut work[at + count..at + INPUT]);
    load(work, at + INPUT, inputs, column, n);
    clear(&mut work[at + INPUT + n..at + PLACES]);
}

// Sets the whole slice for a run: book and inputs column by column, 0 elsewhere.
pub fn begin_work(work: &mut [u32], shape: Shape, inputs: &[u32], book: &[u32])
    requires shape_ready { ShapeReady shape }
    requires inputs_len { (length inputs.now ≡ shape.n * width) × (length book.now ≡ shared (params_of shape) * width) × (length work.old ≡ work_length key_count) }
    ensures { work.new ≡ begun_work (params_of shape) width inputs.now book.now }
{
    let count = shared_of(shape);
    let n = shape.n as usize;
    load_book(work, book, count);
    for c in 0..WIDTH {
        finish_column(work, c, count, inputs, n);
    }
}

// ---- Columns and kept numbers

// What a public 1 adds to each column on side `number`, 0 or 1 as its caller's state holds it, whose keys these are.
pub fn weights_of(number: u32, keys: [u32; KEYS]) -> [u32; WIDTH]
    ensures { result ≡ weights key_count number keys }
{
    let none = [0u32; KEYS];
    if number == 0 {
        return for_columns(1, keys, none);
    }
    for_columns(0, none, keys)
}

// Register i of a column.
pub fn register(column: &[u32; PLACES], i: usize) -> u32
    requires { i < own_at 0 }
    ensures { result ≡ registers column.now i }
{
    column[i]
}

// The masked numbers that the slice holds.
pub fn masked_in(work: &[u32]) -> [u32; 8]
    requires { places ≤ length work.now }
    ensures { (j : ℕ) → get_or result j 0 ≡ masked_in work.now j }
{
    let mut ys = [0u32; 8];
    ys.copy_from_slice(&work[MASKED..MASKED + 8]);
    ys
}

// The first own numbers for openings that a column holds, in front of `out`.
pub fn own_column(out: &mut [u32], work: &[u32], column: usize, count: usize)
    requires { (length work.now ≡ work_length key_count) × (column < width) × (count ≤ most_openings) × (count ≤ length out.old) }
    ensures { out.new ≡ fill out.old 0 count (own_in work.now column) }
{
    let at = column * PLACES + OWN;
    out[..count].copy_from_slice(&work[at..at + count]);
}

// ---- Sums over a digit's vector

// A weight times an entry.
fn times(a: u32, b: u32) -> u64
    requires { a < 16777216 }
    ensures { (result ≡ a * b) × (result < 72057594037927936) }
{
    u64::from(a) * u64::from(b)
}

// Entries `from` to `to` of the vector at a place, each once. Sums are reduced once.
fn part_sum(column: &[u32; PLACES], place: usize, from: usize, to: usize) -> u32
    requires { (place + to ≤ own_at 0) × (to ≤ 64) × (from ≤ 64) }
    ensures { result ≡ sum_to (to - from) (λ (x : ℕ). registers column.now (place + (from + x))) % q }
{
    let mut total: u64 = 0;
    for j in from..to {
        total += u64::from(register(column, place + j));
    }
    (total % Q64) as u32
}

// The entries of the vector, entry x times entry x + d of the list, d the digit. Sums are reduced once.
fn listed_sum(column: &[u32; PLACES], terms: Weighted, list: &[u32]) -> u32
    requires places_in_bounds { (terms.place + terms.n ≤ own_at 0) × (terms.n ≤ 64) × (terms.n + terms.digit ≤ length list.now) }
    requires by_index { (i : ℕ) → i < length list.now → get_or list.now i 0 < 16777216 }
    ensures { result ≡ sum_to terms.n (λ (x : ℕ). get_or list.now (x + terms.digit) 0 * registers column.now (terms.place + x)) % q }
{
    let d = terms.digit as usize;
    let mut total: u64 = 0;
    for j in 0..terms.n {
        total += times(list[j + d], register(column, terms.place + j));
    }
    (total % Q64) as u32
}

// What each entry of a list grows by to become the next, with q added, so that no difference falls below 0.
pub fn rises_into(rises: &mut [u32], list: &[u32])
    requires list_len { length list.now ≡ length rises.old + 1 }
    requires by_index { (i : ℕ) → i < length list.now → get_or list.now i 0 ≤ q }
    ensures { rises.new ≡ list_to (length rises.old) (λ (d : ℕ). get_or list.now (d + 1) 0 + q - get_or list.now d 0) }
{
    for (d, rise) in rises.iter_mut().enumerate() {
        *rise = list[d + 1] + Q - list[d];
    }
}

// The entry x below b with (x + d) mod b = 0.
fn zero_entry(b: u32, d: u32) -> usize
    requires { (1 ≤ b) × (d ≤ b) }
    ensures { (result < b) × ((result + d ≡ 0) ⊎ (result + d ≡ b)) }
{
    if d == 0 {
        return 0;
    }
    (b - d) as usize
}

// The entries of the vector, each times its weight by the rule. But for Top's, weights are 0 or 1: the sum goes through the entries
// of weight 1 alone. Top's stand in the list of t(d), `tops`, which no other rule reads.
pub fn weighted_sum(column: &[u32; PLACES], terms: Weighted, tops: &[u32]) -> u32
    requires places_in_bounds { (terms.place + terms.n ≤ own_at 0) × (terms.n ≤ 64) × (1 ≤ terms.limit) × (terms.limit ≤ 45) }
    requires n_value { (terms.rule ≡ Zero → (terms.n ≡ terms.limit) × (terms.digit ≤ terms.limit)) × (terms.rule ≡ Top → TopFits top_digits terms tops.now) }
    ensures { (κ : ℕ) → result ≡ value q κ (registers column.now) (sum terms.n terms.place (weigh terms.rule terms.limit terms.digit)) }
{
    let place = terms.place;
    let n = terms.n;
    let b = terms.limit;
    let d = terms.digit;
    match terms.rule {
        Rule::Carry => part_sum(column, place, b.saturating_sub(d) as usize, n),
        Rule::Zero => register(column, place + zero_entry(b, d)) % Q,
        Rule::Top => listed_sum(column, terms, tops),
        Rule::Over => part_sum(column, place, (b + 1).saturating_sub(d) as usize, n),
        Rule::Below => part_sum(column, place, 0, (d as usize).min(n)),
    }
}

// Entry x of the vector, or 0 where there is none.
fn entry_at(column: &[u32; PLACES], terms: Weighted, x: Option<u32>) -> u32
    requires { terms.place + terms.n ≤ own_at 0 }
    ensures { MatchOption x (result ≡ 0) (λ x. result ≡ cond (ltb x terms.n) (registers column.now (terms.place + x)) 0 % q) }
{
    match x {
        Some(x) if (x as usize) < terms.n => register(column, terms.place + x as usize) % Q,
        _ => 0,
    }
}

// What the weighted sum grows by where the digit is one higher: one weight becomes 1, for Zero one becomes 0 too. For Top any may change:
// `rises` has by how much, and no other rule reads it.
pub fn raised_by(column: &[u32; PLACES], terms: Weighted, rises: &[u32]) -> u32
    requires places_in_bounds { (terms.place + terms.n ≤ own_at 0) × (terms.n ≤ 64) × (1 ≤ terms.limit) × (terms.limit ≤ 45) × (terms.digit < 65536) }
    requires n_value { (terms.rule ≡ Zero → (terms.n ≡ terms.limit) × (terms.digit + 1 ≤ terms.limit)) × (terms.rule ≡ Top → TopFits top_rises terms rises.now) }
    ensures { (κ : ℕ) → result
        ≡ value q κ (registers column.now) (sum terms.n terms.place (weigh terms.rule terms.limit (terms.digit + 1)) ⊟ sum terms.n terms.place (weigh terms.rule terms.limit terms.digit)) }
{
    let place = terms.place;
    let b = terms.limit;
    let d = terms.digit;
    match terms.rule {
        Rule::Carry => entry_at(column, terms, b.checked_sub(d + 1)),
        Rule::Zero => sub_mod(
            register(column, place + zero_entry(b, d + 1)),
            register(column, place + zero_entry(b, d)),
        ),
        Rule::Top => listed_sum(column, terms, rises),
        Rule::Over => entry_at(column, terms, b.checked_sub(d)),
        Rule::Below => entry_at(column, terms, Some(d)),
    }
}
