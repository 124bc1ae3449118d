// The seven rounds on a side's working slice: its numbers for a round's openings, and the slice after a round. What crate side has found out
// by its questions, the functions require: whole settings, lengths, and numbers below q.
#![tactic(auto)]

ghost use Rattle.std.specs.Prelude.{◌≡◌, true, ◌≢◌, List, [], ℕ, ◌+◌, ◌*◌, ◌/◌, ◌%◌, ◌≤◌, ◌<◌, length, get_or};
ghost use Rattle.lists.specs.Lists.{fill, fill_by, all_below};
ghost use Rattle.field.specs.Field.{q};
ghost use Rattle.field.specs.Forms.{value};
ghost use Rattle.settings.specs.Sets.{scale_of, top_digits};
ghost use Rattle.settings.specs.Settings.{params_of, terms_of};
ghost use Rattle.settings.specs.Sizes.{openings, most_openings, places, width};
ghost use Rattle.settings.specs.Questions.{Ready};
ghost use Rattle.slice.specs.Weights.{top_rises};
ghost use Rattle.slice.specs.Layout.{own_at, running_at, column, masked_in};
ghost use Rattle.steps.specs.Work.{opening_on, running_on, taken_columns, taken_work};
ghost use Rattle.steps.specs.Context.{public_by, ContextOf, SplitsBelow};
ghost use Rattle.steps.specs.Gates.{GateFits, TermsFit, Listed, sum_form, open_u, open_v, result_form};
ghost use Rattle.column.specs.Held.{Prepared, HeldAll, RegistersHeld, Made, GatesHeld, sums_top, RoundList, masked_after, Gives};

mod choice;
mod numbers;

pub use choice::{ChosenColumns, Column, ColumnChoice};
use lists::copy_numbers;
use numbers::RoundNumbers;
use settings::{MOST_OPENINGS, PLACES, Settings, WIDTH, openings_in, top_digits};
use slice::{FIRST, MASKED, OWN, SECOND, Weighted, register, rises_into};
use steps::{
    Context, Factors, Gate, after_check, column_of, context_of, gate_of, gate_value, insides_value,
    open_check, open_input, open_u, open_v, split_place, sum_value, terms_of,
};

// ---- One number in each column

// The number that `value` has for each of the first columns, in order, at the same place of each: `stride` places of `out` for a column.
fn into_columns<F: Fn(usize) -> u32>(
    out: &mut [u32],
    at: usize,
    stride: usize,
    count: usize,
    value: F,
)
    requires room { (at < stride) × (stride * count ≤ length out.old) }
    requires takes { (f : ℕ) → f < count → F.pre value f }
    ensures { (numbers : ℕ → ℕ) → Gives (F.post value) count numbers → out.new ≡ fill_by stride out.old at count numbers }
{
    for f in 0..count {
        out[at + stride * f] = value(f);
    }
}

// ---- A side's numbers for the openings of a round

// Opening o of round 1, of round 6 of HIGH, or of round 7: no digit is looked at.
fn plain_opening(work: &[u32], col: Column, settings: Settings, round: u32, o: usize) -> u32
    requires ready { Ready settings }
    requires places_in_bounds { ((col.index + 1) * places ≤ length work.now) × (o < openings (params_of settings.shape) round) }
    requires lt_round { (round ≢ 1 → 5 < round) × (round ≡ 6 → settings.shape.kind ≡ 0) }
    ensures { (masked : ℕ → ℕ) → result ≡ opening_on (public_by settings masked) round col.weight (column work.now col.index) o }
{
    let column = column_of(work, col.index);
    if round == 1 {
        return open_input(column, col.weight, settings, o);
    }
    if round == 6 {
        let zeros = register(column, SECOND + o);
        return open_check(column, col.weight, settings.shape, o, zeros);
    }
    register(column, FIRST + o)
}

// Opening by opening, each in all columns.
fn prepare_plain(out: &mut [u32], columns: ChosenColumns, known: Context)
    requires ready { Ready known.settings }
    requires out_long { most_openings * columns.choice.count ≤ length out.old }
    requires round { (known.round ≢ 1 → 5 < known.round) × (known.round ≡ 6 → known.settings.shape.kind ≡ 0) }
    ensures { (masked : ℕ → ℕ) → Prepared (public_by known.settings masked) known.round columns.entry (openings (params_of known.settings.shape) known.round) out.new }
{
    let settings = known.settings;
    let round = known.round;
    let work = columns.work;
    let count = openings_in(settings.shape, round) as usize;
    for o in 0..count {
        into_columns(out, o, MOST_OPENINGS, columns.choice.count, |f| {
            plain_opening(work, columns.at(f), settings, round, o)
        });
    }
}

// Round 6 of BOUND: the one opening.
fn prepare_insides(out: &mut [u32], columns: ChosenColumns, known: Context)
    requires ready { Ready known.settings }
    requires out_long { most_openings * columns.choice.count ≤ length out.old }
    requires round { (known.settings.shape.kind ≢ 0) × (known.round ≡ 6) }
    ensures { (masked : ℕ → ℕ) → ContextOf known.settings known.round masked known
        → Prepared (public_by known.settings masked) known.round columns.entry 1 out.new }
{
    let shape = known.settings.shape;
    let work = columns.work;
    into_columns(out, 0, MOST_OPENINGS, columns.choice.count, |f| {
        let col = columns.at(f);
        let column = column_of(work, col.index);
        open_check(
            column,
            col.weight,
            shape,
            0,
            insides_value(column, col.weight, known),
        )
    });
}

// Rounds 2 to 5: gate by gate, each made once for all columns, with the round's list for F' − F.
fn prepare_gates(out: &mut [u32], columns: ChosenColumns, known: Context, rises: &[u32])
    requires ready { Ready known.settings × SplitsBelow known × RoundList top_rises known rises.now }
    requires out_long { most_openings * columns.choice.count ≤ length out.old }
    requires round { (2 ≤ known.round) × (known.round ≤ 5) }
    ensures { (masked : ℕ → ℕ) → ContextOf known.settings known.round masked known
        → Prepared (public_by known.settings masked) known.round columns.entry (4 * known.settings.shape.n) out.new }
{
    let shape = known.settings.shape;
    let i = (known.round - 1) as usize;
    let work = columns.work;
    let choice = columns.choice;
    for g in 0..2 * shape.n as usize {
        let x = split_place(shape.kind, g);
        let split = known.splits[x];
        let gate = gate_of(shape, split, g, i);
        into_columns(out, 2 * g, MOST_OPENINGS, choice.count, |f| {
            open_u(column_of(work, choice.place(f)), gate)
        });
        into_columns(out, 2 * g + 1, MOST_OPENINGS, choice.count, |f| {
            open_v(column_of(work, choice.place(f)), gate, rises)
        });
    }
}

// Does the round sum F and F'?
fn sums_top(kind: u32, round: u32) -> bool
    ensures { result ≡ sums_top kind round }
{
    if kind != 0 {
        return false;
    }
    round == 5
}

// The same in a round that sums F' − F, with the set's list for F: all its entries but the last grow to the next.
fn prepare_last<const N: usize>(
    out: &mut [u32],
    columns: ChosenColumns,
    known: Context,
    tops: &[u32],
)
    requires ready { Ready known.settings × SplitsBelow known × (tops.now ≡ top_digits (scale_of known.settings.shape.set).parts) × (length tops.now ≡ N + 1) }
    requires out_long { most_openings * columns.choice.count ≤ length out.old }
    requires round { (2 ≤ known.round) × (known.round ≤ 5) }
    ensures { (masked : ℕ → ℕ) → ContextOf known.settings known.round masked known
        → Prepared (public_by known.settings masked) known.round columns.entry (4 * known.settings.shape.n) out.new }
{
    let mut rises = [0u32; N];
    rises_into(&mut rises, tops);
    prepare_gates(out, columns, known, &rises);
}

// The same, with the list of the set where the round reads one. What it grows by fills an array, whose length is the set's.
fn prepare_digits(out: &mut [u32], columns: ChosenColumns, known: Context)
    requires ready { Ready known.settings × SplitsBelow known }
    requires out_long { most_openings * columns.choice.count ≤ length out.old }
    requires round { (2 ≤ known.round) × (known.round ≤ 5) }
    ensures { (masked : ℕ → ℕ) → ContextOf known.settings known.round masked known
        → Prepared (public_by known.settings masked) known.round columns.entry (4 * known.settings.shape.n) out.new }
{
    let shape = known.settings.shape;
    if !sums_top(shape.kind, known.round) {
        prepare_gates(out, columns, known, &[]);
        return;
    }
    let tops = top_digits(shape.set as usize);
    if shape.set == 0 {
        prepare_last::<89>(out, columns, known, tops);
        return;
    }
    prepare_last::<33>(out, columns, known, tops);
}

// A side's numbers for the openings of a round, in a choice of columns: 32 places of `out` for each. Crate opening asks for round 1 to 7,
// with the context of the masked numbers that the slice holds.
pub fn prepare(out: &mut [u32], columns: ChosenColumns, known: Context)
    requires ready { Ready known.settings }
    requires out_long { most_openings * columns.choice.count ≤ length out.old }
    requires round { (1 ≤ known.round) × (all_below q columns.work.now ≡ true) }
    requires context_of { ContextOf known.settings known.round (masked_in columns.work.now) known }
    ensures { Prepared (public_by known.settings (masked_in columns.entry.work.now)) known.round columns.entry (openings (params_of known.settings.shape) known.round) out.new }
{
    let round = known.round;
    if round == 1 {
        prepare_plain(out, columns, known);
        return;
    }
    if round <= 5 {
        prepare_digits(out, columns, known);
        return;
    }
    if known.settings.shape.kind == 0 {
        prepare_plain(out, columns, known);
        return;
    }
    if round == 6 {
        prepare_insides(out, columns, known);
        return;
    }
    prepare_plain(out, columns, known);
}

// ---- The running registers after a round: 16 places of `next` for each column

// The result of a gate in all columns, from this side's own numbers for its two openings and the opened ones: openings o and o + 1.
fn results_into(next: &mut [u32], numbers: RoundNumbers, gate: Gate, tops: &[u32])
    requires gate_fits { GateFits gate × Listed top_digits gate.terms tops.now }
    requires next_long { 16 * length numbers.weights.now ≤ length next.old }
    requires opened_long { 4 * gate.j + 2 * gate.which + 1 < length numbers.opened.now }
    requires by_index { (c : ℕ) → c < length numbers.weights.now
        → (get_or numbers.own.now (most_openings * c + (4 * gate.j + 2 * gate.which)) 0
        ≡ value q (get_or numbers.weights.now c 0) (column numbers.work.now c) (open_u gate))
        × (get_or numbers.own.now (most_openings * c + (4 * gate.j + 2 * gate.which + 1)) 0
        ≡ value q (get_or numbers.weights.now c 0) (column numbers.work.now c) (open_v gate)) }
    ensures { next.new ≡ fill_by 16 next.old (8 * gate.which + gate.j) (length numbers.entry.weights.now)
        (λ (c : ℕ). value q (get_or numbers.entry.weights.now c 0) (column numbers.entry.work.now c) (result_form gate
        (get_or numbers.entry.opened.now (4 * gate.j + 2 * gate.which) 0) (get_or numbers.entry.opened.now (4 * gate.j + 2 * gate.which + 1) 0))) }
{
    let work = numbers.work;
    let weights = numbers.weights;
    let own = numbers.own;
    let o = 4 * gate.j + 2 * gate.which;
    let at = 8 * gate.which + gate.j;
    let joined = Factors {
        u: numbers.opened[o],
        v: numbers.opened[o + 1],
    };
    into_columns(next, at, 16, weights.len(), |c| {
        let mine = Factors {
            u: own[MOST_OPENINGS * c + o],
            v: own[MOST_OPENINGS * c + (o + 1)],
        };
        gate_value(column_of(work, c), weights[c], gate, mine, joined, tops)
    });
}

// The sum of a gate in one column: what round 1 makes of digit 0. It names no public number, so the weight does not matter.
fn first_sum(work: &[u32], col: usize, terms: Weighted) -> u32
    requires terms_fit { TermsFit terms × Listed top_digits terms [] }
    requires places_in_bounds { (col + 1) * places ≤ length work.now }
    ensures { result ≡ value q 0 (column work.now col) (sum_form terms 0) }
{
    sum_value(column_of(work, col), terms, &[])
}

// Round 1: it makes what round 2 finds, with the context of round 2.
fn first_registers(next: &mut [u32], work: &[u32], columns: usize, known: Context)
    requires ready { Ready known.settings × SplitsBelow known }
    requires round_value { (known.round ≡ 2) × (16 * columns ≤ length next.old) × (columns * places ≤ length work.now) }
    ensures { (masked opened : ℕ → ℕ) (κs : List ℕ) → length κs ≡ columns → ContextOf known.settings known.round masked known
        → RegistersHeld (public_by known.settings masked) 1 opened κs work.now (2 * known.settings.shape.n) next.new }
{
    let shape = known.settings.shape;
    for g in 0..2 * shape.n as usize {
        let x = split_place(shape.kind, g);
        let split = known.splits[x];
        let terms = terms_of(shape, split, g, 0);
        into_columns(next, 8 * (g % 2) + g / 2, 16, columns, |c| {
            first_sum(work, c, terms)
        });
    }
}

// Rounds 2 to 5: gate by gate, each made once for all columns, with the round's list for F.
fn gate_registers(next: &mut [u32], numbers: RoundNumbers, known: Context, tops: &[u32])
    requires ready { Ready known.settings × SplitsBelow known × RoundList top_digits known tops.now }
    requires round { (2 ≤ known.round) × (known.round ≤ 5) }
    requires long { (16 * length numbers.weights.now ≤ length next.old) × (4 * known.settings.shape.n ≤ length numbers.opened.now) }
    requires gates_held { GatesHeld known numbers.weights.now numbers.work.now numbers.own.now }
    ensures { (masked : ℕ → ℕ) → ContextOf known.settings known.round masked known
        → Made (public_by known.settings masked) known.round numbers.entry (2 * known.settings.shape.n) next.new }
{
    let shape = known.settings.shape;
    let i = (known.round - 1) as usize;
    for g in 0..2 * shape.n as usize {
        let x = split_place(shape.kind, g);
        let split = known.splits[x];
        let gate = gate_of(shape, split, g, i);
        results_into(next, numbers, gate, tops);
    }
}

// The same, with the list of the set where the round reads one.
fn digit_registers(next: &mut [u32], numbers: RoundNumbers, known: Context)
    requires ready { Ready known.settings × SplitsBelow known }
    requires round { (2 ≤ known.round) × (known.round ≤ 5) }
    requires long { (16 * length numbers.weights.now ≤ length next.old) × (4 * known.settings.shape.n ≤ length numbers.opened.now) }
    requires gates_held { GatesHeld known numbers.weights.now numbers.work.now numbers.own.now }
    ensures { (masked : ℕ → ℕ) → ContextOf known.settings known.round masked known
        → Made (public_by known.settings masked) known.round numbers.entry (2 * known.settings.shape.n) next.new }
{
    let shape = known.settings.shape;
    if !sums_top(shape.kind, known.round) {
        gate_registers(next, numbers, known, &[]);
        return;
    }
    gate_registers(next, numbers, known, top_digits(shape.set as usize));
}

// Gate g's register in a column after round 6 or 7: round 6 changes the first registers.
fn late_register(numbers: RoundNumbers, col: usize, settings: Settings, round: u32, g: usize) -> u32
    requires ready { Ready settings }
    requires in_bounds { (col < length numbers.weights.now) × (g < 2 * settings.shape.n) × (5 < round) × (openings (params_of settings.shape) round ≤ length numbers.opened.now) }
    ensures { (masked : ℕ → ℕ) (κ : ℕ) → result ≡ running_on (public_by settings masked) round (λ (o : ℕ). get_or numbers.entry.opened.now o 0) κ
        (column numbers.entry.work.now col) (g % 2) (g / 2) }
{
    let column = column_of(numbers.work, col);
    let kept = register(column, FIRST + 8 * (g % 2) + g / 2);
    if round != 6 {
        return kept;
    }
    if g % 2 != 0 {
        return kept;
    }
    after_check(column, settings, g / 2, numbers.opened)
}

// Rounds 6 and 7.
fn late_registers(next: &mut [u32], numbers: RoundNumbers, settings: Settings, round: u32)
    requires ready { Ready settings }
    requires round { 5 < round }
    requires long { (16 * length numbers.weights.now ≤ length next.old) × (openings (params_of settings.shape) round ≤ length numbers.opened.now) }
    ensures { (masked : ℕ → ℕ) → Made (public_by settings masked) round numbers.entry (2 * settings.shape.n) next.new }
{
    for g in 0..2 * settings.shape.n as usize {
        into_columns(next, 8 * (g % 2) + g / 2, 16, numbers.weights.len(), |c| {
            late_register(numbers, c, settings, round, g)
        });
    }
}

// ---- The working slice after a round

// Writes one column: its own numbers for the openings, then the first and second registers.
fn put_column(
    work: &mut [u32],
    col: usize,
    settings: Settings,
    round: u32,
    own: &[u32],
    next: &[u32],
)
    requires ready { Ready settings }
    requires places_in_bounds { ((col + 1) * places ≤ length work.old) × (most_openings * (col + 1) ≤ length own.now) × (16 * (col + 1) ≤ length next.now) }
    ensures { work.new ≡ fill (fill (fill
        work.old (col * places + own_at 0) (openings (params_of settings.shape) round)
        (λ (o : ℕ). get_or own.now (most_openings * col + o) 0))
        (col * places + running_at 0 0) settings.shape.n (λ (j : ℕ). get_or next.now (16 * col + j) 0))
        (col * places + running_at 1 0) settings.shape.n (λ (j : ℕ). get_or next.now (16 * col + 8 + j) 0) }
{
    let start = col * PLACES;
    let n = settings.shape.n as usize;
    let openings = openings_in(settings.shape, round) as usize;
    copy_numbers(work, start + OWN, own, MOST_OPENINGS * col, openings);
    copy_numbers(work, start + FIRST, next, 16 * col, n);
    copy_numbers(work, start + SECOND, next, 16 * col + 8, n);
}

// All columns.
fn put_columns(
    work: &mut [u32],
    weights: &[u32],
    settings: Settings,
    round: u32,
    own: &[u32],
    next: &[u32],
)
    requires ready { Ready settings }
    requires work_len { (length work.old ≡ length weights.now * places) × (most_openings * length weights.now ≤ length own.now) × (16 * length weights.now ≤ length next.now) }
    ensures { (masked opened : ℕ → ℕ) → HeldAll (public_by settings masked) round weights.now work.old own.now
        → RegistersHeld (public_by settings masked) round opened weights.now work.old (2 * settings.shape.n) next.now
        → work.new ≡ taken_columns (public_by settings masked) round opened weights.now work.old (length weights.now) }
{
    for c in 0..weights.len() {
        put_column(work, c, settings, round, own, next);
    }
}

// The registers after a round, for all columns. Round 1 looks at the digits of the numbers just opened, the other rounds at those of the
// context.
fn registers_into(next: &mut [u32], numbers: RoundNumbers, known: Context)
    requires ready { Ready known.settings }
    requires round { (1 ≤ known.round) × (all_below q numbers.work.now ≡ true) }
    requires long { (16 * length numbers.weights.now ≤ length next.old) × (openings (params_of known.settings.shape) known.round ≤ length numbers.opened.now) }
    requires context_of { ContextOf known.settings known.round (masked_in numbers.work.now) known }
    requires held_all { HeldAll (public_by known.settings (masked_in numbers.work.now)) known.round numbers.weights.now numbers.work.now numbers.own.now }
    ensures { Made (public_by known.settings (masked_after known.round (λ (o : ℕ). get_or numbers.entry.opened.now o 0) numbers.entry.work.now)) known.round
        numbers.entry (2 * known.settings.shape.n) next.new }
{
    let settings = known.settings;
    let round = known.round;
    if round == 1 {
        let seen = context_of(settings, round + 1, numbers.opened);
        first_registers(next, numbers.work, numbers.weights.len(), seen);
        return;
    }
    if round <= 5 {
        digit_registers(next, numbers, known);
        return;
    }
    late_registers(next, numbers, settings, round);
}

// The working slice after a round: `opened` are the joined numbers, `own` holds this side's own for each column, and the context is that of
// the masked numbers which the slice holds. The round 1 to 7, the lengths and the opened numbers are as `take` of crate side has asked, and
// it has prepared `own`. All registers are worked out before any is written: each reads the slice as it was.
pub fn take_work(work: &mut [u32], known: Context, opened: &[u32], own: &[u32], weights: &[u32])
    requires ready { Ready known.settings }
    requires le_round { (1 ≤ known.round) × (1 ≤ length weights.now) × (length weights.now ≤ width) × (length work.old ≡ length weights.now * places) × (all_below q work.old ≡ true) }
    requires weights_in_bounds { (most_openings * length weights.now ≤ length own.now) × (openings (params_of known.settings.shape) known.round ≤ length opened.now) × ((o : ℕ) → get_or opened.now o 0 < q) }
    requires context_of { ContextOf known.settings known.round (masked_in work.old) known }
    requires held_all { HeldAll (public_by known.settings (masked_in work.old)) known.round weights.now work.old own.now }
    ensures { work.new ≡ taken_work (terms_of known.settings) known.round (λ (o : ℕ). get_or opened.now o 0) weights.now work.old }
{
    let settings = known.settings;
    let round = known.round;
    let mut next = [0u32; 16 * WIDTH];
    let numbers = RoundNumbers {
        work,
        weights,
        own,
        opened,
    };
    registers_into(&mut next, numbers, known);
    put_columns(work, weights, settings, round, own, &next);
    if round == 1 {
        copy_numbers(work, MASKED, opened, 0, settings.shape.n as usize);
    }
}
