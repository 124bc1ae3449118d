// The seven rounds on one column: what it gives to each opening, and what the opened numbers make of its running registers. Every step is
// a linear form with public coefficients, the same in every column. Who calls has asked the questions first, and
// asks for openings and coefficients that there are.
#![tactic(auto)]

ghost use Rattle.std.specs.Prelude.{◌≡◌, cond, ◌≢◌, ℕ, ◌+◌, ◌*◌, ◌/◌, ◌≤◌, ◌<◌, ltb, length, get_or};
ghost use Rattle.lists.specs.Answers.{bit};
ghost use Rattle.field.specs.Field.{q};
ghost use Rattle.field.specs.Forms.{value, Form, reg, num, ◌⊟◌, ◌⊞◌, ◌⊠◌};
ghost use Rattle.settings.specs.Sets.{scale_of, base, top_digits};
ghost use Rattle.settings.specs.Settings.{params_of, terms_of};
ghost use Rattle.settings.specs.Questions.{Ready, ShapeReady};
ghost use Rattle.settings.specs.Sizes.{places};
ghost use Rattle.rounding.specs.Rounds.{threshold};
ghost use Rattle.book.specs.Book.{group_k, group_gap, group_at};
ghost use Rattle.slice.specs.Layout.{running_at, registers, column};
ghost use Rattle.slice.specs.Weights.{top_rises, rule_of};
ghost use Rattle.steps.specs.Steps.{limit_of, shift_of, open_input, insides, group_of, check_entry, after_check};
ghost use Rattle.steps.specs.Context.{public_by, looks_at, number_at, split_count, split_place, ContextOf};
ghost use Rattle.steps.specs.Gates.{terms_at, gate_at, TermsFit, GateFits, Listed, sum_form, addend_form, u_form, v_form, open_u, open_v, result_form};

use book::{group_at, group_gap, group_k, mask_at, triple_at, vector_at};
use field::{Q, Q64, add_mod, mul_mod, sub_mod};
use rounding::{Split, split_number};
use settings::{PLACES, Settings, Shape, alpha_of, base_of, parts_of};
use slice::{FIRST, INPUT, Rule, SECOND, Weighted, raised_by, register, weighted_sum};

// What both sides know in a round: the settings, the round's number, and the numbers whose digits its gates look at, each split in its
// five digits: HIGH, y of each coefficient; BOUND, hi and lo of each coefficient in turn. All of it follows from the settings and from what
// round 1 opened: no share, no part and no key is in it. It is made once for each call, and every round that needs a digit reads it here;
// for a round that needs none, nothing is split.
#[derive(Clone, Copy)]
pub struct Context {
    pub settings: Settings,
    pub round: u32,
    pub splits: [Split; 16],
}

// Column c of a working slice.
pub fn column_of(work: &[u32], c: usize) -> &[u32; PLACES]
    requires { (c + 1) * places ≤ length work.now }
    ensures { registers result.now ≡ column work.now c }
{
    &work.as_chunks::<PLACES>().0[c]
}

// The first (which = 0) or second (1) gate of coefficient j for a digit: addend + u × v, by the triple at a place. All columns share it.
// `kind` is the shape's, and `which` counts: the gate's register is 8 × which + j (the layout's), so both are numbers.
// GateFits and TermsFit are clauses and no ghost fields, which are no plainer: `gate_at` and `terms_at` make gates of any arguments.
#[derive(Clone, Copy)]
pub struct Gate {
    pub kind: u32,
    pub j: usize,
    pub which: usize,
    pub triple: usize,
    pub terms: Weighted,
}

// ---- The context

// hi (which = 0) or lo.
fn threshold_of(bound: u32, which: usize, y: u32) -> u32
    requires { (bound ≤ 4190208) × (1 ≤ bound) }
    ensures { result ≡ threshold q bound which y }
{
    if which == 0 {
        return sub_mod(2 * bound - 1, y);
    }
    sub_mod(0, y)
}

// Does the round look at digits?
fn looks_at(kind: u32, round: u32) -> bool
    ensures { result ≡ looks_at kind round }
{
    let last = if kind == 0 { 5 } else { 6 };
    2 <= round && round <= last
}

// How many numbers a context splits: none where the round looks at no digit.
fn split_count(shape: Shape, round: u32) -> usize
    requires { shape.n ≤ 8 }
    ensures { (result ≡ cond (looks_at shape.kind round) (split_count shape) 0) × (result ≤ 16) }
{
    if !looks_at(shape.kind, round) {
        return 0;
    }
    if shape.kind == 0 {
        return shape.n as usize;
    }
    2 * shape.n as usize
}

// Number x that a context splits, of these masked numbers.
fn number_at(settings: Settings, masked: &[u32], x: usize) -> u32
    requires ready { Ready settings }
    requires n_in_bounds { (settings.shape.n ≤ length masked.now) × (x < split_count settings.shape) }
    ensures { result ≡ number_at settings (λ (j : ℕ). get_or masked.now j 0) x }
{
    if settings.shape.kind == 0 {
        return masked[x];
    }
    threshold_of(settings.bound, x % 2, masked[x / 2])
}

// The context of a round, from the masked numbers.
pub fn context_of(settings: Settings, round: u32, masked: &[u32]) -> Context
    requires ready { Ready settings }
    requires n_in_bounds { settings.shape.n ≤ length masked.now }
    ensures { ContextOf settings round (λ (j : ℕ). get_or masked.now j 0) result }
{
    let set = settings.shape.set as usize;
    let count = split_count(settings.shape, round);
    let none = Split {
        number: 0,
        digits: [0; 5],
    };
    let mut known = Context {
        settings,
        round,
        splits: [none; 16],
    };
    for x in 0..count {
        known.splits[x] = split_number(set, number_at(settings, masked, x));
    }
    known
}

// ---- Gates. Who calls asks for a gate that there is, 0 to 2 N − 1, with its split number.

// Which of a context's numbers gate g looks at.
pub fn split_place(kind: u32, g: usize) -> usize
    ensures { result ≡ split_place kind g }
{
    if kind == 0 {
        return g / 2;
    }
    g
}

fn rule_of(kind: u32, i: usize, which: usize) -> Rule
    ensures { result ≡ rule_of kind i which }
{
    if kind != 0 {
        return Rule::Below;
    }
    match (i < 4, which == 0) {
        (true, true) => Rule::Carry,
        (true, false) => Rule::Zero,
        (false, true) => Rule::Top,
        (false, false) => Rule::Over,
    }
}

fn limit_of(set: usize, i: usize) -> u32
    requires { set < 2 }
    ensures { (result ≡ limit_of (scale_of set) i) × (1 ≤ result) × (result ≤ 45) }
{
    if i < 4 {
        return base_of(set, i);
    }
    parts_of(set)
}

// The sum over digit i's vector: A, Z, F, G, or the sum below Ti.
pub fn terms_of(shape: Shape, split: Split, g: usize, i: usize) -> Weighted
    requires shape_ready { ShapeReady shape }
    requires g_bound { (g < 2 * shape.n) × (i < 5) × (get_or split.digits i 0 < base (scale_of shape.set) i) }
    ensures { (result ≡ terms_at shape split g i) × TermsFit result }
{
    let set = shape.set as usize;
    let digits = split.digits;
    Weighted {
        place: vector_at(shape, g / 2, i),
        n: base_of(set, i) as usize,
        rule: rule_of(shape.kind, i, g % 2),
        limit: limit_of(set, i),
        digit: digits[i],
    }
}

// The gate of digit i, 1 to 4.
pub fn gate_of(shape: Shape, split: Split, g: usize, i: usize) -> Gate
    requires shape_ready { ShapeReady shape }
    requires g_bound { (g < 2 * shape.n) × (1 ≤ i) × (i < 5) × (get_or split.digits i 0 < base (scale_of shape.set) i) }
    ensures { (result ≡ gate_at shape split g i) × GateFits result }
{
    let terms = terms_of(shape, split, g, i);
    Gate {
        kind: shape.kind,
        j: g / 2,
        which: g % 2,
        triple: triple_at(shape, g / 2, 2 * (i - 1) + g % 2),
        terms,
    }
}

// ---- A gate on one column. No public number is added to addend, u and v: the weight does not matter. F reads t(d) in the list
// `tops`, and F' − F in the list `rises` what t(d) grows by.

// The gate's sum alone: what round 1 makes of digit 0.
pub fn sum_value(column: &[u32; PLACES], terms: Weighted, tops: &[u32]) -> u32
    requires terms_fit { TermsFit terms }
    requires listed { Listed top_digits terms tops.now }
    ensures { (κ : ℕ) → result ≡ value q κ (registers column.now) (sum_form terms 0) }
{
    weighted_sum(column, terms, tops)
}

fn addend_value(column: &[u32; PLACES], gate: Gate, tops: &[u32]) -> u32
    requires gate_fits { GateFits gate }
    requires listed { Listed top_digits gate.terms tops.now }
    ensures { (κ : ℕ) → result ≡ value q κ (registers column.now) (addend_form gate) }
{
    let terms = gate.terms;
    let a = sum_value(column, terms, tops);
    if gate.kind == 0 && gate.which == 1 {
        return add_mod(register(column, SECOND + gate.j), a);
    }
    a
}

fn u_value(column: &[u32; PLACES], gate: Gate) -> u32
    requires gate_fits { GateFits gate }
    ensures { (κ : ℕ) → result ≡ value q κ (registers column.now) (u_form gate) }
{
    if gate.kind == 0 {
        return register(column, FIRST + gate.j);
    }
    register(column, gate.terms.place + gate.terms.digit as usize)
}

fn v_value(column: &[u32; PLACES], gate: Gate, rises: &[u32]) -> u32
    requires gate_fits { GateFits gate }
    requires listed { Listed top_rises gate.terms rises.now }
    ensures { (κ : ℕ) → result ≡ value q κ (registers column.now) (v_form gate) }
{
    if gate.kind == 0 {
        let terms = gate.terms;
        return raised_by(column, terms, rises);
    }
    register(column, FIRST + 8 * gate.which + gate.j)
}

// u − a.
pub fn open_u(column: &[u32; PLACES], gate: Gate) -> u32
    requires gate_fits { GateFits gate }
    ensures { (κ : ℕ) → result ≡ value q κ (registers column.now) (open_u gate) }
{
    let u = u_value(column, gate);
    sub_mod(u, register(column, gate.triple))
}

// v − b.
pub fn open_v(column: &[u32; PLACES], gate: Gate, rises: &[u32]) -> u32
    requires gate_fits { GateFits gate }
    requires listed { Listed top_rises gate.terms rises.now }
    ensures { (κ : ℕ) → result ≡ value q κ (registers column.now) (open_v gate) }
{
    let v = v_value(column, gate, rises);
    sub_mod(v, register(column, gate.triple + 1))
}

// A number up to q times a factor that is not reduced.
fn times(a: u32, b: u64) -> u64
    requires { (a ≤ q) × (b < 8589934592) }
    ensures { (result ≡ a * b) × (result < 72057594037927936) }
{
    a as u64 * b
}

// The numbers of a gate's two openings: for u − a, and for v − b.
#[derive(Clone, Copy)]
pub struct Factors {
    pub u: u32,
    pub v: u32,
}

// addend + e × v + f × u + third − e × f, e and f the opened numbers. u and v are not worked out again: they are this side's own numbers for
// the two openings, with a and b added. The end alone is reduced: − e × f is q less e × f modulo q, times the weight.
pub fn gate_value(
    column: &[u32; PLACES],
    weight: u32,
    gate: Gate,
    own: Factors,
    opened: Factors,
    tops: &[u32],
) -> u32
    requires gate_fits { GateFits gate }
    requires opened_below { (opened.u < q) × (opened.v < q) × Listed top_digits gate.terms tops.now }
    requires u_value { (own.u ≡ value q weight (registers column.now) (open_u gate)) × (own.v ≡ value q weight (registers column.now) (open_v gate)) }
    ensures { result ≡ value q weight (registers column.now) (result_form gate opened.u opened.v) }
{
    let addend = addend_value(column, gate, tops);
    let u = own.u as u64 + register(column, gate.triple) as u64;
    let v = own.v as u64 + register(column, gate.triple + 1) as u64;
    let third = register(column, gate.triple + 2);
    let sum = addend as u64 + times(opened.u, v) + times(opened.v, u) + third as u64;
    let product = mul_mod(opened.u, opened.v);
    ((sum + times(Q - product, weight as u64)) % Q64) as u32
}

// ---- What else is opened

fn shift_of(settings: Settings) -> u32
    requires { Ready settings }
    ensures { result ≡ shift_of (terms_of settings) }
{
    let shape = settings.shape;
    if shape.kind == 0 {
        return alpha_of(shape.set as usize) / 2 - 1;
    }
    settings.bound - 1
}

// Round 1: y. (No masked number is looked at.)
pub fn open_input(column: &[u32; PLACES], weight: u32, settings: Settings, j: usize) -> u32
    requires ready { Ready settings }
    requires coefficient { j < settings.shape.n }
    ensures { (masked : ℕ → ℕ) → result ≡ value q weight (registers column.now) (open_input (public_by settings masked) j) }
{
    let shape = settings.shape;
    let shift = shift_of(settings);
    let place = mask_at(shape, j);
    let a = add_mod(register(column, INPUT + j), mul_mod(weight, shift));
    sub_mod(a, register(column, place))
}

// BOUND: is the coefficient with these hi and lo inside?
fn inside_value(column: &[u32; PLACES], weight: u32, hi: u32, lo: u32, j: usize) -> u32
    requires { j < 8 }
    ensures { result ≡ value q weight (registers column.now) (reg (running_at 0 j) ⊟ reg (running_at 1 j) ⊞ num (bit (ltb hi lo))) }
{
    let d = sub_mod(register(column, FIRST + j), register(column, SECOND + j));
    add_mod(d, mul_mod(weight, u32::from(hi < lo)))
}

// BOUND: the sum of the insides of all coefficients. The context has hi and lo of each.
pub fn insides_value(column: &[u32; PLACES], weight: u32, known: Context) -> u32
    requires ready { Ready known.settings }
    requires bound_round { (known.settings.shape.kind ≢ 0) × (known.round ≡ 6) }
    ensures { (masked : ℕ → ℕ) → ContextOf known.settings known.round masked known
        → result ≡ value q weight (registers column.now) (insides (public_by known.settings masked) known.settings.shape.n) }
{
    let n = known.settings.shape.n as usize;
    let mut total = 0;
    for j in 0..n {
        let hi = known.splits[2 * j];
        let lo = known.splits[2 * j + 1];
        total = add_mod(total, inside_value(column, weight, hi.number, lo.number, j));
    }
    total
}

// Round 6: ρ + g × (K − number), of the group of a coefficient. HIGH: the number is its count of zeros; BOUND: that of the insides.
pub fn open_check(
    column: &[u32; PLACES],
    weight: u32,
    shape: Shape,
    group: usize,
    number: u32,
) -> u32
    requires shape_ready { ShapeReady shape }
    requires group_in { group < shape.n }
    ensures { (f : Form) → number ≡ value q weight (registers column.now) f → result
        ≡ value q weight (registers column.now) (reg (group_at (params_of shape) group) ⊞ group_gap (params_of shape) ⊠ (num (group_k (params_of shape)) ⊟ f)) }
{
    let most = mul_mod(weight, group_k(shape));
    let n = sub_mod(most, number);
    let place = group_at(shape, group);
    let gap = group_gap(shape);
    add_mod(register(column, place), mul_mod(gap, n))
}

// ---- What the opened numbers of round 6 make of the running registers

// An opened number divided by the gap.
fn index_of(shape: Shape, x: u32) -> usize
    requires { (shape.n ≤ 8) × (x < q) }
    ensures { (result ≡ x / group_gap (params_of shape)) × (result ≤ 9) }
{
    (x / group_gap(shape)) as usize
}

// The entry of a group's vector for the opened number x: the zero check's result.
fn check_entry(column: &[u32; PLACES], settings: Settings, group: usize, x: u32) -> u32
    requires ready { Ready settings }
    requires group_in { (group < 8) × (x < q) }
    ensures { (masked : ℕ → ℕ) (κ : ℕ) → result ≡ value q κ (registers column.now) (check_entry (public_by settings masked) group x) }
{
    let shape = settings.shape;
    let place = group_at(shape, group);
    let index = index_of(shape, x);
    register(column, place + 1 + index)
}

// Whose zero check it is: its own for HIGH, the one of all for BOUND.
fn group_of(kind: u32, j: usize) -> usize
    ensures { result ≡ group_of kind j }
{
    if kind == 0 {
        return j;
    }
    0
}

// The first register of coefficient j after round 6: HIGH's F − C; BOUND's result, for coefficient 0.
pub fn after_check(column: &[u32; PLACES], settings: Settings, j: usize, opened: &[u32]) -> u32
    requires ready { Ready settings }
    requires coefficient { j < settings.shape.n }
    requires opened_below { (group_of settings.shape.kind j < length opened.now) × ((o : ℕ) → get_or opened.now o 0 < q) }
    ensures { (masked : ℕ → ℕ) (κ : ℕ) → result ≡ value q κ (registers column.now) (after_check (public_by settings masked) j 0 (get_or opened.now (group_of settings.shape.kind j) 0)) }
{
    let kind = settings.shape.kind;
    let x = opened[group_of(kind, j)];
    if kind == 0 {
        let wrap = check_entry(column, settings, j, x);
        return sub_mod(register(column, FIRST + j), wrap);
    }
    if j == 0 {
        return check_entry(column, settings, 0, x);
    }
    register(column, FIRST + j)
}
