// What a side gives to a round's openings: its numbers, its message, and the check of the other side's.
// What its functions require of the side and the lent slices, crate side has found out by its questions
// before it calls them.
#![tactic(auto)]

ghost use Rattle.std.specs.Prelude.{◌≡◌, true, ◌+◌, ◌*◌, ◌≤◌, ◌<◌, length};
ghost use Rattle.lists.specs.Lists.{fill, in_front, all_below, all_to};
ghost use Rattle.field.specs.Field.{q};
ghost use Rattle.settings.specs.Settings.{params_in};
ghost use Rattle.settings.specs.Sizes.{key_count, width, openings, most_openings, most_fields, message_length, work_length};
ghost use Rattle.state.specs.State.{Whole};
ghost use Rattle.slice.specs.Layout.{own_in, masked_in};
ghost use Rattle.steps.specs.Context.{ContextOf};
ghost use Rattle.opening.specs.Work.{columns_to, PreparedHeld, OutgoingHeld, outgoing_field, in_turn, joined_at, part_at, checked_at};
ghost use Rattle.opening.specs.Opening.{message};

use column::{ChosenColumns, ColumnChoice, prepare};
use field::{add_mod, mul_mod};
use message::{Header, put_message};
use settings::{FIELDS_PER_OPENING, KEYS, MOST_FIELDS, MOST_OPENINGS, WIDTH, openings_in};
use slice::{masked_in, own_column, weights_of};
use state::Side;
use steps::{Context, context_of};

// The numbers of a side for a round's openings, in all columns.
pub const OWN_LENGTH: usize = WIDTH * MOST_OPENINGS;

// ---- The context of a side's round

// What both sides know in the round, from the masked numbers that the slice holds. A call makes it once.
pub fn context_in(side: Side, work: &[u32]) -> Context
    requires whole { Whole side }
    requires work_len { length work.now ≡ work_length key_count }
    ensures { ContextOf side.settings side.round (masked_in work.now) result }
{
    let masked = masked_in(work);
    let settings = side.settings;
    context_of(settings, side.round, &masked)
}

// ---- Send

// The phone's own numbers for the openings, as it kept them: 32 places for each field of an opening.
fn kept_columns(sent: &mut [u32], work: &[u32], count: usize)
    requires { (length work.now ≡ work_length key_count) × (length sent.old ≡ most_fields key_count) × (count ≤ most_openings) }
    ensures { sent.new ≡ columns_to count (own_in work.now) sent.old (1 + key_count) }
{
    for f in 0..FIELDS_PER_OPENING {
        own_column(
            &mut sent[MOST_OPENINGS * f..MOST_OPENINGS * f + MOST_OPENINGS],
            work,
            f,
            count,
        );
    }
}

// The numbers that are to be sent, 32 places for each field of an opening: the share, then the parts under the receiver's keys. The server
// works them out, the phone kept its own.
fn outgoing_columns(sent: &mut [u32], work: &[u32], side: Side)
    requires whole { Whole side }
    requires work_len { (length work.now ≡ work_length key_count) × (all_below q work.now ≡ true) × (length sent.old ≡ most_fields key_count) }
    ensures { OutgoingHeld side work.now sent.new }
{
    if side.number == 0 {
        let keys = side.keys;
        let weights = weights_of(side.number, keys);
        let choice = ColumnChoice {
            count: FIELDS_PER_OPENING,
            skip: KEYS,
        };
        let columns = ChosenColumns {
            work,
            weights: &weights,
            choice,
        };
        prepare(sent, columns, context_in(side, work));
    } else {
        let count = openings_in(side.settings.shape, side.round) as usize;
        kept_columns(sent, work, count);
    }
}

// The fields of the first openings, in front of `fields`: opening by opening.
fn put_in_turn(fields: &mut [u32], sent: &[u32], count: usize)
    requires { (count ≤ most_openings) × (length sent.now ≡ most_fields key_count) × (length fields.old ≡ most_fields key_count) }
    ensures { fields.new ≡ fill fields.old 0 ((1 + key_count) * count) (in_turn sent.now) }
{
    for x in 0..FIELDS_PER_OPENING * count {
        fields[x] = sent[MOST_OPENINGS * (x % FIELDS_PER_OPENING) + x / FIELDS_PER_OPENING];
    }
}

// The fields of the round's message, in front of `fields`.
fn outgoing_fields(fields: &mut [u32], work: &[u32], side: Side, count: usize)
    requires whole { Whole side }
    requires work_len { (length work.now ≡ work_length key_count) × (all_below q work.now ≡ true) }
    requires count_value { (count ≡ openings (params_in side.settings) side.round) × (count ≤ most_openings) × (length fields.old ≡ most_fields key_count) }
    ensures { fields.new ≡ fill fields.old 0 ((1 + key_count) * count) (outgoing_field side work.now) }
{
    let mut sent = [0u32; MOST_FIELDS];
    outgoing_columns(&mut sent, work, side);
    put_in_turn(fields, &sent, count);
}

// Writes the message that a side which may send has for its round, and gives its length.
pub fn write_message(side: Side, work: &[u32], out: &mut [u8]) -> usize
    requires whole { Whole side }
    requires work_len { (length work.now ≡ work_length key_count) × (all_below q work.now ≡ true) × (message_length key_count (params_in side.settings) side.round ≤ length out.old) }
    ensures { (result ≡ message_length key_count (params_in side.settings) side.round) × (out.new ≡ in_front (message key_count side work.now) out.old) }
{
    let count = openings_in(side.settings.shape, side.round) as usize;
    let mut fields = [0u32; MOST_FIELDS];
    outgoing_fields(&mut fields, work, side, count);
    let header = Header::new(side.number, side.settings, side.round, side.serial);
    put_message(out, header, &fields[..FIELDS_PER_OPENING * count])
}

// ---- Take

// The side's numbers for the openings in all columns, 32 places for each.
pub fn prepare_columns(own: &mut [u32], work: &[u32], side: Side, known: Context)
    requires whole { Whole side }
    requires context_of { ContextOf side.settings side.round (masked_in work.now) known }
    requires work_len { (length work.now ≡ work_length key_count) × (all_below q work.now ≡ true) × (length own.old ≡ most_openings * width) }
    ensures { PreparedHeld side work.now own.new }
{
    let keys = side.keys;
    let weights = weights_of(side.number, keys);
    let choice = ColumnChoice {
        count: WIDTH,
        skip: 0,
    };
    let columns = ChosenColumns {
        work,
        weights: &weights,
        choice,
    };
    prepare(own, columns, known);
}

// Joins the side's shares with the message's, the first of each opening's fields, in front of `opened`.
pub fn join_shares(opened: &mut [u32], own: &[u32], side: Side, fields: &[u32])
    requires n_bound { (side.settings.shape.n ≤ 8) × (length fields.now ≡ most_fields key_count) }
    requires own_len { (length own.now ≡ most_openings * width) × (length opened.old ≡ most_openings) }
    ensures { opened.new ≡ fill opened.old 0 (openings (params_in side.settings) side.round) (joined_at own.now fields.now) }
{
    let count = openings_in(side.settings.shape, side.round) as usize;
    for o in 0..count {
        opened[o] = add_mod(own[o], fields[o * FIELDS_PER_OPENING]);
    }
}

// The check of one opening under one key: the two parts add to key × opened number. The message's part under key i is field 1 + i of the opening.
fn part_passes(opened: &[u32], own: &[u32], side: Side, fields: &[u32], o: usize, i: usize) -> bool
    requires number_bound { (side.number < 2) × (o < most_openings) × (i < key_count) × (length fields.now ≡ most_fields key_count) }
    requires own_len { (length own.now ≡ most_openings * width) × (length opened.now ≡ most_openings) }
    ensures { result ≡ part_at side own.now fields.now opened.now o i }
{
    let keys = side.keys;
    let part = own[MOST_OPENINGS * (1 + side.number as usize * KEYS + i) + o];
    let sum = add_mod(part, fields[o * FIELDS_PER_OPENING + 1 + i]);
    sum == mul_mod(keys[i], opened[o])
}

// The check of one opening: under each of this side's keys.
fn check_passes(opened: &[u32], own: &[u32], side: Side, fields: &[u32], o: usize) -> bool
    requires number_bound { (side.number < 2) × (o < most_openings) × (length fields.now ≡ most_fields key_count) }
    requires own_len { (length own.now ≡ most_openings * width) × (length opened.now ≡ most_openings) }
    ensures { result ≡ checked_at side own.now fields.now opened.now o }
{
    (0..KEYS).all(|i| part_passes(opened, own, side, fields, o, i))
}

// Does every opening pass its check?
pub fn checks_pass(opened: &[u32], own: &[u32], side: Side, fields: &[u32]) -> bool
    requires number_bound { (side.number < 2) × (side.settings.shape.n ≤ 8) × (length fields.now ≡ most_fields key_count) }
    requires own_len { (length own.now ≡ most_openings * width) × (length opened.now ≡ most_openings) }
    ensures { result ≡ all_to (openings (params_in side.settings) side.round) (checked_at side own.now fields.now opened.now) }
{
    let count = openings_in(side.settings.shape, side.round) as usize;
    (0..count).all(|o| check_passes(opened, own, side, fields, o))
}
