// Messages between the two sides: their bits, the header, a message written, its fields read, and the form test.
#![tactic(auto)]

ghost use Rattle.std.specs.Prelude.{◌≡◌, true, ◌+◌, ◌*◌, ◌%◌, ◌^◌, ◌≤◌, ◌<◌, length};
ghost use Rattle.lists.specs.Lists.{fill, in_front, all_below};
ghost use Rattle.settings.specs.Sizes.{key_count, most_fields, bytes_for, field_bits, message_bits};
ghost use Rattle.settings.specs.Refusals.{refused};
ghost use Rattle.message.specs.Bits.{number_of};
ghost use Rattle.message.specs.Message.{header_number, header_with, message_of, field_in, ask_parts, ask_form, form_no};
ghost use Rattle.message.specs.Fields.{bits_at, field_at, ends_at, fields_read, first_bits, put_bits, put_fields, byte_of, HeaderFits};

use field::all_below_q;
use settings::{
    FIELD_BITS, MOST_FIELDS, ROUNDS, Refusal, Settings, ask_settings, field_count, length_of,
};

// ---- Header

// What a message begins with, in this order.
#[derive(Clone, Copy)]
pub struct Header {
    pub sender: u32,
    pub settings: Settings,
    pub round: u32,
    pub serial: u32,
}

impl Header {
    pub const SENDER_BITS: usize = 1;

    pub const SET_BITS: usize = 1;

    pub const KIND_BITS: usize = 1;

    pub const COUNT_BITS: usize = 3;

    pub const ROUND_BITS: usize = 3;

    pub const BOUND_BITS: usize = 23;

    pub const SERIAL_BITS: usize = 32;

    pub const BITS: usize = Self::SENDER_BITS
        + Self::SET_BITS
        + Self::KIND_BITS
        + Self::COUNT_BITS
        + Self::ROUND_BITS
        + Self::BOUND_BITS
        + Self::SERIAL_BITS;

    pub const BYTES: usize = Self::BITS / 8;

    // A reader reads at most 32 bits at once.
    pub const HALF: usize = Self::BITS / 2;

    // How many values fit a width: a factor makes room for the field behind.
    const SETS: u64 = 1 << Self::SET_BITS;

    const KINDS: u64 = 1 << Self::KIND_BITS;

    const COUNTS: u64 = 1 << Self::COUNT_BITS;

    const ROUNDS: u64 = 1 << Self::ROUND_BITS;

    const BOUNDS: u64 = 1 << Self::BOUND_BITS;

    const SERIALS: u64 = 1 << Self::SERIAL_BITS;

    const HALVES: u64 = 1 << Self::HALF;

    pub fn new(sender: u32, settings: Settings, round: u32, serial: u32) -> Header
        ensures { result ≡ header_with sender settings round serial }
    {
        Header {
            sender,
            settings,
            round,
            serial,
        }
    }

    // The header's bits as one number. `ask_form` and `send` of crate side come after questions 1 to 3 and the round.
    pub fn number(self) -> u64
        requires { HeaderFits self }
        ensures { result ≡ header_number self }
    {
        let settings = self.settings;
        let shape = settings.shape;
        let a = u64::from(self.sender) * Self::SETS + u64::from(shape.set);
        let b = a * Self::KINDS + u64::from(shape.kind);
        let c = b * Self::COUNTS + u64::from(shape.n - 1);
        let d = c * Self::ROUNDS + u64::from(self.round);
        let e = d * Self::BOUNDS + u64::from(settings.bound);
        e * Self::SERIALS + u64::from(self.serial)
    }
}

// ---- Bit fields, most significant bit first

// Up to eight bytes as one number.
fn get_number(bytes: &[u8]) -> u64
    requires { length bytes.now ≤ 8 }
    ensures { result ≡ number_of bytes.now }
{
    let mut x: u64 = 0;
    for byte in bytes {
        x = x * 256 + u64::from(*byte);
    }
    x
}

// Fills up to eight bytes with the last bytes of a number: the last first, so that each is what is left of it modulo 256.
fn write_number(out: &mut [u8], x: u64)
    requires { length out.old ≤ 8 }
    ensures { out.new ≡ fill out.old 0 (length out.old) (byte_of (length out.old) x) }
{
    let count = out.len();
    let mut rest = x;
    for k in (0..count).rev() {
        out[k] = (rest % 256) as u8;
        rest /= 256;
    }
}

// The field of `width` bits that begins at bit `at`.
fn get_bits(bytes: &[u8], at: usize, width: usize) -> u32
    requires { (width ≤ 32) × (at + width ≤ 8 * length bytes.now) }
    ensures { result ≡ bits_at bytes.now at width }
{
    let used = at % 8;
    let count = (used + width + 7) / 8;
    let first = at / 8;
    let x = get_number(&bytes[first..first + count]);
    ((x >> (8 * count - used - width)) % (1u64 << width)) as u32
}

// The last bits of a number.
fn last_bits(value: u32, count: usize) -> u64
    requires { count < 8 }
    ensures { result ≡ value % 2 ^ count }
{
    u64::from(value) % (1u64 << count)
}

// Puts a field of `width` bits behind the first `at` bits, and zeros to the end of its last byte. `head` is what those bits leave in the
// byte that they fill in part: the caller has put it there, and nothing is read back.
fn put_bits(out: &mut [u8], at: usize, width: usize, head: u64, value: u32)
    requires le_width { (1 ≤ width) × (width ≤ 32) × (at + width ≤ 8 * length out.old) }
    requires head_value { (head ≡ first_bits out.old at % 2 ^ (at % 8)) × (value < 2 ^ width) }
    ensures { out.new ≡ put_bits out.old at width value }
{
    let used = at % 8;
    let count = (used + width + 7) / 8;
    let x = ((head << width) + u64::from(value)) << (8 * count - used - width);
    let first = at / 8;
    write_number(&mut out[first..first + count], x);
}

// ---- Reader

// A lent slice of bytes, and the position of the next bit.
#[derive(Clone, Copy)]
pub struct Reader<'a> {
    pub bytes: &'a [u8],
    pub at: usize,
}

impl<'a> Reader<'a> {
    // At the first bit.
    pub fn new(bytes: &'a [u8]) -> Reader<'a>
        ensures { (result.bytes ≡ bytes.entry) × (result.at ≡ 0) }
    {
        Reader { bytes, at: 0 }
    }

    // Reads the field of so many bits that comes next. Called by `read_message`, front to back.
    pub fn read(&mut self, width: usize) -> u32
        requires { (width ≤ 32) × (self.old.at + width ≤ 8 * length self.old.bytes.now) × (self.old.at + width < 2 ^ 64) }
        ensures { (result ≡ bits_at self.old.bytes.now self.old.at width)
            × (self.new.bytes ≡ self.old.bytes) × (self.new.at ≡ self.old.at + width) }
    {
        let value = get_bits(self.bytes, self.at, width);
        self.at += width;
        value
    }
}

// ---- Writing a message

// Puts the fields behind the header.
fn put_fields(out: &mut [u8], fields: &[u32])
    requires fields_in_bounds { (bytes_for (message_bits (length fields.now)) ≤ length out.old) × (length fields.now ≤ most_fields key_count) }
    requires fields_value { all_below (2 ^ field_bits) fields.now ≡ true }
    ensures { out.new ≡ put_fields out.old fields.now }
{
    let mut at = Header::BITS;
    let mut head = 0;
    for field in fields {
        put_bits(out, at, FIELD_BITS, head, *field);
        at += FIELD_BITS;
        head = last_bits(*field, at % 8);
    }
}

// Writes a message in front of `out` and gives its length. A side's `send` has asked for the room and made the fields.
pub fn put_message(out: &mut [u8], header: Header, fields: &[u32]) -> usize
    requires header_fits { HeaderFits header }
    requires fields_in_bounds { (bytes_for (message_bits (length fields.now)) ≤ length out.old) × (length fields.now ≤ most_fields key_count) }
    requires fields_value { all_below (2 ^ field_bits) fields.now ≡ true }
    ensures { (result ≡ bytes_for (message_bits (length fields.now)))
        × (out.new ≡ in_front (message_of (header_number header) fields.now) out.old) }
{
    write_number(&mut out[..Header::BYTES], header.number());
    put_fields(out, fields);
    length_of(fields.len())
}

// ---- Reading a message of so many fields. `ask_form` asks its length first.

// What stands before and behind the fields: the header's two halves, and the padding.
#[derive(Clone, Copy)]
pub struct Ends {
    pub high: u32,
    pub low: u32,
    pub padding: u32,
}

// A message read front to back by one reader: its fields into `fields`. `ask_form` has asked the message's length.
fn read_message(message: &[u8], fields: &mut [u32], padding: usize) -> Ends
    requires { (message_bits (length fields.old) + padding ≡ 8 * length message.now) × (padding ≤ 32) × (length fields.old ≤ most_fields key_count) }
    ensures { (result ≡ ends_at (length fields.old) message.now padding)
        × (fields.new ≡ fill fields.old 0 (length fields.old) (field_at message.now)) }
{
    let mut reader = Reader::new(message);
    let high = reader.read(Header::HALF);
    let low = reader.read(Header::HALF);
    for field in fields.iter_mut() {
        *field = reader.read(FIELD_BITS);
    }
    let padding = reader.read(padding);
    Ends { high, low, padding }
}

// The number of a header's two halves.
fn header_of(ends: Ends) -> u64
    ensures { result ≡ ends.high * 2 ^ 32 + ends.low }
{
    u64::from(ends.high) * Header::HALVES + u64::from(ends.low)
}

// Questions 11 and 12 of a message with as many fields as `fields` has. The message is read front to back, once, and its fields are left
// in `fields`.
fn ask_parts(due: u64, message: &[u8], fields: &mut [u32]) -> Result<(), Refusal>
    requires { (length message.now ≡ bytes_for (message_bits (length fields.old))) × (length fields.old ≤ most_fields key_count) }
    ensures { (refused result ≡ ask_parts due (length fields.old) message.now 0)
        × (fields.new ≡ fill fields.old 0 (length fields.old) (field_in (length fields.old) message.now)) }
{
    let padding = 8 * message.len() - (Header::BITS + FIELD_BITS * fields.len());
    let ends = read_message(message, fields, padding);
    if header_of(ends) != due {
        return Err(Refusal::Header);
    }
    if !all_below_q(fields) {
        return Err(Refusal::Fields);
    }
    if ends.padding != 0 {
        return Err(Refusal::Fields);
    }
    Ok(())
}

// Questions 10 to 12 of a message that is to have the header `due`. A message of the due length leaves its fields in `fields`.
// `message_form` and `take` of crate side lend it, and have asked questions 1 to 3 and the round.
pub fn ask_form(due: Header, message: &[u8], fields: &mut [u32]) -> Result<(), Refusal>
    requires header_fits { HeaderFits due }
    requires fields_len { length fields.old ≡ most_fields key_count }
    ensures { (refused result ≡ ask_form key_count due message.now 0)
        × (fields.new ≡ fields_read key_count due message.now fields.old) }
{
    let settings = due.settings;
    let shape = settings.shape;
    let count = field_count(shape, due.round);
    if message.len() != length_of(count) {
        return Err(Refusal::MessageLength);
    }
    ask_parts(due.number(), message, &mut fields[..count])
}

// The form test.
pub fn message_form(
    receiver: u32,
    settings: Settings,
    round: u32,
    serial: u32,
    message: &[u8],
) -> Result<(), Refusal>
    ensures { refused result ≡ form_no key_count receiver settings round serial message.now }
{
    ask_settings(receiver, settings)?;
    if round < 1 || round > ROUNDS || serial < 1 {
        return Err(Refusal::NotDue);
    }
    let due = Header::new(1 - receiver, settings, round, serial);
    let mut fields = [0u32; MOST_FIELDS];
    ask_form(due, message, &mut fields)
}
