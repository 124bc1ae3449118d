// Text: decimal numbers read from a word, or byte by byte from an input of any size; and bytes, numbers and hexadecimal put into a lent
// slice.
#![tactic(auto)]

ghost use Rattle.std.specs.Prelude.{◌≡◌, [], ◌∷◌, ◌<◌, length, drop};
ghost use Rattle.std.specs.Option.{option_map_or};
ghost use Rattle.text.specs.Decimal.{no_digits, with_digit, number_read, number_in};
ghost use Rattle.text.specs.Numbers.{start_numbers, with_number_digit, numbers_ended, after_byte, after_bytes, stored, kept, kept_over};
ghost use Rattle.text.specs.Text.{text_at, text_of, Puts, decimal, numbers_text, hex_digit, hex_byte, hex_bytes};

// ---- A number in a word

// The first number that is too large.
pub const TOO_LARGE: u64 = 1 << 32;

// The most digits of a number that is read.
const MOST_DIGITS: u32 = 10;

// How far a number has been read: how many digits there are, and their value.
#[derive(Clone, Copy)]
pub struct DigitsRead {
    pub count: u32,
    pub value: u32,
}

// Before the first digit.
fn no_digits() -> DigitsRead
    ensures { result ≡ no_digits }
{
    DigitsRead { count: 0, value: 0 }
}

// One digit more; nothing, where with this byte it is no number.
#[tactic(auto, unfolding(crate::specs::Decimal::with_digit, crate::specs::Decimal::digit_byte))]
fn add_digit(read: DigitsRead, byte: u8) -> Option<DigitsRead>
    ensures { result ≡ with_digit read byte }
{
    if !byte.is_ascii_digit() {
        return None;
    }
    if read.count >= MOST_DIGITS {
        return None;
    }
    let value = read.value as u64 * 10 + (byte - b'0') as u64;
    if value >= TOO_LARGE {
        return None;
    }
    Some(DigitsRead {
        count: read.count + 1,
        value: value as u32,
    })
}

// The number, when its last byte has been read.
#[tactic(auto, unfolding(crate::specs::Decimal::number_read))]
fn end_digits(read: DigitsRead) -> Option<u32>
    ensures { result ≡ number_read read }
{
    if read.count == 0 {
        return None;
    }
    Some(read.value)
}

// The number of a word. The first byte with which it is none decides.
pub fn number_in(word: &[u8]) -> Option<u32>
    ensures { result ≡ number_in word.now }
{
    let mut read = no_digits();
    for byte in word {
        read = add_digit(read, *byte)?;
    }
    end_digits(read)
}

// ---- The numbers of an input. `most` is how many it may have: the places of the slice that they are read into.

// How far an input has been read: the number being read; and how many numbers have ended before it.
#[derive(Clone, Copy)]
pub struct NumbersRead {
    pub digits: DigitsRead,
    pub count: usize,
}

// Before the first byte.
pub fn start_numbers() -> NumbersRead
    ensures { result ≡ start_numbers }
{
    NumbersRead {
        digits: no_digits(),
        count: 0,
    }
}

// One digit more of the number being read; nothing, where it makes the input malformed, as below.
#[tactic(auto, unfolding(crate::specs::Numbers::with_number_digit))]
fn add_number_digit(read: NumbersRead, byte: u8, most: usize) -> Option<NumbersRead>
    ensures { result ≡ with_number_digit most read byte }
{
    if read.count >= most {
        return None;
    }
    let digits = add_digit(read.digits, byte)?;
    Some(NumbersRead {
        digits,
        count: read.count,
    })
}

// The number being read, if there is one, ends here.
#[tactic(auto, unfolding(crate::specs::Numbers::numbers_ended))]
pub fn end_numbers(read: NumbersRead, most: usize) -> Option<NumbersRead>
    ensures { result ≡ numbers_ended most read }
{
    if read.digits.count == 0 {
        return Some(read);
    }
    if read.count >= most {
        return None;
    }
    Some(NumbersRead {
        digits: no_digits(),
        count: read.count + 1,
    })
}

// One byte more.
#[tactic(auto, unfolding(crate::specs::Numbers::after_byte, crate::specs::Numbers::blank_byte, crate::specs::Decimal::digit_byte))]
fn next_byte(read: NumbersRead, byte: u8, most: usize) -> Option<NumbersRead>
    ensures { result ≡ after_byte most read byte }
{
    match byte {
        b'0'..=b'9' => add_number_digit(read, byte, most),
        b' ' | b'\n' => end_numbers(read, most),
        _ => None,
    }
}

// Stores a number, if there is room.
#[tactic(auto, unfolding(crate::specs::Numbers::stored))]
fn store(numbers: &mut [u32], at: usize, value: u32)
    ensures { numbers.new ≡ stored numbers.old at value }
{
    if at < numbers.len() {
        numbers[at] = value;
    }
}

// One byte more; the number being read stands at its place after each digit.
#[tactic(auto, unfolding(crate::specs::Numbers::kept))]
fn feed_byte(read: NumbersRead, byte: u8, numbers: &mut [u32]) -> Option<NumbersRead>
    ensures value { result ≡ after_byte (length numbers.old) read byte }
    ensures numbers_after { numbers.new ≡ option_map_or (λ after. kept after numbers.old) result numbers.old }
{
    let after = next_byte(read, byte, numbers.len())?;
    if after.digits.count > 0 {
        store(numbers, after.count, after.digits.value);
    }
    Some(after)
}

// Some bytes more.
pub fn feed_numbers(read: NumbersRead, bytes: &[u8], numbers: &mut [u32]) -> Option<NumbersRead>
    ensures value { result ≡ after_bytes (length numbers.old) read bytes.now }
    ensures numbers_after { numbers.new ≡ kept_over (length numbers.old) read bytes.now numbers.old }
{
    let mut here = read;
    for byte in bytes {
        here = feed_byte(here, *byte, numbers)?;
    }
    Some(here)
}

// ---- Putting

// The most digits of a number.
const DIGITS: usize = 20;

// Writes a number in decimal to the end of the array, the last digit first: each is what is left of the number modulo 10. The place of the first.
fn write_decimal(digits: &mut [u8; DIGITS], number: u64) -> usize
    ensures { (drop result digits.new ≡ decimal number) × (result < 20) }
{
    let mut rest = number;
    for k in (1..DIGITS).rev() {
        digits[k] = b'0' + (rest % 10) as u8;
        if rest < 10 {
            return k;
        }
        rest /= 10;
    }
    digits[0] = b'0' + (rest % 10) as u8;
    0
}

// Text that is put into a lent slice: the slice, and the place of the next byte. What finds no room is left out.
#[derive(Drop)]
pub struct TextBuffer<'a> {
    out: &'a mut [u8],
    at: usize,
}

impl<'a> TextBuffer<'a> {
    // What is put stands from place `at` on.
    pub fn new(out: &'a mut [u8], at: usize) -> TextBuffer<'a>
        ensures same_slice { result.out.ghost_name ≡ out.entry.ghost_name }
        ensures text { text_of result ≡ text_at out.old at }
    {
        TextBuffer { out, at }
    }

    // The place of the next byte.
    pub fn at(&self) -> usize
        ensures { result ≡ self.now.at }
    {
        self.at
    }

    // One byte.
    #[tactic(auto, unfolding(crate::specs::Text::put, crate::specs::Text::puts))]
    pub fn put_byte(&mut self, byte: u8)
        ensures { Puts self.old self.new (byte ∷ []) }
    {
        if self.at < self.out.len() {
            self.out[self.at] = byte;
            self.at += 1;
        }
    }

    // Some bytes.
    pub fn put_bytes(&mut self, bytes: &[u8])
        ensures { Puts self.old self.new bytes.now }
    {
        for byte in bytes {
            self.put_byte(*byte);
        }
    }

    // A number in decimal.
    pub fn put_number(&mut self, number: u64)
        ensures { Puts self.old self.new (decimal number) }
    {
        let mut digits = [0u8; DIGITS];
        let first = write_decimal(&mut digits, number);
        self.put_bytes(&digits[first..]);
    }

    // Numbers in decimal, a blank before each.
    pub fn put_numbers(&mut self, numbers: &[u32])
        ensures { Puts self.old self.new (numbers_text numbers.now) }
    {
        for number in numbers {
            self.put_byte(b' ');
            self.put_number(*number as u64);
        }
    }

    // A byte as two hexadecimal digits.
    #[tactic(auto, unfolding(crate::specs::Text::puts))]
    fn put_hex_byte(&mut self, byte: u8)
        ensures { Puts self.old self.new (hex_byte byte) }
    {
        self.put_byte(hex_digit(byte / 16));
        self.put_byte(hex_digit(byte % 16));
    }

    // Bytes in hexadecimal.
    pub fn put_hex(&mut self, bytes: &[u8])
        ensures { Puts self.old self.new (hex_bytes bytes.now) }
    {
        for byte in bytes {
            self.put_hex_byte(*byte);
        }
    }
}

// The digit of a number below 16.
#[tactic(auto, unfolding(crate::specs::Text::hex_digit))]
fn hex_digit(digit: u8) -> u8
    requires { digit < 16 }
    ensures { result ≡ hex_digit digit }
{
    if digit < 10 {
        return b'0' + digit;
    }
    b'a' - 10 + digit
}
