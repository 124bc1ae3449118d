// The words of a line: the call that the first one names, and the numbers behind it.
ghost use Rattle.std.specs.Prelude.{◌≡◌, ◌+◌, ◌≤◌, length};
ghost use Rattle.syntax.specs.Line.{words};
ghost use Rattle.desk.specs.Desk.{call_named};
ghost use Rattle.desk.specs.Numbers.{ReadsNumbers};

use lists::length_before;
use text::number_in;

// A call, by the first word of its line.
#[derive(Clone, Copy)]
pub enum CallName {
    Parts,
    BoundVerdict,
    Choose,
    Draw,
}

// The call that the word names.
#[tactic(auto, unfolding(crate::specs::Desk::call_named, crate::specs::Desk::same_word))]
pub fn call_named(word: &[u8]) -> Option<CallName>
    ensures { result ≡ call_named word.now }
{
    if word == b"parts".as_slice() {
        return Some(CallName::Parts);
    }
    if word == b"verdict".as_slice() {
        return Some(CallName::BoundVerdict);
    }
    if word == b"choose".as_slice() {
        return Some(CallName::Choose);
    }
    if word == b"draw".as_slice() {
        return Some(CallName::Draw);
    }
    None
}

// Reads each word as a number, unless one is none: how many there are. They stand in front of `numbers`. The caller lends a place for every
// second byte: a number has a digit at least, and a blank before the next.
pub fn read_numbers(line: &[u8], numbers: &mut [u32]) -> Option<usize>
    requires { length line.now + 1 ≤ length numbers.old + length numbers.old }
    ensures { ReadsNumbers (words line.now) result numbers.new }
{
    let mut count = 0;
    let mut at = 0;
    while at <= line.len() {
        let end = at + length_before(&line[at..], b' ');
        let number = number_in(&line[at..end])?;
        numbers[count] = number;
        count += 1;
        at = end + 1;
    }
    Some(count)
}
