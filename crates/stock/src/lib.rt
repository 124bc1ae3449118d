// Choice of a book from two lent stocks, the one with the least serial above the last; and its questions.
#![tactic(auto)]

ghost use Rattle.std.specs.Prelude.{◌≡◌, ◌&&◌, ◌%◌, ◌≤◌, ◌<◌, eqb, length, option_map};
ghost use Rattle.settings.specs.Refusals.{refused};
ghost use Rattle.settings.specs.Sizes.{key_count};
ghost use Rattle.stock.specs.Stock.{stocked_size, books_of, serial_of, is_above, both_stocks, some_of, ask_stocks, choose_no, chosen};
ghost use Rattle.stock.specs.Scan.{better, scanned};

use settings::{Refusal, Shape, WIDTH, ask_shape, shared_of};

// How many numbers a book has in a stock. (Callers have asked questions 1 and 2.)
fn stocked_size(shape: Shape) -> usize
    requires { (shape.set < 2) × (shape.n ≤ 8) }
    ensures { (result ≡ stocked_size key_count shape) × (1 ≤ result) }
{
    1 + shared_of(shape) * WIDTH
}

// A book in its stock: its serial, and then its numbers.
#[derive(Clone, Copy)]
struct Book<'a> {
    part: &'a [u32],
    ghost some: { 1 ≤ length part.now },
}

impl<'a> Book<'a> {
    fn serial(&self) -> u32
        ensures { result ≡ serial_of self.now.part.now }
    {
        self.part[0]
    }

    // Of what was found and this book: this one only if it is above the last and less than what was found, so that the earlier of two equals stays.
    fn better(self, last: u32, found: Option<Book<'a>>) -> Option<Book<'a>>
        ensures { option_map (λ b. b.part.now) result ≡ better last (option_map (λ b. b.part.now) found.entry) self.entry.part.now }
    {
        if self.serial() <= last {
            return found;
        }
        match found {
            Some(least) if least.serial() <= self.serial() => found,
            _ => Some(self),
        }
    }
}

// The first book with the least serial above the last, of what was found before and a stock's books.
fn scan<'a>(
    last: u32,
    size: usize,
    stock: &'a [u32],
    mut found: Option<Book<'a>>,
) -> Option<Book<'a>>
    requires { 1 ≤ size }
    ensures { option_map (λ b. b.part.now) result ≡ scanned last (books_of size stock.now) (option_map (λ b. b.part.now) found.entry) }
{
    for part in stock.chunks_exact(size) {
        found = Book { part }.better(last, found);
    }
    found
}

// ---- The calls

// Question 5: are both stocks whole books?
fn whole_books(first: &[u32], second: &[u32], size: usize) -> bool
    requires { 1 ≤ size }
    ensures { result ≡ (eqb (length first.now % size) 0 && eqb (length second.now % size) 0) }
{
    first.len() % size == 0 && second.len() % size == 0
}

// Questions 1, 2 and 5.
fn ask_stocks(shape: Shape, first: &[u32], second: &[u32]) -> Result<(), Refusal>
    ensures { refused result ≡ ask_stocks key_count shape first.now second.now 0 }
{
    ask_shape(shape)?;
    if !whole_books(first, second, stocked_size(shape)) {
        return Err(Refusal::Length);
    }
    Ok(())
}

// Has either stock a serial above the last? The second is looked at only where the first has none.
fn some_above(size: usize, first: &[u32], second: &[u32], last: u32) -> bool
    requires { 1 ≤ size }
    ensures { result ≡ some_of (is_above last) (both_stocks size first.now second.now) }
{
    scan(last, size, first, None).is_some() || scan(last, size, second, None).is_some()
}

// May choose give a book?
pub fn choose_no(shape: Shape, first: &[u32], second: &[u32], last: u32) -> Result<(), Refusal>
    ensures { refused result ≡ choose_no key_count shape first.now second.now last }
{
    ask_stocks(shape, first, second)?;
    if !some_above(stocked_size(shape), first, second, last) {
        return Err(Refusal::NoBook);
    }
    Ok(())
}

// The book with the least serial above the last, from its serial on; under any no the empty part.
pub fn choose<'a>(shape: Shape, first: &'a [u32], second: &'a [u32], last: u32) -> &'a [u32]
    ensures { result.now ≡ chosen key_count shape first.now second.now last }
{
    if ask_stocks(shape, first, second).is_err() {
        return &second[..0];
    }
    let size = stocked_size(shape);
    match scan(last, size, second, scan(last, size, first, None)) {
        Some(book) => book.part,
        None => &second[..0],
    }
}
