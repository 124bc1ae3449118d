// The page for a word: put into a lent slice.
ghost use Rattle.std.specs.Prelude.{◌≡◌, ◌≤◌, ◌<◌, length, take};
ghost use Rattle.settings.specs.Refusals.{number_of};
ghost use Rattle.text.specs.Text.{text_at, puts, Puts};
ghost use Rattle.top_digits.specs.Page.{head_text, entry_line, entry_lines, page_text, refusal_line, page_for, page_length};

use settings::{Refusal, top_digits};
use text::{TextBuffer, number_in};

// The most bytes of a page.
pub const PAGE_LENGTH: usize = 1024;

// The lines at the head.
fn put_head(text: &mut TextBuffer, set: u32)
    ensures { Puts text.old text.new (head_text set) }
{
    text.put_bytes(b"set ");
    text.put_number(set as u64);
    text.put_bytes(b"\nd t(d)\n");
}

// A line of the list.
fn put_entry(text: &mut TextBuffer, d: usize, t: u32)
    ensures { Puts text.old text.new (entry_line d t) }
{
    text.put_number(d as u64);
    text.put_byte(b' ');
    text.put_number(t as u64);
    text.put_byte(b'\n');
}

// All lines of a list.
fn put_entries(text: &mut TextBuffer, list: &[u32])
    ensures { Puts text.old text.new (entry_lines 0 list.now) }
{
    for (d, t) in list.iter().enumerate() {
        put_entry(text, d, *t);
    }
}

// The page of a set.
fn put_page(text: &mut TextBuffer, set: u32)
    requires { set < 2 }
    ensures { Puts text.old text.new (page_text set) }
{
    put_head(text, set);
    put_entries(text, top_digits(set as usize));
}

// A refusal in the place of a page.
fn put_refusal(text: &mut TextBuffer, refusal: Refusal)
    ensures { Puts text.old text.new (refusal_line (number_of refusal)) }
{
    text.put_byte(b'!');
    text.put_number(refusal.number() as u64);
    text.put_byte(b'\n');
}

// The page for a word.
fn put_page_for(text: &mut TextBuffer, word: &[u8])
    ensures { Puts text.old text.new (page_for word.now) }
{
    let Some(set) = number_in(word) else {
        put_refusal(text, Refusal::Fields);
        return;
    };
    if set >= 2 {
        put_refusal(text, Refusal::SideSetOrKind);
        return;
    }
    put_page(text, set);
}

// The same in front of `out`, whose rest stays: how many bytes it has. The caller lends PAGE_LENGTH bytes.
pub fn page_for(word: &[u8], out: &mut [u8]) -> usize
    requires { page_length ≤ length out.old }
    ensures result_after { text_at out.new result ≡ puts (text_at out.old 0) (page_for word.now) }
    ensures out_after { (take result out.new ≡ page_for word.now) × (result ≤ length out.new) }
{
    let mut text = TextBuffer::new(out, 0);
    put_page_for(&mut text, word);
    text.at()
}
