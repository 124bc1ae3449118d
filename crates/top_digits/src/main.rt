// Prints the list of t(d) as support engineers use it: `top_digits SET`, SET 0 or 1. A line for each d from 0 to 2 s + 1 has d and t(d), read
// from the list that round 5 reads. Several sets may be named, a page for each. A number that is no set is answered with `!1`, another
// word with `!12`.
//
// Proved: the bytes that are handed to the system are the page of the word (`page_for`). That the system writes them is not stated.
#![tactic(auto)]

mod page;

use inputs::{argument, has_argument};
use page::{PAGE_LENGTH, page_for};
use std::io;
use std::rt::Env;

// No word that names a set is longer.
const WORD_LENGTH: usize = 4096;

// The page for argument i; whether there is such an argument.
fn print_page(rt: &(impl Env + Print), i: usize) -> io::Result<bool> {
    let mut word = [0u8; WORD_LENGTH];
    let Some(length) = argument(rt, i, &mut word) else {
        return Ok(false);
    };
    let mut out = [0u8; PAGE_LENGTH];
    let n = page_for(&word[..length], &mut out);
    rt.write_all(&out[..n])?;
    Ok(true)
}

// The pages for the arguments, one after another, until a write fails.
fn print_pages(rt: &(impl Env + Print)) -> io::Result<()> {
    for i in 1..usize::MAX {
        if !print_page(rt, i)? {
            break;
        }
    }
    Ok(())
}

fn main(rt: HostRuntime) -> io::Result<()> {
    if has_argument(&rt, 1) {
        return print_pages(&rt);
    }
    eprintln!(rt; "usage: top_digits SET, with SET 0 or 1")
}
