// Plays a whole run between the two sides from numbers on standard input, and writes every message, the answers and the opening
// counts: a transcript that another program can be compared with, byte for byte. Arguments name files to read instead, each an
// input of its own.
//
// An input, decimal numbers between blanks or line ends: set, kind, n, bound, serial, the server's keys, the phone's keys; n shared
// numbers of the server's input, n of the phone's; all others are the draw. Where exactly as many are left as the two books have, they
// are the server's book and the phone's, and nothing is dealt.
#![tactic(auto)]

mod lines;
mod whole;

use inputs::{has_argument, open_argument};
use std::io;
use std::io::{Read, Write};
use std::rt::{Env, Files};
use text::{end_numbers, feed_numbers, start_numbers};
use whole::{MOST_NUMBERS, OUT_LENGTH, text_for};

// The most bytes that are read at once.
const PART: usize = 4096;

// Reads to the end of the input: how many numbers it has, unless it is malformed. A read that fails counts as the end. Nothing says that
// an input ends, so the reads are counted, up to a number that no run uses up.
fn read_all<R: Read>(input: &mut R, numbers: &mut [u32]) -> Option<usize> {
    let mut read = Some(start_numbers());
    for _ in 0..u64::MAX {
        let mut chunk = [0u8; PART];
        let Ok(n) = input.read(&mut chunk) else {
            break;
        };
        if n == 0 {
            break;
        }
        read = match read {
            Some(here) => feed_numbers(here, &chunk[..n], numbers),
            None => None,
        };
    }
    Some(end_numbers(read?, numbers.len())?.count)
}

// Reads one input, and writes the text for it.
fn transcribe<R: Read, W: Write>(input: &mut R, output: &mut W) -> io::Result<()> {
    let mut numbers = [0u32; MOST_NUMBERS];
    let count = read_all(input, &mut numbers);
    let mut out = [0u8; OUT_LENGTH];
    let length = text_for(count, &numbers, &mut out);
    output.write_all(&out[..length])
}

// The input in the file that argument i names; whether there is such an argument. A file that cannot be opened is passed over.
fn transcribe_file<R: Env + Files + Print + Eprint>(rt: &R, i: usize) -> io::Result<bool> {
    match open_argument(rt, i) {
        None => return Ok(false),
        Some(None) => {}
        Some(Some(mut file)) => transcribe(&mut file, &mut io::writer(rt))?,
    }
    Ok(true)
}

// The inputs in the files that the arguments name, one after another, until a write fails.
fn transcribe_files<R: Env + Files + Print + Eprint>(rt: &R) -> io::Result<()> {
    for i in 1..usize::MAX {
        if !transcribe_file(rt, i)? {
            break;
        }
    }
    Ok(())
}

fn main(rt: HostRuntime) -> io::Result<()> {
    if has_argument(&rt, 1) {
        return transcribe_files(&rt);
    }
    transcribe(&mut rt.reader(), &mut io::writer(&rt))
}
