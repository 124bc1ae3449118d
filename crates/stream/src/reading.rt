// Whole inputs, read part by part and answered: a part that has been read is answered before the next is read, and memory does not grow
// with the input.
ghost use Rattle.std.specs.Prelude.{◌≡◌, [], ◌<◌, ◌^◌, IfOk};
ghost use Rattle.stream.specs.Waiting.{standing, flushed, all_calls};

use crate::answers::{LineAnswerer, answer_some, put_last};
use crate::{Stream, start_stream};
use inputs::{has_argument, open_argument};
use std::io;
use std::io::{Read, Write};
use std::rt::{Env, Files};

// The most bytes that are read at once.
const PART: usize = 65536;

// Answers the lines that end in a part, and writes the answers, until a write fails.
fn answer_part<const KEPT: usize, const OUT: usize, W: Write, A: LineAnswerer<KEPT, OUT>>(
    output: &mut W,
    answerer: &mut A,
    stream: Stream,
    kept: &mut [u8; KEPT],
    bytes: &[u8],
    out: &mut [u8; OUT],
) -> io::Result<Stream>
    ensures { IfOk result (λ here. standing here kept.new [] 0 (A.carried answerer.new) ≡ flushed (all_calls A.handler (standing stream kept.old [] 0 (A.carried answerer.old)) bytes.now)) }
{
    let mut here = stream;
    let mut at = 0;
    while at < bytes.len() {
        let call = answer_some(answerer, here, kept, &bytes[at..], out);
        output.write_all(&out[..call.waiting])?;
        here = call.stream;
        at += call.used;
    }
    Ok(here)
}

// Reads all parts, and answers their lines. Nothing says that an input ends, so the reads are counted, up to a number that no run uses up.
fn read_parts<const KEPT: usize, const OUT: usize, R: Read, W: Write, A: LineAnswerer<KEPT, OUT>>(
    input: &mut R,
    output: &mut W,
    answerer: &mut A,
    kept: &mut [u8; KEPT],
    part: &mut [u8; PART],
    out: &mut [u8; OUT],
) -> io::Result<Stream> {
    let mut here = start_stream();
    for _ in 0..u64::MAX {
        let n = input.read(part)?;
        if n == 0 {
            break;
        }
        here = answer_part(output, answerer, here, kept, &part[..n], out)?;
    }
    Ok(here)
}

// Answers an input, until a read or a write fails.
fn answer_input<const KEPT: usize, const OUT: usize, R: Read, W: Write, A: LineAnswerer<KEPT, OUT>>(
    input: &mut R,
    output: &mut W,
    answerer: &mut A,
    from: A::Carried,
    kept: &mut [u8; KEPT],
    part: &mut [u8; PART],
    out: &mut [u8; OUT],
) -> io::Result<()> {
    answerer.start(from);
    let end = read_parts(input, output, answerer, kept, part, out)?;
    let n = put_last(answerer, end, kept, out);
    output.write_all(&out[..n])
}

// The inputs in the files that the arguments name, one after another, until a read or a write fails. A file that cannot be opened is
// passed over.
fn answer_files<
    const KEPT: usize,
    const OUT: usize,
    R: Env + Files + Print + Eprint,
    A: LineAnswerer<KEPT, OUT>,
>(
    rt: &R,
    answerer: &mut A,
    from: A::Carried,
    kept: &mut [u8; KEPT],
    part: &mut [u8; PART],
    out: &mut [u8; OUT],
) -> io::Result<()> {
    for i in 1..usize::MAX {
        let Some(opened) = open_argument(rt, i) else {
            break;
        };
        if let Some(mut file) = opened {
            let output = &mut io::writer(rt);
            answer_input(&mut file, output, answerer, from, kept, part, out)?;
        }
    }
    Ok(())
}

// Answers standard input, or, where there are arguments, the files that they name, each an input of its own to whose first line `from` is
// carried. The slices for an input are made here once; no slice is longer than the system allows.
pub fn answer_inputs<
    const KEPT: usize,
    const OUT: usize,
    R: Env + Files + Input + Print + Eprint,
    A: LineAnswerer<KEPT, OUT>,
>(rt: &R, answerer: &mut A, from: A::Carried) -> io::Result<()>
    requires kept_fits { KEPT < 2 ^ 63 }
    requires out_fits { OUT < 2 ^ 63 }
{
    let mut kept = [0u8; KEPT];
    let mut part = [0u8; PART];
    let mut out = [0u8; OUT];
    if has_argument(rt, 1) {
        return answer_files(rt, answerer, from, &mut kept, &mut part, &mut out);
    }
    answer_input(
        &mut rt.reader(),
        &mut io::writer(rt),
        answerer,
        from,
        &mut kept,
        &mut part,
        &mut out,
    )
}
