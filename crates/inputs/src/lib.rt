// The arguments of a program, and the files that they name: what the programs share that read files in place of standard input.
//
// A word that is longer than its slice counts as an empty one, which names no file. A file's name is UTF-8 text: std opens no other.
#![tactic(auto)]

ghost use Rattle.std.specs.Prelude.{◌≤◌, length, IfSome};

use std::env::FillError;
use std::fs::File;
use std::rt::{Env, Files};

// No path is longer.
const PATH_LENGTH: usize = 4096;

// Argument i, put in front of `word`: how many bytes it has. Nothing, if there is no such argument.
pub fn argument(rt: &impl Env, i: usize, word: &mut [u8]) -> Option<usize>
    ensures { IfSome result (λ n. n ≤ length word.new) }
{
    match rt.arg(i, word) {
        Ok(n) => Some(n),
        Err(FillError::TooLong) => Some(0),
        Err(FillError::NotPresent) => None,
    }
}

// Is there an argument i?
pub fn has_argument(rt: &impl Env, i: usize) -> bool {
    let mut word = [0u8; PATH_LENGTH];
    argument(rt, i, &mut word).is_some()
}

// Opens a file to read it. Where that fails, says so on standard error.
fn open_path<R: Files + Eprint>(rt: &R, path: &str) -> Option<R::File> {
    match File::open(rt, path) {
        Ok(file) => Some(file),
        Err(error) => {
            let _ = eprintln!(rt; "{path}: {error}");
            None
        }
    }
}

// The file that argument i names, opened to read it. Nothing, if there is no such argument; `Some(None)`, if the file cannot be opened,
// which is said on standard error.
pub fn open_argument<R: Env + Files + Eprint>(rt: &R, i: usize) -> Option<Option<R::File>> {
    let mut word = [0u8; PATH_LENGTH];
    let n = argument(rt, i, &mut word)?;
    let Ok(path) = std::str::from_utf8(&word[..n]) else {
        let _ = eprintln!(rt; "argument {i}: no UTF-8 text");
        return Some(None);
    };
    Some(open_path(rt, path))
}
