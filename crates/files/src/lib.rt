// What the programs share that read a file or standard input. No contract can say what is read or written.
#![tactic(auto)]

ghost use Rattle.std.specs.Prelude.{◌≡◌, ◌≤◌, length, IfOk};
ghost use Rattle.files.specs.Words.{is_text};

use std::env::{Env, FillError};
use std::fs::Files;
use std::io::{ErrorKind, Read, Write};
use std::{fs, io, str};

// The most bytes of a word that a program is given: those of the longest path.
pub const WORD: usize = 4096;

// Reads until the input ends or there is no room left.
pub fn read_all<R: Read>(from: &mut R, room: &mut [u8]) -> io::Result<usize>
    ensures { IfOk result (λ n. n ≤ length room.new) }
{
    let mut n = 0;
    // A turn takes as many bytes as one read gives.
    while n < room.len() {
        let more = from.read(&mut room[n..])?;
        if more == 0 {
            return Ok(n);
        }
        n += more;
    }
    Ok(n)
}

// Opens a file to be read.
pub fn open<F: Files>(files: &F, path: &[u8]) -> io::Result<F::File> {
    match str::from_utf8(path) {
        Ok(path) => fs::open(files, path),
        Err(_) => Err(io::Error::new(ErrorKind::InvalidFilename, "The name is not UTF-8")),
    }
}

// How many words a program is given, its name the first.
pub fn word_count(env: &impl Env) -> usize {
    let mut room = [0u8; 1];
    for i in 0..usize::MAX {
        if let Err(FillError::NotPresent) = env.arg(i, &mut room) {
            return i;
        }
    }
    usize::MAX
}

// The word at a place, if there is room for it.
pub fn word(env: &impl Env, place: usize, room: &mut [u8]) -> io::Result<usize>
    ensures { IfOk result (λ n. n ≤ length room.new) }
{
    match env.arg(place, room) {
        Ok(n) => Ok(n),
        Err(FillError::TooLong) => Err(io::Error::new(
            ErrorKind::InvalidFilename,
            "File name too long",
        )),
        Err(FillError::NotPresent) => Err(io::Error::new(
            ErrorKind::InvalidInput,
            "Invalid argument",
        )),
    }
}

// Whether a word is this text.
pub fn is(word: &[u8], text: &[u8]) -> bool
    ensures { result ≡ is_text word.now text.now }
{
    word == text
}

// How long an error's text is, up to its number or the zeros that are left of its room.
fn said(text: &[u8]) -> usize
    ensures { result ≤ length text.now }
{
    for i in 0..text.len() {
        if (text[i] == 0) | lists::starts_with(&text[i..], b" (os error ") {
            return i;
        }
    }
    text.len()
}

// Says on standard error what failed, with the system's text.
pub fn fail(err: &impl io::Print, program: &[u8], what: &[u8], error: &io::Error) {
    let mut text = [0u8; 128];
    let _ = write!(&mut text[..], "{error}");
    let n = said(&text);
    let _ = err.write_all(program);
    let _ = err.write_all(b": ");
    let _ = err.write_all(what);
    let _ = err.write_all(b": ");
    let _ = err.write_all(&text[..n]);
    let _ = err.write_all(b"\n");
}

// Says it where not all could be printed.
pub fn end_of_print(err: &impl io::Print, program: &[u8], printed: io::Result<()>) {
    if let Err(error) = printed {
        fail(err, program, b"standard output", &error);
    }
}

// Says on standard error that a program has no such option.
pub fn refuse_option(err: &impl io::Print, program: &[u8], option: &[u8]) {
    let _ = err.write_all(program);
    let _ = err.write_all(b": no such option: ");
    let _ = err.write_all(option);
    let _ = err.write_all(b"; see ");
    let _ = err.write_all(program);
    let _ = err.write_all(b" --help\n");
}
