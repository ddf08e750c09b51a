// Reads a plan's text from standard input and prints the picture of its drawing. The file that the first argument names, if there is one,
// has the names of boxes.
#![tactic(auto)]

use picture_fit::fit::blank;
use picture_text::print::print;
use std::env::{Env, FillError};
use std::fs::File;
use std::io::{Read, Write};
use std::rt::Files;
use std::{io, str};
use streams::read_full;

// One byte more than names may have, so that a longer file is refused as too long.
const ROOM: usize = 65537;

// Linux's number for a name that is too long.
const ENAMETOOLONG: i32 = 36;

// The system's words for an error, of a text that has its number after them.
fn words(text: &str) -> &str {
    match text.split_once(" (os error ") {
        Some((words, _)) => words,
        None => text,
    }
}

// Says on standard error what failed, and why.
fn fail<R: Eprint + Alloc>(rt: &R, what: &str, error: io::Error) -> io::Result<()> {
    let text = format!(in rt.alloc(); "{error}")?;
    let why = words(text.as_str());
    eprintln!(rt; "{what}: {why}")
}

// Reads all of an open file, and answers how many bytes; more than ROOM if it cannot be read, which is said on standard error.
fn read_file<R: Eprint + Alloc, F: Read>(
    rt: &R,
    file: &mut F,
    path: &str,
    names: &mut [u8],
) -> io::Result<usize> {
    match read_full(file, names) {
        Ok(n) => Ok(n),
        Err(e) => {
            fail(rt, path, e)?;
            Ok(ROOM + 1)
        }
    }
}

// Reads the names: none without an argument. The answer as above.
fn read_names<R: Env + Files + Eprint + Alloc>(rt: &R, names: &mut [u8]) -> io::Result<usize> {
    let mut argument = [0u8; 4096];
    let length = match rt.arg(1, &mut argument) {
        Ok(length) => length,
        Err(FillError::NotPresent) => return Ok(0),
        Err(FillError::TooLong) => {
            fail(rt, "names", io::Error::from_raw_os_error(ENAMETOOLONG))?;
            return Ok(ROOM + 1);
        }
    };
    let Ok(path) = str::from_utf8(&argument[..length]) else {
        fail(rt, "names", io::Error::from(io::ErrorKind::InvalidFilename))?;
        return Ok(ROOM + 1);
    };
    match File::open(rt, path) {
        Ok(mut file) => read_file(rt, &mut file, path, names),
        Err(e) => {
            fail(rt, path, e)?;
            Ok(ROOM + 1)
        }
    }
}

// Prints the picture, or what was refused.
fn draw<R: Read, W: Write>(input: &mut R, output: &mut W, names: &[u8]) -> io::Result<()> {
    let mut text = [0u8; 65537];
    let mut out = blank();
    let n = read_full(input, &mut text)?;
    let m = print(&text[..n], names, &mut out);
    output.write_all(&out[..m])
}

fn main(rt: HostRuntime) -> io::Result<()> {
    let mut names = [0u8; ROOM];
    let n = read_names(&rt, &mut names)?;
    if n <= ROOM {
        draw(&mut rt.stdin(), &mut rt.stdout(), &names[..n])?;
    }
    Ok(())
}
