// Reads plan texts, each after a line with the number of its bytes, and prints of each all report lines, or the one line
// `(refused N)`; ends at the first accepted text that is not written again as it is.
#![tactic(auto)]

pub mod inputs;

ghost use Rattle.std.specs.Prelude.{◌≤◌, length};

use crate::inputs::{MOST_BYTES, NO_MORE, next_length};
use ints::refusal::Refusal;
use sheet_fit::fit::MAX_REPORT;
use std::io;
use std::io::{Read, Write};
use streams::read_full;
use text_report::print::print;
use text_write::again::rewrite;

const MOST_TEXTS: usize = 2000;

// Whether a text is refused, or written again as it is; the buffer is for that.
fn written_again(text: &[u8], buffer: &mut [u8]) -> bool {
    match rewrite(text, buffer) {
        Ok(n) => n == text.len() && buffer.starts_with(text),
        Err(Refusal::Room) => false,
        Err(_) => true,
    }
}

// Answers the next text; false if there is none, or if it is not written again as it is.
fn answered<R: Read, W: Write>(
    input: &mut R,
    output: &mut W,
    text: &mut [u8],
    out: &mut [u8],
) -> io::Result<bool>
    requires { (65537 ≤ length text.old) × (119834 ≤ length out.old) }
{
    let n = next_length(input)?;
    if n == NO_MORE {
        return Ok(false);
    }
    let got = read_full(input, &mut text[..n])?;
    let m = print(&text[..got], out);
    output.write_all(&out[..m])?;
    Ok(written_again(&text[..got], out))
}

fn main(rt: HostRuntime) -> io::Result<()> {
    let mut input = rt.stdin();
    let mut output = rt.stdout();
    let mut text = [0u8; MOST_BYTES];
    let mut out = [0u8; MAX_REPORT];
    for _ in 0..MOST_TEXTS {
        if !answered(&mut input, &mut output, &mut text, &mut out)? {
            return Ok(());
        }
    }
    Ok(())
}
