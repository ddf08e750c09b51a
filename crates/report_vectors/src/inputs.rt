// Texts in one input, each after a line with the number of its bytes.
ghost use Rattle.std.specs.Prelude.{◌≤◌, IfOk};

use std::io;
use std::io::Read;
use streams::read_full;

// Most bytes of a text: one more than the limit.
pub const MOST_BYTES: usize = 65537;

// What stands for a length where there is no further text.
pub const NO_MORE: usize = 65538;

// n with the digit b after it.
fn with_digit(n: usize, b: u8) -> usize
    requires { n ≤ 65537 }
{
    if b < 48 {
        n
    } else {
        10 * n + usize::from(b - 48)
    }
}

// The length that the next line says.
pub fn next_length<R: Read>(input: &mut R) -> io::Result<usize>
    ensures { IfOk result (λ n. n ≤ 65538) }
{
    let mut byte = [0u8; 1];
    let mut n: usize = 0;
    for _ in 0..6 {
        if read_full(input, &mut byte)? == 0 {
            return Ok(NO_MORE);
        }
        if byte[0] == 10 {
            return Ok(n);
        }
        n = with_digit(n, byte[0]);
        if MOST_BYTES < n {
            return Ok(NO_MORE);
        }
    }
    Ok(NO_MORE)
}
