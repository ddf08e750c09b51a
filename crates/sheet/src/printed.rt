// What is printed of an answer.
ghost use Rattle.std.specs.Prelude.{◌≤◌, length};
ghost use Rattle.sheet.specs.inner.Printed.{Prints};

use crate::numbered::Numbered;
use text_write::again::refuse;

// How many bytes: those that the call wrote at the front of the buffer, or the line `(refused N)`, which is written there.
pub fn print_answer<R: Numbered>(answer: Result<usize, R>, out: &mut [u8]) -> usize
    requires { 21 ≤ length out.old }
    ensures { Prints R.number_of answer out.old result out.new }
{
    match answer {
        Ok(n) => n,
        Err(refusal) => refuse(refusal.number(), out),
    }
}
