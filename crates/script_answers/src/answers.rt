// The line of each answer, written from a position of a lent buffer on. Each answers the position past what it wrote.
ghost use Rattle.std.specs.Prelude.{◌+◌, ◌≤◌, length};
ghost use Rattle.text_write.specs.inner.Written.{Room, Wrote};
ghost use Rattle.script_answers.specs.Answers.{unknown, refused, done, stage as staged, text, walked, positions, line_of};
ghost use Rattle.script_answers.specs.inner.MarkLine.{mark_line_in};
ghost use Rattle.script_answers.specs.inner.Lengths.{max_answer};

use crate::words::{put_positions, put_stage};
use marks::types::Mark;
use plan::walk::Walk;
use script_marks::mark_words::put_mark;
use sheet::types::Stage;
use text_write::number::{put_then, put_word};

// No answer is longer.
pub const MAX_ANSWER: usize = 1500;

// "unknown"
pub fn say_unknown(out: &mut [u8], at: usize) -> usize
    requires { Room (line_of unknown) out.old at }
    ensures { Wrote (line_of unknown) out.old at result out.new }
{
    put_word(out, at, b"unknown\n")
}

// "refused N"
pub fn say_refused(out: &mut [u8], at: usize, n: u32) -> usize
    requires { Room (line_of (refused n)) out.old at }
    ensures { Wrote (line_of (refused n)) out.old at result out.new }
{
    let number = put_word(out, at, b"refused ");
    put_then(out, number, n as u64, b"\n")
}

// "ok"
pub fn say_done(out: &mut [u8], at: usize) -> usize
    requires { Room (line_of done) out.old at }
    ensures { Wrote (line_of done) out.old at result out.new }
{
    put_word(out, at, b"ok\n")
}

// "ok empty", "ok loaded V E", "ok drawn V E P"
pub fn say_stage(out: &mut [u8], at: usize, stage: Stage) -> usize
    requires { at + max_answer ≤ length out.old }
    ensures { Wrote (line_of (staged stage)) out.old at result out.new }
{
    let words = put_word(out, at, b"ok ");
    let end = put_stage(out, words, stage);
    put_word(out, end, b"\n")
}

// "ok LEN TEXT": the line has its LF.
pub fn say_text(out: &mut [u8], at: usize, line: &[u8]) -> usize
    requires { Room (line_of (text line.now)) out.old at }
    ensures { Wrote (line_of (text line.now)) out.old at result out.new }
{
    let length = put_word(out, at, b"ok ");
    let words = put_then(out, length, line.len() as u64, b" ");
    put_word(out, words, line)
}

// "ok box x y hw", "ok bend x y", "ok line x1 y1 x2 y2"
pub fn say_mark(out: &mut [u8], at: usize, mark: Mark) -> usize
    requires { Room (mark_line_in mark) out.old at }
    ensures { Wrote (mark_line_in mark) out.old at result out.new }
{
    let words = put_word(out, at, b"ok ");
    let end = put_mark(out, words, mark);
    put_word(out, end, b"\n")
}

// "ok clear N", "ok crossed N"
pub fn say_walk(out: &mut [u8], at: usize, walk: Walk) -> usize
    requires { Room (line_of (walked walk)) out.old at }
    ensures { Wrote (line_of (walked walk)) out.old at result out.new }
{
    if walk.crossed {
        let number = put_word(out, at, b"ok crossed ");
        return put_then(out, number, walk.taken as u64, b"\n");
    }
    let number = put_word(out, at, b"ok clear ");
    put_then(out, number, walk.taken as u64, b"\n")
}

// "ok x1 x2 .."
pub fn say_positions(out: &mut [u8], at: usize, xs: &[i64]) -> usize
    requires { Room (line_of (positions xs.now)) out.old at }
    ensures { Wrote (line_of (positions xs.now)) out.old at result out.new }
{
    let words = put_word(out, at, b"ok");
    let end = put_positions(out, words, xs);
    put_word(out, end, b"\n")
}
