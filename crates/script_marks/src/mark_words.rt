// A mark's words, written from a position of a lent buffer on. Each answers the position past what it wrote.
ghost use Rattle.text_write.specs.inner.Written.{Room, Wrote};
ghost use Rattle.script_marks.specs.inner.Floats.{mark_in};

use crate::numbers::{put_down, put_point};
use marks::types::{Mark, Point};
use text_write::number::put_word;

// "box x y hw"
fn put_box(out: &mut [u8], at: usize, q: Point, half: f64) -> usize
    requires { Room (mark_in (Mark.Box q half)) out.old at }
    ensures { Wrote (mark_in (Mark.Box q half)) out.old at result out.new }
{
    let point = put_word(out, at, b"box ");
    let space = put_point(out, point, q);
    let width = put_word(out, space, b" ");
    put_down(out, width, half)
}

// "bend x y"
fn put_bend(out: &mut [u8], at: usize, q: Point) -> usize
    requires { Room (mark_in (Mark.Bend q)) out.old at }
    ensures { Wrote (mark_in (Mark.Bend q)) out.old at result out.new }
{
    let point = put_word(out, at, b"bend ");
    put_point(out, point, q)
}

// "line x1 y1 x2 y2"
fn put_line(out: &mut [u8], at: usize, a: Point, b: Point) -> usize
    requires { Room (mark_in (Mark.Line a b)) out.old at }
    ensures { Wrote (mark_in (Mark.Line a b)) out.old at result out.new }
{
    let upper = put_word(out, at, b"line ");
    let space = put_point(out, upper, a);
    let lower = put_word(out, space, b" ");
    put_point(out, lower, b)
}

// A mark.
pub fn put_mark(out: &mut [u8], at: usize, mark: Mark) -> usize
    requires { Room (mark_in mark) out.old at }
    ensures { Wrote (mark_in mark) out.old at result out.new }
{
    match mark {
        Mark::Box(q, half) => put_box(out, at, q, half),
        Mark::Bend(q) => put_bend(out, at, q),
        Mark::Line(a, b) => put_line(out, at, a, b),
    }
}
