// The f64 numbers of a mark in decimal, written from a position of a lent buffer on. Each answers the position past what it wrote.
ghost use Rattle.std.specs.Prelude.{◌≡◌};
ghost use Rattle.text_write.specs.inner.Written.{Room, Wrote};
ghost use Rattle.script_marks.specs.Marks.{half_steps};
ghost use Rattle.script_marks.specs.inner.Floats.{whole_in, across_in, down_in, point_in};

use marks::types::Point;
use text_write::number::{put_decimal, put_then, put_word};

// The whole part of a number between -1 and 2^64; 0 for any other.
fn whole(x: f64) -> u64
    ensures { result ≡ whole_in x }
{
    if x > -1.0 {
        if x < 18446744073709551616.0 {
            return std::num::truncating_f64_to_u64(x);
        }
    }
    0
}

// Half steps as steps, with one decimal.
fn put_half_steps(out: &mut [u8], at: usize, n: u64) -> usize
    requires { Room (half_steps n) out.old at }
    ensures { Wrote (half_steps n) out.old at result out.new }
{
    if n % 2 == 0 {
        return put_then(out, at, n / 2, b".0");
    }
    put_then(out, at, n / 2, b".5")
}

// A multiple of 0.5, with one decimal.
fn put_across(out: &mut [u8], at: usize, x: f64) -> usize
    requires { Room (across_in x) out.old at }
    ensures { Wrote (across_in x) out.old at result out.new }
{
    if x < 0.0 {
        let next = put_word(out, at, b"-");
        return put_half_steps(out, next, whole(x * -2.0));
    }
    put_half_steps(out, at, whole(x * 2.0))
}

// A whole number that is not negative.
pub fn put_down(out: &mut [u8], at: usize, y: f64) -> usize
    requires { Room (down_in y) out.old at }
    ensures { Wrote (down_in y) out.old at result out.new }
{
    put_decimal(out, at, whole(y))
}

// "x y"
pub fn put_point(out: &mut [u8], at: usize, q: Point) -> usize
    requires { Room (point_in q) out.old at }
    ensures { Wrote (point_in q) out.old at result out.new }
{
    let space = put_across(out, at, q.x);
    let down = put_word(out, space, b" ");
    put_down(out, down, q.y)
}
