// Numbers of thousandths of a step in decimal, written from a position of a lent buffer on. Each answers the position past what it wrote.
ghost use Rattle.std.specs.Prelude.{◌<◌, ◌^◌};
ghost use Rattle.ints.specs.Ints.{size};
ghost use Rattle.text_write.specs.inner.Written.{Room, Wrote};
ghost use Rattle.picture_numbers.specs.Thousandths.{places, fraction, amount, thousandths};

use text_write::number::{put_decimal, put_word};

// The digits of a fraction.
fn put_places(out: &mut [u8], at: usize, f: u64) -> usize
    requires { Room (places f) out.old at }
    ensures { Wrote (places f) out.old at result out.new }
{
    if f % 100 == 0 {
        return put_decimal(out, at, f / 100);
    }
    if f % 10 == 0 {
        let two = put_decimal(out, at, f / 100);
        return put_decimal(out, two, f / 10 % 10);
    }
    let two = put_decimal(out, at, f / 100);
    let three = put_decimal(out, two, f / 10 % 10);
    put_decimal(out, three, f % 10)
}

// A fraction: nothing if it is 0.
fn put_fraction(out: &mut [u8], at: usize, f: u64) -> usize
    requires { Room (fraction f) out.old at }
    ensures { Wrote (fraction f) out.old at result out.new }
{
    if f == 0 {
        return at;
    }
    let first = put_word(out, at, b".");
    put_places(out, first, f)
}

// A number that is not negative.
pub fn put_amount(out: &mut [u8], at: usize, n: u64) -> usize
    requires { Room (amount n) out.old at }
    ensures { Wrote (amount n) out.old at result out.new }
{
    let next = put_decimal(out, at, n / 1000);
    put_fraction(out, next, n % 1000)
}

// A number with its sign.
pub fn put_thousandths(out: &mut [u8], at: usize, n: i64) -> usize
    requires { (size n < 2 ^ 63) × Room (thousandths n) out.old at }
    ensures { Wrote (thousandths n) out.old at result out.new }
{
    if n < 0 {
        let next = put_word(out, at, b"-");
        return put_amount(out, next, (0 - n) as u64);
    }
    put_amount(out, at, n as u64)
}
