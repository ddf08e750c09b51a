// A word and a number of steps after it, as in ` x="12.5`, written from a position of a lent buffer on. Each answers the position past
// what it wrote.
ghost use Rattle.std.specs.Prelude.{◌++◌, ◌≤◌, ◌^◌};
ghost use Rattle.ints.specs.Ints.{size};
ghost use Rattle.text_write.specs.inner.Written.{Room, Wrote};
ghost use Rattle.picture_numbers.specs.Thousandths.{amount, across, down};

use crate::thousandths::{put_amount, put_thousandths};
use text_write::number::put_word;

// A number of half steps.
pub fn put_across(out: &mut [u8], at: usize, word: &[u8], n: i64) -> usize
    requires { (size n ≤ 2 ^ 42) × Room (word.now ++ across n) out.old at }
    ensures { Wrote (word.now ++ across n) out.old at result out.new }
{
    let next = put_word(out, at, word);
    put_thousandths(out, next, 500 * n)
}

// A number of steps.
pub fn put_down(out: &mut [u8], at: usize, word: &[u8], n: u64) -> usize
    requires { (n ≤ 2 ^ 42) × Room (word.now ++ down n) out.old at }
    ensures { Wrote (word.now ++ down n) out.old at result out.new }
{
    let next = put_word(out, at, word);
    put_amount(out, next, 1000 * n)
}

// A number of thousandths that is not negative.
pub fn put_measured(out: &mut [u8], at: usize, word: &[u8], n: u64) -> usize
    requires { Room (word.now ++ amount n) out.old at }
    ensures { Wrote (word.now ++ amount n) out.old at result out.new }
{
    let next = put_word(out, at, word);
    put_amount(out, next, n)
}
