// Lists of numbers with commas between.
ghost use Rattle.std.specs.Prelude.{◌≡◌, ◌≤◌, length, replicate};
ghost use Rattle.script_words.specs.inner.Puts.{Puts};
ghost use Rattle.script_runs.specs.Lists.{is_number, may_stand, is_list, wholes_in, signeds_in};
ghost use Rattle.script_runs.specs.inner.Filled.{Fills};

use crate::types::Kind;
use script_words::numbers::{is_signed, is_whole, number, signed, whole};
use script_words::parts::end_of;
use script_words::types::Number;

fn is_number(n: Number) -> bool
    ensures { result ≡ is_number n }
{
    matches!(n, Number::Whole(_) | Number::Negative(_))
}

fn may_stand(kind: Kind, n: Number) -> bool
    ensures { result ≡ may_stand kind n }
{
    match kind {
        Kind::Unsigned => is_whole(n),
        Kind::Signed => is_signed(n),
        Kind::Any => is_number(n),
    }
}

pub fn is_list(kind: Kind, word: &[u8]) -> bool
    ensures { result ≡ is_list kind word.now }
{
    if word.is_empty() {
        return true;
    }
    let mut from = 0;
    loop {
        let to = end_of(word, b',', from);
        if !may_stand(kind, number(&word[from..to])) {
            return false;
        }
        if to >= word.len() {
            return true;
        }
        from = to + 1;
    }
}

// One more after the first n of a buffer, if it has room: how many there are then.
fn put<T: Copy>(out: &mut [T], n: usize, x: T) -> usize
    requires { n ≤ length out.old }
    ensures { Puts x n out.old result out.new }
{
    if n < out.len() {
        out[n] = x;
        return n + 1;
    }
    n
}

// The numbers of a list at the front of a buffer, as many as it has room for: how many there are.
pub fn wholes_in(word: &[u8], out: &mut [u64]) -> usize
    ensures { Fills (wholes_in word.now) (length out.old) result out.new }
{
    if word.is_empty() {
        return 0;
    }
    let mut from = 0;
    let mut n = 0;
    loop {
        let to = end_of(word, b',', from);
        n = put(out, n, whole(number(&word[from..to])));
        if to >= word.len() {
            return n;
        }
        from = to + 1;
    }
}

// The same with signs.
pub fn signeds_in(word: &[u8], out: &mut [i64]) -> usize
    ensures { Fills (signeds_in word.now) (length out.old) result out.new }
{
    if word.is_empty() {
        return 0;
    }
    let mut from = 0;
    let mut n = 0;
    loop {
        let to = end_of(word, b',', from);
        n = put(out, n, signed(number(&word[from..to])));
        if to >= word.len() {
            return n;
        }
        from = to + 1;
    }
}

// A 1 for each number of a list, likewise.
pub fn ones_in(word: &[u8], out: &mut [u64]) -> usize
    ensures { Fills (replicate (length (signeds_in word.now)) 1) (length out.old) result out.new }
{
    let n = wholes_in(word, out);
    out[..n].fill(1);
    n
}
