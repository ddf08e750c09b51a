// Numbers in words.
ghost use Rattle.std.specs.Prelude.{◌≡◌, true, ◌+◌, ◌-◌, ◌*◌, ◌≤◌, ◌^◌, ltb, neg_ℤ, pos};
ghost use Rattle.plan.specs.Checks.{every};
ghost use Rattle.text.specs.Parser.{is_digit};
ghost use Rattle.script_words.specs.Numbers.{value_from, whole_if, is_natural, natural_in, negated, number_in, is_whole, whole_of, is_signed, signed_of};

use crate::types::Number;

fn is_digit(b: u8) -> bool
    ensures { result ≡ is_digit b }
{
    b.is_ascii_digit()
}

fn all_digits(word: &[u8]) -> bool
    ensures { result ≡ every is_digit word.now }
{
    word.iter().all(|b| is_digit(*b))
}

// "no leading zero except 0 itself"
fn is_natural(word: &[u8]) -> bool
    ensures { result ≡ is_natural word.now }
{
    if word.is_empty() {
        return false;
    }
    if word.len() == 1 {
        return is_digit(word[0]);
    }
    if word[0] == b'0' {
        return false;
    }
    all_digits(word)
}

// What a digit stands for.
fn digit(b: u8) -> u64
    requires { is_digit b ≡ true }
    ensures { (result ≡ b - 48) × (result ≤ 9) }
{
    u64::from(b - b'0')
}

// Whether n with the digit d after it is within 64 bits.
fn fits(n: u64, d: u64) -> bool
    requires { d ≤ 9 }
    ensures { result ≡ ltb (n * 10 + d) (2 ^ 64) }
{
    n < 1844674407370955161 || (n == 1844674407370955161 && d <= 5)
}

// The number that digits stand for, if it is within 64 bits.
fn value(word: &[u8]) -> Number
    requires { every is_digit word.now ≡ true }
    ensures { result ≡ whole_if (value_from 0 word.now) }
{
    let mut n: u64 = 0;
    for b in word {
        let d = digit(*b);
        if !fits(n, d) {
            return Number::Other;
        }
        n = n * 10 + d;
    }
    Number::Whole(n)
}

fn natural(word: &[u8]) -> Number
    ensures { result ≡ natural_in word.now }
{
    if !is_natural(word) {
        return Number::Other;
    }
    value(word)
}

// -n, of an n from 1 to 2^63.
fn below(n: u64) -> i64
    requires { (1 ≤ n) × (n ≤ 2 ^ 63) }
    ensures { result ≡ neg_ℤ (pos n) }
{
    let m = (n - 1) as i64;
    -1 - m
}

fn negative(n: Number) -> Number
    ensures { result ≡ negated n }
{
    match n {
        Number::Whole(m) if 1 <= m && m <= 9223372036854775808 => Number::Negative(below(m)),
        _ => Number::Other,
    }
}

// "Numbers are decimal, a minus sign before negatives, within 64 bits."
pub fn number(word: &[u8]) -> Number
    ensures { result ≡ number_in word.now }
{
    if word.is_empty() {
        return Number::Other;
    }
    if word[0] == b'-' {
        return negative(natural(&word[1..]));
    }
    natural(word)
}

pub fn is_whole(n: Number) -> bool
    ensures { result ≡ is_whole n }
{
    matches!(n, Number::Whole(_))
}

pub fn whole(n: Number) -> u64
    ensures { result ≡ whole_of n }
{
    match n {
        Number::Whole(m) => m,
        _ => 0,
    }
}

pub fn is_signed(n: Number) -> bool
    ensures { result ≡ is_signed n }
{
    match n {
        Number::Whole(m) => m < 9223372036854775808,
        Number::Negative(_) => true,
        Number::Other => false,
    }
}

pub fn signed(n: Number) -> i64
    ensures { result ≡ signed_of n }
{
    match n {
        Number::Whole(m) if m < 9223372036854775808 => m as i64,
        Number::Negative(z) => z,
        _ => 0,
    }
}
