// Texts with bytes written as escapes.
ghost use Rattle.std.specs.Prelude.{◌≡◌, true, false, ◌≤◌, ◌<◌, length};
ghost use Rattle.script_words.specs.inner.Puts.{Puts};
ghost use Rattle.script_texts.specs.Texts.{hex_value, unescaped, escaped, hexadecimal};
ghost use Rattle.script_texts.specs.inner.Units.{Stands, Unescapes};

use crate::types::Text;

// A byte of a text, whether there is one, and where the next begins.
#[derive(Clone, Copy)]
struct Unit {
    good: bool,
    byte: u8,
    next: usize,
}

fn none(next: usize) -> Unit
    ensures { result ≡ record { good = false; byte = 0; next = next } }
{
    Unit {
        good: false,
        byte: 0,
        next,
    }
}

fn one(byte: u8, next: usize) -> Unit
    ensures { result ≡ record { good = true; byte = byte; next = next } }
{
    Unit {
        good: true,
        byte,
        next,
    }
}

// 16 for what is no digit.
fn hex(b: u8) -> u8
    ensures { (result ≡ hex_value b) × (result ≤ 16) }
{
    match b {
        b'0'..=b'9' => b - b'0',
        b'A'..=b'F' => b - b'A' + 10,
        b'a'..=b'f' => b - b'a' + 10,
        _ => 16,
    }
}

// After a backslash and an x.
fn hex_at(s: &[u8], at: usize) -> Unit
    requires { at ≤ length s.now }
    ensures { Stands hexadecimal s.now at result.good result.byte result.next }
{
    if s.len() - at < 2 {
        return none(at);
    }
    let high = hex(s[at]);
    let low = hex(s[at + 1]);
    if high < 16 && low < 16 {
        one(16 * high + low, at + 2)
    } else {
        none(at)
    }
}

// After a backslash.
fn escape_at(s: &[u8], at: usize) -> Unit
    requires { at ≤ length s.now }
    ensures { Stands escaped s.now at result.good result.byte result.next }
{
    if s.len() <= at {
        return none(at);
    }
    match s[at] {
        b'n' => one(b'\n', at + 1),
        b't' => one(b'\t', at + 1),
        b'r' => one(b'\r', at + 1),
        b'\\' => one(b'\\', at + 1),
        b'x' => hex_at(s, at + 1),
        _ => none(at),
    }
}

fn unit_at(s: &[u8], at: usize) -> Unit
    requires { at < length s.now }
    ensures { Stands unescaped s.now at result.good result.byte result.next }
{
    let b = s[at];
    if b == b'\\' {
        return escape_at(s, at + 1);
    }
    one(b, at + 1)
}

// A byte after the first n, where there is room for it: how many there are then.
fn put(out: &mut [u8], n: usize, byte: u8) -> usize
    requires { n ≤ length out.old }
    ensures { Puts byte n out.old result out.new }
{
    if n < out.len() {
        out[n] = byte;
        return n + 1;
    }
    n
}

// The bytes that a text stands for, at the front of a buffer; what it has no room for is left out.
pub fn unescape(text: &[u8], out: &mut [u8]) -> Text
    ensures { Unescapes text.now (length out.old) result out.new }
{
    let mut at: usize = 0;
    let mut n: usize = 0;
    while at < text.len() {
        let u = unit_at(text, at);
        if !u.good {
            return Text::Bad;
        }
        n = put(out, n, u.byte);
        at = u.next;
    }
    Text::Bytes(n)
}
