// Words and decimal numbers, written from a position of a lent buffer on. Each answers the position past what it wrote.
ghost use Rattle.std.specs.Prelude.{cond, ◌∷◌, ◌++◌, ◌+◌, ◌<◌, ◌^◌};
ghost use Rattle.ints.specs.Ints.{size};
ghost use Rattle.text.specs.Decimal.{decimal, signed};
ghost use Rattle.text_write.specs.inner.Written.{Room, Wrote};

// A word, byte for byte.
pub fn put_word(out: &mut [u8], at: usize, word: &[u8]) -> usize
    requires { Room word.now out.old at }
    ensures { Wrote word.now out.old at result out.new }
{
    let end = at + word.len();
    out[at..end].copy_from_slice(word);
    end
}

// A number in decimal.
pub fn put_decimal(out: &mut [u8], at: usize, n: u64) -> usize
    requires { Room (decimal n) out.old at }
    ensures { Wrote (decimal n) out.old at result out.new }
{
    if n < 10 {
        out[at] = b'0' + n as u8;
        return at + 1;
    }
    let last = put_decimal(out, at, n / 10);
    out[last] = b'0' + (n % 10) as u8;
    last + 1
}

// A number in decimal, and a word after it.
pub fn put_then(out: &mut [u8], at: usize, n: u64, word: &[u8]) -> usize
    requires { Room (decimal n ++ word.now) out.old at }
    ensures { Wrote (decimal n ++ word.now) out.old at result out.new }
{
    let next = put_decimal(out, at, n);
    put_word(out, next, word)
}

// A number in decimal, with or without a minus sign before it.
pub fn put_marked(out: &mut [u8], at: usize, minus: bool, n: u64) -> usize
    requires { Room (cond minus (45 ∷ decimal n) (decimal n)) out.old at }
    ensures { Wrote (cond minus (45 ∷ decimal n) (decimal n)) out.old at result out.new }
{
    if !minus {
        return put_decimal(out, at, n);
    }
    out[at] = b'-';
    put_decimal(out, at + 1, n)
}

// A signed number in decimal: "a minus sign stands before negatives".
pub fn put_signed(out: &mut [u8], at: usize, z: i64) -> usize
    requires { (size z < 2 ^ 63) × Room (signed z) out.old at }
    ensures { Wrote (signed z) out.old at result out.new }
{
    put_marked(out, at, z < 0, z.unsigned_abs())
}
