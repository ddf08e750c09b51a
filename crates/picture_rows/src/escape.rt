// Text as it stands in XML, written from a position of a lent buffer on. Each answers the position past what it wrote.
ghost use Rattle.std.specs.Prelude.{[], ◌∷◌};
ghost use Rattle.text_write.specs.inner.Written.{Room, Wrote};
ghost use Rattle.picture_rows.specs.Escape.{escaped_byte, escaped};

use text_write::number::put_word;

// A byte as it is.
fn put_byte(out: &mut [u8], at: usize, b: u8) -> usize
    requires { Room (b ∷ []) out.old at }
    ensures { Wrote (b ∷ []) out.old at result out.new }
{
    out[at] = b;
    at + 1
}

// A byte.
#[tactic(auto, unfolding(crate::specs::Escape::escaped_byte))]
fn put_escaped_byte(out: &mut [u8], at: usize, b: u8) -> usize
    requires { Room (escaped_byte b) out.old at }
    ensures { Wrote (escaped_byte b) out.old at result out.new }
{
    if b == b'&' {
        return put_word(out, at, b"&amp;");
    }
    if b == b'<' {
        return put_word(out, at, b"&lt;");
    }
    if b == b'>' {
        return put_word(out, at, b"&gt;");
    }
    put_byte(out, at, b)
}

pub fn put_escaped(out: &mut [u8], from: usize, text: &[u8]) -> usize
    requires { Room (escaped text.now) out.old from }
    ensures { Wrote (escaped text.now) out.old from result out.new }
{
    let mut at = from;
    for b in text {
        at = put_escaped_byte(out, at, *b);
    }
    at
}
