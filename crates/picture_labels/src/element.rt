// Elements of a label, written from a position of a lent buffer on. Each answers the position past what it wrote.
ghost use Rattle.std.specs.Prelude.{cond, [], ◌≤◌, ◌^◌};
ghost use Rattle.ints.specs.Ints as ints;
ghost use Rattle.text_write.specs.inner.Written.{Room, Wrote};
ghost use Rattle.picture_rows.specs.Rows.{row};
ghost use Rattle.picture_labels.specs.Label.{offset, start_of, element_of, sign, letters};

use picture_numbers::attributes::{put_across, put_down, put_measured};
use picture_rows::escape::put_escaped;
use text_write::number::put_word;

// The place of a row.
#[tactic(auto, unfolding(crate::specs::Label::offset))]
fn put_offset(out: &mut [u8], at: usize, k: u32) -> usize
    requires { Room (offset k) out.old at }
    ensures { Wrote (offset k) out.old at result out.new }
{
    match k {
        0 => put_word(out, at, b"-.85"),
        1 => put_word(out, at, b"-.25"),
        2 => put_word(out, at, b".35"),
        3 => put_word(out, at, b".95"),
        4 => put_word(out, at, b"1.55"),
        _ => at,
    }
}

// What stands before the letters.
pub fn put_start(out: &mut [u8], at: usize, x: i64, y: u64, size: u64, k: u32) -> usize
    requires { (ints.size x ≤ 2 ^ 42) × (y ≤ 2 ^ 42) × Room (start_of x y size k) out.old at }
    ensures { Wrote (start_of x y size k) out.old at result out.new }
{
    let a = put_across(out, at, b"<text x=\"", x);
    let b = put_down(out, a, b"\" y=\"", y);
    let c = put_word(out, b, b"\" dy=\"");
    let d = put_offset(out, c, k);
    let e = put_measured(out, d, b"em\" font-size=\"", size);
    put_word(out, e, b"\">")
}

// The sign of a row that is cut.
fn put_sign(out: &mut [u8], at: usize, cut: bool) -> usize
    requires { Room (cond cut sign []) out.old at }
    ensures { Wrote (cond cut sign []) out.old at result out.new }
{
    if cut {
        return put_word(out, at, b"\xE2\x80\xA6");
    }
    at
}

// A row.
pub fn put_row(
    out: &mut [u8],
    at: usize,
    x: i64,
    y: u64,
    size: u64,
    k: u32,
    front: &[u8],
    cut: bool,
) -> usize
    requires { (ints.size x ≤ 2 ^ 42) × (y ≤ 2 ^ 42) × Room (element_of x y size k (letters (row front.now cut))) out.old at }
    ensures { Wrote (element_of x y size k (letters (row front.now cut))) out.old at result out.new }
{
    let a = put_start(out, at, x, y, size, k);
    let b = put_escaped(out, a, front);
    let c = put_sign(out, b, cut);
    put_word(out, c, b"</text>")
}
