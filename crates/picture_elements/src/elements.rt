// Elements of a picture, written from a position of a lent buffer on. Each answers the position past what it wrote.
ghost use Rattle.std.specs.Prelude.{◌≤◌};
ghost use Rattle.marks.specs.Marks.{box, bend, line};
ghost use Rattle.text_write.specs.inner.Written.{Room, Wrote};
ghost use Rattle.picture_elements.specs.Elements.{pen_of, line_of, bend_of, rect_of, box_of};
ghost use Rattle.picture_elements.specs.inner.Near.{Near, Pen, NearVertex, NearBox};

use ints::minus;
use picture_labels::label::{put_label, put_title};
use picture_numbers::attributes::{put_across, put_down, put_measured};
use picture_numbers::thousandths::put_thousandths;
use text_write::number::{put_decimal, put_then, put_word};

// The pen of a line with this rating.
fn put_pen(out: &mut [u8], at: usize, measure: u32, rating: u32) -> usize
    requires { Pen measure rating × Room (pen_of measure rating) out.old at }
    ensures { Wrote (pen_of measure rating) out.old at result out.new }
{
    if rating == 1 {
        return at;
    }
    let pen = (19 + rating as u64) * measure as u64;
    put_measured(out, at, b"\" stroke-width=\"", pen)
}

// The line with this rating from the upper end, at x and y, to the lower, at a and b.
pub fn put_line(
    out: &mut [u8],
    at: usize,
    measure: u32,
    rating: u32,
    x: i64,
    y: u64,
    a: i64,
    b: u64,
) -> usize
    requires { Pen measure rating × Near x y × Near a b × Room (line_of measure rating (line x y a b)) out.old at }
    ensures { Wrote (line_of measure rating (line x y a b)) out.old at result out.new }
{
    let y1 = put_across(out, at, b"<line x1=\"", x);
    let x2 = put_down(out, y1, b"\" y1=\"", y);
    let y2 = put_across(out, x2, b"\" x2=\"", a);
    let pen = put_down(out, y2, b"\" y2=\"", b);
    let end = put_pen(out, pen, measure, rating);
    put_word(out, end, b"\"/>\n")
}

// The bend of vertex n.
pub fn put_bend(out: &mut [u8], at: usize, measure: u32, n: usize, x: i64, y: u64) -> usize
    requires { NearVertex measure n x y × Room (bend_of measure n (bend x y)) out.old at }
    ensures { Wrote (bend_of measure n (bend x y)) out.old at result out.new }
{
    let id = put_word(out, at, b"<circle id=\"v");
    let cx = put_decimal(out, id, n as u64);
    let cy = put_across(out, cx, b"\" cx=\"", x);
    let r = put_down(out, cy, b"\" cy=\"", y);
    let end = put_measured(out, r, b"\" r=\"", 35 * measure as u64);
    put_word(out, end, b"\"/>\n")
}

// The rectangle of a box.
pub fn put_rect(out: &mut [u8], at: usize, measure: u32, x: i64, y: u64, half: u16) -> usize
    requires { Near x y × (measure ≤ 10000) × (half ≤ 200) × Room (rect_of measure x y half) out.old at }
    ensures { Wrote (rect_of measure x y half) out.old at result out.new }
{
    let u = measure as u64;
    let w = half as u64;
    let left = minus(x, 2 * w);
    let top = minus((1000 * y) as i64, 200 * u);
    let a = put_across(out, at, b"<rect x=\"", left);
    let b = put_word(out, a, b"\" y=\"");
    let c = put_thousandths(out, b, top);
    let d = put_down(out, c, b"\" width=\"", 2 * w);
    let e = put_measured(out, d, b"\" height=\"", 400 * u);
    put_word(out, e, b"\"/>")
}

// The box of vertex n, with its title and its label.
pub fn put_box(
    out: &mut [u8],
    at: usize,
    measure: u32,
    name: &[u8],
    n: u32,
    x: i64,
    y: u64,
    half: u16,
) -> usize
    requires { NearBox measure n x y half × Room (box_of measure name.now n (box x y half)) out.old at }
    ensures { Wrote (box_of measure name.now n (box x y half)) out.old at result out.new }
{
    let a = put_word(out, at, b"<g id=\"v");
    let b = put_then(out, a, n as u64, b"\"><title>");
    let c = put_title(out, b, n, name);
    let d = put_word(out, c, b"</title>");
    let e = put_rect(out, d, measure, x, y, half);
    let f = put_label(out, e, x, y, half, measure, n, name);
    put_word(out, f, b"</g>\n")
}
