// The lines of a report by their forms, written from a position of a lent buffer on. Each answers the position past what it wrote.
ghost use Rattle.std.specs.Prelude.{◌≡◌, true, [], ◌∷◌, ◌++◌, ◌+◌, ◌<◌, ◌≤◌, length};
ghost use Rattle.ints.specs.Ints.{size};
ghost use Rattle.text.specs.Decimal.{signed};
ghost use Rattle.text_write.specs.inner.Written.{Room, Wrote};
ghost use Rattle.passes.specs.Drawing.{boxes_with};
ghost use Rattle.ints.specs.Reach.{reach, all_within};
ghost use Rattle.report.specs.Lines.{drawing_line, at_line, box_words, place_line};
ghost use Rattle.report_lines.specs.inner.Forms.{box_at, placing, place_head};

use text_write::number::{put_decimal, put_signed, put_then, put_word};

// A position, and a word after it.
fn put_position(out: &mut [u8], at: usize, z: i64, word: &[u8]) -> usize
    requires { (size z ≤ reach) × Room (signed z ++ word.now) out.old at }
    ensures { Wrote (signed z ++ word.now) out.old at result out.new }
{
    let next = put_signed(out, at, z);
    put_word(out, next, word)
}

// "(drawing V P)"
pub fn put_drawing(out: &mut [u8], at: usize, vertices: usize, placings: usize) -> usize
    requires { Room (drawing_line vertices placings) out.old at }
    ensures { Wrote (drawing_line vertices placings) out.old at result out.new }
{
    let v = put_word(out, at, b"(drawing ");
    let p = put_then(out, v, vertices as u64, b" ");
    put_then(out, p, placings as u64, b")\n")
}

// "(at n p x y)"
pub fn put_at(out: &mut [u8], at: usize, n: u64, p: i64, x: i64, y: u64) -> usize
    requires { (size p ≤ reach) × (size x ≤ reach) × Room (at_line n p x y) out.old at }
    ensures { Wrote (at_line n p x y) out.old at result out.new }
{
    let number = put_word(out, at, b"(at ");
    let before = put_then(out, number, n, b" ");
    let after = put_position(out, before, p, b" ");
    let height = put_position(out, after, x, b" ");
    put_then(out, height, y, b")\n")
}

// " (n x)"
fn put_box(out: &mut [u8], at: usize, vertex: u16, position: i64) -> usize
    requires { (size position ≤ reach) × Room (box_words (box_at vertex position ∷ [])) out.old at }
    ensures { Wrote (box_words (box_at vertex position ∷ [])) out.old at result out.new }
{
    let n = put_word(out, at, b" (");
    let x = put_then(out, n, vertex as u64, b" ");
    put_position(out, x, position, b")")
}

// Boxes, each with its position.
fn put_boxes(out: &mut [u8], from: usize, vertices: &[u16], positions: &[i64]) -> usize
    requires { (length positions.now ≡ length vertices.now) × (all_within positions.now ≡ true) × Room (box_words (boxes_with vertices.now positions.now)) out.old from }
    ensures { Wrote (box_words (boxes_with vertices.now positions.now)) out.old from result out.new }
{
    let mut at = from;
    for (i, vertex) in vertices.iter().enumerate() {
        at = put_box(out, at, *vertex, positions[i]);
    }
    at
}

// "(place q l"
fn put_head(out: &mut [u8], at: usize, pass: u16, level: u16) -> usize
    requires { Room (place_head pass level) out.old at }
    ensures { Wrote (place_head pass level) out.old at result out.new }
{
    let q = put_word(out, at, b"(place ");
    let l = put_then(out, q, pass as u64, b" ");
    put_decimal(out, l, level as u64)
}

// "(place q l (n x) ..)"
pub fn put_placing(
    out: &mut [u8],
    at: usize,
    pass: u16,
    level: u16,
    vertices: &[u16],
    positions: &[i64],
) -> usize
    requires { (length positions.now ≡ length vertices.now) × (all_within positions.now ≡ true) × Room (place_line (placing pass level vertices.now positions.now)) out.old at }
    ensures { Wrote (place_line (placing pass level vertices.now positions.now)) out.old at result out.new }
{
    let head = put_head(out, at, pass, level);
    let boxes = put_boxes(out, head, vertices, positions);
    put_word(out, boxes, b")\n")
}
