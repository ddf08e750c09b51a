// The elements of a drawing that lies in slices, one after another, written from a position of a lent buffer on. Each answers the position
// past what it wrote.
ghost use Rattle.std.specs.Prelude.{◌<◌, length};
ghost use Rattle.text_write.specs.inner.Written.{Room, Wrote};
ghost use Rattle.picture_elements.specs.inner.Near.{Pen};
ghost use Rattle.picture_names.specs.inner.Indexed.{name_at};
ghost use Rattle.picture_marks.specs.inner.Listed.{Stands, line_between, lines_in, LinesAsked, vertex_bend, bends_in, BendsAsked, vertex_box, boxes_in, BoxesAsked};

use picture_elements::elements::{put_bend, put_box, put_line};

// The line with this rating from vertex a down to vertex b.
fn put_segment(
    out: &mut [u8],
    at: usize,
    measure: u32,
    rating: u32,
    heights: &[u64],
    finals: &[i64],
    a: usize,
    b: usize,
) -> usize
    requires { Pen measure rating × Stands heights.now finals.now × (a < length finals.now) × (b < length finals.now)
        × Room (line_between measure rating heights.now finals.now a b) out.old at }
    ensures { Wrote (line_between measure rating heights.now finals.now a b) out.old at result out.new }
{
    put_line(
        out, at, measure, rating, finals[a], heights[a], finals[b], heights[b],
    )
}

// A line for each segment.
pub fn put_lines(
    out: &mut [u8],
    at: usize,
    measure: u32,
    heights: &[u64],
    uppers: &[u32],
    lowers: &[u32],
    ratings: &[u32],
    finals: &[i64],
) -> usize
    requires { LinesAsked measure heights.now uppers.now lowers.now ratings.now finals.now
        × Room (lines_in measure heights.now uppers.now lowers.now ratings.now finals.now) out.old at }
    ensures { Wrote (lines_in measure heights.now uppers.now lowers.now ratings.now finals.now)
        out.old at result out.new }
{
    let mut next = at;
    for (k, upper) in uppers.iter().enumerate() {
        next = put_segment(
            out,
            next,
            measure,
            ratings[k],
            heights,
            finals,
            *upper as usize,
            lowers[k] as usize,
        );
    }
    next
}

// The bend of vertex v, if it is a via.
fn put_via(
    out: &mut [u8],
    at: usize,
    measure: u32,
    heights: &[u64],
    vias: &[bool],
    finals: &[i64],
    v: usize,
) -> usize
    requires { BendsAsked measure heights.now vias.now finals.now × (v < length vias.now) × Room (vertex_bend measure heights.now vias.now finals.now v) out.old at }
    ensures { Wrote (vertex_bend measure heights.now vias.now finals.now v) out.old at result out.new }
{
    if !vias[v] {
        return at;
    }
    put_bend(out, at, measure, v, finals[v], heights[v])
}

// A bend for each via.
pub fn put_bends(
    out: &mut [u8],
    at: usize,
    measure: u32,
    heights: &[u64],
    vias: &[bool],
    finals: &[i64],
) -> usize
    requires { BendsAsked measure heights.now vias.now finals.now × Room (bends_in measure heights.now vias.now finals.now) out.old at }
    ensures { Wrote (bends_in measure heights.now vias.now finals.now) out.old at result out.new }
{
    let mut next = at;
    for v in 0..vias.len() {
        next = put_via(out, next, measure, heights, vias, finals, v);
    }
    next
}

// The box of vertex v with its name, if it is no via.
fn put_boxed(
    out: &mut [u8],
    at: usize,
    measure: u32,
    heights: &[u64],
    vias: &[bool],
    halves: &[u16],
    finals: &[i64],
    names: &[u8],
    starts: &[u32],
    ends: &[u32],
    v: usize,
) -> usize
    requires { BoxesAsked measure heights.now vias.now halves.now finals.now names.now starts.now ends.now × (v < length vias.now)
        × Room (vertex_box measure heights.now vias.now halves.now finals.now (name_at names.now starts.now ends.now) v) out.old at }
    ensures { Wrote (vertex_box measure heights.now vias.now halves.now finals.now
        (name_at names.now starts.now ends.now) v) out.old at result out.new }
{
    if vias[v] {
        return at;
    }
    let from = starts[v] as usize;
    let to = ends[v] as usize;
    put_box(
        out,
        at,
        measure,
        &names[from..to],
        v as u32,
        finals[v],
        heights[v],
        halves[v],
    )
}

// A box for each vertex that is no via.
pub fn put_boxes(
    out: &mut [u8],
    at: usize,
    measure: u32,
    heights: &[u64],
    vias: &[bool],
    halves: &[u16],
    finals: &[i64],
    names: &[u8],
    starts: &[u32],
    ends: &[u32],
) -> usize
    requires { BoxesAsked measure heights.now vias.now halves.now finals.now names.now starts.now ends.now
        × Room (boxes_in measure heights.now vias.now halves.now finals.now (name_at names.now starts.now ends.now)) out.old at }
    ensures { Wrote (boxes_in measure heights.now vias.now halves.now finals.now
        (name_at names.now starts.now ends.now)) out.old at result out.new }
{
    let mut next = at;
    for v in 0..vias.len() {
        next = put_boxed(
            out, next, measure, heights, vias, halves, finals, names, starts, ends, v,
        );
    }
    next
}
