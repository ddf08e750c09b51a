// A plan text's form, line by line. What is read goes into lent arrays where it has a place; counts go on, so that the limits
// are asked once the whole text was read.
ghost use Rattle.std.specs.Prelude.{◌≡◌, true, ◌+◌, ◌≤◌, ◌<◌, length, set};
ghost use Rattle.text.specs.Reading.{max_bytes};
ghost use Rattle.text_read.specs.inner.Filled.{FindsRow, FindsLevel, FindsRows, FindsSegments, in_limits, LongEnough, Scans};

use plan::data::Plan;
use plan::limits::row_fits;
use text_scan::limits::{half_fits, half_of, header_fits, rating_in_limit, rating_of};
use text_scan::scanners::{FoundHeader, ends, header_at, segment_at, vertex_at, word_at};

// A level line's vertices: how many, whether their half-widths are within the limit, and the position past them.
#[derive(Clone, Copy)]
pub struct Row {
    pub form: bool,
    pub count: usize,
    pub fit: bool,
    pub next: usize,
}

// The level lines: whether all that begin are in the form, how many they are, how many vertices they have, whether each is
// within its limits, and the position past the last that is in the form.
#[derive(Clone, Copy)]
pub struct Rows {
    pub form: bool,
    pub levels: usize,
    pub vertices: usize,
    pub fit: bool,
    pub next: usize,
}

// The segment lines: how many, whether the ratings written are within the limit, and the position past them.
#[derive(Clone, Copy)]
pub struct Segments {
    pub count: usize,
    pub fit: bool,
    pub next: usize,
}

// A whole text: whether it is in the form, whether it is within the limits, and its numbers and counts.
#[derive(Clone, Copy)]
pub struct Scanned {
    pub form: bool,
    pub limits: bool,
    pub levels: u32,
    pub gap: u32,
    pub spacing: u32,
    pub vertices: usize,
    pub segments: usize,
}

// A store at a place, where the array has it.
fn put<T: Copy>(xs: &mut [T], i: usize, x: T)
    ensures { xs.new ≡ set xs.old i x }
{
    if i < xs.len() {
        xs[i] = x;
    }
}

// The vertices of a level line from a position on, stored from place `first` on.
fn vertices(text: &[u8], from: usize, first: usize, vias: &mut [bool], halves: &mut [u16]) -> Row
    requires { (from ≤ length text.now) × (first ≤ length text.now) }
    ensures { FindsRow text.now from first result vias.old halves.old vias.new halves.new }
{
    let mut at = from;
    let mut count: usize = 0;
    let mut fit = true;
    loop {
        let v = vertex_at(text, at);
        if !v.found {
            return Row {
                form: true,
                count,
                fit,
                next: at,
            };
        }
        put(vias, first + count, v.via);
        put(halves, first + count, half_of(v));
        fit &= half_fits(v);
        count += 1;
        at = v.next;
    }
}

// What follows "(level" in a level line: its vertices, "at least one", and its end.
fn level_rest(text: &[u8], from: usize, first: usize, vias: &mut [bool], halves: &mut [u16]) -> Row
    requires { (from ≤ length text.now) × (first ≤ length text.now) }
    ensures { FindsLevel text.now from first result vias.old halves.old vias.new halves.new }
{
    let row = vertices(text, from, first, vias, halves);
    let fit = row_fits(row.count, row.fit);
    if row.count == 0 {
        return Row {
            form: false,
            count: row.count,
            fit,
            next: row.next,
        };
    }
    if !word_at(text, row.next, b")\n") {
        return Row {
            form: false,
            count: row.count,
            fit,
            next: row.next,
        };
    }
    Row {
        form: true,
        count: row.count,
        fit,
        next: row.next + 2,
    }
}

// The level lines from a position on.
fn level_lines(
    text: &[u8],
    from: usize,
    sizes: &mut [u16],
    vias: &mut [bool],
    halves: &mut [u16],
) -> Rows
    requires { (from ≤ length text.now) × (length text.now ≤ max_bytes) }
    ensures { FindsRows text.now from result sizes.old vias.old halves.old sizes.new vias.new halves.new }
{
    let mut at = from;
    let mut levels: usize = 0;
    let mut vertices: usize = 0;
    let mut fit = true;
    loop {
        if !word_at(text, at, b"(level") {
            return Rows {
                form: true,
                levels,
                vertices,
                fit,
                next: at,
            };
        }
        let row = level_rest(text, at + 6, vertices, vias, halves);
        if !row.form {
            return Rows {
                form: false,
                levels,
                vertices,
                fit,
                next: at,
            };
        }
        put(sizes, levels, row.count as u16);
        levels += 1;
        vertices += row.count;
        fit &= row.fit;
        at = row.next;
    }
}

// The segment lines from a position on.
fn segment_lines(
    text: &[u8],
    from: usize,
    uppers: &mut [u32],
    lowers: &mut [u32],
    ratings: &mut [u32],
) -> Segments
    requires { from ≤ length text.now }
    ensures { FindsSegments text.now from result uppers.old lowers.old ratings.old
        uppers.new lowers.new ratings.new }
{
    let mut at = from;
    let mut count: usize = 0;
    let mut fit = true;
    loop {
        let s = segment_at(text, at);
        if !s.found {
            return Segments {
                count,
                fit,
                next: at,
            };
        }
        put(uppers, count, s.upper);
        put(lowers, count, s.lower);
        put(ratings, count, rating_of(s));
        fit &= rating_in_limit(s);
        count += 1;
        at = s.next;
    }
}

// 2: each number and count within its limit, and K level lines.
fn in_limits(h: FoundHeader, r: Rows, s: Segments) -> bool
    ensures { result ≡ in_limits h r s }
{
    header_fits(h, r.levels)
        && r.fit
        && r.vertices <= Plan::MAX_VERTICES
        && s.count <= Plan::MAX_SEGMENTS
        && s.fit
}

// Checks 1 and 2 of a text, 2 once the whole text was read. The arrays have room for what the limits allow; what passes both
// is in their first places, and the rest is as it was.
pub fn scan(
    text: &[u8],
    sizes: &mut [u16],
    vias: &mut [bool],
    halves: &mut [u16],
    uppers: &mut [u32],
    lowers: &mut [u32],
    ratings: &mut [u32],
) -> Scanned
    requires { LongEnough text.now sizes.old vias.old halves.old uppers.old lowers.old ratings.old }
    ensures { Scans text.now result sizes.old vias.old halves.old uppers.old
        lowers.old ratings.old sizes.new vias.new halves.new uppers.new
        lowers.new ratings.new }
{
    let none = Scanned {
        form: false,
        limits: false,
        levels: 0,
        gap: 0,
        spacing: 0,
        vertices: 0,
        segments: 0,
    };
    let h = header_at(text, 0);
    if !h.found {
        return none;
    }
    let r = level_lines(text, h.next, sizes, vias, halves);
    if !r.form {
        return none;
    }
    let s = segment_lines(text, r.next, uppers, lowers, ratings);
    if !ends(text, s.next) {
        return none;
    }
    Scanned {
        form: true,
        limits: in_limits(h, r, s),
        levels: h.levels,
        gap: h.gap,
        spacing: h.spacing,
        vertices: r.vertices,
        segments: s.count,
    }
}
