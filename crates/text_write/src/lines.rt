// The lines of a plan's text, written from a position of a lent buffer on. Each answers the position past what it wrote.
ghost use Rattle.std.specs.Prelude.{◌≡◌, true, ◌+◌, ◌<◌, ◌≤◌, length};
ghost use Rattle.plan.specs.Plan.{numbers, data_of};
ghost use Rattle.plan.specs.Acceptable.{limits_hold};
ghost use Rattle.text.specs.Writing.{plan_line, level_line_of, rating_words, segment_line_of, text_of};
ghost use Rattle.text_write.specs.inner.Written.{Room, Wrote, Fronts};
ghost use Rattle.text_write.specs.inner.Data.{vertices_of, numbers_of, row_words, words_of, rated_segment, line_of, level_vertices, LevelRoom, LineRoom};

use crate::number::{put_decimal, put_then, put_word};
use ints::total;

// "(plan K G S)"
fn put_plan(out: &mut [u8], at: usize, levels: u32, gap: u32, spacing: u32) -> usize
    requires { Room (plan_line (numbers_of levels gap spacing)) out.old at }
    ensures { Wrote (plan_line (numbers_of levels gap spacing)) out.old at result out.new }
{
    let k = put_word(out, at, b"(plan ");
    let g = put_then(out, k, u64::from(levels), b" ");
    let s = put_then(out, g, u64::from(gap), b" ");
    put_then(out, s, u64::from(spacing), b")\n")
}

// " (box 3)" or " (via)"
fn put_vertex(out: &mut [u8], at: usize, via: bool, half: u16) -> usize
    requires { Room (words_of via half) out.old at }
    ensures { Wrote (words_of via half) out.old at result out.new }
{
    if via {
        return put_word(out, at, b" (via)");
    }
    let h = put_word(out, at, b" (box ");
    put_then(out, h, u64::from(half), b")")
}

// " W"; a rating of 1 is "never written".
fn put_rating(out: &mut [u8], at: usize, rating: u32) -> usize
    requires { Room (rating_words rating) out.old at }
    ensures { Wrote (rating_words rating) out.old at result out.new }
{
    if rating == 1 {
        return at;
    }
    let w = put_word(out, at, b" ");
    put_decimal(out, w, u64::from(rating))
}

// "(seg A B)" or "(seg A B W)"
fn put_segment(out: &mut [u8], at: usize, upper: u32, lower: u32, rating: u32) -> usize
    requires { Room (segment_line_of (rated_segment upper lower rating)) out.old at }
    ensures { Wrote (segment_line_of (rated_segment upper lower rating)) out.old at result out.new }
{
    let a = put_word(out, at, b"(seg ");
    let b = put_then(out, a, u64::from(upper), b" ");
    let w = put_decimal(out, b, u64::from(lower));
    let end = put_rating(out, w, rating);
    put_word(out, end, b")\n")
}

// The vertices `first` and after, `count` of them.
fn put_vertices(
    out: &mut [u8],
    from: usize,
    vias: &[bool],
    halves: &[u16],
    first: usize,
    count: usize,
) -> usize
    requires { (first + count ≤ length vias.now) × (length halves.now ≡ length vias.now) × Room (row_words (vertices_of vias.now halves.now) (numbers first count)) out.old from }
    ensures { Wrote (row_words (vertices_of vias.now halves.now) (numbers first count)) out.old from result out.new }
{
    let mut at = from;
    for v in first..first + count {
        at = put_vertex(out, at, vias[v], halves[v]);
    }
    at
}

// "(level (box 3) (via))", of the vertices `first` and after, `count` of them.
fn put_row(
    out: &mut [u8],
    at: usize,
    vias: &[bool],
    halves: &[u16],
    first: usize,
    count: usize,
) -> usize
    requires { (first + count ≤ length vias.now) × (length halves.now ≡ length vias.now) × Room (level_line_of (vertices_of vias.now halves.now) (numbers first count)) out.old at }
    ensures { Wrote (level_line_of (vertices_of vias.now halves.now) (numbers first count)) out.old at result out.new }
{
    let row = put_word(out, at, b"(level");
    let after = put_vertices(out, row, vias, halves, first, count);
    put_word(out, after, b")\n")
}

// The line of level l, the first of which is 0 here.
fn put_level(
    out: &mut [u8],
    at: usize,
    sizes: &[u16],
    vias: &[bool],
    halves: &[u16],
    l: usize,
) -> usize
    requires { LevelRoom sizes.now vias.now halves.now l out.old at }
    ensures { Wrote (level_line_of (vertices_of vias.now halves.now) (level_vertices sizes.now l)) out.old at result out.new }
{
    let first = total(&sizes[..l]);
    put_row(out, at, vias, halves, first, usize::from(sizes[l]))
}

// Line n of the text of a plan within its limits.
fn put_line(
    out: &mut [u8],
    at: usize,
    levels: u32,
    gap: u32,
    spacing: u32,
    sizes: &[u16],
    vias: &[bool],
    halves: &[u16],
    uppers: &[u32],
    lowers: &[u32],
    ratings: &[u32],
    n: usize,
) -> usize
    requires { LineRoom (data_of levels gap spacing sizes.now vias.now halves.now uppers.now lowers.now ratings.now) n out.old at }
    ensures { Wrote (line_of (data_of levels gap spacing sizes.now vias.now halves.now uppers.now
        lowers.now ratings.now) n) out.old at result out.new }
{
    if n == 0 {
        return put_plan(out, at, levels, gap, spacing);
    }
    if n <= sizes.len() {
        return put_level(out, at, sizes, vias, halves, n - 1);
    }
    let i = n - 1 - sizes.len();
    if i < uppers.len() {
        return put_segment(out, at, uppers[i], lowers[i], ratings[i]);
    }
    put_word(out, at, b"(end)\n")
}

// Line n of the text of a plan within its limits, at the front of a buffer that has room for it: how many bytes the line has.
pub fn line(
    levels: u32,
    gap: u32,
    spacing: u32,
    sizes: &[u16],
    vias: &[bool],
    halves: &[u16],
    uppers: &[u32],
    lowers: &[u32],
    ratings: &[u32],
    n: usize,
    out: &mut [u8],
) -> usize
    requires { LineRoom (data_of levels gap spacing sizes.now vias.now halves.now uppers.now lowers.now ratings.now) n out.old 0 }
    ensures { Fronts (line_of (data_of levels gap spacing sizes.now vias.now halves.now
        uppers.now lowers.now ratings.now) n) out.old result out.new }
{
    put_line(
        out, 0, levels, gap, spacing, sizes, vias, halves, uppers, lowers, ratings, n,
    )
}

// The whole text of a plan within its limits, at the front of a buffer that has room for it: how many bytes it has.
pub fn text(
    levels: u32,
    gap: u32,
    spacing: u32,
    sizes: &[u16],
    vias: &[bool],
    halves: &[u16],
    uppers: &[u32],
    lowers: &[u32],
    ratings: &[u32],
    out: &mut [u8],
) -> usize
    requires { (limits_hold (data_of levels gap spacing sizes.now vias.now halves.now uppers.now lowers.now ratings.now) ≡ true)
        × (length (text_of (data_of levels gap spacing sizes.now vias.now halves.now uppers.now lowers.now ratings.now)) ≤ length out.old) }
    ensures { Fronts (text_of (data_of levels gap spacing sizes.now vias.now halves.now
        uppers.now lowers.now ratings.now)) out.old result out.new }
{
    let lines = sizes.len() + uppers.len() + 2;
    let mut at: usize = 0;
    for n in 0..lines {
        at = put_line(
            out, at, levels, gap, spacing, sizes, vias, halves, uppers, lowers, ratings, n,
        );
    }
    at
}
