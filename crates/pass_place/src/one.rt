// Placing one run: its bounds, distances and neighbours are read off what the passes hold, its outcome is written back.
ghost use Rattle.std.specs.Prelude.{◌≡◌, true, ◌&&◌, ◌-◌, ◌≤◌, ltb, length};
ghost use Rattle.run.specs.Call.{Request, is_taken, placed_of, max_neighbours};
ghost use Rattle.pass_tables.specs.inner.Moments.{Some, Leaves, Placing, Placed};
ghost use Rattle.pass_place.specs.inner.Asked.{low_of, high_of, left_of, right_of, asked, rows_long, taken_on, Rowed, Standing};

use crate::outcome::{put_back, take_on};
use crate::request::{neighbour_counts, neighbour_positions};
use place_run::place::{MAX_BOXES, MAX_NEIGHBOURS, place};

// The most neighbours in all of what is placed with the least working space, and with the lesser.
const FEW: usize = 16;

const SOME: usize = 256;

// The most boxes of what is placed with the lesser space for where they go.
const FEW_BOXES: usize = 8;

// The first member: the via left of the boxes, if one stands there.
fn low_end(start: usize, from: usize) -> usize
    ensures { result ≡ low_of start from }
{
    if start < from { from - 1 } else { from }
}

// One past the last member.
fn high_end(end: usize, to: usize) -> usize
    ensures { result ≡ high_of end to }
{
    if end < to { end + 1 } else { end }
}

// One past the last member that has a distance to the next.
fn last_end(low: usize, high: usize) -> usize
    requires { low ≤ high }
    ensures { (low ≤ result) × (result ≤ high) × (result - low ≡ high - low - 1) }
{
    if low < high { high - 1 } else { low }
}

fn left_bound(start: usize, from: usize, at: &[i64]) -> Option<i64>
    requires { from ≤ length at.now }
    ensures { result ≡ left_of start from at.now }
{
    if start < from {
        Some(at[from - 1])
    } else {
        None
    }
}

fn right_bound(end: usize, to: usize, at: &[i64]) -> Option<i64>
    requires { to ≤ length at.now }
    ensures { result ≡ right_of end to at.now }
{
    if end < to { Some(at[end]) } else { None }
}

// Where the boxes from `from` up to `end` go, with these bounds and distances, and working space for their neighbours.
fn place_near(
    left: Option<i64>,
    right: Option<i64>,
    distances: &[u64],
    from: usize,
    end: usize,
    first: &[u16],
    ends: &[u32],
    sums: &[u64],
    at: &[i64],
    near: &mut [i64],
    answer: &mut [i64],
)
    requires rowed { Rowed from end first.now ends.now sums.now at.now }
    requires answer_value { let q = asked left right distances.now from end first.now ends.now sums.now at.now in
        is_taken q answer.old ≡ true }
    requires first_in_bounds { rows_long from end first.now ≤ length near.old }
    ensures { let q = asked left right distances.now from end first.now ends.now sums.now at.now in
        answer.new ≡ placed_of q }
{
    let n = end - from;
    let row = usize::from(first[from]);
    let s = usize::from(first[end]) - row;
    let mut counts = [0u64; MAX_BOXES];
    neighbour_counts(first, from, n, &mut counts);
    neighbour_positions(ends, at, row, s, near);
    place(
        left,
        right,
        &at[from..end],
        distances,
        &counts[..n],
        &near[..s],
        &sums[row..row + s + 1],
        answer,
    );
}

// The same with working space for N neighbours.
fn place_in<const N: usize>(
    left: Option<i64>,
    right: Option<i64>,
    distances: &[u64],
    from: usize,
    end: usize,
    first: &[u16],
    ends: &[u32],
    sums: &[u64],
    at: &[i64],
    answer: &mut [i64],
)
    requires rowed { Rowed from end first.now ends.now sums.now at.now }
    requires answer_value { let q = asked left right distances.now from end first.now ends.now sums.now at.now in
        is_taken q answer.old ≡ true }
    requires few { (rows_long from end first.now ≤ N) × (N ≤ max_neighbours) }
    ensures { let q = asked left right distances.now from end first.now ends.now sums.now at.now in
        answer.new ≡ placed_of q }
{
    let mut near = [0i64; N];
    place_near(
        left, right, distances, from, end, first, ends, sums, at, &mut near, answer,
    );
}

// The same with as much working space as they ask for, little since most runs have few neighbours, and none where there are no boxes.
fn place_boxes(
    left: Option<i64>,
    right: Option<i64>,
    distances: &[u64],
    from: usize,
    end: usize,
    first: &[u16],
    ends: &[u32],
    sums: &[u64],
    at: &[i64],
    answer: &mut [i64],
)
    requires rowed { Rowed from end first.now ends.now sums.now at.now }
    requires answer_value { let q = asked left right distances.now from end first.now ends.now sums.now at.now in
        is_taken q answer.old ≡ true }
    ensures { let q = asked left right distances.now from end first.now ends.now sums.now at.now in
        answer.new ≡ placed_of q }
{
    if from == end {
        return;
    }
    let n = usize::from(first[end]) - usize::from(first[from]);
    if n <= FEW {
        place_in::<FEW>(
            left, right, distances, from, end, first, ends, sums, at, answer,
        );
    } else if n <= SOME {
        place_in::<SOME>(
            left, right, distances, from, end, first, ends, sums, at, answer,
        );
    } else {
        place_in::<MAX_NEIGHBOURS>(
            left, right, distances, from, end, first, ends, sums, at, answer,
        );
    }
}

// Whether a via stands on both sides.
fn is_bounded(start: usize, from: usize, end: usize, to: usize) -> bool
    ensures { result ≡ (ltb start from && ltb end to) }
{
    start < from && end < to
}

// "its distances, and that to its bound, then become those it has": of an open run.
fn take_on_open(start: usize, from: usize, end: usize, to: usize, at: &[i64], apart: &mut [u64])
    requires standing { Standing (low_of start from) (high_of end to) at.now }
    requires apart_len { length apart.old ≡ length at.now }
    ensures { apart.new ≡ taken_on start from end to at.now apart.old }
{
    if is_bounded(start, from, end, to) {
        return;
    }
    take_on(at, low_end(start, from), high_end(end, to), apart);
}

// Places a run, with working space for where its boxes go.
fn place_with(
    start: usize,
    from: usize,
    end: usize,
    to: usize,
    first: &[u16],
    ends: &[u32],
    sums: &[u64],
    at: &mut [i64],
    apart: &mut [u64],
    answer: &mut [i64],
)
    requires some { Some (Placing start from end to first.now ends.now sums.now at.old apart.old) }
    requires answer_len { length answer.old ≡ end - from }
    ensures { Leaves (Placing start from end to first.now ends.now sums.now at.old apart.old)
        (Placed at.new apart.new) }
{
    let low = low_end(start, from);
    let last = last_end(low, high_end(end, to));
    let left = left_bound(start, from, at);
    let right = right_bound(end, to, at);
    place_boxes(
        left,
        right,
        &apart[low..last],
        from,
        end,
        first,
        ends,
        sums,
        at,
        answer,
    );
    put_back(answer, from, at);
    take_on_open(start, from, end, to, at, apart);
}

// Places the run on the level from `start` up to `to` whose boxes stand from `from` up to `end`: where its boxes stand, and, if
// it is open, its distances.
pub fn place_one(
    start: usize,
    from: usize,
    end: usize,
    to: usize,
    first: &[u16],
    ends: &[u32],
    sums: &[u64],
    at: &mut [i64],
    apart: &mut [u64],
)
    requires { Some (Placing start from end to first.now ends.now sums.now at.old apart.old) }
    ensures { Leaves (Placing start from end to first.now ends.now sums.now at.old apart.old)
        (Placed at.new apart.new) }
{
    let n = end - from;
    if n <= FEW_BOXES {
        let mut answer = [0i64; FEW_BOXES];
        place_with(
            start,
            from,
            end,
            to,
            first,
            ends,
            sums,
            at,
            apart,
            &mut answer[..n],
        );
        return;
    }
    let mut answer = [0i64; MAX_BOXES];
    place_with(
        start,
        from,
        end,
        to,
        first,
        ends,
        sums,
        at,
        apart,
        &mut answer[..n],
    );
}
