// The ratings of the neighbours of the boxes of a half that are at or left of a place, and right of it. All positions are in run
// coordinates but those of the neighbours, which are their box's offset further right. Ratings are handed in as sums so far, one more
// than there are neighbours.
ghost use Rattle.std.specs.Prelude.{◌≡◌, true, map, ◌+◌, ◌-◌, ◌≤◌, ◌<◌, ◌^◌, length, get_or, pos};
ghost use Rattle.ints.specs.Ints.{size};
ghost use Rattle.run.specs.Run.{leads_of, nondecreasing};
ghost use Rattle.run.specs.inner.Coordinates.{less};
ghost use Rattle.run_columns.specs.inner.Columns.{Columns, Small, max_size};
ghost use Rattle.run_columns.specs.inner.Counts.{counted, BackTo, FarTo, BoxCounts, HalfCounts};
ghost use Rattle.run_columns.specs.inner.Offsets.{less_near, OffsetsOf, Near, max_offset};
ghost use Rattle.run_columns.specs.inner.Sums.{ratings_between, SumsOf};

use crate::count::count_up_to;
use ints::plus;

// The ratings of the neighbours at or left of a place, and of those right of it. They are the same at the places that are at most
// `back` to its left or less than `far` to its right.
#[derive(Clone, Copy)]
pub struct Counted {
    pub upto: u64,
    pub beyond: u64,
    pub back: u64,
    pub far: u64,
}

// How far to go back from m: not past p, if p is at m or left of it.
fn back_to(p: i64, m: i64, back: u64) -> u64
    requires { size p + size m < 2 ^ 63 }
    ensures { (result ≤ back) × BackTo p m result }
{
    if m < p { back } else { back.min(m.abs_diff(p)) }
}

// How far to go on from m: not past p, if p is right of it.
fn far_to(p: i64, m: i64, far: u64) -> u64
    requires { (size p + size m < 2 ^ 63) × (0 < far) }
    ensures { (result ≤ far) × (0 < result) × FarTo p m result }
{
    if m < p { far.min(p.abs_diff(m)) } else { far }
}

// Back to the last of the first n neighbours, and on to the one after them.
fn back_to_near(near: &[i64], n: usize, m: i64, back: u64) -> u64
    requires { Near near.now × (n ≤ length near.now) × (size m ≤ 2 ^ 51) }
    ensures { (result ≤ back) × (0 < n → BackTo (get_or near.now (n - 1) (pos 0)) m result) }
{
    if n == 0 {
        back
    } else {
        back_to(near[n - 1], m, back)
    }
}

fn far_to_near(near: &[i64], n: usize, m: i64, far: u64) -> u64
    requires { Near near.now × (size m ≤ 2 ^ 51) × (0 < far) }
    ensures { (result ≤ far) × (0 < result) × (n < length near.now → FarTo (get_or near.now n (pos 0)) m result) }
{
    if n < near.len() {
        far_to(near[n], m, far)
    } else {
        far
    }
}

fn is_counted(left: bool, z: i64, m: i64) -> bool
    ensures { result ≡ counted left z m }
{
    if left { m < z } else { z <= m }
}

// The ratings of the neighbours from `from` up to `to`.
fn rated(sums: &[u64], from: usize, to: usize) -> u64
    requires { (from < length sums.now) × (to < length sums.now) × (get_or sums.now from 0 ≤ get_or sums.now to 0) }
    ensures { result ≡ get_or sums.now to 0 - get_or sums.now from 0 }
{
    sums[to] - sums[from]
}

// The ratings of one box at m.
fn count_box(
    left: bool,
    z: i64,
    offset: u64,
    near: &[i64],
    sums: &[u64],
    m: i64,
    back: u64,
    far: u64,
) -> Counted
    requires { (nondecreasing near.now ≡ true) × Near near.now × (offset ≤ max_offset) × (size z ≤ max_size) × (size m ≤ max_size) × (0 < far) × SumsOf sums.now near.now }
    ensures { BoxCounts left z (leads_of (map (less offset) near.now) (ratings_between sums.now)) m back far result.upto result.beyond result.back result.far }
{
    let b = back_to(z, m, back);
    let f = far_to(z, m, far);
    if !is_counted(left, z, m) {
        return Counted {
            upto: 0,
            beyond: 0,
            back: b,
            far: f,
        };
    }
    let at = plus(m, offset);
    let n = count_up_to(near, at);
    Counted {
        upto: rated(sums, 0, n),
        beyond: rated(sums, n, near.len()),
        back: back_to_near(near, n, at, b),
        far: far_to_near(near, n, at, f),
    }
}

// The ratings of one half at m.
pub fn count_half(
    left: bool,
    z: &[i64],
    offsets: &[u64],
    counts: &[u64],
    near: &[i64],
    sums: &[u64],
    m: i64,
    back: u64,
    far: u64,
) -> Counted
    requires { Columns z.now counts.now near.now × OffsetsOf offsets.now z.now × Small z.now × Near near.now × (size m ≤ max_size) × (0 < far) × SumsOf sums.now near.now }
    ensures { HalfCounts left z.now counts.now (less_near offsets.now counts.now
        near.now) (ratings_between sums.now) m back far result.upto result.beyond result.back result.far }
{
    let mut upto: u64 = 0;
    let mut beyond: u64 = 0;
    let mut b = back;
    let mut f = far;
    let mut at: usize = 0;
    for (i, x) in z.iter().enumerate() {
        let to = at + counts[i] as usize;
        let box_counts = count_box(
            left,
            *x,
            offsets[i],
            &near[at..to],
            &sums[at..to + 1],
            m,
            b,
            f,
        );
        upto += box_counts.upto;
        beyond += box_counts.beyond;
        b = box_counts.back;
        f = box_counts.far;
        at = to;
    }
    Counted {
        upto,
        beyond,
        back: b,
        far: f,
    }
}
