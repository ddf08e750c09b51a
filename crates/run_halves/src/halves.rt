// Placing a run by halves, in run coordinates: the bounds are the same limits for every box, and no distance is left. Old
// positions and neighbours are handed in as they are, with the offset of each box beside them, and ratings as sums so far, one more than
// there are neighbours.
ghost use Rattle.std.specs.Prelude.{◌≡◌, map, ◌<◌, ◌≤◌, ◌^◌, length};
ghost use Rattle.ints.specs.Ints.{size};
ghost use Rattle.run.specs.Run.{leads_of, half_down, start_of};
ghost use Rattle.run.specs.inner.Coordinates.{less};
ghost use Rattle.run.specs.inner.Limits.{clamp_low, clamp_high, clamp};
ghost use Rattle.ints.specs.Lists.{sum};
ghost use Rattle.ints.specs.Reach.{reach};
ghost use Rattle.run.specs.Call.{limit_of, boxes_from};
ghost use Rattle.run_halves.specs.inner.Halves.{Placed, Given, Fits, placed_between};
ghost use Rattle.run_columns.specs.inner.Offsets.{less_offsets, less_near, Near, max_offset};
ghost use Rattle.run_columns.specs.inner.Sums.{ratings_between, SumsOf};

use crate::meet::join;
use crate::middle::find_middles;
use ints::minus;
use run_columns::offsets::{fill_offsets, plus_offsets};

// Half of z, rounded toward minus infinity.
fn half_down(z: i64) -> i64
    ensures { result ≡ half_down z }
{
    z.div_euclid(2)
}

// Where a lone box starts: halfway between the two middle ones of its neighbours, or at its old position if it has none.
fn start(old: i64, near: &[i64], sums: &[u64]) -> i64
    requires { Near near.now × SumsOf sums.now near.now }
    ensures { result ≡ start_of old (leads_of near.now (ratings_between sums.now)) }
{
    if near.is_empty() {
        return old;
    }
    let middles = find_middles(sums);
    let low = near[middles.lower];
    let high = near[middles.upper];
    half_down(low + high)
}

fn raised(left: Option<i64>, x: i64) -> i64
    ensures { result ≡ clamp_low (limit_of left) x }
{
    left.map_or(x, |l| x.max(l))
}

fn lowered(right: Option<i64>, x: i64) -> i64
    ensures { result ≡ clamp_high (limit_of right) x }
{
    right.map_or(x, |h| x.min(h))
}

// One box: from its start raised to the left limit, then lowered to the right one.
fn place_one(
    left: Option<i64>,
    right: Option<i64>,
    old: i64,
    offset: u64,
    near: &[i64],
    sums: &[u64],
) -> i64
    requires { (size old ≤ reach) × (offset ≤ max_offset) × Near near.now × SumsOf sums.now near.now }
    ensures { result ≡ clamp (limit_of left) (limit_of right) (start_of (less offset old) (leads_of (map (less offset) near.now)
        (ratings_between sums.now))) }
{
    lowered(right, raised(left, minus(start(old, near, sums), offset)))
}

pub fn total(counts: &[u64]) -> usize
    requires { sum counts.now < 2 ^ 64 }
    ensures { result ≡ sum counts.now }
{
    counts.iter().map(|count| *count as usize).sum()
}

// "The run is cut after its first ⌊r/2⌋ boxes. Each half is placed so", then the halves are joined.
fn place_halves(
    left: Option<i64>,
    right: Option<i64>,
    old: &[i64],
    offsets: &[u64],
    counts: &[u64],
    near: &[i64],
    sums: &[u64],
    z: &mut [i64],
)
    requires { Given (limit_of left) (limit_of right) old.now offsets.now counts.now near.now sums.now z.old }
    ensures { Placed (limit_of left) (limit_of right) (less_offsets offsets.now old.now) counts.now
        (less_near offsets.now counts.now near.now) (ratings_between sums.now) z.new }
{
    let r = old.len();
    if r == 0 {
        return;
    }
    if r == 1 {
        z[0] = place_one(left, right, old[0], offsets[0], near, sums);
        return;
    }
    let k = r / 2;
    let n = total(&counts[..k]);
    place_halves(
        left,
        right,
        &old[..k],
        &offsets[..k],
        &counts[..k],
        &near[..n],
        &sums[..n + 1],
        &mut z[..k],
    );
    place_halves(
        left,
        right,
        &old[k..],
        &offsets[k..],
        &counts[k..],
        &near[n..],
        &sums[n..],
        &mut z[k..],
    );
    join(k, n, offsets, counts, near, sums, z);
}

// Places boxes between two limits, with working space for their offsets.
pub fn place_between(
    left: Option<i64>,
    right: Option<i64>,
    steps: &[u64],
    old: &[i64],
    counts: &[u64],
    neighbours: &[i64],
    sums: &[u64],
    offsets: &mut [u64],
    answer: &mut [i64],
)
    requires fits { Fits (limit_of left) (limit_of right) steps.now old.now counts.now neighbours.now sums.now answer.old }
    requires offsets_len { length offsets.old ≡ length old.now }
    ensures { answer.new ≡ placed_between (limit_of left) (limit_of right) (boxes_from old.now steps.now counts.now
        neighbours.now (ratings_between sums.now)) }
{
    fill_offsets(steps, offsets);
    place_halves(left, right, old, offsets, counts, neighbours, sums, answer);
    plus_offsets(offsets, answer);
}
