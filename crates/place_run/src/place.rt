// Placing one run between its bounds: the limits of its boxes in run coordinates, by halves, and back. Ratings are handed in as sums so
// far, one more than there are neighbours.
ghost use Rattle.std.specs.Prelude.{◌≡◌, true, ◌+◌, ◌≤◌, length, get_or};
ghost use Rattle.run.specs.inner.Coordinates.{left_limit, right_limit};
ghost use Rattle.ints.specs.Lists.{sum};
ghost use Rattle.run.specs.Call.{limit_of, left_distance, is_taken, placed_of};
ghost use Rattle.run_halves.specs.inner.Halves.{SmallLimit};
ghost use Rattle.run_columns.specs.inner.Offsets.{max_offset};
ghost use Rattle.run_columns.specs.inner.Sums.{ratings_between};
ghost use Rattle.place_run.specs.inner.Requests.{request_of};

use crate::refusal::members;
use ints::{minus, plus};
use run_columns::offsets::distance_at;
use run_halves::halves::{place_between, total};

// The largest run: "64 boxes", "2,048 neighbours in all".
pub const MAX_BOXES: usize = 64;

pub const MAX_NEIGHBOURS: usize = 2048;

// The left bound plus its distance to the first box: no box stands left of it.
fn left_limit(left: Option<i64>, distances: &[u64]) -> Option<i64>
    requires { SmallLimit (limit_of left) × (get_or distances.now 0 0 ≤ max_offset) }
    ensures { limit_of result ≡ left_limit (limit_of left) (left_distance left distances.now) }
{
    left.map(|l| plus(l, distance_at(distances, 0)))
}

// The right bound less all distances between the first box and it: no box stands right of it in run coordinates.
fn right_limit(right: Option<i64>, steps: &[u64]) -> Option<i64>
    requires { SmallLimit (limit_of right) × (sum steps.now ≤ max_offset) }
    ensures { limit_of result ≡ right_limit (limit_of right) (sum steps.now) }
{
    right.map(|h| minus(h, total(steps) as u64))
}

// Places the boxes of one run between its bounds.
pub fn place(
    left: Option<i64>,
    right: Option<i64>,
    old: &[i64],
    distances: &[u64],
    counts: &[u64],
    neighbours: &[i64],
    sums: &[u64],
    answer: &mut [i64],
)
    requires answer_value { is_taken (request_of left right old.now distances.now counts.now neighbours.now (ratings_between sums.now)) answer.old ≡ true }
    requires sums_len { length sums.now ≡ length neighbours.now + 1 }
    ensures { answer.new ≡ placed_of (request_of left right old.now distances.now counts.now
        neighbours.now (ratings_between sums.now)) }
{
    let r = old.len();
    if r == 0 {
        return;
    }
    let first = members(left);
    let steps = &distances[first..];
    let low = left_limit(left, distances);
    let high = right_limit(right, steps);
    let mut offsets = [0u64; MAX_BOXES];
    place_between(
        low,
        high,
        steps,
        old,
        counts,
        neighbours,
        sums,
        &mut offsets[..r],
        answer,
    );
}
