// Refusal 8 of documents 01 and 02: whether a run that is handed to place-run is taken. Positions are half steps.
ghost use Rattle.std.specs.Prelude.{◌≡◌, true, ◌&&◌, List, ℕ, ◌+◌, ◌-◌, ◌≤◌, ◌<◌, min, eqb, leb, length, get_or, ℤ, pos};
ghost use Rattle.run.specs.Run.{nondecreasing};
ghost use Rattle.run.specs.Words.{is_possible};
ghost use Rattle.ints.specs.Lists.{sum};
ghost use Rattle.ints.specs.Ratings.{is_rating, all_ratings};
ghost use Rattle.ints.specs.Reach.{is_within, all_within};
ghost use Rattle.run.specs.Call.{limit_of, member_of, positions_of, left_distance, other_distances, boxes_from, max_boxes, max_neighbours, is_distance, all_distances, is_taken};
ghost use Rattle.run_columns.specs.inner.Columns.{parts_in_order};

use ints::too_near;
use ints::within::{all_within, is_within};
use run_halves::halves::total;

// "over 64 boxes, over 2,048 neighbours in all"
const MAX_BOXES: u64 = 64;

const MAX_NEIGHBOURS: u64 = 2048;

// "a distance outside 1 to 2^41"
const MAX_DISTANCE: u64 = 1 << 41;

// "outside 1 to 100"
const MAX_RATING: u64 = 100;

// The neighbours in all, or one more than the limit if there are more.
fn neighbours_in_all(counts: &[u64]) -> u64
    ensures { result ≡ min (sum counts.now) (max_neighbours + 1) }
{
    let mut total: u64 = 0;
    for count in counts {
        if MAX_NEIGHBOURS - total < *count {
            return MAX_NEIGHBOURS + 1;
        }
        total += *count;
    }
    total
}

// How many members a side adds.
pub fn members(bound: Option<i64>) -> usize
    ensures { result ≡ member_of bound }
{
    usize::from(bound.is_some())
}

// One less than the members, bounds included; 0 if there are none.
fn distances_due(left: Option<i64>, boxes: u64, right: Option<i64>) -> u64
    requires { boxes ≤ max_boxes }
    ensures { result ≡ member_of left + boxes + member_of right - 1 }
{
    (members(left) as u64 + boxes + members(right) as u64).saturating_sub(1)
}

// A side with no bound hands in no position.
fn bound_within(bound: Option<i64>) -> bool
    ensures { result ≡ all_within (positions_of bound) }
{
    bound.is_none_or(is_within)
}

// Whether a distance is from 1 to 2^41.
fn is_distance(d: u64) -> bool
    ensures { result ≡ is_distance d }
{
    1 <= d && d <= MAX_DISTANCE
}

fn all_distances(distances: &[u64]) -> bool
    ensures { result ≡ all_distances distances.now }
{
    distances.iter().all(|d| is_distance(*d))
}

// Whether a rating is from 1 to 100.
fn is_rating(w: u64) -> bool
    ensures { result ≡ is_rating w }
{
    1 <= w && w <= MAX_RATING
}

fn all_ratings(ratings: &[u64]) -> bool
    ensures { result ≡ all_ratings ratings.now }
{
    ratings.iter().all(|w| is_rating(*w))
}

// Whether the first and the last are within ±2^40.
fn ends_within(positions: &[i64]) -> bool
    ensures { result ≡ (is_within (get_or positions.now 0 (pos 0)) && is_within (get_or positions.now (length positions.now - 1) (pos 0))) }
{
    positions.first().is_none_or(|x| is_within(*x))
        && positions.last().is_none_or(|x| is_within(*x))
}

// Whether the neighbours of one box are within ±2^40 and in nondecreasing order. In that order none is farther out than the
// first or the last.
fn part_is_taken(positions: &[i64]) -> bool
    ensures { result ≡ (all_within positions.now && nondecreasing positions.now) }
{
    positions.is_sorted() && ends_within(positions)
}

// Whether those of every box are; each box has as many as its count says.
fn neighbours_are_taken(counts: &[u64], neighbours: &[i64]) -> bool
    requires { length neighbours.now ≡ sum counts.now }
    ensures { result ≡ (all_within neighbours.now && parts_in_order counts.now neighbours.now) }
{
    let mut from: usize = 0;
    for count in counts {
        let to = from + *count as usize;
        if !part_is_taken(&neighbours[from..to]) {
            return false;
        }
        from = to;
    }
    true
}

// Whether the bounds, if both are there, are not nearer than their distance.
fn is_possible(left: Option<i64>, right: Option<i64>, distances: &[u64]) -> bool
    requires left_value { (all_within (positions_of left) ≡ true) × (all_within (positions_of right) ≡ true) }
    requires distances_len_bound { (length distances.now ≤ max_boxes + 1) × (all_distances distances.now ≡ true) }
    ensures { (old : List ℤ) (counts : List ℕ) (neighbours : List ℤ) (ratings : List ℕ) → length old ≡ length counts
        → length distances.now ≡ member_of left + length old + member_of right - 1
        → result ≡ is_possible (limit_of left) (left_distance left distances.now)
        (boxes_from old (other_distances left distances.now) counts neighbours ratings) (limit_of right) }
{
    match (left, right) {
        (Some(l), Some(r)) => !too_near(l, r, total(distances) as u64),
        _ => true,
    }
}

// Whether there are no more boxes and neighbours in all than a run may have, and what comes with them is as long.
fn is_sized(
    r: u64,
    total: u64,
    old: &[i64],
    counts: &[u64],
    neighbours: &[i64],
    ratings: &[u64],
    answer: &[i64],
) -> bool
    ensures { result ≡ (leb r max_boxes && leb total max_neighbours && eqb (length answer.now) r && eqb (length old.now) r
        && eqb (length counts.now) r && eqb (length neighbours.now) total && eqb (length ratings.now) total) }
{
    r <= MAX_BOXES
        && total <= MAX_NEIGHBOURS
        && answer.len() as u64 == r
        && old.len() as u64 == r
        && counts.len() as u64 == r
        && neighbours.len() as u64 == total
        && ratings.len() as u64 == total
}

// Whether the bounds, old positions, distances and ratings are within their limits.
fn is_within_limits(
    left: Option<i64>,
    right: Option<i64>,
    old: &[i64],
    distances: &[u64],
    ratings: &[u64],
) -> bool
    ensures { result ≡ (all_within (positions_of left) && all_within (positions_of right) && all_within old.now
        && all_distances distances.now && all_ratings ratings.now) }
{
    bound_within(left)
        && bound_within(right)
        && all_within(old)
        && all_distances(distances)
        && all_ratings(ratings)
}

// Whether place-run takes the run: the tests of refusal 8.
pub fn is_taken(
    r: u64,
    left: Option<i64>,
    right: Option<i64>,
    old: &[i64],
    distances: &[u64],
    counts: &[u64],
    neighbours: &[i64],
    ratings: &[u64],
    answer: &[i64],
) -> bool
    ensures { result ≡ is_taken (record {
      boxes = r;
      left = left;
      right = right;
      old = old.now;
      distances = distances.now;
      counts = counts.now;
      neighbours = neighbours.now;
      ratings = ratings.now;
    }) answer.now }
{
    let total = neighbours_in_all(counts);
    is_sized(r, total, old, counts, neighbours, ratings, answer)
        && distances.len() as u64 == distances_due(left, r, right)
        && is_within_limits(left, right, old, distances, ratings)
        && neighbours_are_taken(counts, neighbours)
        && is_possible(left, right, distances)
}
