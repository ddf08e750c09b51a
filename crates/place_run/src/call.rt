// The call place-run.
ghost use Rattle.std.specs.Prelude.{◌≡◌, true, ◌+◌, ◌<◌, ◌≤◌, length};
ghost use Rattle.run.specs.Call.{Outcome, call_of, is_taken, placed_of, max_neighbours};
ghost use Rattle.place_run.specs.inner.Requests.{request_of};

use crate::place::{MAX_NEIGHBOURS, place};
use crate::refusal::is_taken;
use ints::refusal::Refusal;
use run_columns::offsets::fill_offsets;

// How many sums the least working space holds, the lesser and the greatest: one more than neighbours in all.
const FEW: usize = 33;

const SOME: usize = 257;

const MANY: usize = MAX_NEIGHBOURS + 1;

// Places a run that is taken, with working space for sums of its ratings so far: they are the offsets that such distances would give.
fn place_summed(
    left: Option<i64>,
    right: Option<i64>,
    old: &[i64],
    distances: &[u64],
    counts: &[u64],
    neighbours: &[i64],
    ratings: &[u64],
    sums: &mut [u64],
    answer: &mut [i64],
)
    requires answer_value { is_taken (request_of left right old.now distances.now counts.now neighbours.now ratings.now) answer.old ≡ true }
    requires sums_len { length sums.old ≡ length ratings.now + 1 }
    ensures { answer.new ≡ placed_of (request_of left right old.now distances.now counts.now
        neighbours.now ratings.now) }
{
    fill_offsets(ratings, sums);
    place(
        left, right, old, distances, counts, neighbours, sums, answer,
    );
}

// The same with working space for N sums.
fn place_in<const N: usize>(
    left: Option<i64>,
    right: Option<i64>,
    old: &[i64],
    distances: &[u64],
    counts: &[u64],
    neighbours: &[i64],
    ratings: &[u64],
    answer: &mut [i64],
)
    requires answer_value { is_taken (request_of left right old.now distances.now counts.now neighbours.now ratings.now) answer.old ≡ true }
    requires few { (length ratings.now < N) × (N ≤ max_neighbours + 1) }
    ensures { answer.new ≡ placed_of (request_of left right old.now distances.now counts.now
        neighbours.now ratings.now) }
{
    let mut sums = [0u64; N];
    place_summed(
        left,
        right,
        old,
        distances,
        counts,
        neighbours,
        ratings,
        &mut sums[..ratings.len() + 1],
        answer,
    );
}

// The same with as much working space as they ask for, little where there are few neighbours.
fn place_rated(
    left: Option<i64>,
    right: Option<i64>,
    old: &[i64],
    distances: &[u64],
    counts: &[u64],
    neighbours: &[i64],
    ratings: &[u64],
    answer: &mut [i64],
)
    requires { is_taken (request_of left right old.now distances.now counts.now neighbours.now ratings.now) answer.old ≡ true }
    ensures { answer.new ≡ placed_of (request_of left right old.now distances.now counts.now
        neighbours.now ratings.now) }
{
    let n = ratings.len();
    if n < FEW {
        place_in::<FEW>(
            left, right, old, distances, counts, neighbours, ratings, answer,
        );
    } else if n < SOME {
        place_in::<SOME>(
            left, right, old, distances, counts, neighbours, ratings, answer,
        );
    } else {
        place_in::<MANY>(
            left, right, old, distances, counts, neighbours, ratings, answer,
        );
    }
}

// Places a run of r boxes into the lent answer, or refuses it (8) and leaves the answer as it was.
pub fn place_run(
    r: u64,
    left: Option<i64>,
    right: Option<i64>,
    old: &[i64],
    distances: &[u64],
    counts: &[u64],
    neighbours: &[i64],
    ratings: &[u64],
    answer: &mut [i64],
) -> Result<(), Refusal>
    ensures { Outcome (call_of (record {
      boxes = r;
      left = left;
      right = right;
      old = old.now;
      distances = distances.now;
      counts = counts.now;
      neighbours = neighbours.now;
      ratings = ratings.now;
    }) answer.old) result answer.new }
{
    if !is_taken(
        r, left, right, old, distances, counts, neighbours, ratings, answer,
    ) {
        return Err(Refusal::Run);
    }
    place_rated(
        left, right, old, distances, counts, neighbours, ratings, answer,
    );
    Ok(())
}
